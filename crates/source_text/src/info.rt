//! A text with its lines.
ghost use Rattle.std.specs.Prelude.{◌≡◌, ◌+◌, ◌≤◌, length, slice_range, IfOk};
ghost use Rattle.std.specs.Str.{IsCharBoundary, chars};
ghost use Rattle.source_text.specs.Lines as spec;
ghost use Rattle.source_text.specs.Lines.{IsStart, IsStop, IsEnd, IsLineText, IsDisplay, last_line};

use crate::display::LineAndColumnDisplay;
use crate::starts::line_starts;
use crate::text::SourceText;
use base::Range;
use std::alloc::{AllocError, Global};
use std::marker::Model;

/// A text, and where its lines start. Contracts see it as its text.
#[derive(Drop)]
pub struct SourceTextInfo {
    text: SourceText,
    line_starts: Vec<usize>,
}

impl Model for SourceTextInfo {
    ghost use Rattle.std.specs.Prelude.{ℕ, List};
    ghost use Rattle.source_text.specs.Table.{IsTable};

    ghost Value = { List ℕ };

    ghost view = { λ info. info.text };

    ghost invariant = { λ info. IsTable info.text info.line_starts.items };
}

impl SourceTextInfo {
    /// Goes over the text once.
    pub fn new(alloc: Global, text: SourceText) -> Result<SourceTextInfo, AllocError>
        ensures { IfOk result (λ info. info ≡ text) }
    {
        let line_starts = line_starts(alloc, text.as_str())?;
        Ok(SourceTextInfo { text, line_starts })
    }

    pub fn text_str(&self) -> &str
        ensures { result.now ≡ self.now }
    {
        self.text.as_str()
    }

    /// The line, from 0, of a place. The line end itself belongs to the line that it ends.
    pub fn line_index(&self, pos: usize) -> usize
        requires { pos ≤ length self.now }
        ensures { result ≡ spec.line_index self.now pos }
    {
        self.line_number(pos) - 1
    }

    // The line, from 1, of a place: so many lines start up to there.
    fn line_number(&self, pos: usize) -> usize
        requires { pos ≤ length self.now }
        ensures { result ≡ spec.line_index self.now pos + 1 }
    {
        self.line_starts.partition_point(|start| *start <= pos)
    }

    /// The place where a line, counted from 0, starts.
    pub fn line_start(&self, line: usize) -> usize
        requires { line ≤ last_line self.now }
        ensures { IsStart self.now line result }
    {
        self.line_starts[line]
    }

    // The place of the line end, or the end of the text in the last line.
    fn line_stop(&self, line: usize) -> usize
        requires { line ≤ last_line self.now }
        ensures { IsStop self.now line result }
    {
        match self.line_starts.get(line + 1) {
            Some(next) => *next - 1,
            None => self.text.len(),
        }
    }

    /// The offset after the last character of a line, counted from 0: before its U+000A, and before a U+000D directly
    /// before that. The last line ends with the text.
    pub fn line_end(&self, line: usize) -> usize
        requires { line ≤ last_line self.now }
        ensures { IsEnd self.now line result }
    {
        let stop = self.line_stop(line);
        before_return(self.text_str(), stop)
    }

    /// The text of a line, counted from 0, without its line end.
    pub fn line_text(&self, line: usize) -> &str
        requires { line ≤ last_line self.now }
        ensures { IsLineText self.now line result.now }
    {
        let start = self.line_start(line);
        let end = self.line_end(line);
        &self.text_str()[start..end]
    }

    pub fn range_text(&self, range: &Range) -> &str
        requires order { range.now.start ≤ range.now.end }
        requires starts { IsCharBoundary self.now range.now.start }
        requires ends { IsCharBoundary self.now range.now.end }
        ensures { result.now ≡ slice_range self.now range.now.start range.now.end }
    {
        &self.text_str()[range.start..range.end]
    }

    /// The line and the column of a place between characters, both from 1.
    pub fn line_and_column_display(&self, pos: usize) -> LineAndColumnDisplay
        requires { IsCharBoundary self.now pos }
        ensures { IsDisplay self.now pos result }
    {
        let line = self.line_index(pos);
        let start = self.line_start(line);
        LineAndColumnDisplay {
            line_number: self.line_number(pos),
            column_number: char_count(&self.text_str()[start..pos]) + 1,
        }
    }
}

// The offset of a U+000D directly before the line end at `stop`, else `stop`.
fn before_return(text: &str, stop: usize) -> usize
    requires { stop ≤ length text.now }
    ensures { result ≡ spec.before_return text.now stop }
{
    let bytes = text.as_bytes();
    if 0 < stop && stop < bytes.len() && bytes[stop - 1] == b'\r' {
        stop - 1
    } else {
        stop
    }
}

fn char_count(text: &str) -> usize
    ensures value { result ≡ length (chars text.now) }
    ensures most { result ≤ length text.now }
{
    text.chars().count()
}
