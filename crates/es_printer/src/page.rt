//! The lines of what is printed, written piece by piece.

ghost use Rattle.std.specs.Prelude.{◌≡◌, ◌++◌, OnOk, IfOk, string_bytes, slice_get, slice_range};
ghost use Rattle.std.specs.Option.{option_map};
ghost use Rattle.es_printer.specs.Inked.{between};
ghost use Rattle.es_printer.specs.Paper.{lines_of};
ghost use Rattle.es_printer.specs.Made.{stand_of, kind_of, front_of, number_of, digits_of, text_of};
ghost use Rattle.es_printer.specs.Lines.{is_apart, joins, gap, write, line_before, line_behind, token, semicolon, bare_end, closed, opened, closed_by, comment_line, comment_lines, leading, step, finished, start};

use crate::ink::Ink;
use crate::made::{Made, front_of, kind_of, number_of, stand_of};
use crate::piece::{Last, Left, Piece, Right, Source, Stand};
use es_comments::MultiThreadedComments;
use es_token::{Comment, CommentKind, Token, TokenKind};
use std::alloc::{AllocError, Global};

/// What is written so far, how deep the line is, and what was written last.
#[derive(Drop)]
pub struct Page<'a> {
    pub ink: Ink<'a>,
    pub depth: u32,
    pub last: Last,
}

// ---- all rules of blanks

#[inline(always)]
fn is_apart(right: Right, left: Left) -> bool
    ensures { result ≡ is_apart right left }
{
    match left {
        Left::Never => false,
        Left::Apart => true,
        Left::Run => match right {
            Right::Run => false,
            Right::Word | Right::Ends | Right::Body | Right::Apart | Right::Tight => true,
        },
        Left::Word => match right {
            Right::Tight => false,
            Right::Word | Right::Ends | Right::Body | Right::Apart | Right::Run => true,
        },
        Left::Begins => match right {
            Right::Ends | Right::Body | Right::Tight => false,
            Right::Word | Right::Apart | Right::Run => true,
        },
        Left::Tight => match right {
            Right::Apart | Right::Run => true,
            Right::Word | Right::Ends | Right::Body | Right::Tight => false,
        },
    }
}

/// Whether two tokens would be read as others.
#[inline(always)]
#[tactic(auto, unfolding(crate::specs::Lines::joins))]
fn joins(before: TokenKind, kind: TokenKind) -> bool
    ensures { result ≡ joins before kind }
{
    (before == TokenKind::Plus && (kind == TokenKind::Plus || kind == TokenKind::PlusPlus))
        || (before == TokenKind::Minus
            && (kind == TokenKind::Minus || kind == TokenKind::MinusMinus))
        || (before == TokenKind::Less && kind == TokenKind::Less)
        || (before == TokenKind::Number && kind == TokenKind::Dot)
}

// ---- lines

fn opened(kind: CommentKind) -> &'static str
    ensures { result.now ≡ opened kind }
{
    match kind {
        CommentKind::Line => "//",
        CommentKind::Block => "/*",
    }
}

fn closed_by(kind: CommentKind) -> &'static str
    ensures { result.now ≡ closed_by kind }
{
    match kind {
        CommentKind::Line => "",
        CommentKind::Block => "*/",
    }
}

impl<'a> Page<'a> {
    pub fn new(alloc: Global, source: &'a str) -> Result<Page<'a>, AllocError>
        ensures lines { IfOk result (λ page. lines_of page ≡ start) }
        ensures source { IfOk result (λ page. page.ink.source ≡ source.now) }
    {
        Ok(Page {
            ink: Ink::new(alloc, source)?,
            depth: 0,
            last: Last::Nothing,
        })
    }

    /// What is written, with a line end after the last line.
    pub fn finished(self) -> Result<String, AllocError>
        ensures { IfOk result (λ text. string_bytes text ≡ finished (lines_of self.entry)) }
    {
        let Page {
            mut ink,
            depth: _,
            last,
        } = self;
        match last {
            Last::Line => ink.push_str("\n")?,
            Last::Nothing | Last::Token(_, _) => {}
        }
        ink.finished()
    }

    /// A line's end and the blanks before its first token; the answer is whether one blank is to be written.
    #[inline(always)]
    fn gap(&mut self, left: Left, kind: TokenKind) -> Result<bool, AllocError>
        ensures text { IfOk result (λ blank. self.new.ink.text ++ between blank ≡ self.old.ink.text ++ gap self.old.depth self.old.last left kind) }
        ensures source { OnOk result (self.new.ink.source ≡ self.old.ink.source) }
        ensures depth { OnOk result (self.new.depth ≡ self.old.depth) }
    {
        match self.last {
            Last::Nothing => Ok(false),
            Last::Line => {
                self.ink.line(self.depth)?;
                Ok(false)
            }
            Last::Token(right, before) => Ok(is_apart(right, left) || joins(before, kind)),
        }
    }

    /// A part of the source.
    #[inline(always)]
    #[tactic(auto, using(crate::proofs::InkLemmas::behind_gap))]
    fn write_part(
        &mut self,
        left: Left,
        right: Right,
        kind: TokenKind,
        start: usize,
        end: usize,
    ) -> Result<(), AllocError>
        ensures lines { OnOk result (lines_of self.new ≡ write left right kind (slice_range self.old.ink.source start end) (lines_of self.old)) }
        ensures source { OnOk result (self.new.ink.source ≡ self.old.ink.source) }
    {
        let blank = self.gap(left, kind)?;
        self.ink.take(blank, start, end)?;
        self.last = Last::Token(right, kind);
        Ok(())
    }

    /// What comes before another text.
    fn begin(&mut self, left: Left, kind: TokenKind) -> Result<(), AllocError>
        ensures text { OnOk result (self.new.ink.text ≡ self.old.ink.text ++ gap self.old.depth self.old.last left kind) }
        ensures source { OnOk result (self.new.ink.source ≡ self.old.ink.source) }
        ensures depth { OnOk result (self.new.depth ≡ self.old.depth) }
    {
        let blank = self.gap(left, kind)?;
        if blank {
            self.ink.push_str(" ")?;
        }
        Ok(())
    }

    fn line_before(&mut self, less: Option<u8>)
        ensures lines { lines_of self.new ≡ line_before less (lines_of self.old) }
        ensures source { self.new.ink.source ≡ self.old.ink.source }
    {
        if let Some(less) = less {
            self.depth = self.depth.saturating_sub(less as u32);
            self.last = Last::Line;
        }
    }

    /// A depth that doesn't fit in 32 bits is reported as out of memory.
    fn line_behind(&mut self, deeper: Option<u8>) -> Result<(), AllocError>
        ensures lines { OnOk result (lines_of self.new ≡ line_behind deeper (lines_of self.old)) }
        ensures source { OnOk result (self.new.ink.source ≡ self.old.ink.source) }
    {
        if let Some(deeper) = deeper {
            match self.depth.checked_add(deeper as u32) {
                Some(depth) => self.depth = depth,
                None => return Err(AllocError),
            }
            self.last = Last::Line;
        }
        Ok(())
    }

    #[inline(always)]
    fn token(&mut self, stand: Stand, it: Token) -> Result<(), AllocError>
        ensures lines { OnOk result (lines_of self.new ≡ token stand it.kind (slice_range self.old.ink.source it.range.start it.range.end) (lines_of self.old)) }
        ensures source { OnOk result (self.new.ink.source ≡ self.old.ink.source) }
    {
        let range = it.range();
        self.line_before(stand.out);
        self.write_part(stand.left, stand.right, it.kind(), range.start, range.end)?;
        self.line_behind(stand.into)
    }

    fn number(&mut self, number: Option<u32>) -> Result<(), AllocError>
        ensures text { OnOk result (self.new.ink.text ≡ self.old.ink.text ++ digits_of number) }
        ensures source { OnOk result (self.new.ink.source ≡ self.old.ink.source) }
        ensures depth { OnOk result (self.new.depth ≡ self.old.depth) }
    {
        match number {
            Some(number) => self.ink.push_number(number),
            None => Ok(()),
        }
    }

    fn write_made(&mut self, left: Left, right: Right, made: Made) -> Result<(), AllocError>
        ensures lines { OnOk result (lines_of self.new ≡ write left right (kind_of made) (text_of made) (lines_of self.old)) }
        ensures source { OnOk result (self.new.ink.source ≡ self.old.ink.source) }
    {
        let kind = kind_of(made);
        self.begin(left, kind)?;
        self.ink.push_str(front_of(made))?;
        self.number(number_of(made))?;
        self.last = Last::Token(right, kind);
        Ok(())
    }

    /// A token that no text has.
    fn made(&mut self, made: Made) -> Result<(), AllocError>
        ensures lines { OnOk result (lines_of self.new ≡ token (stand_of made) (kind_of made) (text_of made) (lines_of self.old)) }
        ensures source { OnOk result (self.new.ink.source ≡ self.old.ink.source) }
    {
        let stand = stand_of(made);
        self.line_before(stand.out);
        self.write_made(stand.left, stand.right, made)?;
        self.line_behind(stand.into)
    }

    fn semicolon(&mut self) -> Result<(), AllocError>
        ensures lines { OnOk result (lines_of self.new ≡ semicolon (lines_of self.old)) }
        ensures source { OnOk result (self.new.ink.source ≡ self.old.ink.source) }
    {
        self.begin(Left::Never, TokenKind::Semicolon)?;
        self.ink.push_str(";")?;
        self.last = Last::Token(Right::Tight, TokenKind::Semicolon);
        Ok(())
    }

    #[inline(always)]
    fn bare_end(&mut self) -> Result<(), AllocError>
        ensures lines { OnOk result (lines_of self.new ≡ bare_end self.old.last (lines_of self.old)) }
        ensures source { OnOk result (self.new.ink.source ≡ self.old.ink.source) }
    {
        match self.last {
            Last::Token(Right::Body, _) => Ok(()),
            _ => self.semicolon(),
        }
    }

    fn close(&mut self)
        ensures lines { lines_of self.new ≡ record (lines_of self.old) { last = closed self.old.last } }
        ensures source { self.new.ink.source ≡ self.old.ink.source }
    {
        if let Last::Token(_, kind) = self.last {
            self.last = Last::Token(Right::Tight, kind);
        }
    }

    fn comment(&mut self, comment: &Comment) -> Result<(), AllocError>
        ensures lines { OnOk result (lines_of self.new ≡ comment_line (lines_of self.old) comment.now) }
        ensures source { OnOk result (self.new.ink.source ≡ self.old.ink.source) }
    {
        self.begin(Left::Never, TokenKind::Semicolon)?;
        self.ink.push_str(opened(comment.kind))?;
        self.ink.push_str(comment.text.as_str())?;
        self.ink.push_str(closed_by(comment.kind))?;
        self.last = Last::Token(Right::Tight, TokenKind::Semicolon);
        self.line_behind(Some(0))
    }

    fn comments(&mut self, comments: &[Comment]) -> Result<(), AllocError>
        ensures lines { OnOk result (lines_of self.new ≡ comment_lines (lines_of self.old) comments.now) }
        ensures source { OnOk result (self.new.ink.source ≡ self.old.ink.source) }
    {
        for comment in comments {
            self.comment(comment)?;
        }
        Ok(())
    }

    /// The comments that lead at a token, each on a line.
    fn leading(
        &mut self,
        comments: Option<&MultiThreadedComments>,
        token: Option<Token>,
    ) -> Result<(), AllocError>
        ensures lines { OnOk result (lines_of self.new ≡ comment_lines (lines_of self.old) (leading (option_map (λ c. c.now) comments.entry) token)) }
        ensures source { OnOk result (self.new.ink.source ≡ self.old.ink.source) }
    {
        let comments = match comments {
            Some(comments) => comments,
            None => return Ok(()),
        };
        let place = match token {
            Some(token) => token.range().start,
            None => return Ok(()),
        };
        match comments.get_leading(place) {
            Some(comments) => self.comments(comments.as_slice()),
            None => Ok(()),
        }
    }

    /// A piece.
    #[inline(always)]
    #[tactic(auto, unfolding(crate::specs::Lines::step))]
    pub fn step(&mut self, source: &Source<'_>, piece: Piece) -> Result<(), AllocError>
        ensures lines { OnOk result (lines_of self.new ≡ step self.old.ink.source source.now.tokens.now (option_map (λ c. c.now) source.now.comments) (lines_of self.old) piece) }
        ensures source { OnOk result (self.new.ink.source ≡ self.old.ink.source) }
    {
        match piece {
            Piece::Leading(at) => {
                self.leading(source.comments, source.tokens.get(at as usize).copied())
            }
            Piece::Close => {
                self.close();
                Ok(())
            }
            Piece::Token(stand, at) => match source.tokens.get(at as usize) {
                Some(token) => self.token(stand, *token),
                None => Ok(()),
            },
            Piece::Made(made) => self.made(made),
            Piece::End => self.semicolon(),
            Piece::BareEnd => self.bare_end(),
            Piece::Line => self.line_behind(Some(0)),
        }
    }
}
