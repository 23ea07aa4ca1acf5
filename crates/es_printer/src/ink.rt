//! A text in the making that has parts of a source. Parts that are side by side there are copied at once.

ghost use Rattle.std.specs.Prelude.{◌≡◌, ◌++◌, ◌∷◌, ◌≤◌, [], OnOk, IfOk, IsTrue, slice_range, string_bytes};
ghost use Rattle.std.specs.Fmt.{decimal};
ghost use Rattle.es_printer.specs.Lines.{indent};
ghost use Rattle.es_printer.specs.Inked.{inked, between};

use std::alloc::{AllocError, Global};
use std::marker::Model;

/// The text so far, and after it what is taken of the source and isn't copied yet.
#[derive(Drop)]
pub struct Ink<'a> {
    source: &'a str,
    text: String,
    from: usize,
    to: usize,
}

impl<'a> Model for Ink<'a> {
    ghost use Rattle.std.specs.Prelude.{◌++◌, slice_range, string_bytes};
    ghost use Rattle.es_printer.specs.Inked.{Inked};

    ghost Value = { Inked };

    ghost view = { λ p. record { source = p.source.now; text = string_bytes p.text ++ slice_range p.source.now p.from p.to } };
}

/// Appends a part of a source to a text; one that is cut inside a character is reported as out of memory.
fn copy(text: &mut String, source: &str, from: usize, to: usize) -> Result<(), AllocError>
    ensures { OnOk result (string_bytes text.new ≡ string_bytes text.old ++ slice_range source.now from to) }
{
    if from <= to && source.is_char_boundary(from) && source.is_char_boundary(to) {
        return text.push_str(&source[from..to]);
    }
    Err(AllocError)
}

/// The same, and one blank after it or none.
fn copy_with(
    text: &mut String,
    source: &str,
    from: usize,
    to: usize,
    blank: bool,
) -> Result<(), AllocError>
    ensures { OnOk result (string_bytes text.new ≡ (string_bytes text.old ++ slice_range source.now from to) ++ between blank) }
{
    copy(text, source, from, to)?;
    if blank {
        return text.push(' ');
    }
    Ok(())
}

#[tactic(auto, using(crate::proofs::LineLemmas::indent_end, crate::proofs::LineLemmas::indent_more))]
fn indent(out: &mut String, depth: u32) -> Result<(), AllocError>
    ensures { OnOk result (string_bytes out.new ≡ string_bytes out.old ++ indent depth) }
{
    let mut left = depth;
    while 0 < left {
        out.push_str("  ")?;
        left -= 1;
    }
    Ok(())
}

/// Whether a part of the source is directly after another, or with one blank between.
#[inline(always)]
#[tactic(auto, using(crate::proofs::InkLemmas::no_blank, crate::proofs::InkLemmas::one_blank))]
fn is_behind(source: &str, to: usize, blank: bool, start: usize) -> bool
    ensures order { IsTrue result → to ≤ start }
    ensures text { IsTrue result → slice_range source.now to start ≡ between blank }
{
    if blank {
        return match source.as_bytes().get(to) {
            Some(byte) => *byte == 32 && to < start && start - to == 1,
            None => false,
        };
    }
    start == to
}

impl<'a> Ink<'a> {
    /// An empty text, with room for the whole source.
    #[tactic(auto, using(crate::proofs::InkLemmas::none_taken))]
    pub fn new(alloc: Global, source: &'a str) -> Result<Ink<'a>, AllocError>
        ensures { IfOk result (λ ink. ink ≡ record { source = source.now; text = [] }) }
    {
        Ok(Ink {
            source,
            text: String::with_capacity(alloc, source.len())?,
            from: 0,
            to: 0,
        })
    }

    /// What is written.
    pub fn finished(self) -> Result<String, AllocError>
        ensures { IfOk result (λ text. string_bytes text ≡ self.entry.text) }
    {
        let Ink {
            source,
            mut text,
            from,
            to,
        } = self;
        copy(&mut text, source, from, to)?;
        Ok(text)
    }

    /// Another text.
    #[tactic(auto, using(crate::proofs::InkLemmas::none_taken))]
    pub fn push_str(&mut self, text: &str) -> Result<(), AllocError>
        ensures { OnOk result (self.new ≡ inked text.now self.old) }
    {
        copy(&mut self.text, self.source, self.from, self.to)?;
        self.from = self.to;
        self.text.push_str(text)
    }

    /// A number in decimal.
    #[tactic(auto, using(crate::proofs::InkLemmas::none_taken))]
    pub fn push_number(&mut self, number: u32) -> Result<(), AllocError>
        ensures { OnOk result (self.new ≡ inked (decimal number) self.old) }
    {
        copy(&mut self.text, self.source, self.from, self.to)?;
        self.from = self.to;
        write!(self.text, "{number}")
    }

    /// A line end, and two blanks a step.
    #[tactic(auto, using(crate::proofs::InkLemmas::none_taken))]
    pub fn line(&mut self, depth: u32) -> Result<(), AllocError>
        ensures { OnOk result (self.new ≡ inked (10 ∷ indent depth) self.old) }
    {
        copy(&mut self.text, self.source, self.from, self.to)?;
        self.from = self.to;
        self.text.push('\n')?;
        indent(&mut self.text, depth)
    }

    /// A part of the source, after one blank or none.
    #[inline(always)]
    #[tactic(auto, using(crate::proofs::InkLemmas::taken))]
    pub fn take(&mut self, blank: bool, start: usize, end: usize) -> Result<(), AllocError>
        ensures { OnOk result (self.new ≡ inked (between blank ++ slice_range self.old.source start end) self.old) }
    {
        if start <= end && self.from <= self.to && is_behind(self.source, self.to, blank, start) {
            self.to = end;
            return Ok(());
        }
        copy_with(&mut self.text, self.source, self.from, self.to, blank)?;
        self.from = start;
        self.to = end;
        Ok(())
    }
}
