//! A page in the making: what is printed of a tree is written piece by piece.

ghost use Rattle.std.specs.Prelude.{◌≡◌, ◌∷◌, [], OnOk, if◌then◌else◌};
ghost use Rattle.es_printer.specs.Sheet.{put, ended};
ghost use Rattle.es_printer.specs.Laid.{Grows};

use crate::page::Page;
use crate::piece::{Piece, Source};
use crate::style::Ends;
use std::alloc::AllocError;

/// The page so far, and the first token that isn't printed yet.
#[derive(Drop)]
pub struct Draft<'a> {
    pub page: Page<'a>,
    pub next: u32,
}

impl<'a> Draft<'a> {
    #[inline(always)]
    #[tactic(auto, using(crate::proofs::LaidLemmas::grown))]
    pub fn push(&mut self, source: &Source<'_>, piece: Piece) -> Result<(), AllocError>
        ensures { OnOk result (Grows source.now (put (piece ∷ [])) self.old self.new) }
    {
        self.page.step(source, piece)
    }

    #[inline(always)]
    #[tactic(auto, using(crate::proofs::LaidLemmas::none, crate::proofs::LaidLemmas::same))]
    pub fn push_if(&mut self, source: &Source<'_>, so: bool, piece: Piece) -> Result<(), AllocError>
        ensures { OnOk result (Grows source.now (put (if so then piece ∷ [] else [])) self.old self.new) }
    {
        if so {
            return self.push(source, piece);
        }
        Ok(())
    }

    #[inline(always)]
    #[tactic(auto, using(crate::proofs::LaidLemmas::none, crate::proofs::LaidLemmas::same))]
    pub fn push_ended(&mut self, source: &Source<'_>, ends: Ends) -> Result<(), AllocError>
        ensures { OnOk result (Grows source.now (put (ended ends)) self.old self.new) }
    {
        match ends {
            Ends::Never => Ok(()),
            Ends::Always => self.push(source, Piece::End),
            Ends::Bare => self.push(source, Piece::BareEnd),
        }
    }
}
