//! Parts that are written as they are.

ghost use Rattle.std.specs.Prelude.{◌≡◌, false, ℕ, List, [], ◌∷◌};
ghost use Rattle.es_token.specs.declared.token.Token.{Token as Tok};
ghost use Rattle.es_lowering.specs.Value.{part};
ghost use Rattle.es_syntax.specs.Held.{held, valued};
ghost use Rattle.es_changed.specs.Shape.{Writes};
ghost use Rattle.dts_draft.specs.Drafts.{state_of};
ghost use Rattle.dts_enums.specs.Enums.{Copies, Something};

use dts_draft::Draft;
use es_syntax::{Item, Siblings};

/// Writes all parts.
#[tactic(auto, using(crate::proofs::CopyLemmas::copies_all, crate::proofs::CopyLemmas::copies_done))]
pub fn keep_parts(out: &mut Draft, parts: &Siblings<'_>)
    ensures before { out.new.failed ≡ false → out.old.failed ≡ false }
    ensures state { state_of out.new ≡ state_of out.old }
    ensures written { out.new.failed ≡ false → (x : List ℕ) (ts : List Tok) → Copies x ts out.old.row out.new.row (held x ts parts.now.entries.now) }
{
    let mut row = *parts;
    while let Some((it, rest)) = row.split() {
        out.keep_there(&it);
        row = rest;
    }
}

/// Writes all parts but the first.
#[tactic(auto, using(crate::proofs::CopyLemmas::copies_something, crate::proofs::CopyLemmas::nothing_more))]
pub fn keep_others(out: &mut Draft, parts: &Siblings<'_>)
    ensures before { out.new.failed ≡ false → out.old.failed ≡ false }
    ensures state { state_of out.new ≡ state_of out.old }
    ensures written { out.new.failed ≡ false → (x : List ℕ) (ts : List Tok) → Something x ts out.old.row out.new.row }
{
    if let Some((_, others)) = parts.split() {
        keep_parts(out, &others);
    }
}

/// Writes the part at a place; without one the row isn't one of a program.
pub fn keep_part(out: &mut Draft, parts: &Siblings<'_>, n: usize)
    ensures before { out.new.failed ≡ false → out.old.failed ≡ false }
    ensures state { state_of out.new ≡ state_of out.old }
    ensures written { out.new.failed ≡ false → (x : List ℕ) (ts : List Tok) → Writes x ts out.old.row out.new.row (part (held x ts parts.now.entries.now) n ∷ []) }
{
    match parts.part(n) {
        Some(it) => out.keep_there(&it),
        None => out.fail(),
    }
}
