//! The pieces of a form beside its parts.

ghost use Rattle.std.specs.Prelude.{◌≡◌, OnOk};
ghost use Rattle.es_printer.specs.Sheet.{put};
ghost use Rattle.es_printer.specs.Laid.{Grows};
ghost use Rattle.es_changed_printer.specs.Pieces.{is_part};
ghost use Rattle.es_changed_printer.specs.Signs.{sign, line_end, opens, shuts, ahead, counted};

use crate::signs::{Place, ends_line, first_sign, last_sign, next_place, second_sign, sign_ahead};
use es_changed::{Change, Form};
use es_printer::{Draft, Made, Piece, Source};
use std::alloc::AllocError;

/// A token that no text has, where there is one.
#[tactic(auto, using(es_printer::proofs::LaidLemmas::none, es_printer::proofs::LaidLemmas::same))]
fn push_sign(out: &mut Draft<'_>, source: &Source<'_>, it: Option<Made>) -> Result<(), AllocError>
    ensures { OnOk result (Grows source.now (put (sign it)) out.old out.new) }
{
    match it {
        Some(it) => out.push(source, Piece::Made(it)),
        None => Ok(()),
    }
}

/// `;` and a line end, or neither.
#[tactic(auto, using(es_printer::proofs::LaidLemmas::none, es_printer::proofs::LaidLemmas::same, es_printer::proofs::LaidLemmas::both))]
fn push_end(out: &mut Draft<'_>, source: &Source<'_>, ends: bool) -> Result<(), AllocError>
    ensures { OnOk result (Grows source.now (put (line_end ends)) out.old out.new) }
{
    if ends {
        out.push(source, Piece::End)?;
        return out.push(source, Piece::Line);
    }
    Ok(())
}

/// Before the parts.
#[tactic(auto, unfolding(crate::specs::Signs::opens), using(es_printer::proofs::LaidLemmas::both))]
pub fn open(
    out: &mut Draft<'_>,
    source: &Source<'_>,
    form: Form,
    number: u32,
) -> Result<(), AllocError>
    ensures { OnOk result (Grows source.now (put (opens form number)) out.old out.new) }
{
    push_sign(out, source, first_sign(form, number))?;
    push_sign(out, source, second_sign(form))
}

/// Behind the parts.
#[tactic(auto, unfolding(crate::specs::Signs::shuts), using(es_printer::proofs::LaidLemmas::both))]
pub fn shut(out: &mut Draft<'_>, source: &Source<'_>, form: Form) -> Result<(), AllocError>
    ensures { OnOk result (Grows source.now (put (shuts form)) out.old out.new) }
{
    push_sign(out, source, last_sign(form))?;
    push_end(out, source, ends_line(form))
}

/// Whether it is a part.
pub fn is_part(change: Change) -> bool
    ensures { result ≡ is_part change }
{
    match change {
        Change::Gone => false,
        Change::Old(_) | Change::Form(_) | Change::Word(_) => true,
    }
}

/// Before a part.
#[tactic(auto, using(es_printer::proofs::LaidLemmas::none, es_printer::proofs::LaidLemmas::same))]
pub fn push_ahead(
    out: &mut Draft<'_>,
    source: &Source<'_>,
    form: Form,
    place: Place,
    counts: bool,
) -> Result<(), AllocError>
    ensures { OnOk result (Grows source.now (put (ahead form place counts)) out.old out.new) }
{
    if counts {
        return push_sign(out, source, sign_ahead(form, place));
    }
    Ok(())
}

/// The place of the next part.
pub fn counted(place: Place, counts: bool) -> Place
    ensures { result ≡ counted place counts }
{
    if counts { next_place(place) } else { place }
}
