//! The parts in a changed row.

ghost use Rattle.std.specs.Prelude.{◌≡◌, ◌+◌, ◌<◌, List, length, IfSome};
ghost use Rattle.es_token.specs.declared.token.Token.{Token};
ghost use Rattle.es_changed_printer.specs.Pieces.{parts, first_part};

use es_changed::{ChangedItem, ChangedSiblings};

/// The first part in a row, and those after it.
#[inline(always)]
#[tactic(auto, using(crate::proofs::RowLemmas::parts_none, crate::proofs::RowLemmas::parts_some))]
pub fn split<'t>(row: &ChangedSiblings<'t>) -> Option<(ChangedItem<'t>, ChangedSiblings<'t>)>
    ensures parts { (ts : List Token) → parts ts row.now.entries.now ≡ first_part ts result }
    ensures below { IfSome result (λ p. length p.0.parts.entries.now + length p.1.entries.now < length row.now.entries.now) }
{
    match row.entries.split_first() {
        None => None,
        Some((head, behind)) => {
            let cut = (head.size as usize).min(behind.len());
            let (parts, rest) = behind.split_at(cut);
            let item = ChangedItem {
                change: head.change,
                from: head.from,
                to: head.to,
                parts: ChangedSiblings { entries: parts },
            };
            Some((item, ChangedSiblings { entries: rest }))
        }
    }
}
