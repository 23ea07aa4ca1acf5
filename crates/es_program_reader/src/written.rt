//! Whether a row that a writer left is sound: by one loop over its entries, with no look at what holds no target.

ghost use Rattle.std.specs.Prelude.{◌≡◌, ◌<◌, length, is_none, IfSome};
ghost use Rattle.es_syntax.specs.Trees.{trees};
ghost use Rattle.es_program_reader.specs.Sound.{are_sound};
ghost use Rattle.es_program_reader.specs.Rows.{trees_at, holds_target, each_holds_target, next_holds_target};
ghost use Rattle.es_program_reader.specs.Derived.{IsWritten};

use crate::simple::first_is_simple;
use crate::sound::{first_unsound, may_hold};
use es_syntax::{Item, Siblings, What};

/// The first entry with its parts, and all entries after it, those of its parts among them.
#[tactic(auto, using(crate::proofs::WrittenLemmas::next_none, crate::proofs::WrittenLemmas::next_some))]
fn next_entry<'a>(row: Siblings<'a>) -> Option<(Item<'a>, Siblings<'a>)>
    ensures next { each_holds_target row.entry.entries.now ≡ next_holds_target result }
    ensures below { IfSome result (λ p. length p.1.entries.now < length row.entry.entries.now) }
{
    match row.entries.split_first() {
        None => None,
        Some((head, behind)) => {
            let cut = (head.size as usize).min(behind.len());
            let item = Item {
                what: head.what,
                from: head.from,
                to: head.to,
                parts: Siblings {
                    entries: &behind[..cut],
                },
            };
            Some((item, Siblings { entries: behind }))
        }
    }
}

/// What is assigned to, or updated, by this item is a simple target.
#[inline(always)]
fn holds_target(item: Item<'_>) -> bool
    ensures { result ≡ holds_target item.entry.what (trees_at item.entry.parts) }
{
    match item.what {
        What::Leaf => true,
        What::Node(label) => may_hold(label, item.parts),
        What::Role(_) => first_is_simple(item.parts),
        What::Parts => true,
        What::Lean(_) => true,
    }
}

/// So it is by each entry.
fn each_holds_target(row: Siblings<'_>) -> bool
    ensures { result ≡ each_holds_target row.entry.entries.now }
{
    let mut entries = row;
    while let Some((item, behind)) = next_entry(entries) {
        if !holds_target(item) {
            return false;
        }
        entries = behind;
    }
    true
}

/// The same as `first_unsound`, of a row that a writer left: what isn't sound is searched for only where there is some.
#[tactic(auto, using(crate::proofs::WrittenLemmas::written_sound))]
pub fn first_unsound_written(row: Siblings<'_>) -> Option<u32>
    requires { IsWritten row.entries.now }
    ensures { is_none result ≡ are_sound (trees row.entry.entries.now) }
{
    if each_holds_target(row) {
        return None;
    }
    first_unsound(row)
}
