//! Cursors over the parts of a node, of a group and of a list, by the trees that they are.

ghost use Rattle.std.specs.Prelude.{◌≡◌, ◌+◌, ◌≤◌, ◌<◌, length, IfSome};
ghost use Rattle.es_syntax.specs.Trees.{trees};
ghost use Rattle.es_walk.specs.Rows.{tree_at, first_trees, nth, tree_there, group_of, group_there, follow_trees};

use crate::step::Path;
use es_syntax::{Item, Siblings, What};

/// The first part in a row, and those after it.
#[tactic(auto, using(crate::proofs::RowLemmas::trees_none, crate::proofs::RowLemmas::trees_some))]
pub fn split_trees<'t>(row: &Siblings<'t>) -> Option<(Item<'t>, Siblings<'t>)>
    ensures trees { trees row.now.entries.now ≡ first_trees result }
    ensures below { IfSome result (λ p. length p.0.parts.entries.now + length p.1.entries.now < length row.now.entries.now) }
{
    match row.entries.split_first() {
        None => None,
        Some((head, after)) => {
            let cut = (head.size as usize).min(after.len());
            let (parts, rest) = after.split_at(cut);
            let item = Item {
                what: head.what,
                from: head.from,
                to: head.to,
                parts: Siblings { entries: parts },
            };
            Some((item, Siblings { entries: rest }))
        }
    }
}

/// The part at a place.
pub fn part<'t>(parts: &Siblings<'t>, n: usize) -> Option<Item<'t>>
    ensures tree { nth (trees parts.now.entries.now) n ≡ tree_there result }
    ensures below { IfSome result (λ item. length item.parts.entries.now < length parts.now.entries.now) }
{
    match split_trees(parts) {
        None => None,
        Some((first, rest)) => {
            if n == 0 {
                return Some(first);
            }
            part(&rest, n - 1)
        }
    }
}

/// The parts of the item, where it is a group.
#[tactic(auto, using(crate::proofs::RowLemmas::group_leaf, crate::proofs::RowLemmas::group_node, crate::proofs::RowLemmas::group_role, crate::proofs::RowLemmas::group_parts, crate::proofs::RowLemmas::group_lean))]
pub fn group_in<'t>(item: &Item<'t>) -> Siblings<'t>
    ensures trees { trees result.entries.now ≡ group_of (tree_at item.now) }
    ensures below { length result.entries.now ≤ length item.now.parts.entries.now }
{
    match item.what {
        What::Parts => item.parts,
        What::Leaf => Siblings { entries: &[] },
        What::Node(_) => Siblings { entries: &[] },
        What::Role(_) => Siblings { entries: &[] },
        What::Lean(_) => Siblings { entries: &[] },
    }
}

/// The parts of a group that may be there.
#[tactic(auto, using(crate::proofs::RowLemmas::group_none))]
fn group_at<'t>(parts: &Siblings<'t>, n: usize) -> Siblings<'t>
    ensures trees { trees result.entries.now ≡ group_there (nth (trees parts.now.entries.now) n) }
    ensures below { length result.entries.now ≤ length parts.now.entries.now }
{
    match part(parts, n) {
        Some(item) => group_in(&item),
        None => Siblings { entries: &[] },
    }
}

/// The part at the end of a path.
pub fn follow<'t>(parts: &Siblings<'t>, path: Path) -> Option<Item<'t>>
    ensures tree { follow_trees (trees parts.now.entries.now) path ≡ tree_there result }
    ensures below { IfSome result (λ item. length item.parts.entries.now < length parts.now.entries.now) }
{
    match path {
        Path::At(n) => part(parts, n),
        Path::In(n, m) => part(&group_at(parts, n), m),
        Path::Deep(n, m, j) => part(&group_at(&group_at(parts, n), m), j),
        Path::Deeper(n, m, j, i) => { part(&group_at(&group_at(&group_at(parts, n), m), j), i) }
    }
}
