//! Cursors over the parts of a node, by the rules of an analysis.

ghost use Rattle.std.specs.Prelude.{◌≡◌, ◌+◌, ◌≤◌, ◌<◌, length, IfSome};
ghost use Rattle.es_walk.specs.Part.{as_group, follow};
ghost use Rattle.es_walk.specs.Rows.{parts_of, part_in, first_in, there_in};

use crate::analysis::Walk;
use crate::rows::{follow, group_in, split_trees};
use crate::step::Path;
use es_syntax::{Item, Siblings};

/// The first part in a row, and those after it.
pub fn first<'t, P: Walk>(_by: &P, row: &Siblings<'t>) -> Option<(Item<'t>, Siblings<'t>)>
    ensures value { parts_of (P.rules _by.now) row.now.entries.now ≡ first_in (P.rules _by.now) result }
    ensures below { IfSome result (λ p. length p.0.parts.entries.now + length p.1.entries.now < length row.now.entries.now) }
{
    split_trees(row)
}

/// The part at the end of a path.
pub fn part_at<'t, P: Walk>(_by: &P, parts: &Siblings<'t>, path: Path) -> Option<Item<'t>>
    ensures value { follow (parts_of (P.rules _by.now) parts.now.entries.now) path ≡ there_in (P.rules _by.now) result }
    ensures below { IfSome result (λ item. length item.parts.entries.now < length parts.now.entries.now) }
{
    follow(parts, path)
}

/// The parts of the item, where it is a group.
pub fn inside<'t, P: Walk>(_by: &P, item: &Item<'t>) -> Siblings<'t>
    ensures value { parts_of (P.rules _by.now) result.entries.now ≡ as_group (part_in (P.rules _by.now) item.now) }
    ensures below { length result.entries.now ≤ length item.now.parts.entries.now }
{
    group_in(item)
}
