//! What is reached only through a node or a link.
ghost use Rattle.std.specs.Prelude.{◌≡◌, ◌<◌, ◌&&◌, not, length, IfOk};
ghost use Rattle.std.specs.List.{AllByRecursion};
ghost use Rattle.topological_order.specs.Order.{AreWithin};
ghost use Rattle.shortest_paths.specs.Paths.{AreGone};
ghost use Rattle.shortest_paths.specs.Search.{AreMarkedOnly};

use crate::search::{Scope, explore};
use crate::without::Without;
use base::Items;
use std::alloc::{AllocError, Global};

/// The nodes that paths from roots lead to, and to which none leads without this node or this link; in ascending order. Links are
/// numbers of nodes, and nodes the places of the list.
pub fn gone_without(
    alloc: Global,
    links: &[Items<usize>],
    roots: &[usize],
    without: Without,
) -> Result<Items<usize>, AllocError>
    requires within { AreWithin links.now }
    requires roots { AllByRecursion (λ r. r < length links.now) roots.now }
    ensures { IfOk result (AreGone links.now roots.now without) }
{
    let whole = explore(
        alloc,
        Scope {
            links,
            roots,
            without: Without::Nothing,
        },
    )?;
    let rest = explore(
        alloc,
        Scope {
            links,
            roots,
            without,
        },
    )?;
    only_first(alloc, whole.met.as_slice(), rest.met.as_slice())
}

// The places that the first list marks and the second one doesn't.
fn only_first(alloc: Global, first: &[bool], second: &[bool]) -> Result<Items<usize>, AllocError>
    requires { length second.now ≡ length first.now }
    ensures { IfOk result (AreMarkedOnly first.now second.now (length first.now)) }
{
    let mut places = Items::new(alloc);
    for place in 0..first.len() {
        if first[place] && !second[place] {
            places.push(place)?;
        }
    }
    Ok(places)
}
