//! Finds an order, or a cycle.
ghost use Rattle.std.specs.Prelude.{◌≡◌, ◌<◌, ℕ, true, false, slice_index_or, length, IfOk, MatchOption};
ghost use Rattle.topological_order.specs.Order.{AreWithin, IsFound};
ghost use Rattle.topological_order.specs.Walk.{IsFirstOpen};

use crate::back::back_of;
use crate::found::Found;
use crate::placing::place_all;
use crate::walk::first_cycle;
use base::Items;
use std::alloc::{AllocError, Global};

/// The least order of the nodes in which each link leads to a node before its own; where there is none, the cycle of the walk from
/// the least node that cycles keep from it. Links are numbers of nodes, and nodes the places of the list.
pub fn order(alloc: Global, links: &[Items<usize>]) -> Result<Found, AllocError>
    requires { AreWithin links.now }
    ensures { IfOk result (IsFound links.now) }
{
    let back = back_of(alloc, links)?;
    let placing = place_all(alloc, links, back.as_slice())?;
    let placed = placing.placed.as_slice();
    match first_open_node(placed) {
        None => Ok(Found::Order(placing.order)),
        Some(start) => {
            let cycle = first_cycle(alloc, links, placed, start)?;
            Ok(Found::Cycle(cycle))
        }
    }
}

// The first node that isn't placed.
fn first_open_node(placed: &[bool]) -> Option<usize>
    ensures { MatchOption result ((v : ℕ) → v < length placed.now → slice_index_or placed.now v false ≡ true) (IsFirstOpen placed.now) }
{
    for node in 0..placed.len() {
        if !placed[node] {
            return Some(node);
        }
    }
    None
}
