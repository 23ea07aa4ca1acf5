//! A shortest path.
ghost use Rattle.std.specs.Prelude.{◌≡◌, ◌<◌, ℕ, true, List, length, slice_index, reverse, IfOk, MatchOption};
ghost use Rattle.std.specs.List.{AllByRecursion};
ghost use Rattle.topological_order.specs.Order.{AreWithin, Link};
ghost use Rattle.shortest_paths.specs.Paths.{IsPath, IsShortest};
ghost use Rattle.shortest_paths.specs.Search.{IsSearched, IsTraced, is_met};
ghost use Rattle.shortest_paths.specs.declared.without.Without.TheVariants as without;

use crate::search::{Scope, Search, explore};
use crate::without::Without;
use base::Items;
use std::alloc::{AllocError, Global};

/// A path from a root to the node, and none is shorter; `None` if there is no path. Of each link its node, and its place among the
/// node's links, from 0. Links are numbers of nodes, and nodes the places of the list. Of the shortest paths it is the one that a
/// search breadth first finds, which takes roots and links in their order.
pub fn shortest(
    alloc: Global,
    links: &[Items<usize>],
    roots: &[usize],
    node: usize,
) -> Result<Option<Items<(usize, usize)>>, AllocError>
    requires within { AreWithin links.now }
    requires roots { AllByRecursion (λ r. r < length links.now) roots.now }
    requires node { node < length links.now }
    ensures { IfOk result (λ found. MatchOption found
        ((path : List Link) → IsPath links.now roots.now without.Nothing path node → ⊥)
        (λ path. IsShortest links.now roots.now path node)) }
{
    let scope = Scope {
        links,
        roots,
        without: Without::Nothing,
    };
    let search = explore(alloc, scope)?;
    if !search.met.as_slice()[node] {
        return Ok(None);
    }
    Ok(Some(trace(alloc, scope, &search, node)?))
}

// The links over which a node was met, from a root on.
fn trace(
    alloc: Global,
    scope: Scope<'_>,
    search: &Search,
    node: usize,
) -> Result<Items<(usize, usize)>, AllocError>
    requires searched { IsSearched scope.links.now scope.roots.now scope.without search.now.met search.now.level search.now.from }
    requires met { is_met search.now.met node ≡ true }
    ensures { IfOk result (IsTraced scope.entry.links.now scope.entry.roots.now scope.entry.without (slice_index search.now.level node) node) }
{
    let mut path = Vec::new(alloc);
    let mut at = node;
    while search.level.as_slice()[at] > 0 {
        let link = search.from.as_slice()[at];
        path.push(link)?;
        at = link.0;
    }
    path.reverse();
    Ok(Items::from_vec(path))
}
