//! The walk to the first cycle.
ghost use Rattle.std.specs.Prelude.{◌≡◌, ◌<◌, ◌++◌, true, false, List, length, slice_index_or, IfOk};
ghost use Rattle.topological_order.specs.Order.{AreWithin, Link, IsFirstCycle, has, nodes, head_of};
ghost use Rattle.topological_order.specs.Walk.{IsClosed, IsFirstOpen, IsCutAt};

use crate::placing::{first_open, targets_of, unmarked};
use base::Items;
use std::alloc::{AllocError, Global};

/// The first cycle, where a node isn't placed, and so the nodes that aren't placed are the stuck ones.
#[tactic(auto, using(crate::proofs::WalkLemmas::walk_begun))]
pub fn first_cycle(
    alloc: Global,
    links: &[Items<usize>],
    placed: &[bool],
    start: usize,
) -> Result<Items<(usize, usize)>, AllocError>
    requires within { AreWithin links.now }
    requires closed { IsClosed links.now placed.now }
    requires first { IsFirstOpen placed.now start }
    ensures { IfOk result (IsFirstCycle links.now) }
{
    let mut walk = Items::new(alloc);
    let mut met = unmarked(alloc, links.len())?;
    let mut at = start;
    while !is_marked(&met, at) {
        met.set(at, true);
        let targets = targets_of(links, at);
        let place = first_open(targets, placed, 0);
        walk.push((at, place))?;
        at = targets[place];
    }
    cut_at(alloc, walk.as_slice(), at)
}

fn is_marked(marks: &Items<bool>, node: usize) -> bool
    requires { node < length marks.now }
    ensures { result ≡ slice_index_or marks.now node false }
{
    marks.as_slice()[node]
}

// The links from the first one of this node on.
fn cut_at(
    alloc: Global,
    walk: &[(usize, usize)],
    node: usize,
) -> Result<Items<(usize, usize)>, AllocError>
    requires { has (nodes walk.now) node ≡ true }
    ensures { IfOk result (IsCutAt walk.now node) }
{
    let mut rest = walk;
    while let Some((first, behind)) = rest.split_first() {
        if first.0 == node {
            return Ok(Items::from_vec(Vec::from_slice(alloc, rest)?));
        }
        rest = behind;
    }
    unreachable!()
}
