//! Finds the components.
ghost use Rattle.std.specs.Prelude.{◌≡◌, ◌<◌, ℕ, true, length, slice_index, IfOk};
ghost use Rattle.topological_order.specs.Order.{AreWithin, has};
ghost use Rattle.strong_components.specs.Components.{AreComponents};
ghost use Rattle.strong_components.specs.Gather.{AreRoots};
ghost use Rattle.strong_components.specs.Condensed.{AreMembers, AreLeast, picked};

use crate::condense::condensed;
use crate::finish::finish_order;
use crate::gather::roots_of;
use crate::members::{least_of, members_of};
use crate::reverse::reversed;
use base::Items;
use std::alloc::{AllocError, Global};
use topological_order::Found;

/// The strongly connected components, each after those that its members' links lead to, and of those that may come next the one
/// with the least member first. Members are in ascending order. Links are numbers of nodes, and nodes the places of the list.
pub fn components(alloc: Global, links: &[Items<usize>]) -> Result<Items<Items<usize>>, AllocError>
    requires { AreWithin links.now }
    ensures { IfOk result (AreComponents links.now) }
{
    let finished = finish_order(alloc, links)?;
    let back = reversed(alloc, links)?;
    let roots = roots_of(alloc, links, back.as_slice(), finished)?;
    in_order(alloc, links, roots.as_slice())
}

// The components by their roots, in order.
fn in_order(
    alloc: Global,
    links: &[Items<usize>],
    roots: &[usize],
) -> Result<Items<Items<usize>>, AllocError>
    requires within { AreWithin links.now }
    requires roots { AreRoots links.now roots.now }
    ensures { IfOk result (AreComponents links.now) }
{
    let members = members_of(alloc, roots)?;
    let least = least_of(alloc, links, roots, members.as_slice())?;
    let joined = condensed(alloc, links, least.as_slice())?;
    match topological_order::order(alloc, joined.as_slice())? {
        Found::Order(order) => pick(
            alloc,
            roots,
            least.as_slice(),
            members.as_slice(),
            order.as_slice(),
        ),
        Found::Cycle(_) => unreachable!(),
    }
}

// The members of the components whose least members are among these nodes, in the order of these.
fn pick(
    alloc: Global,
    roots: &[usize],
    least: &[usize],
    members: &[Items<usize>],
    order: &[usize],
) -> Result<Items<Items<usize>>, AllocError>
    requires nodes { (v : ℕ) → has order.now v ≡ true → v < length least.now }
    requires least { length least.now ≡ length roots.now }
    requires members { length members.now ≡ length roots.now }
    requires roots { (v : ℕ) → v < length roots.now → slice_index roots.now v < length roots.now }
    ensures { IfOk result (λ found. found ≡ picked roots.now least.now members.now order.now) }
{
    let mut found = Items::new(alloc);
    for node in order {
        if least[*node] == *node {
            found.push(members[roots[*node]].copy()?)?;
        }
    }
    Ok(found)
}
