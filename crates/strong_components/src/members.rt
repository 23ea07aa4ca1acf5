//! The members of the components.
ghost use Rattle.std.specs.Prelude.{◌≡◌, ◌<◌, ℕ, List, length, slice_index, IfOk};
ghost use Rattle.topological_order.specs.Order.{AreWithin, links_of};
ghost use Rattle.strong_components.specs.Components.{first_of};
ghost use Rattle.strong_components.specs.Gather.{AreRoots};
ghost use Rattle.strong_components.specs.Condensed.{AreMembers, AreLeast};

use crate::reverse::{add, empty_lists};
use base::Items;
use std::alloc::{AllocError, Global};

/// For each root the members of its component, in ascending order.
pub fn members_of(alloc: Global, roots: &[usize]) -> Result<Vec<Items<usize>>, AllocError>
    requires { (v : ℕ) → v < length roots.now → slice_index roots.now v < length roots.now }
    ensures { IfOk result (λ members. AreMembers roots.now (length roots.now) members.items) }
{
    let mut members = empty_lists(alloc, roots.len())?;
    for node in 0..roots.len() {
        add(&mut members, roots[node], node)?;
    }
    Ok(members)
}

/// For each node the least member of its component.
pub fn least_of(
    alloc: Global,
    links: &[Items<usize>],
    roots: &[usize],
    members: &[Items<usize>],
) -> Result<Items<usize>, AllocError>
    requires within { AreWithin links.now }
    requires roots { AreRoots links.now roots.now }
    requires members { AreMembers roots.now (length roots.now) members.now }
    ensures { IfOk result (AreLeast links.now) }
{
    let mut least = Items::new(alloc);
    for node in 0..roots.len() {
        least.push(first(members, roots[node]))?;
    }
    Ok(least)
}

// The first item of a list that isn't empty.
fn first(lists: &[Items<usize>], at: usize) -> usize
    requires within { at < length lists.now }
    requires some { length (links_of lists.now at) ≡ 0 → ⊥ }
    ensures { result ≡ first_of (links_of lists.now at) }
{
    let items = lists[at].as_slice();
    items[0]
}
