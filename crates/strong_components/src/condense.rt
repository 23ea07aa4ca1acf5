//! The links between components.
ghost use Rattle.std.specs.Prelude.{◌≡◌, ◌<◌, ◌≢◌, ◌⊎◌, ℕ, true, length, slice_index, IfOk, OnOk};
ghost use Rattle.std.specs.List.{AllByRecursion};
ghost use Rattle.topological_order.specs.Order.{AreWithin, links_of, has};
ghost use Rattle.strong_components.specs.Condensed.{AreJoined, IsJoin};

use crate::reverse::{add, empty_lists};
use base::Items;
use std::alloc::{AllocError, Global};

/// For each component, named by its least member, the others that links of its members lead to; for other nodes none.
pub fn condensed(
    alloc: Global,
    links: &[Items<usize>],
    least: &[usize],
) -> Result<Vec<Items<usize>>, AllocError>
    requires within { AreWithin links.now }
    requires len { length least.now ≡ length links.now }
    requires least { (v : ℕ) → v < length least.now → slice_index least.now v < length least.now }
    ensures { IfOk result (λ joined. AreJoined links.now least.now joined.items (length links.now)) }
{
    let mut joined = empty_lists(alloc, links.len())?;
    for node in 0..links.len() {
        let targets = links[node].as_slice();
        add_targets(&mut joined, least, least[node], targets)?;
    }
    Ok(joined)
}

// Adds the components that these links of a component lead to.
fn add_targets(
    joined: &mut Vec<Items<usize>>,
    least: &[usize],
    from: usize,
    targets: &[usize],
) -> Result<(), AllocError>
    requires from { from < length joined.old.items }
    requires targets { AllByRecursion (λ t. t < length least.now) targets.now }
    ensures len { length joined.new.items ≡ length joined.old.items }
    ensures kept { OnOk result ((u w : ℕ) → has (links_of joined.old.items u) w ≡ true → has (links_of joined.new.items u) w ≡ true) }
    ensures added { OnOk result ((k : ℕ) → k < length targets.now → slice_index least.now (slice_index targets.now k) ≢ from →
        has (links_of joined.new.items from) (slice_index least.now (slice_index targets.now k)) ≡ true) }
    ensures sound { OnOk result ((u w : ℕ) → has (links_of joined.new.items u) w ≡ true →
        (has (links_of joined.old.items u) w ≡ true) ⊎ IsJoin least.now from targets.now u w) }
{
    for target in targets {
        let to = least[*target];
        if to != from {
            add(joined, from, to)?;
        }
    }
    Ok(())
}
