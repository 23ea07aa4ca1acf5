//! Links the other way round.
ghost use Rattle.std.specs.Prelude.{◌≡◌, ◌<◌, ℕ, true, ◌||◌, ◌&&◌, ◌==◌, List, length, slice_index, IfOk, OnOk};
ghost use Rattle.std.specs.List.{AllByRecursion};
ghost use Rattle.topological_order.specs.Order.{AreWithin, links_of, has};
ghost use Rattle.topological_order.specs.Placing.{AreBack};

use base::Items;
use std::alloc::{AllocError, Global};

/// For each node those that have a link to it.
pub fn back_of(alloc: Global, links: &[Items<usize>]) -> Result<Vec<Items<usize>>, AllocError>
    requires { AreWithin links.now }
    ensures len { IfOk result (λ back. length back.items ≡ length links.now) }
    ensures back { IfOk result (λ back. AreBack links.now back.items) }
{
    let mut back = empty_lists(alloc, links)?;
    for node in 0..links.len() {
        add_links(&mut back, node, links[node].as_slice())?;
    }
    Ok(back)
}

// How many links lead to each node.
fn counts_of(alloc: Global, links: &[Items<usize>]) -> Result<Vec<usize>, AllocError>
    requires { AreWithin links.now }
    ensures { IfOk result (λ counts. length counts.items ≡ length links.now) }
{
    let mut counts = vec![in alloc; 0; links.len()]?;
    for node in 0..links.len() {
        count_links(&mut counts, links[node].as_slice());
    }
    Ok(counts)
}

fn count_links(counts: &mut Vec<usize>, targets: &[usize])
    requires { AllByRecursion (λ t. t < length counts.old.items) targets.now }
    ensures { length counts.new.items ≡ length counts.old.items }
{
    for target in targets {
        count_link(counts, *target);
    }
}

fn count_link(counts: &mut Vec<usize>, target: usize)
    requires { target < length counts.old.items }
    ensures { length counts.new.items ≡ length counts.old.items }
{
    counts[target] = counts[target].saturating_add(1);
}

// For each node an empty list with room for those that have a link to it.
fn empty_lists(alloc: Global, links: &[Items<usize>]) -> Result<Vec<Items<usize>>, AllocError>
    requires { AreWithin links.now }
    ensures { IfOk result (λ lists. length lists.items ≡ length links.now) }
{
    let counts = counts_of(alloc, links)?;
    let mut lists = Vec::with_capacity(alloc, links.len())?;
    for count in counts.as_slice() {
        lists.push(Items::from_vec(Vec::with_capacity(alloc, *count)?))?;
    }
    Ok(lists)
}

// Puts the node into the list of each of its targets.
fn add_links(back: &mut Vec<Items<usize>>, node: usize, targets: &[usize]) -> Result<(), AllocError>
    requires { AllByRecursion (λ t. t < length back.old.items) targets.now }
    ensures len { length back.new.items ≡ length back.old.items }
    ensures kept { (u w : ℕ) → has (links_of back.old.items u) w ≡ true → OnOk result (has (links_of back.new.items u) w ≡ true) }
    ensures added { OnOk result ((k : ℕ) → k < length targets.now →
        has (links_of back.new.items (slice_index targets.now k)) node ≡ true) }
{
    for target in targets {
        add_link(back, node, *target)?;
    }
    Ok(())
}

fn add_link(back: &mut Vec<Items<usize>>, node: usize, target: usize) -> Result<(), AllocError>
    requires { target < length back.old.items }
    ensures len { length back.new.items ≡ length back.old.items }
    ensures put { OnOk result ((u w : ℕ) → has (links_of back.new.items u) w
        ≡ ((u == target && w == node) || has (links_of back.old.items u) w)) }
{
    back[target].push(node)
}
