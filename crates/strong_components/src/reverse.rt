//! Links the other way round.
ghost use Rattle.std.specs.Prelude.{◌≡◌, ◌<◌, ◌∷◌, [], ◌++◌, ℕ, ◌&&◌, ◌||◌, ◌==◌, length, slice_set, IfOk, OnOk};
ghost use Rattle.std.specs.List.{AllByRecursion};
ghost use Rattle.topological_order.specs.Order.{AreWithin, links_of, has};
ghost use Rattle.strong_components.specs.Finish.{AreBack};

use base::Items;
use std::alloc::{AllocError, Global};

/// For each node exactly those that have a link to it.
pub fn reversed(alloc: Global, links: &[Items<usize>]) -> Result<Vec<Items<usize>>, AllocError>
    requires { AreWithin links.now }
    ensures len { IfOk result (λ back. length back.items ≡ length links.now) }
    ensures back { IfOk result (λ back. AreBack links.now back.items) }
{
    let mut back = empty_lists(alloc, links.len())?;
    for node in 0..links.len() {
        add_links(&mut back, node, links[node].as_slice())?;
    }
    Ok(back)
}

/// So many empty lists.
#[tactic(auto, using(crate::proofs::MemberLemmas::none_more))]
pub fn empty_lists(alloc: Global, count: usize) -> Result<Vec<Items<usize>>, AllocError>
    ensures len { IfOk result (λ lists. length lists.items ≡ count) }
    ensures none { IfOk result (λ lists. (u : ℕ) → links_of lists.items u ≡ []) }
{
    let mut lists = Vec::with_capacity(alloc, count)?;
    for _ in 0..count {
        lists.push(Items::new(alloc))?;
    }
    Ok(lists)
}

// Puts the node into the list of each of its targets.
fn add_links(back: &mut Vec<Items<usize>>, node: usize, targets: &[usize]) -> Result<(), AllocError>
    requires { AllByRecursion (λ t. t < length back.old.items) targets.now }
    ensures len { length back.new.items ≡ length back.old.items }
    ensures put { OnOk result ((u w : ℕ) → has (links_of back.new.items u) w
        ≡ ((w == node && has targets.now u) || has (links_of back.old.items u) w)) }
{
    for target in targets {
        add(back, *target, node)?;
    }
    Ok(())
}

/// Puts an item at the end of a list.
pub fn add(lists: &mut Vec<Items<usize>>, at: usize, item: usize) -> Result<(), AllocError>
    requires { at < length lists.old.items }
    ensures len { length lists.new.items ≡ length lists.old.items }
    ensures put { OnOk result (lists.new.items ≡ slice_set lists.old.items at (links_of lists.old.items at ++ item ∷ [])) }
{
    lists[at].push(item)
}
