//! A search from the roots, breadth first.
ghost use Rattle.std.specs.Prelude.{◌≡◌, ◌<◌, ◌≤◌, ◌+◌, ◌++◌, ◌∷◌, [], ℕ, true, false, length, drop, slice_index, slice_set, IfOk, OnOk};
ghost use Rattle.std.specs.List.{AllByRecursion};
ghost use Rattle.topological_order.specs.Order.{AreWithin, links_of};
ghost use Rattle.shortest_paths.specs.Search.{IsSearch, IsSearched, AreRootsMet, IsKept, is_met, unmarked};

use crate::without::Without;
use base::Items;
use std::alloc::{AllocError, Global};
use std::mem;

/// Where a search goes.
#[derive(Clone, Copy)]
pub struct Scope<'a> {
    pub links: &'a [Items<usize>],
    pub roots: &'a [usize],
    pub without: Without,
}

/// What a search has found.
#[derive(Drop)]
pub struct Search {
    /// Whether each node is met.
    pub met: Items<bool>,
    /// How many links lead from a root to each node that is met.
    pub level: Items<usize>,
    /// The last of these links: its node, and its place among the node's links.
    pub from: Items<(usize, usize)>,
    /// The nodes that are met, and whose links aren't followed yet.
    pub next: Items<usize>,
}

/// Meets all nodes that paths lead to.
pub fn explore(alloc: Global, scope: Scope<'_>) -> Result<Search, AllocError>
    requires within { AreWithin scope.links.now }
    requires roots { AllByRecursion (λ r. r < length scope.links.now) scope.roots.now }
    ensures { IfOk result (λ s. IsSearched scope.entry.links.now scope.entry.roots.now scope.entry.without s.met s.level s.from) }
{
    let mut search = begun(alloc, scope)?;
    search.meet_roots(scope)?;
    search.run(alloc, scope)?;
    Ok(search)
}

// Nothing is met.
#[tactic(auto, using(crate::proofs::SearchLemmas::search_begun))]
fn begun(alloc: Global, scope: Scope<'_>) -> Result<Search, AllocError>
    ensures { IfOk result (λ s. IsSearch scope.entry.links.now scope.entry.roots.now scope.entry.without [] s.met s.level s.from s.next 0) }
{
    let count = scope.links.len();
    Ok(Search {
        met: Items::from_vec(vec![in alloc; false; count]?),
        level: Items::from_vec(vec![in alloc; 0; count]?),
        from: Items::from_vec(vec![in alloc; (0, 0); count]?),
        next: Items::new(alloc),
    })
}

impl Search {
    // Meets the roots.
    fn meet_roots(&mut self, scope: Scope<'_>) -> Result<(), AllocError>
        requires roots { AllByRecursion (λ r. r < length scope.links.now) scope.roots.now }
        requires search { IsSearch scope.links.now scope.roots.now scope.without [] self.old.met self.old.level self.old.from self.old.next 0 }
        ensures search { OnOk result (IsSearch scope.entry.links.now scope.entry.roots.now scope.entry.without [] self.new.met self.new.level self.new.from self.new.next 0) }
        ensures roots { OnOk result (AreRootsMet scope.entry.roots.now scope.entry.without self.new.met self.new.level) }
    {
        for root in scope.roots {
            if scope.without.keeps_root(*root) {
                self.meet(*root, 0, (0, 0))?;
            }
        }
        Ok(())
    }

    // Follows links, level by level.
    fn run(&mut self, alloc: Global, scope: Scope<'_>) -> Result<(), AllocError>
        requires within { AreWithin scope.links.now }
        requires search { IsSearch scope.links.now scope.roots.now scope.without [] self.old.met self.old.level self.old.from self.old.next 0 }
        requires roots { AreRootsMet scope.roots.now scope.without self.old.met self.old.level }
        ensures { OnOk result (IsSearched scope.entry.links.now scope.entry.roots.now scope.entry.without self.new.met self.new.level self.new.from) }
    {
        while !self.next.is_empty() {
            let front = mem::replace(&mut self.next, Items::new(alloc));
            self.follow_all(scope, front.as_slice())?;
        }
        Ok(())
    }

    // Follows the links of the nodes of one level.
    fn follow_all(&mut self, scope: Scope<'_>, front: &[usize]) -> Result<(), AllocError>
        requires within { AreWithin scope.links.now }
        requires search { (depth : ℕ) × IsSearch scope.links.now scope.roots.now scope.without front.now self.old.met self.old.level self.old.from self.old.next depth }
        ensures search { OnOk result ((depth : ℕ) × IsSearch scope.entry.links.now scope.entry.roots.now scope.entry.without [] self.new.met self.new.level self.new.from self.new.next depth) }
        ensures kept { OnOk result (IsKept self.old.met self.old.level self.new.met self.new.level) }
        ensures fewer { OnOk result (unmarked self.new.met + length self.new.next ≤ unmarked self.old.met + length self.old.next) }
    {
        for at in 0..front.len() {
            self.follow(scope, front, at)?;
        }
        Ok(())
    }

    // Follows the links of the node at a place of a level.
    fn follow(&mut self, scope: Scope<'_>, front: &[usize], at: usize) -> Result<(), AllocError>
        requires within { AreWithin scope.links.now }
        requires at { at < length front.now }
        requires search { (depth : ℕ) × IsSearch scope.links.now scope.roots.now scope.without (drop at front.now) self.old.met self.old.level self.old.from self.old.next depth }
        ensures search { OnOk result ((depth : ℕ) × IsSearch scope.entry.links.now scope.entry.roots.now scope.entry.without (drop (at + 1) front.now) self.new.met self.new.level self.new.from self.new.next depth) }
        ensures kept { OnOk result (IsKept self.old.met self.old.level self.new.met self.new.level) }
        ensures fewer { OnOk result (unmarked self.new.met + length self.new.next ≤ unmarked self.old.met + length self.old.next) }
    {
        let node = front[at];
        let targets = targets_of(scope.links, node);
        let level = self.level.as_slice()[node] + 1;
        for place in 0..targets.len() {
            if scope.without.keeps(node, place, targets[place]) {
                self.meet(targets[place], level, (node, place))?;
            }
        }
        Ok(())
    }

    // Meets a node, unless it is met.
    fn meet(&mut self, node: usize, level: usize, from: (usize, usize)) -> Result<(), AllocError>
        requires met { node < length self.old.met }
        requires level { length self.old.level ≡ length self.old.met }
        requires from { length self.old.from ≡ length self.old.met }
        ensures stays { OnOk result (is_met self.old.met node ≡ true →
            (self.new.met ≡ self.old.met) × (self.new.level ≡ self.old.level) × (self.new.from ≡ self.old.from)
            × (self.new.next ≡ self.old.next)) }
        ensures fresh { OnOk result (is_met self.old.met node ≡ false →
            (self.new.met ≡ slice_set self.old.met node true) × (self.new.level ≡ slice_set self.old.level node level)
            × (self.new.from ≡ slice_set self.old.from node from) × (self.new.next ≡ self.old.next ++ node ∷ [])) }
    {
        if !self.met.as_slice()[node] {
            self.met.set(node, true);
            self.level.set(node, level);
            self.from.set(node, from);
            self.next.push(node)?;
        }
        Ok(())
    }
}

// A node's links.
fn targets_of<'a>(links: &'a [Items<usize>], node: usize) -> &'a [usize]
    requires { node < length links.now }
    ensures { result.now ≡ links_of links.now node }
{
    links[node].as_slice()
}
