//! Placing nodes one after the other, the least that may come next first.
ghost use Rattle.std.specs.Prelude.{◌≡◌, ◌<◌, ◌≤◌, ℕ, true, false, Bool, ◌||◌, ◌==◌, List, [], ◌∷◌, ◌++◌, length, slice_index, slice_index_or, slice_set, replicate, not, ◌&&◌, IfOk, OnOk};
ghost use Rattle.std.specs.List.{AllByRecursion};
ghost use Rattle.topological_order.specs.Order.{AreWithin, links_of, has};
ghost use Rattle.topological_order.specs.Placing.{AreBack, IsPlacing};

use crate::free::Free;
use base::Items;
use std::alloc::{AllocError, Global};

/// How far the placing has come.
#[derive(Drop)]
pub struct Placing {
    pub order: Items<usize>,
    /// Whether each node is placed.
    pub placed: Items<bool>,
    /// How many of each node's first links lead to nodes that are placed.
    pub cursor: Items<usize>,
    /// The nodes that may be placed next.
    pub free: Free,
}

/// Places what can be placed.
pub fn place_all(
    alloc: Global,
    links: &[Items<usize>],
    back: &[Items<usize>],
) -> Result<Placing, AllocError>
    requires within { AreWithin links.now }
    requires len { length back.now ≡ length links.now }
    requires back { AreBack links.now back.now }
    ensures placing { IfOk result (λ p. IsPlacing links.now (λ _. false) p.order p.placed p.cursor p.free) }
    ensures done { IfOk result (λ p. p.free ≡ []) }
{
    let mut placing = begun(alloc, links)?;
    while let Some(node) = placing.free.take() {
        placing.place(links, back, node)?;
    }
    Ok(placing)
}

// Nothing is placed yet.
#[tactic(auto, using(crate::proofs::PlacingLemmas::none_begun, crate::proofs::PlacingLemmas::all_begun))]
fn begun(alloc: Global, links: &[Items<usize>]) -> Result<Placing, AllocError>
    requires { AreWithin links.now }
    ensures { IfOk result (λ p. IsPlacing links.now (λ _. false) p.order p.placed p.cursor p.free) }
{
    let placed = unmarked(alloc, links.len())?;
    let cursor = zeros(alloc, links.len())?;
    let mut placing = Placing {
        order: Items::new(alloc),
        placed,
        cursor,
        free: Free::new(alloc),
    };
    for node in 0..links.len() {
        placing.advance(links, node)?;
    }
    Ok(placing)
}

/// So many times `false`.
pub fn unmarked(alloc: Global, count: usize) -> Result<Items<bool>, AllocError>
    ensures { IfOk result (λ items. items ≡ replicate count false) }
{
    Ok(Items::from_vec(vec![in alloc; false; count]?))
}

fn zeros(alloc: Global, count: usize) -> Result<Items<usize>, AllocError>
    ensures { IfOk result (λ items. items ≡ replicate count 0) }
{
    Ok(Items::from_vec(vec![in alloc; 0; count]?))
}

impl Placing {
    // Places a node that is the least of those that may come next, and was taken from them.
    fn place(
        &mut self,
        links: &[Items<usize>],
        back: &[Items<usize>],
        node: usize,
    ) -> Result<(), AllocError>
        requires within { AreWithin links.now }
        requires len { length back.now ≡ length links.now }
        requires back { AreBack links.now back.now }
        requires placing { IsPlacing links.now (λ _. false) self.old.order self.old.placed self.old.cursor (node ∷ self.old.free) }
        requires least { (u : ℕ) → has (node ∷ self.old.free) u ≡ true → node ≤ u }
        requires gone { has self.old.free node ≡ false }
        ensures placing { OnOk result (IsPlacing links.now (λ _. false) self.new.order self.new.placed self.new.cursor self.new.free) }
        ensures placed { OnOk result (self.new.placed ≡ slice_set self.old.placed node true) }
    {
        self.order.push(node)?;
        self.placed.set(node, true);
        self.advance_all(links, targets_of(back, node))
    }

    // Moves on those that may have waited for a node that is placed now.
    fn advance_all(&mut self, links: &[Items<usize>], nodes: &[usize]) -> Result<(), AllocError>
        requires within { AreWithin links.now }
        requires placing { IsPlacing links.now (has nodes.now) self.old.order self.old.placed self.old.cursor self.old.free }
        ensures placing { OnOk result (IsPlacing links.now (λ _. false) self.new.order self.new.placed self.new.cursor self.new.free) }
        ensures placed { self.new.placed ≡ self.old.placed }
    {
        for node in nodes {
            self.advance(links, *node)?;
        }
        Ok(())
    }

    // Counts a node's first links that lead to nodes that are placed. With all of them it may be placed.
    fn advance(&mut self, links: &[Items<usize>], node: usize) -> Result<(), AllocError>
        requires within { AreWithin links.now }
        requires placing { IsPlacing links.now (λ _. true) self.old.order self.old.placed self.old.cursor self.old.free }
        ensures placing { (in_hand : ℕ → Bool) →
            IsPlacing links.now (λ u. u == node || in_hand u) self.old.order self.old.placed self.old.cursor self.old.free →
            OnOk result (IsPlacing links.now in_hand self.new.order self.new.placed self.new.cursor self.new.free) }
        ensures placed { self.new.placed ≡ self.old.placed }
    {
        if node >= links.len() {
            return Ok(());
        }
        let targets = targets_of(links, node);
        let count = self.counted(targets, node);
        let whole = self.is_whole(targets, node, count);
        self.cursor.set(node, count);
        self.free.put_if(whole, node)
    }

    // How many of a node's first links lead to nodes that are placed.
    fn counted(&self, targets: &[usize], node: usize) -> usize
        requires within { AllByRecursion (λ t. t < length self.now.placed) targets.now }
        requires node { node < length self.now.cursor }
        requires from { slice_index self.now.cursor node ≤ length targets.now }
        ensures from { slice_index self.now.cursor node ≤ result }
        ensures within { result ≤ length targets.now }
        ensures passed { (j : ℕ) → slice_index self.now.cursor node ≤ j → j < result →
            slice_index_or self.now.placed (slice_index targets.now j) false ≡ true }
        ensures open_yet { result < length targets.now →
            slice_index_or self.now.placed (slice_index targets.now result) false ≡ false }
    {
        first_open(
            targets,
            self.placed.as_slice(),
            self.cursor.as_slice()[node],
        )
    }

    // Whether so many are all of them, and the node itself isn't placed.
    fn is_whole(&self, targets: &[usize], node: usize, count: usize) -> bool
        requires { node < length self.now.placed }
        ensures { result ≡ (count == length targets.now && not (slice_index_or self.now.placed node false)) }
    {
        count == targets.len() && !self.placed.as_slice()[node]
    }
}

/// A node's links.
pub fn targets_of<'a>(links: &'a [Items<usize>], node: usize) -> &'a [usize]
    requires { node < length links.now }
    ensures { result.now ≡ links_of links.now node }
{
    links[node].as_slice()
}

/// The first place, from this one on, of a target that isn't placed; the number of the targets, where all are.
pub fn first_open(targets: &[usize], placed: &[bool], from: usize) -> usize
    requires within { AllByRecursion (λ t. t < length placed.now) targets.now }
    requires from { from ≤ length targets.now }
    ensures from { from ≤ result }
    ensures within { result ≤ length targets.now }
    ensures passed { (j : ℕ) → from ≤ j → j < result → slice_index_or placed.now (slice_index targets.now j) false ≡ true }
    ensures open_yet { result < length targets.now → slice_index_or placed.now (slice_index targets.now result) false ≡ false }
{
    let mut at = from;
    while at < targets.len() && placed[targets[at]] {
        at += 1;
    }
    at
}
