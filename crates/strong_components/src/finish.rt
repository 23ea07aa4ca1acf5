//! The order in which a depth-first walk finishes the nodes.
ghost use Rattle.std.specs.Prelude.{◌≡◌, ◌<◌, ◌≤◌, ◌+◌, ℕ, true, false, [], ◌∷◌, ◌++◌, length, slice_index, slice_index_or, slice_set, replicate, IfOk, OnOk};
ghost use Rattle.std.specs.List.{AllByRecursion};
ghost use Rattle.topological_order.specs.Order.{AreWithin, links_of};
ghost use Rattle.strong_components.specs.Finish.{IsWalk, IsFinishOrder, steps_left};

use base::Items;
use std::alloc::{AllocError, Global};

/// How far the walk has come.
#[derive(Drop)]
struct Walk {
    /// The finished nodes.
    finished: Items<usize>,
    /// Whether the walk has met each node.
    met: Items<bool>,
    /// How many of each node's first links lead to nodes that are met.
    cursor: Items<usize>,
    /// The nodes that are met and not finished, each reaching those after it.
    stack: Items<usize>,
}

/// All nodes in an order such that each reaches each node from which links lead to it over earlier nodes.
pub fn finish_order(alloc: Global, links: &[Items<usize>]) -> Result<Items<usize>, AllocError>
    requires { AreWithin links.now }
    ensures { IfOk result (IsFinishOrder links.now) }
{
    let mut walk = begun(alloc, links)?;
    for node in 0..links.len() {
        walk.visit(links, node)?;
    }
    Ok(walk.finished)
}

// Nothing is met yet.
#[tactic(auto, using(crate::proofs::FinishLemmas::walk_begun))]
fn begun(alloc: Global, links: &[Items<usize>]) -> Result<Walk, AllocError>
    ensures walk { IfOk result (λ w. IsWalk links.now w.finished w.met w.cursor w.stack) }
    ensures empty { IfOk result (λ w. w.stack ≡ []) }
{
    Ok(Walk {
        finished: Items::new(alloc),
        met: Items::from_vec(vec![in alloc; false; links.len()]?),
        cursor: Items::from_vec(vec![in alloc; 0; links.len()]?),
        stack: Items::new(alloc),
    })
}

impl Walk {
    // Finishes the node and all that it reaches.
    fn visit(&mut self, links: &[Items<usize>], node: usize) -> Result<(), AllocError>
        requires within { AreWithin links.now }
        requires node { node < length links.now }
        requires walk { IsWalk links.now self.old.finished self.old.met self.old.cursor self.old.stack }
        requires empty { self.old.stack ≡ [] }
        ensures walk { OnOk result (IsWalk links.now self.new.finished self.new.met self.new.cursor self.new.stack) }
        ensures empty { OnOk result (self.new.stack ≡ []) }
        ensures met { OnOk result (slice_index_or self.new.met node false ≡ true) }
        ensures kept { OnOk result ((v : ℕ) → slice_index_or self.old.met v false ≡ true → slice_index_or self.new.met v false ≡ true) }
    {
        if self.met.as_slice()[node] {
            return Ok(());
        }
        self.begin(node)?;
        self.run(links)
    }

    // Finishes the nodes on the stack and all that they reach.
    fn run(&mut self, links: &[Items<usize>]) -> Result<(), AllocError>
        requires within { AreWithin links.now }
        requires walk { IsWalk links.now self.old.finished self.old.met self.old.cursor self.old.stack }
        ensures walk { OnOk result (IsWalk links.now self.new.finished self.new.met self.new.cursor self.new.stack) }
        ensures empty { OnOk result (self.new.stack ≡ []) }
        ensures kept { OnOk result ((v : ℕ) → slice_index_or self.old.met v false ≡ true → slice_index_or self.new.met v false ≡ true) }
    {
        while let Some(node) = self.stack.pop() {
            self.step(links, node)?;
        }
        Ok(())
    }

    // Follows the first link of the stack's last node, which was taken from it, to a node that isn't met; without one, the node
    // is finished.
    fn step(&mut self, links: &[Items<usize>], node: usize) -> Result<(), AllocError>
        requires within { AreWithin links.now }
        requires walk { IsWalk links.now self.old.finished self.old.met self.old.cursor (self.old.stack ++ node ∷ []) }
        ensures walk { OnOk result (IsWalk links.now self.new.finished self.new.met self.new.cursor self.new.stack) }
        ensures kept { OnOk result ((v : ℕ) → slice_index_or self.old.met v false ≡ true → slice_index_or self.new.met v false ≡ true) }
        ensures smaller { OnOk result (steps_left self.new.met self.new.stack < steps_left self.old.met self.old.stack + 1) }
    {
        let targets = targets_of(links, node);
        let place = first_unmet(targets, self.met.as_slice(), self.cursor.as_slice()[node]);
        if place == targets.len() {
            return self.finished.push(node);
        }
        self.cursor.set(node, place);
        self.stack.push(node)?;
        self.begin(targets[place])
    }

    // Puts a node on the stack, and marks it as met.
    fn begin(&mut self, node: usize) -> Result<(), AllocError>
        requires { node < length self.old.met }
        ensures met { self.new.met ≡ slice_set self.old.met node true }
        ensures stack { OnOk result (self.new.stack ≡ self.old.stack ++ node ∷ []) }
        ensures finished { self.new.finished ≡ self.old.finished }
        ensures cursor { self.new.cursor ≡ self.old.cursor }
    {
        self.met.set(node, true);
        self.stack.push(node)
    }
}

/// A node's links.
pub fn targets_of<'a>(links: &'a [Items<usize>], node: usize) -> &'a [usize]
    requires { node < length links.now }
    ensures { result.now ≡ links_of links.now node }
{
    links[node].as_slice()
}

// The first place, from this one on, of a target that isn't met; the number of the targets, if all are.
fn first_unmet(targets: &[usize], met: &[bool], from: usize) -> usize
    requires within { AllByRecursion (λ t. t < length met.now) targets.now }
    requires from { from ≤ length targets.now }
    ensures from { from ≤ result }
    ensures within { result ≤ length targets.now }
    ensures passed { (j : ℕ) → from ≤ j → j < result → slice_index_or met.now (slice_index targets.now j) false ≡ true }
    ensures open_yet { result < length targets.now → slice_index_or met.now (slice_index targets.now result) false ≡ false }
{
    let mut at = from;
    while at < targets.len() && met[targets[at]] {
        at += 1;
    }
    at
}
