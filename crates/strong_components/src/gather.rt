//! The components of the nodes, each named by one of its members, its root.
ghost use Rattle.std.specs.Prelude.{◌≡◌, ◌<◌, ◌≤◌, ◌∷◌, [], ◌++◌, ℕ, List, Bool, true, false, length, slice_index_or, slice_set, replicate, IfOk, OnOk};
ghost use Rattle.topological_order.specs.Order.{Links, AreWithin, has};
ghost use Rattle.strong_components.specs.Components.{Reaches};
ghost use Rattle.strong_components.specs.Finish.{AreBack, IsFinishOrder, steps_left};
ghost use Rattle.strong_components.specs.Gather.{AreRoots, IsGathered, IsSpread, IsClosed};

use crate::finish::targets_of;
use base::Items;
use std::alloc::{AllocError, Global};

/// The roots of the nodes that have one.
#[derive(Drop)]
struct Gathering {
    /// Whether each node has a root.
    met: Items<bool>,
    roots: Items<usize>,
    /// The nodes that have a root, and whose links back aren't followed yet.
    pending: Items<usize>,
}

/// For each node the root of its component: a member, the same for all members.
pub fn roots_of(
    alloc: Global,
    links: &[Items<usize>],
    back: &[Items<usize>],
    mut finished: Items<usize>,
) -> Result<Items<usize>, AllocError>
    requires len { length back.now ≡ length links.now }
    requires back { AreBack links.now back.now }
    requires finish { IsFinishOrder links.now finished }
    ensures { IfOk result (AreRoots links.now) }
{
    let mut gathering = begun(alloc, links)?;
    while let Some(node) = finished.pop() {
        gathering.gather(links, back, node)?;
    }
    Ok(gathering.roots)
}

// No node has a root.
fn begun(alloc: Global, links: &[Items<usize>]) -> Result<Gathering, AllocError>
    ensures met { IfOk result (λ g. g.met ≡ replicate (length links.now) false) }
    ensures roots { IfOk result (λ g. g.roots ≡ replicate (length links.now) 0) }
    ensures empty { IfOk result (λ g. g.pending ≡ []) }
{
    Ok(Gathering {
        met: Items::from_vec(vec![in alloc; false; links.len()]?),
        roots: Items::from_vec(vec![in alloc; 0; links.len()]?),
        pending: Items::new(alloc),
    })
}

impl Gathering {
    // Makes a node that has no root the root of all nodes without one that reach it.
    fn gather(
        &mut self,
        links: &[Items<usize>],
        back: &[Items<usize>],
        node: usize,
    ) -> Result<(), AllocError>
        requires len { length back.now ≡ length links.now }
        requires back { AreBack links.now back.now }
        requires node { node < length links.now }
        requires closed { IsClosed links.now self.old.met self.old.roots }
        requires empty { self.old.pending ≡ [] }
        ensures gathered { OnOk result (IsGathered links.now node self.old.met self.old.roots self.new.met self.new.roots) }
        ensures empty { OnOk result (self.new.pending ≡ []) }
    {
        self.assign(node, node)?;
        while let Some(at) = self.pending.pop() {
            self.assign_all(targets_of(back, at), node)?;
        }
        Ok(())
    }

    // Gives the root to those of these nodes that have none.
    fn assign_all(&mut self, nodes: &[usize], root: usize) -> Result<(), AllocError>
        requires nodes { (v : ℕ) → has nodes.now v ≡ true → v < length self.old.met }
        requires len { length self.old.roots ≡ length self.old.met }
        ensures spread { (g : Links) (met : List Bool) (roots : List ℕ) →
            IsSpread g root met roots self.old.met self.old.roots self.old.pending (has nodes.now) →
            ((v : ℕ) → has nodes.now v ≡ true → Reaches g v root) →
            OnOk result (IsSpread g root met roots self.new.met self.new.roots self.new.pending (λ _. false)) }
        ensures kept { OnOk result ((v : ℕ) → slice_index_or self.old.met v false ≡ true → slice_index_or self.new.met v false ≡ true) }
        ensures smaller { OnOk result (steps_left self.new.met self.new.pending ≤ steps_left self.old.met self.old.pending) }
    {
        for node in nodes {
            self.assign(*node, root)?;
        }
        Ok(())
    }

    // Gives the root to a node, unless it has one.
    fn assign(&mut self, node: usize, root: usize) -> Result<(), AllocError>
        requires node { node < length self.old.met }
        requires len { length self.old.roots ≡ length self.old.met }
        ensures stays { OnOk result (slice_index_or self.old.met node false ≡ true →
            (self.new.met ≡ self.old.met) × (self.new.roots ≡ self.old.roots) × (self.new.pending ≡ self.old.pending)) }
        ensures given { OnOk result (slice_index_or self.old.met node false ≡ false →
            (self.new.met ≡ slice_set self.old.met node true) × (self.new.roots ≡ slice_set self.old.roots node root)
            × (self.new.pending ≡ self.old.pending ++ node ∷ [])) }
    {
        if !self.met.as_slice()[node] {
            self.met.set(node, true);
            self.roots.set(node, root);
            self.pending.push(node)?;
        }
        Ok(())
    }
}
