//! The nodes that may come next.
ghost use Rattle.std.specs.Prelude.{◌≡◌, ◌∷◌, ◌||◌, ◌&&◌, ◌==◌, ◌≤◌, ℕ, true, false, [], OnOk, IfSome, MatchOption};
ghost use Rattle.topological_order.specs.Order.{has};

use std::alloc::{AllocError, Global};
use std::collections::BTreeSet;
use std::marker::Model;

/// An ordered set of nodes.
#[derive(Drop)]
pub struct Free {
    set: BTreeSet<usize>,
}

impl Model for Free {
    ghost use Rattle.std.specs.Prelude.{List, ℕ};

    ghost Value = { List ℕ };

    ghost view = { λ f. f.set.keys };
}

impl Free {
    pub fn new(alloc: Global) -> Free
        ensures { result ≡ [] }
    {
        Free {
            set: BTreeSet::new(alloc),
        }
    }

    pub fn put(&mut self, node: usize) -> Result<(), AllocError>
        ensures { OnOk result ((v : ℕ) → has self.new v ≡ (v == node || has self.old v)) }
    {
        self.set.insert(node)?;
        Ok(())
    }

    pub fn put_if(&mut self, whole: bool, node: usize) -> Result<(), AllocError>
        ensures { OnOk result ((v : ℕ) → has self.new v ≡ ((v == node && whole) || has self.old v)) }
    {
        if whole {
            self.put(node)?;
        }
        Ok(())
    }

    /// Takes the least.
    pub fn take(&mut self) -> Option<usize>
        ensures taken { MatchOption result ((self.old ≡ []) × (self.new ≡ [])) (λ v. self.old ≡ v ∷ self.new) }
        ensures least { IfSome result (λ v. (u : ℕ) → has self.old u ≡ true → v ≤ u) }
        ensures gone { IfSome result (λ v. has self.new v ≡ false) }
    {
        self.set.pop_first()
    }
}
