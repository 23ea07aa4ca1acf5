//! A history of pairs that only proofs read.
ghost use Rattle.std.specs.Prelude.{◌≡◌, List, [], ◌∷◌, ◌++◌};
ghost use Rattle.std.specs.Borrow.{ftrue};

use std::marker::{Model, PhantomData};

/// Pairs in the order in which they were noted. It is zero-sized, and its methods do nothing at run time:
/// clauses read the pairs as `items`.
#[derive(Drop)]
pub struct GhostLog<A, B> {
    of: PhantomData<(A, B)>,
    pub ghost items: { List (A × B) },
}

impl<A, B> Model for GhostLog<A, B> {
    ghost also_owns = { λ _. ftrue };
}

impl<A, B> GhostLog<A, B> {
    /// Nothing was noted.
    pub fn new() -> GhostLog<A, B>
        ensures { result.items ≡ [] }
    {
        GhostLog { of: PhantomData }
    }

    /// The same history.
    pub fn again(&self) -> GhostLog<A, B>
        ensures { result.items ≡ self.now.items }
    {
        GhostLog { of: PhantomData }
    }

    /// The history with one more pair.
    pub fn and(&self, first: &A, second: &B) -> GhostLog<A, B>
        ensures { result.items ≡ self.now.items ++ (first.now, second.now) ∷ [] }
    {
        GhostLog { of: PhantomData }
    }
}
