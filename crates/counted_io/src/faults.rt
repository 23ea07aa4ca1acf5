//! The count of failures, which proofs alone see.
ghost use Rattle.std.specs.Prelude.{◌≡◌, ℕ, ◌+◌};

use std::marker::{Model, PhantomData};

/// How often reading or writing has failed. It takes no bytes, so it has no upper bound.
#[derive(Drop)]
pub struct Faults {
    marker: PhantomData<u8>,
    pub ghost count: { ℕ },
}

impl Model for Faults {
    ghost use Rattle.std.specs.Borrow.{ftrue};

    ghost also_owns = { λ _. ftrue };
}

impl Faults {
    /// No failure so far.
    pub fn new() -> Faults
        ensures { result.count ≡ 0 }
    {
        Faults {
            marker: PhantomData,
        }
    }

    /// One failure more.
    pub fn rise(&mut self)
        ensures { self.new.count ≡ self.old.count + 1 }
    {}
}
