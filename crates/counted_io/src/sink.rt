//! Where the program's bytes go.
ghost use Rattle.std.specs.Prelude.{◌≡◌, ℕ, ◌<◌, ◌≤◌, List, length, IfOk, Option};
ghost use Rattle.std.specs.Io.KnownBytes.{WriteAppends};
ghost use Rattle.counted_io.specs.Transfer.{CountsFailure};

use crate::source::Failed;

/// What takes bytes.
pub trait Sink {
    // The bytes that the sink has taken, if it reports them.
    ghost taken: { Self → Option (List ℕ) };

    // How many writes have failed so far.
    ghost faults: { Self → ℕ };

    /// Takes bytes from the front, at least one, and answers how many.
    fn write(&mut self, bytes: &[u8]) -> Result<usize, Failed>
        requires { 0 < length bytes.now }
        ensures bound { IfOk result (λ n. (0 < n) × (n ≤ length bytes.now)) }
        ensures bytes { WriteAppends (taken self.old) (taken self.new) result bytes.now }
        ensures count { CountsFailure (faults self.old) (faults self.new) result };
}
