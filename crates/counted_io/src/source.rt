//! Where the program's bytes come from.
ghost use Rattle.std.specs.Prelude.{◌≡◌, ℕ, ◌<◌, ◌≤◌, List, length, IfOk, Option};
ghost use Rattle.std.specs.Io.KnownBytes.{ReadConsumes};
ghost use Rattle.counted_io.specs.Transfer.{CountsFailure};

use thiserror::Error;

/// A read or a write that failed. The count of faults rose by it.
#[derive(Clone, Copy, Debug, PartialEq, Eq, Error)]
#[error("Failed")]
pub struct Failed;

/// What gives bytes.
pub trait Source {
    // The bytes that reads will give from here on, if the source reports them.
    ghost left: { Self → Option (List ℕ) };

    // How many reads have failed so far.
    ghost faults: { Self → ℕ };

    /// Puts bytes into the front of the buffer, and answers how many. 0 is the end.
    fn read(&mut self, buffer: &mut [u8]) -> Result<usize, Failed>
        requires { 0 < length buffer.old }
        ensures bound { IfOk result (λ n. n ≤ length buffer.new) }
        ensures bytes { ReadConsumes (left self.old) (left self.new) result buffer.new }
        ensures count { CountsFailure (faults self.old) (faults self.new) result };
}
