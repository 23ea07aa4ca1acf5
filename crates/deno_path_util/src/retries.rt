//! The atomic write, tried several times.
ghost use Rattle.std.specs.Prelude.{◌≡◌, ◌≤◌, IsSome};
ghost use Rattle.sys_traits.specs.State.{WhereTold, refusal_of, CountsFault};
ghost use Rattle.lexical_path.specs.Paths.{file_name};
ghost use Rattle.deno_path_util.specs.WriteLaw.{WriteLaw, HasCalls};
ghost use Rattle.deno_path_util.specs.Tries.{IsTried, IsCountedSix};
ghost use Rattle.deno_path_util.specs.Steps.{Stretch};

use crate::atomic::write_file;
use std::alloc::Global;
use sys_traits::{AtomicWriteFileWithRetriesSys, SysError, SysErrorKind, ThreadSleep};

/// Tries `atomic_write_file` until it succeeds, six times at most, and sleeps 10, 20, 30, 40 and 50 milliseconds
/// between. After the sixth try its error is answered. Where memory runs out it ends at once.
pub fn atomic_write_file_with_retries<S: AtomicWriteFileWithRetriesSys>(
    alloc: Global,
    sys: &mut S,
    file_path: &str,
    bytes: &[u8],
    mode: u32,
) -> Result<(), SysError>
    requires { IsSome (file_name file_path.now) }
    ensures law { WhereTold (WriteLaw file_path.now bytes.now result) (S.told sys.old) (S.told sys.new) }
    ensures calls { WhereTold (HasCalls (IsTried file_path.now mode 5 result)) (S.told sys.old) (S.told sys.new) }
    ensures faults { IsCountedSix (refusal_of result) (S.faults sys.old) (S.faults sys.new) }
{
    tried(alloc, sys, file_path, bytes, mode)
}

// The tries, with one clause for calls and files.
fn tried<S: AtomicWriteFileWithRetriesSys>(
    alloc: Global,
    sys: &mut S,
    path: &str,
    bytes: &[u8],
    mode: u32,
) -> Result<(), SysError>
    requires { IsSome (file_name path.now) }
    ensures counts { IsCountedSix (refusal_of result) (S.faults sys.old) (S.faults sys.new) }
    ensures tells { WhereTold (Stretch path.now bytes.now result (IsTried path.now mode 5 result))
        (S.told sys.old) (S.told sys.new) }
{
    for number in 1..6 {
        match write_file(alloc, sys, path, bytes, mode) {
            Ok(()) => return Ok(()),
            Err(error) => {
                if error.kind == SysErrorKind::OutOfMemory {
                    return Err(error);
                }
            }
        }
        match sys.thread_sleep_ms(10 * number) {
            Ok(()) => {}
            Err(_) => return Err(SysError::out_of_memory(alloc)),
        }
    }
    write_file(alloc, sys, path, bytes, mode)
}
