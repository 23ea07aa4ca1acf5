//! The temporary path beside a file.
ghost use Rattle.std.specs.Prelude.{◌≡◌, ℕ, ◌<◌, IfOk, IsSome, length, map, string_bytes, Result};
ghost use Rattle.sys_traits.specs.State.{WhereTold, refusal_of, CountsFault};
ghost use Rattle.lexical_path.specs.Paths.{file_name};
ghost use Rattle.deno_path_util.specs.Atomic.{atomic_path, IsTemporaryPath};
ghost use Rattle.deno_path_util.specs.Atomic as spec;
ghost use Rattle.deno_path_util.specs.Course.{IsTemporary};
ghost use Rattle.deno_path_util.specs.WriteLaw.{HasCalls, KeepsAll};
ghost use Rattle.deno_path_util.specs.Steps.{Quiet, IsFour};

use std::alloc::{AllocError, Global};
use std::path::Path;
use sys_traits::{SysError, SystemRandom};

/// The path with its extension replaced by eight lower-case hexadecimal digits of four random bytes and `.tmp`. What
/// follows the file name is dropped.
pub fn get_atomic_path<S: SystemRandom>(
    alloc: Global,
    sys: &mut S,
    path: &str,
) -> Result<String, SysError>
    requires { IsSome (file_name path.now) }
    ensures path { IfOk result (λ temporary. IsTemporaryPath path.now (string_bytes temporary)) }
    ensures calls { WhereTold (HasCalls (IsTemporary path.now result)) (S.told sys.old) (S.told sys.new) }
    ensures files { WhereTold KeepsAll (S.told sys.old) (S.told sys.new) }
    ensures faults { CountsFault (refusal_of result) (S.faults sys.old) (S.faults sys.new) }
{
    temporary_path(alloc, sys, path)
}

// The same, with one clause for calls and files.
pub fn temporary_path<S: SystemRandom>(
    alloc: Global,
    sys: &mut S,
    path: &str,
) -> Result<String, SysError>
    requires { IsSome (file_name path.now) }
    ensures path { IfOk result (λ temporary. IsTemporaryPath path.now (string_bytes temporary)) }
    ensures tells { WhereTold (Quiet (IsTemporary path.now result)) (S.told sys.old) (S.told sys.new) }
    ensures counts { CountsFault (refusal_of result) (S.faults sys.old) (S.faults sys.new) }
{
    let bytes = four_bytes(sys)?;
    match beside(alloc, path, &bytes) {
        Ok(temporary) => Ok(temporary),
        Err(_) => Err(SysError::out_of_memory(alloc)),
    }
}

fn four_bytes<S: SystemRandom>(sys: &mut S) -> Result<[u8; 4], SysError>
    ensures four { IfOk result (λ bytes. length bytes ≡ 4) }
    ensures counts { CountsFault (refusal_of result) (S.faults sys.old) (S.faults sys.new) }
    ensures tells { WhereTold (Quiet (IsFour result)) (S.told sys.old) (S.told sys.new) }
{
    let first = sys.sys_random_u8()?;
    let second = sys.sys_random_u8()?;
    let third = sys.sys_random_u8()?;
    let fourth = sys.sys_random_u8()?;
    Ok([first, second, third, fourth])
}

// The temporary path of these bytes.
fn beside(alloc: Global, path: &str, bytes: &[u8]) -> Result<String, AllocError>
    requires { IsSome (file_name path.now) }
    ensures { IfOk result (λ s. string_bytes s ≡ atomic_path path.now bytes.now) }
{
    let end = temporary_end(alloc, bytes)?;
    let mut temporary = Path::new(path).to_path_buf(alloc)?;
    temporary.set_extension(end.as_str())?;
    Ok(temporary.into_string())
}

fn temporary_end(alloc: Global, bytes: &[u8]) -> Result<String, AllocError>
    ensures { IfOk result (λ s. string_bytes s ≡ spec.temporary_end bytes.now) }
{
    let mut end = hex::encode(alloc, bytes)?;
    end.push_str(".tmp")?;
    Ok(end)
}
