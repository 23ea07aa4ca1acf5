//! The real path of a path that need not be there.
ghost use Rattle.std.specs.Prelude.{◌≡◌, IfOk, string_bytes};
ghost use Rattle.lexical_path.specs.Paths.{joined_path, texts};
ghost use Rattle.sys_traits.specs.State.{WhereTold, refusal_of, CountsFault};
ghost use Rattle.deno_path_util.specs.Climb.{IsClimbed};
ghost use Rattle.deno_path_util.specs.Climb as spec;
ghost use Rattle.deno_path_util.specs.WriteLaw.{HasCalls, KeepsAll};
ghost use Rattle.deno_path_util.specs.Steps.{Quiet, joined_names};

use lexical_path::{file_name, parent};
use std::alloc::{AllocError, Global};
use std::path::PathBuf;
use sys_traits::{FsCanonicalize, SysError, SysErrorKind};

/// The real path of the longest path above this one that is there, with the other names after it. A relative path
/// that isn't there at all is taken to be in the current folder.
///
/// The refusal is answered, its message as it is, where it isn't `NotFound`, or where no name or no parent is left.
pub fn canonicalize_path_maybe_not_exists<S: FsCanonicalize>(
    alloc: Global,
    sys: &mut S,
    path: &str,
) -> Result<String, SysError>
    ensures calls { WhereTold (HasCalls (IsClimbed path.now result)) (S.told sys.old) (S.told sys.new) }
    ensures files { WhereTold KeepsAll (S.told sys.old) (S.told sys.new) }
    ensures faults { CountsFault (refusal_of result) (S.faults sys.old) (S.faults sys.new) }
{
    climb(alloc, sys, path)
}

// The same, with one clause for calls and files.
fn climb<S: FsCanonicalize>(alloc: Global, sys: &mut S, path: &str) -> Result<String, SysError>
    ensures counts { CountsFault (refusal_of result) (S.faults sys.old) (S.faults sys.new) }
    ensures tells { WhereTold (Quiet (IsClimbed path.now result)) (S.told sys.old) (S.told sys.new) }
{
    // The names that aren't there, the last one first.
    let mut names = Vec::new(alloc);
    let mut here = path;
    'missing: loop {
        let error = match sys.fs_canonicalize(here) {
            Ok(found) => {
                return match with_names(found, names) {
                    Ok(joined) => Ok(joined),
                    Err(_) => Err(SysError::out_of_memory(alloc)),
                };
            }
            Err(error) => error,
        };
        if error.kind != SysErrorKind::NotFound {
            return Err(error);
        }
        let Some(name) = file_name(here) else {
            return Err(error);
        };
        let Some(folder) = parent(here) else {
            return Err(error);
        };
        if let Err(_) = names.push(name) {
            return Err(SysError::out_of_memory(alloc));
        }
        here = or_here(folder);
    }
}

// The path with these names after it, the last of them first.
fn with_names(path: String, names: Vec<&str>) -> Result<String, AllocError>
    ensures { IfOk result (λ s. string_bytes s ≡ joined_names (texts names.entry.items) (string_bytes path)) }
{
    let mut names = names;
    let mut joined = path;
    'names: while let Some(name) = names.pop() {
        joined = with_name(joined, name)?;
    }
    Ok(joined)
}

// The path with this name after it, in the same memory.
fn with_name(path: String, name: &str) -> Result<String, AllocError>
    ensures { IfOk result (λ s. string_bytes s ≡ joined_path (string_bytes path) name.now) }
{
    let mut joined = PathBuf::from(path);
    joined.push(name)?;
    Ok(joined.into_string())
}

// The current folder in place of an empty path.
fn or_here(path: &str) -> &str
    ensures { result.now ≡ spec.or_here path.now }
{
    if path.is_empty() { "." } else { path }
}
