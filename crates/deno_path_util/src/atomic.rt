//! Files that are replaced in one step.
ghost use Rattle.std.specs.Prelude.{◌≡◌, ◌≤◌, IsSome};
ghost use Rattle.sys_traits.specs.State.{WhereTold, refusal_of, CountsFault};
ghost use Rattle.lexical_path.specs.Paths.{file_name};
ghost use Rattle.deno_path_util.specs.Atomic.{atomic_path};
ghost use Rattle.deno_path_util.specs.Course.{IsWrite, IsFault};
ghost use Rattle.deno_path_util.specs.Course as spec;
ghost use Rattle.deno_path_util.specs.WriteLaw.{WriteLaw, HasCalls};
ghost use Rattle.deno_path_util.specs.Steps.{Stretch, IsApart, IsOver, IsOverAfter, IsLooked, Quiet};

use crate::error::named;
use crate::pass::pass;
use crate::temporary::temporary_path;
use lexical_path::parent;
use std::alloc::Global;
use sys_traits::{AtomicWriteFileSys, FsCreateDirAll, FsMetadata, SysError, SysErrorKind};

// What a message says of a folder that couldn't be made.
const UNMADE: &str = "\nCheck the permission of the directory.";

/// Writes the file by way of a temporary one beside it, which a rename then puts in its place in one step: at no
/// moment does the path read anything but its old content or these bytes. Where something isn't there, the folder is
/// made, with those above it, and the write tried once more.
///
/// The message of a refusal names the path, or the folder if that couldn't be made. A refused write leaves its
/// temporary file.
pub fn atomic_write_file<S: AtomicWriteFileSys>(
    alloc: Global,
    sys: &mut S,
    file_path: &str,
    bytes: &[u8],
    mode: u32,
) -> Result<(), SysError>
    requires { IsSome (file_name file_path.now) }
    ensures law { WhereTold (WriteLaw file_path.now bytes.now result) (S.told sys.old) (S.told sys.new) }
    ensures calls { WhereTold (HasCalls (IsWrite file_path.now mode result)) (S.told sys.old) (S.told sys.new) }
    ensures faults { CountsFault (refusal_of result) (S.faults sys.old) (S.faults sys.new) }
{
    write_file(alloc, sys, file_path, bytes, mode)
}

// The same, with one clause for calls and files.
pub fn write_file<S: AtomicWriteFileSys>(
    alloc: Global,
    sys: &mut S,
    path: &str,
    bytes: &[u8],
    mode: u32,
) -> Result<(), SysError>
    requires { IsSome (file_name path.now) }
    ensures counts { CountsFault (refusal_of result) (S.faults sys.old) (S.faults sys.new) }
    ensures tells { WhereTold (Stretch path.now bytes.now result (IsWrite path.now mode result))
        (S.told sys.old) (S.told sys.new) }
{
    let temporary = temporary_path(alloc, sys, path)?;
    write_over(alloc, sys, temporary.as_str(), path, bytes, mode)
}

// Writes by way of this temporary path.
fn write_over<S: AtomicWriteFileSys>(
    alloc: Global,
    sys: &mut S,
    temporary: &str,
    path: &str,
    bytes: &[u8],
    mode: u32,
) -> Result<(), SysError>
    requires { IsApart temporary.now path.now }
    ensures counts { CountsFault (refusal_of result) (S.faults sys.old) (S.faults sys.new) }
    ensures tells { WhereTold (Stretch path.now bytes.now result (IsOver temporary.now path.now mode result))
        (S.told sys.old) (S.told sys.new) }
{
    match pass(sys, temporary, path, bytes, mode) {
        Ok(()) => Ok(()),
        Err(first) => {
            if first.kind == SysErrorKind::NotFound {
                return write_again(alloc, sys, temporary, path, bytes, mode, first);
            }
            Err(named(alloc, first, path, ""))
        }
    }
}

// Makes the folder and tries once more, where the first pass found something missing.
fn write_again<S: AtomicWriteFileSys>(
    alloc: Global,
    sys: &mut S,
    temporary: &str,
    path: &str,
    bytes: &[u8],
    mode: u32,
    first: SysError,
) -> Result<(), SysError>
    requires apart { IsApart temporary.now path.now }
    requires missing { first.kind ≡ SysErrorKind.NotFound }
    ensures counts { CountsFault (refusal_of result) (S.faults sys.old) (S.faults sys.new) }
    ensures tells { WhereTold (Stretch path.now bytes.now result (IsOverAfter temporary.now path.now mode result))
        (S.told sys.old) (S.told sys.new) }
{
    let folder = folder_of(path);
    match sys.fs_create_dir_all(folder) {
        Ok(()) => match pass(sys, temporary, path, bytes, mode) {
            Ok(()) => Ok(()),
            Err(second) => Err(named(alloc, second, path, "")),
        },
        Err(refused) => {
            if refused.kind == SysErrorKind::OutOfMemory {
                return Err(refused);
            }
            Err(not_made(alloc, sys, path, first, refused))
        }
    }
}

// What is answered where the folder wasn't made: the first refusal if it is there all the same.
fn not_made<S: FsMetadata>(
    alloc: Global,
    sys: &mut S,
    path: &str,
    first: SysError,
    refused: SysError,
) -> SysError
    requires missing { first.kind ≡ SysErrorKind.NotFound }
    requires fault { IsFault refused.kind }
    ensures counts { S.faults sys.old ≤ S.faults sys.new }
    ensures tells { WhereTold (Quiet (IsLooked path.now refused.kind result)) (S.told sys.old) (S.told sys.new) }
{
    let folder = folder_of(path);
    match sys.fs_exists(folder) {
        Ok(true) => named(alloc, first, path, ""),
        Ok(false) => named(alloc, refused, folder, UNMADE),
        Err(error) => {
            if error.kind == SysErrorKind::OutOfMemory {
                return error;
            }
            named(alloc, refused, folder, UNMADE)
        }
    }
}

fn folder_of(path: &str) -> &str
    ensures { result.now ≡ spec.folder_of path.now }
{
    match parent(path) {
        Some(folder) => folder,
        None => "",
    }
}
