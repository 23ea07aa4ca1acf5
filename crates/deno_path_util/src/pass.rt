//! One pass of an atomic write: the temporary file is opened, written and renamed.
ghost use Rattle.std.specs.Prelude.{◌≡◌, ◌≤◌, ◌⊎◌};
ghost use Rattle.sys_traits.specs.State.{WhereTold, refusal_of, CountsFault};
ghost use Rattle.deno_path_util.specs.Steps.{Stretch, IsApart, IsPassed, IsTakenAway};

use sys_traits::{AtomicWriteFileSys, FsOpen, FsRemoveFile, FsRename, SysError, SysErrorKind};

/// Opens the temporary file, writes it and renames it to the path. A refused rename removes it; a refused write
/// leaves it.
pub fn pass<S: AtomicWriteFileSys>(
    sys: &mut S,
    temporary: &str,
    path: &str,
    bytes: &[u8],
    mode: u32,
) -> Result<(), SysError>
    requires { IsApart temporary.now path.now }
    ensures counts { CountsFault (refusal_of result) (S.faults sys.old) (S.faults sys.new) }
    ensures tells { WhereTold (Stretch path.now bytes.now result
        (IsPassed temporary.now path.now mode (refusal_of result))) (S.told sys.old) (S.told sys.new) }
{
    let file = sys.fs_open(temporary, mode)?;
    sys.fs_write_all(file, bytes)?;
    match sys.fs_rename(temporary, path) {
        Ok(()) => Ok(()),
        Err(refused) => Err(without_temporary(sys, temporary, refused)),
    }
}

/// Removes the temporary file after a rename that was refused, unless memory ran out.
fn without_temporary<S: FsRemoveFile>(sys: &mut S, temporary: &str, refused: SysError) -> SysError
    ensures counts { S.faults sys.old ≤ S.faults sys.new }
    ensures kind { (result.kind ≡ refused.kind) ⊎ (result.kind ≡ SysErrorKind.OutOfMemory) }
    ensures tells { WhereTold (IsTakenAway temporary.now refused.kind result.kind) (S.told sys.old) (S.told sys.new) }
{
    if refused.kind == SysErrorKind::OutOfMemory {
        return refused;
    }
    match sys.fs_remove_file(temporary) {
        Err(error) if error.kind == SysErrorKind::OutOfMemory => error,
        _ => refused,
    }
}
