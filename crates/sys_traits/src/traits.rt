//! The calls of a system. Each trait's clauses say what its calls do to the count of `faults` and to `told`.
ghost use Rattle.std.specs.Prelude.{◌≡◌, ℕ, Option, IfOk, string_bytes};
ghost use Rattle.sys_traits.specs.State.{Told, WhereTold, refusal_of, shortage_of, CountsFault};
ghost use Rattle.sys_traits.specs.Calls.{Canonicalized, FolderCreated, LookedUp, Opened, Written, Removed, Renamed, Drawn, Slept, answered_path, answered_truth, answered_byte};

use crate::error::SysError;
use crate::file::SysFile;
use std::alloc::AllocError;

/// What a system is, for contracts alone.
pub trait SysState {
    /// how many calls were refused, other than for memory
    ghost faults: { Self → ℕ };

    /// the current folder, the files and the log, where a system reports them
    ghost told: { Self → Option Told };
}

pub trait FsCanonicalize: SysState {
    /// The path from `/` on, without links.
    fn fs_canonicalize(&mut self, path: &str) -> Result<String, SysError>
        ensures counts { CountsFault (refusal_of result) (Self.faults self.old) (Self.faults self.new) }
        ensures tells { WhereTold (Canonicalized path.now (answered_path string_bytes result) (refusal_of result))
            (Self.told self.old) (Self.told self.new) };
}

pub trait FsCreateDirAll: SysState {
    /// Makes the folder, with those above it that aren't there.
    fn fs_create_dir_all(&mut self, path: &str) -> Result<(), SysError>
        ensures counts { CountsFault (refusal_of result) (Self.faults self.old) (Self.faults self.new) }
        ensures tells { WhereTold (FolderCreated path.now (refusal_of result))
            (Self.told self.old) (Self.told self.new) };
}

pub trait FsMetadata: SysState {
    /// Whether a file or folder is there.
    fn fs_exists(&mut self, path: &str) -> Result<bool, SysError>
        ensures counts { CountsFault (refusal_of result) (Self.faults self.old) (Self.faults self.new) }
        ensures tells { WhereTold (LookedUp path.now (answered_truth result) (refusal_of result))
            (Self.told self.old) (Self.told self.new) };
}

pub trait FsOpen: SysState {
    /// Opens a file to be written. It is created where it isn't there, and emptied where it is.
    fn fs_open(&mut self, path: &str, mode: u32) -> Result<SysFile, SysError>
        ensures counts { CountsFault (refusal_of result) (Self.faults self.old) (Self.faults self.new) }
        ensures tells { WhereTold (Opened path.now mode (refusal_of result))
            (Self.told self.old) (Self.told self.new) }
        ensures named { IfOk result (λ file. file.path ≡ path.now) };

    /// Writes the bytes and closes the file. On a failure some of them may have been written.
    fn fs_write_all(&mut self, file: SysFile, bytes: &[u8]) -> Result<(), SysError>
        ensures counts { CountsFault (refusal_of result) (Self.faults self.old) (Self.faults self.new) }
        ensures tells { WhereTold (Written file.path bytes.now (refusal_of result))
            (Self.told self.old) (Self.told self.new) };
}

pub trait FsRemoveFile: SysState {
    fn fs_remove_file(&mut self, path: &str) -> Result<(), SysError>
        ensures counts { CountsFault (refusal_of result) (Self.faults self.old) (Self.faults self.new) }
        ensures tells { WhereTold (Removed path.now (refusal_of result))
            (Self.told self.old) (Self.told self.new) };
}

pub trait FsRename: SysState {
    /// Puts the file of the first path in the place of the second one, in one step.
    fn fs_rename(&mut self, from: &str, to: &str) -> Result<(), SysError>
        ensures counts { CountsFault (refusal_of result) (Self.faults self.old) (Self.faults self.new) }
        ensures tells { WhereTold (Renamed from.now to.now (refusal_of result))
            (Self.told self.old) (Self.told self.new) };
}

pub trait SystemRandom: SysState {
    fn sys_random_u8(&mut self) -> Result<u8, SysError>
        ensures counts { CountsFault (refusal_of result) (Self.faults self.old) (Self.faults self.new) }
        ensures tells { WhereTold (Drawn (answered_byte result) (refusal_of result))
            (Self.told self.old) (Self.told self.new) };
}

pub trait ThreadSleep: SysState {
    /// Sleeps for so many milliseconds.
    fn thread_sleep_ms(&mut self, ms: u64) -> Result<(), AllocError>
        ensures counts { CountsFault (shortage_of result) (Self.faults self.old) (Self.faults self.new) }
        ensures tells { WhereTold (Slept ms (shortage_of result)) (Self.told self.old) (Self.told self.new) };
}

/// All that a file's replacement in one step takes.
pub trait AtomicWriteFileSys: FsCreateDirAll
    + FsMetadata
    + FsOpen
    + FsRemoveFile
    + FsRename
    + SystemRandom {}

/// The same, with the sleep between tries.
pub trait AtomicWriteFileWithRetriesSys: AtomicWriteFileSys + ThreadSleep {}
