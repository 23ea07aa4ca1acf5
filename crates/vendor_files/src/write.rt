//! The files, written one after the other.
ghost use Rattle.std.specs.Prelude.{◌<◌, length, IfErr};
ghost use Rattle.sys_traits.specs.State.{WhereTold};
ghost use Rattle.vendor_files.specs.Places.{ArePathsOf};
ghost use Rattle.vendor_files.specs.Written as spec;

use crate::file::{VendorFile, VendorWriteError};
use crate::places::{Placed, places_of};
use base::Text;
use deno_path_util::{
    AtomicWriteFileWithRetriesSys, SysError, SysErrorKind, atomic_write_file_with_retries,
};
use std::alloc::Global;

/// Writes the files, in their order, each by an atomic write with retries. The mode is that of new files.
pub fn write_files<S: AtomicWriteFileWithRetriesSys>(
    alloc: Global,
    sys: &mut S,
    files: &[VendorFile],
    mode: u32,
) -> Result<(), VendorWriteError>
    ensures means { spec.Means files.now result }
    // What the paths of the files read then, and how it came to that.
    ensures stands { WhereTold (spec.Stands files.now result) (S.told sys.old) (S.told sys.new) }
    ensures written { WhereTold (spec.IsWritten files.now mode result) (S.told sys.old) (S.told sys.new) }
    ensures counted { spec.IsCounted result (S.faults sys.old) (S.faults sys.new) }
{
    match places_of(alloc, files) {
        Ok(Placed::At(paths)) => write_all(alloc, sys, files, paths.as_slice(), mode),
        Ok(Placed::Unfit(target)) => Err(VendorWriteError::Path(target)),
        Err(_) => Err(VendorWriteError::OutOfMemory),
    }
}

// Writes the files to these paths.
fn write_all<S: AtomicWriteFileWithRetriesSys>(
    alloc: Global,
    sys: &mut S,
    files: &[VendorFile],
    paths: &[Text],
    mode: u32,
) -> Result<(), VendorWriteError>
    requires { ArePathsOf files.now paths.now }
    ensures means { spec.MeansRefused result }
    ensures written { WhereTold (spec.IsWritten files.now mode result) (S.told sys.old) (S.told sys.new) }
    ensures counted { spec.IsCounted result (S.faults sys.old) (S.faults sys.new) }
{
    match write_each(alloc, sys, files, paths, mode) {
        Ok(()) => Ok(()),
        Err(refused) => Err(told(&files[refused.number], refused.error)),
    }
}

// What is reported of a file that the system refused.
fn told(file: &VendorFile, error: SysError) -> VendorWriteError
    ensures { spec.IsToldOf file.now error result }
{
    if error.kind == SysErrorKind::OutOfMemory {
        return VendorWriteError::OutOfMemory;
    }
    match file.target.clone() {
        Ok(target) => VendorWriteError::System(target, error),
        Err(_) => VendorWriteError::OutOfMemory,
    }
}

/// A file that the system refused, by its number, and why.
#[derive(Drop)]
pub struct Refused {
    pub number: usize,
    pub error: SysError,
}

// Writes the files to these paths, up to the first that is refused.
fn write_each<S: AtomicWriteFileWithRetriesSys>(
    alloc: Global,
    sys: &mut S,
    files: &[VendorFile],
    paths: &[Text],
    mode: u32,
) -> Result<(), Refused>
    requires { ArePathsOf files.now paths.now }
    ensures number { IfErr result (λ r. r.number < length files.now) }
    ensures written { WhereTold (spec.IsWrittenUpTo files.now mode result) (S.told sys.old) (S.told sys.new) }
    ensures counted { spec.IsCountedUpTo result (S.faults sys.old) (S.faults sys.new) }
{
    for number in 0..files.len() {
        let path = paths[number].as_str();
        let bytes = files[number].bytes.as_slice();
        if let Err(error) = atomic_write_file_with_retries(alloc, sys, path, bytes, mode) {
            return Err(Refused { number, error });
        }
    }
    Ok(())
}
