//! The files of a plan, written to a system.
ghost use Rattle.sys_traits.specs.State.{WhereTold};
ghost use Rattle.vendor_files.specs.Written.{Means, Stands, IsWritten, IsCounted};

use crate::plan::VendorPlan;
use std::alloc::Global;
use sys_traits::AtomicWriteFileWithRetriesSys;
use vendor_files::{VendorWriteError, write_files};

/// Writes the plan's files, in their order, each by an atomic write with retries. The mode is that of new files.
pub fn write_vendor<S: AtomicWriteFileWithRetriesSys>(
    alloc: Global,
    sys: &mut S,
    plan: &VendorPlan,
    mode: u32,
) -> Result<(), VendorWriteError>
    ensures means { Means plan.now.files result }
    ensures stands { WhereTold (Stands plan.now.files result) (S.told sys.old) (S.told sys.new) }
    ensures written { WhereTold (IsWritten plan.now.files mode result) (S.told sys.old) (S.told sys.new) }
    ensures counted { IsCounted result (S.faults sys.old) (S.faults sys.new) }
{
    write_files(alloc, sys, plan.files.as_slice(), mode)
}
