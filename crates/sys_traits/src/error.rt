//! Why a call of the system was refused.
ghost use Rattle.std.specs.Prelude.{◌≡◌, [], IfOk, Some};
ghost use Rattle.sys_traits.specs.declared.error.SysErrorKind.TheVariants.{OutOfMemory};
ghost use Rattle.sys_traits.specs.Errors.{shown_error};

use base::Text;
use std::alloc::{AllocError, Global};
use std::error::Error;
use std::fmt;

/// The kind of a refusal.
#[derive(Clone, Copy, Debug, PartialEq, Eq)]
pub enum SysErrorKind {
    /// Something that the call needs isn't there.
    NotFound,
    /// Any other refusal of the system.
    Failed,
    /// Memory ran out, and the call didn't take place.
    OutOfMemory,
}

/// A refusal, with a text for people.
#[derive(Debug, Drop, PartialEq, Eq)]
pub struct SysError {
    pub kind: SysErrorKind,
    pub message: Text,
}

impl SysError {
    /// That memory ran out. Its message takes none.
    pub fn out_of_memory(alloc: Global) -> SysError
        ensures kind { result.kind ≡ OutOfMemory }
        ensures message { result.message ≡ [] }
    {
        SysError {
            kind: SysErrorKind::OutOfMemory,
            message: Text::new(alloc),
        }
    }

    pub fn copy(&self) -> Result<SysError, AllocError>
        ensures { IfOk result (λ e. e ≡ self.now) }
    {
        Ok(SysError {
            kind: self.kind,
            message: self.message.copy()?,
        })
    }
}

impl fmt::Display for SysError {
    ghost output = { λ e. Some (shown_error e) };

    fn fmt<W: fmt::Write>(&self, f: &mut fmt::Formatter<W>) -> fmt::Result {
        match self.kind {
            SysErrorKind::NotFound | SysErrorKind::Failed => fmt::Display::fmt(&self.message, f),
            SysErrorKind::OutOfMemory => fmt::Display::fmt(&"out of memory", f),
        }
    }
}

impl Error for SysError {}
