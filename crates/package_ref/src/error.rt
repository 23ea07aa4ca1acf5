ghost use Rattle.std.specs.Prelude.{◌≡◌};
ghost use Rattle.package_ref.specs.declared.error.PackageError.TheVariants.{OutOfMemory};
ghost use Rattle.package_ref.specs.Faults.{fault_of};

use monch::ParseError;
use std::alloc::AllocError;
use thiserror::Error;

/// Why a URL names no package.
#[derive(Clone, Copy, Debug, PartialEq, Eq, PartialOrd, Ord, Hash, Error)]
pub enum PackageError {
    /// The URL's text is no `npm:` or `jsr:` reference.
    #[error("NotAReference")]
    NotAReference,
    #[error("out of memory")]
    OutOfMemory,
}

impl From<AllocError> for PackageError {
    ghost from_gives = { λ _ e. e ≡ OutOfMemory };

    fn from(_e: AllocError) -> PackageError {
        PackageError::OutOfMemory
    }
}

impl<'a> From<ParseError<'a>> for PackageError {
    ghost from_gives = { λ e fault. fault ≡ fault_of e };

    fn from(error: ParseError<'a>) -> PackageError {
        match error {
            ParseError::Backtrace | ParseError::Failure(_) => PackageError::NotAReference,
            ParseError::OutOfMemory => PackageError::OutOfMemory,
        }
    }
}
