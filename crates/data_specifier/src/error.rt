ghost use Rattle.std.specs.Prelude.{◌≡◌};
ghost use Rattle.data_specifier.specs.declared.error.DataError.TheVariants.{OutOfMemory};

use std::alloc::AllocError;
use thiserror::Error;

/// Why a `data:` URL holds nothing.
#[derive(Clone, Copy, Debug, PartialEq, Eq, PartialOrd, Ord, Hash, Error)]
pub enum DataError {
    /// No comma precedes the bytes.
    #[error("NoComma")]
    NoComma,
    /// The URL says that its bytes are in base64, and they aren't.
    #[error("Base64")]
    Base64,
    #[error("out of memory")]
    OutOfMemory,
}

impl From<AllocError> for DataError {
    ghost from_gives = { λ _ e. e ≡ OutOfMemory };

    fn from(_e: AllocError) -> DataError {
        DataError::OutOfMemory
    }
}
