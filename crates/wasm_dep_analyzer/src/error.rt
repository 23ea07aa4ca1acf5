ghost use Rattle.std.specs.Prelude.{◌≡◌};
ghost use Rattle.wasm_dep_analyzer.specs.declared.error.ParseError.TheVariants.{OutOfMemory};

use std::alloc::{AllocError, AllocFailed};
use thiserror::Error;

/// Why a module, or the type of an export, cannot be determined. Bytes are shown in hexadecimal digits.
#[derive(Clone, Copy, Debug, PartialEq, Eq, Error)]
pub enum ParseError {
    #[error("out of memory")]
    OutOfMemory,
    #[error("not a Wasm module")]
    NotWasm,
    #[error("unsupported Wasm version: {0}")]
    UnsupportedVersion(u32),
    #[error("unexpected end of file")]
    UnexpectedEof,
    /// A number of more than 32 bits.
    #[error("integer overflow")]
    IntegerOverflow,
    /// A name that is no text, with the count of its bytes before the fault.
    #[error("invalid utf-8. {0}")]
    InvalidUtf8(usize),
    #[error("unknown import type '{0:X}'")]
    UnknownImportType(u8),
    #[error("unknown element type '{0:X}'")]
    UnknownElementType(u8),
    #[error("invalid mutability flag '{0:X}'")]
    InvalidMutabilityFlag(u8),
    #[error("unknown attribute '{0:X}'")]
    UnknownTagKind(u8),
    /// A function type that does not begin with its mark. It occurs only in the result of an export.
    #[error("invalid type indicator '{0:X}'")]
    InvalidTypeIndicator(u8),
    /// An export whose type is not there, or was not read. It occurs only in the result of an export.
    #[error("unresolved export type")]
    UnresolvedExportType,
}

impl From<AllocError> for ParseError {
    ghost from_gives = { λ _ e. e ≡ OutOfMemory };

    fn from(_e: AllocError) -> ParseError {
        ParseError::OutOfMemory
    }
}

impl<T: Drop> From<AllocFailed<T>> for ParseError {
    ghost from_gives = { λ _ e. e ≡ OutOfMemory };

    fn from(_e: AllocFailed<T>) -> ParseError {
        ParseError::OutOfMemory
    }
}
