use base::Text;
use std::alloc::{AllocError, AllocFailed};
use std::borrow::CowStr;
use std::fmt;
use thiserror::Error;

/// Why a combinator gives no value.
#[derive(Debug, Drop)]
pub enum ParseError<'a> {
    /// The text is not what was looked for, and another alternative may be tried.
    Backtrace,
    /// Parsing fails as a whole.
    Failure(Box<ParseErrorFailure<'a>>),
    OutOfMemory,
}

/// Where parsing failed, and what is to be said about it.
#[derive(Debug, Drop)]
pub struct ParseErrorFailure<'a> {
    /// The text that was left at the failure.
    pub input: &'a str,
    pub message: CowStr<'a>,
}

/// A failure that owns its texts, for people. It displays its message, and its snippet on a line below.
#[derive(Debug, Drop, PartialEq, Eq, Hash)]
pub struct ParseErrorFailureError {
    pub message: Text,
    /// The text at the failure, of which at most the first 60 characters are kept.
    pub code_snippet: Option<Text>,
}

impl fmt::Display for ParseErrorFailureError {
    fn fmt<W: fmt::Write>(&self, f: &mut fmt::Formatter<W>) -> fmt::Result {
        match &self.code_snippet {
            Some(snippet) => write!(f, "{}\n  {}\n  ~", self.message, snippet),
            None => write!(f, "{}", self.message),
        }
    }
}

impl std::error::Error for ParseErrorFailureError {}

/// Why a whole text could not be read.
#[derive(Debug, Drop, Error)]
pub enum HandledError {
    #[error("{0}")]
    Failure(ParseErrorFailureError),
    #[error("out of memory")]
    OutOfMemory,
}

impl<'a> From<AllocError> for ParseError<'a> {
    ghost use Rattle.std.specs.Prelude.{◌≡◌};
    ghost use Rattle.monch.specs.declared.core_parsers.error.ParseError.TheVariants.{OutOfMemory};

    ghost from_gives = { λ _ e. e ≡ OutOfMemory };

    fn from(_e: AllocError) -> ParseError<'a> {
        ParseError::OutOfMemory
    }
}

impl<'a, T: Drop> From<AllocFailed<T>> for ParseError<'a> {
    ghost use Rattle.std.specs.Prelude.{◌≡◌};
    ghost use Rattle.monch.specs.declared.core_parsers.error.ParseError.TheVariants.{OutOfMemory};

    ghost from_gives = { λ _ e. e ≡ OutOfMemory };

    fn from(_e: AllocFailed<T>) -> ParseError<'a> {
        ParseError::OutOfMemory
    }
}

impl From<AllocError> for HandledError {
    ghost use Rattle.std.specs.Prelude.{◌≡◌};
    ghost use Rattle.monch.specs.declared.core_parsers.error.HandledError.TheVariants.{OutOfMemory};

    ghost from_gives = { λ _ e. e ≡ OutOfMemory };

    fn from(_e: AllocError) -> HandledError {
        HandledError::OutOfMemory
    }
}
