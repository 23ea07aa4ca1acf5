//! What a parser answers, as a text.

use monch::{ParseError, ParseResult};
use std::alloc::{AllocError, Global};
use std::fmt::Debug;

/// The rest and the value, or why there is none.
pub fn shown<'a, O: Debug + Drop>(
    alloc: Global,
    outcome: ParseResult<'a, O>,
) -> Result<String, AllocError> {
    match outcome {
        Ok((rest, value)) => format!(in alloc; "{rest}|{value:?}"),
        Err(ParseError::Backtrace) => String::from_str(alloc, "backtrack"),
        Err(ParseError::Failure(failure)) => {
            let message = failure.message.as_str();
            format!(in alloc; "{}: {message}", failure.input)
        }
        Err(ParseError::OutOfMemory) => Err(AllocError),
    }
}

/// The rest and how many values there are, or that there are none.
pub fn counted_values<'a, O: Drop>(
    alloc: Global,
    outcome: ParseResult<'a, Vec<O>>,
) -> Result<String, AllocError> {
    match outcome {
        Ok((rest, values)) => format!(in alloc; "{rest}|{}", values.len()),
        Err(ParseError::OutOfMemory) => Err(AllocError),
        Err(_) => String::from_str(alloc, "none"),
    }
}
