//! What failures display, and copies of them.

use base::Text;
use monch::core_parsers::{ParseErrorFailure, ParseErrorFailureError};
use monch::{Combinator, HandledError, ParseResult, ch, map_res, tag, with_failure_handling};
use std::alloc::{AllocError, Global};
use std::borrow::CowStr;

/// What the call of a name answers of a text.
pub fn of_failure(alloc: Global, name: &str, text: &str) -> Result<String, AllocError> {
    match name {
        "copy" => copy(alloc, text),
        "trailing" => {
            let error = ParseErrorFailure::new_for_trailing_input(text).into_error(alloc)?;
            displayed(alloc, &error)
        }
        "message" => {
            let error = ParseErrorFailureError::new(Text::from_str(alloc, text)?);
            displayed(alloc, &error)
        }
        "whole a" => whole(alloc, text),
        "reads a" => format!(in alloc; "{}", map_res(ch('a'), succeeds).parse(text)),
        "memory" => format!(in alloc; "{}", HandledError::OutOfMemory),
        _ => String::from_str(alloc, "no such call"),
    }
}

fn copy(alloc: Global, input: &str) -> Result<String, AllocError> {
    let failure = ParseErrorFailure::new(input, CowStr::Borrowed("No b."));
    let copy = failure.copy()?;
    format!(in alloc; "{}: {}", copy.input, copy.message.as_str())
}

/// What an error displays, where its copy is equal to it.
fn displayed(alloc: Global, error: &ParseErrorFailureError) -> Result<String, AllocError> {
    let copy = error.copy()?;
    if copy == *error {
        format!(in alloc; "{error}")
    } else {
        format!(in alloc; "{error}, and its copy {copy}")
    }
}

/// A text that is to be `a` and nothing else.
fn whole(alloc: Global, text: &str) -> Result<String, AllocError> {
    match with_failure_handling(alloc, tag("a")).parse(text) {
        Ok(value) => String::from_str(alloc, value),
        Err(HandledError::Failure(error)) => format!(in alloc; "{error}"),
        Err(HandledError::OutOfMemory) => Err(AllocError),
    }
}

fn succeeds(outcome: ParseResult<'_, char>) -> bool {
    outcome.is_ok()
}
