//! What the combinators of `monch` are, and what they answer.
//!
//! - `Combinator<'a>`: reads a value from the front of a text. Its meaning `gives` is a relation from the text to the
//!   outcomes that there may be (`Outcome`, `specs/core_parsers/Outcome.antt`): a rest and a value, or a refusal. `parse` answers
//!   one of them (`seen`, `specs/core_parsers/Seen.antt`). Its law `leaves_suffix` is that the rest of a success is a suffix.
//! - `ParseError`: a backtrack, a failure as a whole, or `OutOfMemory`.
//! - `ParseErrorFailure::into_error`: the message, and the first 60 characters of the text as snippet (`IsToldAs`,
//!   `specs/core_parsers/Failures.antt`).
//!
//! Not promised: what `Display` and `Debug` write, and when memory runs out.

mod combinator;
mod error;
mod failure;

pub use combinator::{Combinator, ParseResult};
pub use error::{HandledError, ParseError, ParseErrorFailure, ParseErrorFailureError};
