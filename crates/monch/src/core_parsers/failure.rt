ghost use Rattle.std.specs.Prelude.{◌≡◌, None, IfOk, MatchResult, string_bytes};
ghost use Rattle.std.specs.Cow.{cow_str_bytes};
ghost use Rattle.monch.specs.core_parsers.Outcome.{backtrack, refused};
ghost use Rattle.monch.specs.core_parsers.Seen.{seen};
ghost use Rattle.monch.specs.core_parsers.Failures.{IsToldAs, IsHandledAs, FailsWith, snippet, trailing_message};

use crate::core_parsers::combinator::ParseResult;
use crate::core_parsers::error::{
    HandledError, ParseError, ParseErrorFailure, ParseErrorFailureError,
};
use base::Text;
use std::alloc::{AllocError, Global};
use std::borrow::CowStr;

// The first 60 characters of the text.
fn shortened(alloc: Global, text: &str) -> Result<String, AllocError>
    ensures { IfOk result (λ s. string_bytes s ≡ snippet text.now) }
{
    text.chars().take(60).collect(alloc)
}

impl<'a> ParseError<'a> {
    /// A failure as a whole, at this text.
    pub fn fail<O>(alloc: Global, input: &'a str, message: CowStr<'a>) -> ParseResult<'a, O>
        ensures { FailsWith input.now (cow_str_bytes message.entry) (seen result) }
    {
        let failure = ParseErrorFailure::new(input, message);
        Err(ParseError::Failure(Box::new(alloc, failure)?))
    }

    pub fn backtrace<O>() -> ParseResult<'a, O>
        ensures { seen result ≡ refused backtrack }
    {
        Err(ParseError::Backtrace)
    }
}

impl<'a> ParseErrorFailure<'a> {
    pub fn new(input: &'a str, message: CowStr<'a>) -> ParseErrorFailure<'a>
        ensures input { result.input.now ≡ input.now }
        ensures message { cow_str_bytes result.message ≡ cow_str_bytes message.entry }
    {
        ParseErrorFailure { input, message }
    }

    /// The failure of text that is left over.
    pub fn new_for_trailing_input(input: &'a str) -> ParseErrorFailure<'a>
        ensures input { result.input.now ≡ input.now }
        ensures message { cow_str_bytes result.message ≡ trailing_message }
    {
        ParseErrorFailure::new(input, CowStr::Borrowed("Unexpected character."))
    }

    /// The failure with its message and, as snippet, the first 60 characters of its text.
    pub fn into_error(self, alloc: Global) -> Result<ParseErrorFailureError, AllocError>
        ensures { IfOk result (IsToldAs self.entry.input.now (cow_str_bytes self.entry.message)) }
    {
        let snippet = shortened(alloc, self.input)?;
        let message = self.message.into_owned(alloc)?;
        Ok(ParseErrorFailureError {
            message: Text::from_string(message),
            code_snippet: Some(Text::from_string(snippet)),
        })
    }

    /// The failure as the error that `into_error` gives.
    pub fn into_result<T>(self, alloc: Global) -> Result<T, HandledError>
        ensures { MatchResult result (λ _. ⊥) (IsHandledAs self.entry.input.now (cow_str_bytes self.entry.message)) }
    {
        Err(HandledError::Failure(self.into_error(alloc)?))
    }

    pub fn copy(&self) -> Result<ParseErrorFailure<'a>, AllocError>
        ensures input { IfOk result (λ e. e.input.now ≡ self.now.input.now) }
        ensures message { IfOk result (λ e. cow_str_bytes e.message ≡ cow_str_bytes self.now.message) }
    {
        Ok(ParseErrorFailure {
            input: self.input,
            message: self.message.clone()?,
        })
    }
}

impl ParseErrorFailureError {
    /// An error without a snippet.
    pub fn new(message: Text) -> ParseErrorFailureError
        ensures message { result.message ≡ message }
        ensures code_snippet { result.code_snippet ≡ None }
    {
        ParseErrorFailureError {
            message,
            code_snippet: None,
        }
    }

    pub fn copy(&self) -> Result<ParseErrorFailureError, AllocError>
        ensures { IfOk result (λ e. e ≡ self.now) }
    {
        let code_snippet = match &self.code_snippet {
            Some(snippet) => Some(snippet.copy()?),
            None => None,
        };
        Ok(ParseErrorFailureError {
            message: self.message.copy()?,
            code_snippet,
        })
    }
}
