ghost use Rattle.monch.specs.Calls.{GivesOfResult};
ghost use Rattle.monch.specs.Handled.{GivesHandled};

use crate::core_parsers::{Combinator, HandledError, ParseError, ParseErrorFailure, ParseResult};
use std::alloc::Global;

/// What `map_res` answers: what a function makes of the part's whole result. It is no `Combinator`: its `parse`
/// answers the function's value.
#[derive(Drop)]
pub struct MapRes<A, F> {
    pub(crate) part: A,
    pub(crate) function: F,
}

impl<A, F> MapRes<A, F> {
    /// What the function makes of the part's whole result.
    pub fn parse<'a, O, R>(&self, input: &'a str) -> R
    where
        A: Combinator<'a, Output = O>,
        F: Fn(ParseResult<'a, O>) -> R,
        requires part { A.can_parse self.now.part }
        requires function { F.IsAlwaysCallable self.now.function }
        ensures { GivesOfResult (A.gives self.now.part) (F.post self.now.function) input.now result }
    {
        (self.function)(self.part.parse(input))
    }
}

/// What `with_failure_handling` answers: a whole text, read with the part. It is no `Combinator`: its `parse` answers
/// a plain result.
#[derive(Drop)]
pub struct WithFailureHandling<A> {
    pub(crate) alloc: Global,
    pub(crate) part: A,
}

impl<A> WithFailureHandling<A> {
    /// The part's value, where it reads the whole text. Text that is left over, or a backtrack, is an error
    /// `Unexpected character.`, and a failure is itself.
    pub fn parse<'a, O: Drop>(&self, input: &'a str) -> Result<O, HandledError>
    where
        A: Combinator<'a, Output = O>,
        requires { A.can_parse self.now.part }
        ensures { GivesHandled (A.gives self.now.part) input.now result }
    {
        match self.part.parse(input) {
            Ok((rest, value)) => {
                if rest.is_empty() {
                    return Ok(value);
                }
                ParseErrorFailure::new_for_trailing_input(rest).into_result(self.alloc)
            }
            Err(ParseError::Backtrace) => {
                ParseErrorFailure::new_for_trailing_input(input).into_result(self.alloc)
            }
            Err(ParseError::Failure(failure)) => Box::into_inner(failure).into_result(self.alloc),
            Err(ParseError::OutOfMemory) => Err(HandledError::OutOfMemory),
        }
    }
}
