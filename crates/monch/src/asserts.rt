ghost use Rattle.std.specs.Prelude.{◌≡◌};
ghost use Rattle.monch.specs.core_parsers.Seen.{seen};
ghost use Rattle.monch.specs.Calls.{AnswersOn};
ghost use Rattle.monch.specs.Parts.{FailsAbove, GivesAssert, is_success};

use crate::core_parsers::{Combinator, ParseError, ParseResult};
use crate::failures::told_above;
use std::alloc::Global;
use std::borrow::CowStr;

// The failure of a result that the condition denies.
fn denied<'a, O: Drop>(
    alloc: Global,
    input: &'a str,
    message: &'a str,
    outcome: ParseResult<'a, O>,
) -> ParseResult<'a, O>
    ensures { FailsAbove input.now message.now (seen outcome.entry) (seen result) }
{
    match outcome {
        Err(ParseError::Failure(failure)) => Err(told_above(alloc, message, failure)),
        _ => ParseError::fail(alloc, input, CowStr::Borrowed(message)),
    }
}

/// What `assert` answers: the part where a condition holds of its result, else a failure.
#[derive(Drop)]
pub struct Assert<'a, A, F> {
    pub(crate) alloc: Global,
    pub(crate) part: A,
    pub(crate) condition: F,
    pub(crate) message: &'a str,
}

impl<
    'a,
    O: Drop,
    A: Combinator<'a, Output = O>,
    F: Fn(Result<&(&'a str, O), &ParseError<'a>>) -> bool,
> Combinator<'a> for Assert<'a, A, F> {
    type Output = O;

    ghost can_parse = { λ s. A.can_parse s.part × F.IsAlwaysCallable s.condition };

    ghost gives = { λ s text outcome. GivesAssert (A.gives s.part) (AnswersOn F.Fn s.condition) s.message.now text outcome };

    ghost advances = { λ s. A.advances s.part };

    fn parse(&self, input: &'a str) -> ParseResult<'a, O> {
        let outcome = self.part.parse(input);
        if let Err(ParseError::OutOfMemory) = outcome {
            return Err(ParseError::OutOfMemory);
        }
        if (self.condition)(outcome.as_ref()) {
            return outcome;
        }
        denied(self.alloc, input, self.message, outcome)
    }

    ghost leaves_suffix = { λ s can text rest value given. A.leaves_suffix s.part can.0 _ _ _ given.0 };

    ghost leaves_less = { λ s can told text rest value given. A.leaves_less s.part can.0 told text rest value given.0 };
}

/// What `assert_exists` answers: the part where it succeeds, else a failure.
#[derive(Drop)]
pub struct AssertExists<'a, A> {
    pub(crate) alloc: Global,
    pub(crate) part: A,
    pub(crate) message: &'a str,
}

impl<'a, O: Drop, A: Combinator<'a, Output = O>> Combinator<'a> for AssertExists<'a, A> {
    type Output = O;

    ghost can_parse = { λ s. A.can_parse s.part };

    ghost gives = { λ s text outcome. GivesAssert (A.gives s.part) (λ of answer. answer ≡ is_success of) s.message.now text outcome };

    ghost advances = { λ s. A.advances s.part };

    fn parse(&self, input: &'a str) -> ParseResult<'a, O> {
        match self.part.parse(input) {
            Err(ParseError::Failure(failure)) => Err(told_above(self.alloc, self.message, failure)),
            Err(ParseError::Backtrace) => {
                ParseError::fail(self.alloc, input, CowStr::Borrowed(self.message))
            }
            other => other,
        }
    }

    ghost leaves_suffix = { λ s can text rest value given. A.leaves_suffix s.part can _ _ _ given.0 };

    ghost leaves_less = { λ s can told text rest value given. A.leaves_less s.part can told text rest value given.0 };
}
