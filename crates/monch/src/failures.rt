ghost use Rattle.std.specs.Prelude.{◌≡◌, IfOk, string_bytes};
ghost use Rattle.std.specs.Cow.{cow_str_bytes};
ghost use Rattle.monch.specs.core_parsers.Failures.{below};
ghost use Rattle.monch.specs.core_parsers.Seen.{refusal_of};
ghost use Rattle.monch.specs.Parts.{GivesWithContext, GivesWithInput, IsToldAbove};

use crate::core_parsers::{Combinator, ParseError, ParseErrorFailure, ParseResult};
use std::alloc::{AllocError, Global};
use std::borrow::CowStr;

// One message above the other, with an empty line between.
fn joined(alloc: Global, context: &str, message: &str) -> Result<String, AllocError>
    ensures { IfOk result (λ s. string_bytes s ≡ below context.now message.now) }
{
    let mut text = String::from_str(alloc, context)?;
    text.push_str("\n\n")?;
    text.push_str(message)?;
    Ok(text)
}

// The failure with this message above its own, unless memory runs out.
pub(crate) fn told_above<'a>(
    alloc: Global,
    context: &str,
    mut failure: Box<ParseErrorFailure<'a>>,
) -> ParseError<'a>
    ensures { IsToldAbove context.now failure.entry.value.input.now (cow_str_bytes failure.entry.value.message) (refusal_of result) }
{
    match joined(alloc, context, failure.message.as_str()) {
        Ok(message) => {
            failure.message = CowStr::Owned(message);
            ParseError::Failure(failure)
        }
        Err(_) => ParseError::OutOfMemory,
    }
}

/// What `with_failure_input` answers: the part, with another text in its failure.
#[derive(Drop)]
pub struct WithFailureInput<'a, A> {
    pub(crate) input: &'a str,
    pub(crate) part: A,
}

impl<'a, A: Combinator<'a>> Combinator<'a> for WithFailureInput<'a, A> {
    type Output = A::Output;

    ghost can_parse = { λ s. A.can_parse s.part };

    ghost gives = { λ s text outcome. GivesWithInput s.input.now (A.gives s.part) text outcome };

    ghost advances = { λ s. A.advances s.part };

    fn parse(&self, input: &'a str) -> ParseResult<'a, A::Output> {
        match self.part.parse(input) {
            Err(ParseError::Failure(mut failure)) => {
                failure.input = self.input;
                Err(ParseError::Failure(failure))
            }
            other => other,
        }
    }

    ghost leaves_suffix = { λ s can text rest value given. A.leaves_suffix s.part can _ _ _ given };

    ghost leaves_less = { λ s can told text rest value given. A.leaves_less s.part can told text rest value given };
}

/// What `with_error_context` answers: the part, with a message above that of its failure.
#[derive(Drop)]
pub struct WithErrorContext<'a, A> {
    pub(crate) alloc: Global,
    pub(crate) part: A,
    pub(crate) message: &'a str,
}

impl<'a, A: Combinator<'a>> Combinator<'a> for WithErrorContext<'a, A> {
    type Output = A::Output;

    ghost can_parse = { λ s. A.can_parse s.part };

    ghost gives = { λ s text outcome. GivesWithContext s.message.now (A.gives s.part) text outcome };

    ghost advances = { λ s. A.advances s.part };

    fn parse(&self, input: &'a str) -> ParseResult<'a, A::Output> {
        match self.part.parse(input) {
            Err(ParseError::Failure(failure)) => Err(told_above(self.alloc, self.message, failure)),
            other => other,
        }
    }

    ghost leaves_suffix = { λ s can text rest value given. A.leaves_suffix s.part can _ _ _ given };

    ghost leaves_less = { λ s can told text rest value given. A.leaves_less s.part can told text rest value given };
}
