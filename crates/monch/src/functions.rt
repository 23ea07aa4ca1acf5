ghost use Rattle.std.specs.Prelude.{⊤};
ghost use Rattle.monch.specs.Calls.{GivesCall, AnswersSuffix, AnswersShorter};
ghost use Rattle.monch.specs.Suffix.{GivesCall-suffix};
ghost use Rattle.monch.specs.Advance.{call_advances};

use crate::core_parsers::{Combinator, ParseResult};

/// What `from_fn` answers: a function as a combinator. Its `parse` calls the function.
#[derive(Drop)]
pub struct FnCombinator<F> {
    pub(crate) function: F,
}

impl<'a, O, F: Fn(&'a str) -> ParseResult<'a, O>> Combinator<'a> for FnCombinator<F> {
    type Output = O;

    ghost can_parse = { λ s. F.IsAlwaysCallable s.function × AnswersSuffix F.Fn s.function };

    ghost gives = { λ s text outcome. GivesCall F.Fn s.function text outcome };

    ghost advances = { λ s. AnswersShorter F.Fn s.function };

    fn parse(&self, input: &'a str) -> ParseResult<'a, O> {
        (self.function)(input)
    }

    ghost leaves_suffix = { λ s can. GivesCall-suffix F.Fn s.function can.1 };

    ghost leaves_less = { λ s can shorter. call_advances F.Fn s.function shorter };
}
