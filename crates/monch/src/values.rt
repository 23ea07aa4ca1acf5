ghost use Rattle.std.specs.Prelude.{⊤};
ghost use Rattle.monch.specs.Parts.{GivesSubstring, GivesMapped};

use crate::core_parsers::{Combinator, ParseResult};
use crate::text::taken;
use std::marker::PhantomData;

/// What `substring` answers: the slice that the part takes.
#[derive(Drop)]
pub struct Substring<'a, A> {
    pub(crate) part: A,
    pub(crate) of: PhantomData<&'a str>,
}

impl<'a, A: Combinator<'a>> Combinator<'a> for Substring<'a, A>
where
    A::Output: Drop,
{
    type Output = &'a str;

    ghost can_parse = { λ s. A.can_parse s.part };

    ghost gives = { λ s text outcome. GivesSubstring (A.gives s.part) text outcome };

    ghost advances = { λ s. A.advances s.part };

    fn parse(&self, input: &'a str) -> ParseResult<'a, &'a str> {
        let (rest, _) = self.part.parse(input)?;
        Ok((rest, taken(input, rest)))
    }

    ghost leaves_suffix = { λ s can text rest value given. (_, given.2) };

    ghost leaves_less = { λ s can told text rest value given. A.leaves_less s.part can told text rest given.0 given.1 };
}

/// What `map` answers: what a function makes of the part's value.
#[derive(Drop)]
pub struct Map<'a, A, F> {
    pub(crate) part: A,
    pub(crate) function: F,
    pub(crate) of: PhantomData<&'a str>,
}

impl<'a, O, A: Combinator<'a, Output = O>, R, F: Fn(O) -> R> Combinator<'a> for Map<'a, A, F> {
    type Output = R;

    ghost can_parse = { λ s. A.can_parse s.part × F.IsAlwaysCallable s.function };

    ghost gives = { λ s text outcome. GivesMapped (A.gives s.part) (F.post s.function) text outcome };

    ghost advances = { λ s. A.advances s.part };

    fn parse(&self, input: &'a str) -> ParseResult<'a, R> {
        let (rest, value) = self.part.parse(input)?;
        Ok((rest, (self.function)(value)))
    }

    ghost leaves_suffix = { λ s can text rest value given. A.leaves_suffix s.part can.0 _ _ _ given.1 };

    ghost leaves_less = { λ s can told text rest value given. A.leaves_less s.part can.0 told text rest given.0 given.1 };
}
