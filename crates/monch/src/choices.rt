ghost use Rattle.std.specs.Prelude.{[], ◌∷◌};
ghost use Rattle.monch.specs.Parts.{GivesFirst, GivesMaybe};
ghost use Rattle.monch.specs.Suffix.{GivesFirst-suffix, GivesMaybe-suffix};
ghost use Rattle.monch.specs.Advance.{first_advances};

use crate::core_parsers::{Combinator, ParseError, ParseResult};

/// What `or` answers: the first of two alternatives that does not backtrack.
#[derive(Drop)]
pub struct Or<A, B> {
    pub(crate) first: A,
    pub(crate) second: B,
}

impl<'a, A: Combinator<'a>, B: Combinator<'a, Output = A::Output>> Combinator<'a> for Or<A, B> {
    type Output = A::Output;

    ghost can_parse = { λ s. A.can_parse s.first × B.can_parse s.second };

    ghost gives = { λ s text outcome. GivesFirst (A.gives s.first ∷ B.gives s.second ∷ []) text outcome };

    ghost advances = { λ s. A.advances s.first × B.advances s.second };

    fn parse(&self, input: &'a str) -> ParseResult<'a, A::Output> {
        match self.first.parse(input) {
            Err(ParseError::Backtrace) => self.second.parse(input),
            other => other,
        }
    }

    ghost leaves_suffix = { λ s can. GivesFirst-suffix (A.gives s.first ∷ B.gives s.second ∷ []) (A.leaves_suffix s.first can.0, (B.leaves_suffix s.second can.1, tt)) };

    ghost leaves_less = { λ s can told. first_advances (A.gives s.first ∷ B.gives s.second ∷ []) (A.leaves_less s.first can.0 told.0, (B.leaves_less s.second can.1 told.1, tt)) };
}

/// What `maybe` answers: some value of the part, or none where it backtracks.
#[derive(Drop)]
pub struct Maybe<A> {
    pub(crate) part: A,
}

impl<'a, A: Combinator<'a>> Combinator<'a> for Maybe<A> {
    type Output = Option<A::Output>;

    ghost can_parse = { λ s. A.can_parse s.part };

    ghost gives = { λ s text outcome. GivesMaybe (A.gives s.part) text outcome };

    ghost advances = { λ s. ⊥ };

    fn parse(&self, input: &'a str) -> ParseResult<'a, Option<A::Output>> {
        match self.part.parse(input) {
            Ok((rest, value)) => Ok((rest, Some(value))),
            Err(ParseError::Backtrace) => Ok((input, None)),
            Err(error) => Err(error),
        }
    }

    ghost leaves_suffix = { λ s can. GivesMaybe-suffix (A.gives s.part) (A.leaves_suffix s.part can) };

    ghost leaves_less = { λ s can none. Prim.absurd none };
}
