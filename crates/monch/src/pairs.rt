ghost use Rattle.std.specs.Prelude.{◌⊎◌};
ghost use Rattle.monch.specs.Parts.{GivesPair, GivesPreceded, GivesTerminated, GivesDelimited};
ghost use Rattle.monch.specs.Suffix.{GivesPair-suffix, GivesPreceded-suffix, GivesTerminated-suffix};
ghost use Rattle.monch.specs.Advance.{pair_advances_by, preceded_advances_by, terminated_advances_by, delimited_advances_by};

use crate::core_parsers::{Combinator, ParseResult};
use std::marker::PhantomData;

/// What `pair` answers: two parts, one after the other, and both values.
#[derive(Drop)]
pub struct Pair<A, B> {
    pub(crate) first: A,
    pub(crate) second: B,
}

impl<'a, A: Combinator<'a>, B: Combinator<'a>> Combinator<'a> for Pair<A, B>
where
    A::Output: Drop,
    B::Output: Drop,
{
    type Output = (A::Output, B::Output);

    ghost can_parse = { λ s. A.can_parse s.first × B.can_parse s.second };

    ghost gives = { λ s text outcome. GivesPair (A.gives s.first) (B.gives s.second) text outcome };

    ghost advances = { λ s. A.advances s.first ⊎ B.advances s.second };

    fn parse(&self, input: &'a str) -> ParseResult<'a, (A::Output, B::Output)> {
        let (rest, first) = self.first.parse(input)?;
        let (rest, second) = self.second.parse(rest)?;
        Ok((rest, (first, second)))
    }

    ghost leaves_suffix = { λ s can. GivesPair-suffix (A.gives s.first) (B.gives s.second) (A.leaves_suffix s.first can.0) (B.leaves_suffix s.second can.1) };

    ghost leaves_less = { λ s can told. pair_advances_by (A.gives s.first) (B.gives s.second) (A.leaves_suffix s.first can.0) (B.leaves_suffix s.second can.1) (A.leaves_less s.first can.0) (B.leaves_less s.second can.1) told };
}

/// What `preceded` answers: two parts, one after the other, and the value of the second.
#[derive(Drop)]
pub struct Preceded<'a, A, B> {
    pub(crate) first: A,
    pub(crate) second: B,
    pub(crate) of: PhantomData<&'a str>,
}

impl<'a, O: Drop, A: Combinator<'a, Output = O>, B: Combinator<'a>> Combinator<'a>
    for Preceded<'a, A, B> {
    type Output = B::Output;

    ghost can_parse = { λ s. A.can_parse s.first × B.can_parse s.second };

    ghost gives = { λ s text outcome. GivesPreceded (A.gives s.first) (B.gives s.second) text outcome };

    ghost advances = { λ s. A.advances s.first ⊎ B.advances s.second };

    fn parse(&self, input: &'a str) -> ParseResult<'a, B::Output> {
        let (rest, _) = self.first.parse(input)?;
        self.second.parse(rest)
    }

    ghost leaves_suffix = { λ s can. GivesPreceded-suffix (A.gives s.first) (B.gives s.second) (A.leaves_suffix s.first can.0) (B.leaves_suffix s.second can.1) };

    ghost leaves_less = { λ s can told. preceded_advances_by (A.gives s.first) (B.gives s.second) (A.leaves_suffix s.first can.0) (B.leaves_suffix s.second can.1) (A.leaves_less s.first can.0) (B.leaves_less s.second can.1) told };
}

/// What `terminated` answers: two parts, one after the other, and the value of the first.
#[derive(Drop)]
pub struct Terminated<'a, A, B> {
    pub(crate) first: A,
    pub(crate) second: B,
    pub(crate) of: PhantomData<&'a str>,
}

impl<'a, A: Combinator<'a>, O: Drop, B: Combinator<'a, Output = O>> Combinator<'a>
    for Terminated<'a, A, B>
where
    A::Output: Drop,
{
    type Output = A::Output;

    ghost can_parse = { λ s. A.can_parse s.first × B.can_parse s.second };

    ghost gives = { λ s text outcome. GivesTerminated (A.gives s.first) (B.gives s.second) text outcome };

    ghost advances = { λ s. A.advances s.first ⊎ B.advances s.second };

    fn parse(&self, input: &'a str) -> ParseResult<'a, A::Output> {
        let (rest, value) = self.first.parse(input)?;
        let (rest, _) = self.second.parse(rest)?;
        Ok((rest, value))
    }

    ghost leaves_suffix = { λ s can. GivesTerminated-suffix (A.gives s.first) (B.gives s.second) (A.leaves_suffix s.first can.0) (B.leaves_suffix s.second can.1) };

    ghost leaves_less = { λ s can told. terminated_advances_by (A.gives s.first) (B.gives s.second) (A.leaves_suffix s.first can.0) (B.leaves_suffix s.second can.1) (A.leaves_less s.first can.0) (B.leaves_less s.second can.1) told };
}

/// What `delimited` answers: three parts, one after the other, and the value of the second.
#[derive(Drop)]
pub struct Delimited<'a, A, B, C> {
    pub(crate) first: A,
    pub(crate) second: B,
    pub(crate) third: C,
    pub(crate) of: PhantomData<&'a str>,
}

impl<
    'a,
    O: Drop,
    A: Combinator<'a, Output = O>,
    B: Combinator<'a>,
    P: Drop,
    C: Combinator<'a, Output = P>,
> Combinator<'a> for Delimited<'a, A, B, C>
where
    B::Output: Drop,
{
    type Output = B::Output;

    ghost can_parse = { λ s. A.can_parse s.first × B.can_parse s.second × C.can_parse s.third };

    ghost gives = { λ s text outcome. GivesDelimited (A.gives s.first) (B.gives s.second) (C.gives s.third) text outcome };

    ghost advances = { λ s. A.advances s.first ⊎ B.advances s.second ⊎ C.advances s.third };

    fn parse(&self, input: &'a str) -> ParseResult<'a, B::Output> {
        let (rest, _) = self.first.parse(input)?;
        let (rest, value) = self.second.parse(rest)?;
        let (rest, _) = self.third.parse(rest)?;
        Ok((rest, value))
    }

    ghost leaves_suffix = { λ s can. GivesPreceded-suffix (A.gives s.first) (GivesTerminated (B.gives s.second) (C.gives s.third)) (A.leaves_suffix s.first can.0) (GivesTerminated-suffix (B.gives s.second) (C.gives s.third) (B.leaves_suffix s.second can.1) (C.leaves_suffix s.third can.2)) };

    ghost leaves_less = { λ s can told. delimited_advances_by (A.gives s.first) (B.gives s.second) (C.gives s.third) (A.leaves_suffix s.first can.0) (B.leaves_suffix s.second can.1) (C.leaves_suffix s.third can.2) (A.leaves_less s.first can.0) (B.leaves_less s.second can.1) (C.leaves_less s.third can.2) told };
}
