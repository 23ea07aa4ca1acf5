//! Repetitions that give their values as a list.

ghost use Rattle.std.specs.Prelude.{◌≡◌, ⊤};
ghost use Rattle.monch.specs.core_parsers.Seen.{seen};
ghost use Rattle.monch.specs.repeats.Repeat.{MayRepeat, Backtracks, GivesVec, GivesSome};
ghost use Rattle.monch.specs.repeats.Items.{GivesItems};
ghost use Rattle.monch.specs.repeats.Separated.{MayAlternate, GivesSeparated};
ghost use Rattle.monch.specs.repeats.RepeatSuffix.{GivesItems-suffix, GivesSeparated-suffix};
ghost use Rattle.monch.specs.repeats.Advance.{advancing, items_advance};

use crate::core_parsers::{Combinator, ParseError, ParseResult};
use crate::repeats::rounds::{Backtracking, Round, next_item, next_separated};
use std::alloc::Global;
use std::marker::PhantomData;

/// The values of items, until the end is read or no item follows.
#[derive(Drop)]
pub struct ManyTill<'a, A, B> {
    pub(crate) alloc: Global,
    pub(crate) item: A,
    pub(crate) until: B,
    pub(crate) of: PhantomData<&'a str>,
}

impl<'a, A: Combinator<'a>, B: Combinator<'a>> Combinator<'a> for ManyTill<'a, A, B>
where
    A::Output: Drop,
    B::Output: Drop,
{
    type Output = Vec<A::Output>;

    ghost can_parse = { λ s. A.can_parse s.item × B.can_parse s.until × MayRepeat (A.advances s.item) (A.gives s.item) };

    ghost gives = { λ s text outcome. GivesVec (GivesItems (A.gives s.item) (B.gives s.until)) text outcome };

    ghost advances = { λ s. ⊥ };

    fn parse(&self, input: &'a str) -> ParseResult<'a, Vec<A::Output>> {
        list_items(self.alloc, &self.item, &self.until, input)
    }

    ghost leaves_suffix = { λ s can text rest value given. GivesItems-suffix (A.gives s.item) (B.gives s.until) (A.leaves_suffix s.item can.0) given };

    ghost leaves_less = { λ s can none. Prim.absurd none };
}

/// The values of items, until no item follows.
#[derive(Drop)]
pub struct Many0<'a, A> {
    pub(crate) alloc: Global,
    pub(crate) item: A,
    pub(crate) of: PhantomData<&'a str>,
}

impl<'a, A: Combinator<'a>> Combinator<'a> for Many0<'a, A>
where
    A::Output: Drop,
{
    type Output = Vec<A::Output>;

    ghost can_parse = { λ s. A.can_parse s.item × MayRepeat (A.advances s.item) (A.gives s.item) };

    ghost gives = { λ s text outcome. GivesVec (GivesItems (A.gives s.item) Backtracks) text outcome };

    ghost advances = { λ s. ⊥ };

    fn parse(&self, input: &'a str) -> ParseResult<'a, Vec<A::Output>> {
        list_items(self.alloc, &self.item, &Backtracking, input)
    }

    ghost leaves_suffix = { λ s can text rest value given. GivesItems-suffix (A.gives s.item) Backtracks (A.leaves_suffix s.item can.0) given };

    ghost leaves_less = { λ s can none. Prim.absurd none };
}

/// The values of items, until no item follows, and a backtrack where there is none.
#[derive(Drop)]
pub struct Many1<'a, A> {
    pub(crate) alloc: Global,
    pub(crate) item: A,
    pub(crate) of: PhantomData<&'a str>,
}

impl<'a, A: Combinator<'a>> Combinator<'a> for Many1<'a, A>
where
    A::Output: Drop,
{
    type Output = Vec<A::Output>;

    ghost can_parse = { λ s. A.can_parse s.item × MayRepeat (A.advances s.item) (A.gives s.item) };

    ghost gives = { λ s text outcome. GivesVec (GivesSome (GivesItems (A.gives s.item) Backtracks)) text outcome };

    ghost advances = { λ s. ⊤ };

    fn parse(&self, input: &'a str) -> ParseResult<'a, Vec<A::Output>> {
        let (rest, values) = list_items(self.alloc, &self.item, &Backtracking, input)?;
        if values.is_empty() {
            return Err(ParseError::Backtrace);
        }
        Ok((rest, values))
    }

    ghost leaves_suffix = { λ s can text rest value given. GivesItems-suffix (A.gives s.item) Backtracks (A.leaves_suffix s.item can.0) given.1 };

    ghost leaves_less = { λ s can _ text rest value given. items_advance (A.gives s.item) Backtracks (advancing (A.gives s.item) (A.leaves_less s.item can.0) can.1) (A.leaves_suffix s.item can.0) given.1 given.0 };
}

/// The values of items with a separator after each. A separator that is read stays read, even with no item after it.
#[derive(Drop)]
pub struct SeparatedList<'a, A, B> {
    pub(crate) alloc: Global,
    pub(crate) item: A,
    pub(crate) separator: B,
    pub(crate) of: PhantomData<&'a str>,
}

impl<'a, A: Combinator<'a>, B: Combinator<'a>> Combinator<'a> for SeparatedList<'a, A, B>
where
    A::Output: Drop,
    B::Output: Drop,
{
    type Output = Vec<A::Output>;

    ghost can_parse = { λ s. A.can_parse s.item × B.can_parse s.separator × MayAlternate (A.gives s.item) (B.gives s.separator) (A.advances s.item) (B.advances s.separator) };

    ghost gives = { λ s text outcome. GivesVec (GivesSeparated (A.gives s.item) (B.gives s.separator)) text outcome };

    ghost advances = { λ s. ⊥ };

    fn parse(&self, input: &'a str) -> ParseResult<'a, Vec<A::Output>> {
        list_separated(self.alloc, &self.item, &self.separator, input)
    }

    ghost leaves_suffix = { λ s can text rest value given. GivesSeparated-suffix (A.gives s.item) (B.gives s.separator) (A.leaves_suffix s.item can.0) (B.leaves_suffix s.separator can.1) given };

    ghost leaves_less = { λ s can none. Prim.absurd none };
}

/// The values of the items, as a vector.
fn list_items<'a, A: Combinator<'a>, B: Combinator<'a>>(
    alloc: Global,
    item: &A,
    until: &B,
    input: &'a str,
) -> ParseResult<'a, Vec<A::Output>>
where
    A::Output: Drop,
    B::Output: Drop,
    requires item { A.can_parse item.now }
    requires until { B.can_parse until.now }
    requires advances { MayRepeat (A.advances item.now) (A.gives item.now) }
    ensures { GivesVec (GivesItems (A.gives item.now) (B.gives until.now)) input.now (seen result) }
{
    let mut values = Vec::new(alloc);
    let mut left = input;
    while let Some((rest, value)) = next_item(item, until, left)? {
        values.push(value)?;
        left = rest;
    }
    Ok((left, values))
}

/// The values of the separated items, as a vector.
fn list_separated<'a, A: Combinator<'a>, B: Combinator<'a>>(
    alloc: Global,
    item: &A,
    separator: &B,
    input: &'a str,
) -> ParseResult<'a, Vec<A::Output>>
where
    A::Output: Drop,
    B::Output: Drop,
    requires item { A.can_parse item.now }
    requires separator { B.can_parse separator.now }
    requires advances { MayAlternate (A.gives item.now) (B.gives separator.now) (A.advances item.now) (B.advances separator.now) }
    ensures { GivesVec (GivesSeparated (A.gives item.now) (B.gives separator.now)) input.now (seen result) }
{
    let mut values = Vec::new(alloc);
    let mut left = input;
    'rounds: loop {
        match next_separated(item, separator, left)? {
            Round::Next(rest, value) => {
                values.push(value)?;
                left = rest;
            }
            Round::Last(rest, value) => {
                values.push(value)?;
                return Ok((rest, values));
            }
            Round::End => return Ok((left, values)),
        }
    }
}
