//! Repetitions that fold their values.

ghost use Rattle.std.specs.Prelude.{◌≡◌};
ghost use Rattle.monch.specs.core_parsers.Seen.{seen};
ghost use Rattle.monch.specs.repeats.Repeat.{MayRepeat, GivesFold};
ghost use Rattle.monch.specs.repeats.Items.{GivesItems};
ghost use Rattle.monch.specs.repeats.Separated.{MayAlternate, GivesSeparated};

use crate::core_parsers::{Combinator, ParseResult};
use crate::repeats::rounds::{Round, next_item, next_separated};

/// What a function makes of the values of items, until the end is read or no item follows.
#[derive(Drop)]
pub struct ManyTillFold<A, B, S, F> {
    pub(crate) item: A,
    pub(crate) until: B,
    pub(crate) init: S,
    pub(crate) fold: F,
}

impl<A: Drop, B: Drop, S: Drop, F: Drop> ManyTillFold<A, B, S, F> {
    /// What is left, and what `fold` makes of the values from `init`.
    pub fn parse<'a>(self, input: &'a str) -> ParseResult<'a, S>
    where
        A: Combinator<'a>,
        B: Combinator<'a>,
        A::Output: Drop,
        B::Output: Drop,
        F: Fn(S, A::Output) -> S,
        requires item { A.can_parse self.item }
        requires until { B.can_parse self.until }
        requires advances { MayRepeat (A.advances self.item) (A.gives self.item) }
        requires fold { F.IsAlwaysCallable self.fold }
        ensures { GivesFold (GivesItems (A.gives self.item) (B.gives self.until)) (F.post self.fold) self.init input.now (seen result) }
    {
        let mut state = self.init;
        let mut left = input;
        while let Some((rest, value)) = next_item(&self.item, &self.until, left)? {
            state = (self.fold)(state, value);
            left = rest;
        }
        Ok((left, state))
    }
}

/// What a function makes of the values of items with a separator after each.
#[derive(Drop)]
pub struct SeparatedFold<A, B, S, F> {
    pub(crate) item: A,
    pub(crate) separator: B,
    pub(crate) init: S,
    pub(crate) fold: F,
}

impl<A: Drop, B: Drop, S: Drop, F: Drop> SeparatedFold<A, B, S, F> {
    /// What is left, and what `fold` makes of the values from `init`.
    pub fn parse<'a>(self, input: &'a str) -> ParseResult<'a, S>
    where
        A: Combinator<'a>,
        B: Combinator<'a>,
        A::Output: Drop,
        B::Output: Drop,
        F: Fn(S, A::Output) -> S,
        requires item { A.can_parse self.item }
        requires separator { B.can_parse self.separator }
        requires advances { MayAlternate (A.gives self.item) (B.gives self.separator) (A.advances self.item) (B.advances self.separator) }
        requires fold { F.IsAlwaysCallable self.fold }
        ensures { GivesFold (GivesSeparated (A.gives self.item) (B.gives self.separator)) (F.post self.fold) self.init input.now (seen result) }
    {
        let mut state = self.init;
        let mut left = input;
        'rounds: loop {
            match next_separated(&self.item, &self.separator, left)? {
                Round::Next(rest, value) => {
                    state = (self.fold)(state, value);
                    left = rest;
                }
                Round::Last(rest, value) => return Ok((rest, (self.fold)(state, value))),
                Round::End => return Ok((left, state)),
            }
        }
    }
}
