//! Repetitions that count their values.

ghost use Rattle.std.specs.Prelude.{◌≡◌, ℕ};
ghost use Rattle.monch.specs.core_parsers.Seen.{seen};
ghost use Rattle.monch.specs.repeats.Repeat.{MayRepeat, Backtracks, GivesCount};
ghost use Rattle.monch.specs.repeats.Items.{GivesItems};
ghost use Rattle.monch.specs.repeats.Separated.{MayAlternate, GivesSeparated};
ghost use Rattle.monch.specs.repeats.RepeatSuffix.{GivesItems-suffix, GivesSeparated-suffix};

use crate::core_parsers::{Combinator, ParseResult};
use crate::repeats::rounds::{Backtracking, Round, next_item, next_separated};
use std::marker::PhantomData;

/// How many items there are, until no item follows.
#[derive(Drop)]
pub struct Many0Count<'a, A> {
    pub(crate) item: A,
    pub(crate) of: PhantomData<&'a str>,
}

impl<'a, A: Combinator<'a>> Combinator<'a> for Many0Count<'a, A>
where
    A::Output: Drop,
{
    type Output = usize;

    ghost can_parse = { λ s. A.can_parse s.item × MayRepeat (A.advances s.item) (A.gives s.item) };

    ghost gives = { λ s text outcome. GivesCount (GivesItems (A.gives s.item) Backtracks) text outcome };

    ghost advances = { λ s. ⊥ };

    fn parse(&self, input: &'a str) -> ParseResult<'a, usize> {
        let mut count = 0;
        let mut left = input;
        while let Some((rest, _)) = next_item(&self.item, &Backtracking, left)? {
            count += 1;
            left = rest;
        }
        Ok((left, count))
    }

    ghost leaves_suffix = { λ s can text rest value given. GivesItems-suffix (A.gives s.item) Backtracks (A.leaves_suffix s.item can.0) given.1 };

    ghost leaves_less = { λ s can none. Prim.absurd none };
}

/// How many items there are, with a separator after each.
#[derive(Drop)]
pub struct SeparatedCount<'a, A, B> {
    pub(crate) item: A,
    pub(crate) separator: B,
    pub(crate) of: PhantomData<&'a str>,
}

impl<'a, A: Combinator<'a>, B: Combinator<'a>> Combinator<'a> for SeparatedCount<'a, A, B>
where
    A::Output: Drop,
    B::Output: Drop,
{
    type Output = usize;

    ghost can_parse = { λ s. A.can_parse s.item × B.can_parse s.separator × MayAlternate (A.gives s.item) (B.gives s.separator) (A.advances s.item) (B.advances s.separator) };

    ghost gives = { λ s text outcome. GivesCount (GivesSeparated (A.gives s.item) (B.gives s.separator)) text outcome };

    ghost advances = { λ s. ⊥ };

    fn parse(&self, input: &'a str) -> ParseResult<'a, usize> {
        let mut count = 0;
        let mut left = input;
        'rounds: loop {
            match next_separated(&self.item, &self.separator, left)? {
                Round::Next(rest, _) => {
                    count += 1;
                    left = rest;
                }
                Round::Last(rest, _) => return Ok((rest, count + 1)),
                Round::End => return Ok((left, count)),
            }
        }
    }

    ghost leaves_suffix = { λ s can text rest value given. GivesSeparated-suffix (A.gives s.item) (B.gives s.separator) (A.leaves_suffix s.item can.0) (B.leaves_suffix s.separator can.1) given.1 };

    ghost leaves_less = { λ s can none. Prim.absurd none };
}
