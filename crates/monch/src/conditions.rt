ghost use Rattle.std.specs.Prelude.{◌≡◌, ℕ, Bool, nat_eq, not, length, string_bytes, vec_len, []};
ghost use Rattle.std.proofs.Common.{sym};
ghost use Rattle.std.specs.Fn.{FnReturnsAt};
ghost use Rattle.monch.specs.Parts.{GivesIf, GivesNot};

use crate::core_parsers::{Combinator, ParseError, ParseResult};
use std::marker::PhantomData;

/// What may hold nothing.
pub trait IsEmptyable {
    // Whether it holds nothing.
    ghost holds_nothing: { Self → Bool };

    fn is_empty(&self) -> bool
        ensures { result ≡ holds_nothing self.now };
}

impl IsEmptyable for String {
    ghost holds_nothing = { λ s. nat_eq (length (string_bytes s)) 0 };

    fn is_empty(&self) -> bool {
        self.len() == 0
    }
}

impl<'s> IsEmptyable for &'s str {
    ghost holds_nothing = { λ s. nat_eq (length s.now) 0 };

    fn is_empty(&self) -> bool {
        self.len() == 0
    }
}

impl<T> IsEmptyable for Vec<T> {
    ghost holds_nothing = { λ v. nat_eq (vec_len v) 0 };

    fn is_empty(&self) -> bool {
        self.len() == 0
    }
}

/// What `if_not_empty` answers: the part's value where it is not empty, else a backtrack.
#[derive(Drop)]
pub struct IfNotEmpty<A> {
    pub(crate) part: A,
}

impl<'a, O: IsEmptyable + Drop, A: Combinator<'a, Output = O>> Combinator<'a> for IfNotEmpty<A> {
    type Output = O;

    ghost can_parse = { λ s. A.can_parse s.part };

    ghost gives = { λ s text outcome. GivesIf (A.gives s.part) (λ value answer. O.holds_nothing value ≡ not answer) text outcome };

    ghost advances = { λ s. A.advances s.part };

    fn parse(&self, input: &'a str) -> ParseResult<'a, O> {
        let (rest, value) = self.part.parse(input)?;
        if value.is_empty() {
            return Err(ParseError::Backtrace);
        }
        Ok((rest, value))
    }

    ghost leaves_suffix = { λ s can text rest value given. A.leaves_suffix s.part can _ _ _ given.0 };

    ghost leaves_less = { λ s can told text rest value given. A.leaves_less s.part can told text rest value given.0 };
}

/// What `if_true` answers: the part's value where a condition holds of it, else a backtrack.
#[derive(Drop)]
pub struct IfTrue<A, F> {
    pub(crate) part: A,
    pub(crate) condition: F,
}

impl<'a, O: Drop, A: Combinator<'a, Output = O>, F: Fn(&O) -> bool> Combinator<'a>
    for IfTrue<A, F> {
    type Output = O;

    ghost can_parse = { λ s. A.can_parse s.part × F.IsAlwaysCallable s.condition };

    ghost gives = { λ s text outcome. GivesIf (A.gives s.part) (FnReturnsAt F.Fn s.condition) text outcome };

    ghost advances = { λ s. A.advances s.part };

    fn parse(&self, input: &'a str) -> ParseResult<'a, O> {
        let (rest, value) = self.part.parse(input)?;
        if !(self.condition)(&value) {
            return Err(ParseError::Backtrace);
        }
        Ok((rest, value))
    }

    ghost leaves_suffix = { λ s can text rest value given. A.leaves_suffix s.part can.0 _ _ _ given.0 };

    ghost leaves_less = { λ s can told text rest value given. A.leaves_less s.part can.0 told text rest value given.0 };
}

/// What `check_not` answers: nothing where the part backtracks or fails, a backtrack where it succeeds.
#[derive(Drop)]
pub struct CheckNot<'a, A> {
    pub(crate) part: A,
    pub(crate) of: PhantomData<&'a str>,
}

impl<'a, O: Drop, A: Combinator<'a, Output = O>> Combinator<'a> for CheckNot<'a, A> {
    type Output = ();

    ghost can_parse = { λ s. A.can_parse s.part };

    ghost gives = { λ s text outcome. GivesNot (A.gives s.part) text outcome };

    ghost advances = { λ s. ⊥ };

    fn parse(&self, input: &'a str) -> ParseResult<'a, ()> {
        match self.part.parse(input) {
            Ok(_) => Err(ParseError::Backtrace),
            Err(ParseError::OutOfMemory) => Err(ParseError::OutOfMemory),
            Err(_) => Ok((input, ())),
        }
    }

    ghost leaves_suffix = { λ s can text rest value given. ([], sym given.0) };

    ghost leaves_less = { λ s can none. Prim.absurd none };
}
