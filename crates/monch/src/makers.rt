//! A function for each combinator, in the order of the table in `README.md`.

ghost use Rattle.std.specs.Prelude.{◌≡◌};

use crate::alternatives::{Or3, Or4, Or5, Or6, Or7};
use crate::asserts::{Assert, AssertExists};
use crate::choices::{Maybe, Or};
use crate::conditions::{CheckNot, IfNotEmpty, IfTrue};
use crate::core_parsers::{Combinator, ParseError, ParseResult};
use crate::failures::{WithErrorContext, WithFailureInput};
use crate::functions::FnCombinator;
use crate::handling::{MapRes, WithFailureHandling};
use crate::leaves::{Ch, OneOf};
use crate::pairs::{Delimited, Pair, Preceded, Terminated};
use crate::tags::{Tag, TagOwned};
use crate::values::{Map, Substring};
use crate::whiles::{SkipWhile, SkipWhileByte, TakeWhile, TakeWhileByte};
use std::alloc::Global;
use std::marker::PhantomData;

// ---- without parts

/// The first character, where it is this one.
pub fn ch(character: char) -> Ch
    ensures { result ≡ record { character = character } }
{
    Ch { character }
}

/// The first character, where it is one of those of this text.
pub fn one_of(value: &str) -> OneOf<'_>
    ensures { result.characters.now ≡ value.now }
{
    OneOf { characters: value }
}

/// The slice of the text where it begins with this value.
pub fn tag(value: &str) -> Tag<'_>
    ensures { result.value.now ≡ value.now }
{
    Tag { value }
}

/// As `tag`, of a text that is owned.
pub fn tag_owned(value: String) -> TagOwned
    ensures { result ≡ record { value = value } }
{
    TagOwned { value }
}

/// Skips the longest front of characters on which the condition holds.
pub fn skip_while<F: Fn(char) -> bool>(condition: F) -> SkipWhile<F>
    ensures { result ≡ record { condition = condition } }
{
    SkipWhile { condition }
}

/// The longest front of characters on which the condition holds.
pub fn take_while<F: Fn(char) -> bool>(condition: F) -> TakeWhile<F>
    ensures { result ≡ record { condition = condition } }
{
    TakeWhile { condition }
}

/// Skips the longest front of bytes on which the condition holds. It may hold of no byte from 0x80 on.
pub fn skip_while_byte<F: Fn(u8) -> bool>(condition: F) -> SkipWhileByte<F>
    ensures { result ≡ record { condition = condition } }
{
    SkipWhileByte { condition }
}

/// The longest front of bytes on which the condition holds. It may hold of no byte from 0x80 on.
pub fn take_while_byte<F: Fn(u8) -> bool>(condition: F) -> TakeWhileByte<F>
    ensures { result ≡ record { condition = condition } }
{
    TakeWhileByte { condition }
}

/// The function as a combinator. What it leaves of a text has to be a suffix of it, as a clause of the function says:
/// `ensures { IfOk result (λ p. IsSuffix p.0.now input.now) }`.
pub fn from_fn<'a, O, F: Fn(&'a str) -> ParseResult<'a, O>>(function: F) -> FnCombinator<F>
    ensures { result ≡ record { function = function } }
{
    FnCombinator { function }
}

// ---- one part

/// The slice that the part takes.
pub fn substring<'a, A>(part: A) -> Substring<'a, A>
    ensures { result.part ≡ part }
{
    Substring {
        part,
        of: PhantomData,
    }
}

/// Some value of the part, or none where it backtracks.
pub fn maybe<A>(part: A) -> Maybe<A>
    ensures { result ≡ record { part = part } }
{
    Maybe { part }
}

/// What the function makes of the part's value.
pub fn map<'a, O, R, A: Combinator<'a, Output = O>, F: Fn(O) -> R>(
    part: A,
    function: F,
) -> Map<'a, A, F>
    ensures part { result.part ≡ part }
    ensures function { result.function ≡ function }
{
    Map {
        part,
        function,
        of: PhantomData,
    }
}

/// What the function makes of the part's whole result.
pub fn map_res<'a, O, R, A: Combinator<'a, Output = O>, F: Fn(ParseResult<'a, O>) -> R>(
    part: A,
    function: F,
) -> MapRes<A, F>
    ensures { result ≡ record { part = part; function = function } }
{
    MapRes { part, function }
}

// ---- alternatives

/// The first alternative that does not backtrack.
pub fn or<A, B>(first: A, second: B) -> Or<A, B>
    ensures { result ≡ record { first = first; second = second } }
{
    Or { first, second }
}

/// The first alternative that does not backtrack.
pub fn or3<A, B, C>(first: A, second: B, third: C) -> Or3<A, B, C>
    ensures first { result.first ≡ first }
    ensures second { result.rest.first ≡ second }
    ensures third { result.rest.second ≡ third }
{
    Or3 {
        first,
        rest: or(second, third),
    }
}

/// The first alternative that does not backtrack.
pub fn or4<A, B, C, D>(first: A, second: B, third: C, fourth: D) -> Or4<A, B, C, D>
    ensures first { result.first ≡ first }
    ensures second { result.rest.first ≡ second }
    ensures third { result.rest.rest.first ≡ third }
    ensures fourth { result.rest.rest.second ≡ fourth }
{
    Or4 {
        first,
        rest: or3(second, third, fourth),
    }
}

/// The first alternative that does not backtrack.
pub fn or5<A, B, C, D, E>(first: A, second: B, third: C, fourth: D, fifth: E) -> Or5<A, B, C, D, E>
    ensures first { result.first ≡ first }
    ensures second { result.rest.first ≡ second }
    ensures third { result.rest.rest.first ≡ third }
    ensures fourth { result.rest.rest.rest.first ≡ fourth }
    ensures fifth { result.rest.rest.rest.second ≡ fifth }
{
    Or5 {
        first,
        rest: or4(second, third, fourth, fifth),
    }
}

/// The first alternative that does not backtrack.
pub fn or6<A, B, C, D, E, F>(
    first: A,
    second: B,
    third: C,
    fourth: D,
    fifth: E,
    sixth: F,
) -> Or6<A, B, C, D, E, F>
    ensures first { result.first ≡ first }
    ensures second { result.rest.first ≡ second }
    ensures third { result.rest.rest.first ≡ third }
    ensures fourth { result.rest.rest.rest.first ≡ fourth }
    ensures fifth { result.rest.rest.rest.rest.first ≡ fifth }
    ensures sixth { result.rest.rest.rest.rest.second ≡ sixth }
{
    Or6 {
        first,
        rest: or5(second, third, fourth, fifth, sixth),
    }
}

/// The first alternative that does not backtrack.
pub fn or7<A, B, C, D, E, F, G>(
    first: A,
    second: B,
    third: C,
    fourth: D,
    fifth: E,
    sixth: F,
    seventh: G,
) -> Or7<A, B, C, D, E, F, G>
    ensures first { result.first ≡ first }
    ensures second { result.rest.first ≡ second }
    ensures third { result.rest.rest.first ≡ third }
    ensures fourth { result.rest.rest.rest.first ≡ fourth }
    ensures fifth { result.rest.rest.rest.rest.first ≡ fifth }
    ensures sixth { result.rest.rest.rest.rest.rest.first ≡ sixth }
    ensures seventh { result.rest.rest.rest.rest.rest.second ≡ seventh }
{
    Or7 {
        first,
        rest: or6(second, third, fourth, fifth, sixth, seventh),
    }
}

// ---- parts in sequence

/// The first, then the second on its rest, and both values.
pub fn pair<A, B>(first: A, second: B) -> Pair<A, B>
    ensures { result ≡ record { first = first; second = second } }
{
    Pair { first, second }
}

/// The first, then the second on its rest, and the value of the second.
pub fn preceded<'a, A, B>(first: A, second: B) -> Preceded<'a, A, B>
    ensures first { result.first ≡ first }
    ensures second { result.second ≡ second }
{
    Preceded {
        first,
        second,
        of: PhantomData,
    }
}

/// The first, then the second on its rest, and the value of the first.
pub fn terminated<'a, A, B>(first: A, second: B) -> Terminated<'a, A, B>
    ensures first { result.first ≡ first }
    ensures second { result.second ≡ second }
{
    Terminated {
        first,
        second,
        of: PhantomData,
    }
}

/// The three, each on the rest of the one before, and the value of the second.
pub fn delimited<'a, A, B, C>(first: A, second: B, third: C) -> Delimited<'a, A, B, C>
    ensures first { result.first ≡ first }
    ensures second { result.second ≡ second }
    ensures third { result.third ≡ third }
{
    Delimited {
        first,
        second,
        third,
        of: PhantomData,
    }
}

// ---- conditions

/// The part's value where the condition holds of it, else a backtrack.
pub fn if_true<'a, O, A: Combinator<'a, Output = O>, F: Fn(&O) -> bool>(
    part: A,
    condition: F,
) -> IfTrue<A, F>
    ensures { result ≡ record { part = part; condition = condition } }
{
    IfTrue { part, condition }
}

/// The part's value where it is not empty, else a backtrack.
pub fn if_not_empty<A>(part: A) -> IfNotEmpty<A>
    ensures { result ≡ record { part = part } }
{
    IfNotEmpty { part }
}

/// Nothing, with nothing taken, where the part backtracks or fails. A backtrack where it succeeds.
pub fn check_not<'a, A>(part: A) -> CheckNot<'a, A>
    ensures { result.part ≡ part }
{
    CheckNot {
        part,
        of: PhantomData,
    }
}

// ---- failures

/// The part where the condition holds of its result. Else a failure: one of the part has this message above its own, and
/// any other result fails at the text. The condition isn't asked about an `OutOfMemory`.
pub fn assert<
    'a,
    O,
    A: Combinator<'a, Output = O>,
    F: Fn(Result<&(&'a str, O), &ParseError<'a>>) -> bool,
>(alloc: Global, part: A, condition: F, message: &'a str) -> Assert<'a, A, F>
    ensures part { result.part ≡ part }
    ensures condition { result.condition ≡ condition }
    ensures message { result.message.now ≡ message.now }
{
    Assert {
        alloc,
        part,
        condition,
        message,
    }
}

/// The part where it succeeds, else a failure, as `assert` makes it.
pub fn assert_exists<'a, A>(alloc: Global, part: A, message: &'a str) -> AssertExists<'a, A>
    ensures part { result.part ≡ part }
    ensures message { result.message.now ≡ message.now }
{
    AssertExists {
        alloc,
        part,
        message,
    }
}

/// The part, with this text in place of that of its failure.
pub fn with_failure_input<'a, A>(new_input: &'a str, part: A) -> WithFailureInput<'a, A>
    ensures input { result.input.now ≡ new_input.now }
    ensures part { result.part ≡ part }
{
    WithFailureInput {
        input: new_input,
        part,
    }
}

/// The part, with this message and an empty line above the message of its failure.
pub fn with_error_context<'a, A>(
    alloc: Global,
    part: A,
    message: &'a str,
) -> WithErrorContext<'a, A>
    ensures part { result.part ≡ part }
    ensures message { result.message.now ≡ message.now }
{
    WithErrorContext {
        alloc,
        part,
        message,
    }
}

/// Reads a whole text with the part, and reports what is wrong with it.
pub fn with_failure_handling<A>(alloc: Global, part: A) -> WithFailureHandling<A>
    ensures { result.part ≡ part }
{
    WithFailureHandling { alloc, part }
}
