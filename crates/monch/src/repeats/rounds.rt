//! One round of a repetition.

ghost use Rattle.std.specs.Prelude.{◌≡◌, ℕ, [], ⊤, IfErr, IfOk, IfSome, IsUtf8, MatchOption};
ghost use Rattle.monch.specs.core_parsers.Outcome.{success, refused, backtrack};
ghost use Rattle.monch.specs.core_parsers.Suffix.{success_is_not_refused};
ghost use Rattle.monch.specs.core_parsers.Seen.{refusal_of};
ghost use Rattle.monch.specs.repeats.Repeat.{IsHandedOn, Backtracks};
ghost use Rattle.monch.specs.repeats.Items.{IsItem, EndsItems};
ghost use Rattle.monch.specs.repeats.Separated.{EndsSeparated};
ghost use Rattle.monch.specs.repeats.Steps.{IsRound, HasText};

use crate::core_parsers::{Combinator, ParseError, ParseResult};

/// An end that is never read.
pub struct Backtracking;

impl<'a> Combinator<'a> for Backtracking {
    type Output = ();

    ghost can_parse = { λ s. ⊤ };

    ghost gives = { λ s text outcome. Backtracks text outcome };

    ghost advances = { λ s. ⊥ };

    fn parse(&self, _input: &'a str) -> ParseResult<'a, ()> {
        Err(ParseError::Backtrace)
    }

    ghost leaves_suffix = { λ s can text rest value given. Prim.absurd (success_is_not_refused given) };

    ghost leaves_less = { λ s can none. Prim.absurd none };
}

/// What a round of a separated list finds.
#[derive(Drop)]
pub enum Round<'a, O> {
    /// An item and a separator after it, and what both leave.
    Next(&'a str, O),
    /// An item with no separator after it, and what it leaves.
    Last(&'a str, O),
    /// No item.
    End,
}

/// What the part reads, or `None` where it backtracks.
fn attempt<'a, A: Combinator<'a>>(
    part: &A,
    input: &'a str,
) -> Result<Option<(&'a str, A::Output)>, ParseError<'a>>
    requires { A.can_parse part.now }
    ensures read { IfOk result (λ read. MatchOption read
        (A.gives part.now input.now (refused backtrack))
        (λ pair. A.gives part.now input.now (success pair.0.now pair.1))) }
    ensures text { IfOk result (λ read. IfSome read (λ pair. IsUtf8 pair.0.now)) }
    ensures refused { IfErr result (λ e. IsHandedOn (A.gives part.now) input.now (refusal_of e)) }
{
    match part.parse(input) {
        Ok((rest, value)) => {
            // The bytes are not needed, but tell a proof that the rest is text.
            let _bytes = rest.as_bytes();
            Ok(Some((rest, value)))
        }
        Err(ParseError::Backtrace) => Ok(None),
        Err(ParseError::Failure(failure)) => Err(ParseError::Failure(failure)),
        Err(ParseError::OutOfMemory) => Err(ParseError::OutOfMemory),
    }
}

/// The next item and what it leaves, or `None` where the items end.
pub fn next_item<'a, A: Combinator<'a>, B: Combinator<'a>>(
    item: &A,
    until: &B,
    input: &'a str,
) -> Result<Option<(&'a str, A::Output)>, ParseError<'a>>
where
    B::Output: Drop,
    requires item { A.can_parse item.now }
    requires until { B.can_parse until.now }
    ensures round { IfOk result (λ next. MatchOption next
        (EndsItems (A.gives item.now) (B.gives until.now) input.now (success input.now []))
        (λ read. IsItem (A.gives item.now) (B.gives until.now) input.now read.1 read.0.now)) }
    ensures text { IfOk result (λ next. IfSome next (λ read. IsUtf8 read.0.now)) }
    ensures refused { IfErr result (λ e. EndsItems (A.gives item.now) (B.gives until.now) input.now (refused (refusal_of e))) }
{
    if input.is_empty() {
        return Ok(None);
    }
    match attempt(until, input)? {
        Some(_) => Ok(None),
        None => attempt(item, input),
    }
}

/// The next item with the separator after it.
pub fn next_separated<'a, A: Combinator<'a>, B: Combinator<'a>>(
    item: &A,
    separator: &B,
    input: &'a str,
) -> Result<Round<'a, A::Output>, ParseError<'a>>
where
    A::Output: Drop,
    B::Output: Drop,
    requires item { A.can_parse item.now }
    requires separator { B.can_parse separator.now }
    ensures round { IfOk result (IsRound (A.gives item.now) (B.gives separator.now) input.now) }
    ensures text { IfOk result HasText }
    ensures refused { IfErr result (λ e. EndsSeparated (A.gives item.now) (B.gives separator.now) input.now (refused (refusal_of e))) }
{
    if input.is_empty() {
        return Ok(Round::End);
    }
    let Some((mid, value)) = attempt(item, input)? else {
        return Ok(Round::End);
    };
    let Some((rest, _)) = attempt(separator, mid)? else {
        return Ok(Round::Last(mid, value));
    };
    Ok(Round::Next(rest, value))
}
