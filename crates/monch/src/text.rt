ghost use Rattle.std.specs.Prelude.{◌≡◌, ◌<◌, [], ◌++◌, length, IfOk, MatchOption};
ghost use Rattle.std.specs.Char.{encode_utf8};
ghost use Rattle.monch.specs.core_parsers.Outcome.{IsSuffix};
ghost use Rattle.monch.specs.core_parsers.Seen.{seen};
ghost use Rattle.monch.specs.Leaves.{GivesNextChar};

use crate::core_parsers::{ParseError, ParseResult};

// What precedes the rest in the text.
pub(crate) fn taken<'a>(text: &'a str, rest: &str) -> &'a str
    requires { IsSuffix rest.now text.now }
    ensures { text.now ≡ result.now ++ rest.now }
{
    &text[..text.len() - rest.len()]
}

// The first character and what follows it.
pub(crate) fn split_first_char(text: &str) -> Option<(char, &str)>
    ensures { MatchOption result (text.now ≡ []) (λ p. text.now ≡ encode_utf8 p.0 ++ p.1.now) }
{
    let mut characters = text.chars();
    let first = characters.next()?;
    Some((first, characters.as_str()))
}

/// The first character. The empty text backtracks.
#[tactic(auto, using(crate::proofs::FrontLemmas::behind_is_shorter))]
pub fn next_char<'a>(input: &'a str) -> ParseResult<'a, char>
    ensures value { GivesNextChar input.now (seen result) }
    ensures suffix { IfOk result (λ p. IsSuffix p.0.now input.now) }
    ensures shorter { IfOk result (λ p. length p.0.now < length input.now) }
{
    match split_first_char(input) {
        Some((first, rest)) => Ok((rest, first)),
        None => Err(ParseError::Backtrace),
    }
}
