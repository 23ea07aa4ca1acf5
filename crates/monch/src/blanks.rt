ghost use Rattle.std.specs.Prelude.{◌<◌, length, IfOk};
ghost use Rattle.monch.specs.core_parsers.Outcome.{IsSuffix};
ghost use Rattle.monch.specs.core_parsers.Seen.{seen};
ghost use Rattle.monch.specs.Leaves.{GivesSkipWhile, GivesWhitespace, IsPassingFront, TestsWhitespace};

use crate::core_parsers::{ParseError, ParseResult};
use crate::text::taken;
use crate::whiles::behind_passing;

// What is left after the longest prefix of white space.
fn behind_whitespace(text: &str) -> &str
    ensures { (front : _) × IsPassingFront TestsWhitespace text.now front result.now }
{
    behind_passing(text, &|c: char| c.is_whitespace())
}

/// Skips the longest front of white space, as Unicode has it.
pub fn skip_whitespace<'a>(input: &'a str) -> ParseResult<'a, ()>
    ensures value { GivesSkipWhile TestsWhitespace input.now (seen result) }
    ensures suffix { IfOk result (λ p. IsSuffix p.0.now input.now) }
{
    Ok((behind_whitespace(input), ()))
}

/// The longest front of white space, as Unicode has it. Where there is none it backtracks.
#[tactic(auto, using(crate::proofs::FrontLemmas::shorter_behind))]
pub fn whitespace<'a>(input: &'a str) -> ParseResult<'a, &'a str>
    ensures value { GivesWhitespace input.now (seen result) }
    ensures suffix { IfOk result (λ p. IsSuffix p.0.now input.now) }
    ensures shorter { IfOk result (λ p. length p.0.now < length input.now) }
{
    let rest = behind_whitespace(input);
    let blanks = taken(input, rest);
    if blanks.is_empty() {
        return Err(ParseError::Backtrace);
    }
    Ok((rest, blanks))
}
