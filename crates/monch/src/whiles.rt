ghost use Rattle.std.specs.Prelude.{◌≡◌, ◌++◌};
ghost use Rattle.monch.specs.Leaves.{GivesSkipWhile, GivesTakeWhile, IsPassingFront, GivesSkipBytes, GivesTakeBytes, IsPassingBytes, PassesOnlyAscii};

use crate::core_parsers::{Combinator, ParseResult};
use crate::text::{split_first_char, taken};

// What is left after the longest prefix of characters that pass.
pub(crate) fn behind_passing<'a, F: Fn(char) -> bool>(text: &'a str, passes: &F) -> &'a str
    requires { F.IsAlwaysCallable passes.now }
    ensures { (front : _) × IsPassingFront (F.post passes.now) text.now front result.now }
{
    let mut rest = text;
    while let Some((c, behind)) = split_first_char(rest) {
        if !passes(c) {
            break;
        }
        rest = behind;
    }
    rest
}

/// What `skip_while` answers: the longest front of characters on which a condition holds, skipped.
#[derive(Drop)]
pub struct SkipWhile<F> {
    pub(crate) condition: F,
}

impl<'a, F: Fn(char) -> bool> Combinator<'a> for SkipWhile<F> {
    type Output = ();

    ghost can_parse = { λ s. F.IsAlwaysCallable s.condition };

    ghost gives = { λ s text outcome. GivesSkipWhile (F.post s.condition) text outcome };

    ghost advances = { λ s. ⊥ };

    fn parse(&self, input: &'a str) -> ParseResult<'a, ()> {
        Ok((behind_passing(input, &self.condition), ()))
    }

    ghost leaves_suffix = { λ s can text rest value given. (given.0, given.1.split) };

    ghost leaves_less = { λ s can none. Prim.absurd none };
}

/// What `take_while` answers: the longest front of characters on which a condition holds, as a slice.
#[derive(Drop)]
pub struct TakeWhile<F> {
    pub(crate) condition: F,
}

impl<'a, F: Fn(char) -> bool> Combinator<'a> for TakeWhile<F> {
    type Output = &'a str;

    ghost can_parse = { λ s. F.IsAlwaysCallable s.condition };

    ghost gives = { λ s text outcome. GivesTakeWhile (F.post s.condition) text outcome };

    ghost advances = { λ s. ⊥ };

    fn parse(&self, input: &'a str) -> ParseResult<'a, &'a str> {
        let rest = behind_passing(input, &self.condition);
        Ok((rest, taken(input, rest)))
    }

    ghost leaves_suffix = { λ s can text rest value given. (_, given.split) };

    ghost leaves_less = { λ s can none. Prim.absurd none };
}

// What is left after the longest prefix of bytes that pass.
fn behind_passing_bytes<'a, F: Fn(u8) -> bool>(text: &'a str, passes: &F) -> &'a str
    requires callable { F.IsAlwaysCallable passes.now }
    requires ascii { PassesOnlyAscii (F.post passes.now) }
    ensures { (front : _) × IsPassingBytes (F.post passes.now) text.now front result.now }
{
    let bytes = text.as_bytes();
    let mut end = 0;
    while end < bytes.len() {
        if !passes(bytes[end]) {
            break;
        }
        end += 1;
    }
    &text[end..]
}

/// What `skip_while_byte` answers: the longest front of bytes on which a condition holds, skipped.
#[derive(Drop)]
pub struct SkipWhileByte<F> {
    pub(crate) condition: F,
}

impl<'a, F: Fn(u8) -> bool> Combinator<'a> for SkipWhileByte<F> {
    type Output = ();

    ghost can_parse = { λ s. F.IsAlwaysCallable s.condition × PassesOnlyAscii (F.post s.condition) };

    ghost gives = { λ s text outcome. GivesSkipBytes (F.post s.condition) text outcome };

    ghost advances = { λ s. ⊥ };

    fn parse(&self, input: &'a str) -> ParseResult<'a, ()> {
        Ok((behind_passing_bytes(input, &self.condition), ()))
    }

    ghost leaves_suffix = { λ s can text rest value given. (given.0, given.1.split) };

    ghost leaves_less = { λ s can none. Prim.absurd none };
}

/// What `take_while_byte` answers: the longest front of bytes on which a condition holds, as a slice.
#[derive(Drop)]
pub struct TakeWhileByte<F> {
    pub(crate) condition: F,
}

impl<'a, F: Fn(u8) -> bool> Combinator<'a> for TakeWhileByte<F> {
    type Output = &'a str;

    ghost can_parse = { λ s. F.IsAlwaysCallable s.condition × PassesOnlyAscii (F.post s.condition) };

    ghost gives = { λ s text outcome. GivesTakeBytes (F.post s.condition) text outcome };

    ghost advances = { λ s. ⊥ };

    fn parse(&self, input: &'a str) -> ParseResult<'a, &'a str> {
        let rest = behind_passing_bytes(input, &self.condition);
        Ok((rest, taken(input, rest)))
    }

    ghost leaves_suffix = { λ s can text rest value given. (_, given.split) };

    ghost leaves_less = { λ s can none. Prim.absurd none };
}
