ghost use Rattle.std.specs.Prelude.{◌≢◌, [], ⊤, string_bytes};
ghost use Rattle.monch.specs.Leaves.{GivesTag};
ghost use Rattle.monch.specs.Advance.{tag_advances};

use crate::core_parsers::{Combinator, ParseError, ParseResult};
use crate::text::taken;

/// What `tag` answers: a text that is borrowed.
#[derive(Drop)]
pub struct Tag<'m> {
    pub(crate) value: &'m str,
}

impl<'a, 'm> Combinator<'a> for Tag<'m> {
    type Output = &'a str;

    ghost can_parse = { λ s. ⊤ };

    ghost gives = { λ s text outcome. GivesTag s.value.now text outcome };

    ghost advances = { λ s. s.value.now ≢ [] };

    fn parse(&self, input: &'a str) -> ParseResult<'a, &'a str> {
        match input.strip_prefix(self.value) {
            Some(rest) => Ok((rest, taken(input, rest))),
            None => Err(ParseError::Backtrace),
        }
    }

    ghost leaves_suffix = { λ s can text rest value given. (_, given.1) };

    ghost leaves_less = { λ s can some. tag_advances s.value.now some };
}

/// What `tag_owned` answers: a text that is owned.
#[derive(Drop)]
pub struct TagOwned {
    pub(crate) value: String,
}

impl<'a> Combinator<'a> for TagOwned {
    type Output = &'a str;

    ghost can_parse = { λ s. ⊤ };

    ghost gives = { λ s text outcome. GivesTag (string_bytes s.value) text outcome };

    ghost advances = { λ s. string_bytes s.value ≢ [] };

    fn parse(&self, input: &'a str) -> ParseResult<'a, &'a str> {
        match input.strip_prefix(self.value.as_str()) {
            Some(rest) => Ok((rest, taken(input, rest))),
            None => Err(ParseError::Backtrace),
        }
    }

    ghost leaves_suffix = { λ s can text rest value given. (_, given.1) };

    ghost leaves_less = { λ s can some. tag_advances (string_bytes s.value) some };
}
