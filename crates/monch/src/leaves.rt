ghost use Rattle.std.specs.Prelude.{⊤, ◌↔◌, IsTrue, Contains};
ghost use Rattle.std.proofs.Common.{rules};
ghost use Rattle.std.specs.Str.{chars};
ghost use Rattle.monch.specs.Leaves.{GivesChar, GivesOneOf};
ghost use Rattle.monch.specs.Advance.{char_advances, one_of_advances};

use crate::core_parsers::{Combinator, ParseError, ParseResult};
use crate::text::split_first_char;

/// What `ch` answers: one character.
#[derive(Drop)]
pub struct Ch {
    pub(crate) character: char,
}

impl<'a> Combinator<'a> for Ch {
    type Output = char;

    ghost can_parse = { λ s. ⊤ };

    ghost gives = { λ s text outcome. GivesChar s.character text outcome };

    ghost advances = { λ s. ⊤ };

    fn parse(&self, input: &'a str) -> ParseResult<'a, char> {
        match input.strip_prefix(self.character) {
            Some(rest) => Ok((rest, self.character)),
            None => Err(ParseError::Backtrace),
        }
    }

    ghost leaves_suffix = { λ s can text rest value given. (_, given.1) };

    ghost leaves_less = { λ s can advances. char_advances s.character };
}

/// What `one_of` answers: one of several characters.
#[derive(Drop)]
pub struct OneOf<'m> {
    pub(crate) characters: &'m str,
}

// Whether the text has this character.
fn has_character(text: &str, character: char) -> bool
    ensures { IsTrue result ↔ Contains (chars text.now) character }
{
    text.chars().any(|c| c == character)
}

impl<'a, 'm> Combinator<'a> for OneOf<'m> {
    type Output = char;

    ghost can_parse = { λ s. ⊤ };

    ghost gives = { λ s text outcome. GivesOneOf (chars s.characters.now) text outcome };

    ghost advances = { λ s. ⊤ };

    fn parse(&self, input: &'a str) -> ParseResult<'a, char> {
        match split_first_char(input) {
            Some((first, rest)) if has_character(self.characters, first) => Ok((rest, first)),
            _ => Err(ParseError::Backtrace),
        }
    }

    ghost leaves_suffix = { λ s can text rest value given. (_, given.1) };

    ghost leaves_less = { λ s can advances. one_of_advances (chars s.characters.now) };
}
