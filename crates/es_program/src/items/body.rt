//! The items of a program that is lent.
ghost use Rattle.std.specs.Prelude.{◌≡◌, true};
ghost use Rattle.es_program.specs.items.Items.{is_some, items_in};

use es_syntax::Siblings;
use es_token::Token;

/// The items of a program that are still to come, one by one.
#[derive(Clone, Copy)]
pub struct Body<'a> {
    pub text: &'a str,
    pub tokens: &'a [Token],
    pub turns: Siblings<'a>,
    pub is_script: bool,
    pub ghost typed: { is_some (items_in is_script text.now tokens.now turns.entries.now) ≡ true },
}
