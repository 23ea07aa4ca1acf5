//! What a walk has at hand.

ghost use Rattle.es_variables.specs.scope_numbers.Cuts.{IsCut};

use es_token::Token;

/// A text, and its tokens, which cut it between characters.
#[derive(Clone, Copy)]
pub struct Making<'a> {
    pub text: &'a str,
    pub tokens: &'a [Token],
    pub ghost cut: { IsCut text.now tokens.now },
}
