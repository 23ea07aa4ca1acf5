use es_syntax::Item;
use es_token::Token;

/// A node, in the text and over the tokens of its program.
#[derive(Clone, Copy)]
pub struct Place<'a> {
    pub text: &'a str,
    pub tokens: &'a [Token],
    pub node: Item<'a>,
}
