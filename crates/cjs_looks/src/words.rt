//! Tokens and their texts.

ghost use Rattle.std.specs.Prelude.{◌≡◌, ℕ, List, Bool, bytes_eq, slice_get, slice_range, IfSome, IfOk};
ghost use Rattle.es_token.specs.declared.token.TokenKind.TheVariants as k;
ghost use Rattle.grammar_theory.specs.Key.{same_kind};
ghost use Rattle.cjs_looks.specs.Seen.{name_at};

use es_token::Token;

/// The token of this number.
pub fn token_at(tokens: &[Token], at: u32) -> Option<Token>
    ensures { result ≡ slice_get tokens.now at }
{
    tokens.get(at as usize).copied()
}

/// The bytes of a token, as far as the text goes.
fn bytes_of(text: &str, token: Token) -> &[u8]
    ensures { result.now ≡ slice_range text.now token.range.start token.range.end }
{
    let bytes = text.as_bytes();
    let range = token.range();
    let end = range.end.min(bytes.len());
    let start = range.start.min(end);
    &bytes[start..end]
}

/// Whether the token of this number spells this word. One that isn't there spells the empty one.
#[tactic(auto, unfolding(es_lowering::specs::Texts::ident_of))]
pub fn spells(text: &str, tokens: &[Token], at: u32, word: &str) -> bool
    ensures { result ≡ bytes_eq (name_at text.now tokens.now at) word.now }
{
    match token_at(tokens, at) {
        Some(token) => bytes_of(text, token) == word.as_bytes(),
        None => word.is_empty(),
    }
}

/// Whether the tokens of these numbers spell the same. One that isn't there spells nothing.
#[tactic(auto, unfolding(es_lowering::specs::Texts::ident_of))]
pub fn same_name(text: &str, tokens: &[Token], a: u32, b: u32) -> bool
    ensures { result ≡ bytes_eq (name_at text.now tokens.now a) (name_at text.now tokens.now b) }
{
    name_bytes(text, tokens, a) == name_bytes(text, tokens, b)
}

/// The bytes of the token of this number; none where it isn't there.
#[tactic(auto, unfolding(es_lowering::specs::Texts::ident_of))]
fn name_bytes<'a>(text: &'a str, tokens: &[Token], at: u32) -> &'a [u8]
    ensures { result.now ≡ name_at text.now tokens.now at }
{
    match token_at(tokens, at) {
        Some(token) => bytes_of(text, token),
        None => &[],
    }
}
