//! What surrounds a word among tokens.
ghost use Rattle.std.specs.Prelude.{◌≡◌, ◌+◌, slice_get};
ghost use Rattle.unread_calls.specs.Unread as spec;

use crate::kinds::{
    declares, ends_argument, is_brace, is_closing, is_colon, is_dot, is_equal, is_heritage,
    is_import, is_opening, is_phase, is_string, names,
};
use es_token::{Token, TokenKind};

/// The token with this number.
pub fn token_at(tokens: &[Token], i: usize) -> Option<Token>
    ensures { result ≡ slice_get tokens.now i }
{
    tokens.get(i).copied()
}

/// The token `count` after that with this number.
fn token_behind(tokens: &[Token], i: usize, count: usize) -> Option<Token>
    ensures { result ≡ slice_get tokens.now (i + count) }
{
    match i.checked_add(count) {
        Some(at) => token_at(tokens, at),
        None => None,
    }
}

fn token_before(tokens: &[Token], i: usize, count: usize) -> Option<Token>
    ensures { result ≡ spec.token_before tokens.now i count }
{
    if count <= i {
        token_at(tokens, i - count)
    } else {
        None
    }
}

fn kind_of(token: Option<Token>) -> Option<TokenKind>
    ensures { result ≡ spec.kind_of token }
{
    match token {
        Some(token) => Some(token.kind()),
        None => None,
    }
}

/// The kind of the token with this number.
pub fn kind_at(tokens: &[Token], i: usize) -> Option<TokenKind>
    ensures { result ≡ spec.kind_at tokens.now i }
{
    kind_of(token_at(tokens, i))
}

fn kind_behind(tokens: &[Token], i: usize, count: usize) -> Option<TokenKind>
    ensures { result ≡ spec.kind_at tokens.now (i + count) }
{
    kind_of(token_behind(tokens, i, count))
}

fn kind_before(tokens: &[Token], i: usize, count: usize) -> Option<TokenKind>
    ensures { result ≡ spec.kind_before tokens.now i count }
{
    kind_of(token_before(tokens, i, count))
}

/// Whether the word is a phase, after `import` and `.`.
pub fn is_in_phase(tokens: &[Token], i: usize) -> bool
    ensures { result ≡ spec.is_in_phase tokens.now i }
{
    is_phase(kind_at(tokens, i))
        && is_dot(kind_before(tokens, i, 1))
        && is_import(kind_before(tokens, i, 2))
}

/// The number of the first word of what is called: of `import` in `import.source`.
pub fn head(tokens: &[Token], i: usize) -> usize
    ensures { result ≡ spec.head tokens.now i }
{
    if is_in_phase(tokens, i) {
        i.saturating_sub(2)
    } else {
        i
    }
}

/// Whether a bracket follows the word, with something in it.
pub fn takes_argument(tokens: &[Token], i: usize) -> bool
    ensures { result ≡ spec.takes_argument tokens.now i }
{
    is_opening(kind_behind(tokens, i, 1)) && !is_closing(kind_behind(tokens, i, 2))
}

/// Whether the bracket's first argument is a string literal alone.
pub fn takes_literal(tokens: &[Token], i: usize) -> bool
    ensures { result ≡ spec.takes_literal tokens.now i }
{
    is_string(kind_behind(tokens, i, 2)) && ends_argument(kind_behind(tokens, i, 3))
}

/// The number of the bracket that closes the one after the word.
pub fn closing(tokens: &[Token], i: usize) -> Option<usize>
    ensures { result ≡ spec.closing tokens.now i }
{
    match token_behind(tokens, i, 1) {
        Some(token) => token.partner(),
        None => None,
    }
}

fn is_near(token: Option<Token>) -> bool
    ensures { result ≡ spec.is_near token }
{
    match token {
        Some(token) => !token.line_before(),
        None => false,
    }
}

fn opens_body(token: Option<Token>) -> bool
    ensures { result ≡ spec.opens_body token }
{
    match token {
        Some(token) => is_brace(token.kind()) && !token.line_before(),
        None => false,
    }
}

fn token_behind_closing(tokens: &[Token], i: usize) -> Option<Token>
    ensures { result ≡ spec.behind_closing tokens.now i }
{
    match closing(tokens, i) {
        Some(close) => token_behind(tokens, close, 1),
        None => None,
    }
}

fn has_body(tokens: &[Token], i: usize) -> bool
    ensures { result ≡ spec.has_body tokens.now i }
{
    opens_body(token_behind_closing(tokens, i))
        && !is_heritage(kind_before(tokens, head(tokens, i), 1))
}

/// Whether the word is the name of a property, of a function, or of a method.
pub fn is_name(tokens: &[Token], i: usize) -> bool
    ensures { result ≡ spec.is_name tokens.now i }
{
    names(kind_before(tokens, head(tokens, i), 1))
        || is_colon(kind_behind(tokens, i, 3))
        || has_body(tokens, i)
}

/// Whether the word is in `import a = require("b")`.
pub fn is_import_equals(tokens: &[Token], i: usize) -> bool
    ensures { result ≡ spec.is_import_equals tokens.now i }
{
    is_equal(kind_before(tokens, i, 1))
        && is_near(token_before(tokens, i, 2))
        && declares(kind_before(tokens, i, 3))
        && takes_literal(tokens, i)
}
