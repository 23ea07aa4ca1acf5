//! Predicates of types, elements of tuples and results.

ghost use Rattle.std.specs.Prelude.{◌≡◌};
ghost use Rattle.es_token.specs.declared.token.TokenKind.TheVariants as k;
ghost use Rattle.grammar_theory.specs.Key.{keys_of, is};
ghost use Rattle.es_grammar.specs.types.Words.{closes_before};
ghost use Rattle.es_grammar.specs.types.Types.{shows_mapped, opens_mapped, opens_this_reference, is_keyword_type, opens_operator, opens_infer, follows_parameter, begins_parameters, opens_function, opens_constructor, is_label, opens_asserts, opens_predicate};

use crate::predicates::looks::{
    begins_type, follows_parameter, has, is, is_asserted_name, is_near,
};
use crate::predicates::named::Kinds;
use es_lookahead::Tokens;
use es_token::TokenKind;

/// '[' Name 'in'
#[tactic(auto, unfolding(es_grammar::specs::types::Types::shows_mapped))]
fn shows_mapped(tokens: &Tokens<'_>, at: usize) -> bool
    ensures { result ≡ shows_mapped (keys_of tokens.now.tokens.now) at }
{
    tokens.sees(TokenKind::OpenBracket, at)
        && has(Kinds::Name, tokens.seen_after(at, 1))
        && is(TokenKind::InWord, tokens.seen_after(at, 2))
}

/// `{`, `{ readonly`, `{ + readonly` or `{ - readonly` before `[ Name in`.
#[tactic(auto, unfolding(es_grammar::specs::types::Types::opens_mapped))]
pub fn opens_mapped(tokens: &Tokens<'_>, at: usize) -> bool
    ensures { result ≡ opens_mapped (keys_of tokens.now.tokens.now) at }
{
    if at >= tokens.tokens.len() {
        return false;
    }
    if shows_mapped(tokens, at + 1) {
        return true;
    }
    let next = tokens.seen_after(at, 1);
    if is(TokenKind::ReadonlyWord, next) && shows_mapped(tokens, at + 2) {
        return true;
    }
    has(Kinds::Sign, next)
        && is(TokenKind::ReadonlyWord, tokens.seen_after(at, 2))
        && shows_mapped(tokens, at + 3)
}

/// `this` before `.`, or before `<` on its line.
#[tactic(auto, unfolding(es_grammar::specs::types::Types::opens_this_reference))]
pub fn opens_this_reference(tokens: &Tokens<'_>, at: usize) -> bool
    ensures { result ≡ opens_this_reference (keys_of tokens.now.tokens.now) at }
{
    let next = tokens.seen_after(at, 1);
    is(TokenKind::Dot, next) || (is(TokenKind::Less, next) && is_near(next))
}

/// A word of a keyword type, not before `.`.
#[tactic(auto, unfolding(es_grammar::specs::types::Types::is_keyword_type))]
pub fn is_keyword_type(tokens: &Tokens<'_>, at: usize) -> bool
    ensures { result ≡ is_keyword_type (keys_of tokens.now.tokens.now) at }
{
    has(Kinds::TypeWord, tokens.seen(at)) && !is(TokenKind::Dot, tokens.seen_after(at, 1))
}

/// An operator before a token that can begin a type.
#[tactic(auto, unfolding(es_grammar::specs::types::Types::opens_operator))]
pub fn opens_operator(tokens: &Tokens<'_>, at: usize) -> bool
    ensures { result ≡ opens_operator (keys_of tokens.now.tokens.now) at }
{
    has(Kinds::TypeOperator, tokens.seen(at)) && begins_type(tokens.seen_after(at, 1))
}

/// `infer` before a name.
#[tactic(auto, unfolding(es_grammar::specs::types::Types::opens_infer))]
pub fn opens_infer(tokens: &Tokens<'_>, at: usize) -> bool
    ensures { result ≡ opens_infer (keys_of tokens.now.tokens.now) at }
{
    tokens.sees(TokenKind::InferWord, at) && has(Kinds::Name, tokens.seen_after(at, 1))
}

/// Whether the bracket that matches the one at this place precedes `=>`.
fn closes_before_arrow(tokens: &Tokens<'_>, at: usize) -> bool
    ensures { result ≡ closes_before (is k.Arrow) (keys_of tokens.now.tokens.now) at }
{
    match tokens.partner(at) {
        Some(closer) => is(TokenKind::Arrow, tokens.seen_after(closer, 1)),
        None => false,
    }
}

/// Whether the bracket that matches the one at this place precedes what may follow a parameter.
fn closes_parameter(tokens: &Tokens<'_>, at: usize) -> bool
    ensures { result ≡ closes_before follows_parameter (keys_of tokens.now.tokens.now) at }
{
    match tokens.partner(at) {
        Some(closer) => follows_parameter(tokens.seen_after(closer, 1)),
        None => false,
    }
}

/// Parameters begin here.
#[tactic(auto, unfolding(es_grammar::specs::types::Types::begins_parameters))]
fn begins_parameters(tokens: &Tokens<'_>, at: usize) -> bool
    ensures { result ≡ begins_parameters (keys_of tokens.now.tokens.now) at }
{
    let next = tokens.seen(at);
    if is(TokenKind::CloseParen, next) || is(TokenKind::Ellipsis, next) {
        return true;
    }
    if has(Kinds::NameOrThis, next) && follows_parameter(tokens.seen_after(at, 1)) {
        return true;
    }
    (is(TokenKind::OpenBracket, next) || is(TokenKind::OpenBrace, next))
        && closes_parameter(tokens, at)
}

/// `<`, or `(` before parameters whose `)` precedes `=>`.
#[tactic(auto, unfolding(es_grammar::specs::types::Types::opens_function))]
pub fn opens_function(tokens: &Tokens<'_>, at: usize) -> bool
    ensures { result ≡ opens_function (keys_of tokens.now.tokens.now) at }
{
    if tokens.sees(TokenKind::Less, at) {
        return true;
    }
    let _length = tokens.tokens.len();
    if !tokens.stands(TokenKind::OpenParen, at) {
        return false;
    }
    closes_before_arrow(tokens, at) && begins_parameters(tokens, at + 1)
}

/// `new`, or `abstract` before a `new` that precedes a function type.
#[tactic(auto, unfolding(es_grammar::specs::types::Types::opens_constructor))]
pub fn opens_constructor(tokens: &Tokens<'_>, at: usize) -> bool
    ensures { result ≡ opens_constructor (keys_of tokens.now.tokens.now) at }
{
    if tokens.sees(TokenKind::NewWord, at) {
        return true;
    }
    let _length = tokens.tokens.len();
    if !tokens.stands(TokenKind::AbstractWord, at) {
        return false;
    }
    if is(TokenKind::NewWord, tokens.seen_after(at, 1)) {
        opens_function(tokens, at + 2)
    } else {
        false
    }
}

/// A word before `:` or `? :`.
#[tactic(auto, unfolding(es_grammar::specs::types::Types::is_label))]
pub fn is_label(tokens: &Tokens<'_>, at: usize) -> bool
    ensures { result ≡ is_label (keys_of tokens.now.tokens.now) at }
{
    if !has(Kinds::Word, tokens.seen(at)) {
        return false;
    }
    let next = tokens.seen_after(at, 1);
    is(TokenKind::Colon, next)
        || (is(TokenKind::Question, next) && is(TokenKind::Colon, tokens.seen_after(at, 2)))
}

/// `asserts` before the name that is asserted.
#[tactic(auto, unfolding(es_grammar::specs::types::Types::opens_asserts))]
pub fn opens_asserts(tokens: &Tokens<'_>, at: usize) -> bool
    ensures { result ≡ opens_asserts (keys_of tokens.now.tokens.now) at }
{
    if !tokens.sees(TokenKind::AssertsWord, at) {
        return false;
    }
    let next = tokens.seen_after(at, 1);
    is_near(next)
        && has(Kinds::NameOrThis, next)
        && (!is(TokenKind::IsWord, next) || is_asserted_name(tokens.seen_after(at, 2)))
}

/// A name before `is` on its line, where a token that can begin a type follows.
#[tactic(auto, unfolding(es_grammar::specs::types::Types::opens_predicate))]
pub fn opens_predicate(tokens: &Tokens<'_>, at: usize) -> bool
    ensures { result ≡ opens_predicate (keys_of tokens.now.tokens.now) at }
{
    if !has(Kinds::NameOrThis, tokens.seen(at)) {
        return false;
    }
    let next = tokens.seen_after(at, 1);
    is_near(next) && is(TokenKind::IsWord, next) && begins_type(tokens.seen_after(at, 2))
}
