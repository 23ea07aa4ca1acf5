//! Predicates of names, parameters and members of types.

ghost use Rattle.std.specs.Prelude.{◌≡◌, ◌<◌, ◌||◌, ◌&&◌, true, length};
ghost use Rattle.es_token.specs.declared.token.TokenKind.TheVariants as k;
ghost use Rattle.grammar_theory.specs.Key.{keys_of, is};
ghost use Rattle.es_grammar.specs.types.TypeNames.{shows_type_parameter, opens_arguments, opens_angle, opens_modifier};
ghost use Rattle.es_grammar.specs.types.Parameters.{opens_value};
ghost use Rattle.es_grammar.specs.types.Members.{opens_parameters, opens_construct, opens_readonly, shows_index, opens_index, opens_accessor, opens_method, is_property_key};
ghost use Rattle.es_lookahead.specs.Sight.{sight};

use crate::predicates::looks::{begins_key, has, is, is_near, opens_parameters};
use crate::predicates::named::Kinds;
use es_lookahead::{Seen, Tokens};
use es_token::TokenKind;

/// `const`, `in`, or `out` before a name or `in`.
#[tactic(auto, unfolding(es_grammar::specs::types::TypeNames::opens_modifier))]
pub fn opens_modifier(tokens: &Tokens<'_>, at: usize) -> bool
    ensures { result ≡ opens_modifier (keys_of tokens.now.tokens.now) at }
{
    if tokens.sees(TokenKind::ConstWord, at) || tokens.sees(TokenKind::InWord, at) {
        return true;
    }
    let next = tokens.seen_after(at, 1);
    tokens.sees(TokenKind::OutWord, at) && (has(Kinds::Name, next) || is(TokenKind::InWord, next))
}

/// A key before `:`.
#[tactic(auto, unfolding(es_grammar::specs::types::Parameters::opens_value))]
pub fn opens_value(tokens: &Tokens<'_>, at: usize) -> bool
    ensures { result ≡ opens_value (keys_of tokens.now.tokens.now) at }
{
    is(TokenKind::Colon, tokens.seen_after(at, 1))
}

/// `new` before `(` or `<`.
#[tactic(auto, unfolding(es_grammar::specs::types::Members::opens_construct))]
pub fn opens_construct(tokens: &Tokens<'_>, at: usize) -> bool
    ensures { result ≡ opens_construct (keys_of tokens.now.tokens.now) at }
{
    tokens.sees(TokenKind::NewWord, at) && opens_parameters(tokens.seen_after(at, 1))
}

/// `readonly` before a key or `*` on its line; then a token is at this place.
#[tactic(auto, unfolding(es_grammar::specs::types::Members::opens_readonly))]
pub fn opens_readonly(tokens: &Tokens<'_>, at: usize) -> bool
    ensures predicate { result ≡ opens_readonly (keys_of tokens.now.tokens.now) at }
    ensures within { result ≡ true → at < length tokens.now.tokens.now }
{
    if !tokens.stands(TokenKind::ReadonlyWord, at) {
        return false;
    }
    let next = tokens.seen_after(at, 1);
    is_near(next) && (begins_key(next) || is(TokenKind::Star, next))
}

/// '[' Name ':'
#[tactic(auto, unfolding(es_grammar::specs::types::Members::shows_index))]
fn shows_index(tokens: &Tokens<'_>, at: usize) -> bool
    ensures { result ≡ shows_index (keys_of tokens.now.tokens.now) at }
{
    tokens.sees(TokenKind::OpenBracket, at)
        && has(Kinds::Name, tokens.seen_after(at, 1))
        && is(TokenKind::Colon, tokens.seen_after(at, 2))
}

/// An index signature.
#[tactic(auto, unfolding(es_grammar::specs::types::Members::opens_index))]
pub fn opens_index(tokens: &Tokens<'_>, at: usize) -> bool
    ensures { result ≡ opens_index (keys_of tokens.now.tokens.now) at }
{
    if shows_index(tokens, at) {
        return true;
    }
    let _length = tokens.tokens.len();
    if opens_readonly(tokens, at) {
        shows_index(tokens, at + 1)
    } else {
        false
    }
}

/// `get` or `set` before a key.
#[tactic(auto, unfolding(es_grammar::specs::types::Members::opens_accessor))]
pub fn opens_accessor(tokens: &Tokens<'_>, at: usize) -> bool
    ensures { result ≡ opens_accessor (keys_of tokens.now.tokens.now) at }
{
    has(Kinds::AccessorWord, tokens.seen(at)) && begins_key(tokens.seen_after(at, 1))
}

/// `(` or `<`, also after `?`.
fn shows_parameters(first: Option<Seen>, second: Option<Seen>) -> bool
    ensures { result ≡ (opens_parameters (sight first) || (is k.Question (sight first) && opens_parameters (sight second))) }
{
    opens_parameters(first) || (is(TokenKind::Question, first) && opens_parameters(second))
}

/// A key, and its `?`, before `(` or `<`.
#[tactic(auto, unfolding(es_grammar::specs::types::Members::opens_method))]
pub fn opens_method(tokens: &Tokens<'_>, at: usize) -> bool
    ensures { result ≡ opens_method (keys_of tokens.now.tokens.now) at }
{
    match tokens.partner(at) {
        Some(closer) => shows_parameters(
            tokens.seen_after(closer, 1),
            tokens.seen_after(closer, 2),
        ),
        None => shows_parameters(tokens.seen_after(at, 1), tokens.seen_after(at, 2)),
    }
}

/// The key of a property.
#[tactic(auto, unfolding(es_grammar::specs::types::Members::is_property_key))]
pub fn is_property_key(tokens: &Tokens<'_>, at: usize) -> bool
    ensures { result ≡ is_property_key (keys_of tokens.now.tokens.now) at }
{
    !opens_accessor(tokens, at) && !opens_method(tokens, at)
}

/// A type parameter begins here.
#[tactic(auto, unfolding(es_grammar::specs::types::TypeNames::shows_type_parameter))]
fn shows_type_parameter(tokens: &Tokens<'_>, at: usize) -> bool
    ensures { result ≡ shows_type_parameter (keys_of tokens.now.tokens.now) at }
{
    let first = tokens.seen(at);
    if is(TokenKind::ConstWord, first) || is(TokenKind::InWord, first) {
        return true;
    }
    let next = tokens.seen_after(at, 1);
    has(Kinds::Name, first)
        && (is(TokenKind::Greater, next)
            || is(TokenKind::Comma, next)
            || is(TokenKind::ExtendsWord, next)
            || is(TokenKind::Equal, next)
            || has(Kinds::Name, next))
}

/// `<`, or `<<` before a type parameter.
#[tactic(auto, unfolding(es_grammar::specs::types::TypeNames::opens_angle))]
pub fn opens_angle(tokens: &Tokens<'_>, at: usize) -> bool
    ensures { result ≡ opens_angle (keys_of tokens.now.tokens.now) at }
{
    if tokens.sees(TokenKind::Less, at) {
        return true;
    }
    let _length = tokens.tokens.len();
    if !tokens.stands(TokenKind::LessLess, at) {
        return false;
    }
    shows_type_parameter(tokens, at + 1)
}

/// The same on the line of the token before it.
#[tactic(auto, unfolding(es_grammar::specs::types::TypeNames::opens_arguments))]
pub fn opens_arguments(tokens: &Tokens<'_>, at: usize) -> bool
    ensures { result ≡ opens_arguments (keys_of tokens.now.tokens.now) at }
{
    is_near(tokens.seen(at)) && opens_angle(tokens, at)
}
