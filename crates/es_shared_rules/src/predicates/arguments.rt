//! Where type arguments and type parameters can be read.

ghost use Rattle.std.specs.Prelude.{◌≡◌, ◌≤◌, ◌<◌, true, length};
ghost use Rattle.grammar_theory.specs.Key.{keys_of, seen};
ghost use Rattle.grammar_theory.specs.Productions.{Predicate as AnyPredicate};
ghost use Rattle.es_grammar.specs.declared.types.rows.TypeRow.TheVariants.{ArgumentsRow, TypeParametersRow};
ghost use Rattle.es_grammar.specs.types.TypeNames.{begins_angle};
ghost use Rattle.es_grammar.specs.Embedding.{reads_before, opens_call_arguments, opens_heritage_arguments};
ghost use Rattle.es_grammar.specs.Expressions.{stands_new, opens_new_arguments, opens_call};
ghost use Rattle.es_shared_rules.specs.predicates.Named.{holds_behind, low_end};

use crate::predicates::expressions::ends_new;
use crate::predicates::looks::begins_call;
use es_grammar::TypeRow;
use es_lookahead::{End, Tokens, end_in};
use es_token::TokenKind;
use es_type_rules::ends::{type_arguments_end, type_parameters_end};
use std::alloc::Global;

/// The most nodes on a path of a part that a predicate asks for.
const ROOM: usize = 500;

/// Where a part with few enough nodes on a path ends.
fn low_end(end: Option<End>) -> Option<usize>
    ensures { result ≡ low_end end }
{
    match end {
        Some(end) => {
            if end.height > ROOM {
                return None;
            }
            Some(end.to)
        }
        None => None,
    }
}

/// Where the type arguments that can be read here end, or `None`: a predicate holds after them exactly where it does
/// at that index.
fn arguments_end(tokens: &Tokens<'_>, alloc: Global, at: usize) -> Option<usize>
    requires { at ≤ length tokens.now.tokens.now }
    ensures { (g : AnyPredicate) → reads_before ArgumentsRow g (keys_of tokens.now.tokens.now) at
        ≡ holds_behind g (keys_of tokens.now.tokens.now) result }
{
    match end_in(tokens.angles, TypeRow::ArgumentsRow, at) {
        Some(end) => low_end(end),
        None => type_arguments_end(alloc, tokens.tokens, at),
    }
}

/// Where the type parameters that can be read here end, or `None`.
pub fn parameters_end(tokens: &Tokens<'_>, alloc: Global, at: usize) -> Option<usize>
    requires { at ≤ length tokens.now.tokens.now }
    ensures { (g : AnyPredicate) → reads_before TypeParametersRow g (keys_of tokens.now.tokens.now) at
        ≡ holds_behind g (keys_of tokens.now.tokens.now) result }
{
    match end_in(tokens.angles, TypeRow::TypeParametersRow, at) {
        Some(end) => low_end(end),
        None => type_parameters_end(alloc, tokens.tokens, at),
    }
}

/// `<` or `<<` is here; then `at` is the index of a token.
#[tactic(auto, unfolding(es_grammar::specs::types::TypeNames::begins_angle))]
fn stands_angle(tokens: &Tokens<'_>, at: usize) -> bool
    ensures kind { result ≡ begins_angle (seen (keys_of tokens.now.tokens.now) at) }
    ensures within { result ≡ true → at < length tokens.now.tokens.now }
{
    tokens.stands(TokenKind::Less, at) || tokens.stands(TokenKind::LessLess, at)
}

/// `<` opens type arguments after an expression.
#[tactic(auto, unfolding(es_grammar::specs::Embedding::opens_call_arguments, es_grammar::specs::Embedding::stands_call))]
pub fn opens_call_arguments(tokens: &Tokens<'_>, alloc: Global, at: usize) -> bool
    ensures { result ≡ opens_call_arguments (keys_of tokens.now.tokens.now) at }
{
    if !stands_angle(tokens, at) {
        return false;
    }
    match arguments_end(tokens, alloc, at) {
        Some(end) => begins_call(tokens.seen(end)),
        None => false,
    }
}

/// The type arguments of `new` may end before this place.
#[tactic(auto, unfolding(es_grammar::specs::Expressions::stands_new))]
fn stands_new(tokens: &Tokens<'_>, at: usize) -> bool
    ensures { result ≡ stands_new (keys_of tokens.now.tokens.now) at }
{
    if begins_call(tokens.seen(at)) {
        return true;
    }
    ends_new(tokens, at)
        && !(tokens.joins(TokenKind::EqualEqual, at)
            || tokens.joins(TokenKind::EqualEqualEqual, at))
}

/// `<` opens the type arguments of `new`.
#[tactic(auto, unfolding(es_grammar::specs::Expressions::opens_new_arguments))]
pub fn opens_new_arguments(tokens: &Tokens<'_>, alloc: Global, at: usize) -> bool
    ensures { result ≡ opens_new_arguments (keys_of tokens.now.tokens.now) at }
{
    if !stands_angle(tokens, at) {
        return false;
    }
    match arguments_end(tokens, alloc, at) {
        Some(end) => stands_new(tokens, end),
        None => false,
    }
}

/// `<` opens the type arguments of `extends`.
#[tactic(auto, unfolding(es_grammar::specs::Embedding::opens_heritage_arguments, es_grammar::specs::Embedding::stands_heritage))]
pub fn opens_heritage_arguments(tokens: &Tokens<'_>, alloc: Global, at: usize) -> bool
    ensures { result ≡ opens_heritage_arguments (keys_of tokens.now.tokens.now) at }
{
    if !stands_angle(tokens, at) {
        return false;
    }
    match arguments_end(tokens, alloc, at) {
        Some(end) => {
            begins_call(tokens.seen(end))
                || tokens.sees(TokenKind::OpenBrace, end)
                || tokens.sees(TokenKind::ImplementsWord, end)
        }
        None => false,
    }
}

/// `(`, or `(` after type arguments.
#[tactic(auto, unfolding(es_grammar::specs::Expressions::opens_call, es_grammar::specs::Expressions::is_at))]
pub fn opens_call(tokens: &Tokens<'_>, alloc: Global, at: usize) -> bool
    ensures { result ≡ opens_call (keys_of tokens.now.tokens.now) at }
{
    if tokens.sees(TokenKind::OpenParen, at) {
        return true;
    }
    if !stands_angle(tokens, at) {
        return false;
    }
    match arguments_end(tokens, alloc, at) {
        Some(end) => tokens.sees(TokenKind::OpenParen, end),
        None => false,
    }
}
