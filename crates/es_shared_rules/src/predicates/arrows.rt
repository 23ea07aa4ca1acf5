//! Predicates of arrows.

ghost use Rattle.std.specs.Prelude.{◌≡◌};
ghost use Rattle.grammar_theory.specs.Key.{keys_of};
ghost use Rattle.es_grammar.specs.types.Words.{closes_before};
ghost use Rattle.es_grammar.specs.Expressions.{follows_parameters, opens_parameters_of_arrow, opens_arrow_here, opens_generic_async, opens_generic, opens_async_here, opens_any_arrow, opens_arrow_result, opens_async_list, opens_no_arrow};

use crate::predicates::arguments::parameters_end;
use crate::predicates::looks::{has_name, is, is_arrow, is_near};
use es_grammar::Context;
use es_lookahead::Tokens;
use es_token::TokenKind;
use grammar_theory::Lang;
use std::alloc::Global;

/// Whether the bracket that matches the one here directly precedes what follows an arrow's parameters.
fn closes_parameters(tokens: &Tokens<'_>, context: Context, at: usize) -> bool
    ensures { result ≡ closes_before (follows_parameters context) (keys_of tokens.now.tokens.now) at }
{
    match tokens.partner(at) {
        Some(closer) => {
            let next = tokens.seen_after(closer, 1);
            is_arrow(next) || (!context.no_colon && is(TokenKind::Colon, next))
        }
        None => false,
    }
}

/// `(` that opens an arrow of TypeScript.
#[tactic(auto, unfolding(es_grammar::specs::Expressions::opens_parameters_of_arrow))]
fn opens_parameters_of_arrow(tokens: &Tokens<'_>, context: Context, at: usize) -> bool
    ensures { result ≡ opens_parameters_of_arrow context (keys_of tokens.now.tokens.now) at }
{
    tokens.sees(TokenKind::OpenParen, at) && closes_parameters(tokens, context, at)
}

/// `<` before an arrow's parameters.
fn opens_generic(
    tokens: &Tokens<'_>,
    alloc: Global,
    lang: Lang,
    context: Context,
    at: usize,
) -> bool
    ensures { result ≡ opens_generic lang context (keys_of tokens.now.tokens.now) at }
{
    if lang.has_assertions() {
        opens_generic_async(tokens, alloc, context, at)
    } else {
        tokens.sees(TokenKind::Less, at)
    }
}

/// An arrow begins here, but for `async`.
#[tactic(auto, unfolding(es_grammar::specs::Expressions::opens_arrow_here))]
fn opens_arrow_here(
    tokens: &Tokens<'_>,
    alloc: Global,
    lang: Lang,
    context: Context,
    at: usize,
) -> bool
    ensures { result ≡ opens_arrow_here lang context (keys_of tokens.now.tokens.now) at }
{
    if lang.is_typed() {
        (tokens.sees_name(at) && is_arrow(tokens.seen_after(at, 1)))
            || opens_parameters_of_arrow(tokens, context, at)
            || opens_generic(tokens, alloc, lang, context, at)
    } else {
        tokens.opens_plain_arrow(at)
    }
}

/// Type parameters before such a `(`.
#[tactic(auto, unfolding(es_grammar::specs::Expressions::opens_generic_async))]
fn opens_generic_async(tokens: &Tokens<'_>, alloc: Global, context: Context, at: usize) -> bool
    ensures { result ≡ opens_generic_async context (keys_of tokens.now.tokens.now) at }
{
    if !tokens.stands(TokenKind::Less, at) {
        return false;
    }
    match parameters_end(tokens, alloc, at) {
        Some(end) => opens_parameters_of_arrow(tokens, context, end),
        None => false,
    }
}

/// `async` before an arrow's head on its line.
#[tactic(auto, unfolding(es_grammar::specs::Expressions::opens_async_here))]
pub fn opens_async_here(
    tokens: &Tokens<'_>,
    alloc: Global,
    lang: Lang,
    context: Context,
    at: usize,
) -> bool
    ensures { result ≡ opens_async_here lang context (keys_of tokens.now.tokens.now) at }
{
    if lang.is_typed() {
        if !tokens.stands(TokenKind::AsyncWord, at) {
            return false;
        }
        let next = tokens.seen(at + 1);
        if is_arrow(next) || !is_near(next) {
            return false;
        }
        (has_name(next) && is_arrow(tokens.seen_after(at, 2)))
            || opens_parameters_of_arrow(tokens, context, at + 1)
            || opens_generic_async(tokens, alloc, context, at + 1)
    } else {
        tokens.opens_async_arrow(at)
    }
}

/// An arrow begins here.
#[tactic(auto, unfolding(es_grammar::specs::Expressions::opens_any_arrow))]
pub fn opens_any_arrow(
    tokens: &Tokens<'_>,
    alloc: Global,
    lang: Lang,
    context: Context,
    at: usize,
) -> bool
    ensures { result ≡ opens_any_arrow lang context (keys_of tokens.now.tokens.now) at }
{
    opens_arrow_here(tokens, alloc, lang, context, at)
        || opens_async_here(tokens, alloc, lang, context, at)
}

/// The `:` of an arrow's result, where it is allowed.
#[tactic(auto, unfolding(es_grammar::specs::Expressions::opens_arrow_result))]
pub fn opens_arrow_result(tokens: &Tokens<'_>, context: Context, at: usize) -> bool
    ensures { result ≡ opens_arrow_result context (keys_of tokens.now.tokens.now) at }
{
    !context.no_colon && tokens.sees(TokenKind::Colon, at)
}

/// Parameters in brackets follow `async`.
#[tactic(auto, unfolding(es_grammar::specs::Expressions::opens_async_list))]
pub fn opens_async_list(tokens: &Tokens<'_>, lang: Lang, at: usize) -> bool
    ensures { result ≡ opens_async_list lang (keys_of tokens.now.tokens.now) at }
{
    if lang.is_typed() {
        let next = tokens.seen_after(at, 1);
        is(TokenKind::OpenParen, next) || is(TokenKind::Less, next)
    } else {
        tokens.opens_async_parenthesis(at)
    }
}

/// `(` that opens no arrow.
#[tactic(auto, unfolding(es_grammar::specs::Expressions::opens_no_arrow))]
pub fn opens_no_arrow(tokens: &Tokens<'_>, lang: Lang, context: Context, at: usize) -> bool
    ensures { result ≡ opens_no_arrow lang context (keys_of tokens.now.tokens.now) at }
{
    if lang.is_typed() {
        !closes_parameters(tokens, context, at)
    } else {
        tokens.is_no_arrow_head(at)
    }
}
