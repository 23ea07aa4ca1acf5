//! Predicates of what may follow an expression, and tests of the next token.

ghost use Rattle.std.specs.Prelude.{◌≡◌, ◌-◌};
ghost use Rattle.es_token.specs.declared.token.TokenKind.TheVariants as k;
ghost use Rattle.grammar_theory.specs.Key.{keys_of, seen, is};
ghost use Rattle.es_grammar.specs.Expressions.{begins_value, begins_parameters, begins_arguments, begins_callee_post, opens_operand, opens_post, opens_shift_in, goes_on, ends_new, comes_behind, opens_class_name, opens_comparison, is_behind_as, opens_abstract_class};
ghost use Rattle.es_grammar.specs.types.TypeNames.{begins_angle};
ghost use Rattle.es_grammar.specs.Statements.{begins_value_here, opens_initial};
ghost use Rattle.es_lookahead.specs.Sight.{sight};
ghost use Rattle.es_shared_rules.specs.predicates.Named.{kinds_of};

use crate::predicates::arguments::opens_call_arguments;
use crate::predicates::looks::{has, has_name, is, is_after_line, opens_assertion, opens_non_null};
use crate::predicates::named::Kinds;
use es_grammar::Context;
use es_lookahead::{Seen, Tokens};
use es_token::TokenKind;
use grammar_theory::Lang;
use std::alloc::Global;

/// A token that can begin an expression.
fn begins_value(tokens: &Tokens<'_>, lang: Lang, at: usize) -> bool
    ensures { result ≡ begins_value lang (seen (keys_of tokens.now.tokens.now) at) }
{
    if lang.is_typed() {
        tokens.sees(TokenKind::Less, at) || tokens.begins_expression(at)
    } else {
        tokens.begins_expression(at)
    }
}

/// One on the line of the token before it.
pub fn begins_value_here(tokens: &Tokens<'_>, lang: Lang, at: usize) -> bool
    ensures { result ≡ begins_value_here lang (seen (keys_of tokens.now.tokens.now) at) }
{
    tokens.is_near(at) && begins_value(tokens, lang, at)
}

/// An operand of `yield` begins here.
#[tactic(auto, unfolding(es_grammar::specs::Expressions::opens_operand))]
pub fn opens_operand(tokens: &Tokens<'_>, lang: Lang, at: usize) -> bool
    ensures { result ≡ opens_operand lang (seen (keys_of tokens.now.tokens.now) at) }
{
    tokens.is_near(at) && (tokens.sees(TokenKind::Star, at) || begins_value(tokens, lang, at))
}

/// `(`, in TypeScript also `<`: of an arrow's parameters.
pub fn begins_parameters(tokens: &Tokens<'_>, lang: Lang, at: usize) -> bool
    ensures { result ≡ begins_parameters lang (seen (keys_of tokens.now.tokens.now) at) }
{
    if lang.is_typed() {
        tokens.sees(TokenKind::OpenParen, at) || tokens.sees(TokenKind::Less, at)
    } else {
        tokens.sees(TokenKind::OpenParen, at)
    }
}

/// `<` or `<<`
#[tactic(auto, unfolding(es_grammar::specs::types::TypeNames::begins_angle))]
pub fn begins_angle(tokens: &Tokens<'_>, at: usize) -> bool
    ensures { result ≡ begins_angle (seen (keys_of tokens.now.tokens.now) at) }
{
    tokens.sees(TokenKind::Less, at) || tokens.sees(TokenKind::LessLess, at)
}

/// `(`, in TypeScript also `<` or `<<`: of the arguments of a call after `?.`.
pub fn begins_arguments(tokens: &Tokens<'_>, lang: Lang, at: usize) -> bool
    ensures { result ≡ begins_arguments lang (seen (keys_of tokens.now.tokens.now) at) }
{
    if lang.is_typed() {
        tokens.sees(TokenKind::OpenParen, at) || begins_angle(tokens, at)
    } else {
        tokens.sees(TokenKind::OpenParen, at)
    }
}

/// A shift, in TypeScript `<<` only where it opens no type arguments.
#[tactic(auto, unfolding(es_grammar::specs::Expressions::opens_shift_in))]
pub fn opens_shift_in(tokens: &Tokens<'_>, alloc: Global, lang: Lang, at: usize) -> bool
    ensures { result ≡ opens_shift_in lang (keys_of tokens.now.tokens.now) at }
{
    if lang.is_typed() {
        tokens.opens_shift(at) && !opens_call_arguments(tokens, alloc, at)
    } else {
        tokens.opens_shift(at)
    }
}

/// A token that begins a member, in TypeScript also `!` on the line of the token before it.
pub fn begins_callee_post(tokens: &Tokens<'_>, lang: Lang, at: usize) -> bool
    ensures { result ≡ begins_callee_post lang (seen (keys_of tokens.now.tokens.now) at) }
{
    if lang.is_typed() {
        tokens.begins_member(at) || opens_non_null(tokens.seen(at))
    } else {
        tokens.begins_member(at)
    }
}

/// A further part of a chain of TypeScript begins here.
#[tactic(auto, unfolding(es_grammar::specs::Expressions::opens_post))]
pub fn opens_post(tokens: &Tokens<'_>, alloc: Global, at: usize) -> bool
    ensures { result ≡ opens_post (keys_of tokens.now.tokens.now) at }
{
    tokens.begins_post(at)
        || opens_non_null(tokens.seen(at))
        || opens_call_arguments(tokens, alloc, at)
}

/// A token that goes on with comparisons, or with a member.
#[tactic(auto, unfolding(es_grammar::specs::Expressions::goes_on))]
fn goes_on(next: Option<Seen>) -> bool
    ensures { result ≡ goes_on (sight next) }
{
    is(TokenKind::Less, next)
        || is(TokenKind::Greater, next)
        || has(Kinds::Sum, next)
        || is(TokenKind::Equal, next)
        || is(TokenKind::Dot, next)
        || is(TokenKind::QuestionDot, next)
        || is(TokenKind::OpenBracket, next)
}

/// A token that doesn't, before which `new a<b>` ends.
#[tactic(auto, unfolding(es_grammar::specs::Expressions::ends_new))]
pub fn ends_new(tokens: &Tokens<'_>, at: usize) -> bool
    ensures { result ≡ ends_new (seen (keys_of tokens.now.tokens.now) at) }
{
    let next = tokens.seen(at);
    !goes_on(next)
        && (is_after_line(next) || opens_assertion(next) || !tokens.begins_expression(at))
}

/// The token before is of such a kind.
#[tactic(auto, unfolding(es_grammar::specs::Expressions::comes_behind))]
pub fn comes_behind(tokens: &Tokens<'_>, kinds: Kinds, at: usize) -> bool
    ensures { result ≡ comes_behind (kinds_of kinds) (keys_of tokens.now.tokens.now) at }
{
    if at == 0 {
        return has(kinds, tokens.seen(0));
    }
    has(kinds, tokens.seen(at - 1))
}

/// The token before is `var`.
fn is_behind_var(tokens: &Tokens<'_>, at: usize) -> bool
    ensures { result ≡ is k.VarWord (seen (keys_of tokens.now.tokens.now) (at - 1)) }
{
    if at == 0 {
        return tokens.sees(TokenKind::VarWord, 0);
    }
    tokens.sees(TokenKind::VarWord, at - 1)
}

/// An initial value in the head of a `for`: a name after `var` and before `=`.
#[tactic(auto, unfolding(es_grammar::specs::Statements::opens_initial))]
pub fn opens_initial(tokens: &Tokens<'_>, at: usize) -> bool
    ensures { result ≡ opens_initial (keys_of tokens.now.tokens.now) at }
{
    is_behind_var(tokens, at)
        && has_name(tokens.seen(at))
        && is(TokenKind::Equal, tokens.seen_after(at, 1))
}

/// A name of a class, but `implements` before a name.
#[tactic(auto, unfolding(es_grammar::specs::Expressions::opens_class_name))]
pub fn opens_class_name(tokens: &Tokens<'_>, at: usize) -> bool
    ensures { result ≡ opens_class_name (keys_of tokens.now.tokens.now) at }
{
    let next = tokens.seen(at);
    has_name(next) && !(is(TokenKind::ImplementsWord, next) && has_name(tokens.seen_after(at, 1)))
}

/// An operator of the level of `<`, in TypeScript also a tighter one.
#[tactic(auto, unfolding(es_grammar::specs::Expressions::opens_comparison))]
pub fn opens_comparison(
    tokens: &Tokens<'_>,
    alloc: Global,
    lang: Lang,
    context: Context,
    at: usize,
) -> bool
    ensures { result ≡ opens_comparison lang context (keys_of tokens.now.tokens.now) at }
{
    if tokens.opens_greater(at) {
        return true;
    }
    let barred = context.no_in && tokens.sees(TokenKind::InWord, at);
    if lang.is_typed() {
        let next = tokens.seen(at);
        opens_assertion(next)
            || (has(Kinds::Tight, next) && !barred && !opens_call_arguments(tokens, alloc, at))
    } else {
        tokens.sees_relation(at) && !barred
    }
}

/// The token before is `as`.
#[tactic(auto, unfolding(es_grammar::specs::Expressions::is_behind_as))]
pub fn is_behind_as(tokens: &Tokens<'_>, at: usize) -> bool
    ensures { result ≡ is_behind_as (keys_of tokens.now.tokens.now) at }
{
    if at == 0 {
        return tokens.sees(TokenKind::AsWord, 0);
    }
    tokens.sees(TokenKind::AsWord, at - 1)
}

/// `abstract` before `class`.
#[tactic(auto, unfolding(es_grammar::specs::Expressions::opens_abstract_class))]
pub fn opens_abstract_class(tokens: &Tokens<'_>, at: usize) -> bool
    ensures { result ≡ opens_abstract_class (keys_of tokens.now.tokens.now) at }
{
    tokens.sees(TokenKind::AbstractWord, at) && is(TokenKind::ClassWord, tokens.seen_after(at, 1))
}
