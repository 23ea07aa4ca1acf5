//! Predicates of parameters, members and variables.

ghost use Rattle.std.specs.Prelude.{◌≡◌, ◌+◌, ◌<◌, true, length, Some};
ghost use Rattle.grammar_theory.specs.Key.{keys_of, seen};
ghost use Rattle.es_grammar.specs.types.Functions.{opens_accessor, opens_async, opens_star};
ghost use Rattle.es_grammar.specs.types.Classes.{opens_field_accessor};
ghost use Rattle.es_grammar.specs.types.Members.{shows_index};
ghost use Rattle.es_grammar.specs.Functions.{opens_parameter_modifier, stands_again, each_once, opens_marked, begins_method, opens_typed_method, opens_any_method};
ghost use Rattle.es_grammar.specs.Classes.{opens_modifier, behind_modifiers, behind_all, is_member_key};
ghost use Rattle.es_grammar.specs.Statements.{opens_declarator};
ghost use Rattle.es_lookahead.specs.Sight.{sight};
ghost use Rattle.es_shared_rules.specs.predicates.Named.{modifier_of};

use crate::predicates::looks::{
    has, has_name, is, is_declarator_mark, is_near, is_parameter_mark, opens_parameters,
    starts_member_key,
};
use crate::predicates::named::{Kinds, Modifiers};
use es_grammar::Context;
use es_lookahead::{Seen, Tokens};
use es_token::TokenKind;
use grammar_theory::Lang;

/// A modifier of a parameter is here; then `at` is the index of a token.
#[tactic(auto, unfolding(es_grammar::specs::Functions::opens_parameter_modifier))]
pub fn opens_parameter_modifier(tokens: &Tokens<'_>, context: Context, at: usize) -> bool
    ensures predicate { result ≡ opens_parameter_modifier context (keys_of tokens.now.tokens.now) at }
    ensures within { result ≡ true → at < length tokens.now.tokens.now }
{
    if at >= tokens.tokens.len() {
        return false;
    }
    if !context.in_constructor || !has(Kinds::Modifier, tokens.seen(at)) {
        return false;
    }
    let next = tokens.seen_after(at, 1);
    has_name(next) || is(TokenKind::OpenBrace, next) || is(TokenKind::OpenBracket, next)
}

/// A modifier of a member of TypeScript; then a token is at this place.
#[tactic(auto, unfolding(es_grammar::specs::Classes::opens_modifier))]
pub fn opens_modifier(tokens: &Tokens<'_>, at: usize) -> bool
    ensures predicate { result ≡ opens_modifier (keys_of tokens.now.tokens.now) at }
    ensures within { result ≡ true → at < length tokens.now.tokens.now }
{
    if at >= tokens.tokens.len() {
        return false;
    }
    if tokens.opens_static(at) {
        return true;
    }
    if !has(Kinds::TypedModifier, tokens.seen(at)) {
        return false;
    }
    let next = tokens.seen_after(at, 1);
    is_near(next) && (starts_member_key(next) || is(TokenKind::Star, next))
}

/// The place after the modifiers: there are no more of them than tokens.
fn behind_modifiers(tokens: &Tokens<'_>, from: usize) -> usize
    ensures { result ≡ behind_modifiers (keys_of tokens.now.tokens.now) (length (keys_of tokens.now.tokens.now)) from }
{
    let mut at = from;
    for turn in 0..tokens.tokens.len() {
        let _ = turn;
        if !opens_modifier(tokens, at) {
            return at;
        }
        at += 1;
    }
    at
}

/// A modifier of this run is here; then `at` is the index of a token.
fn opens_one(tokens: &Tokens<'_>, run: Modifiers, at: usize) -> bool
    ensures predicate { result ≡ modifier_of run (keys_of tokens.now.tokens.now) at }
    ensures within { result ≡ true → at < length tokens.now.tokens.now }
{
    match run {
        Modifiers::OfMember => opens_modifier(tokens, at),
        Modifiers::OfParameter(context) => opens_parameter_modifier(tokens, context, at),
    }
}

/// A modifier of the kind of `seen` is in the run from here on, among the next `turns` tokens.
fn stands_from(tokens: &Tokens<'_>, run: Modifiers, seen: Seen, from: usize, turns: usize) -> bool
    ensures { result ≡ stands_again (modifier_of run) (keys_of tokens.now.tokens.now) (sight (Some seen)) turns from }
{
    let mut at = from;
    for turn in 0..turns {
        let _ = turn;
        if !opens_one(tokens, run, at) {
            return false;
        }
        if tokens.sees(seen.kind, at) {
            return true;
        }
        at += 1;
    }
    false
}

/// The modifier here occurs again in its run, among the `turns` tokens after it.
fn stands_again(tokens: &Tokens<'_>, run: Modifiers, at: usize, turns: usize) -> bool
    requires { at < length tokens.now.tokens.now }
    ensures { result ≡ stands_again (modifier_of run) (keys_of tokens.now.tokens.now)
        (seen (keys_of tokens.now.tokens.now) at) turns (at + 1) }
{
    match tokens.seen(at) {
        Some(seen) => stands_from(tokens, run, seen, at + 1, turns),
        None => false,
    }
}

/// Each modifier of the run occurs at most once, from here on.
#[tactic(auto, unfolding(es_grammar::specs::Functions::each_once))]
pub fn each_once(tokens: &Tokens<'_>, run: Modifiers, from: usize) -> bool
    ensures { result ≡ each_once (modifier_of run) (keys_of tokens.now.tokens.now) from }
{
    let mut at = from;
    let mut left = tokens.tokens.len();
    'modifiers: while left > 0 {
        left -= 1;
        if !opens_one(tokens, run, at) {
            return true;
        }
        if stands_again(tokens, run, at, left) {
            return false;
        }
        at += 1;
    }
    true
}

/// A key, and its `?`, before `(` or `<`.
fn begins_method(tokens: &Tokens<'_>, at: usize) -> bool
    ensures { result ≡ begins_method (keys_of tokens.now.tokens.now) at }
{
    opens_parameters(tokens.seen(at))
        || (tokens.sees(TokenKind::Question, at) && opens_parameters(tokens.seen_after(at, 1)))
}

/// The key of a method is here.
#[tactic(auto, unfolding(es_grammar::specs::Functions::opens_any_method))]
pub fn opens_any_method(tokens: &Tokens<'_>, lang: Lang, at: usize) -> bool
    ensures { result ≡ opens_any_method lang (keys_of tokens.now.tokens.now) at }
{
    if lang.is_typed() {
        opens_typed_method(tokens, at)
    } else {
        tokens.opens_method(at)
    }
}

/// The key of a method is here, in TypeScript.
fn opens_typed_method(tokens: &Tokens<'_>, at: usize) -> bool
    ensures { result ≡ opens_typed_method (keys_of tokens.now.tokens.now) at }
{
    match tokens.partner(at) {
        Some(closer) => begins_method_after(tokens, closer),
        None => begins_method_after(tokens, at),
    }
}

/// `begins_method`, one token later.
fn begins_method_after(tokens: &Tokens<'_>, at: usize) -> bool
    ensures { result ≡ begins_method (keys_of tokens.now.tokens.now) (at + 1) }
{
    if at >= tokens.tokens.len() {
        return false;
    }
    begins_method(tokens, at + 1)
}

/// A pattern before `?`, `:` or `=`.
#[tactic(auto, unfolding(es_grammar::specs::Functions::opens_marked))]
pub fn opens_marked(tokens: &Tokens<'_>, at: usize) -> bool
    ensures { result ≡ opens_marked (keys_of tokens.now.tokens.now) at }
{
    is_parameter_mark(tokens.seen_behind_key(at))
}

/// A pattern before `!`, `:` or `=`.
#[tactic(auto, unfolding(es_grammar::specs::Statements::opens_declarator))]
pub fn opens_declarator(tokens: &Tokens<'_>, at: usize) -> bool
    ensures { result ≡ opens_declarator (keys_of tokens.now.tokens.now) at }
{
    is_declarator_mark(tokens.seen_behind_key(at))
}

/// A key, not a modifier, follows the modifiers.
#[tactic(auto, unfolding(es_grammar::specs::Classes::is_member_key))]
pub fn is_member_key(tokens: &Tokens<'_>, at: usize) -> bool
    ensures { result ≡ is_member_key (keys_of tokens.now.tokens.now) at }
{
    !opens_modifier(tokens, at)
        && !tokens.opens_accessor(true, at)
        && !tokens.opens_async(true, at)
        && !tokens.opens_field_accessor(at)
}

/// `get` or `set` before a key, after the modifiers.
#[tactic(auto, unfolding(es_grammar::specs::Classes::behind_all))]
pub fn behind_all_accessor(tokens: &Tokens<'_>, at: usize) -> bool
    ensures { result ≡ behind_all (opens_accessor true) (keys_of tokens.now.tokens.now) at }
{
    tokens.opens_accessor(true, behind_modifiers(tokens, at))
}

/// `async` before a key or `*` on its line, after the modifiers.
#[tactic(auto, unfolding(es_grammar::specs::Classes::behind_all))]
pub fn behind_all_async(tokens: &Tokens<'_>, at: usize) -> bool
    ensures { result ≡ behind_all (opens_async true) (keys_of tokens.now.tokens.now) at }
{
    tokens.opens_async(true, behind_modifiers(tokens, at))
}

/// `*` after the modifiers.
#[tactic(auto, unfolding(es_grammar::specs::Classes::behind_all))]
pub fn behind_all_star(tokens: &Tokens<'_>, at: usize) -> bool
    ensures { result ≡ behind_all opens_star (keys_of tokens.now.tokens.now) at }
{
    tokens.opens_star(behind_modifiers(tokens, at))
}

/// `accessor` before a key or `*` on its line, after the modifiers.
#[tactic(auto, unfolding(es_grammar::specs::Classes::behind_all))]
pub fn behind_all_field_accessor(tokens: &Tokens<'_>, at: usize) -> bool
    ensures { result ≡ behind_all opens_field_accessor (keys_of tokens.now.tokens.now) at }
{
    tokens.opens_field_accessor(behind_modifiers(tokens, at))
}

/// The key of a method after the modifiers.
#[tactic(auto, unfolding(es_grammar::specs::Classes::behind_all))]
pub fn behind_all_method(tokens: &Tokens<'_>, at: usize) -> bool
    ensures { result ≡ behind_all opens_typed_method (keys_of tokens.now.tokens.now) at }
{
    opens_typed_method(tokens, behind_modifiers(tokens, at))
}

/// `[ Name :` after the modifiers.
#[tactic(auto, unfolding(es_grammar::specs::Classes::behind_all, es_grammar::specs::types::Members::shows_index))]
pub fn behind_all_index(tokens: &Tokens<'_>, at: usize) -> bool
    ensures { result ≡ behind_all shows_index (keys_of tokens.now.tokens.now) at }
{
    let here = behind_modifiers(tokens, at);
    tokens.sees(TokenKind::OpenBracket, here)
        && has_name(tokens.seen_after(here, 1))
        && is(TokenKind::Colon, tokens.seen_after(here, 2))
}
