//! Whether an expression is harmless: a name, a literal, an object, or a member of what is harmless by a name, a private
//! name or what is harmless.

ghost use Rattle.std.specs.Prelude.{◌≡◌, ◌&&◌, ℕ, List, IfSome, slice_get};
ghost use Rattle.es_token.specs.declared.token.Token.{Token as Tok};
ghost use Rattle.es_view_expressions.specs.expr.Primary.{word};
ghost use Rattle.base.specs.declared.range.Range.{Range};
ghost use Rattle.es_lowering.specs.Value.{as_group, turns, post_at as post_there};
ghost use Rattle.es_syntax.specs.Held.{held, valued};
ghost use Rattle.es_syntax.specs.Roles.{expr_in, post_in};
ghost use Rattle.es_syntax.specs.Views.{IsNone};
ghost use Rattle.es_view_expressions.specs.expr.Primary.{the_primary, primaries};
ghost use Rattle.es_view_expressions.specs.operator.Operator.{operators};
ghost use Rattle.es_view_expressions.specs.call.Call.{calls};
ghost use Rattle.cjs_facts.specs.Looks.{is_harmless};
ghost use Rattle.cjs_looks.specs.Seen.{Tells};
ghost use Rattle.cjs_looks.specs.Odd.{Harms};
ghost use Rattle.cjs_looks.specs.Posts.{Makes, AllMake};

use crate::words::token_at;
use es_syntax::{Item, Siblings};
use es_token::{Token, TokenKind};
use es_view_expressions::call::{Call, Post, call_at, post_at};
use es_view_expressions::expr::{Primary, primary_at};
use es_view_expressions::function::function_at;
use es_view_expressions::operator::operator_at;

/// `this` is not harmless, the other words are.
#[tactic(auto, using(crate::proofs::Harms::harms_this, crate::proofs::Harms::harms_word, crate::proofs::Harms::harms_no_word))]
fn word_harmless(tokens: &[Token], at: u32) -> bool
    ensures { (r : Range) → Tells is_harmless (word r (slice_get tokens.now at)) result }
{
    match token_at(tokens, at) {
        Some(token) => {
            if token.kind() == TokenKind::ThisWord {
                return false;
            }
            true
        }
        None => false,
    }
}

#[tactic(auto, using(crate::proofs::Harms::harms_ident, crate::proofs::Harms::harms_number, crate::proofs::Harms::harms_str, crate::proofs::Harms::harms_regexp, crate::proofs::Harms::harms_template, crate::proofs::Harms::harms_template_parts, crate::proofs::Harms::harms_paren, crate::proofs::Harms::harms_array, crate::proofs::Harms::harms_object, crate::proofs::Harms::harms_spread))]
fn primary_harmless(tokens: &[Token], it: &Primary<'_>) -> bool
    ensures { (x : List ℕ) (r : Range) → Tells is_harmless (the_primary x tokens.now r it.now) result }
{
    match *it {
        Primary::Ident(_) => true,
        Primary::Word(at) => word_harmless(tokens, at),
        Primary::Number(_) => true,
        Primary::Str(_) => true,
        Primary::RegExp(_) => true,
        Primary::Template(_) => false,
        Primary::TemplateParts { .. } => false,
        Primary::Paren(_) => false,
        Primary::Array { .. } => false,
        Primary::Object(_) => true,
        Primary::Spread(_) => false,
        Primary::Broken => false,
    }
}

/// Whether an expression is harmless.
#[tactic(auto, using(crate::proofs::Harms::operator_harms))]
#[cycle(harmless)]
pub fn is_harmless(text: &str, tokens: &[Token], it: &Item<'_>) -> bool
    ensures { Tells is_harmless (expr_in (valued text.now tokens.now it.now)) result }
{
    match primary_at(it) {
        Some(view) => primary_harmless(tokens, &view),
        None => match operator_at(it) {
            Some(_) => false,
            None => call_harmless(text, tokens, it),
        },
    }
}

#[tactic(auto, using(crate::proofs::Harms::harms_super, crate::proofs::Harms::harms_import_meta, crate::proofs::Harms::harms_new_target, crate::proofs::Harms::harms_imported, crate::proofs::Harms::harms_newed, crate::proofs::Harms::harms_typed_newed, crate::proofs::Harms::whole_chain))]
#[cycle(harmless)]
fn call_harmless(text: &str, tokens: &[Token], it: &Item<'_>) -> bool
    requires primary { IsNone primaries it.now.what }
    requires operator { IsNone operators it.now.what }
    ensures { Tells is_harmless (expr_in (valued text.now tokens.now it.now)) result }
{
    match call_at(it) {
        Some(Call::Super) => false,
        Some(Call::ImportMeta) => false,
        Some(Call::NewTarget) => false,
        Some(Call::Import { .. }) => false,
        Some(Call::New { .. }) => false,
        Some(
            Call::Chain {
                base,
                first,
                others,
            },
        ) => {
            let before = is_harmless(text, tokens, &base);
            let start = post_harmless(text, tokens, before, &first);
            posts_harmless(text, tokens, start, &others)
        }
        Some(Call::TypedNew { .. }) => false,
        Some(Call::Broken) => false,
        None => function_harmless(it),
    }
}

/// Functions and chains of operators are not. What no view knows is no expression.
#[tactic(auto, using(crate::proofs::Harms::function_harms, crate::proofs::Unknown::harms_else))]
fn function_harmless(it: &Item<'_>) -> bool
    requires primary { IsNone primaries it.now.what }
    requires operator { IsNone operators it.now.what }
    requires call { IsNone calls it.now.what }
    ensures { (x : List ℕ) (ts : List Tok) → Tells is_harmless (expr_in (valued x ts it.now)) result }
{
    match function_at(it) {
        Some(_) => false,
        None => false,
    }
}

/// Whether a chain is harmless with all of these parts after it.
#[tactic(auto, using(crate::proofs::Harms::posts_all, crate::proofs::Harms::posts_next, crate::proofs::Harms::posts_done))]
#[cycle(harmless)]
fn posts_harmless(text: &str, tokens: &[Token], before: bool, posts: &Siblings<'_>) -> bool
    ensures { AllMake (Harms before) (Harms result) (turns (λ turn. post_there turn 0) (held text.now tokens.now posts.now.entries.now)) }
{
    let mut row = *posts;
    let mut so_far = before;
    while let Some((turn, rest)) = row.split() {
        so_far = turn_harmless(text, tokens, so_far, &turn);
        row = rest;
    }
    so_far
}

/// The same with the part in a turn.
#[tactic(auto, using(crate::proofs::Unknown::makes_absent))]
#[cycle(harmless)]
fn turn_harmless(text: &str, tokens: &[Token], before: bool, turn: &Item<'_>) -> bool
    ensures { Makes (Harms before) (Harms result) (post_there (as_group (valued text.now tokens.now turn.now)) 0) }
{
    match turn.group().part(0) {
        Some(post) => post_harmless(text, tokens, before, &post),
        None => false,
    }
}

/// Whether a chain is harmless with one part more.
#[tactic(auto, using(crate::proofs::Harms::makes_member, crate::proofs::Harms::makes_index, crate::proofs::Harms::makes_call, crate::proofs::Harms::makes_typed_call, crate::proofs::Harms::makes_tagged, crate::proofs::Harms::makes_typed_tagged, crate::proofs::Harms::makes_optional, crate::proofs::Harms::makes_typed_optional, crate::proofs::Harms::makes_non_null, crate::proofs::Unknown::makes_unknown))]
#[cycle(harmless)]
fn post_harmless(text: &str, tokens: &[Token], before: bool, it: &Item<'_>) -> bool
    ensures { Makes (Harms before) (Harms result) (post_in (valued text.now tokens.now it.now)) }
{
    match post_at(it) {
        Some(Post::Member(_)) => before,
        Some(Post::Index(inner)) => {
            let is = is_harmless(text, tokens, &inner);
            both(before, is)
        }
        Some(Post::Call(_)) => false,
        Some(Post::Template(_)) => false,
        Some(Post::Optional(_)) => false,
        Some(Post::TypedCall { .. }) => false,
        Some(Post::TypedTemplate { .. }) => false,
        Some(Post::TypedOptional(_)) => false,
        Some(Post::NonNull) => false,
        Some(Post::Broken) => false,
        None => false,
    }
}

fn both(a: bool, b: bool) -> bool
    ensures { result ≡ a && b }
{
    a && b
}
