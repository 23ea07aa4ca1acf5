//! The calls of a chain. The scan goes from the left; at most one call of a chain counts, and it adds to what is found at
//! once.

ghost use Rattle.std.specs.Prelude.{◌≡◌, ◌||◌, ℕ, List, false, IfOk, OnOk};
ghost use Rattle.base.specs.declared.range.Range.{Range};
ghost use Rattle.es_token.specs.declared.token.Token.{Token as Tok};
ghost use Rattle.es_lowering.specs.Value.{as_group, turns, post_at as post_there};
ghost use Rattle.es_view_expressions.specs.call.Post.{the_post};
ghost use Rattle.es_syntax.specs.Held.{held, valued};
ghost use Rattle.es_syntax.specs.Roles.{args_in, expr_in, post_in};
ghost use Rattle.es_bound_names.specs.Cuts.{IsCut};
ghost use Rattle.cjs_facts.specs.Looks.{look, callee_look};
ghost use Rattle.cjs_facts.specs.Exports.{is_define, is_star};
ghost use Rattle.cjs_looks.specs.Behind.{IsBehind};
ghost use Rattle.cjs_looks.specs.Odd.{Looks, Linked};
ghost use Rattle.cjs_looks.specs.Posts.{Makes};
ghost use Rattle.cjs_looks.specs.Seen.{Tells, look_of};
ghost use Rattle.cjs_table.specs.Facts.{chain_of, calls_of};
ghost use Rattle.cjs_table.specs.Left.{Gives};
ghost use Rattle.cjs_table.specs.Chains.{spot, Follows, AllFollow, Calls, CallStep, CallsOf, IsOnce, args_seen};

use cjs_calls::{called, callee_at};
use cjs_facts::Found;
use cjs_looks::steps::{is_define, is_star};
use cjs_looks::{Look, call_look, look_at, post_look};
use es_syntax::{Item, Siblings};
use es_token::Token;
use es_view_expressions::call::{Post, post_at};
use std::alloc::AllocError;

/// A chain as far as it was scanned: what it looks like, also as a callee, and whether a call counted.
#[derive(Clone, Copy)]
pub struct Along {
    pub seen: Look,
    pub callee: Look,
    pub counted: bool,
}

/// The arguments of a further part that is a call, but not behind `?.`.
#[tactic(auto, using(crate::proofs::CallViews::call_is, crate::proofs::CallViews::typed_call_is, crate::proofs::CallViews::member_is, crate::proofs::CallViews::index_is, crate::proofs::CallViews::tagged_is, crate::proofs::CallViews::typed_tagged_is, crate::proofs::CallViews::optional_is, crate::proofs::CallViews::typed_optional_is, crate::proofs::CallViews::non_null_is, crate::proofs::CallViews::broken_is))]
fn call_in<'a>(view: &Post<'a>) -> Option<Item<'a>>
    ensures { (x : List ℕ) (ts : List Tok) (r : Range) → CallsOf (args_seen x ts result) (the_post x ts r view.now) }
{
    match *view {
        Post::Call(args) => Some(args),
        Post::TypedCall { type_args: _, args } => Some(args),
        Post::Member(_) => None,
        Post::Index(_) => None,
        Post::Template(_) => None,
        Post::Optional(_) => None,
        Post::TypedTemplate { .. } => None,
        Post::TypedOptional(_) => None,
        Post::NonNull => None,
        Post::Broken => None,
    }
}

/// Whether a call of what looks so counts.
fn counts(text: &str, tokens: &[Token], callee: Look) -> bool
    ensures { result ≡ (is_define (look_of text.now tokens.now callee) || is_star (look_of text.now tokens.now callee)) }
{
    is_define(text, tokens, callee) || is_star(text, tokens, callee)
}

/// What a call of what looks so adds, where it counts; whether one did by now. No call behind one that counted does.
#[tactic(auto, using(crate::proofs::CallSteps::first_counts, crate::proofs::CallSteps::passes))]
fn call_found(
    found: &mut Found,
    text: &str,
    tokens: &[Token],
    along: Along,
    args: &Item<'_>,
) -> Result<bool, AllocError>
    requires cut { IsCut text.now tokens.now }
    requires once { IsOnce text.now tokens.now along }
    ensures { IfOk result (λ counted. Calls (look_of text.now tokens.now along.callee) (args_in (valued text.now tokens.now args.now)) along.counted counted found.old found.new) }
{
    if counts(text, tokens, along.callee) {
        called(found, text, tokens, along.callee, args)?;
        return Ok(true);
    }
    Ok(along.counted)
}

/// What a call of these arguments adds, with which a chain looks so.
#[tactic(auto, using(crate::proofs::CallSteps::call_step, crate::proofs::CallSteps::once_call))]
fn call_step(
    found: &mut Found,
    text: &str,
    tokens: &[Token],
    along: Along,
    seen: Look,
    args: &Item<'_>,
) -> Result<Along, AllocError>
    requires cut { IsCut text.now tokens.now }
    requires once { IsOnce text.now tokens.now along }
    requires behind { IsBehind (look_of text.now tokens.now seen) }
    ensures steps { IfOk result (λ then. CallStep (args_in (valued text.now tokens.now args.now)) (look_of text.now tokens.now seen) (spot text.now tokens.now along found.old) (spot text.now tokens.now then found.new)) }
    ensures once { IfOk result (IsOnce text.now tokens.now) }
{
    let counted = call_found(found, text, tokens, along, args)?;
    Ok(Along {
        seen,
        callee: seen,
        counted,
    })
}

/// What a further part that is no call adds.
#[tactic(auto, using(crate::proofs::CallSteps::once_part))]
fn quiet_step(text: &str, tokens: &[Token], along: Along, it: &Item<'_>) -> Along
    requires { IsOnce text.now tokens.now along }
    ensures makes { Makes (Looks (look_of text.now tokens.now along.seen)) (Linked (look_of text.now tokens.now result.seen)) (post_in (valued text.now tokens.now it.now)) }
    ensures callee { result.callee ≡ result.seen }
    ensures counted { result.counted ≡ along.counted }
    ensures once { IsOnce text.now tokens.now result }
{
    let seen = post_look(text, tokens, along.seen, it);
    Along {
        seen,
        callee: seen,
        counted: along.counted,
    }
}

/// What a further part adds.
#[tactic(auto, using(crate::proofs::CallSteps::call_follows, crate::proofs::CallSteps::part_follows, crate::proofs::CallSteps::none_follows, cjs_looks::proofs::Unknown::no_post))]
fn post_step(
    found: &mut Found,
    text: &str,
    tokens: &[Token],
    along: Along,
    it: &Item<'_>,
) -> Result<Along, AllocError>
    requires cut { IsCut text.now tokens.now }
    requires once { IsOnce text.now tokens.now along }
    ensures follows { IfOk result (λ then. Follows (post_in (valued text.now tokens.now it.now)) (spot text.now tokens.now along found.old) (spot text.now tokens.now then found.new)) }
    ensures once { IfOk result (IsOnce text.now tokens.now) }
{
    match post_at(it) {
        Some(view) => match call_in(&view) {
            Some(args) => {
                let seen = call_look(text, tokens, along.seen, &args);
                call_step(found, text, tokens, along, seen, &args)
            }
            None => Ok(quiet_step(text, tokens, along, it)),
        },
        None => Ok(along),
    }
}

/// What the further part in a turn adds.
#[tactic(auto, using(crate::proofs::CallSteps::absent_follows))]
fn turn_step(
    found: &mut Found,
    text: &str,
    tokens: &[Token],
    along: Along,
    turn: &Item<'_>,
) -> Result<Along, AllocError>
    requires cut { IsCut text.now tokens.now }
    requires once { IsOnce text.now tokens.now along }
    ensures follows { IfOk result (λ then. Follows (post_there (as_group (valued text.now tokens.now turn.now)) 0) (spot text.now tokens.now along found.old) (spot text.now tokens.now then found.new)) }
    ensures once { IfOk result (IsOnce text.now tokens.now) }
{
    match turn.group().part(0) {
        Some(post) => post_step(found, text, tokens, along, &post),
        None => Ok(along),
    }
}

/// What further parts add, which are turns.
#[tactic(auto, using(crate::proofs::ChainSteps::posts_all, crate::proofs::ChainSteps::posts_next, crate::proofs::ChainSteps::posts_done))]
fn posts(
    found: &mut Found,
    text: &str,
    tokens: &[Token],
    along: Along,
    others: &Siblings<'_>,
) -> Result<Along, AllocError>
    requires cut { IsCut text.now tokens.now }
    requires once { IsOnce text.now tokens.now along }
    ensures { IfOk result (λ then. AllFollow (turns (λ turn. post_there turn 0) (held text.now tokens.now others.now.entries.now)) (spot text.now tokens.now along found.old) (spot text.now tokens.now then found.new)) }
{
    let mut row = *others;
    let mut by_now = along;
    while let Some((turn, rest)) = row.split() {
        by_now = turn_step(found, text, tokens, by_now, &turn)?;
        row = rest;
    }
    Ok(by_now)
}

/// What a chain begins with.
#[tactic(auto, using(crate::proofs::CallSteps::once_begun))]
fn begin(text: &str, tokens: &[Token], base: &Item<'_>) -> Along
    ensures seen { Tells look (expr_in (valued text.now tokens.now base.now)) (look_of text.now tokens.now result.seen) }
    ensures callee { Tells callee_look (expr_in (valued text.now tokens.now base.now)) (look_of text.now tokens.now result.callee) }
    ensures counted { result.counted ≡ false }
    ensures once { IsOnce text.now tokens.now result }
{
    Along {
        seen: look_at(text, tokens, base),
        callee: callee_at(text, tokens, base),
        counted: false,
    }
}

/// What the calls of a chain add that begins with these two parts.
#[tactic(auto, using(crate::proofs::ChainSteps::chain_calls_added))]
fn chain(
    found: &mut Found,
    text: &str,
    tokens: &[Token],
    base: &Item<'_>,
    first: &Item<'_>,
    others: &Siblings<'_>,
) -> Result<(), AllocError>
    requires { IsCut text.now tokens.now }
    ensures { OnOk result ((start : ℕ) → Gives (chain_of start (expr_in (valued text.now tokens.now base.now)) (post_in (valued text.now tokens.now first.now)) (turns (λ turn. post_there turn 0) (held text.now tokens.now others.now.entries.now))) found.old found.new) }
{
    let along = begin(text, tokens, base);
    let along = post_step(found, text, tokens, along, first)?;
    posts(found, text, tokens, along, others)?;
    Ok(())
}

/// What the calls of a chain with these parts add.
#[tactic(auto, using(crate::proofs::Given::calls_give, crate::proofs::Given::calls_no_base, crate::proofs::Given::calls_no_post))]
pub fn calls(
    found: &mut Found,
    text: &str,
    tokens: &[Token],
    parts: &Siblings<'_>,
) -> Result<(), AllocError>
    requires { IsCut text.now tokens.now }
    ensures { OnOk result ((start : ℕ) → Gives (calls_of start (held text.now tokens.now parts.now.entries.now)) found.old found.new) }
{
    match parts.part(0) {
        Some(base) => match parts.part(1) {
            Some(first) => {
                chain(found, text, tokens, &base, &first, &parts.group_at(2))?;
                Ok(())
            }
            None => Ok(()),
        },
        None => Ok(()),
    }
}
