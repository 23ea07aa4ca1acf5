//! Calls of `Object.freeze` with one plain argument.

ghost use Rattle.std.specs.Prelude.{◌≡◌, ◌<◌, ◌≤◌, ◌&&◌, not, false, ℕ, List, [], ◌∷◌, Option, length, slice_get, IfSome, bytes_eq, codes};
ghost use Rattle.base.specs.declared.range.Range.{Range};
ghost use Rattle.es_token.specs.declared.token.Token.{Token as Tok};
ghost use Rattle.es_ast.specs.declared.ts.ts.TsPart.{TsPart};
ghost use Rattle.es_lexer.specs.Reads.{ReadsTokens};
ghost use Rattle.es_lowering.specs.Value.{Value, as_group, given, post_at, turns};
ghost use Rattle.es_lowering.specs.Texts.{property_of};
ghost use Rattle.es_lowering.specs.Expressions.{argument};
ghost use Rattle.es_lowering.specs.TypedExpressions.{typed_call_of};
ghost use Rattle.es_syntax.specs.Held.{held, valued};
ghost use Rattle.es_syntax.specs.Roles.{args_in, expr_in, post_in};
ghost use Rattle.es_view_expressions.specs.call.Call as call;
ghost use Rattle.es_view_expressions.specs.call.Post as post_view;
ghost use Rattle.es_view_expressions.specs.expr.Primary as primary;
ghost use Rattle.dts_rules.specs.Rules as rules;
ghost use Rattle.dts_draft.specs.Written.{IfThere};
ghost use Rattle.dts_names.specs.Names.{Knows};
ghost use Rattle.dts_operands.specs.declared.callees.Callee.TheVariants as vCallee;
ghost use Rattle.dts_operands.specs.Callees.{IsCallee, Makes, Made, Leads, LeadsOn, OnlyBy, IsOnly, IsUnder, ArgumentUnder};

use crate::labels::{Base, base_of, is_spread};
use dts_draft::is_kind;
use dts_names::{Env, is_unresolved};
use es_syntax::{Item, Siblings, What};
use es_token::{Token, TokenKind};
use es_variables::ident_at;
use es_view_expressions::call::{Args, Call, Post, args_at, call_at, post_at};
use es_view_expressions::expr::{Primary, primary_at};

/// What stands before a further part of a chain.
#[derive(Clone, Copy)]
pub enum Callee<'a> {
    /// `Object`, which nothing declares.
    Object,
    /// `Object.freeze`
    Freeze,
    /// `Object.freeze(a)`: the argument.
    Value(Item<'a>),
    /// Anything else.
    Neither,
    /// No grammar makes it.
    Broken,
}

/// The arguments of a call.
#[derive(Clone, Copy)]
enum Argument<'a> {
    /// One plain argument.
    One(Item<'a>),
    /// None, several, or one after `...`.
    Others,
    /// No grammar makes them.
    Broken,
}

/// A name that begins a chain.
#[tactic(auto, using(crate::proofs::CalleeLemmas::base_object, crate::proofs::CalleeLemmas::base_neither, crate::proofs::CalleeLemmas::base_broken))]
fn named_base<'a>(env: &Env<'_>, base: &Item<'a>) -> Callee<'a>
    requires { ReadsTokens env.now.text.now env.now.tokens.now }
    ensures is { (by : rules.Env) → Knows env.now by → IfThere (IsCallee by result) (expr_in (valued env.now.text.now env.now.tokens.now base.now)) }
    ensures below { IsUnder result 0 }
{
    match primary_at(base) {
        Some(Primary::Ident(at)) => {
            if is_unresolved(env, at, "Object") {
                return Callee::Object;
            }
            Callee::Neither
        }
        Some(_) => Callee::Broken,
        None => Callee::Broken,
    }
}

/// What a chain begins with.
#[tactic(auto, using(crate::proofs::CalleeLemmas::base_broken))]
fn base_callee<'a>(env: &Env<'_>, base: &Item<'a>) -> Callee<'a>
    requires { ReadsTokens env.now.text.now env.now.tokens.now }
    ensures is { (by : rules.Env) → Knows env.now by → IfThere (IsCallee by result) (expr_in (valued env.now.text.now env.now.tokens.now base.now)) }
    ensures below { IsUnder result 0 }
{
    match base.what {
        What::Node(label) => match base_of(label) {
            Base::Name => named_base(env, base),
            Base::Chain => Callee::Broken,
            Base::Other => Callee::Neither,
        },
        What::Lean(_) => Callee::Broken,
        What::Leaf => Callee::Broken,
        What::Role(_) => Callee::Broken,
        What::Parts => Callee::Broken,
    }
}

/// Whether the token of this number is the name `freeze`.
fn is_freeze(env: &Env<'_>, at: u32) -> bool
    requires { ReadsTokens env.now.text.now env.now.tokens.now }
    ensures { IfThere (λ m. (not m.0 && bytes_eq m.1.sym (codes "freeze")) ≡ result) (given (slice_get env.now.tokens.now at) (property_of env.now.text.now)) }
{
    if is_kind(env.tokens, at, TokenKind::PrivateName) {
        return false;
    }
    match ident_at(env.text, env.tokens, env.ids, at) {
        Some(id) => id.sym == "freeze",
        None => false,
    }
}

/// A name after a dot.
#[tactic(auto, using(crate::proofs::CalleeLemmas::freeze_leads, crate::proofs::CalleeLemmas::member_leads, crate::proofs::CalleeLemmas::member_freeze, crate::proofs::CalleeLemmas::member_value, crate::proofs::CalleeLemmas::member_neither, crate::proofs::CalleeLemmas::any_broken))]
fn member_callee<'a>(env: &Env<'_>, before: Callee<'a>, at: u32) -> Callee<'a>
    requires { ReadsTokens env.now.text.now env.now.tokens.now }
    ensures leads { (by : rules.Env) (r : Range) → IfThere (Leads by env.now.text.now env.now.tokens.now before.entry result) (post_view.member env.now.text.now r (slice_get env.now.tokens.now at)) }
    ensures below { IsUnder result 0 }
{
    match before {
        Callee::Object => {
            if is_freeze(env, at) {
                return Callee::Freeze;
            }
            Callee::Neither
        }
        Callee::Freeze => Callee::Neither,
        Callee::Value(_) => Callee::Neither,
        Callee::Neither => Callee::Neither,
        Callee::Broken => Callee::Broken,
    }
}

/// The argument in a turn, where it is a plain one.
#[tactic(auto, using(crate::proofs::CalleeLemmas::argument_spread, crate::proofs::CalleeLemmas::argument_plain, crate::proofs::CalleeLemmas::argument_broken))]
fn argument_in<'a>(turn: &Item<'a>) -> Argument<'a>
    ensures is { (by : rules.Env) (x : List ℕ) (ts : List Tok) → IfThere (λ e. OnlyBy by x ts result (e ∷ [])) (argument ts (as_group (valued x ts turn.now))) }
    ensures below { ArgumentUnder result (length turn.now.parts.entries.now) }
{
    let parts = turn.group();
    if parts.has(0) {
        return Argument::Others;
    }
    match parts.part(1) {
        Some(it) => plain_argument(&it),
        None => Argument::Broken,
    }
}

/// An expression as an argument.
#[tactic(auto, using(crate::proofs::CalleeLemmas::broken_one))]
fn plain_argument<'a>(it: &Item<'a>) -> Argument<'a>
    ensures is { (by : rules.Env) (x : List ℕ) (ts : List Tok) → IfThere (λ e. OnlyBy by x ts result (e ∷ [])) (expr_in (valued x ts it.now)) }
    ensures below { (n : ℕ) → length it.now.parts.entries.now < n → ArgumentUnder result n }
{
    match it.what {
        What::Node(label) => {
            if is_spread(label) {
                return Argument::Broken;
            }
            Argument::One(*it)
        }
        What::Lean(_) => Argument::One(*it),
        What::Leaf => Argument::Broken,
        What::Role(_) => Argument::Broken,
        What::Parts => Argument::Broken,
    }
}

/// The only argument among these.
#[tactic(auto, using(crate::proofs::CalleeLemmas::no_arguments, crate::proofs::CalleeLemmas::several_arguments, crate::proofs::CalleeLemmas::one_argument_in))]
fn only_in<'a>(row: &Siblings<'a>) -> Argument<'a>
    ensures is { (by : rules.Env) (x : List ℕ) (ts : List Tok) → IfThere (OnlyBy by x ts result) (turns (argument ts) (held x ts row.now.entries.now)) }
    ensures below { ArgumentUnder result (length row.now.entries.now) }
{
    match row.split() {
        Some((turn, rest)) => match rest.split() {
            Some(_) => Argument::Others,
            None => argument_in(&turn),
        },
        None => Argument::Others,
    }
}

/// The only argument of a call.
#[tactic(auto, using(crate::proofs::CalleeLemmas::any_arguments))]
fn only_argument<'a>(args: &Item<'a>) -> Argument<'a>
    ensures is { (by : rules.Env) (x : List ℕ) (ts : List Tok) → IfThere (OnlyBy by x ts result) (args_in (valued x ts args.now)) }
    ensures below { ArgumentUnder result (length args.now.parts.entries.now) }
{
    match args_at(args) {
        Some(Args::Arguments(row)) => only_in(&row),
        Some(Args::Broken) => Argument::Broken,
        None => Argument::Broken,
    }
}

/// A call of `Object.freeze` with these arguments.
#[tactic(auto, using(crate::proofs::CalleeLemmas::freezes_one, crate::proofs::CalleeLemmas::freezes_others, crate::proofs::CalleeLemmas::call_broken))]
fn frozen_by<'a>(args: &Item<'a>) -> Callee<'a>
    ensures leads { (by : rules.Env) (x : List ℕ) (ts : List Tok) (r : Range) (types : Option TsPart) → IfThere (λ es. Leads by x ts vCallee.Freeze result (typed_call_of false r types es)) (args_in (valued x ts args.now)) }
    ensures below { IsUnder result (length args.now.parts.entries.now) }
{
    match only_argument(args) {
        Argument::One(value) => Callee::Value(value),
        Argument::Others => Callee::Neither,
        Argument::Broken => Callee::Broken,
    }
}

/// A call with these arguments.
#[tactic(auto, using(crate::proofs::CalleeLemmas::call_object, crate::proofs::CalleeLemmas::call_value, crate::proofs::CalleeLemmas::call_neither, crate::proofs::CalleeLemmas::call_broken, crate::proofs::CalleeLemmas::under_more))]
fn call_callee<'a>(before: Callee<'a>, args: &Item<'a>) -> Callee<'a>
    ensures leads { (by : rules.Env) (x : List ℕ) (ts : List Tok) (r : Range) (types : Option TsPart) → IfThere (λ es. Leads by x ts before.entry result (typed_call_of false r types es)) (args_in (valued x ts args.now)) }
    ensures below { IsUnder result (length args.now.parts.entries.now) }
{
    match before {
        Callee::Freeze => frozen_by(args),
        Callee::Object => Callee::Neither,
        Callee::Value(_) => Callee::Neither,
        Callee::Neither => Callee::Neither,
        Callee::Broken => Callee::Broken,
    }
}

/// What a further part makes of what stands before it.
#[tactic(auto, using(crate::proofs::CalleeLemmas::index_leads, crate::proofs::CalleeLemmas::tagged_leads, crate::proofs::CalleeLemmas::typed_tagged_leads, crate::proofs::CalleeLemmas::optional_leads, crate::proofs::CalleeLemmas::typed_optional_leads, crate::proofs::CalleeLemmas::non_null_leads, crate::proofs::CalleeLemmas::any_broken, crate::proofs::CalleeLemmas::call_leads, crate::proofs::CalleeLemmas::typed_call_leads, crate::proofs::CalleeLemmas::under_any, crate::proofs::CalleeLemmas::under_more))]
fn next_callee<'a>(env: &Env<'_>, before: Callee<'a>, post: &Item<'a>) -> Callee<'a>
    requires { ReadsTokens env.now.text.now env.now.tokens.now }
    ensures leads { (by : rules.Env) → IfThere (Leads by env.now.text.now env.now.tokens.now before.entry result) (post_in (valued env.now.text.now env.now.tokens.now post.now)) }
    ensures below { IsUnder result (length post.now.parts.entries.now) }
{
    match post_at(post) {
        Some(Post::Member(at)) => member_callee(env, before, at),
        Some(Post::Call(args)) => call_callee(before, &args),
        Some(Post::TypedCall { type_args: _, args }) => call_callee(before, &args),
        Some(Post::Index(_)) => Callee::Neither,
        Some(Post::Template(_)) => Callee::Neither,
        Some(
            Post::TypedTemplate {
                type_args: _,
                tpl: _,
            },
        ) => Callee::Neither,
        Some(Post::Optional(_)) => Callee::Neither,
        Some(Post::TypedOptional(_)) => Callee::Neither,
        Some(Post::NonNull) => Callee::Neither,
        Some(Post::Broken) => Callee::Broken,
        None => Callee::Broken,
    }
}

/// What the further part in a turn makes.
#[tactic(auto, using(crate::proofs::CalleeLemmas::any_broken, crate::proofs::CalleeLemmas::under_more))]
fn turn_callee<'a>(env: &Env<'_>, before: Callee<'a>, turn: &Item<'a>) -> Callee<'a>
    requires { ReadsTokens env.now.text.now env.now.tokens.now }
    ensures leads { (by : rules.Env) → IfThere (Leads by env.now.text.now env.now.tokens.now before.entry result) (post_at (as_group (valued env.now.text.now env.now.tokens.now turn.now)) 0) }
    ensures below { IsUnder result (length turn.now.parts.entries.now) }
{
    match turn.group().part(0) {
        Some(post) => next_callee(env, before, &post),
        None => Callee::Broken,
    }
}

/// What further parts make.
#[tactic(auto, using(crate::proofs::CalleeLemmas::leads_none))]
fn last_callee<'a>(env: &Env<'_>, before: Callee<'a>, posts: &Siblings<'a>) -> Callee<'a>
    requires { ReadsTokens env.now.text.now env.now.tokens.now }
    ensures leads { (by : rules.Env) → LeadsOn by env.now.text.now env.now.tokens.now before.entry result (held env.now.text.now env.now.tokens.now posts.now.entries.now) }
    ensures below { (n : ℕ) → IsUnder before.entry n → length posts.now.entries.now ≤ n → IsUnder result n }
{
    let mut callee = before;
    let mut row = *posts;
    while let Some((turn, rest)) = row.split() {
        callee = turn_callee(env, callee, &turn);
        row = rest;
    }
    callee
}

/// What a chain is: `Object.freeze(a)`, or anything else.
#[tactic(auto, using(crate::proofs::CalleeLemmas::chain_makes, crate::proofs::CalleeLemmas::under_more))]
fn chain_callee<'a>(
    env: &Env<'_>,
    base: &Item<'a>,
    first: &Item<'a>,
    others: &Siblings<'a>,
) -> Callee<'a>
    requires { ReadsTokens env.now.text.now env.now.tokens.now }
    ensures makes { (by : rules.Env) → Knows env.now by → (r : Range) → IfThere (Makes by env.now.text.now env.now.tokens.now result) (call.chained_of r (expr_in (valued env.now.text.now env.now.tokens.now base.now)) (post_in (valued env.now.text.now env.now.tokens.now first.now)) (held env.now.text.now env.now.tokens.now others.now.entries.now)) }
    ensures below { (n : ℕ) → length first.now.parts.entries.now < n → length others.now.entries.now ≤ n → IsUnder result n }
{
    let begun = base_callee(env, base);
    let second = next_callee(env, begun, first);
    last_callee(env, second, others)
}

/// The value that a chain freezes, where it is a call of `Object.freeze`.
#[tactic(auto, using(crate::proofs::CalleeLemmas::any_made, crate::proofs::CalleeLemmas::under_more))]
pub fn value_of<'a>(env: &Env<'_>, it: &Item<'a>) -> Callee<'a>
    requires { ReadsTokens env.now.text.now env.now.tokens.now }
    ensures makes { (by : rules.Env) → Knows env.now by → IfThere (Makes by env.now.text.now env.now.tokens.now result) (expr_in (valued env.now.text.now env.now.tokens.now it.now)) }
    ensures below { IsUnder result (length it.now.parts.entries.now) }
{
    match call_at(it) {
        Some(
            Call::Chain {
                base,
                first,
                others,
            },
        ) => chain_callee(env, &base, &first, &others),
        Some(_) => Callee::Broken,
        None => Callee::Broken,
    }
}
