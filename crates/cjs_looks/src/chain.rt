//! What an expression is, and what it looks like along its chain.

ghost use Rattle.std.specs.Prelude.{◌≡◌, ℕ, List, Option, IfSome, map, slice_get};
ghost use Rattle.base.specs.declared.range.Range.{Range};
ghost use Rattle.es_lowering.specs.Expressions.{argument};
ghost use Rattle.es_view_expressions.specs.call.Post.{member};
ghost use Rattle.es_lowering.specs.Value.{as_group, turns, post_at as post_there};
ghost use Rattle.es_syntax.specs.Held.{held, valued};
ghost use Rattle.es_syntax.specs.Roles.{expr_in, post_in, args_in};
ghost use Rattle.cjs_facts.specs.Looks.{look, named, call_of};
ghost use Rattle.cjs_looks.specs.Seen.{Tells, look_of, name_at};
ghost use Rattle.cjs_looks.specs.Odd.{All, Looks, Linked};
ghost use Rattle.cjs_looks.specs.Posts.{Makes, AllMake};
ghost use Rattle.cjs_looks.specs.Kinds.{IsKind, IsRightUnder};
ghost use Rattle.cjs_looks.specs.Args.{first_look};
ghost use Rattle.cjs_looks.specs.Behind.{IsBehind};
ghost use Rattle.es_syntax.specs.Views.{IsNone};
ghost use Rattle.es_view_expressions.specs.expr.Primary.{primaries};
ghost use Rattle.es_view_expressions.specs.operator.Operator.{operators};

use crate::kind::{Kind, assignment_kind, function_kind, primary_kind};
use crate::looks::{Key, Look};
use crate::words::{spells, token_at};
use es_syntax::{Item, Siblings};
use es_token::{Token, TokenKind};
use es_view_expressions::call::{Args, Call, Post, args_at, call_at, post_at};
use es_view_expressions::expr::primary_at;
use es_view_expressions::operator::{Operator, operator_at};

/// What kind of expression an expression is.
#[cycle(looks)]
pub fn kind_at<'a>(text: &str, tokens: &[Token], it: &Item<'a>) -> Kind<'a>
    ensures kind { IsKind text.now tokens.now result (expr_in (valued text.now tokens.now it.now)) }
    ensures under { IsRightUnder it.now.parts result }
{
    match primary_at(it) {
        Some(view) => primary_kind(&view),
        None => operator_kind(text, tokens, it),
    }
}

#[tactic(auto, using(crate::proofs::Plain::is_prefix, crate::proofs::Plain::is_postfix, crate::proofs::Plain::is_sign, crate::proofs::Plain::is_await, crate::proofs::Plain::is_joined, crate::proofs::Plain::is_private_in, crate::proofs::Plain::is_conditional, crate::proofs::Plain::is_yield, crate::proofs::Plain::is_turned, crate::proofs::Plain::is_asserted, crate::proofs::Plain::is_sequence, crate::proofs::Assignments::is_pattern))]
#[cycle(looks)]
fn operator_kind<'a>(text: &str, tokens: &[Token], it: &Item<'a>) -> Kind<'a>
    requires { IsNone primaries it.now.what }
    ensures kind { IsKind text.now tokens.now result (expr_in (valued text.now tokens.now it.now)) }
    ensures under { IsRightUnder it.now.parts result }
{
    match operator_at(it) {
        Some(Operator::Prefix { .. }) => Kind::Plain(Look::Other),
        Some(Operator::Postfix { .. }) => Kind::Plain(Look::Other),
        Some(Operator::Unary { .. }) => Kind::Plain(Look::Other),
        Some(Operator::Await(_)) => Kind::Plain(Look::Other),
        Some(Operator::Binary { .. }) => Kind::Plain(Look::Other),
        Some(Operator::PrivateIn { .. }) => Kind::Plain(Look::Other),
        Some(Operator::Conditional { .. }) => Kind::Plain(Look::Other),
        Some(Operator::Assignment { left, right }) => assignment_kind(tokens, &left, &right),
        Some(Operator::PatternAssignment { left: _, right }) => Kind::Assigned(right),
        Some(Operator::Yield(_)) => Kind::Plain(Look::Other),
        Some(Operator::TypedBinary { .. }) => Kind::Plain(Look::Other),
        Some(Operator::TypeAssertion { .. }) => Kind::Plain(Look::Other),
        Some(
            Operator::Sequence {
                first,
                second,
                others,
            },
        ) => Kind::Sequence {
            first,
            second,
            others,
        },
        Some(Operator::Broken) => Kind::Plain(Look::Other),
        None => call_kind(text, tokens, it),
    }
}

#[tactic(auto, using(crate::proofs::Plain::is_super, crate::proofs::Plain::is_import_meta, crate::proofs::Plain::is_new_target, crate::proofs::Plain::is_imported, crate::proofs::Plain::is_newed, crate::proofs::Plain::is_typed_newed, crate::proofs::Links::whole_chain))]
#[cycle(looks)]
fn call_kind<'a>(text: &str, tokens: &[Token], it: &Item<'a>) -> Kind<'a>
    requires primary { IsNone primaries it.now.what }
    requires operator { IsNone operators it.now.what }
    ensures kind { IsKind text.now tokens.now result (expr_in (valued text.now tokens.now it.now)) }
    ensures under { IsRightUnder it.now.parts result }
{
    match call_at(it) {
        Some(Call::Super) => Kind::Plain(Look::Other),
        Some(Call::ImportMeta) => Kind::Plain(Look::Other),
        Some(Call::NewTarget) => Kind::Plain(Look::Other),
        Some(Call::Import { .. }) => Kind::Plain(Look::Other),
        Some(Call::New { .. }) => Kind::Plain(Look::Other),
        Some(
            Call::Chain {
                base,
                first,
                others,
            },
        ) => {
            let before = look_at(text, tokens, &base);
            let start = post_look(text, tokens, before, &first);
            Kind::Plain(posts_look(text, tokens, start, &others))
        }
        Some(Call::TypedNew { .. }) => Kind::Plain(Look::Other),
        Some(Call::Broken) => Kind::Plain(Look::Other),
        None => function_kind(it),
    }
}

/// What an expression looks like.
#[tactic(auto, using(crate::proofs::Plain::look_plain, crate::proofs::Plain::look_object, crate::proofs::Plain::look_paren, crate::proofs::Plain::look_number, crate::proofs::Plain::look_sequence, crate::proofs::Plain::look_spread, crate::proofs::Plain::look_function, crate::proofs::Plain::look_assigned))]
#[cycle(looks)]
pub fn look_at(text: &str, tokens: &[Token], it: &Item<'_>) -> Look
    ensures { Tells look (expr_in (valued text.now tokens.now it.now)) (look_of text.now tokens.now result) }
{
    match kind_at(text, tokens, it) {
        Kind::Plain(look) => look,
        Kind::Object(_) => Look::Other,
        Kind::Paren(_) => Look::Other,
        Kind::Number(_) => Look::Other,
        Kind::Spread => Look::Other,
        Kind::Sequence { .. } => Look::Other,
        Kind::Function(_) => Look::Other,
        Kind::Assigned(_) => Look::Other,
    }
}

/// What a chain looks like with all of these parts after it.
#[tactic(auto, using(crate::proofs::Links::posts_all, crate::proofs::Links::posts_next, crate::proofs::Links::posts_done))]
#[cycle(looks)]
fn posts_look(text: &str, tokens: &[Token], before: Look, posts: &Siblings<'_>) -> Look
    ensures { AllMake (Linked (look_of text.now tokens.now before)) (Linked (look_of text.now tokens.now result)) (turns (λ turn. post_there turn 0) (held text.now tokens.now posts.now.entries.now)) }
{
    let mut row = *posts;
    let mut seen = before;
    while let Some((turn, rest)) = row.split() {
        seen = turn_look(text, tokens, seen, &turn);
        row = rest;
    }
    seen
}

/// The same with the part in a turn.
#[tactic(auto, using(crate::proofs::Unknown::makes_absent))]
#[cycle(looks)]
fn turn_look(text: &str, tokens: &[Token], before: Look, turn: &Item<'_>) -> Look
    ensures { Makes (Looks (look_of text.now tokens.now before)) (Linked (look_of text.now tokens.now result)) (post_there (as_group (valued text.now tokens.now turn.now)) 0) }
{
    match turn.group().part(0) {
        Some(post) => post_look(text, tokens, before, &post),
        None => Look::Other,
    }
}

/// What a chain looks like with one part more.
#[tactic(auto, using(crate::proofs::Links::makes_private, crate::proofs::Links::makes_dotted, crate::proofs::Links::makes_index, crate::proofs::Links::makes_call, crate::proofs::Links::makes_typed_call, crate::proofs::Links::makes_tagged, crate::proofs::Links::makes_typed_tagged, crate::proofs::Links::makes_optional, crate::proofs::Links::makes_typed_optional, crate::proofs::Links::makes_non_null, crate::proofs::Unknown::makes_unknown, crate::proofs::Behind::behind_member, crate::proofs::Behind::behind_other))]
#[cycle(looks)]
pub fn post_look(text: &str, tokens: &[Token], before: Look, it: &Item<'_>) -> Look
    ensures makes { Makes (Looks (look_of text.now tokens.now before)) (Linked (look_of text.now tokens.now result)) (post_in (valued text.now tokens.now it.now)) }
    ensures behind { IsBehind (look_of text.now tokens.now before) → IsBehind (look_of text.now tokens.now result) }
{
    match post_at(it) {
        Some(Post::Member(name)) => dotted(tokens, before, name),
        Some(Post::Index(inner)) => {
            Look::Member(before.object(), look_at(text, tokens, &inner).key())
        }
        Some(Post::Call(args)) => call_look(text, tokens, before, &args),
        Some(Post::Template(_)) => Look::Other,
        Some(Post::Optional(_)) => Look::Other,
        Some(Post::TypedCall { type_args: _, args }) => call_look(text, tokens, before, &args),
        Some(Post::TypedTemplate { .. }) => Look::Other,
        Some(Post::TypedOptional(_)) => Look::Other,
        Some(Post::NonNull) => Look::Other,
        Some(Post::Broken) => Look::Other,
        None => Look::Other,
    }
}

/// What a chain looks like with a name after a dot.
#[tactic(auto, using(crate::proofs::Links::makes_private, crate::proofs::Links::makes_dotted, crate::proofs::Links::makes_no_token, crate::proofs::Behind::behind_member, crate::proofs::Behind::behind_other))]
fn dotted(tokens: &[Token], before: Look, name: u32) -> Look
    ensures makes { (x : List ℕ) (r : Range) → Makes (Looks (look_of x tokens.now before)) (Linked (look_of x tokens.now result)) (member x r (slice_get tokens.now name)) }
    ensures behind { (x : List ℕ) → IsBehind (look_of x tokens.now before) → IsBehind (look_of x tokens.now result) }
{
    match token_at(tokens, name) {
        Some(token) => {
            if token.kind() == TokenKind::PrivateName {
                Look::Member(before.object(), Key::Odd)
            } else {
                Look::Member(before.object(), Key::Dotted(name))
            }
        }
        None => Look::Other,
    }
}

/// What a call of this name looks like.
#[tactic(auto, using(crate::proofs::Args::call_requires, crate::proofs::Args::call_passes, crate::proofs::Args::call_none, crate::proofs::Behind::behind_required, crate::proofs::Behind::behind_passed, crate::proofs::Behind::behind_other))]
#[cycle(looks)]
fn named_call(text: &str, tokens: &[Token], name: u32, args: &Item<'_>) -> Look
    ensures tells { Tells (λ args. call_of (named (name_at text.now tokens.now name)) (map look args)) (args_in (valued text.now tokens.now args.now)) (look_of text.now tokens.now result) }
    ensures behind { IsBehind (look_of text.now tokens.now result) }
{
    if spells(text, tokens, name, "require") {
        return first_look(text, tokens, args).required();
    }
    if spells(text, tokens, name, "_interopRequireWildcard") {
        return first_look(text, tokens, args).passed();
    }
    Look::Other
}

/// What a call of what looks so looks like.
#[tactic(auto, using(crate::proofs::Args::call_text, crate::proofs::Args::call_member, crate::proofs::Args::call_required, crate::proofs::Args::call_nothing, crate::proofs::Behind::behind_other))]
#[cycle(looks)]
pub fn call_look(text: &str, tokens: &[Token], before: Look, args: &Item<'_>) -> Look
    ensures tells { Tells (λ args. call_of (look_of text.now tokens.now before) (map look args)) (args_in (valued text.now tokens.now args.now)) (look_of text.now tokens.now result) }
    ensures behind { IsBehind (look_of text.now tokens.now result) }
{
    match before {
        Look::Named(name) => named_call(text, tokens, name, args),
        Look::Text(_) => Look::Other,
        Look::Member(_, _) => Look::Other,
        Look::Requires(_) => Look::Other,
        Look::Other => Look::Other,
    }
}

/// What the first of arguments looks like.
#[tactic(auto, using(crate::proofs::Args::tells_none, crate::proofs::Args::tells_first, crate::proofs::Unknown::tells_unknown))]
#[cycle(looks)]
fn first_look(text: &str, tokens: &[Token], args: &Item<'_>) -> Look
    ensures { Tells (λ args. first_look (map look args)) (args_in (valued text.now tokens.now args.now)) (look_of text.now tokens.now result) }
{
    match args_at(args) {
        Some(Args::Arguments(turns)) => match turns.split() {
            Some((turn, _)) => argument_look(text, tokens, &turn),
            None => Look::Other,
        },
        Some(Args::Broken) => Look::Other,
        None => Look::Other,
    }
}

/// What an argument looks like: `Other` after `...`.
#[tactic(auto, using(crate::proofs::Args::tells_spread, crate::proofs::Args::tells_argument))]
#[cycle(looks)]
pub fn argument_look(text: &str, tokens: &[Token], turn: &Item<'_>) -> Look
    ensures { Tells look (argument tokens.now (as_group (valued text.now tokens.now turn.now))) (look_of text.now tokens.now result) }
{
    let parts = turn.group();
    if parts.has(0) {
        return Look::Other;
    }
    match parts.part(1) {
        Some(expr) => look_at(text, tokens, &expr),
        None => Look::Other,
    }
}
