//! What keys in brackets are looked through to: `( )`, casts and `!` are nothing.

ghost use Rattle.std.specs.Prelude.{◌≡◌, ◌<◌, true, false, ℕ, List, length};
ghost use Rattle.es_token.specs.declared.token.Token.{Token as Tok};
ghost use Rattle.es_lexer.specs.Reads.{ReadsTokens};
ghost use Rattle.base.specs.declared.range.Range.{Range};
ghost use Rattle.es_lowering.specs.Value.{behind, nil};
ghost use Rattle.es_lowering.specs.Texts.{span_of};
ghost use Rattle.es_syntax.specs.Held.{held, leant, parts_of, valued};
ghost use Rattle.es_syntax.specs.Roles.{expr_in, post_in};
ghost use Rattle.es_syntax.specs.Views.{is_one_of};
ghost use Rattle.es_view_expressions.specs.call.Call as call;
ghost use Rattle.es_view_expressions.specs.operator.Operator as operator;
ghost use Rattle.dts_rules.specs.Rules as rules;
ghost use Rattle.dts_member_keys.specs.Looks.{keyed, IsUnder, KeySeen, Leaned, LeanTurned, Looked, LookTells, Turned};

use crate::further::{Further, are_non_null, both, further_at};
use crate::keys::MemberKey;
use crate::symbols::symbol_look;
use dts_names::Env;
use es_grammar::NodeKind;
use es_syntax::{Item, Lean, Siblings, What};
use es_view_expressions::call::{Call, call_at};
use es_view_expressions::expr::{Primary, primary_at};
use es_view_expressions::operator::{Operator, operator_at};

/// What an expression in brackets is looked at as.
#[derive(Clone, Copy)]
pub enum Look<'a> {
    /// What stands inside it, or before a cast or `!`.
    Inner(Item<'a>),
    /// A key, or none.
    Key(MemberKey<'a>),
}

/// Whether nodes of this alternative may be a key in brackets.
fn may_be_key(label: NodeKind) -> bool
    ensures { is_one_of keyed label ≡ result }
{
    match label {
        NodeKind::Name => true,
        NodeKind::Number => true,
        NodeKind::Str => true,
        NodeKind::Parenthesized => true,
        NodeKind::Chain => true,
        NodeKind::TypedBinary => true,
        NodeKind::TypeAssertion => true,
        _ => false,
    }
}

/// Whether what follows an operand is `as` or `satisfies`, with a type or `const`.
#[tactic(auto, using(crate::proofs::CastLemmas::no_right, crate::proofs::CastLemmas::operand_right, crate::proofs::CastLemmas::group_right))]
fn is_cast(turn: &Siblings<'_>) -> bool
    ensures { (by : rules.Env) (x : List ℕ) (ts : List Tok) → Turned by ts result (held x ts turn.now.entries.now) }
{
    match turn.part(1) {
        None => false,
        Some(right) => match right.group().split() {
            Some(_) => true,
            None => false,
        },
    }
}

/// The same of a turn of a left-associative chain.
#[tactic(auto, using(crate::proofs::CastLemmas::leaning_binary, crate::proofs::CastLemmas::leaning_typed))]
fn is_cast_turn(lean: Lean, turn: &Item<'_>) -> bool
    ensures { (by : rules.Env) (x : List ℕ) (ts : List Tok) (to : ℕ) → LeanTurned by x ts lean result (to, valued x ts turn.now) }
{
    match lean {
        Lean::Binary => false,
        Lean::TypedBinary => is_cast(&turn.group().group_at(0)),
    }
}

/// Whether all turns are casts.
#[tactic(auto, using(crate::proofs::CastLemmas::leaned_none, crate::proofs::CastLemmas::leaned_next))]
fn are_casts(lean: Lean, turns: &Siblings<'_>) -> bool
    ensures { (by : rules.Env) (x : List ℕ) (ts : List Tok) → Leaned by x ts lean true result (parts_of x ts turns.now.entries.now) }
{
    let mut casts = true;
    let mut row = *turns;
    while let Some((turn, rest)) = row.split() {
        let cast = is_cast_turn(lean, &turn);
        casts = both(cast, casts);
        row = rest;
    }
    casts
}

/// Left-associative nodes: the first operand, where only casts follow it.
fn lean_look<'a>(lean: Lean, parts: &Siblings<'a>) -> Look<'a>
    ensures tells { (by : rules.Env) (x : List ℕ) (ts : List Tok) (from : ℕ) → LookTells by x ts result (expr_in (leant x ts lean from (parts_of x ts parts.now.entries.now))) }
    ensures below { IsUnder result (length parts.now.entries.now) }
{
    match parts.split() {
        None => Look::Key(MemberKey::Broken),
        Some((first, turns)) => {
            if are_casts(lean, &turns) {
                return Look::Inner(first);
            }
            Look::Key(MemberKey::Dropped)
        }
    }
}

/// An operand with one turn.
fn turned_look<'a>(left: &Item<'a>, turn: &Siblings<'_>) -> Look<'a>
    ensures tells { (by : rules.Env) (x : List ℕ) (ts : List Tok) (r : Range) → LookTells by x ts result (operator.turned ts r (behind (valued x ts left.now)) (expr_in (valued x ts left.now)) (held x ts turn.now.entries.now)) }
    ensures below { (n : ℕ) → length left.now.parts.entries.now < n → IsUnder result n }
{
    if is_cast(turn) {
        return Look::Inner(*left);
    }
    Look::Key(MemberKey::Dropped)
}

/// A chain of one further part.
fn first_look<'a>(env: &Env<'_>, chain: &Item<'a>, base: &Item<'a>, first: &Item<'a>) -> Look<'a>
    requires { ReadsTokens env.now.text.now env.now.tokens.now }
    ensures tells { Looked env.now result (call.chained_of (span_of env.now.tokens.now chain.now.from chain.now.to) (expr_in (valued env.now.text.now env.now.tokens.now base.now)) (post_in (valued env.now.text.now env.now.tokens.now first.now)) nil) }
    ensures below { (n : ℕ) → length base.now.parts.entries.now < n → IsUnder result n }
{
    match further_at(first) {
        Further::NonNull => Look::Inner(*base),
        Further::Dot(at) => symbol_look(env, chain, base, first, at),
        Further::Other => Look::Key(MemberKey::Dropped),
    }
}

/// A chain: what follows its first further part may be `!` alone.
fn chain_look<'a>(
    env: &Env<'_>,
    chain: &Item<'a>,
    base: &Item<'a>,
    first: &Item<'a>,
    others: &Siblings<'_>,
) -> Look<'a>
    requires { ReadsTokens env.now.text.now env.now.tokens.now }
    ensures tells { Looked env.now result (call.chained_of (span_of env.now.tokens.now chain.now.from chain.now.to) (expr_in (valued env.now.text.now env.now.tokens.now base.now)) (post_in (valued env.now.text.now env.now.tokens.now first.now)) (held env.now.text.now env.now.tokens.now others.now.entries.now)) }
    ensures below { (n : ℕ) → length base.now.parts.entries.now < n → IsUnder result n }
{
    if are_non_null(others) {
        return first_look(env, chain, base, first);
    }
    Look::Key(MemberKey::Dropped)
}

/// A node that is a chain.
#[tactic(auto, using(crate::proofs::LookLemmas::broken))]
fn called_look<'a>(env: &Env<'_>, it: &Item<'a>) -> Look<'a>
    requires { ReadsTokens env.now.text.now env.now.tokens.now }
    ensures tells { Looked env.now result (expr_in (valued env.now.text.now env.now.tokens.now it.now)) }
    ensures below { IsUnder result (length it.now.parts.entries.now) }
{
    match call_at(it) {
        Some(
            Call::Chain {
                base,
                first,
                others,
            },
        ) => chain_look(env, it, &base, &first, &others),
        Some(_) => Look::Key(MemberKey::Broken),
        None => Look::Key(MemberKey::Broken),
    }
}

/// A node that is a cast or a chain.
#[tactic(auto, using(crate::proofs::LookLemmas::broken))]
fn cast_look<'a>(env: &Env<'_>, it: &Item<'a>) -> Look<'a>
    requires { ReadsTokens env.now.text.now env.now.tokens.now }
    ensures tells { Looked env.now result (expr_in (valued env.now.text.now env.now.tokens.now it.now)) }
    ensures below { IsUnder result (length it.now.parts.entries.now) }
{
    match operator_at(it) {
        Some(Operator::TypedBinary { left, turn }) => turned_look(&left, &turn),
        Some(Operator::TypeAssertion { asserted: _, arg }) => Look::Inner(arg),
        Some(_) => Look::Key(MemberKey::Broken),
        None => called_look(env, it),
    }
}

/// A node of an alternative that may be a key.
#[tactic(auto, using(crate::proofs::LookLemmas::broken))]
fn node_look<'a>(env: &Env<'_>, it: &Item<'a>) -> Look<'a>
    requires { ReadsTokens env.now.text.now env.now.tokens.now }
    ensures tells { Looked env.now result (expr_in (valued env.now.text.now env.now.tokens.now it.now)) }
    ensures below { IsUnder result (length it.now.parts.entries.now) }
{
    match primary_at(it) {
        Some(Primary::Ident(_)) => Look::Key(MemberKey::Name(*it)),
        Some(Primary::Str(at)) => Look::Key(MemberKey::Str(at)),
        Some(Primary::Number(at)) => Look::Key(MemberKey::Number(at)),
        Some(Primary::Paren(inner)) => Look::Inner(inner),
        Some(_) => Look::Key(MemberKey::Broken),
        None => cast_look(env, it),
    }
}

/// What an expression in brackets is looked at as.
fn look_at<'a>(env: &Env<'_>, it: &Item<'a>) -> Look<'a>
    requires { ReadsTokens env.now.text.now env.now.tokens.now }
    ensures tells { Looked env.now result (expr_in (valued env.now.text.now env.now.tokens.now it.now)) }
    ensures below { IsUnder result (length it.now.parts.entries.now) }
{
    match it.what {
        What::Node(label) => {
            if may_be_key(label) {
                return node_look(env, it);
            }
            Look::Key(MemberKey::Dropped)
        }
        What::Lean(lean) => lean_look(lean, &it.parts),
        What::Leaf => Look::Key(MemberKey::Broken),
        What::Role(_) => Look::Key(MemberKey::Broken),
        What::Parts => Look::Key(MemberKey::Broken),
    }
}

/// What a key in brackets is looked through to.
#[tactic(auto, using(crate::proofs::LookLemmas::broken))]
pub(crate) fn bracketed<'a>(env: &Env<'_>, it: &Item<'a>) -> MemberKey<'a>
    requires { ReadsTokens env.now.text.now env.now.tokens.now }
    ensures { KeySeen env.now result (expr_in (valued env.now.text.now env.now.tokens.now it.now)) }
{
    let mut look = look_at(env, it);
    while let Look::Inner(inner) = look {
        look = look_at(env, &inner);
    }
    match look {
        Look::Key(key) => key,
        Look::Inner(_) => MemberKey::Broken,
    }
}
