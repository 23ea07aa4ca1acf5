//! Values that an enum keeps.

ghost use Rattle.std.specs.Prelude.{◌≡◌, ℕ, List, true};
ghost use Rattle.base.specs.declared.range.Range.{Range};
ghost use Rattle.es_grammar.specs.declared.rows.NodeKind.TheVariants as l;
ghost use Rattle.es_lowering.specs.Value.{Value, as_group, expr_at};
ghost use Rattle.es_lowering.specs.Lowering.{expr_of};
ghost use Rattle.es_syntax.specs.Held.{held, valued, parts_of, leaning, leant};
ghost use Rattle.es_syntax.specs.Roles.{expr_in};
ghost use Rattle.es_syntax.specs.Views.{is_one_of};
ghost use Rattle.dts_rules.specs.Rules.{Env};
ghost use Rattle.dts_enums.specs.Forms.{value_labels, Starts, Turned, Leaned, AllStart};

use crate::numbers::is_asserted;
use crate::posts::is_chain;
use crate::tokens::{both, is_word};
use es_grammar::NodeKind;
use es_syntax::{Item, Lean, Siblings, What};
use es_token::{Token, TokenKind};

/// Whether an enum keeps a value with this turn after it, by whether it keeps the value alone.
#[cycle(values)]
#[tactic(auto, using(crate::proofs::TurnLemmas::no_right, crate::proofs::TurnLemmas::operand_right, crate::proofs::TurnLemmas::group_right))]
fn is_turned(tokens: &[Token], before: bool, g: &Siblings<'_>) -> bool
    ensures { (x : List ℕ) (env : Env) → Turned env tokens.now before result (held x tokens.now g.now.entries.now) }
{
    match g.part(1) {
        None => false,
        Some(right) => match right.group().split() {
            Some((it, _)) => is_asserted(
                tokens,
                is_word(tokens, g.token_at(0), TokenKind::AsWord),
                &it,
            ),
            None => {
                let there = starts_enum(tokens, &right);
                both(before, there)
            }
        },
    }
}

/// The same of a turn of a left-associative chain.
#[cycle(values)]
#[tactic(auto, using(crate::proofs::LeanLemmas::leaning_typed, crate::proofs::LeanLemmas::leaning_binary, crate::proofs::LeanLemmas::leaning_none))]
fn is_turn(tokens: &[Token], lean: Lean, before: bool, turn: &Item<'_>) -> bool
    ensures { (x : List ℕ) (env : Env) (from to : ℕ) (v : Value) → Starts env before (expr_in v) → Starts env result (expr_in (leaning x tokens.now lean from v (to, valued x tokens.now turn.now))) }
{
    match lean {
        Lean::Binary => match turn.group().part(1) {
            Some(right) => {
                let there = starts_enum(tokens, &right);
                both(before, there)
            }
            None => false,
        },
        Lean::TypedBinary => is_turned(tokens, before, &turn.group().group_at(0)),
    }
}

/// The same of all turns.
#[cycle(values)]
#[tactic(auto, using(crate::proofs::LeanLemmas::leaned_none, crate::proofs::LeanLemmas::leaned_next))]
fn are_turns(tokens: &[Token], lean: Lean, before: bool, turns: &Siblings<'_>) -> bool
    ensures { (x : List ℕ) (env : Env) → Leaned env x tokens.now lean before result (parts_of x tokens.now turns.now.entries.now) }
{
    let mut there = before;
    let mut row = *turns;
    while let Some((turn, rest)) = row.split() {
        there = is_turn(tokens, lean, there, &turn);
        row = rest;
    }
    there
}

/// Whether an enum keeps left-associative nodes.
#[cycle(values)]
#[tactic(auto, using(crate::proofs::LeanLemmas::no_first, crate::proofs::LeanLemmas::first_turns))]
fn is_leaning(tokens: &[Token], lean: Lean, parts: &Siblings<'_>) -> bool
    ensures { (x : List ℕ) (env : Env) (from : ℕ) → Starts env result (expr_in (leant x tokens.now lean from (parts_of x tokens.now parts.now.entries.now))) }
{
    match parts.split() {
        None => false,
        Some((first, turns)) => {
            let before = starts_enum(tokens, &first);
            are_turns(tokens, lean, before, &turns)
        }
    }
}

/// The expression in a turn of a template.
#[cycle(values)]
#[tactic(auto, using(crate::proofs::ValueLemmas::expr_there, crate::proofs::ValueLemmas::expr_none))]
fn is_piece(tokens: &[Token], turn: &Item<'_>) -> bool
    ensures { (x : List ℕ) (env : Env) → Starts env result (expr_at (as_group (valued x tokens.now turn.now)) 1) }
{
    match turn.group().part(1) {
        Some(it) => starts_enum(tokens, &it),
        None => false,
    }
}

/// Whether an enum keeps the expressions in a template, by whether it keeps those before these.
#[cycle(values)]
#[tactic(auto, using(crate::proofs::ValueLemmas::all_none, crate::proofs::ValueLemmas::all_next))]
fn are_pieces(tokens: &[Token], before: bool, turns: &Siblings<'_>) -> bool
    ensures { (x : List ℕ) (env : Env) → AllStart env before result (held x tokens.now turns.now.entries.now) }
{
    let mut there = before;
    let mut row = *turns;
    while let Some((turn, rest)) = row.split() {
        let piece = is_piece(tokens, &turn);
        there = both(there, piece);
        row = rest;
    }
    there
}

/// Whether nodes of this alternative may be values that an enum keeps.
fn is_value_label(label: NodeKind) -> bool
    ensures { is_one_of value_labels label ≡ result }
{
    match label {
        NodeKind::Name => true,
        NodeKind::Number => true,
        NodeKind::Str => true,
        NodeKind::Template => true,
        NodeKind::TemplateParts => true,
        NodeKind::Parenthesized => true,
        NodeKind::Chain => true,
        NodeKind::Binary => true,
        NodeKind::PrivateIn => true,
        NodeKind::TypedBinary => true,
        NodeKind::TypeAssertion => true,
        _ => false,
    }
}

/// Whether an enum keeps a number: no BigInt.
#[tactic(auto, using(crate::proofs::ValueLemmas::number))]
fn is_number(tokens: &[Token], parts: &Siblings<'_>) -> bool
    ensures { (x : List ℕ) (env : Env) (from : ℕ) (r : Range) → Starts env result (expr_of x tokens.now l.Number from r (held x tokens.now parts.now.entries.now)) }
{
    is_word(tokens, parts.token_at(0), TokenKind::Number)
}

/// Whether an enum keeps the expressions in a template.
#[cycle(values)]
#[tactic(auto, using(crate::proofs::ValueLemmas::template_parts, crate::proofs::ValueLemmas::no_template))]
fn is_template(tokens: &[Token], parts: &Siblings<'_>) -> bool
    ensures { (x : List ℕ) (env : Env) (from : ℕ) (r : Range) → Starts env result (expr_of x tokens.now l.TemplateParts from r (held x tokens.now parts.now.entries.now)) }
{
    match parts.part(1) {
        Some(first) => {
            let there = starts_enum(tokens, &first);
            are_pieces(tokens, there, &parts.group_at(2))
        }
        None => false,
    }
}

/// Whether an enum keeps what is in `( )`.
#[cycle(values)]
#[tactic(auto, using(crate::proofs::ValueLemmas::paren, crate::proofs::ValueLemmas::no_paren))]
fn is_paren(tokens: &[Token], parts: &Siblings<'_>) -> bool
    ensures { (x : List ℕ) (env : Env) (from : ℕ) (r : Range) → Starts env result (expr_of x tokens.now l.Parenthesized from r (held x tokens.now parts.now.entries.now)) }
{
    match parts.part(0) {
        Some(inner) => starts_enum(tokens, &inner),
        None => false,
    }
}

/// Whether an enum keeps a member, or a member of a member.
#[cycle(values)]
#[tactic(auto, using(crate::proofs::ValueLemmas::chain_along, crate::proofs::ValueLemmas::no_chain))]
fn is_member(tokens: &[Token], parts: &Siblings<'_>) -> bool
    ensures { (x : List ℕ) (env : Env) (from : ℕ) (r : Range) → Starts env result (expr_of x tokens.now l.Chain from r (held x tokens.now parts.now.entries.now)) }
{
    match parts.part(0) {
        Some(base) => {
            let there = starts_enum(tokens, &base);
            is_chain(there, parts)
        }
        None => false,
    }
}

/// Whether an enum keeps an operator of two operands, or a cast.
#[cycle(values)]
#[tactic(auto, using(crate::proofs::ValueLemmas::typed_binary, crate::proofs::ValueLemmas::no_typed))]
fn is_typed(tokens: &[Token], parts: &Siblings<'_>) -> bool
    ensures { (x : List ℕ) (env : Env) (from : ℕ) (r : Range) → Starts env result (expr_of x tokens.now l.TypedBinary from r (held x tokens.now parts.now.entries.now)) }
{
    match parts.part(0) {
        Some(left) => {
            let there = starts_enum(tokens, &left);
            is_turned(tokens, there, &parts.group_at(1))
        }
        None => false,
    }
}

/// Whether an enum keeps `<a>b`.
#[tactic(auto, using(crate::proofs::ValueLemmas::assertion, crate::proofs::ValueLemmas::no_assertion))]
fn is_assertion(tokens: &[Token], parts: &Siblings<'_>) -> bool
    ensures { (x : List ℕ) (env : Env) (from : ℕ) (r : Range) → Starts env result (expr_of x tokens.now l.TypeAssertion from r (held x tokens.now parts.now.entries.now)) }
{
    match parts.group_at(0).part(0) {
        Some(ty) => is_asserted(tokens, true, &ty),
        None => false,
    }
}

/// Whether an enum keeps both operands of an operator.
#[cycle(values)]
#[tactic(auto, using(crate::proofs::ValueLemmas::binary_both, crate::proofs::ValueLemmas::binary_no_left, crate::proofs::ValueLemmas::binary_no_right))]
fn is_binary(tokens: &[Token], parts: &Siblings<'_>) -> bool
    ensures { (x : List ℕ) (env : Env) (from : ℕ) (r : Range) → Starts env result (expr_of x tokens.now l.Binary from r (held x tokens.now parts.now.entries.now)) }
{
    match parts.part(0) {
        Some(left) => match parts.part(2) {
            Some(right) => {
                let first = starts_enum(tokens, &left);
                let second = starts_enum(tokens, &right);
                both(first, second)
            }
            None => false,
        },
        None => false,
    }
}

/// Whether an enum keeps a node of such an alternative.
#[cycle(values)]
#[tactic(auto, using(crate::proofs::ValueLemmas::name, crate::proofs::ValueLemmas::str, crate::proofs::ValueLemmas::template, crate::proofs::ValueLemmas::private_in))]
fn own_value(tokens: &[Token], label: NodeKind, parts: &Siblings<'_>) -> bool
    ensures { is_one_of value_labels label ≡ true → (x : List ℕ) (env : Env) (from : ℕ) (r : Range) → Starts env result (expr_of x tokens.now label from r (held x tokens.now parts.now.entries.now)) }
{
    match label {
        NodeKind::Name => true,
        NodeKind::Number => is_number(tokens, parts),
        NodeKind::Str => true,
        NodeKind::Template => true,
        NodeKind::TemplateParts => is_template(tokens, parts),
        NodeKind::Parenthesized => is_paren(tokens, parts),
        NodeKind::Chain => is_member(tokens, parts),
        NodeKind::Binary => is_binary(tokens, parts),
        NodeKind::PrivateIn => false,
        NodeKind::TypedBinary => is_typed(tokens, parts),
        NodeKind::TypeAssertion => is_assertion(tokens, parts),
        _ => false,
    }
}

/// Whether an enum keeps such a value in its declaration: names, numbers, strings, operators between such values, their
/// members, templates of such, what is in `( )`, and what is cast to a number literal.
#[cycle(values)]
#[tactic(auto, using(crate::proofs::ValueLemmas::own, crate::proofs::ValueLemmas::other, crate::proofs::ValueLemmas::role, crate::proofs::ValueLemmas::row))]
pub fn starts_enum(tokens: &[Token], it: &Item<'_>) -> bool
    ensures { (x : List ℕ) (env : Env) → Starts env result (expr_in (valued x tokens.now it.now)) }
{
    match it.what {
        What::Node(label) => {
            if !is_value_label(label) {
                return false;
            }
            own_value(tokens, label, &it.parts)
        }
        What::Lean(lean) => is_leaning(tokens, lean, &it.parts),
        What::Leaf => false,
        What::Role(_) => false,
        What::Parts => false,
    }
}
