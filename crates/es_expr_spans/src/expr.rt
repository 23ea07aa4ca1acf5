//! The range of an expression.

ghost use Rattle.std.specs.Prelude.{◌≡◌, ℕ, List, true, IfSome};
ghost use Rattle.base.specs.declared.range.Range.{Range};
ghost use Rattle.es_lowering.specs.Expressions.{chain};
ghost use Rattle.es_lowering.specs.Texts as texts;
ghost use Rattle.es_syntax.specs.Held.{held, valued};
ghost use Rattle.es_syntax.specs.Roles.{expr_in};
ghost use Rattle.es_syntax.specs.Views.{is_one_of};
ghost use Rattle.es_lowering.specs.Lowering.{expr_of};
ghost use Rattle.es_expr_spans.specs.Spans.{expr_span, is_lean, own_ranges};

use crate::chain::{post_end, posts_end};
use crate::tokens::{span_of, token_range};
use base::Range;
use es_grammar::NodeKind;
use es_syntax::{Item, Siblings, What};
use es_token::Token;

/// The range of a chain over these parts, whose node has this one.
#[tactic(auto, using(crate::proofs::Chains::chain_span, crate::proofs::Chains::no_chain))]
fn chain_range(tokens: &[Token], node: Range, parts: &Siblings<'_>) -> Range
    ensures { (x : List ℕ) → IfSome (chain node (held x tokens.now parts.now.entries.now)) (λ e. result ≡ expr_span e) }
{
    match parts.part(1) {
        Some(first) => {
            let end = post_end(tokens, &first);
            let end = posts_end(tokens, &parts.group_at(2), end);
            Range {
                start: node.start,
                end,
            }
        }
        None => node,
    }
}

/// Whether such a node has a range of its own as an expression.
fn has_own_range(label: NodeKind) -> bool
    ensures { is_one_of own_ranges label ≡ result }
{
    match label {
        NodeKind::Name => true,
        NodeKind::Number => true,
        NodeKind::Str => true,
        NodeKind::RegExp => true,
        NodeKind::Chain => true,
        _ => false,
    }
}

/// The range of such a node as an expression.
#[tactic(auto, unfolding(es_lowering::specs::Lowering::expr_of), using(crate::proofs::TokenSpans::name_span, crate::proofs::TokenSpans::number_span, crate::proofs::TokenSpans::str_span, crate::proofs::TokenSpans::regexp_span))]
fn own_range(tokens: &[Token], label: NodeKind, node: Range, parts: &Siblings<'_>) -> Range
    ensures { is_one_of own_ranges label ≡ true → (x : List ℕ) (from : ℕ) → IfSome (expr_of x tokens.now label from node (held x tokens.now parts.now.entries.now)) (λ e. result ≡ expr_span e) }
{
    match label {
        NodeKind::Name => token_range(tokens, parts.token_at(0)),
        NodeKind::Number => token_range(tokens, parts.token_at(0)),
        NodeKind::Str => token_range(tokens, parts.token_at(0)),
        NodeKind::RegExp => token_range(tokens, parts.token_at(0)),
        NodeKind::Chain => chain_range(tokens, node, parts),
        _ => node,
    }
}

/// The range of a node as an expression.
#[tactic(auto, unfolding(es_lowering::specs::Lowering::build), using(crate::proofs::Nodes::other_span))]
fn node_range(tokens: &[Token], label: NodeKind, node: Range, parts: &Siblings<'_>) -> Range
    ensures { (x : List ℕ) (from : ℕ) → IfSome (expr_of x tokens.now label from node (held x tokens.now parts.now.entries.now)) (λ e. result ≡ expr_span e) }
{
    if has_own_range(label) {
        return own_range(tokens, label, node, parts);
    }
    node
}

/// The range of left-associative nodes.
#[tactic(auto, using(crate::proofs::Leans::lean_span, crate::proofs::Leans::no_place))]
fn leaning_range(tokens: &[Token], it: &Item<'_>) -> Range
    requires { is_lean it.now.what ≡ true }
    ensures { (x : List ℕ) → IfSome (expr_in (valued x tokens.now it.now)) (λ e. result ≡ expr_span e) }
{
    match it.place() {
        Some(place) => span_of(tokens, place.0, place.1),
        None => Range { start: 0, end: 0 },
    }
}

/// The range of the expression that an item is; what is no expression has none, and any is answered.
#[tactic(auto, unfolding(es_lowering::specs::Lowering::build), using(crate::proofs::Leans::role_span, crate::proofs::Leans::parts_span))]
pub fn expr_range(tokens: &[Token], it: &Item<'_>) -> Range
    ensures { (x : List ℕ) → IfSome (expr_in (valued x tokens.now it.now)) (λ e. result ≡ expr_span e) }
{
    match it.what {
        What::Node(label) => node_range(tokens, label, span_of(tokens, it.from, it.to), &it.parts),
        What::Lean(_) => leaning_range(tokens, it),
        What::Leaf => Range { start: 0, end: 0 },
        What::Role(_) => Range { start: 0, end: 0 },
        What::Parts => Range { start: 0, end: 0 },
    }
}
