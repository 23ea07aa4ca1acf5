//! Callees: what a callee looks like, or what follows the zero of `(0, a)`.

ghost use Rattle.std.specs.Prelude.{◌≡◌, slice_get};
ghost use Rattle.es_lowering.specs.Value.{turns, expr_at};
ghost use Rattle.es_syntax.specs.Held.{held, valued};
ghost use Rattle.es_syntax.specs.Roles.{expr_in};
ghost use Rattle.cjs_facts.specs.Looks.{callee_look};
ghost use Rattle.cjs_looks.specs.Kinds.{number_zero};
ghost use Rattle.cjs_looks.specs.Seen.{Tells, look_of};
ghost use Rattle.cjs_looks.specs.objects.Returns.{Gives, handed};
ghost use Rattle.cjs_calls.specs.Callees.{zero_of, behind_in, Pairs, InBrackets};

use cjs_looks::{Kind, Look, kind_at, look_at, spells, token_at};
use es_syntax::{Item, Siblings};
use es_token::{Token, TokenKind};

/// Whether the token of this number is the number `0`.
#[tactic(auto, using(crate::proofs::Zeros::is_number, crate::proofs::Zeros::is_other, crate::proofs::Zeros::is_none))]
fn is_zero(text: &str, tokens: &[Token], at: u32) -> bool
    ensures { result ≡ number_zero text.now (slice_get tokens.now at) }
{
    match token_at(tokens, at) {
        Some(token) => {
            if token.kind() == TokenKind::Number {
                return spells(text, tokens, at, "0");
            }
            false
        }
        None => false,
    }
}

/// Whether an expression is the number `0`.
#[tactic(auto, using(crate::proofs::Zeros::zero_plain, crate::proofs::Zeros::zero_object, crate::proofs::Zeros::zero_paren, crate::proofs::Zeros::zero_number, crate::proofs::Zeros::zero_sequence, crate::proofs::Zeros::zero_spread, crate::proofs::Zeros::zero_function, crate::proofs::Zeros::zero_assigned))]
fn zero_at(text: &str, tokens: &[Token], it: &Item<'_>) -> bool
    ensures { Tells zero_of (expr_in (valued text.now tokens.now it.now)) result }
{
    match kind_at(text, tokens, it) {
        Kind::Number(token) => is_zero(text, tokens, token),
        Kind::Plain(_) => false,
        Kind::Object(_) => false,
        Kind::Paren(_) => false,
        Kind::Sequence { .. } => false,
        Kind::Spread => false,
        Kind::Function(_) => false,
        Kind::Assigned(_) => false,
    }
}

/// What follows the zero in a sequence of these.
#[tactic(auto, using(crate::proofs::Callees::pairs_more, crate::proofs::Callees::pairs_zero, crate::proofs::Callees::pairs_other))]
fn pair_second<'a>(
    text: &str,
    tokens: &[Token],
    first: &Item<'_>,
    second: &Item<'a>,
    others: &Siblings<'_>,
) -> Option<Item<'a>>
    ensures { Pairs (handed text.now tokens.now result) (expr_in (valued text.now tokens.now first.now)) (expr_in (valued text.now tokens.now second.now)) (turns (λ turn. expr_at turn 0) (held text.now tokens.now others.now.entries.now)) }
{
    match others.split() {
        Some(_) => None,
        None => {
            if zero_at(text, tokens, first) {
                return Some(*second);
            }
            None
        }
    }
}

/// What follows the zero of `0, a`.
#[tactic(auto, using(crate::proofs::Callees::behind_plain, crate::proofs::Callees::behind_object, crate::proofs::Callees::behind_paren, crate::proofs::Callees::behind_number, crate::proofs::Callees::behind_sequence, crate::proofs::Callees::behind_spread, crate::proofs::Callees::behind_function, crate::proofs::Callees::behind_assigned))]
fn second_at<'a>(text: &str, tokens: &[Token], it: &Item<'a>) -> Option<Item<'a>>
    ensures { Gives behind_in (expr_in (valued text.now tokens.now it.now)) (handed text.now tokens.now result) }
{
    match kind_at(text, tokens, it) {
        Kind::Sequence {
            first,
            second,
            others,
        } => pair_second(text, tokens, &first, &second, &others),
        Kind::Plain(_) => None,
        Kind::Object(_) => None,
        Kind::Paren(_) => None,
        Kind::Number(_) => None,
        Kind::Spread => None,
        Kind::Function(_) => None,
        Kind::Assigned(_) => None,
    }
}

/// What brackets around this look like as a callee.
#[tactic(auto, using(crate::proofs::Callees::brackets_second, crate::proofs::Callees::brackets_nothing))]
fn bracketed_look(text: &str, tokens: &[Token], inner: &Item<'_>) -> Look
    ensures { InBrackets (look_of text.now tokens.now result) (expr_in (valued text.now tokens.now inner.now)) }
{
    match second_at(text, tokens, inner) {
        Some(second) => look_at(text, tokens, &second),
        None => Look::Other,
    }
}

/// What a callee looks like.
#[tactic(auto, using(crate::proofs::Callees::callee_plain, crate::proofs::Callees::callee_object, crate::proofs::Callees::callee_paren, crate::proofs::Callees::callee_number, crate::proofs::Callees::callee_sequence, crate::proofs::Callees::callee_spread, crate::proofs::Callees::callee_function, crate::proofs::Callees::callee_assigned))]
pub fn callee_at(text: &str, tokens: &[Token], it: &Item<'_>) -> Look
    ensures { Tells callee_look (expr_in (valued text.now tokens.now it.now)) (look_of text.now tokens.now result) }
{
    match kind_at(text, tokens, it) {
        Kind::Plain(look) => look,
        Kind::Paren(inner) => bracketed_look(text, tokens, &inner),
        Kind::Object(_) => Look::Other,
        Kind::Number(_) => Look::Other,
        Kind::Sequence { .. } => Look::Other,
        Kind::Spread => Look::Other,
        Kind::Function(_) => Look::Other,
        Kind::Assigned(_) => Look::Other,
    }
}
