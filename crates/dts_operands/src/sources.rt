//! What decides the type of an expression with `as` and `satisfies` after it.

ghost use Rattle.std.specs.Prelude.{◌≡◌, ◌<◌, ℕ, List, Option};
ghost use Rattle.base.specs.declared.range.Range.{Range};
ghost use Rattle.es_token.specs.declared.token.Token.{Token as Tok};
ghost use Rattle.es_ast.specs.declared.ast.Expr.{Expr};
ghost use Rattle.es_lowering.specs.Value.{Value, part};
ghost use Rattle.es_token.specs.declared.token.TokenKind.{TokenKind as AKind};
ghost use Rattle.es_token.specs.declared.token.TokenKind.TheVariants as k;
ghost use Rattle.grammar_theory.specs.Key.{same_kind};
ghost use Rattle.es_lowering.specs.TypedExpressions.{asserted_by};
ghost use Rattle.es_syntax.specs.Held.{held, valued, parts_of, leaning, token_there};
ghost use Rattle.es_syntax.specs.declared.entry.Lean.TheVariants as vLean;
ghost use Rattle.es_syntax.specs.Roles.{expr_in};
ghost use Rattle.dts_rules.specs.Rules.{Env};
ghost use Rattle.dts_draft.specs.Written.{IfThere};
ghost use Rattle.dts_operands.specs.Sources.{const_of, is_word_as, Decides, Turned, Leaned};

use dts_draft::is_kind;
use es_syntax::{Item, Siblings, What};
use es_token::{Token, TokenKind};

/// What decides the type: the first operand, a type, or nothing.
#[derive(Clone, Copy)]
pub enum Source<'a> {
    /// The first operand, after `as const` or not.
    Operand { is_const: bool },
    Type(Item<'a>),
    Untyped,
    /// No grammar makes it.
    Broken,
}

/// Whether the token of this number is `as`.
fn is_as(tokens: &[Token], word: Option<u32>) -> bool
    ensures { result ≡ is_word_as (token_there tokens.now word) }
{
    match word {
        Some(at) => is_kind(tokens, at, TokenKind::AsWord),
        None => false,
    }
}

/// After `as const`.
#[tactic(auto, using(crate::proofs::SourceLemmas::const_operand, crate::proofs::SourceLemmas::const_type, crate::proofs::SourceLemmas::const_untyped))]
fn as_const<'a>(before: Source<'a>) -> Source<'a>
    ensures { (by : Env) (x : List ℕ) (ts : List Tok) (r : Range) (first e : Expr) → Decides by x ts first before.entry e → Decides by x ts first result (const_of e r) }
{
    match before {
        Source::Operand { is_const: _ } => Source::Operand { is_const: true },
        Source::Type(ty) => Source::Type(ty),
        Source::Untyped => Source::Untyped,
        Source::Broken => Source::Broken,
    }
}

/// What decides with a type, after `as` or not, or with `const`.
fn asserted<'a>(before: Source<'a>, is_as: bool, it: &Item<'a>) -> Source<'a>
    ensures { (by : Env) (x : List ℕ) (ts : List Tok) (r : Range) (kind : AKind) (first e : Expr) → same_kind kind k.AsWord ≡ is_as → Decides by x ts first before.entry e → IfThere (Decides by x ts first result) (asserted_by r e kind (valued x ts it.now)) }
{
    match it.what {
        What::Leaf => as_const(before),
        What::Node(_) => {
            if is_as {
                return Source::Type(*it);
            }
            before
        }
        What::Role(_) => Source::Broken,
        What::Parts => Source::Broken,
        What::Lean(_) => Source::Broken,
    }
}

/// What decides with this turn after it.
pub fn turned<'a>(tokens: &[Token], before: Source<'a>, turn: &Siblings<'a>) -> Source<'a>
    ensures { (by : Env) (x : List ℕ) → Turned by x tokens.now before.entry result (held x tokens.now turn.now.entries.now) }
{
    match turn.part(1) {
        None => Source::Broken,
        Some(right) => match right.what {
            What::Parts => match right.parts.split() {
                None => Source::Broken,
                Some((it, _)) => {
                    let word = turn.token_at(0);
                    asserted(before, is_as(tokens, word), &it)
                }
            },
            What::Node(_) => Source::Untyped,
            What::Lean(_) => Source::Untyped,
            What::Leaf => Source::Broken,
            What::Role(_) => Source::Broken,
        },
    }
}

/// What decides the type of an operand with a type or `const` before it.
pub fn cast<'a>(before: &Siblings<'a>) -> Source<'a>
    ensures { (by : Env) (x : List ℕ) (ts : List Tok) (r : Range) (e : Expr) → IfThere (Decides by x ts e result) (asserted_by r e k.AsWord (part (held x ts before.now.entries.now) 0)) }
{
    match before.part(0) {
        Some(it) => asserted(Source::Operand { is_const: false }, true, &it),
        None => Source::Broken,
    }
}

/// The same of a turn of a left-associative chain.
fn lean_turn<'a>(tokens: &[Token], before: Source<'a>, turn: &Item<'a>) -> Source<'a>
    ensures { (by : Env) (x : List ℕ) (first : Expr) (from to : ℕ) (v : Value) → IfThere (Decides by x tokens.now first before.entry) (expr_in v) → IfThere (Decides by x tokens.now first result) (expr_in (leaning x tokens.now vLean.TypedBinary from v (to, valued x tokens.now turn.now))) }
{
    turned(tokens, before, &turn.group().group_at(0))
}

/// The same of all turns.
#[tactic(auto, using(crate::proofs::SourceLemmas::leaned_none))]
pub fn lean_turns<'a>(tokens: &[Token], before: Source<'a>, turns: &Siblings<'a>) -> Source<'a>
    ensures { (by : Env) (x : List ℕ) → Leaned by x tokens.now before.entry result (parts_of x tokens.now turns.now.entries.now) }
{
    let mut source = before;
    let mut row = *turns;
    while let Some((turn, rest)) = row.split() {
        source = lean_turn(tokens, source, &turn);
        row = rest;
    }
    source
}
