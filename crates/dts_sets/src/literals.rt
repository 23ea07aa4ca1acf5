//! Which expressions are array literals.

ghost use Rattle.std.specs.Prelude.{◌≡◌, ◌<◌, ℕ, List, Bool, length, true, option_map, IfSome};
ghost use Rattle.base.specs.declared.range.Range.{Range};
ghost use Rattle.es_token.specs.declared.token.Token.{Token as Tok};
ghost use Rattle.es_ast.specs.declared.ast.Expr.{Expr};
ghost use Rattle.es_lexer.specs.Reads.{ReadsTokens};
ghost use Rattle.es_lowering.specs.Value.{Value, given, part};
ghost use Rattle.es_lowering.specs.Lowering.{expr_of};
ghost use Rattle.es_lowering.specs.TypedExpressions.{asserted_by};
ghost use Rattle.es_syntax.specs.Held.{held, valued, parts_of, leaning, leant, token_there};
ghost use Rattle.es_syntax.specs.declared.entry.Lean.{Lean as ALean};
ghost use Rattle.es_syntax.specs.declared.entry.Lean.TheVariants as vLean;
ghost use Rattle.es_syntax.specs.Roles.{expr_in};
ghost use Rattle.es_syntax.specs.Views.{is_one_of};
ghost use Rattle.dts_rules.specs.Sets.{is_array_literal};
ghost use Rattle.dts_sets.specs.Forms.{literal_labels, Literal, Asserted, Turned, Leaned};

use crate::types::{is_array_type, is_word};
use es_grammar::NodeKind;
use es_syntax::{Item, Lean, Siblings, What};
use es_token::{Token, TokenKind};
use es_variables::ScopeIds;

/// Whether an expression with a type or `const` after this word is an array literal, by whether it was one before.
#[tactic(auto, using(crate::proofs::LiteralLemmas::const_turn, crate::proofs::LiteralLemmas::as_turn, crate::proofs::LiteralLemmas::satisfies_turn, crate::proofs::LiteralLemmas::role_turn, crate::proofs::LiteralLemmas::parts_turn, crate::proofs::LiteralLemmas::lean_turn))]
fn is_asserted(
    text: &str,
    tokens: &[Token],
    ids: &ScopeIds,
    before: bool,
    word: Option<u32>,
    it: &Item<'_>,
) -> bool
    requires { ReadsTokens text.now tokens.now }
    ensures { (r : Range) (e : Expr) → is_array_literal e ≡ before → Literal result (given (option_map (λ t. t.kind) (token_there tokens.now word)) (λ kind. asserted_by r e kind (valued text.now tokens.now it.now))) }
{
    match it.what {
        What::Leaf => before,
        What::Node(_) => {
            if is_word(tokens, word, TokenKind::AsWord) {
                return is_array_type(text, tokens, ids, it);
            }
            before
        }
        What::Role(_) => before,
        What::Parts => before,
        What::Lean(_) => before,
    }
}

/// Whether an expression with this type or `const` before it is an array literal, by whether it was one before.
#[tactic(auto, using(crate::proofs::LiteralLemmas::role_before))]
fn is_asserted_as(text: &str, tokens: &[Token], ids: &ScopeIds, before: bool, it: &Item<'_>) -> bool
    requires { ReadsTokens text.now tokens.now }
    ensures { Asserted before result (valued text.now tokens.now it.now) }
{
    match it.what {
        What::Leaf => before,
        What::Node(_) => is_array_type(text, tokens, ids, it),
        What::Role(_) => before,
        What::Parts => before,
        What::Lean(_) => before,
    }
}

/// The same with what is in these brackets before it.
#[tactic(auto, using(crate::proofs::LiteralLemmas::there_before, crate::proofs::LiteralLemmas::none_before))]
fn is_asserted_in(
    text: &str,
    tokens: &[Token],
    ids: &ScopeIds,
    before: bool,
    g: &Siblings<'_>,
) -> bool
    requires { ReadsTokens text.now tokens.now }
    ensures { Asserted before result (part (held text.now tokens.now g.now.entries.now) 0) }
{
    match g.part(0) {
        Some(it) => is_asserted_as(text, tokens, ids, before, &it),
        None => false,
    }
}

/// Whether an expression with this turn after it is an array literal, by whether it was one before.
#[tactic(auto, using(crate::proofs::LiteralLemmas::no_right, crate::proofs::LiteralLemmas::leaf_right, crate::proofs::LiteralLemmas::node_right, crate::proofs::LiteralLemmas::role_right, crate::proofs::LiteralLemmas::lean_right, crate::proofs::LiteralLemmas::empty_right, crate::proofs::LiteralLemmas::group_right))]
fn is_turned(text: &str, tokens: &[Token], ids: &ScopeIds, before: bool, g: &Siblings<'_>) -> bool
    requires { ReadsTokens text.now tokens.now }
    ensures { Turned tokens.now before result (held text.now tokens.now g.now.entries.now) }
{
    match g.part(1) {
        None => false,
        Some(right) => match right.what {
            What::Parts => match right.parts.split() {
                None => false,
                Some((it, _)) => is_asserted(text, tokens, ids, before, g.token_at(0), &it),
            },
            What::Leaf => false,
            What::Node(_) => false,
            What::Role(_) => false,
            What::Lean(_) => false,
        },
    }
}

/// The same of a turn of a left-associative chain.
#[tactic(auto, using(crate::proofs::LiteralLemmas::leaning_turn))]
fn is_turn(text: &str, tokens: &[Token], ids: &ScopeIds, before: bool, turn: &Item<'_>) -> bool
    requires { ReadsTokens text.now tokens.now }
    ensures { (from to : ℕ) (v : Value) → Literal before (expr_in v) → Literal result (expr_in (leaning text.now tokens.now vLean.TypedBinary from v (to, valued text.now tokens.now turn.now))) }
{
    is_turned(text, tokens, ids, before, &turn.group().group_at(0))
}

/// The same of all turns.
#[tactic(auto, using(crate::proofs::LiteralLemmas::leaned_none, crate::proofs::LiteralLemmas::leaned_next))]
fn are_turns(
    text: &str,
    tokens: &[Token],
    ids: &ScopeIds,
    before: bool,
    turns: &Siblings<'_>,
) -> bool
    requires { ReadsTokens text.now tokens.now }
    ensures { Leaned text.now tokens.now before result (parts_of text.now tokens.now turns.now.entries.now) }
{
    let mut literal = before;
    let mut row = *turns;
    while let Some((turn, rest)) = row.split() {
        literal = is_turn(text, tokens, ids, literal, &turn);
        row = rest;
    }
    literal
}

/// Whether left-associative nodes are an array literal.
#[cycle(literals)]
#[tactic(auto, using(crate::proofs::LiteralLemmas::binary_lean, crate::proofs::LiteralLemmas::no_first, crate::proofs::LiteralLemmas::typed_lean))]
fn is_leaning(
    text: &str,
    tokens: &[Token],
    ids: &ScopeIds,
    lean: Lean,
    parts: &Siblings<'_>,
) -> bool
    requires { ReadsTokens text.now tokens.now }
    ensures { (from : ℕ) → Literal result (expr_in (leant text.now tokens.now lean from (parts_of text.now tokens.now parts.now.entries.now))) }
{
    match lean {
        Lean::Binary => false,
        Lean::TypedBinary => match parts.split() {
            None => false,
            Some((first, turns)) => {
                let before = is_array_literal(text, tokens, ids, &first);
                are_turns(text, tokens, ids, before, &turns)
            }
        },
    }
}

/// Whether nodes of this alternative may be array literals.
fn is_literal_label(label: NodeKind) -> bool
    ensures { is_one_of literal_labels label ≡ result }
{
    match label {
        NodeKind::ArrayLiteral => true,
        NodeKind::Parenthesized => true,
        NodeKind::TypedBinary => true,
        NodeKind::TypeAssertion => true,
        _ => false,
    }
}

/// Whether a node of such an alternative is an array literal.
#[cycle(literals)]
#[tactic(auto, using(crate::proofs::LiteralLemmas::array, crate::proofs::LiteralLemmas::paren, crate::proofs::LiteralLemmas::no_inner, crate::proofs::LiteralLemmas::typed_node, crate::proofs::LiteralLemmas::no_operand, crate::proofs::LiteralLemmas::asserted_node, crate::proofs::LiteralLemmas::no_asserted))]
fn own_literal(
    text: &str,
    tokens: &[Token],
    ids: &ScopeIds,
    label: NodeKind,
    parts: &Siblings<'_>,
) -> bool
    requires { ReadsTokens text.now tokens.now }
    ensures { is_one_of literal_labels label ≡ true → (from : ℕ) (r : Range) → Literal result (expr_of text.now tokens.now label from r (held text.now tokens.now parts.now.entries.now)) }
{
    match label {
        NodeKind::ArrayLiteral => true,
        NodeKind::Parenthesized => match parts.part(0) {
            Some(inner) => is_array_literal(text, tokens, ids, &inner),
            None => false,
        },
        NodeKind::TypedBinary => match parts.part(0) {
            Some(left) => {
                let before = is_array_literal(text, tokens, ids, &left);
                is_turned(text, tokens, ids, before, &parts.group_at(1))
            }
            None => false,
        },
        NodeKind::TypeAssertion => match parts.part(1) {
            Some(arg) => {
                let before = is_array_literal(text, tokens, ids, &arg);
                is_asserted_in(text, tokens, ids, before, &parts.group_at(0))
            }
            None => false,
        },
        _ => false,
    }
}

/// Whether an expression is an array literal, looked at through `( )`, `as const`, `satisfies`, and `as` the type of an array;
/// `<a>b` is `b as a`.
#[cycle(literals)]
#[tactic(auto, using(crate::proofs::LiteralLemmas::own, crate::proofs::LiteralLemmas::other, crate::proofs::LiteralLemmas::role, crate::proofs::LiteralLemmas::row))]
pub fn is_array_literal(text: &str, tokens: &[Token], ids: &ScopeIds, it: &Item<'_>) -> bool
    requires { ReadsTokens text.now tokens.now }
    ensures { Literal result (expr_in (valued text.now tokens.now it.now)) }
{
    match it.what {
        What::Node(label) => {
            if !is_literal_label(label) {
                return false;
            }
            own_literal(text, tokens, ids, label, &it.parts)
        }
        What::Lean(lean) => is_leaning(text, tokens, ids, lean, &it.parts),
        What::Leaf => false,
        What::Role(_) => false,
        What::Parts => false,
    }
}
