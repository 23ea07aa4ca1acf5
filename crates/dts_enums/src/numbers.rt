//! Which types are number literals.

ghost use Rattle.std.specs.Prelude.{◌≡◌, ℕ, List, true};
ghost use Rattle.base.specs.declared.range.Range.{Range};
ghost use Rattle.es_token.specs.declared.token.TokenKind.{TokenKind as Kind};
ghost use Rattle.es_token.specs.declared.token.TokenKind.TheVariants as k;
ghost use Rattle.grammar_theory.specs.Key.{same_kind};
ghost use Rattle.es_ast.specs.declared.ast.Expr.{Expr};
ghost use Rattle.es_lowering.specs.TypedExpressions.{asserted_by};
ghost use Rattle.es_lowering.specs.Lowering.{type_of};
ghost use Rattle.es_syntax.specs.Held.{held, valued};
ghost use Rattle.es_syntax.specs.Views.{is_one_of};
ghost use Rattle.dts_rules.specs.Rules.{Env};
ghost use Rattle.dts_enums.specs.Forms.{number_labels, NumberType, Starts};

use crate::tokens::{both, is_word};
use es_grammar::NodeKind;
use es_syntax::{Item, Siblings, What};
use es_token::{Token, TokenKind};

/// Whether nodes of this alternative may be such types.
fn is_number_label(label: NodeKind) -> bool
    ensures { is_one_of number_labels label ≡ result }
{
    match label {
        NodeKind::NumberType => true,
        _ => false,
    }
}

/// Whether a node of such an alternative is a number literal, and no BigInt.
#[tactic(auto, using(crate::proofs::NumberLemmas::own_number))]
fn own_number(tokens: &[Token], label: NodeKind, parts: &Siblings<'_>) -> bool
    ensures { is_one_of number_labels label ≡ true → (x : List ℕ) (r : Range) → NumberType result (type_of x tokens.now label r (held x tokens.now parts.now.entries.now)) }
{
    match label {
        NodeKind::NumberType => is_word(tokens, parts.token_at(1), TokenKind::Number),
        _ => false,
    }
}

/// Whether a type of this alternative is a number literal.
#[tactic(auto, using(crate::proofs::NumberLemmas::other_number))]
fn is_number_type(tokens: &[Token], label: NodeKind, parts: &Siblings<'_>) -> bool
    ensures { (x : List ℕ) (r : Range) → NumberType result (type_of x tokens.now label r (held x tokens.now parts.now.entries.now)) }
{
    if !is_number_label(label) {
        return false;
    }
    own_number(tokens, label, parts)
}

/// Whether an enum keeps an expression with this type or `const` after `as`, or after another word.
#[tactic(auto, using(crate::proofs::TurnLemmas::const_turn, crate::proofs::TurnLemmas::type_turn, crate::proofs::TurnLemmas::role_turn, crate::proofs::TurnLemmas::parts_turn, crate::proofs::TurnLemmas::lean_turn))]
pub(crate) fn is_asserted(tokens: &[Token], is_as: bool, it: &Item<'_>) -> bool
    ensures { (x : List ℕ) (env : Env) (r : Range) (e : Expr) (kind : Kind) → same_kind kind k.AsWord ≡ is_as → Starts env result (asserted_by r e kind (valued x tokens.now it.now)) }
{
    match it.what {
        What::Node(label) => {
            let number = is_number_type(tokens, label, &it.parts);
            both(is_as, number)
        }
        What::Leaf => false,
        What::Role(_) => false,
        What::Parts => false,
        What::Lean(_) => false,
    }
}
