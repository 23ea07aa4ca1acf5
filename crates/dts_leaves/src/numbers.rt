//! Numbers and BigInts.

ghost use Rattle.std.specs.Prelude.{◌≡◌, ◌+◌, false, true, ℕ, List, [], ◌∷◌, Bool, slice_get};
ghost use Rattle.base.specs.declared.range.Range.{Range as ARange};
ghost use Rattle.es_token.specs.declared.token.Token.{Token as Tok};
ghost use Rattle.es_lowering.specs.Value.{given};
ghost use Rattle.es_lowering.specs.Value as value;
ghost use Rattle.es_lowering.specs.Lowering.{packed};
ghost use Rattle.es_changed.specs.Shape.{Writes};
ghost use Rattle.es_lowering.specs.Texts.{numeric_of, span_of};
ghost use Rattle.es_view_expressions.specs.expr.Primary as primary;
ghost use Rattle.dts_rules.specs.Rules.{Env};
ghost use Rattle.dts_draft.specs.Drafts.{state_of};
ghost use Rattle.dts_draft.specs.Written.{IfThere};
ghost use Rattle.dts_leaves.specs.Leaves.{HasType, IsNumeric};

use dts_draft::{Draft, is_kind};
use es_changed::Word;
use es_grammar::NodeKind;
use es_token::{Token, TokenKind};

/// `number` or `bigint`.
#[tactic(auto, using(crate::proofs::NumberLemmas::big_wide, crate::proofs::NumberLemmas::number_wide))]
fn wide_type(out: &mut Draft, tokens: &[Token], at: u32)
    ensures before { out.new.failed ≡ false → out.old.failed ≡ false }
    ensures state { state_of out.new ≡ state_of out.old }
    ensures written { out.new.failed ≡ false → (x : List ℕ) (minus : Bool) (span : ARange) → IfThere (IsNumeric x tokens.now minus false span out.old.row out.new.row) (given (slice_get tokens.now at) (numeric_of x)) }
{
    if is_kind(tokens, at, TokenKind::BigInt) {
        out.word(Word::BigInt);
    } else {
        out.word(Word::Number);
    }
}

/// A sign, as a group.
#[tactic(auto, using(crate::proofs::NumberLemmas::sign_written))]
fn sign_group(out: &mut Draft, sign: u32)
    ensures before { out.new.failed ≡ false → out.old.failed ≡ false }
    ensures state { state_of out.new ≡ state_of out.old }
    ensures written { out.new.failed ≡ false → (x : List ℕ) (ts : List Tok) → Writes x ts out.old.row out.new.row (packed (value.token sign ∷ []) ∷ []) }
{
    let group = out.open();
    out.token(sign);
    out.close_group(group);
}

/// A number or a BigInt.
#[tactic(auto, using(crate::proofs::NumberLemmas::number_own, crate::proofs::NumberLemmas::number_any))]
pub fn number_type(out: &mut Draft, tokens: &[Token], at: u32, literal: bool)
    ensures before { out.new.failed ≡ false → out.old.failed ≡ false }
    ensures state { state_of out.new ≡ state_of out.old }
    ensures written { out.new.failed ≡ false → (env : Env) (x : List ℕ) → IfThere (HasType env x tokens.now literal true out.old.row out.new.row) (primary.number x (slice_get tokens.now at)) }
{
    if literal {
        own_number(out, at);
    } else {
        wide_type(out, tokens, at);
    }
}

/// The number itself.
fn own_number(out: &mut Draft, at: u32)
    ensures before { out.new.failed ≡ false → out.old.failed ≡ false }
    ensures state { state_of out.new ≡ state_of out.old }
    ensures written { out.new.failed ≡ false → (x : List ℕ) (ts : List Tok) → IfThere (IsNumeric x ts false true (span_of ts at (at + 1)) out.old.row out.new.row) (given (slice_get ts at) (numeric_of x)) }
{
    match at.checked_add(1) {
        Some(to) => own_up_to(out, at, to),
        None => out.fail(),
    }
}

/// The same up to this token.
fn own_up_to(out: &mut Draft, at: u32, to: u32)
    ensures before { out.new.failed ≡ false → out.old.failed ≡ false }
    ensures state { state_of out.new ≡ state_of out.old }
    ensures written { out.new.failed ≡ false → (x : List ℕ) (ts : List Tok) → IfThere (IsNumeric x ts false true (span_of ts at to) out.old.row out.new.row) (given (slice_get ts at) (numeric_of x)) }
{
    out.gone(at);
    let place = out.open();
    out.absent();
    out.token(at);
    out.close_node(place, NodeKind::NumberType, at, to);
}

/// A number or a BigInt after `-`, in a node from one token up to another one.
#[tactic(auto, using(crate::proofs::NumberLemmas::by_literal))]
pub fn minus_type(
    out: &mut Draft,
    tokens: &[Token],
    sign: u32,
    at: u32,
    from: u32,
    to: u32,
    literal: bool,
)
    ensures before { out.new.failed ≡ false → out.old.failed ≡ false }
    ensures state { state_of out.new ≡ state_of out.old }
    ensures written { out.new.failed ≡ false → (x : List ℕ) → IfThere (IsNumeric x tokens.now true literal (span_of tokens.now from to) out.old.row out.new.row) (given (slice_get tokens.now at) (numeric_of x)) }
{
    if literal {
        own_minus(out, sign, at, from, to);
    } else {
        wide_type(out, tokens, at);
    }
}

/// The number itself, after `-`.
fn own_minus(out: &mut Draft, sign: u32, at: u32, from: u32, to: u32)
    ensures before { out.new.failed ≡ false → out.old.failed ≡ false }
    ensures state { state_of out.new ≡ state_of out.old }
    ensures written { out.new.failed ≡ false → (x : List ℕ) (ts : List Tok) → IfThere (IsNumeric x ts true true (span_of ts from to) out.old.row out.new.row) (given (slice_get ts at) (numeric_of x)) }
{
    out.gone(from);
    let place = out.open();
    sign_group(out, sign);
    out.token(at);
    out.close_node(place, NodeKind::NumberType, from, to);
}
