//! Types of the text.

ghost use Rattle.std.specs.Prelude.{◌≡◌, false, true, ℕ, List, [], ◌∷◌};
ghost use Rattle.es_token.specs.declared.token.Token.{Token as Tok};
ghost use Rattle.es_grammar.specs.declared.rows.NodeKind.TheVariants as l;
ghost use Rattle.es_lowering.specs.Lowering.{packed, type_of};
ghost use Rattle.es_lowering.specs.Texts.{span_of};
ghost use Rattle.es_syntax.specs.Held.{held, valued};
ghost use Rattle.es_syntax.specs.Roles.{ts_type_in};
ghost use Rattle.es_syntax.specs.Views.{is_one_of};
ghost use Rattle.es_changed.specs.declared.entry.Form.TheVariants as form;
ghost use Rattle.es_changed.specs.Formed.{formed};
ghost use Rattle.es_changed.specs.Shape.{Writes};
ghost use Rattle.dts_draft.specs.Drafts.{state_of};
ghost use Rattle.dts_draft.specs.Written.{IfThere};
ghost use Rattle.dts_kept.specs.Kept.{frozen_labels, IsFrozen, IsKept};

use crate::arrays::{is_array, is_readonly};
use crate::members::frozen_members;
use dts_draft::Draft;
use es_changed::Form;
use es_grammar::NodeKind;
use es_syntax::{Item, What};
use es_token::Token;

/// Whether a type of this alternative may have one where the value is frozen.
fn may_freeze(label: NodeKind) -> bool
    ensures { is_one_of frozen_labels label ≡ result }
{
    match label {
        NodeKind::FunctionType => true,
        NodeKind::ConstructorType => true,
        NodeKind::ArrayTypes => true,
        NodeKind::TypeOperator => true,
        NodeKind::MembersType => true,
        NodeKind::TupleType => true,
        _ => false,
    }
}

/// A type behind `readonly`.
fn behind_readonly(out: &mut Draft, ty: &Item<'_>)
    ensures before { out.new.failed ≡ false → out.old.failed ≡ false }
    ensures state { state_of out.new ≡ state_of out.old }
    ensures written { out.new.failed ≡ false → (x : List ℕ) (ts : List Tok) → Writes x ts out.old.row out.new.row (formed x ts form.Readonly 0 0 (packed (valued x ts ty.now ∷ [])) ∷ []) }
{
    let place = out.open();
    out.keep(ty);
    out.close_form(place, Form::Readonly);
}

/// A type with brackets after it.
fn frozen_array(out: &mut Draft, ty: &Item<'_>) -> bool
    ensures before { out.new.failed ≡ false → out.old.failed ≡ false }
    ensures state { state_of out.new ≡ state_of out.old }
    ensures written { out.new.failed ≡ false → (x : List ℕ) (ts : List Tok) → ts_type_in (valued x ts ty.now) ≡ type_of x ts l.ArrayTypes (span_of ts ty.now.from ty.now.to) (held x ts ty.now.parts.entries.now) → IfThere (IsFrozen x ts out.old.row out.new.row result) (ts_type_in (valued x ts ty.now)) }
{
    if is_array(&ty.parts) {
        behind_readonly(out, ty);
        return true;
    }
    false
}

/// A type after an operator.
fn frozen_operator(out: &mut Draft, tokens: &[Token], ty: &Item<'_>) -> bool
    ensures before { out.new.failed ≡ false → out.old.failed ≡ false }
    ensures state { state_of out.new ≡ state_of out.old }
    ensures written { out.new.failed ≡ false → (x : List ℕ) → ts_type_in (valued x tokens.now ty.now) ≡ type_of x tokens.now l.TypeOperator (span_of tokens.now ty.now.from ty.now.to) (held x tokens.now ty.now.parts.entries.now) → IfThere (IsFrozen x tokens.now out.old.row out.new.row result) (ts_type_in (valued x tokens.now ty.now)) }
{
    if is_readonly(tokens, &ty.parts) {
        out.keep(ty);
        return true;
    }
    false
}

/// A type of such an alternative.
#[tactic(auto, using(crate::proofs::KeptLemmas::function_stands, crate::proofs::KeptLemmas::constructor_stands, crate::proofs::KeptLemmas::tuple_stands))]
fn frozen_node(out: &mut Draft, tokens: &[Token], label: NodeKind, ty: &Item<'_>) -> bool
    ensures before { out.new.failed ≡ false → out.old.failed ≡ false }
    ensures state { state_of out.new ≡ state_of out.old }
    ensures written { out.new.failed ≡ false → is_one_of frozen_labels label ≡ true → (x : List ℕ) → ts_type_in (valued x tokens.now ty.now) ≡ type_of x tokens.now label (span_of tokens.now ty.now.from ty.now.to) (held x tokens.now ty.now.parts.entries.now) → IfThere (IsFrozen x tokens.now out.old.row out.new.row result) (ts_type_in (valued x tokens.now ty.now)) }
{
    match label {
        NodeKind::FunctionType => {
            out.keep(ty);
            true
        }
        NodeKind::ConstructorType => {
            out.keep(ty);
            true
        }
        NodeKind::TupleType => {
            behind_readonly(out, ty);
            true
        }
        NodeKind::ArrayTypes => frozen_array(out, ty),
        NodeKind::TypeOperator => frozen_operator(out, tokens, ty),
        NodeKind::MembersType => frozen_members(out, ty),
        _ => false,
    }
}

/// The type that a frozen value of this type has, where there is one.
fn frozen_type(out: &mut Draft, tokens: &[Token], ty: &Item<'_>) -> bool
    ensures before { out.new.failed ≡ false → out.old.failed ≡ false }
    ensures state { state_of out.new ≡ state_of out.old }
    ensures written { out.new.failed ≡ false → (x : List ℕ) → IfThere (IsFrozen x tokens.now out.old.row out.new.row result) (ts_type_in (valued x tokens.now ty.now)) }
{
    match ty.what {
        What::Node(label) => {
            if may_freeze(label) {
                frozen_node(out, tokens, label, ty)
            } else {
                false
            }
        }
        What::Lean(_) => {
            out.fail();
            false
        }
        What::Leaf => {
            out.fail();
            false
        }
        What::Role(_) => {
            out.fail();
            false
        }
        What::Parts => {
            out.fail();
            false
        }
    }
}

/// Writes a type of the text, and where the value is frozen the type that it has then; answers whether there is one: where there is none,
/// nothing is written. What no grammar makes is reported as out of memory.
#[tactic(auto, using(crate::proofs::KeptLemmas::stands))]
pub fn kept_type(out: &mut Draft, tokens: &[Token], ty: &Item<'_>, frozen: bool) -> bool
    ensures before { out.new.failed ≡ false → out.old.failed ≡ false }
    ensures state { state_of out.new ≡ state_of out.old }
    ensures written { out.new.failed ≡ false → (x : List ℕ) → IfThere (IsKept x tokens.now out.old.row out.new.row result frozen) (ts_type_in (valued x tokens.now ty.now)) }
{
    if frozen {
        return frozen_type(out, tokens, ty);
    }
    out.keep(ty);
    true
}
