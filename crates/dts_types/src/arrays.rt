//! The types of arrays.

ghost use Rattle.std.specs.Prelude.{◌≡◌, ◌<◌, ◌||◌, false, true, ℕ, List, [], ◌∷◌, Option, Some, length, IfSome};
ghost use Rattle.base.specs.declared.range.Range.{Range as ARange};
ghost use Rattle.es_token.specs.declared.token.Token.{Token as Tok};
ghost use Rattle.es_ast.specs.declared.ast.Expr.TheVariants as vExpr;
ghost use Rattle.es_lexer.specs.Reads.{ReadsTokens};
ghost use Rattle.es_lowering.specs.Value.{as_group, expr_at, group};
ghost use Rattle.es_lowering.specs.Texts.{span_of};
ghost use Rattle.es_lowering.specs.Lowering.{packed};
ghost use Rattle.es_lowering.specs.Expressions.{element_of, elements};
ghost use Rattle.es_syntax.specs.Held.{held, valued, first_in};
ghost use Rattle.es_syntax.specs.Roles.{expr_in};
ghost use Rattle.es_changed.specs.declared.entry.Form.TheVariants as form;
ghost use Rattle.es_changed.specs.declared.entry.Word.TheVariants as word;
ghost use Rattle.es_changed.specs.Formed.{formed, word_type};
ghost use Rattle.es_changed.specs.Changed.{type_node};
ghost use Rattle.es_changed.specs.Shape.{Writes};
ghost use Rattle.es_view_expressions.specs.expr.Primary as primary;
ghost use Rattle.dts_rules.specs.Rules as rules;
ghost use Rattle.dts_draft.specs.Drafts.{state_of};
ghost use Rattle.dts_draft.specs.Written.{IfThere};
ghost use Rattle.dts_names.specs.Names.{Knows};
ghost use Rattle.dts_types.specs.Types.{tuple_of, Answers, AllStep, IsPlain, Steps, Inferred, RestInferred, Stepped};

use crate::ask::Ask;
use crate::exprs::infer_or_any;
use dts_draft::Draft;
use dts_names::{Env, array_name};
use dts_operands::{Behind, behind_of, is_spread};
use dts_rules::FoundKind;
use es_changed::{Form, Word};
use es_expr_spans::{expr_range, span_of};
use es_syntax::{Item, Siblings, What};
use es_view_expressions::expr::{Primary, primary_at};

/// Whether the array or the properties that are asked for are `readonly`.
pub(crate) fn is_fixed(ask: Ask) -> bool
    ensures { result ≡ (ask.readonly || ask.frozen) }
{
    ask.readonly || ask.frozen
}

/// The type of an array over these elements.
#[cycle(types)]
pub(crate) fn array_type(out: &mut Draft, env: &Env<'_>, elems: &Siblings<'_>, ask: Ask) -> bool
    requires read { ReadsTokens env.now.text.now env.now.tokens.now }
    ensures before { out.new.failed ≡ false → out.old.failed ≡ false }
    ensures written { out.new.failed ≡ false → (r : ARange) (from : ℕ) → Inferred env.now ask out.old out.new result (primary.array env.now.tokens.now r from (held env.now.text.now env.now.tokens.now elems.now.entries.now)) }
{
    if is_fixed(ask) {
        return readonly_array(out, env, elems, ask);
    }
    tuple_type(out, env, elems, ask)
}

/// The same behind `readonly`.
#[cycle(types)]
fn readonly_array(out: &mut Draft, env: &Env<'_>, elems: &Siblings<'_>, ask: Ask) -> bool
    requires read { ReadsTokens env.now.text.now env.now.tokens.now }
    ensures before { out.new.failed ≡ false → out.old.failed ≡ false }
    ensures written { out.new.failed ≡ false → (ask.readonly || ask.frozen) ≡ true → (r : ARange) (from : ℕ) → Inferred env.now ask out.old out.new result (primary.array env.now.tokens.now r from (held env.now.text.now env.now.tokens.now elems.now.entries.now)) }
{
    let place = out.open();
    if !tuple_type(out, env, elems, ask) {
        out.back_to(place);
        return false;
    }
    out.close_form(place, Form::Readonly);
    true
}

/// The tuple of these elements.
#[cycle(types)]
fn tuple_type(out: &mut Draft, env: &Env<'_>, elems: &Siblings<'_>, ask: Ask) -> bool
    requires read { ReadsTokens env.now.text.now env.now.tokens.now }
    ensures before { out.new.failed ≡ false → out.old.failed ≡ false }
    ensures written { out.new.failed ≡ false → (by : rules.Env) → Knows env.now by → (at : ℕ) → IfThere (λ es. Answers env.now.text.now env.now.tokens.now out.old out.new result (tuple_of by ask es (state_of out.old))) (elements vExpr.Hole expr_at env.now.tokens.now at (held env.now.text.now env.now.tokens.now elems.now.entries.now)) }
{
    let place = out.open();
    let inside = Ask {
        literal: ask.literal,
        readonly: ask.readonly,
        frozen: false,
    };
    if !all_elements(out, env, elems, inside) {
        out.back_to(place);
        return false;
    }
    out.close_form(place, Form::Tuple);
    true
}

/// All elements, up to the first without which the array has no type.
#[cycle(types)]
fn all_elements(out: &mut Draft, env: &Env<'_>, elems: &Siblings<'_>, ask: Ask) -> bool
    requires read { ReadsTokens env.now.text.now env.now.tokens.now }
    requires inside { ask.frozen ≡ false }
    ensures before { out.new.failed ≡ false → out.old.failed ≡ false }
    ensures written { out.new.failed ≡ false → (by : rules.Env) → Knows env.now by → (at : ℕ) → IfThere (AllStep env.now.text.now env.now.tokens.now by ask out.old out.new result) (elements vExpr.Hole expr_at env.now.tokens.now at (held env.now.text.now env.now.tokens.now elems.now.entries.now)) }
{
    let mut row = *elems;
    while let Some((turn, rest)) = row.split() {
        if !element(out, env, &turn, ask) {
            return false;
        }
        row = rest;
    }
    true
}

/// The first part of the group that is first in a turn.
fn element_in<'a>(turn: &Item<'a>) -> Option<(Item<'a>, Siblings<'a>)>
    ensures value { (x : List ℕ) (ts : List Tok) → group (as_group (valued x ts turn.now)) 0 ≡ first_in x ts result }
    ensures below { IfSome result (λ p. length p.0.parts.entries.now < length turn.now.parts.entries.now) }
{
    turn.group().group_at(0).split()
}

/// The element in a turn, or a hole; whether the array has a type with it.
#[cycle(types)]
fn element(out: &mut Draft, env: &Env<'_>, turn: &Item<'_>, ask: Ask) -> bool
    requires read { ReadsTokens env.now.text.now env.now.tokens.now }
    requires inside { ask.frozen ≡ false }
    ensures before { out.new.failed ≡ false → out.old.failed ≡ false }
    ensures written { out.new.failed ≡ false → (at : ℕ) → Stepped env.now ask out.old out.new result (element_of vExpr.Hole expr_at env.now.tokens.now at (group (as_group (valued env.now.text.now env.now.tokens.now turn.now)) 0)) }
{
    match element_in(turn) {
        Some((it, _)) => some_element(out, env, &it, ask),
        None => {
            hole(out);
            true
        }
    }
}

/// A hole is `any`.
fn hole(out: &mut Draft)
    ensures before { out.new.failed ≡ false → out.old.failed ≡ false }
    ensures state { state_of out.new ≡ state_of out.old }
    ensures written { out.new.failed ≡ false → (x : List ℕ) (ts : List Tok) → Writes x ts out.old.row out.new.row (formed x ts form.Element 0 0 (packed (type_node 0 0 (Some (word_type word.Any)) ∷ [])) ∷ []) }
{
    let place = out.open();
    out.word(Word::Any);
    out.close_form(place, Form::Element);
}

/// An element that is no hole.
#[cycle(types)]
fn some_element(out: &mut Draft, env: &Env<'_>, it: &Item<'_>, ask: Ask) -> bool
    requires read { ReadsTokens env.now.text.now env.now.tokens.now }
    requires inside { ask.frozen ≡ false }
    ensures before { out.new.failed ≡ false → out.old.failed ≡ false }
    ensures written { out.new.failed ≡ false → Stepped env.now ask out.old out.new result (expr_in (valued env.now.text.now env.now.tokens.now it.now)) }
{
    match it.what {
        What::Node(label) => {
            if is_spread(label) {
                return spread_element(out, env, it, ask);
            }
            plain_element(out, env, it, ask);
            true
        }
        What::Lean(_) => {
            plain_element(out, env, it, ask);
            true
        }
        What::Leaf => {
            out.fail();
            true
        }
        What::Role(_) => {
            out.fail();
            true
        }
        What::Parts => {
            out.fail();
            true
        }
    }
}

/// An element that isn't after `...`: its type, or `any`.
#[cycle(types)]
fn plain_element(out: &mut Draft, env: &Env<'_>, it: &Item<'_>, ask: Ask)
    requires read { ReadsTokens env.now.text.now env.now.tokens.now }
    requires inside { ask.frozen ≡ false }
    ensures before { out.new.failed ≡ false → out.old.failed ≡ false }
    ensures written { out.new.failed ≡ false → (by : rules.Env) → Knows env.now by → IfThere (λ e. IsPlain by e → Steps env.now.text.now env.now.tokens.now by ask out.old out.new true e) (expr_in (valued env.now.text.now env.now.tokens.now it.now)) }
{
    let place = out.open();
    let range = expr_range(env.tokens, it);
    infer_or_any(out, env, it, ask, FoundKind::UnableToInferType, range);
    out.close_form(place, Form::Element);
}

/// An element after `...`.
#[cycle(types)]
fn spread_element(out: &mut Draft, env: &Env<'_>, it: &Item<'_>, ask: Ask) -> bool
    requires read { ReadsTokens env.now.text.now env.now.tokens.now }
    ensures before { out.new.failed ≡ false → out.old.failed ≡ false }
    ensures written { out.new.failed ≡ false → Stepped env.now ask out.old out.new result (expr_in (valued env.now.text.now env.now.tokens.now it.now)) }
{
    match primary_at(it) {
        Some(Primary::Spread(inner)) => spread(out, env, it.from, it.to, &inner, ask),
        Some(_) => {
            out.fail();
            true
        }
        None => {
            out.fail();
            true
        }
    }
}

/// What is after `...` in a node from one token up to another one; whether it has a type.
#[cycle(types)]
fn spread(out: &mut Draft, env: &Env<'_>, from: u32, to: u32, inner: &Item<'_>, ask: Ask) -> bool
    requires read { ReadsTokens env.now.text.now env.now.tokens.now }
    ensures before { out.new.failed ≡ false → out.old.failed ≡ false }
    ensures written { out.new.failed ≡ false → Stepped env.now ask out.old out.new result (primary.spread (span_of env.now.tokens.now from to) (expr_in (valued env.now.text.now env.now.tokens.now inner.now))) }
{
    let place = out.open();
    if rest_type(out, env, inner, ask.literal) {
        out.close_form(place, Form::Rest);
        return true;
    }
    out.back_to(place);
    out.note(
        FoundKind::UnableToInferTypeFromSpread,
        span_of(env.tokens, from, to),
    );
    false
}

/// The type of what is after `...`.
#[cycle(types)]
fn rest_type(out: &mut Draft, env: &Env<'_>, inner: &Item<'_>, literal: bool) -> bool
    requires read { ReadsTokens env.now.text.now env.now.tokens.now }
    ensures before { out.new.failed ≡ false → out.old.failed ≡ false }
    ensures written { out.new.failed ≡ false → RestInferred env.now literal out.old out.new result (expr_in (valued env.now.text.now env.now.tokens.now inner.now)) }
{
    match inner.what {
        What::Node(label) => match behind_of(label) {
            Behind::Known => known_rest(out, env, inner, literal),
            Behind::Spread => {
                out.fail();
                false
            }
            Behind::Other => false,
        },
        What::Lean(_) => false,
        What::Leaf => {
            out.fail();
            false
        }
        What::Role(_) => {
            out.fail();
            false
        }
        What::Parts => {
            out.fail();
            false
        }
    }
}

/// The type of a name or of an array after `...`.
#[cycle(types)]
fn known_rest(out: &mut Draft, env: &Env<'_>, inner: &Item<'_>, literal: bool) -> bool
    requires read { ReadsTokens env.now.text.now env.now.tokens.now }
    ensures before { out.new.failed ≡ false → out.old.failed ≡ false }
    ensures written { out.new.failed ≡ false → RestInferred env.now literal out.old out.new result (expr_in (valued env.now.text.now env.now.tokens.now inner.now)) }
{
    match primary_at(inner) {
        Some(Primary::Ident(at)) => array_name(out, env, at),
        Some(Primary::Array { from: _, elems }) => rest_tuple(out, env, &elems, literal),
        Some(_) => {
            out.fail();
            false
        }
        None => {
            out.fail();
            false
        }
    }
}

/// The type of an array after `...`, which isn't `readonly`.
#[cycle(types)]
fn rest_tuple(out: &mut Draft, env: &Env<'_>, elems: &Siblings<'_>, literal: bool) -> bool
    requires read { ReadsTokens env.now.text.now env.now.tokens.now }
    ensures before { out.new.failed ≡ false → out.old.failed ≡ false }
    ensures written { out.new.failed ≡ false → (r : ARange) (from : ℕ) → RestInferred env.now literal out.old out.new result (primary.array env.now.tokens.now r from (held env.now.text.now env.now.tokens.now elems.now.entries.now)) }
{
    let ask = Ask {
        literal,
        readonly: false,
        frozen: false,
    };
    tuple_type(out, env, elems, ask)
}
