//! Patterns in patterns.

ghost use Rattle.std.specs.Prelude.{◌≡◌, ◌<◌, ℕ, true, false, List, [], Option, length, slice_get, IfSome};
ghost use Rattle.base.specs.declared.range.Range.{Range as ARange};
ghost use Rattle.es_token.specs.declared.token.Token.{Token as Tok};
ghost use Rattle.es_ast.specs.declared.ast.Expr.{Expr};
ghost use Rattle.es_ast.specs.declared.ast.Pat.TheVariants as vPat;
ghost use Rattle.es_lowering.specs.Value.{Value, part, behind, as_group, group, turns, pat_at, pat_prop_at, type_prop_at, option_list};
ghost use Rattle.es_lowering.specs.Texts.{span_of};
ghost use Rattle.es_lowering.specs.Expressions.{element_of, elements};
ghost use Rattle.es_syntax.specs.Held.{held, valued, there, first_in};
ghost use Rattle.es_syntax.specs.Roles.{key_in, pat_in, pat_prop_in};
ghost use Rattle.es_changed.specs.Shape.{Writes};
ghost use Rattle.es_view_expressions.specs.pattern.Pat as pat_view;
ghost use Rattle.es_view_expressions.specs.pattern.PatProp as prop_view;
ghost use Rattle.dts_rules.specs.Rules.{Env};
ghost use Rattle.dts_rules.specs.Programs.{shown_pat_prop};
ghost use Rattle.dts_draft.specs.Drafts.{state_of};
ghost use Rattle.dts_draft.specs.Written.{IfThere, PutsAll};
ghost use Rattle.dts_patterns.specs.Patterns.{IsPattern, IsBracketed, IsElement, IsTurn, AreElements, IsGroup, IsProp, IsPropTurn, AreProps, IsPropGroup};

use crate::keys::pattern_key;
use crate::names::name_over;
use dts_draft::Draft;
use es_changed::{Change, Form};
use es_grammar::NodeKind;
use es_syntax::{Item, Siblings, What};
use es_token::Token;
use es_view_expressions::pattern::{Pat, PatProp, pat_at, pat_prop_at};

/// A pattern, over its own tokens. One that no grammar makes in a parameter is reported as out of memory: a target of an
/// assignment, and a node whose parts aren't there.
#[cycle(walk)]
pub fn pattern(out: &mut Draft, tokens: &[Token], it: &Item<'_>)
    ensures before { out.new.failed ≡ false → out.old.failed ≡ false }
    ensures state { state_of out.new ≡ state_of out.old }
    ensures written { out.new.failed ≡ false → (env : Env) (x : List ℕ) → IfThere (IsPattern env x tokens.now out.old.row out.new.row (behind (valued x tokens.now it.now))) (pat_in (valued x tokens.now it.now)) }
{
    match it.what {
        What::Node(_) => node_pattern(out, tokens, it),
        What::Leaf => out.fail(),
        What::Role(_) => out.fail(),
        What::Parts => out.fail(),
        What::Lean(_) => out.fail(),
    }
}

/// The pattern that a node is.
#[cycle(walk)]
#[tactic(auto, using(crate::proofs::Forms::without_brackets))]
fn node_pattern(out: &mut Draft, tokens: &[Token], it: &Item<'_>)
    ensures before { out.new.failed ≡ false → out.old.failed ≡ false }
    ensures state { state_of out.new ≡ state_of out.old }
    ensures written { out.new.failed ≡ false → (env : Env) (x : List ℕ) → IfThere (IsPattern env x tokens.now out.old.row out.new.row it.now.to) (pat_in (valued x tokens.now it.now)) }
{
    match pat_at(it) {
        Some(Pat::Ident(at)) => name_over(out, at, it.from, it.to),
        Some(Pat::Array { from, elems }) => array_at(out, tokens, it, from, &elems),
        Some(Pat::Object(props)) => object_pattern(out, tokens, &props, it.from, it.to, it.to),
        Some(Pat::Rest(inner)) => rest_pattern(out, tokens, &inner, it.from, it.to),
        Some(Pat::Default { left, right: _ }) => default_pattern(
            out, tokens, &left, it.from, it.to,
        ),
        Some(Pat::Target(_)) => out.fail(),
        Some(Pat::Broken) => out.fail(),
        None => out.fail(),
    }
}

/// An array that begins at this token, which is that of its node.
#[cycle(walk)]
#[tactic(auto, using(crate::proofs::Forms::without_brackets))]
fn array_at(out: &mut Draft, tokens: &[Token], it: &Item<'_>, from: u32, elems: &Siblings<'_>)
    ensures before { out.new.failed ≡ false → out.old.failed ≡ false }
    ensures state { state_of out.new ≡ state_of out.old }
    ensures written { out.new.failed ≡ false → (env : Env) (x : List ℕ) → IfThere (IsPattern env x tokens.now out.old.row out.new.row it.now.to) (pat_view.array tokens.now (span_of tokens.now it.now.from it.now.to) from (held x tokens.now elems.now.entries.now)) }
{
    if from == it.from {
        array_pattern(out, tokens, elems, it.from, it.to, it.to);
    } else {
        out.fail();
    }
}

/// An array from one token up to another one, the text after its own tokens being dropped.
#[cycle(walk)]
#[tactic(auto, using(crate::proofs::Forms::array_written))]
pub(crate) fn array_pattern(
    out: &mut Draft,
    tokens: &[Token],
    elems: &Siblings<'_>,
    from: u32,
    end: u32,
    to: u32,
)
    ensures before { out.new.failed ≡ false → out.old.failed ≡ false }
    ensures state { state_of out.new ≡ state_of out.old }
    ensures written { out.new.failed ≡ false → (env : Env) (x : List ℕ) → IfThere (IsBracketed env x tokens.now out.old.row out.new.row to) (pat_view.array tokens.now (span_of tokens.now from to) from (held x tokens.now elems.now.entries.now)) }
{
    let place = out.open();
    element_group(out, tokens, elems);
    drop_between(out, end, to);
    out.close_node(place, NodeKind::ArrayPatternOfType, from, to);
}

/// The same of an object.
#[cycle(walk)]
#[tactic(auto, using(crate::proofs::Forms::object_written))]
pub(crate) fn object_pattern(
    out: &mut Draft,
    tokens: &[Token],
    props: &Siblings<'_>,
    from: u32,
    end: u32,
    to: u32,
)
    ensures before { out.new.failed ≡ false → out.old.failed ≡ false }
    ensures state { state_of out.new ≡ state_of out.old }
    ensures written { out.new.failed ≡ false → (env : Env) (x : List ℕ) → IfThere (IsBracketed env x tokens.now out.old.row out.new.row to) (pat_view.object (span_of tokens.now from to) (held x tokens.now props.now.entries.now)) }
{
    let place = out.open();
    prop_group(out, tokens, props);
    drop_between(out, end, to);
    out.close_node(place, NodeKind::ObjectPatternOfType, from, to);
}

/// The tokens between these two are dropped, where there are any.
#[tactic(auto, using(es_changed::proofs::Written::nothing_written))]
pub(crate) fn drop_between(out: &mut Draft, end: u32, to: u32)
    ensures before { out.new.failed ≡ false → out.old.failed ≡ false }
    ensures state { state_of out.new ≡ state_of out.old }
    ensures written { out.new.failed ≡ false → (x : List ℕ) (ts : List Tok) → Writes x ts out.old.row out.new.row [] }
{
    if end < to {
        out.dropped(end, to);
    }
}

/// `...a`
#[cycle(walk)]
#[tactic(auto, using(crate::proofs::Forms::rest_written))]
fn rest_pattern(out: &mut Draft, tokens: &[Token], inner: &Item<'_>, from: u32, to: u32)
    ensures before { out.new.failed ≡ false → out.old.failed ≡ false }
    ensures state { state_of out.new ≡ state_of out.old }
    ensures written { out.new.failed ≡ false → (env : Env) (x : List ℕ) → IfThere (IsPattern env x tokens.now out.old.row out.new.row to) (pat_view.rest (span_of tokens.now from to) (pat_in (valued x tokens.now inner.now))) }
{
    let place = out.open();
    pattern(out, tokens, inner);
    out.close_node(place, NodeKind::RestPatternOfType, from, to);
}

/// `a = b`, which is `a`.
#[cycle(walk)]
fn default_pattern(out: &mut Draft, tokens: &[Token], left: &Item<'_>, from: u32, to: u32)
    ensures before { out.new.failed ≡ false → out.old.failed ≡ false }
    ensures state { state_of out.new ≡ state_of out.old }
    ensures written { out.new.failed ≡ false → (env : Env) (x : List ℕ) → (right : Option Expr) → IfThere (IsPattern env x tokens.now out.old.row out.new.row to) (pat_view.default (span_of tokens.now from to) (pat_in (valued x tokens.now left.now)) right) }
{
    let place = out.open();
    pattern(out, tokens, left);
    out.gone(to);
    out.close(place, Change::Form(Form::Pattern), from, to);
}

/// The elements of an array, as one group.
#[cycle(walk)]
#[tactic(auto, using(crate::proofs::Elements::group_of_elements))]
fn element_group(out: &mut Draft, tokens: &[Token], elems: &Siblings<'_>)
    ensures before { out.new.failed ≡ false → out.old.failed ≡ false }
    ensures state { state_of out.new ≡ state_of out.old }
    ensures written { out.new.failed ≡ false → (env : Env) (x : List ℕ) (at : ℕ) → IfThere (IsGroup env x tokens.now out.old.row out.new.row at) (elements vPat.Hole pat_at tokens.now at (held x tokens.now elems.now.entries.now)) }
{
    let group = out.open();
    all_elements(out, tokens, elems);
    out.close_group(group);
}

/// The elements of an array, in turns.
#[cycle(walk)]
#[tactic(auto, using(crate::proofs::Elements::elements_all, crate::proofs::Elements::elements_done))]
fn all_elements(out: &mut Draft, tokens: &[Token], elems: &Siblings<'_>)
    ensures before { out.new.failed ≡ false → out.old.failed ≡ false }
    ensures state { state_of out.new ≡ state_of out.old }
    ensures written { out.new.failed ≡ false → (env : Env) (x : List ℕ) (at : ℕ) → IfThere (AreElements env x tokens.now out.old.row out.new.row at) (elements vPat.Hole pat_at tokens.now at (held x tokens.now elems.now.entries.now)) }
{
    let mut row = *elems;
    while let Some((turn, rest)) = row.split() {
        element_turn(out, tokens, &turn);
        row = rest;
    }
}

/// An element, in a turn.
#[cycle(walk)]
fn element_turn(out: &mut Draft, tokens: &[Token], turn: &Item<'_>)
    ensures before { out.new.failed ≡ false → out.old.failed ≡ false }
    ensures state { state_of out.new ≡ state_of out.old }
    ensures written { out.new.failed ≡ false → (env : Env) (x : List ℕ) (at : ℕ) → IfThere (IsTurn env x tokens.now out.old.row out.new.row at (group (as_group (valued x tokens.now turn.now)) 0)) (element_of vPat.Hole pat_at tokens.now at (group (as_group (valued x tokens.now turn.now)) 0)) }
{
    let outer = out.open();
    let inner = out.open();
    element(out, tokens, turn);
    out.close_group(inner);
    out.close_group(outer);
}

/// The first part of the group that is first in a turn.
fn element_in<'a>(turn: &Item<'a>) -> Option<(Item<'a>, Siblings<'a>)>
    ensures value { (x : List ℕ) (ts : List Tok) → group (as_group (valued x ts turn.now)) 0 ≡ first_in x ts result }
    ensures below { IfSome result (λ p. length p.0.parts.entries.now < length turn.now.parts.entries.now) }
{
    turn.group().group_at(0).split()
}

/// The pattern in a turn, or none.
#[cycle(walk)]
fn element(out: &mut Draft, tokens: &[Token], turn: &Item<'_>)
    ensures before { out.new.failed ≡ false → out.old.failed ≡ false }
    ensures state { state_of out.new ≡ state_of out.old }
    ensures written { out.new.failed ≡ false → (env : Env) (x : List ℕ) (at : ℕ) → IfThere (IsElement env x tokens.now out.old.row out.new.row at (group (as_group (valued x tokens.now turn.now)) 0)) (element_of vPat.Hole pat_at tokens.now at (group (as_group (valued x tokens.now turn.now)) 0)) }
{
    match element_in(turn) {
        Some((it, _)) => pattern(out, tokens, &it),
        None => {}
    }
}

/// The properties of an object, as one group.
#[cycle(walk)]
fn prop_group(out: &mut Draft, tokens: &[Token], props: &Siblings<'_>)
    ensures before { out.new.failed ≡ false → out.old.failed ≡ false }
    ensures state { state_of out.new ≡ state_of out.old }
    ensures written { out.new.failed ≡ false → (env : Env) (x : List ℕ) → IfThere (IsPropGroup env x tokens.now out.old.row out.new.row) (turns (λ turn. pat_prop_at turn 0) (held x tokens.now props.now.entries.now)) }
{
    let group = out.open();
    all_props(out, tokens, props);
    out.close_group(group);
}

/// The properties of an object, in turns. One that goes takes the comma after it along, or the one after the last property
/// that stays.
#[cycle(walk)]
#[tactic(auto, using(dts_draft::proofs::Lists::turns_all, crate::proofs::Props::props_done))]
fn all_props(out: &mut Draft, tokens: &[Token], props: &Siblings<'_>)
    ensures before { out.new.failed ≡ false → out.old.failed ≡ false }
    ensures state { state_of out.new ≡ state_of out.old }
    ensures written { out.new.failed ≡ false → (env : Env) (x : List ℕ) → IfThere (AreProps env x tokens.now out.old.row out.new.row) (turns (λ turn. pat_prop_at turn 0) (held x tokens.now props.now.entries.now)) }
{
    let mut row = *props;
    let mut end: Option<u32> = None;
    while let Some((turn, rest)) = row.split() {
        end = next_prop(out, tokens, &turn, end, &rest);
        row = rest;
    }
}

/// The first part of a turn.
fn part_in<'a>(turn: &Item<'a>) -> Option<Item<'a>>
    ensures value { (x : List ℕ) (ts : List Tok) → part (as_group (valued x ts turn.now)) 0 ≡ there x ts result }
    ensures below { IfSome result (λ t. length t.parts.entries.now < length turn.now.parts.entries.now) }
{
    turn.group().part(0)
}

/// The property in a turn, before these turns and after the property that ends there; where the last one ends that stays.
#[cycle(walk)]
#[tactic(auto, using(crate::proofs::Props::turn_stays, crate::proofs::Props::turn_goes))]
fn next_prop(
    out: &mut Draft,
    tokens: &[Token],
    turn: &Item<'_>,
    end: Option<u32>,
    rest: &Siblings<'_>,
) -> Option<u32>
    ensures before { out.new.failed ≡ false → out.old.failed ≡ false }
    ensures state { state_of out.new ≡ state_of out.old }
    ensures written { out.new.failed ≡ false → (env : Env) (x : List ℕ) → IfThere (λ it. PutsAll x tokens.now (λ v. type_prop_at (as_group v) 0) out.old.row out.new.row (option_list (shown_pat_prop env it))) (pat_prop_at (as_group (valued x tokens.now turn.now)) 0) }
{
    match part_in(turn) {
        Some(it) => {
            if prop_turn(out, tokens, &it) {
                return Some(it.to);
            }
            drop_prop(out, &it, end, rest);
            end
        }
        None => {
            out.fail();
            end
        }
    }
}

/// Drops a property, with the comma after it or the one after the last property that stays.
fn drop_prop(out: &mut Draft, it: &Item<'_>, end: Option<u32>, rest: &Siblings<'_>)
    ensures before { out.new.failed ≡ false → out.old.failed ≡ false }
    ensures state { state_of out.new ≡ state_of out.old }
    ensures written { out.new.failed ≡ false → (x : List ℕ) (ts : List Tok) → Writes x ts out.old.row out.new.row [] }
{
    if let Some((turn, _)) = rest.split() {
        if let Some(next) = part_in(&turn) {
            out.dropped(it.from, next.from);
            return;
        }
    }
    match end {
        Some(end) => out.dropped(end, it.to),
        None => out.dropped(it.from, it.to),
    }
}

/// A property as a turn, where it stays.
#[cycle(walk)]
fn prop_turn(out: &mut Draft, tokens: &[Token], it: &Item<'_>) -> bool
    ensures before { out.new.failed ≡ false → out.old.failed ≡ false }
    ensures state { state_of out.new ≡ state_of out.old }
    ensures written { out.new.failed ≡ false → (env : Env) (x : List ℕ) → IfThere (IsPropTurn env x tokens.now out.old.row out.new.row result) (pat_prop_in (valued x tokens.now it.now)) }
{
    let place = out.open();
    if prop(out, tokens, it) {
        out.close_group(place);
        return true;
    }
    out.back_to(place);
    false
}

/// A property, where it stays.
#[cycle(walk)]
fn prop(out: &mut Draft, tokens: &[Token], it: &Item<'_>) -> bool
    ensures before { out.new.failed ≡ false → out.old.failed ≡ false }
    ensures state { state_of out.new ≡ state_of out.old }
    ensures written { out.new.failed ≡ false → (env : Env) (x : List ℕ) → IfThere (IsProp env x tokens.now out.old.row out.new.row result) (pat_prop_in (valued x tokens.now it.now)) }
{
    match pat_prop_at(it) {
        Some(PatProp::Rest(inner)) => {
            rest_prop(out, tokens, &inner, it.from, it.to);
            true
        }
        Some(PatProp::KeyValue { key, pat, value: _ }) => key_prop(
            out, tokens, &key, &pat, it.from, it.to,
        ),
        Some(PatProp::Shorthand { name, value: _ }) => {
            name_prop(out, name, it.to);
            true
        }
        Some(PatProp::Broken) => {
            out.fail();
            true
        }
        None => {
            out.fail();
            true
        }
    }
}

/// `...a`
#[cycle(walk)]
#[tactic(auto, using(crate::proofs::Props::rest_written))]
fn rest_prop(out: &mut Draft, tokens: &[Token], inner: &Item<'_>, from: u32, to: u32)
    ensures before { out.new.failed ≡ false → out.old.failed ≡ false }
    ensures state { state_of out.new ≡ state_of out.old }
    ensures written { out.new.failed ≡ false → (env : Env) (x : List ℕ) → IfThere (IsProp env x tokens.now out.old.row out.new.row true) (prop_view.rest (span_of tokens.now from to) (pat_in (valued x tokens.now inner.now))) }
{
    let place = out.open();
    pattern(out, tokens, inner);
    out.close_node(place, NodeKind::RestPropertyOfType, from, to);
}

/// `a: b`, where a type may have the key.
#[cycle(walk)]
#[tactic(auto, using(crate::proofs::Props::key_written, crate::proofs::Props::key_none))]
fn key_prop(
    out: &mut Draft,
    tokens: &[Token],
    key: &Item<'_>,
    pat: &Item<'_>,
    from: u32,
    to: u32,
) -> bool
    ensures before { out.new.failed ≡ false → out.old.failed ≡ false }
    ensures state { state_of out.new ≡ state_of out.old }
    ensures written { out.new.failed ≡ false → (env : Env) (x : List ℕ) (span : ARange) (value : Value) → IfThere (IsProp env x tokens.now out.old.row out.new.row result) (prop_view.key_value span (span_of tokens.now from to) (key_in (valued x tokens.now key.now)) (pat_in (valued x tokens.now pat.now)) value) }
{
    let place = out.open();
    if !pattern_key(out, tokens, key) {
        out.back_to(place);
        return false;
    }
    pattern(out, tokens, pat);
    out.gone(to);
    out.close_node(place, NodeKind::KeyProperty, from, to);
    true
}

/// `a`, where the text continues after its default.
#[tactic(auto, using(crate::proofs::Props::name_written))]
fn name_prop(out: &mut Draft, name: u32, to: u32)
    ensures before { out.new.failed ≡ false → out.old.failed ≡ false }
    ensures state { state_of out.new ≡ state_of out.old }
    ensures written { out.new.failed ≡ false → (env : Env) (x : List ℕ) (ts : List Tok) (r : ARange) (value : Value) → IfThere (IsProp env x ts out.old.row out.new.row true) (prop_view.shorthand x r (slice_get ts name) value) }
{
    out.leaf_node(NodeKind::NamePropertyOfType, name);
    out.gone(to);
}
