//! Members of types in braces where the value is frozen: each must be a property or an index signature, and is `readonly`.

ghost use Rattle.std.specs.Prelude.{◌≡◌, ◌<◌, ◌≤◌, length, false, true, ℕ, List, [], ◌∷◌};
ghost use Rattle.es_token.specs.declared.token.Token.{Token as Tok};
ghost use Rattle.es_grammar.specs.declared.rows.NodeKind.TheVariants as l;
ghost use Rattle.es_lowering.specs.Lowering.{packed, type_of, type_member_of};
ghost use Rattle.es_lowering.specs.Texts.{span_of};
ghost use Rattle.es_lowering.specs.Value.{turns, type_member_at, as_group};
ghost use Rattle.es_syntax.specs.Held.{held, valued};
ghost use Rattle.es_syntax.specs.Roles.{ts_type_in, type_member_in};
ghost use Rattle.es_syntax.specs.Views.{is_one_of};
ghost use Rattle.es_changed.specs.declared.entry.Form.TheVariants as form;
ghost use Rattle.es_changed.specs.Formed.{formed};
ghost use Rattle.es_changed.specs.Shape.{Writes};
ghost use Rattle.dts_rules.specs.Made as rule;
ghost use Rattle.dts_draft.specs.Drafts.{state_of};
ghost use Rattle.dts_draft.specs.Written.{IfThere};
ghost use Rattle.dts_kept.specs.Kept.{member_labels, IsFrozen, IsMember, IsTurn, AllGive};

use dts_draft::Draft;
use es_changed::Form;
use es_grammar::NodeKind;
use es_syntax::{Item, Siblings, What};

/// Whether a member of this alternative may be `readonly`.
fn may_mark(label: NodeKind) -> bool
    ensures { is_one_of member_labels label ≡ result }
{
    match label {
        NodeKind::IndexSignature => true,
        NodeKind::PropertySignature => true,
        NodeKind::ReadonlyProperty => true,
        _ => false,
    }
}

/// A member that becomes `readonly`.
fn marked(out: &mut Draft, member: &Item<'_>)
    ensures before { out.new.failed ≡ false → out.old.failed ≡ false }
    ensures state { state_of out.new ≡ state_of out.old }
    ensures written { out.new.failed ≡ false → (x : List ℕ) (ts : List Tok) → Writes x ts out.old.row out.new.row (formed x ts form.ReadonlyMember 0 0 (packed (valued x ts member.now ∷ [])) ∷ []) }
{
    out.dropped(member.from, member.from);
    let place = out.open();
    out.keep_there(member);
    out.close_form(place, Form::ReadonlyMember);
}

/// An index signature.
#[tactic(auto, using(crate::proofs::MemberLemmas::index_already, crate::proofs::MemberLemmas::index_marked))]
fn index(out: &mut Draft, member: &Item<'_>)
    ensures before { out.new.failed ≡ false → out.old.failed ≡ false }
    ensures state { state_of out.new ≡ state_of out.old }
    ensures written { out.new.failed ≡ false → (x : List ℕ) (ts : List Tok) → type_member_in (valued x ts member.now) ≡ type_member_of x ts l.IndexSignature (span_of ts member.now.from member.now.to) (held x ts member.now.parts.entries.now) → IfThere (IsMember x ts out.old.row out.new.row true) (type_member_in (valued x ts member.now)) }
{
    if member.parts.has(0) {
        out.keep_there(member);
    } else {
        marked(out, member);
    }
}

/// A member of such an alternative.
#[tactic(auto, using(crate::proofs::MemberLemmas::property_marked, crate::proofs::MemberLemmas::property_already))]
fn member_node(out: &mut Draft, label: NodeKind, member: &Item<'_>) -> bool
    ensures before { out.new.failed ≡ false → out.old.failed ≡ false }
    ensures state { state_of out.new ≡ state_of out.old }
    ensures written { out.new.failed ≡ false → is_one_of member_labels label ≡ true → (x : List ℕ) (ts : List Tok) → type_member_in (valued x ts member.now) ≡ type_member_of x ts label (span_of ts member.now.from member.now.to) (held x ts member.now.parts.entries.now) → IfThere (IsMember x ts out.old.row out.new.row result) (type_member_in (valued x ts member.now)) }
{
    match label {
        NodeKind::IndexSignature => {
            index(out, member);
            true
        }
        NodeKind::PropertySignature => {
            marked(out, member);
            true
        }
        NodeKind::ReadonlyProperty => {
            out.keep_there(member);
            true
        }
        _ => false,
    }
}

/// A member, where it may be `readonly`; else nothing is written.
fn frozen_member(out: &mut Draft, member: &Item<'_>) -> bool
    ensures before { out.new.failed ≡ false → out.old.failed ≡ false }
    ensures state { state_of out.new ≡ state_of out.old }
    ensures written { out.new.failed ≡ false → (x : List ℕ) (ts : List Tok) → IfThere (IsMember x ts out.old.row out.new.row result) (type_member_in (valued x ts member.now)) }
{
    match member.what {
        What::Node(label) => {
            if may_mark(label) {
                member_node(out, label, member)
            } else {
                false
            }
        }
        What::Lean(_) => {
            out.fail();
            false
        }
        What::Leaf => {
            out.fail();
            false
        }
        What::Role(_) => {
            out.fail();
            false
        }
        What::Parts => {
            out.fail();
            false
        }
    }
}

/// A member in its turn.
fn member_turn(out: &mut Draft, turn: &Item<'_>) -> bool
    ensures before { out.new.failed ≡ false → out.old.failed ≡ false }
    ensures state { state_of out.new ≡ state_of out.old }
    ensures written { out.new.failed ≡ false → (x : List ℕ) (ts : List Tok) → IfThere (IsTurn x ts out.old.row out.new.row result) (type_member_at (as_group (valued x ts turn.now)) 0) }
{
    match turn.group().part(0) {
        Some(member) => {
            let group = out.open();
            let there = frozen_member(out, &member);
            out.close_group(group);
            there
        }
        None => {
            out.fail();
            false
        }
    }
}

/// All members, up to the first that can't be `readonly`.
#[tactic(auto, using(crate::proofs::MemberLemmas::members_all))]
fn all_members(out: &mut Draft, members: &Siblings<'_>) -> bool
    ensures before { out.new.failed ≡ false → out.old.failed ≡ false }
    ensures state { state_of out.new ≡ state_of out.old }
    ensures written { out.new.failed ≡ false → (x : List ℕ) (ts : List Tok) → IfThere (λ ms. AllGive x ts out.old.row out.new.row result (rule.frozen_members ms)) (turns (λ turn. type_member_at turn 0) (held x ts members.now.entries.now)) }
{
    let mut row = *members;
    while let Some((turn, rest)) = row.split() {
        if !member_turn(out, &turn) {
            return false;
        }
        row = rest;
    }
    true
}

/// A type in braces.
pub(crate) fn frozen_members(out: &mut Draft, ty: &Item<'_>) -> bool
    ensures before { out.new.failed ≡ false → out.old.failed ≡ false }
    ensures state { state_of out.new ≡ state_of out.old }
    ensures written { out.new.failed ≡ false → (x : List ℕ) (ts : List Tok) → ts_type_in (valued x ts ty.now) ≡ type_of x ts l.MembersType (span_of ts ty.now.from ty.now.to) (held x ts ty.now.parts.entries.now) → IfThere (IsFrozen x ts out.old.row out.new.row result) (ts_type_in (valued x ts ty.now)) }
{
    let members = ty.parts.group_at(0);
    let start = out.len();
    out.gone(ty.from);
    let place = out.open();
    let group = out.open();
    if !all_members(out, &members) {
        out.back_to(start);
        return false;
    }
    out.close_group(group);
    out.close_node(place, NodeKind::MembersType, ty.from, ty.to);
    true
}
