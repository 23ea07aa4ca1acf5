//! Enums.

ghost use Rattle.std.specs.Prelude.{◌≡◌, false, ℕ, List};
ghost use Rattle.es_token.specs.declared.token.Token.{Token as Tok};
ghost use Rattle.es_lowering.specs.Value.{as_group, behind, part, turns};
ghost use Rattle.es_lowering.specs.Texts.{span_of};
ghost use Rattle.es_lowering.specs.TypedStatements.{enum_, enum_member};
ghost use Rattle.es_syntax.specs.declared.entry.What.TheVariants as vWhat;
ghost use Rattle.es_syntax.specs.Held.{held, valued};
ghost use Rattle.es_syntax.specs.Roles.{declarable_in};
ghost use Rattle.dts_rules.specs.Rules.{Env};
ghost use Rattle.dts_draft.specs.Drafts.{state_of};
ghost use Rattle.dts_draft.specs.Written.{IfThere};
ghost use Rattle.dts_enums.specs.Enums.{KeyUpTo, MemberPuts, MembersPut, Declares, IsBare};

use crate::copies::{keep_others, keep_part, keep_parts};
use crate::values::starts_enum;
use dts_draft::Draft;
use es_grammar::NodeKind;
use es_syntax::{Item, Siblings, What};
use es_token::Token;

/// A key that ends where a value did, which is dropped.
#[tactic(auto, using(crate::proofs::EnumLemmas::key_written))]
fn key_node(out: &mut Draft, label: NodeKind, key: &Item<'_>, to: u32)
    ensures before { out.new.failed ≡ false → out.old.failed ≡ false }
    ensures state { state_of out.new ≡ state_of out.old }
    ensures written { out.new.failed ≡ false → key.now.what ≡ vWhat.Node label → (x : List ℕ) (ts : List Tok) → KeyUpTo x ts out.old.row out.new.row (valued x ts key.now) to }
{
    let place = out.open();
    keep_parts(out, &key.parts);
    out.dropped(key.to, to);
    out.close_node(place, label, key.from, to);
}

/// The same of any key.
fn key_up_to(out: &mut Draft, key: &Item<'_>, to: u32)
    ensures before { out.new.failed ≡ false → out.old.failed ≡ false }
    ensures state { state_of out.new ≡ state_of out.old }
    ensures written { out.new.failed ≡ false → (x : List ℕ) (ts : List Tok) → KeyUpTo x ts out.old.row out.new.row (valued x ts key.now) to }
{
    match key.what {
        What::Node(label) => key_node(out, label, key, to),
        What::Leaf => out.fail(),
        What::Role(_) => out.fail(),
        What::Parts => out.fail(),
        What::Lean(_) => out.fail(),
    }
}

/// A member of these parts without its value, which ends here.
#[tactic(auto, using(crate::proofs::EnumLemmas::bare_written))]
fn bare_turn(out: &mut Draft, key: &Item<'_>, rest: &Siblings<'_>, to: u32)
    ensures before { out.new.failed ≡ false → out.old.failed ≡ false }
    ensures state { state_of out.new ≡ state_of out.old }
    ensures written { out.new.failed ≡ false → (x : List ℕ) (ts : List Tok) → IsBare x ts out.old.row out.new.row (valued x ts key.now) to }
{
    let turn = out.open();
    key_up_to(out, key, to);
    out.absent();
    keep_others(out, rest);
    out.close_group(turn);
}

/// A member without its value.
#[tactic(auto, using(crate::proofs::EnumLemmas::bare_at))]
fn bare_member(out: &mut Draft, parts: &Siblings<'_>, value: &Item<'_>)
    ensures before { out.new.failed ≡ false → out.old.failed ≡ false }
    ensures state { state_of out.new ≡ state_of out.old }
    ensures written { out.new.failed ≡ false → (x : List ℕ) (ts : List Tok) → IsBare x ts out.old.row out.new.row (part (held x ts parts.now.entries.now) 0) (behind (valued x ts value.now)) }
{
    match value.place() {
        Some((_, to)) => match parts.split() {
            Some((key, rest)) => bare_turn(out, &key, &rest, to),
            None => out.fail(),
        },
        None => out.fail(),
    }
}

/// A member, which keeps only a value that its declaration may have.
#[tactic(auto, using(crate::proofs::EnumLemmas::member_none, crate::proofs::EnumLemmas::member_kept, crate::proofs::EnumLemmas::member_bare))]
fn member(out: &mut Draft, tokens: &[Token], turn: &Item<'_>)
    ensures before { out.new.failed ≡ false → out.old.failed ≡ false }
    ensures state { state_of out.new ≡ state_of out.old }
    ensures written { out.new.failed ≡ false → (x : List ℕ) (by : Env) → IfThere (MemberPuts x tokens.now by out.old.row out.new.row) (enum_member tokens.now (as_group (valued x tokens.now turn.now))) }
{
    let parts = turn.group();
    match parts.group_at(1).split() {
        Some((value, _)) => {
            if starts_enum(tokens, &value) {
                out.keep_there(turn);
            } else {
                bare_member(out, &parts, &value);
            }
        }
        None => out.keep_there(turn),
    }
}

/// All members.
#[tactic(auto, using(crate::proofs::EnumLemmas::members_all, crate::proofs::EnumLemmas::members_done))]
fn all_members(out: &mut Draft, tokens: &[Token], members: &Siblings<'_>)
    ensures before { out.new.failed ≡ false → out.old.failed ≡ false }
    ensures state { state_of out.new ≡ state_of out.old }
    ensures written { out.new.failed ≡ false → (x : List ℕ) (by : Env) → IfThere (MembersPut x tokens.now by out.old.row out.new.row) (turns (enum_member tokens.now) (held x tokens.now members.now.entries.now)) }
{
    let mut row = *members;
    while let Some((turn, rest)) = row.split() {
        member(out, tokens, &turn);
        row = rest;
    }
}

/// An enum over these parts, from one token up to another.
#[tactic(auto, using(crate::proofs::EnumLemmas::enum_written))]
fn enum_node(out: &mut Draft, tokens: &[Token], from: u32, to: u32, parts: &Siblings<'_>)
    ensures before { out.new.failed ≡ false → out.old.failed ≡ false }
    ensures state { state_of out.new ≡ state_of out.old }
    ensures written { out.new.failed ≡ false → (x : List ℕ) (by : Env) → IfThere (Declares x tokens.now by out.old out.new (span_of tokens.now from to)) (enum_ x tokens.now (held x tokens.now parts.now.entries.now)) }
{
    let place = out.open();
    keep_part(out, parts, 0);
    keep_part(out, parts, 1);
    let group = out.open();
    all_members(out, tokens, &parts.group_at(2));
    out.close_group(group);
    out.close_node(place, NodeKind::EnumDeclaration, from, to);
}

/// Writes an enum, whose members keep only the values that its declaration may have.
#[tactic(auto, using(crate::proofs::EnumLemmas::enum_there))]
pub fn enum_declaration(out: &mut Draft, tokens: &[Token], it: &Item<'_>)
    ensures before { out.new.failed ≡ false → out.old.failed ≡ false }
    ensures state { state_of out.new ≡ state_of out.old }
    ensures written { out.new.failed ≡ false → (x : List ℕ) (by : Env) → IfThere (Declares x tokens.now by out.old out.new (span_of tokens.now it.now.from it.now.to)) (declarable_in (valued x tokens.now it.now)) }
{
    match it.what {
        What::Node(label) => match label {
            NodeKind::EnumDeclaration => enum_node(out, tokens, it.from, it.to, &it.parts),
            _ => out.fail(),
        },
        What::Leaf => out.fail(),
        What::Role(_) => out.fail(),
        What::Parts => out.fail(),
        What::Lean(_) => out.fail(),
    }
}
