//! Keys of objects as keys of types.

ghost use Rattle.std.specs.Prelude.{◌≡◌, ◌+◌, false, true, ℕ, List, slice_get};
ghost use Rattle.es_token.specs.declared.token.Token.{Token as Tok};
ghost use Rattle.es_token.specs.declared.token.TokenKind.TheVariants as k;
ghost use Rattle.es_lowering.specs.Texts.{span_of};
ghost use Rattle.es_syntax.specs.Held.{valued};
ghost use Rattle.es_syntax.specs.Roles.{expr_in, key_in};
ghost use Rattle.es_syntax.specs.Views.{is_one_of};
ghost use Rattle.es_view_expressions.specs.expr.Primary as primary;
ghost use Rattle.es_view_expressions.specs.member.Key as key_view;
ghost use Rattle.dts_rules.specs.Rules.{Env};
ghost use Rattle.dts_draft.specs.Drafts.{is_kind, state_of};
ghost use Rattle.dts_draft.specs.Written.{IfThere};
ghost use Rattle.dts_keys.specs.Keys.{IsInBrackets, IsTypeKey, keyed};

use crate::chains::{chain_key, is_over};
use dts_draft::{Draft, is_kind};
use es_changed::Form;
use es_grammar::NodeKind;
use es_syntax::{Item, What};
use es_token::{Token, TokenKind};
use es_view_expressions::call::{Call, call_at};
use es_view_expressions::expr::{Primary, primary_at};
use es_view_expressions::member::{Key, key_at};

/// Whether a node of this alternative may be the key of a type in brackets.
fn may_be_key(label: NodeKind) -> bool
    ensures { is_one_of keyed label ≡ result }
{
    match label {
        NodeKind::Name => true,
        NodeKind::Word => true,
        NodeKind::Number => true,
        NodeKind::Str => true,
        NodeKind::Chain => true,
        _ => false,
    }
}

/// A number or a BigInt in brackets.
#[tactic(auto, using(crate::proofs::KeyLemmas::number_written))]
fn number_key(out: &mut Draft, at: u32)
    ensures before { out.new.failed ≡ false → out.old.failed ≡ false }
    ensures state { state_of out.new ≡ state_of out.old }
    ensures written { out.new.failed ≡ false → (env : Env) (x : List ℕ) (ts : List Tok) → IfThere (IsInBrackets env x ts out.old.row out.new.row true) (primary.number x (slice_get ts at)) }
{
    out.gone(at);
    out.leaf_form(Form::NumberKey, at);
}

/// A string in brackets.
#[tactic(auto, using(crate::proofs::KeyLemmas::str_written))]
fn str_key(out: &mut Draft, at: u32)
    ensures before { out.new.failed ≡ false → out.old.failed ≡ false }
    ensures state { state_of out.new ≡ state_of out.old }
    ensures written { out.new.failed ≡ false → (env : Env) (x : List ℕ) (ts : List Tok) → IfThere (IsInBrackets env x ts out.old.row out.new.row true) (primary.str x (slice_get ts at)) }
{
    out.gone(at);
    out.leaf_form(Form::StrKey, at);
}

/// A name in brackets.
fn name_key(out: &mut Draft, at: u32)
    ensures before { out.new.failed ≡ false → out.old.failed ≡ false }
    ensures state { state_of out.new ≡ state_of out.old }
    ensures written { out.new.failed ≡ false → (env : Env) (x : List ℕ) (ts : List Tok) → IfThere (IsInBrackets env x ts out.old.row out.new.row true) (primary.ident x (slice_get ts at)) }
{
    let place = out.open();
    out.gone(at);
    out.leaf_form(Form::Path, at);
    out.close_form(place, Form::EntityKey);
}

/// `this` in brackets.
fn this_key(out: &mut Draft, at: u32)
    ensures before { out.new.failed ≡ false → out.old.failed ≡ false }
    ensures state { state_of out.new ≡ state_of out.old }
    ensures written { out.new.failed ≡ false → (env : Env) (x : List ℕ) (ts : List Tok) → is_kind k.ThisWord (slice_get ts at) ≡ true → IfThere (IsInBrackets env x ts out.old.row out.new.row true) (primary.word (span_of ts at (at + 1)) (slice_get ts at)) }
{
    let place = out.open();
    out.gone(at);
    out.leaf_form(Form::ThisPath, at);
    out.close_form(place, Form::EntityKey);
}

/// A word in brackets, in a node from one token up to another one: `this` alone is a key.
#[tactic(auto, using(crate::proofs::KeyLemmas::this_over, crate::proofs::KeyLemmas::word_none))]
fn word_key(out: &mut Draft, tokens: &[Token], it: &Item<'_>, at: u32) -> bool
    ensures before { out.new.failed ≡ false → out.old.failed ≡ false }
    ensures state { state_of out.new ≡ state_of out.old }
    ensures written { out.new.failed ≡ false → (env : Env) (x : List ℕ) → IfThere (IsInBrackets env x tokens.now out.old.row out.new.row result) (primary.word (span_of tokens.now it.now.from it.now.to) (slice_get tokens.now at)) }
{
    if !is_kind(tokens, at, TokenKind::ThisWord) {
        return false;
    }
    if is_over(it, at) {
        this_key(out, at);
    } else {
        out.fail();
    }
    true
}

/// A node in brackets.
fn node_key(out: &mut Draft, tokens: &[Token], it: &Item<'_>) -> bool
    ensures before { out.new.failed ≡ false → out.old.failed ≡ false }
    ensures state { state_of out.new ≡ state_of out.old }
    ensures written { out.new.failed ≡ false → (env : Env) (x : List ℕ) → IfThere (IsInBrackets env x tokens.now out.old.row out.new.row result) (expr_in (valued x tokens.now it.now)) }
{
    match primary_at(it) {
        Some(Primary::Str(at)) => {
            str_key(out, at);
            true
        }
        Some(Primary::Number(at)) => {
            number_key(out, at);
            true
        }
        Some(Primary::Ident(at)) => {
            name_key(out, at);
            true
        }
        Some(Primary::Word(at)) => word_key(out, tokens, it, at),
        Some(_) => {
            out.fail();
            false
        }
        None => chained_key(out, tokens, it),
    }
}

/// A chain in brackets.
fn chained_key(out: &mut Draft, tokens: &[Token], it: &Item<'_>) -> bool
    ensures before { out.new.failed ≡ false → out.old.failed ≡ false }
    ensures state { state_of out.new ≡ state_of out.old }
    ensures written { out.new.failed ≡ false → (env : Env) (x : List ℕ) → IfThere (IsInBrackets env x tokens.now out.old.row out.new.row result) (expr_in (valued x tokens.now it.now)) }
{
    match call_at(it) {
        Some(
            Call::Chain {
                base,
                first,
                others,
            },
        ) => chain_key(out, tokens, it, &base, &first, &others),
        Some(_) => {
            out.fail();
            false
        }
        None => {
            out.fail();
            false
        }
    }
}

/// An expression in brackets.
#[tactic(auto, using(crate::proofs::KeyLemmas::node_none))]
fn bracketed_key(out: &mut Draft, tokens: &[Token], it: &Item<'_>) -> bool
    ensures before { out.new.failed ≡ false → out.old.failed ≡ false }
    ensures state { state_of out.new ≡ state_of out.old }
    ensures written { out.new.failed ≡ false → (env : Env) (x : List ℕ) → IfThere (IsInBrackets env x tokens.now out.old.row out.new.row result) (expr_in (valued x tokens.now it.now)) }
{
    match it.what {
        What::Node(label) => {
            if may_be_key(label) {
                return node_key(out, tokens, it);
            }
            false
        }
        What::Lean(_) => false,
        What::Leaf => {
            out.fail();
            false
        }
        What::Role(_) => {
            out.fail();
            false
        }
        What::Parts => {
            out.fail();
            false
        }
    }
}

/// A word.
fn plain_word(out: &mut Draft, at: u32)
    ensures before { out.new.failed ≡ false → out.old.failed ≡ false }
    ensures state { state_of out.new ≡ state_of out.old }
    ensures written { out.new.failed ≡ false → (env : Env) (x : List ℕ) (ts : List Tok) → IfThere (IsTypeKey env x ts out.old.row out.new.row true) (key_view.word x (slice_get ts at)) }
{
    out.gone(at);
    out.leaf_node(NodeKind::WordKeyOfType, at);
}

/// A string.
fn plain_str(out: &mut Draft, at: u32)
    ensures before { out.new.failed ≡ false → out.old.failed ≡ false }
    ensures state { state_of out.new ≡ state_of out.old }
    ensures written { out.new.failed ≡ false → (env : Env) (x : List ℕ) (ts : List Tok) → IfThere (IsTypeKey env x ts out.old.row out.new.row true) (key_view.str x (slice_get ts at)) }
{
    out.gone(at);
    out.leaf_node(NodeKind::StrKeyOfType, at);
}

/// Writes a key of an object as that of a type, where the text continues with it, and answers whether it may be one: of another one
/// nothing is written. What no grammar makes is reported as out of memory.
#[tactic(auto, using(crate::proofs::KeyLemmas::number_is, crate::proofs::KeyLemmas::computed_is, crate::proofs::KeyLemmas::private_is))]
pub fn type_key(out: &mut Draft, tokens: &[Token], key: &Item<'_>) -> bool
    ensures before { out.new.failed ≡ false → out.old.failed ≡ false }
    ensures state { state_of out.new ≡ state_of out.old }
    ensures written { out.new.failed ≡ false → (env : Env) (x : List ℕ) → IfThere (IsTypeKey env x tokens.now out.old.row out.new.row result) (key_in (valued x tokens.now key.now)) }
{
    match key_at(key) {
        Some(Key::Word(at)) => {
            plain_word(out, at);
            true
        }
        Some(Key::Str(at)) => {
            plain_str(out, at);
            true
        }
        Some(Key::Number(at)) => {
            number_key(out, at);
            true
        }
        Some(Key::Computed(inner)) => bracketed_key(out, tokens, &inner),
        Some(Key::Private(_)) => false,
        Some(Key::Broken) => {
            out.fail();
            false
        }
        None => {
            out.fail();
            false
        }
    }
}
