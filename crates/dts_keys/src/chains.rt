//! Names with dots as keys.

ghost use Rattle.std.specs.Prelude.{◌≡◌, ◌+◌, false, true, ℕ, List, [], slice_get};
ghost use Rattle.base.specs.declared.range.Range.{Range as ARange};
ghost use Rattle.es_ast.specs.declared.ast.Expr.{Expr};
ghost use Rattle.es_changed.specs.Formed.{left_of};
ghost use Rattle.es_lowering.specs.Value.{post_at, turns};
ghost use Rattle.es_lowering.specs.Texts.{span_of};
ghost use Rattle.es_lowering.specs.Expressions.{chained};
ghost use Rattle.es_syntax.specs.Held.{held, valued};
ghost use Rattle.es_syntax.specs.Roles.{expr_in, post_in};
ghost use Rattle.es_syntax.specs.Views.{is_one_of};
ghost use Rattle.es_view_expressions.specs.call.Call as call;
ghost use Rattle.es_view_expressions.specs.expr.Primary as primary;
ghost use Rattle.dts_rules.specs.Rules.{Env};
ghost use Rattle.dts_draft.specs.Drafts.{state_of};
ghost use Rattle.dts_draft.specs.Written.{IfThere};
ghost use Rattle.dts_keys.specs.Keys.{IsInBrackets, IsName, IsNone, Chained, beginning, path_form, posts_of};

use crate::posts::{post_end, posts_end};
use dts_draft::{Draft, is_kind};
use es_changed::{Change, Form};
use es_grammar::NodeKind;
use es_syntax::{Item, Siblings, What};
use es_token::{Token, TokenKind};
use es_view_expressions::expr::{Primary, primary_at};

/// The form of a path that begins with `this`, or with a name.
fn path_form(this: bool) -> Form
    ensures { path_form this ≡ result }
{
    if this {
        return Form::ThisPath;
    }
    Form::Path
}

/// Whether a node of this alternative may begin a name with dots.
fn may_begin(label: NodeKind) -> bool
    ensures { is_one_of beginning label ≡ result }
{
    match label {
        NodeKind::Name => true,
        NodeKind::Word => true,
        NodeKind::Chain => true,
        _ => false,
    }
}

/// The further parts of a chain, behind a name or not: where the name with them ends, where there is one.
fn chain_end(
    out: &mut Draft,
    tokens: &[Token],
    first: &Item<'_>,
    others: &Siblings<'_>,
    named: bool,
) -> Option<u32>
    ensures before { out.new.failed ≡ false → out.old.failed ≡ false }
    ensures state { state_of out.new ≡ state_of out.old }
    ensures written { out.new.failed ≡ false → (env : Env) (x : List ℕ) → IfThere (Chained env x tokens.now named out.old.row out.new.row result) (posts_of (post_in (valued x tokens.now first.now)) (turns (λ turn. post_at turn 0) (held x tokens.now others.now.entries.now))) }
{
    let end = post_end(out, tokens, first, named);
    posts_end(out, tokens, others, end)
}

/// A chain that begins with this token, `this` or a name, in a node from one token up to another one.
fn path_key(
    out: &mut Draft,
    tokens: &[Token],
    this: bool,
    at: u32,
    from: u32,
    to: u32,
    first: &Item<'_>,
    others: &Siblings<'_>,
) -> bool
    ensures before { out.new.failed ≡ false → out.old.failed ≡ false }
    ensures state { state_of out.new ≡ state_of out.old }
    ensures written { out.new.failed ≡ false → (env : Env) (x : List ℕ) → IfThere (λ t. (base : Expr) (span : ARange) → IsName env x tokens.now (left_of x tokens.now this t) [] span base → IfThere (λ posts. IsInBrackets env x tokens.now out.old.row out.new.row result (chained (span_of tokens.now from to).start base posts)) (posts_of (post_in (valued x tokens.now first.now)) (turns (λ turn. post_at turn 0) (held x tokens.now others.now.entries.now)))) (slice_get tokens.now at) }
{
    let place = out.open();
    out.gone(at);
    let path = out.open();
    out.token(at);
    match chain_end(out, tokens, first, others, true) {
        Some(end) => {
            if end != to {
                out.fail();
                return true;
            }
            out.close(path, Change::Form(path_form(this)), from, end);
            out.close_form(place, Form::EntityKey);
            true
        }
        None => {
            out.back_to(place);
            false
        }
    }
}

/// A chain that begins with what is no name: it is none.
fn nameless_key(out: &mut Draft, tokens: &[Token], first: &Item<'_>, others: &Siblings<'_>) -> bool
    ensures before { out.new.failed ≡ false → out.old.failed ≡ false }
    ensures state { state_of out.new ≡ state_of out.old }
    ensures written { out.new.failed ≡ false → (env : Env) (x : List ℕ) (start : ℕ) (base : Expr) → IsNone env x tokens.now base → IfThere (λ posts. IsInBrackets env x tokens.now out.old.row out.new.row result (chained start base posts)) (posts_of (post_in (valued x tokens.now first.now)) (turns (λ turn. post_at turn 0) (held x tokens.now others.now.entries.now))) }
{
    let place = out.open();
    match chain_end(out, tokens, first, others, false) {
        Some(_) => {
            out.fail();
            false
        }
        None => {
            out.back_to(place);
            false
        }
    }
}

/// A chain that begins with `this`, another word, or a name.
fn named_chain(
    out: &mut Draft,
    tokens: &[Token],
    e: &Item<'_>,
    base: &Item<'_>,
    first: &Item<'_>,
    others: &Siblings<'_>,
) -> bool
    ensures before { out.new.failed ≡ false → out.old.failed ≡ false }
    ensures state { state_of out.new ≡ state_of out.old }
    ensures written { out.new.failed ≡ false → (env : Env) (x : List ℕ) → IfThere (IsInBrackets env x tokens.now out.old.row out.new.row result) (call.chained_of (span_of tokens.now e.now.from e.now.to) (expr_in (valued x tokens.now base.now)) (post_in (valued x tokens.now first.now)) (held x tokens.now others.now.entries.now)) }
{
    match primary_at(base) {
        Some(Primary::Ident(at)) => ident_chain(out, tokens, e, at, first, others),
        Some(Primary::Word(at)) => word_chain(out, tokens, e, base, at, first, others),
        Some(_) => {
            out.fail();
            false
        }
        None => {
            out.fail();
            false
        }
    }
}

/// A chain that begins with this name.
fn ident_chain(
    out: &mut Draft,
    tokens: &[Token],
    e: &Item<'_>,
    at: u32,
    first: &Item<'_>,
    others: &Siblings<'_>,
) -> bool
    ensures before { out.new.failed ≡ false → out.old.failed ≡ false }
    ensures state { state_of out.new ≡ state_of out.old }
    ensures written { out.new.failed ≡ false → (env : Env) (x : List ℕ) → IfThere (IsInBrackets env x tokens.now out.old.row out.new.row result) (call.chained_of (span_of tokens.now e.now.from e.now.to) (primary.ident x (slice_get tokens.now at)) (post_in (valued x tokens.now first.now)) (held x tokens.now others.now.entries.now)) }
{
    path_key(out, tokens, false, at, e.from, e.to, first, others)
}

/// A chain that begins with this word.
fn word_chain(
    out: &mut Draft,
    tokens: &[Token],
    e: &Item<'_>,
    base: &Item<'_>,
    at: u32,
    first: &Item<'_>,
    others: &Siblings<'_>,
) -> bool
    ensures before { out.new.failed ≡ false → out.old.failed ≡ false }
    ensures state { state_of out.new ≡ state_of out.old }
    ensures written { out.new.failed ≡ false → (env : Env) (x : List ℕ) → IfThere (IsInBrackets env x tokens.now out.old.row out.new.row result) (call.chained_of (span_of tokens.now e.now.from e.now.to) (primary.word (span_of tokens.now base.now.from base.now.to) (slice_get tokens.now at)) (post_in (valued x tokens.now first.now)) (held x tokens.now others.now.entries.now)) }
{
    if !is_kind(tokens, at, TokenKind::ThisWord) {
        return nameless_key(out, tokens, first, others);
    }
    if !is_over(base, at) {
        out.fail();
        return false;
    }
    path_key(out, tokens, true, at, e.from, e.to, first, others)
}

/// Whether a node stands over this token alone.
pub(crate) fn is_over(node: &Item<'_>, at: u32) -> bool
    ensures { result ≡ true → (node.now.from ≡ at) × (node.now.to ≡ at + 1) }
{
    match at.checked_add(1) {
        Some(to) => node.from == at && node.to == to,
        None => false,
    }
}

/// A chain, from what it begins with.
pub fn chain_key(
    out: &mut Draft,
    tokens: &[Token],
    e: &Item<'_>,
    base: &Item<'_>,
    first: &Item<'_>,
    others: &Siblings<'_>,
) -> bool
    ensures before { out.new.failed ≡ false → out.old.failed ≡ false }
    ensures state { state_of out.new ≡ state_of out.old }
    ensures written { out.new.failed ≡ false → (env : Env) (x : List ℕ) → IfThere (IsInBrackets env x tokens.now out.old.row out.new.row result) (call.chained_of (span_of tokens.now e.now.from e.now.to) (expr_in (valued x tokens.now base.now)) (post_in (valued x tokens.now first.now)) (held x tokens.now others.now.entries.now)) }
{
    match base.what {
        What::Node(label) => {
            if may_begin(label) {
                return named_chain(out, tokens, e, base, first, others);
            }
            nameless_key(out, tokens, first, others)
        }
        What::Lean(_) => nameless_key(out, tokens, first, others),
        What::Leaf => {
            out.fail();
            false
        }
        What::Role(_) => {
            out.fail();
            false
        }
        What::Parts => {
            out.fail();
            false
        }
    }
}
