//! Fields.

ghost use Rattle.std.specs.Prelude.{◌≡◌, false, true, ℕ, List, [], Option, Some, None, option_map, slice_get};
ghost use Rattle.es_token.specs.declared.token.Token.{Token as Tok};
ghost use Rattle.es_token.specs.declared.token.TokenKind.TheVariants as k;
ghost use Rattle.es_lexer.specs.Reads.{ReadsTokens};
ghost use Rattle.es_lowering.specs.Value.{expr_at, group, is_there, optional, part};
ghost use Rattle.es_lowering.specs.Texts.{kind_at, span_of, token_at};
ghost use Rattle.es_lowering.specs.Functions.{plain, Key as AKey};
ghost use Rattle.es_lowering.specs.Classes.{field_member, modified};
ghost use Rattle.es_lowering.specs.TypedFunctions.{is_mark, with_accessor, typed_field as typed_field_of};
ghost use Rattle.es_lowering.specs.TypedParts.{annotation_at, modifiers_in};
ghost use Rattle.es_syntax.specs.Held.{held, valued};
ghost use Rattle.es_syntax.specs.Roles.{expr_in};
ghost use Rattle.es_changed.specs.Shape.{Writes};
ghost use Rattle.dts_rules.specs.Rules as rules;
ghost use Rattle.dts_draft.specs.Drafts.{state_of};
ghost use Rattle.dts_draft.specs.Written.{IfThere};
ghost use Rattle.dts_names.specs.Names.{Knows};
ghost use Rattle.dts_member_keys.specs.Keys.{Tells};
ghost use Rattle.dts_fields.specs.Fields.{FieldPut, Marks, MemberBy, SilentlyBy, TypedBy, ValueBy};

use crate::modifiers::undeclared;
use dts_draft::{Draft, is_kind};
use dts_enums::keep_part;
use dts_member_keys::{MemberKey, is_dropped, member_key, write_key};
use dts_names::Env;
use dts_types::{Ask, infer};
use es_changed::{Change, Form, Word};
use es_grammar::NodeKind;
use es_syntax::{Item, Siblings};
use es_token::{Token, TokenKind};

/// Writes the type of a value, or `any`, without a diagnostic for that.
fn silent_type(out: &mut Draft, env: &Env<'_>, value: &Item<'_>)
    requires { ReadsTokens env.now.text.now env.now.tokens.now }
    ensures before { out.new.failed ≡ false → out.old.failed ≡ false }
    ensures written { out.new.failed ≡ false → SilentlyBy env.now out.old out.new (expr_in (valued env.now.text.now env.now.tokens.now value.now)) }
{
    let wide = Ask {
        literal: false,
        readonly: false,
        frozen: false,
    };
    if infer(out, env, value, wide) {
        return;
    }
    out.word(Word::Any);
}

/// The same as a group after what ends at this token; the value goes.
fn inferred_group(out: &mut Draft, env: &Env<'_>, end: u32, value: &Item<'_>)
    requires { ReadsTokens env.now.text.now env.now.tokens.now }
    ensures before { out.new.failed ≡ false → out.old.failed ≡ false }
    ensures written { out.new.failed ≡ false → ValueBy env.now out.old out.new (option_map Some (expr_in (valued env.now.text.now env.now.tokens.now value.now))) }
{
    out.dropped(end, end);
    let group = out.open();
    let place = out.open();
    silent_type(out, env, value);
    out.close_form(place, Form::Annotation);
    out.close_group(group);
    out.gone(value.to);
}

/// The type of a value that may be absent, as a group.
fn value_group(out: &mut Draft, env: &Env<'_>, end: u32, value: &Siblings<'_>)
    requires { ReadsTokens env.now.text.now env.now.tokens.now }
    ensures before { out.new.failed ≡ false → out.old.failed ≡ false }
    ensures written { out.new.failed ≡ false → ValueBy env.now out.old out.new (optional expr_at (held env.now.text.now env.now.tokens.now value.now.entries.now)) }
{
    match value.split() {
        Some((it, _)) => inferred_group(out, env, end, &it),
        None => out.absent(),
    }
}

/// Drops a value that may be absent, after a type that ends at this token.
fn drop_value(out: &mut Draft, end: u32, value: &Siblings<'_>)
    ensures before { out.new.failed ≡ false → out.old.failed ≡ false }
    ensures state { state_of out.new ≡ state_of out.old }
    ensures written { out.new.failed ≡ false → (x : List ℕ) (ts : List Tok) → Writes x ts out.old.row out.new.row [] }
{
    if let Some((it, _)) = value.split() {
        out.dropped(end, it.to);
    }
}

/// The type of a field of TypeScript, as a group: its own, or that of its value, after what ends at this token.
fn type_group(out: &mut Draft, env: &Env<'_>, end: u32, parts: &Siblings<'_>)
    requires { ReadsTokens env.now.text.now env.now.tokens.now }
    ensures before { out.new.failed ≡ false → out.old.failed ≡ false }
    ensures written { out.new.failed ≡ false → TypedBy env.now out.old out.new (annotation_at (held env.now.text.now env.now.tokens.now parts.now.entries.now) 3) (optional expr_at (group (held env.now.text.now env.now.tokens.now parts.now.entries.now) 4)) }
{
    let value = parts.group_at(4);
    match parts.group_at(3).split() {
        Some((ty, _)) => {
            keep_part(out, parts, 3);
            drop_value(out, ty.to, &value);
        }
        None => value_group(out, env, end, &value),
    }
}

/// `?` as it is; any other mark goes.
fn sign(out: &mut Draft, tokens: &[Token], at: u32, parts: &Siblings<'_>)
    ensures before { out.new.failed ≡ false → out.old.failed ≡ false }
    ensures state { state_of out.new ≡ state_of out.old }
    ensures written { out.new.failed ≡ false → (x : List ℕ) → token_at tokens.now (group (held x tokens.now parts.now.entries.now) 2) 0 ≡ slice_get tokens.now at → Marks x tokens.now out.old.row out.new.row (group (held x tokens.now parts.now.entries.now) 2) }
{
    if is_kind(tokens, at, TokenKind::Question) {
        keep_part(out, parts, 2);
    } else {
        out.absent();
        out.dropped(at, at.saturating_add(1));
    }
}

/// The mark of a field of TypeScript after what ends at this token: `?` stays, `!` goes. The answer is the token after it.
fn field_mark(out: &mut Draft, tokens: &[Token], end: u32, parts: &Siblings<'_>) -> u32
    ensures before { out.new.failed ≡ false → out.old.failed ≡ false }
    ensures state { state_of out.new ≡ state_of out.old }
    ensures written { out.new.failed ≡ false → (x : List ℕ) → Marks x tokens.now out.old.row out.new.row (group (held x tokens.now parts.now.entries.now) 2) }
{
    match parts.group_at(2).token_at(0) {
        Some(at) => {
            sign(out, tokens, at, parts);
            at.saturating_add(1)
        }
        None => {
            out.absent();
            end
        }
    }
}

/// A field of JavaScript with this key.
fn plain_node(
    out: &mut Draft,
    env: &Env<'_>,
    from: u32,
    to: u32,
    parts: &Siblings<'_>,
    key: &Item<'_>,
    shown: MemberKey<'_>,
)
    requires { ReadsTokens env.now.text.now env.now.tokens.now }
    ensures before { out.new.failed ≡ false → out.old.failed ≡ false }
    ensures written { out.new.failed ≡ false → (by : rules.Env) → Knows env.now by → (o : Option AKey) → Tells env.now.text.now env.now.tokens.now shown.entry o → IfThere (λ value. FieldPut env.now.text.now env.now.tokens.now by out.old out.new (modified (is_there (group (held env.now.text.now env.now.tokens.now parts.now.entries.now) 0)) false) false (span_of env.now.tokens.now from to) None value o) (optional expr_at (group (held env.now.text.now env.now.tokens.now parts.now.entries.now) 2)) }
{
    let place = out.open();
    keep_part(out, parts, 0);
    write_key(out, key, shown);
    value_group(out, env, key.to, &parts.group_at(2));
    out.close(place, Change::Form(Form::Field), from, to);
}

/// A field of TypeScript with this key.
fn typed_node(
    out: &mut Draft,
    env: &Env<'_>,
    from: u32,
    to: u32,
    parts: &Siblings<'_>,
    key: &Item<'_>,
    shown: MemberKey<'_>,
)
    requires { ReadsTokens env.now.text.now env.now.tokens.now }
    ensures before { out.new.failed ≡ false → out.old.failed ≡ false }
    ensures written { out.new.failed ≡ false → (by : rules.Env) → Knows env.now by → (o : Option AKey) → Tells env.now.text.now env.now.tokens.now shown.entry o → IfThere (λ m. IfThere (λ own. IfThere (λ value. FieldPut env.now.text.now env.now.tokens.now by out.old out.new (with_accessor false (rules.undeclared m)) (is_mark k.Question (kind_at env.now.tokens.now (group (held env.now.text.now env.now.tokens.now parts.now.entries.now) 2) 0)) (span_of env.now.tokens.now from to) own value o) (optional expr_at (group (held env.now.text.now env.now.tokens.now parts.now.entries.now) 4))) (annotation_at (held env.now.text.now env.now.tokens.now parts.now.entries.now) 3)) (modifiers_in env.now.tokens.now plain (group (held env.now.text.now env.now.tokens.now parts.now.entries.now) 0)) }
{
    let place = out.open();
    undeclared(out, env.tokens, &parts.group_at(0));
    write_key(out, key, shown);
    let end = field_mark(out, env.tokens, key.to, parts);
    type_group(out, env, end, parts);
    out.absent();
    keep_part(out, parts, 5);
    out.close_node(place, NodeKind::TypedFieldMember, from, to);
}

/// A field of JavaScript, whose key this is.
fn plain_keyed(
    out: &mut Draft,
    env: &Env<'_>,
    from: u32,
    to: u32,
    parts: &Siblings<'_>,
    key: &Item<'_>,
) -> bool
    requires read { ReadsTokens env.now.text.now env.now.tokens.now }
    requires key { (x : List ℕ) (ts : List Tok) → part (held x ts parts.now.entries.now) 1 ≡ valued x ts key.now }
    ensures before { out.new.failed ≡ false → out.old.failed ≡ false }
    ensures written { out.new.failed ≡ false → MemberBy env.now out.old out.new result (field_member false (span_of env.now.tokens.now from to) (held env.now.text.now env.now.tokens.now parts.now.entries.now)) }
{
    let shown = member_key(env, key);
    if is_dropped(shown) {
        return false;
    }
    plain_node(out, env, from, to, parts, key, shown);
    true
}

/// Writes a field of JavaScript in these parts, from one token up to another, and answers whether the declaration has it: nothing
/// is written where it has none. One with `accessor` goes.
pub fn plain_field(
    out: &mut Draft,
    env: &Env<'_>,
    is_accessor: bool,
    from: u32,
    to: u32,
    parts: &Siblings<'_>,
) -> bool
    requires { ReadsTokens env.now.text.now env.now.tokens.now }
    ensures before { out.new.failed ≡ false → out.old.failed ≡ false }
    ensures written { out.new.failed ≡ false → MemberBy env.now out.old out.new result (field_member is_accessor (span_of env.now.tokens.now from to) (held env.now.text.now env.now.tokens.now parts.now.entries.now)) }
{
    if is_accessor {
        return false;
    }
    match parts.part(1) {
        Some(key) => plain_keyed(out, env, from, to, parts, &key),
        None => {
            out.fail();
            false
        }
    }
}

/// A field of TypeScript, whose key this is.
fn typed_keyed(
    out: &mut Draft,
    env: &Env<'_>,
    from: u32,
    to: u32,
    parts: &Siblings<'_>,
    key: &Item<'_>,
) -> bool
    requires read { ReadsTokens env.now.text.now env.now.tokens.now }
    requires key { (x : List ℕ) (ts : List Tok) → part (held x ts parts.now.entries.now) 1 ≡ valued x ts key.now }
    ensures before { out.new.failed ≡ false → out.old.failed ≡ false }
    ensures written { out.new.failed ≡ false → MemberBy env.now out.old out.new result (typed_field_of env.now.tokens.now false (span_of env.now.tokens.now from to) (held env.now.text.now env.now.tokens.now parts.now.entries.now)) }
{
    let shown = member_key(env, key);
    if is_dropped(shown) {
        return false;
    }
    typed_node(out, env, from, to, parts, key, shown);
    true
}

/// Writes a field of TypeScript in these parts, from one token up to another, and answers whether the declaration has it: nothing
/// is written where it has none. One with `accessor` goes.
pub fn typed_field(
    out: &mut Draft,
    env: &Env<'_>,
    is_accessor: bool,
    from: u32,
    to: u32,
    parts: &Siblings<'_>,
) -> bool
    requires { ReadsTokens env.now.text.now env.now.tokens.now }
    ensures before { out.new.failed ≡ false → out.old.failed ≡ false }
    ensures written { out.new.failed ≡ false → MemberBy env.now out.old out.new result (typed_field_of env.now.tokens.now is_accessor (span_of env.now.tokens.now from to) (held env.now.text.now env.now.tokens.now parts.now.entries.now)) }
{
    if is_accessor {
        return false;
    }
    match parts.part(1) {
        Some(key) => typed_keyed(out, env, from, to, parts, &key),
        None => {
            out.fail();
            false
        }
    }
}
