//! Methods of classes of TypeScript.

ghost use Rattle.std.specs.Prelude.{◌≡◌, ◌∷◌, false, true, ℕ, List, Option, IfSome};
ghost use Rattle.es_token.specs.declared.token.Token.{Token as Tok};
ghost use Rattle.es_ast.specs.declared.ts.leaf.MethodKind.TheVariants as vMethod;
ghost use Rattle.es_ast.specs.declared.ast.Stmt.{Stmt as AStmt};
ghost use Rattle.es_lexer.specs.Reads.{ReadsTokens};
ghost use Rattle.es_lowering.specs.Value.{as_group, behind, first_of, group, is_there, part};
ghost use Rattle.es_lowering.specs.Texts.{span_of};
ghost use Rattle.es_lowering.specs.Functions.{plain};
ghost use Rattle.es_lowering.specs.TypedParts.{behind_body, body_in, modifiers_in};
ghost use Rattle.es_lowering.specs.TypedFunctions.{typed_accessor_member, typed_method_member};
ghost use Rattle.es_syntax.specs.Held.{held, valued};
ghost use Rattle.es_syntax.specs.Roles.{key_in, signature_in};
ghost use Rattle.es_changed.specs.Shape.{Writes};
ghost use Rattle.dts_draft.specs.Drafts.{state_of};
ghost use Rattle.dts_members.specs.Members.{MemberBy};
ghost use Rattle.dts_members.specs.Methods as made;
ghost use Rattle.dts_members.specs.Methods.{between, GroupBy, NoBody, typed_by, typed_of, TypedBy, TypedMethodBy};

use crate::heads::signature_up_to;
use crate::overloads::{RangeSet, is_listed};
use dts_draft::{Draft, is_kind};
use dts_enums::keep_part;
use dts_member_keys::{MemberKey, is_dropped, member_key, write_key};
use dts_names::Env;
use es_expr_spans::span_of;
use es_grammar::NodeKind;
use es_syntax::{Item, Siblings, What};
use es_token::TokenKind;

/// The alternative of a method, whether a word is between its modifiers and its head, and whether it is a setter.
#[derive(Clone, Copy)]
struct Sort {
    label: NodeKind,
    worded: bool,
    setter: bool,
}

/// The group with the head of a method, the key and the signature in it, and the part that may be a body.
#[derive(Clone, Copy)]
struct Parts<'a> {
    head: Siblings<'a>,
    key: Item<'a>,
    signature: Item<'a>,
    body: Item<'a>,
}

/// The token after a body, or this one where there is only the end of a line; none where no grammar makes what is there.
fn end_of_body(body: &Siblings<'_>, before: u32) -> Option<u32>
    ensures { IfSome result (λ to. (x : List ℕ) (ts : List Tok) → behind_body (held x ts body.now.entries.now) before ≡ to) }
{
    match body.split() {
        None => Some(before),
        Some((first, _)) => match first.what {
            What::Node(_) => Some(first.to),
            What::Leaf => Some(before),
            What::Parts => Some(before),
            What::Role(_) => None,
            What::Lean(_) => None,
        },
    }
}

/// `;` stays where a body may be; a body goes.
fn bodyless(out: &mut Draft, body: &Item<'_>)
    ensures before { out.new.failed ≡ false → out.old.failed ≡ false }
    ensures state { state_of out.new ≡ state_of out.old }
    ensures written { out.new.failed ≡ false → (x : List ℕ) (ts : List Tok) → NoBody x ts out.old.row out.new.row }
{
    match body.group().split() {
        None => out.absent(),
        Some((first, _)) => match first.what {
            What::Leaf => out.keep_there(body),
            What::Parts => out.keep_there(body),
            What::Node(_) => out.absent(),
            What::Role(_) => out.absent(),
            What::Lean(_) => out.absent(),
        },
    }
}

/// What is before the head of a method: its modifiers, and another part or none.
fn front(out: &mut Draft, parts: &Siblings<'_>, worded: bool)
    ensures before { out.new.failed ≡ false → out.old.failed ≡ false }
    ensures state { state_of out.new ≡ state_of out.old }
    ensures written { out.new.failed ≡ false → (x : List ℕ) (ts : List Tok) → Writes x ts out.old.row out.new.row (part (held x ts parts.now.entries.now) 0 ∷ between worded (held x ts parts.now.entries.now)) }
{
    keep_part(out, parts, 0);
    if worded {
        keep_part(out, parts, 1);
    }
}

/// The head of a method with this key, whose signature ends at a token.
fn head_group(
    out: &mut Draft,
    env: &Env<'_>,
    setter: bool,
    of: &Parts<'_>,
    shown: MemberKey<'_>,
    to: u32,
)
    requires { ReadsTokens env.now.text.now env.now.tokens.now }
    ensures before { out.new.failed ≡ false → out.old.failed ≡ false }
    ensures written { out.new.failed ≡ false → GroupBy env.now setter out.old out.new (first_of (valued env.now.text.now env.now.tokens.now of.now.signature)) to (is_there (group (held env.now.text.now env.now.tokens.now of.now.head.entries.now) 1)) shown.entry (signature_in (valued env.now.text.now env.now.tokens.now of.now.signature)) }
{
    let group = out.open();
    write_key(out, &of.key, shown);
    keep_part(out, &of.head, 1);
    signature_up_to(out, env, &of.signature, to, setter);
    out.close_group(group);
}

/// A method with this key, whose signature ends at a token.
fn typed_node(
    out: &mut Draft,
    env: &Env<'_>,
    it: &Item<'_>,
    sort: Sort,
    of: &Parts<'_>,
    shown: MemberKey<'_>,
    to: u32,
)
    requires { ReadsTokens env.now.text.now env.now.tokens.now }
    ensures before { out.new.failed ≡ false → out.old.failed ≡ false }
    ensures written { out.new.failed ≡ false → (b : Option (Option AStmt)) → TypedBy env.now shown.entry sort.label sort.setter out.old out.new (is_there (group (held env.now.text.now env.now.tokens.now of.now.head.entries.now) 1)) (span_of env.now.tokens.now it.now.from it.now.to) (span_of env.now.tokens.now (first_of (valued env.now.text.now env.now.tokens.now of.now.signature)) to) (part (held env.now.text.now env.now.tokens.now it.now.parts.entries.now) 0) (between sort.worded (held env.now.text.now env.now.tokens.now it.now.parts.entries.now)) (signature_in (valued env.now.text.now env.now.tokens.now of.now.signature)) b }
{
    let place = out.open();
    front(out, &it.parts, sort.worded);
    head_group(out, env, sort.setter, of, shown, to);
    bodyless(out, &of.body);
    out.close_node(place, sort.label, it.from, it.to);
}

/// The same, where its body ends.
fn typed_up_to(
    out: &mut Draft,
    env: &Env<'_>,
    it: &Item<'_>,
    sort: Sort,
    of: &Parts<'_>,
    shown: MemberKey<'_>,
)
    requires { ReadsTokens env.now.text.now env.now.tokens.now }
    ensures before { out.new.failed ≡ false → out.old.failed ≡ false }
    ensures written { out.new.failed ≡ false → (b : Option (Option AStmt)) → TypedBy env.now shown.entry sort.label sort.setter out.old out.new (is_there (group (held env.now.text.now env.now.tokens.now of.now.head.entries.now) 1)) (span_of env.now.tokens.now it.now.from it.now.to) (span_of env.now.tokens.now (first_of (valued env.now.text.now env.now.tokens.now of.now.signature)) (behind_body (as_group (valued env.now.text.now env.now.tokens.now of.now.body)) (behind (valued env.now.text.now env.now.tokens.now of.now.signature)))) (part (held env.now.text.now env.now.tokens.now it.now.parts.entries.now) 0) (between sort.worded (held env.now.text.now env.now.tokens.now it.now.parts.entries.now)) (signature_in (valued env.now.text.now env.now.tokens.now of.now.signature)) b }
{
    match of.signature.place() {
        Some((_, end)) => match end_of_body(&of.body.group(), end) {
            Some(to) => typed_node(out, env, it, sort, of, shown, to),
            None => out.fail(),
        },
        None => out.fail(),
    }
}

/// A method, which the declaration has unless it is the body of overloads or has no key that stays.
fn keyed_method(
    out: &mut Draft,
    env: &Env<'_>,
    ranges: &RangeSet,
    it: &Item<'_>,
    sort: Sort,
    of: &Parts<'_>,
) -> bool
    requires { ReadsTokens env.now.text.now env.now.tokens.now }
    ensures before { out.new.failed ≡ false → out.old.failed ≡ false }
    ensures written { out.new.failed ≡ false → TypedMethodBy env.now ranges.now sort.label sort.setter out.old out.new result (part (held env.now.text.now env.now.tokens.now it.now.parts.entries.now) 0) (between sort.worded (held env.now.text.now env.now.tokens.now it.now.parts.entries.now)) (λ kind is_async is_generator. typed_of kind is_async is_generator (is_there (group (held env.now.text.now env.now.tokens.now of.now.head.entries.now) 1)) (span_of env.now.tokens.now it.now.from it.now.to) (span_of env.now.tokens.now (first_of (valued env.now.text.now env.now.tokens.now of.now.signature)) (behind_body (as_group (valued env.now.text.now env.now.tokens.now of.now.body)) (behind (valued env.now.text.now env.now.tokens.now of.now.signature)))) (modifiers_in env.now.tokens.now plain (group (held env.now.text.now env.now.tokens.now it.now.parts.entries.now) 0)) (key_in (valued env.now.text.now env.now.tokens.now of.now.key)) (signature_in (valued env.now.text.now env.now.tokens.now of.now.signature)) (body_in (as_group (valued env.now.text.now env.now.tokens.now of.now.body)))) }
{
    if is_listed(ranges, span_of(env.tokens, it.from, it.to)) {
        return false;
    }
    let shown = member_key(env, &of.key);
    if is_dropped(shown) {
        return false;
    }
    typed_up_to(out, env, it, sort, of, shown);
    true
}

/// The same, of this head and this body.
fn headed_method(
    out: &mut Draft,
    env: &Env<'_>,
    ranges: &RangeSet,
    it: &Item<'_>,
    sort: Sort,
    head: &Siblings<'_>,
    body: &Item<'_>,
) -> bool
    requires { ReadsTokens env.now.text.now env.now.tokens.now }
    ensures before { out.new.failed ≡ false → out.old.failed ≡ false }
    ensures written { out.new.failed ≡ false → TypedMethodBy env.now ranges.now sort.label sort.setter out.old out.new result (part (held env.now.text.now env.now.tokens.now it.now.parts.entries.now) 0) (between sort.worded (held env.now.text.now env.now.tokens.now it.now.parts.entries.now)) (λ kind is_async is_generator. typed_by env.now.tokens.now kind is_async is_generator (span_of env.now.tokens.now it.now.from it.now.to) (group (held env.now.text.now env.now.tokens.now it.now.parts.entries.now) 0) (held env.now.text.now env.now.tokens.now head.now.entries.now) (as_group (valued env.now.text.now env.now.tokens.now body.now))) }
{
    match head.part(0) {
        Some(key) => match head.part(2) {
            Some(signature) => {
                let of = Parts {
                    head: *head,
                    key,
                    signature,
                    body: *body,
                };
                keyed_method(out, env, ranges, it, sort, &of)
            }
            None => {
                out.fail();
                false
            }
        },
        None => {
            out.fail();
            false
        }
    }
}

/// Methods that are neither accessors nor `async`.
fn typed_label(is_generator: bool) -> NodeKind
    ensures { result ≡ made.typed_label is_generator }
{
    if is_generator {
        return NodeKind::TypedGeneratorMember;
    }
    NodeKind::TypedMethodMember
}

/// A method that is neither an accessor nor `async`.
pub(crate) fn typed_method(
    out: &mut Draft,
    env: &Env<'_>,
    ranges: &RangeSet,
    it: &Item<'_>,
    is_generator: bool,
) -> bool
    requires { ReadsTokens env.now.text.now env.now.tokens.now }
    ensures before { out.new.failed ≡ false → out.old.failed ≡ false }
    ensures written { out.new.failed ≡ false → MemberBy env.now ranges.now out.old out.new result (typed_method_member env.now.tokens.now vMethod.Method false is_generator (span_of env.now.tokens.now it.now.from it.now.to) (held env.now.text.now env.now.tokens.now it.now.parts.entries.now) 1) }
{
    match it.parts.part(2) {
        Some(body) => {
            let sort = Sort {
                label: typed_label(is_generator),
                worded: false,
                setter: false,
            };
            headed_method(out, env, ranges, it, sort, &it.parts.group_at(1), &body)
        }
        None => {
            out.fail();
            false
        }
    }
}

/// A method after `async`.
pub(crate) fn typed_async_method(
    out: &mut Draft,
    env: &Env<'_>,
    ranges: &RangeSet,
    it: &Item<'_>,
) -> bool
    requires { ReadsTokens env.now.text.now env.now.tokens.now }
    ensures before { out.new.failed ≡ false → out.old.failed ≡ false }
    ensures written { out.new.failed ≡ false → MemberBy env.now ranges.now out.old out.new result (typed_method_member env.now.tokens.now vMethod.Method true (is_there (group (held env.now.text.now env.now.tokens.now it.now.parts.entries.now) 1)) (span_of env.now.tokens.now it.now.from it.now.to) (held env.now.text.now env.now.tokens.now it.now.parts.entries.now) 2) }
{
    match it.parts.part(3) {
        Some(body) => {
            let sort = Sort {
                label: NodeKind::TypedAsyncMember,
                worded: true,
                setter: false,
            };
            headed_method(out, env, ranges, it, sort, &it.parts.group_at(2), &body)
        }
        None => {
            out.fail();
            false
        }
    }
}

/// A method after `get` or `set`.
pub(crate) fn typed_accessor_method(
    out: &mut Draft,
    env: &Env<'_>,
    ranges: &RangeSet,
    it: &Item<'_>,
) -> bool
    requires { ReadsTokens env.now.text.now env.now.tokens.now }
    ensures before { out.new.failed ≡ false → out.old.failed ≡ false }
    ensures written { out.new.failed ≡ false → MemberBy env.now ranges.now out.old out.new result (typed_accessor_member env.now.tokens.now (span_of env.now.tokens.now it.now.from it.now.to) (held env.now.text.now env.now.tokens.now it.now.parts.entries.now)) }
{
    match it.parts.token_at(1) {
        Some(word) => match it.parts.part(3) {
            Some(body) => {
                let sort = Sort {
                    label: NodeKind::TypedAccessorMember,
                    worded: true,
                    setter: is_kind(env.tokens, word, TokenKind::SetWord),
                };
                headed_method(out, env, ranges, it, sort, &it.parts.group_at(2), &body)
            }
            None => {
                out.fail();
                false
            }
        },
        None => {
            out.fail();
            false
        }
    }
}
