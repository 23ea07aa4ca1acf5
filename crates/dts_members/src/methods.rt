//! Methods of classes of JavaScript.

ghost use Rattle.std.specs.Prelude.{◌≡◌, false, true, ℕ, Option};
ghost use Rattle.es_lexer.specs.Reads.{ReadsTokens};
ghost use Rattle.es_ast.specs.declared.ts.leaf.MethodKind.TheVariants as vMethod;
ghost use Rattle.es_ast.specs.declared.ast.Stmt.{Stmt as AStmt};
ghost use Rattle.es_lowering.specs.Value.{behind, first_of, group, is_there};
ghost use Rattle.es_lowering.specs.Texts.{span_of};
ghost use Rattle.es_lowering.specs.Classes.{accessor_member, method_member};
ghost use Rattle.es_syntax.specs.Held.{held, valued};
ghost use Rattle.es_syntax.specs.Roles.{key_in, params_in, stmt_in};
ghost use Rattle.dts_members.specs.Members.{MemberBy};
ghost use Rattle.dts_members.specs.Methods as made;
ghost use Rattle.dts_members.specs.Methods.{plain_of, PlainBy, PlainMethodBy};

use crate::heads::params_up_to;
use crate::overloads::{RangeSet, is_listed};
use dts_draft::{Draft, is_kind};
use dts_enums::keep_part;
use dts_member_keys::{MemberKey, is_dropped, member_key, write_key};
use dts_names::Env;
use es_changed::{Change, Form};
use es_expr_spans::span_of;
use es_syntax::Item;
use es_token::TokenKind;

/// The form of a method, its key, its parameters and its body.
#[derive(Clone, Copy)]
struct Parts<'a> {
    form: Form,
    key: Item<'a>,
    params: Item<'a>,
    body: Item<'a>,
}

/// Methods that are no accessors.
fn method_form(is_async: bool, is_generator: bool) -> Form
    ensures { result ≡ made.method_form is_async is_generator }
{
    if is_async {
        if is_generator {
            return Form::AsyncGeneratorMethod;
        }
        return Form::AsyncMethod;
    }
    if is_generator {
        return Form::GeneratorMethod;
    }
    Form::Method
}

/// Accessors.
fn accessor_form(setter: bool) -> Form
    ensures { result ≡ made.accessor_form setter }
{
    if setter {
        return Form::Setter;
    }
    Form::Getter
}

/// A method with this key, whose parameters begin at one token and whose body ends at another.
fn method_node(
    out: &mut Draft,
    env: &Env<'_>,
    it: &Item<'_>,
    of: &Parts<'_>,
    shown: MemberKey<'_>,
    from: u32,
    to: u32,
)
    requires { ReadsTokens env.now.text.now env.now.tokens.now }
    ensures before { out.new.failed ≡ false → out.old.failed ≡ false }
    ensures written { out.new.failed ≡ false → (b : Option AStmt) → PlainBy env.now shown.entry of.now.form out.old out.new (is_there (group (held env.now.text.now env.now.tokens.now it.now.parts.entries.now) 0)) (span_of env.now.tokens.now it.now.from it.now.to) (span_of env.now.tokens.now from to) (params_in (valued env.now.text.now env.now.tokens.now of.now.params)) b }
{
    let place = out.open();
    keep_part(out, &it.parts, 0);
    write_key(out, &of.key, shown);
    params_up_to(out, env, &of.params, from, to);
    out.close(place, Change::Form(of.form), it.from, it.to);
}

/// The same, where they do.
fn method_up_to(out: &mut Draft, env: &Env<'_>, it: &Item<'_>, of: &Parts<'_>, shown: MemberKey<'_>)
    requires { ReadsTokens env.now.text.now env.now.tokens.now }
    ensures before { out.new.failed ≡ false → out.old.failed ≡ false }
    ensures written { out.new.failed ≡ false → (b : Option AStmt) → PlainBy env.now shown.entry of.now.form out.old out.new (is_there (group (held env.now.text.now env.now.tokens.now it.now.parts.entries.now) 0)) (span_of env.now.tokens.now it.now.from it.now.to) (span_of env.now.tokens.now (first_of (valued env.now.text.now env.now.tokens.now of.now.params)) (behind (valued env.now.text.now env.now.tokens.now of.now.body))) (params_in (valued env.now.text.now env.now.tokens.now of.now.params)) b }
{
    match of.params.place() {
        Some((from, _)) => match of.body.place() {
            Some((_, to)) => method_node(out, env, it, of, shown, from, to),
            None => out.fail(),
        },
        None => out.fail(),
    }
}

/// A method, which the declaration has unless it is the body of overloads or has no key that stays.
fn keyed_method(
    out: &mut Draft,
    env: &Env<'_>,
    ranges: &RangeSet,
    it: &Item<'_>,
    of: &Parts<'_>,
) -> bool
    requires { ReadsTokens env.now.text.now env.now.tokens.now }
    ensures before { out.new.failed ≡ false → out.old.failed ≡ false }
    ensures written { out.new.failed ≡ false → PlainMethodBy env.now ranges.now of.now.form out.old out.new result (λ kind is_async is_generator. plain_of kind is_async is_generator (is_there (group (held env.now.text.now env.now.tokens.now it.now.parts.entries.now) 0)) (span_of env.now.tokens.now it.now.from it.now.to) (span_of env.now.tokens.now (first_of (valued env.now.text.now env.now.tokens.now of.now.params)) (behind (valued env.now.text.now env.now.tokens.now of.now.body))) (key_in (valued env.now.text.now env.now.tokens.now of.now.key)) (params_in (valued env.now.text.now env.now.tokens.now of.now.params)) (stmt_in (valued env.now.text.now env.now.tokens.now of.now.body))) }
{
    if is_listed(ranges, span_of(env.tokens, it.from, it.to)) {
        return false;
    }
    let shown = member_key(env, &of.key);
    if is_dropped(shown) {
        return false;
    }
    method_up_to(out, env, it, of, shown);
    true
}

/// A method whose key is the part after the first.
pub(crate) fn plain_method(
    out: &mut Draft,
    env: &Env<'_>,
    ranges: &RangeSet,
    it: &Item<'_>,
    is_generator: bool,
) -> bool
    requires { ReadsTokens env.now.text.now env.now.tokens.now }
    ensures before { out.new.failed ≡ false → out.old.failed ≡ false }
    ensures written { out.new.failed ≡ false → MemberBy env.now ranges.now out.old out.new result (method_member env.now.tokens.now vMethod.Method false is_generator (span_of env.now.tokens.now it.now.from it.now.to) (held env.now.text.now env.now.tokens.now it.now.parts.entries.now) 1) }
{
    match it.parts.part(1) {
        Some(key) => match it.parts.part(2) {
            Some(params) => match it.parts.part(3) {
                Some(body) => {
                    let of = Parts {
                        form: method_form(false, is_generator),
                        key,
                        params,
                        body,
                    };
                    keyed_method(out, env, ranges, it, &of)
                }
                None => {
                    out.fail();
                    false
                }
            },
            None => {
                out.fail();
                false
            }
        },
        None => {
            out.fail();
            false
        }
    }
}

/// A method of this form after a word of its own.
fn worded_method(
    out: &mut Draft,
    env: &Env<'_>,
    ranges: &RangeSet,
    it: &Item<'_>,
    form: Form,
) -> bool
    requires { ReadsTokens env.now.text.now env.now.tokens.now }
    ensures before { out.new.failed ≡ false → out.old.failed ≡ false }
    ensures written { out.new.failed ≡ false → PlainMethodBy env.now ranges.now form out.old out.new result (λ kind is_async is_generator. method_member env.now.tokens.now kind is_async is_generator (span_of env.now.tokens.now it.now.from it.now.to) (held env.now.text.now env.now.tokens.now it.now.parts.entries.now) 2) }
{
    match it.parts.part(2) {
        Some(key) => match it.parts.part(3) {
            Some(params) => match it.parts.part(4) {
                Some(body) => {
                    let of = Parts {
                        form,
                        key,
                        params,
                        body,
                    };
                    keyed_method(out, env, ranges, it, &of)
                }
                None => {
                    out.fail();
                    false
                }
            },
            None => {
                out.fail();
                false
            }
        },
        None => {
            out.fail();
            false
        }
    }
}

/// A method after `async`.
pub(crate) fn async_method(out: &mut Draft, env: &Env<'_>, ranges: &RangeSet, it: &Item<'_>) -> bool
    requires { ReadsTokens env.now.text.now env.now.tokens.now }
    ensures before { out.new.failed ≡ false → out.old.failed ≡ false }
    ensures written { out.new.failed ≡ false → MemberBy env.now ranges.now out.old out.new result (method_member env.now.tokens.now vMethod.Method true (is_there (group (held env.now.text.now env.now.tokens.now it.now.parts.entries.now) 1)) (span_of env.now.tokens.now it.now.from it.now.to) (held env.now.text.now env.now.tokens.now it.now.parts.entries.now) 2) }
{
    worded_method(out, env, ranges, it, method_form(true, it.parts.has(1)))
}

/// A method after `get` or `set`.
pub(crate) fn accessor_method(
    out: &mut Draft,
    env: &Env<'_>,
    ranges: &RangeSet,
    it: &Item<'_>,
) -> bool
    requires { ReadsTokens env.now.text.now env.now.tokens.now }
    ensures before { out.new.failed ≡ false → out.old.failed ≡ false }
    ensures written { out.new.failed ≡ false → MemberBy env.now ranges.now out.old out.new result (accessor_member env.now.tokens.now (span_of env.now.tokens.now it.now.from it.now.to) (held env.now.text.now env.now.tokens.now it.now.parts.entries.now)) }
{
    match it.parts.token_at(1) {
        Some(word) => {
            let setter = is_kind(env.tokens, word, TokenKind::SetWord);
            worded_method(out, env, ranges, it, accessor_form(setter))
        }
        None => {
            out.fail();
            false
        }
    }
}
