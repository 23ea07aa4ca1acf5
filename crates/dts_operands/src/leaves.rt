//! The types of names, literals, `-a` and `new a`.

ghost use Rattle.std.specs.Prelude.{◌≡◌, ◌<◌, false, true, ℕ, List, Bool, Option, slice_get, length, IfSome};
ghost use Rattle.base.specs.declared.range.Range.{Range as ARange};
ghost use Rattle.es_lowering.specs.Value.{Value};
ghost use Rattle.es_lexer.specs.Reads.{ReadsTokens};
ghost use Rattle.es_lowering.specs.Texts.{span_of};
ghost use Rattle.es_syntax.specs.Held.{held, valued};
ghost use Rattle.es_syntax.specs.Roles.{expr_in};
ghost use Rattle.es_view_expressions.specs.call.Call as call;
ghost use Rattle.es_view_expressions.specs.operator.Operator as operator;
ghost use Rattle.dts_rules.specs.Rules as rules;
ghost use Rattle.dts_draft.specs.Drafts.{state_of};
ghost use Rattle.dts_draft.specs.Written.{IfThere};
ghost use Rattle.dts_leaves.specs.Leaves.{HasType};
ghost use Rattle.dts_names.specs.Names.{Knows};
ghost use Rattle.dts_operands.specs.Leaves.{IsNegative, IsNew};

use crate::labels::{is_name, is_number};
use dts_draft::{Draft, is_kind};
use dts_leaves::{minus_type, number_type, regexp_type, str_type, template_type, word_type};
use dts_names::{Env, class_name, name_type};
use es_syntax::{Item, Siblings, What};
use es_token::{Token, TokenKind};
use es_view_expressions::call::{Call, call_at};
use es_view_expressions::expr::{Primary, primary_at};
use es_view_expressions::operator::{Operator, operator_at};

/// The type of a name, a literal or a template.
#[tactic(auto, using(crate::proofs::LeafLemmas::ident_has, crate::proofs::LeafLemmas::template_has, crate::proofs::LeafLemmas::template_parts_has))]
pub fn leaf_type(out: &mut Draft, env: &Env<'_>, it: &Item<'_>, literal: bool) -> bool
    requires { ReadsTokens env.now.text.now env.now.tokens.now }
    ensures before { out.new.failed ≡ false → out.old.failed ≡ false }
    ensures state { state_of out.new ≡ state_of out.old }
    ensures written { out.new.failed ≡ false → (by : rules.Env) → Knows env.now by → IfThere (HasType by env.now.text.now env.now.tokens.now literal result out.old.row out.new.row) (expr_in (valued env.now.text.now env.now.tokens.now it.now)) }
{
    match primary_at(it) {
        Some(Primary::Ident(at)) => name_type(out, env, at, literal),
        Some(Primary::Word(at)) => word_type(out, env.tokens, at, it.from, it.to, literal),
        Some(Primary::Number(at)) => {
            number_type(out, env.tokens, at, literal);
            true
        }
        Some(Primary::Str(at)) => {
            str_type(out, at, literal);
            true
        }
        Some(Primary::RegExp(_)) => {
            regexp_type(out);
            true
        }
        Some(Primary::Template(_)) => {
            template_type(out);
            true
        }
        Some(
            Primary::TemplateParts {
                head: _,
                first: _,
                others: _,
                tail: _,
            },
        ) => {
            template_type(out);
            true
        }
        Some(_) => {
            out.fail();
            false
        }
        None => {
            out.fail();
            false
        }
    }
}

/// The type of what has a sign before it: `-` before a number or a BigInt.
pub fn signed_type(out: &mut Draft, env: &Env<'_>, it: &Item<'_>, literal: bool) -> bool
    ensures before { out.new.failed ≡ false → out.old.failed ≡ false }
    ensures state { state_of out.new ≡ state_of out.old }
    ensures written { out.new.failed ≡ false → (by : rules.Env) (x : List ℕ) → IfThere (HasType by x env.now.tokens.now literal result out.old.row out.new.row) (expr_in (valued x env.now.tokens.now it.now)) }
{
    match operator_at(it) {
        Some(Operator::Unary { sign, arg }) => unary_type(
            out, env.tokens, it.from, it.to, sign, &arg, literal,
        ),
        Some(_) => {
            out.fail();
            false
        }
        None => {
            out.fail();
            false
        }
    }
}

/// The type of what has this sign before it, in a node from one token up to another one.
#[tactic(auto, using(crate::proofs::LeafLemmas::minus_has, crate::proofs::LeafLemmas::plus_has))]
fn unary_type(
    out: &mut Draft,
    tokens: &[Token],
    from: u32,
    to: u32,
    sign: u32,
    arg: &Item<'_>,
    literal: bool,
) -> bool
    ensures before { out.new.failed ≡ false → out.old.failed ≡ false }
    ensures state { state_of out.new ≡ state_of out.old }
    ensures written { out.new.failed ≡ false → (by : rules.Env) (x : List ℕ) → IfThere (HasType by x tokens.now literal result out.old.row out.new.row) (operator.unary (span_of tokens.now from to) (slice_get tokens.now sign) (expr_in (valued x tokens.now arg.now))) }
{
    if is_kind(tokens, sign, TokenKind::Minus) {
        return negative_type(out, tokens, from, to, sign, arg, literal);
    }
    false
}

/// The type of what has `-` before it.
fn negative_type(
    out: &mut Draft,
    tokens: &[Token],
    from: u32,
    to: u32,
    sign: u32,
    arg: &Item<'_>,
    literal: bool,
) -> bool
    ensures before { out.new.failed ≡ false → out.old.failed ≡ false }
    ensures state { state_of out.new ≡ state_of out.old }
    ensures written { out.new.failed ≡ false → (by : rules.Env) (x : List ℕ) → IfThere (IsNegative by x tokens.now literal (span_of tokens.now from to) result out.old.row out.new.row) (expr_in (valued x tokens.now arg.now)) }
{
    match arg.what {
        What::Node(label) => {
            if is_number(label) {
                return negative_number(out, tokens, from, to, sign, arg, literal);
            }
            false
        }
        What::Lean(_) => false,
        What::Leaf => {
            out.fail();
            false
        }
        What::Role(_) => {
            out.fail();
            false
        }
        What::Parts => {
            out.fail();
            false
        }
    }
}

/// The type of a number or a BigInt after `-`.
#[tactic(auto, using(crate::proofs::LeafLemmas::negative_has))]
fn negative_number(
    out: &mut Draft,
    tokens: &[Token],
    from: u32,
    to: u32,
    sign: u32,
    arg: &Item<'_>,
    literal: bool,
) -> bool
    ensures before { out.new.failed ≡ false → out.old.failed ≡ false }
    ensures state { state_of out.new ≡ state_of out.old }
    ensures written { out.new.failed ≡ false → (by : rules.Env) (x : List ℕ) → IfThere (IsNegative by x tokens.now literal (span_of tokens.now from to) result out.old.row out.new.row) (expr_in (valued x tokens.now arg.now)) }
{
    match primary_at(arg) {
        Some(Primary::Number(at)) => {
            minus_type(out, tokens, sign, at, from, to, literal);
            true
        }
        Some(_) => {
            out.fail();
            false
        }
        None => {
            out.fail();
            false
        }
    }
}

/// The type of `new a`: `a`, where that is a class without type parameters, and without type arguments.
#[tactic(auto, using(crate::proofs::LeafLemmas::plain_new))]
pub fn new_type(out: &mut Draft, env: &Env<'_>, it: &Item<'_>, literal: bool) -> bool
    requires { ReadsTokens env.now.text.now env.now.tokens.now }
    ensures before { out.new.failed ≡ false → out.old.failed ≡ false }
    ensures state { state_of out.new ≡ state_of out.old }
    ensures written { out.new.failed ≡ false → (by : rules.Env) → Knows env.now by → IfThere (HasType by env.now.text.now env.now.tokens.now literal result out.old.row out.new.row) (expr_in (valued env.now.text.now env.now.tokens.now it.now)) }
{
    match call_at(it) {
        Some(Call::New { callee, args: _ }) => class_type(out, env, &callee),
        Some(
            Call::TypedNew {
                callee,
                type_args,
                args: _,
            },
        ) => typed_class_type(out, env, &callee, &type_args, literal),
        Some(_) => {
            out.fail();
            false
        }
        None => {
            out.fail();
            false
        }
    }
}

/// The type of `new a<b>`.
#[tactic(auto, using(crate::proofs::LeafLemmas::typed_new_none, crate::proofs::LeafLemmas::typed_new_some))]
fn typed_class_type(
    out: &mut Draft,
    env: &Env<'_>,
    callee: &Item<'_>,
    type_args: &Siblings<'_>,
    literal: bool,
) -> bool
    requires { ReadsTokens env.now.text.now env.now.tokens.now }
    ensures before { out.new.failed ≡ false → out.old.failed ≡ false }
    ensures state { state_of out.new ≡ state_of out.old }
    ensures written { out.new.failed ≡ false → (by : rules.Env) → Knows env.now by → (r : ARange) (args : Value) → IfThere (HasType by env.now.text.now env.now.tokens.now literal result out.old.row out.new.row) (call.typed_newed r (expr_in (valued env.now.text.now env.now.tokens.now callee.now)) (held env.now.text.now env.now.tokens.now type_args.now.entries.now) args) }
{
    match type_args.split() {
        Some(_) => false,
        None => class_type(out, env, callee),
    }
}

/// The type of a class by its name.
fn class_type(out: &mut Draft, env: &Env<'_>, callee: &Item<'_>) -> bool
    requires { ReadsTokens env.now.text.now env.now.tokens.now }
    ensures before { out.new.failed ≡ false → out.old.failed ≡ false }
    ensures state { state_of out.new ≡ state_of out.old }
    ensures written { out.new.failed ≡ false → (by : rules.Env) → Knows env.now by → IfThere (IsNew by env.now.text.now env.now.tokens.now result out.old.row out.new.row) (expr_in (valued env.now.text.now env.now.tokens.now callee.now)) }
{
    match callee.what {
        What::Node(label) => {
            if is_name(label) {
                return named_class(out, env, callee);
            }
            false
        }
        What::Lean(_) => false,
        What::Leaf => {
            out.fail();
            false
        }
        What::Role(_) => {
            out.fail();
            false
        }
        What::Parts => {
            out.fail();
            false
        }
    }
}

/// A name as a class.
#[tactic(auto, using(crate::proofs::LeafLemmas::class_new))]
fn named_class(out: &mut Draft, env: &Env<'_>, callee: &Item<'_>) -> bool
    requires { ReadsTokens env.now.text.now env.now.tokens.now }
    ensures before { out.new.failed ≡ false → out.old.failed ≡ false }
    ensures state { state_of out.new ≡ state_of out.old }
    ensures written { out.new.failed ≡ false → (by : rules.Env) → Knows env.now by → IfThere (IsNew by env.now.text.now env.now.tokens.now result out.old.row out.new.row) (expr_in (valued env.now.text.now env.now.tokens.now callee.now)) }
{
    match primary_at(callee) {
        Some(Primary::Ident(at)) => class_name(out, env, at),
        Some(_) => {
            out.fail();
            false
        }
        None => {
            out.fail();
            false
        }
    }
}
