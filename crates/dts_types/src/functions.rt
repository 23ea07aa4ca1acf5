//! The types of functions and arrows.

ghost use Rattle.std.specs.Prelude.{◌≡◌, ◌<◌, false, true, ℕ, List, [], ◌∷◌, Bool, Option, None, option_map, length, slice_get, IfSome};
ghost use Rattle.base.specs.declared.range.Range.{Range as ARange};
ghost use Rattle.es_token.specs.declared.token.Token.{Token as Tok};
ghost use Rattle.es_ast.specs.declared.ts.ts.TsPart.TheVariants as vPart;
ghost use Rattle.es_ast.specs.declared.ast.Expr.TheVariants as vExpr;
ghost use Rattle.es_lexer.specs.Reads.{ReadsTokens};
ghost use Rattle.es_lowering.specs.Value.{optional, type_at, type_params_at};
ghost use Rattle.es_lowering.specs.Functions.{function, name_param};
ghost use Rattle.es_lowering.specs.TypedFunctions as typed_functions;
ghost use Rattle.es_syntax.specs.Held.{held, valued};
ghost use Rattle.es_syntax.specs.Roles.{expr_in, params_in, signature_in, ts_type_in};
ghost use Rattle.es_view_expressions.specs.function.Function as function_view;
ghost use Rattle.es_view_statements.specs.param.Signature as signature_view;
ghost use Rattle.dts_rules.specs.Rules as rules;
ghost use Rattle.dts_rules.specs.Rules.{or_any_type};
ghost use Rattle.dts_rules.specs.Sets.{type_in};
ghost use Rattle.dts_draft.specs.Drafts.{state_of};
ghost use Rattle.dts_draft.specs.Written.{IfThere, Puts};
ghost use Rattle.dts_names.specs.Names.{Knows};
ghost use Rattle.dts_types.specs.declared.ask.Ask.{Ask as AnAsk};
ghost use Rattle.dts_types.specs.Types.{IsFunction, ParamsGroup, Inferred, FunctionBy, TypedBy};

use crate::ask::Ask;
use crate::params::{name_params, params_type};
use dts_draft::Draft;
use dts_names::Env;
use es_changed::{Form, Word};
use es_syntax::{Item, Siblings};
use es_view_expressions::function::{
    Function, FunctionHead, function_at, plain_function, typed_function,
};
use es_view_statements::param::{Signature, signature_at};

/// The type of a function or an arrow, whether its value is frozen or not.
#[cycle(types)]
pub(crate) fn function_type(out: &mut Draft, env: &Env<'_>, it: &Item<'_>, ask: Ask) -> bool
    requires { ReadsTokens env.now.text.now env.now.tokens.now }
    ensures before { out.new.failed ≡ false → out.old.failed ≡ false }
    ensures written { out.new.failed ≡ false → Inferred env.now ask out.old out.new result (expr_in (valued env.now.text.now env.now.tokens.now it.now)) }
{
    match function_at(it) {
        Some(Function::Plain { is_async, parts }) => {
            plain_head(out, env, is_async, &parts);
            true
        }
        Some(Function::Typed { is_async, parts }) => {
            typed_head(out, env, is_async, &parts);
            true
        }
        Some(
            Function::NameArrow {
                is_async: _,
                param,
                body: _,
            },
        ) => {
            name_arrow(out, param);
            true
        }
        Some(
            Function::Arrow {
                is_async: _,
                params,
                body: _,
            },
        ) => {
            plain_type(out, env, &params);
            true
        }
        Some(
            Function::TypedArrow {
                is_async: _,
                type_params,
                params,
                return_type,
                body: _,
            },
        ) => {
            typed_type(out, env, &type_params, &params, &return_type);
            true
        }
        Some(Function::Class(_)) => {
            out.fail();
            false
        }
        Some(
            Function::TypedClass {
                is_abstract: _,
                parts: _,
            },
        ) => {
            out.fail();
            false
        }
        Some(Function::Broken) => {
            out.fail();
            false
        }
        None => {
            out.fail();
            false
        }
    }
}

/// The type of a function with these parts.
#[cycle(types)]
fn plain_head(out: &mut Draft, env: &Env<'_>, is_async: bool, parts: &Siblings<'_>)
    requires { ReadsTokens env.now.text.now env.now.tokens.now }
    ensures before { out.new.failed ≡ false → out.old.failed ≡ false }
    ensures written { out.new.failed ≡ false → (ask : AnAsk) (r : ARange) → Inferred env.now ask out.old out.new true (option_map vExpr.Fn (function env.now.text.now env.now.tokens.now is_async r (held env.now.text.now env.now.tokens.now parts.now.entries.now))) }
{
    match plain_function(is_async, parts) {
        FunctionHead::Plain {
            is_async: _,
            is_generator: _,
            name: _,
            params,
            body: _,
        } => plain_type(out, env, &params),
        FunctionHead::Typed {
            is_async: _,
            is_generator: _,
            name: _,
            signature: _,
            body: _,
        } => out.fail(),
        FunctionHead::Broken => out.fail(),
    }
}

/// The type of a function of TypeScript with these parts.
#[cycle(types)]
fn typed_head(out: &mut Draft, env: &Env<'_>, is_async: bool, parts: &Siblings<'_>)
    requires { ReadsTokens env.now.text.now env.now.tokens.now }
    ensures before { out.new.failed ≡ false → out.old.failed ≡ false }
    ensures written { out.new.failed ≡ false → (ask : AnAsk) (r : ARange) → Inferred env.now ask out.old out.new true (option_map vExpr.Fn (typed_functions.typed_function env.now.text.now env.now.tokens.now is_async r (held env.now.text.now env.now.tokens.now parts.now.entries.now))) }
{
    match typed_function(is_async, parts) {
        FunctionHead::Typed {
            is_async: _,
            is_generator: _,
            name: _,
            signature,
            body: _,
        } => signature_type(out, env, &signature),
        FunctionHead::Plain {
            is_async: _,
            is_generator: _,
            name: _,
            params: _,
            body: _,
        } => out.fail(),
        FunctionHead::Broken => out.fail(),
    }
}

/// The type of a function with this signature.
#[cycle(types)]
fn signature_type(out: &mut Draft, env: &Env<'_>, signature: &Item<'_>)
    requires { ReadsTokens env.now.text.now env.now.tokens.now }
    ensures before { out.new.failed ≡ false → out.old.failed ≡ false }
    ensures written { out.new.failed ≡ false → TypedBy env.now out.old out.new (signature_in (valued env.now.text.now env.now.tokens.now signature.now)) }
{
    match signature_at(signature) {
        Some(
            Signature::Typed {
                type_params,
                params,
                return_type,
            },
        ) => typed_type(out, env, &type_params, &params, &return_type),
        Some(Signature::Broken) => out.fail(),
        None => out.fail(),
    }
}

/// `a => b`
fn name_arrow(out: &mut Draft, param: u32)
    ensures before { out.new.failed ≡ false → out.old.failed ≡ false }
    ensures written { out.new.failed ≡ false → (by : rules.Env) (x : List ℕ) (ts : List Tok) → IfThere (λ t. IsFunction x ts by out.old out.new (None, name_param x t ∷ [], None)) (slice_get ts param) }
{
    let place = out.open();
    out.absent();
    name_params(out, param);
    out.word(Word::Any);
    out.close_form(place, Form::Function);
}

/// The type of a function without type parameters and a result.
#[cycle(types)]
fn plain_type(out: &mut Draft, env: &Env<'_>, params: &Item<'_>)
    requires { ReadsTokens env.now.text.now env.now.tokens.now }
    ensures before { out.new.failed ≡ false → out.old.failed ≡ false }
    ensures written { out.new.failed ≡ false → FunctionBy env.now out.old out.new (params_in (valued env.now.text.now env.now.tokens.now params.now)) }
{
    let place = out.open();
    out.absent();
    params_type(out, env, params);
    out.word(Word::Any);
    out.close_form(place, Form::Function);
}

/// The type of a function with type parameters, or without them, and a result or none.
#[cycle(types)]
fn typed_type(
    out: &mut Draft,
    env: &Env<'_>,
    type_params: &Siblings<'_>,
    params: &Item<'_>,
    return_type: &Siblings<'_>,
)
    requires { ReadsTokens env.now.text.now env.now.tokens.now }
    ensures before { out.new.failed ≡ false → out.old.failed ≡ false }
    ensures written { out.new.failed ≡ false → TypedBy env.now out.old out.new (signature_view.typed (held env.now.text.now env.now.tokens.now type_params.now.entries.now) (params_in (valued env.now.text.now env.now.tokens.now params.now)) (held env.now.text.now env.now.tokens.now return_type.now.entries.now)) }
{
    let place = out.open();
    type_params_group(out, type_params);
    params_type(out, env, params);
    result_type(out, return_type);
    out.close_form(place, Form::Function);
}

/// Type parameters or none, as a group.
fn type_params_group(out: &mut Draft, type_params: &Siblings<'_>)
    ensures before { out.new.failed ≡ false → out.old.failed ≡ false }
    ensures state { state_of out.new ≡ state_of out.old }
    ensures written { out.new.failed ≡ false → (x : List ℕ) (ts : List Tok) → IfThere (ParamsGroup x ts out.old.row out.new.row) (option_map (λ ps. option_map vPart.TypeParams ps) (optional type_params_at (held x ts type_params.now.entries.now))) }
{
    match type_params.split() {
        Some((list, _)) => {
            let group = out.open();
            out.keep(&list);
            out.close_group(group);
        }
        None => out.absent(),
    }
}

/// The type of a result, or `any`.
fn result_type(out: &mut Draft, return_type: &Siblings<'_>)
    ensures before { out.new.failed ≡ false → out.old.failed ≡ false }
    ensures state { state_of out.new ≡ state_of out.old }
    ensures written { out.new.failed ≡ false → (x : List ℕ) (ts : List Tok) → IfThere (λ ty. Puts x ts ts_type_in out.old.row out.new.row (or_any_type (type_in ty))) (option_map (λ ty. option_map vPart.TypeAnn ty) (optional type_at (held x ts return_type.now.entries.now))) }
{
    match return_type.split() {
        Some((ty, _)) => out.keep(&ty),
        None => out.word(Word::Any),
    }
}
