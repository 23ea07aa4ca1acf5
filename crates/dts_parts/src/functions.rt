//! Functions without their bodies.

ghost use Rattle.std.specs.Prelude.{◌≡◌, false, true, List, ℕ};
ghost use Rattle.es_token.specs.declared.token.Token.{Token as Tok};
ghost use Rattle.es_lexer.specs.Reads.{ReadsTokens};
ghost use Rattle.es_grammar.specs.declared.rows.NodeKind.TheVariants as l;
ghost use Rattle.es_lowering.specs.Texts.{span_of};
ghost use Rattle.es_lowering.specs.Functions as plain_functions;
ghost use Rattle.es_lowering.specs.TypedFunctions as typed_functions;
ghost use Rattle.es_lowering.specs.TypedParts.{typed_signature};
ghost use Rattle.es_syntax.specs.Held.{held, valued};
ghost use Rattle.es_syntax.specs.Roles.{params_in, signature_in};
ghost use Rattle.dts_draft.specs.Drafts.{state_of};
ghost use Rattle.dts_parts.specs.Steps.{ParamsMade};
ghost use Rattle.dts_parts.specs.Functions as made;
ghost use Rattle.dts_parts.specs.Functions.{Bodyless, FunctionBy, PlainMade, SignatureMade, RuledMade};

use crate::annotations::kept_group;
use crate::lists::param_list;
use dts_draft::Draft;
use dts_enums::keep_part;
use dts_names::Env;
use es_grammar::NodeKind;
use es_syntax::{Item, Siblings, What};

/// Parameters by the rules, or as they are.
fn ruled_params(out: &mut Draft, env: &Env<'_>, it: &Item<'_>, ruled: bool)
    requires { ReadsTokens env.now.text.now env.now.tokens.now }
    ensures before { out.new.failed ≡ false → out.old.failed ≡ false }
    ensures written { out.new.failed ≡ false → RuledMade env.now ruled out.old out.new (params_in (valued env.now.text.now env.now.tokens.now it.now)) }
{
    if ruled {
        param_list(out, env, it);
    } else {
        out.keep_there(it);
    }
}

/// The parameters of a function without types, from one token up to another.
fn plain_signature(out: &mut Draft, env: &Env<'_>, from: u32, to: u32, it: &Item<'_>, ruled: bool)
    requires { ReadsTokens env.now.text.now env.now.tokens.now }
    ensures before { out.new.failed ≡ false → out.old.failed ≡ false }
    ensures written { out.new.failed ≡ false → PlainMade env.now ruled out.old out.new (params_in (valued env.now.text.now env.now.tokens.now it.now)) }
{
    let place = out.open();
    out.absent();
    ruled_params(out, env, it, ruled);
    out.absent();
    out.close_node(place, NodeKind::TypedSignature, from, to);
}

/// What is before the body of a function of TypeScript, in these parts.
fn signature_node(
    out: &mut Draft,
    env: &Env<'_>,
    from: u32,
    to: u32,
    parts: &Siblings<'_>,
    ruled: bool,
)
    requires { ReadsTokens env.now.text.now env.now.tokens.now }
    ensures before { out.new.failed ≡ false → out.old.failed ≡ false }
    ensures written { out.new.failed ≡ false → SignatureMade env.now ruled out.old out.new (typed_signature (held env.now.text.now env.now.tokens.now parts.now.entries.now)) }
{
    let place = out.open();
    keep_part(out, parts, 0);
    match parts.part(1) {
        Some(it) => {
            ruled_params(out, env, &it, ruled);
            keep_part(out, parts, 2);
            out.close_node(place, NodeKind::TypedSignature, from, to);
        }
        None => out.fail(),
    }
}

/// What is before the body of a function of TypeScript.
fn ruled_signature(out: &mut Draft, env: &Env<'_>, it: &Item<'_>, ruled: bool)
    requires { ReadsTokens env.now.text.now env.now.tokens.now }
    ensures before { out.new.failed ≡ false → out.old.failed ≡ false }
    ensures written { out.new.failed ≡ false → SignatureMade env.now ruled out.old out.new (signature_in (valued env.now.text.now env.now.tokens.now it.now)) }
{
    match it.what {
        What::Node(label) => match label {
            NodeKind::TypedSignature => {
                signature_node(out, env, it.from, it.to, &it.parts, ruled)
            }
            _ => out.fail(),
        },
        What::Leaf => out.fail(),
        What::Role(_) => out.fail(),
        What::Parts => out.fail(),
        What::Lean(_) => out.fail(),
    }
}

/// `;` stays where a body may be; a body goes.
fn bodyless(out: &mut Draft, to: u32, body: &Siblings<'_>)
    ensures before { out.new.failed ≡ false → out.old.failed ≡ false }
    ensures state { state_of out.new ≡ state_of out.old }
    ensures written { out.new.failed ≡ false → (x : List ℕ) (ts : List Tok) → Bodyless x ts out.old.row out.new.row }
{
    match body.split() {
        None => out.absent(),
        Some((first, _)) => match first.what {
            What::Leaf => kept_group(out, body),
            What::Node(_) => no_body(out, to),
            What::Role(_) => no_body(out, to),
            What::Parts => no_body(out, to),
            What::Lean(_) => no_body(out, to),
        },
    }
}

/// No body; the text continues after it.
fn no_body(out: &mut Draft, to: u32)
    ensures before { out.new.failed ≡ false → out.old.failed ≡ false }
    ensures state { state_of out.new ≡ state_of out.old }
    ensures written { out.new.failed ≡ false → (x : List ℕ) (ts : List Tok) → Bodyless x ts out.old.row out.new.row }
{
    out.absent();
    out.gone(to);
}

/// Functions of TypeScript, with `async` or not.
fn typed_label(is_async: bool) -> NodeKind
    ensures { result ≡ made.typed_label is_async }
{
    if is_async {
        return NodeKind::TypedAsyncFunction;
    }
    NodeKind::TypedFunction
}

/// A function without types, in these parts; its parameters by the rules, or as they are.
pub fn plain_function(out: &mut Draft, env: &Env<'_>, is_async: bool, it: &Item<'_>, ruled: bool)
    requires { ReadsTokens env.now.text.now env.now.tokens.now }
    ensures before { out.new.failed ≡ false → out.old.failed ≡ false }
    ensures written { out.new.failed ≡ false → FunctionBy env.now ruled out.old out.new (span_of env.now.tokens.now it.now.from it.now.to) (plain_functions.function env.now.text.now env.now.tokens.now is_async (span_of env.now.tokens.now it.now.from it.now.to) (held env.now.text.now env.now.tokens.now it.now.parts.entries.now)) }
{
    let place = out.open();
    keep_part(out, &it.parts, 0);
    keep_part(out, &it.parts, 1);
    match it.parts.part(2) {
        Some(list) => {
            plain_signature(out, env, list.from, list.to, &list, ruled);
            no_body(out, it.to);
            out.close_node(place, typed_label(is_async), it.from, it.to);
        }
        None => out.fail(),
    }
}

/// The same of TypeScript.
pub fn typed_function(out: &mut Draft, env: &Env<'_>, is_async: bool, it: &Item<'_>, ruled: bool)
    requires { ReadsTokens env.now.text.now env.now.tokens.now }
    ensures before { out.new.failed ≡ false → out.old.failed ≡ false }
    ensures written { out.new.failed ≡ false → FunctionBy env.now ruled out.old out.new (span_of env.now.tokens.now it.now.from it.now.to) (typed_functions.typed_function env.now.text.now env.now.tokens.now is_async (span_of env.now.tokens.now it.now.from it.now.to) (held env.now.text.now env.now.tokens.now it.now.parts.entries.now)) }
{
    let place = out.open();
    keep_part(out, &it.parts, 0);
    keep_part(out, &it.parts, 1);
    match it.parts.part(2) {
        Some(signature) => {
            ruled_signature(out, env, &signature, ruled);
            bodyless(out, it.to, &it.parts.group_at(3));
            out.close_node(place, typed_label(is_async), it.from, it.to);
        }
        None => out.fail(),
    }
}
