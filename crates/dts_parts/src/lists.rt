//! Lists of parameters.

ghost use Rattle.std.specs.Prelude.{◌≡◌, false, List};
ghost use Rattle.es_lexer.specs.Reads.{ReadsTokens};
ghost use Rattle.es_lowering.specs.Value.{as_group, param_at, turns};
ghost use Rattle.es_lowering.specs.Functions.{parameters, signature};
ghost use Rattle.es_lowering.specs.TypedParts.{typed_parameters};
ghost use Rattle.es_lowering.specs.Lowering.{params_of};
ghost use Rattle.es_syntax.specs.Held.{held, valued};
ghost use Rattle.es_syntax.specs.Roles.{params_in};
ghost use Rattle.dts_parts.specs.Steps.{TurnMade, TurnsMade, ParamsMade};

use crate::params::param;
use dts_draft::Draft;
use dts_enums::{keep_others, keep_part};
use dts_names::Env;
use es_grammar::NodeKind;
use es_syntax::{Item, Siblings, What};

/// The parameter in a turn.
fn param_turn(out: &mut Draft, env: &Env<'_>, turn: &Item<'_>)
    requires { ReadsTokens env.now.text.now env.now.tokens.now }
    ensures before { out.new.failed ≡ false → out.old.failed ≡ false }
    ensures written { out.new.failed ≡ false → TurnMade env.now out.old out.new (param_at (as_group (valued env.now.text.now env.now.tokens.now turn.now)) 0) }
{
    let parts = turn.group();
    let place = out.open();
    match parts.part(0) {
        Some(it) => {
            param(out, env, &it);
            keep_others(out, &parts);
            out.close_group(place);
        }
        None => out.fail(),
    }
}

/// The parameters in these turns.
fn all_params(out: &mut Draft, env: &Env<'_>, all: &Siblings<'_>)
    requires { ReadsTokens env.now.text.now env.now.tokens.now }
    ensures before { out.new.failed ≡ false → out.old.failed ≡ false }
    ensures written { out.new.failed ≡ false → TurnsMade env.now out.old out.new (turns (λ turn. param_at turn 0) (held env.now.text.now env.now.tokens.now all.now.entries.now)) }
{
    let mut row = *all;
    while let Some((turn, rest)) = row.split() {
        param_turn(out, env, &turn);
        row = rest;
    }
}

/// A list of parameters, from one token up to another; the last after `...` stays.
fn plain_list(out: &mut Draft, env: &Env<'_>, from: u32, to: u32, parts: &Siblings<'_>)
    requires { ReadsTokens env.now.text.now env.now.tokens.now }
    ensures before { out.new.failed ≡ false → out.old.failed ≡ false }
    ensures written { out.new.failed ≡ false → ParamsMade env.now out.old out.new (parameters env.now.tokens.now (held env.now.text.now env.now.tokens.now parts.now.entries.now)) }
{
    let place = out.open();
    let group = out.open();
    all_params(out, env, &parts.group_at(0));
    out.close_group(group);
    keep_part(out, parts, 1);
    out.close_node(place, NodeKind::Parameters, from, to);
}

/// The same of TypeScript.
fn typed_list(out: &mut Draft, env: &Env<'_>, from: u32, to: u32, parts: &Siblings<'_>)
    requires { ReadsTokens env.now.text.now env.now.tokens.now }
    ensures before { out.new.failed ≡ false → out.old.failed ≡ false }
    ensures written { out.new.failed ≡ false → ParamsMade env.now out.old out.new (typed_parameters env.now.tokens.now (held env.now.text.now env.now.tokens.now parts.now.entries.now)) }
{
    let place = out.open();
    let group = out.open();
    all_params(out, env, &parts.group_at(0));
    out.close_group(group);
    keep_part(out, parts, 1);
    out.close_node(place, NodeKind::TypedParameters, from, to);
}

/// A list in parentheses.
#[cycle(lists)]
fn bracketed_list(out: &mut Draft, env: &Env<'_>, from: u32, to: u32, parts: &Siblings<'_>)
    requires { ReadsTokens env.now.text.now env.now.tokens.now }
    ensures before { out.new.failed ≡ false → out.old.failed ≡ false }
    ensures written { out.new.failed ≡ false → ParamsMade env.now out.old out.new (signature (held env.now.text.now env.now.tokens.now parts.now.entries.now)) }
{
    let place = out.open();
    match parts.part(0) {
        Some(inner) => {
            param_list(out, env, &inner);
            out.close_node(place, NodeKind::Signature, from, to);
        }
        None => out.fail(),
    }
}

/// A list of parameters in a node of this alternative.
#[cycle(lists)]
fn params_node(
    out: &mut Draft,
    env: &Env<'_>,
    label: NodeKind,
    from: u32,
    to: u32,
    parts: &Siblings<'_>,
)
    requires { ReadsTokens env.now.text.now env.now.tokens.now }
    ensures before { out.new.failed ≡ false → out.old.failed ≡ false }
    ensures written { out.new.failed ≡ false → ParamsMade env.now out.old out.new (params_of env.now.text.now env.now.tokens.now label (held env.now.text.now env.now.tokens.now parts.now.entries.now)) }
{
    match label {
        NodeKind::Parameters => plain_list(out, env, from, to, parts),
        NodeKind::TypedParameters => typed_list(out, env, from, to, parts),
        NodeKind::Signature => bracketed_list(out, env, from, to, parts),
        _ => out.fail(),
    }
}

/// A list of parameters as its declaration has them, one after the other.
#[cycle(lists)]
pub fn param_list(out: &mut Draft, env: &Env<'_>, it: &Item<'_>)
    requires { ReadsTokens env.now.text.now env.now.tokens.now }
    ensures before { out.new.failed ≡ false → out.old.failed ≡ false }
    ensures written { out.new.failed ≡ false → ParamsMade env.now out.old out.new (params_in (valued env.now.text.now env.now.tokens.now it.now)) }
{
    match it.what {
        What::Node(label) => params_node(out, env, label, it.from, it.to, &it.parts),
        What::Leaf => out.fail(),
        What::Role(_) => out.fail(),
        What::Parts => out.fail(),
        What::Lean(_) => out.fail(),
    }
}
