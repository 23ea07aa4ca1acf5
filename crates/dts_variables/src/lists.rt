//! Variables, with their declarators one after the other.

ghost use Rattle.std.specs.Prelude.{◌≡◌, false};
ghost use Rattle.es_lexer.specs.Reads.{ReadsTokens};
ghost use Rattle.es_lowering.specs.Value.{as_group, declarator_at, turns};
ghost use Rattle.es_lowering.specs.Texts.{span_of};
ghost use Rattle.es_lowering.specs.Statements.{variables};
ghost use Rattle.es_syntax.specs.Held.{held, valued};
ghost use Rattle.es_syntax.specs.Roles.{variables_in};
ghost use Rattle.dts_variables.specs.Steps.{OthersBy, TurnBy, TurnsBy};
ghost use Rattle.dts_variables.specs.Variables.{VariablesBy};

use crate::declarators::declarator;
use dts_draft::Draft;
use dts_enums::{keep_others, keep_part};
use dts_names::Env;
use es_grammar::NodeKind;
use es_syntax::{Item, Siblings, What};

/// The declarator in a turn.
fn declarator_turn(out: &mut Draft, env: &Env<'_>, turn: &Item<'_>)
    requires { ReadsTokens env.now.text.now env.now.tokens.now }
    ensures before { out.new.failed ≡ false → out.old.failed ≡ false }
    ensures written { out.new.failed ≡ false → TurnBy env.now out.old out.new (declarator_at (as_group (valued env.now.text.now env.now.tokens.now turn.now)) 0) }
{
    let parts = turn.group();
    let place = out.open();
    match parts.part(0) {
        Some(it) => {
            declarator(out, env, &it);
            keep_others(out, &parts);
            out.close_group(place);
        }
        None => out.fail(),
    }
}

/// The declarators in these turns.
fn all_declarators(out: &mut Draft, env: &Env<'_>, all: &Siblings<'_>)
    requires { ReadsTokens env.now.text.now env.now.tokens.now }
    ensures before { out.new.failed ≡ false → out.old.failed ≡ false }
    ensures written { out.new.failed ≡ false → TurnsBy env.now out.old out.new (turns (λ turn. declarator_at turn 0) (held env.now.text.now env.now.tokens.now all.now.entries.now)) }
{
    let mut row = *all;
    while let Some((turn, rest)) = row.split() {
        declarator_turn(out, env, &turn);
        row = rest;
    }
}

/// The same as a group.
fn others(out: &mut Draft, env: &Env<'_>, all: &Siblings<'_>)
    requires { ReadsTokens env.now.text.now env.now.tokens.now }
    ensures before { out.new.failed ≡ false → out.old.failed ≡ false }
    ensures written { out.new.failed ≡ false → OthersBy env.now out.old out.new (turns (λ turn. declarator_at turn 0) (held env.now.text.now env.now.tokens.now all.now.entries.now)) }
{
    let group = out.open();
    all_declarators(out, env, all);
    out.close_group(group);
}

/// Variables of these parts, from one token up to another.
fn variables_node(out: &mut Draft, env: &Env<'_>, from: u32, to: u32, parts: &Siblings<'_>)
    requires { ReadsTokens env.now.text.now env.now.tokens.now }
    ensures before { out.new.failed ≡ false → out.old.failed ≡ false }
    ensures written { out.new.failed ≡ false → VariablesBy env.now out.old out.new (span_of env.now.tokens.now from to) (variables env.now.tokens.now (held env.now.text.now env.now.tokens.now parts.now.entries.now)) }
{
    let place = out.open();
    keep_part(out, parts, 0);
    match parts.part(1) {
        Some(first) => {
            declarator(out, env, &first);
            others(out, env, &parts.group_at(2));
            out.close_node(place, NodeKind::Variables, from, to);
        }
        None => out.fail(),
    }
}

/// Writes `var`, `let` or `const` with its declarators as their declaration has them: without values, and names with types.
pub fn variables(out: &mut Draft, env: &Env<'_>, it: &Item<'_>)
    requires { ReadsTokens env.now.text.now env.now.tokens.now }
    ensures before { out.new.failed ≡ false → out.old.failed ≡ false }
    ensures written { out.new.failed ≡ false → VariablesBy env.now out.old out.new (span_of env.now.tokens.now it.now.from it.now.to) (variables_in (valued env.now.text.now env.now.tokens.now it.now)) }
{
    match it.what {
        What::Node(label) => match label {
            NodeKind::Variables => variables_node(out, env, it.from, it.to, &it.parts),
            _ => out.fail(),
        },
        What::Leaf => out.fail(),
        What::Role(_) => out.fail(),
        What::Parts => out.fail(),
        What::Lean(_) => out.fail(),
    }
}
