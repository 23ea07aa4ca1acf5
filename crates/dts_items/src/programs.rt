//! Programs.

ghost use Rattle.std.specs.Prelude.{◌≡◌, false};
ghost use Rattle.es_lexer.specs.Reads.{ReadsTokens};
ghost use Rattle.es_lowering.specs.Value.{part};
ghost use Rattle.es_lowering.specs.Modules.{module_, script};
ghost use Rattle.es_lowering.specs.Texts.{span_of};
ghost use Rattle.es_syntax.specs.Held.{held, valued};
ghost use Rattle.es_syntax.specs.Roles.{program_in};
ghost use Rattle.dts_items.specs.Programs.{ProgramMade};

use crate::items::items;
use dts_draft::Draft;
use dts_enums::keep_part;
use dts_members::RangeSet;
use dts_names::Env;
use es_grammar::NodeKind;
use es_syntax::{Item, Siblings, What};

/// A module of these parts, from one token up to another.
fn module(
    out: &mut Draft,
    env: &Env<'_>,
    ranges: &RangeSet,
    from: u32,
    to: u32,
    parts: &Siblings<'_>,
)
    requires { ReadsTokens env.now.text.now env.now.tokens.now }
    ensures before { out.new.failed ≡ false → out.old.failed ≡ false }
    ensures written { out.new.failed ≡ false → ProgramMade env.now ranges.now out.old out.new (module_ env.now.text.now env.now.tokens.now (span_of env.now.tokens.now from to) (held env.now.text.now env.now.tokens.now parts.now.entries.now)) }
{
    let place = out.open();
    keep_part(out, parts, 0);
    let group = out.open();
    items(out, env, ranges, &parts.group_at(1), true);
    out.close_group(group);
    out.close_node(place, NodeKind::Module, from, to);
}

/// A script of these parts.
fn script(
    out: &mut Draft,
    env: &Env<'_>,
    ranges: &RangeSet,
    from: u32,
    to: u32,
    parts: &Siblings<'_>,
)
    requires { ReadsTokens env.now.text.now env.now.tokens.now }
    ensures before { out.new.failed ≡ false → out.old.failed ≡ false }
    ensures written { out.new.failed ≡ false → ProgramMade env.now ranges.now out.old out.new (script env.now.text.now env.now.tokens.now (span_of env.now.tokens.now from to) (held env.now.text.now env.now.tokens.now parts.now.entries.now)) }
{
    let place = out.open();
    keep_part(out, parts, 0);
    let group = out.open();
    items(out, env, ranges, &parts.group_at(1), true);
    out.close_group(group);
    out.close_node(place, NodeKind::Script, from, to);
}

/// A program.
fn program(out: &mut Draft, env: &Env<'_>, ranges: &RangeSet, it: &Item<'_>)
    requires { ReadsTokens env.now.text.now env.now.tokens.now }
    ensures before { out.new.failed ≡ false → out.old.failed ≡ false }
    ensures written { out.new.failed ≡ false → ProgramMade env.now ranges.now out.old out.new (program_in (valued env.now.text.now env.now.tokens.now it.now)) }
{
    match it.what {
        What::Node(label) => match label {
            NodeKind::Module => module(out, env, ranges, it.from, it.to, &it.parts),
            NodeKind::Script => script(out, env, ranges, it.from, it.to, &it.parts),
            _ => out.fail(),
        },
        What::Leaf => out.fail(),
        What::Role(_) => out.fail(),
        What::Parts => out.fail(),
        What::Lean(_) => out.fail(),
    }
}

/// Writes the declarations of the program that is first in a row; these are the ranges of the bodies of overloads.
pub fn declared_program(out: &mut Draft, env: &Env<'_>, ranges: &RangeSet, row: &Siblings<'_>)
    requires { ReadsTokens env.now.text.now env.now.tokens.now }
    ensures before { out.new.failed ≡ false → out.old.failed ≡ false }
    ensures written { out.new.failed ≡ false → ProgramMade env.now ranges.now out.old out.new (program_in (part (held env.now.text.now env.now.tokens.now row.now.entries.now) 0)) }
{
    match row.part(0) {
        Some(it) => program(out, env, ranges, &it),
        None => out.fail(),
    }
}
