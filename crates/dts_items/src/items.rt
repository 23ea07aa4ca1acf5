//! Items, each in a turn.

ghost use Rattle.std.specs.Prelude.{◌≡◌, false};
ghost use Rattle.es_lexer.specs.Reads.{ReadsTokens};
ghost use Rattle.es_lowering.specs.Value.{as_group, item_at, stmt_at, turns};
ghost use Rattle.es_syntax.specs.Held.{held, valued};
ghost use Rattle.es_syntax.specs.Roles.{item_in, stmt_in};
ghost use Rattle.dts_items.specs.Items.{InTurn, ItemMade, ItemsMade, StmtMade, StmtsMade};

use crate::exports::module_decl;
use crate::labels::is_module_decl;
use crate::stmts::stmt;
use dts_draft::Draft;
use dts_members::RangeSet;
use dts_names::Env;
use es_syntax::{Item, Siblings};

/// An item in this turn.
#[cycle(items)]
fn item(
    out: &mut Draft,
    env: &Env<'_>,
    ranges: &RangeSet,
    turn: &Item<'_>,
    it: &Item<'_>,
    top: bool,
)
    requires { ReadsTokens env.now.text.now env.now.tokens.now }
    ensures before { out.new.failed ≡ false → out.old.failed ≡ false }
    ensures items { out.new.failed ≡ false → InTurn turn.now it.now → ItemMade env.now ranges.now top out.old out.new (item_in (valued env.now.text.now env.now.tokens.now it.now)) }
    ensures stmts { out.new.failed ≡ false → InTurn turn.now it.now → StmtMade env.now ranges.now top out.old out.new (stmt_in (valued env.now.text.now env.now.tokens.now it.now)) }
{
    if is_module_decl(it) {
        module_decl(out, env, ranges, turn, it, top);
    } else {
        stmt(out, env, ranges, turn, it, top);
    }
}

/// The item of a turn.
#[cycle(items)]
fn item_turn(out: &mut Draft, env: &Env<'_>, ranges: &RangeSet, turn: &Item<'_>, top: bool)
    requires { ReadsTokens env.now.text.now env.now.tokens.now }
    ensures before { out.new.failed ≡ false → out.old.failed ≡ false }
    ensures items { out.new.failed ≡ false → ItemMade env.now ranges.now top out.old out.new (item_at (as_group (valued env.now.text.now env.now.tokens.now turn.now)) 0) }
    ensures stmts { out.new.failed ≡ false → StmtMade env.now ranges.now top out.old out.new (stmt_at (as_group (valued env.now.text.now env.now.tokens.now turn.now)) 0) }
{
    let parts = turn.group();
    match parts.part(0) {
        Some(it) => item(out, env, ranges, turn, &it, top),
        None => out.fail(),
    }
}

/// Writes items and statements; what the rules drop isn't written.
#[cycle(items)]
pub(crate) fn items(
    out: &mut Draft,
    env: &Env<'_>,
    ranges: &RangeSet,
    body: &Siblings<'_>,
    top: bool,
)
    requires { ReadsTokens env.now.text.now env.now.tokens.now }
    ensures before { out.new.failed ≡ false → out.old.failed ≡ false }
    ensures items { out.new.failed ≡ false → ItemsMade env.now ranges.now top out.old out.new (turns (λ turn. item_at turn 0) (held env.now.text.now env.now.tokens.now body.now.entries.now)) }
    ensures stmts { out.new.failed ≡ false → StmtsMade env.now ranges.now top out.old out.new (turns (λ turn. stmt_at turn 0) (held env.now.text.now env.now.tokens.now body.now.entries.now)) }
{
    let mut row = *body;
    while let Some((turn, rest)) = row.split() {
        item_turn(out, env, ranges, &turn, top);
        row = rest;
    }
}
