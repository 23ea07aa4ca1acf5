//! Statements, each in a turn: declarations as the rules have them; any other is dropped.

ghost use Rattle.std.specs.Prelude.{◌≡◌, true, false};
ghost use Rattle.es_lexer.specs.Reads.{ReadsTokens};
ghost use Rattle.es_lowering.specs.Texts.{span_of};
ghost use Rattle.es_syntax.specs.Held.{valued};
ghost use Rattle.es_syntax.specs.Roles.{decl_in, stmt_in};
ghost use Rattle.es_view_statements.specs.decl.Decl.{declarations};
ghost use Rattle.dts_items.specs.Labels.{is_node_of, module_labels};
ghost use Rattle.dts_items.specs.Items.{DeclStmtMade, FunctionStmtMade, InTurn, StmtMade, TurnMade};

use crate::decls::decl;
use crate::labels::declares;
use crate::sorts::{Sort, sort_of};
use dts_draft::Draft;
use dts_members::{RangeSet, is_listed};
use dts_names::Env;
use es_expr_spans::span_of;
use es_syntax::Item;

/// A declaration that doesn't stay, in a turn of its own.
#[cycle(items)]
fn decl_turn(out: &mut Draft, env: &Env<'_>, ranges: &RangeSet, it: &Item<'_>, top: bool)
    requires { ReadsTokens env.now.text.now env.now.tokens.now }
    ensures before { out.new.failed ≡ false → out.old.failed ≡ false }
    ensures written { out.new.failed ≡ false → TurnMade env.now ranges.now top out.old out.new (decl_in (valued env.now.text.now env.now.tokens.now it.now)) }
{
    let place = out.open();
    decl(out, env, ranges, it, top);
    out.close_group(place);
}

/// A function, which is dropped where it is the body of overloads.
#[cycle(items)]
fn function_stmt(out: &mut Draft, env: &Env<'_>, ranges: &RangeSet, it: &Item<'_>, top: bool)
    requires { ReadsTokens env.now.text.now env.now.tokens.now }
    ensures before { out.new.failed ≡ false → out.old.failed ≡ false }
    ensures written { out.new.failed ≡ false → FunctionStmtMade env.now ranges.now top out.old out.new (span_of env.now.tokens.now it.now.from it.now.to) (decl_in (valued env.now.text.now env.now.tokens.now it.now)) }
{
    if is_listed(ranges, span_of(env.tokens, it.from, it.to)) {
        out.dropped(it.from, it.to);
    } else {
        decl_turn(out, env, ranges, it, top);
    }
}

/// A declaration as a statement; types and `using` stay as they are.
#[cycle(items)]
fn decl_stmt(
    out: &mut Draft,
    env: &Env<'_>,
    ranges: &RangeSet,
    turn: &Item<'_>,
    it: &Item<'_>,
    top: bool,
)
    requires { ReadsTokens env.now.text.now env.now.tokens.now }
    ensures before { out.new.failed ≡ false → out.old.failed ≡ false }
    ensures written { out.new.failed ≡ false → InTurn turn.now it.now → is_node_of declarations it.now.what ≡ true → DeclStmtMade env.now ranges.now top out.old out.new (decl_in (valued env.now.text.now env.now.tokens.now it.now)) }
{
    match sort_of(it) {
        Sort::Function => function_stmt(out, env, ranges, it, top),
        Sort::Type => out.keep_there(turn),
        Sort::Using => out.keep_there(turn),
        Sort::Other => decl_turn(out, env, ranges, it, top),
    }
}

/// A statement in this turn.
#[cycle(items)]
pub(crate) fn stmt(
    out: &mut Draft,
    env: &Env<'_>,
    ranges: &RangeSet,
    turn: &Item<'_>,
    it: &Item<'_>,
    top: bool,
)
    requires { ReadsTokens env.now.text.now env.now.tokens.now }
    ensures before { out.new.failed ≡ false → out.old.failed ≡ false }
    ensures written { out.new.failed ≡ false → InTurn turn.now it.now → is_node_of module_labels it.now.what ≡ false → StmtMade env.now ranges.now top out.old out.new (stmt_in (valued env.now.text.now env.now.tokens.now it.now)) }
{
    if declares(it) {
        decl_stmt(out, env, ranges, turn, it, top);
    } else {
        out.dropped(it.from, it.to);
    }
}
