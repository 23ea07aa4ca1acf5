//! Imports and exports, each in a turn.

ghost use Rattle.std.specs.Prelude.{◌≡◌, false, None};
ghost use Rattle.es_lexer.specs.Reads.{ReadsTokens};
ghost use Rattle.es_lowering.specs.Lowering.{item_by};
ghost use Rattle.es_lowering.specs.Texts.{span_of};
ghost use Rattle.es_syntax.specs.Held.{valued};
ghost use Rattle.es_syntax.specs.Roles.{decl_in, item_in};
ghost use Rattle.es_view_modules.specs.items.Export.{declaration};
ghost use Rattle.dts_items.specs.Items.{InTurn, ItemMade};
ghost use Rattle.dts_items.specs.Exports.{ExportMade, FunctionExportMade, ExportTurnMade, IsExport, NoUsing};

use crate::decls::decl;
use crate::defaults::{default_expr, export_default};
use crate::sorts::{Sort, sort_of};
use dts_draft::Draft;
use dts_members::{RangeSet, is_listed};
use dts_names::Env;
use dts_rules::FoundKind;
use es_expr_spans::span_of;
use es_grammar::NodeKind;
use es_syntax::Item;
use es_view_modules::items::{Export, export_at, import_at};

/// A declaration that doesn't stay, exported by this item.
#[cycle(items)]
fn exported(
    out: &mut Draft,
    env: &Env<'_>,
    ranges: &RangeSet,
    it: &Item<'_>,
    inner: &Item<'_>,
    top: bool,
)
    requires { ReadsTokens env.now.text.now env.now.tokens.now }
    ensures before { out.new.failed ≡ false → out.old.failed ≡ false }
    ensures written { out.new.failed ≡ false → ExportTurnMade env.now ranges.now top out.old out.new (span_of env.now.tokens.now it.now.from it.now.to) (decl_in (valued env.now.text.now env.now.tokens.now inner.now)) }
{
    let group = out.open();
    let place = out.open();
    decl(out, env, ranges, inner, top);
    out.close_node(place, NodeKind::ExportDeclaration, it.from, it.to);
    out.close_group(group);
}

/// An exported function, which is dropped where it is the body of overloads.
#[cycle(items)]
fn exported_function(
    out: &mut Draft,
    env: &Env<'_>,
    ranges: &RangeSet,
    it: &Item<'_>,
    inner: &Item<'_>,
    top: bool,
)
    requires { ReadsTokens env.now.text.now env.now.tokens.now }
    ensures before { out.new.failed ≡ false → out.old.failed ≡ false }
    ensures written { out.new.failed ≡ false → FunctionExportMade env.now ranges.now top out.old out.new (span_of env.now.tokens.now it.now.from it.now.to) (decl_in (valued env.now.text.now env.now.tokens.now inner.now)) }
{
    if is_listed(ranges, span_of(env.tokens, it.from, it.to)) {
        out.dropped(it.from, it.to);
    } else {
        exported(out, env, ranges, it, inner, top);
    }
}

/// An exported `using` is dropped, with two diagnostics.
fn no_using(out: &mut Draft, env: &Env<'_>, it: &Item<'_>, inner: &Item<'_>)
    ensures before { out.new.failed ≡ false → out.old.failed ≡ false }
    ensures written { out.new.failed ≡ false → NoUsing env.now out.old out.new (span_of env.now.tokens.now inner.now.from inner.now.to) (span_of env.now.tokens.now it.now.from it.now.to) }
{
    out.note(
        FoundKind::UnsupportedUsing,
        span_of(env.tokens, inner.from, inner.to),
    );
    out.note(
        FoundKind::UnableToInferType,
        span_of(env.tokens, it.from, it.to),
    );
    out.dropped(it.from, it.to);
}

/// An exported declaration.
#[cycle(items)]
fn export_decl(
    out: &mut Draft,
    env: &Env<'_>,
    ranges: &RangeSet,
    turn: &Item<'_>,
    it: &Item<'_>,
    inner: &Item<'_>,
    top: bool,
)
    requires { ReadsTokens env.now.text.now env.now.tokens.now }
    ensures before { out.new.failed ≡ false → out.old.failed ≡ false }
    ensures written { out.new.failed ≡ false → InTurn turn.now it.now → IsExport env.now it.now (declaration (span_of env.now.tokens.now it.now.from it.now.to) (decl_in (valued env.now.text.now env.now.tokens.now inner.now))) → ExportMade env.now ranges.now top out.old out.new (declaration (span_of env.now.tokens.now it.now.from it.now.to) (decl_in (valued env.now.text.now env.now.tokens.now inner.now))) }
{
    match sort_of(inner) {
        Sort::Function => exported_function(out, env, ranges, it, inner, top),
        Sort::Type => out.keep_there(turn),
        Sort::Using => no_using(out, env, it, inner),
        Sort::Other => exported(out, env, ranges, it, inner, top),
    }
}

/// An import stays.
fn import(
    out: &mut Draft,
    env: &Env<'_>,
    ranges: &RangeSet,
    turn: &Item<'_>,
    it: &Item<'_>,
    top: bool,
)
    ensures before { out.new.failed ≡ false → out.old.failed ≡ false }
    ensures written { out.new.failed ≡ false → InTurn turn.now it.now → ItemMade env.now ranges.now top out.old out.new (item_in (valued env.now.text.now env.now.tokens.now it.now)) }
{
    match import_at(it) {
        Some(_) => out.keep_there(turn),
        None => out.fail(),
    }
}

/// An import or an export. All but declarations and defaults stay.
#[cycle(items)]
pub(crate) fn module_decl(
    out: &mut Draft,
    env: &Env<'_>,
    ranges: &RangeSet,
    turn: &Item<'_>,
    it: &Item<'_>,
    top: bool,
)
    requires { ReadsTokens env.now.text.now env.now.tokens.now }
    ensures before { out.new.failed ≡ false → out.old.failed ≡ false }
    ensures written { out.new.failed ≡ false → InTurn turn.now it.now → ItemMade env.now ranges.now top out.old out.new (item_in (valued env.now.text.now env.now.tokens.now it.now)) }
{
    match export_at(it) {
        Some(Export::All { .. }) => out.keep_there(turn),
        Some(Export::Names { .. }) => out.keep_there(turn),
        Some(Export::Namespace(_)) => out.keep_there(turn),
        Some(Export::Assignment(_)) => out.keep_there(turn),
        Some(Export::DefaultDecl(inner)) => export_default(out, env, ranges, it, &inner),
        Some(Export::DefaultExpr(e)) => default_expr(out, env, turn, it, &e),
        Some(Export::Decl(inner)) => export_decl(out, env, ranges, turn, it, &inner, top),
        Some(Export::Broken) => out.fail(),
        None => import(out, env, ranges, turn, it, top),
    }
}
