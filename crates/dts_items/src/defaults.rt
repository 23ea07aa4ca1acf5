//! What follows `export default`.

ghost use Rattle.std.specs.Prelude.{◌≡◌, true, false, ℕ, Bool, List};
ghost use Rattle.es_token.specs.declared.token.Token.{Token as Tok};
ghost use Rattle.base.specs.declared.range.Range.{Range as ARange};
ghost use Rattle.es_lexer.specs.Reads.{ReadsTokens};
ghost use Rattle.es_lowering.specs.Texts.{span_of};
ghost use Rattle.es_syntax.specs.Held.{valued};
ghost use Rattle.es_syntax.specs.Roles.{decl_in, expr_in};
ghost use Rattle.es_view_modules.specs.items.Export as export;
ghost use Rattle.dts_draft.specs.Drafts.{state_of};
ghost use Rattle.dts_items.specs.Items.{InTurn};
ghost use Rattle.dts_items.specs.Exports.{ConstMade, DefaultExprMade, DefaultTurnMade, ExportMade, FunctionDefaultMade, IsExport, NamePuts};

use crate::decls::default_decl;
use crate::labels::{default_label, is_name};
use crate::sorts::{Sort, sort_of};
use dts_draft::Draft;
use dts_members::{RangeSet, is_listed};
use dts_names::Env;
use dts_types::{Ask, infer};
use es_changed::{Change, Form};
use es_expr_spans::span_of;
use es_syntax::Item;

/// A declaration after `export default`.
#[cycle(items)]
fn defaulted(out: &mut Draft, env: &Env<'_>, ranges: &RangeSet, it: &Item<'_>, inner: &Item<'_>)
    requires { ReadsTokens env.now.text.now env.now.tokens.now }
    ensures before { out.new.failed ≡ false → out.old.failed ≡ false }
    ensures written { out.new.failed ≡ false → DefaultTurnMade env.now ranges.now out.old out.new (span_of env.now.tokens.now it.now.from it.now.to) (decl_in (valued env.now.text.now env.now.tokens.now inner.now)) }
{
    match default_label(it) {
        Some(label) => {
            let group = out.open();
            let place = out.open();
            default_decl(out, env, ranges, inner);
            out.close_node(place, label, it.from, it.to);
            out.close_group(group);
        }
        None => out.fail(),
    }
}

/// A function after `export default`, which is dropped where it is the body of overloads.
#[cycle(items)]
fn default_function(
    out: &mut Draft,
    env: &Env<'_>,
    ranges: &RangeSet,
    it: &Item<'_>,
    inner: &Item<'_>,
)
    requires { ReadsTokens env.now.text.now env.now.tokens.now }
    ensures before { out.new.failed ≡ false → out.old.failed ≡ false }
    ensures written { out.new.failed ≡ false → FunctionDefaultMade env.now ranges.now out.old out.new (span_of env.now.tokens.now it.now.from it.now.to) (decl_in (valued env.now.text.now env.now.tokens.now inner.now)) }
{
    if is_listed(ranges, span_of(env.tokens, it.from, it.to)) {
        out.dropped(it.from, it.to);
    } else {
        defaulted(out, env, ranges, it, inner);
    }
}

/// An item that exports a declaration by default.
#[cycle(items)]
pub(crate) fn export_default(
    out: &mut Draft,
    env: &Env<'_>,
    ranges: &RangeSet,
    it: &Item<'_>,
    inner: &Item<'_>,
)
    requires { ReadsTokens env.now.text.now env.now.tokens.now }
    ensures before { out.new.failed ≡ false → out.old.failed ≡ false }
    ensures written { out.new.failed ≡ false → (top : Bool) → ExportMade env.now ranges.now top out.old out.new (export.default_decl (span_of env.now.tokens.now it.now.from it.now.to) (decl_in (valued env.now.text.now env.now.tokens.now inner.now))) }
{
    match sort_of(inner) {
        Sort::Function => default_function(out, env, ranges, it, inner),
        Sort::Type => defaulted(out, env, ranges, it, inner),
        Sort::Using => defaulted(out, env, ranges, it, inner),
        Sort::Other => defaulted(out, env, ranges, it, inner),
    }
}

/// The type of a default: literals have wide types, arrays and properties are `readonly`.
fn type_of_default() -> Ask
    ensures literal { result.literal ≡ false }
    ensures readonly { result.readonly ≡ true }
    ensures frozen { result.frozen ≡ false }
{
    Ask {
        literal: false,
        readonly: true,
        frozen: false,
    }
}

/// `declare const` of the made name of this number, with the type of an expression, in a turn; nothing without a type.
fn made_const(out: &mut Draft, env: &Env<'_>, number: u32, e: &Item<'_>) -> bool
    requires { ReadsTokens env.now.text.now env.now.tokens.now }
    ensures before { out.new.failed ≡ false → out.old.failed ≡ false }
    ensures written { out.new.failed ≡ false → ConstMade env.now out.old out.new number result (expr_in (valued env.now.text.now env.now.tokens.now e.now)) }
{
    let group = out.open();
    let place = out.open();
    out.bare(Form::MadeName, number, 0);
    if !infer(out, env, e, type_of_default()) {
        out.back_to(group);
        return false;
    }
    out.close_form(place, Form::DefaultConst);
    out.close_group(group);
    true
}

/// `export default` of the made name of this number, in a turn, in the place of an item.
fn made_default(out: &mut Draft, number: u32, it: &Item<'_>)
    ensures before { out.new.failed ≡ false → out.old.failed ≡ false }
    ensures state { state_of out.new ≡ state_of out.old }
    ensures written { out.new.failed ≡ false → (x : List ℕ) (ts : List Tok) → NamePuts x ts out.old.row out.new.row number (span_of ts it.now.from it.now.to) }
{
    let group = out.open();
    let place = out.open();
    out.bare(Form::MadeName, number, 0);
    out.gone(it.to);
    out.close(place, Change::Form(Form::DefaultName), it.from, it.to);
    out.close_group(group);
}

/// An expression that is no name: a made name is drawn before its type is asked for.
fn other_default(out: &mut Draft, env: &Env<'_>, turn: &Item<'_>, it: &Item<'_>, e: &Item<'_>)
    requires { ReadsTokens env.now.text.now env.now.tokens.now }
    ensures before { out.new.failed ≡ false → out.old.failed ≡ false }
    ensures written { out.new.failed ≡ false → InTurn turn.now it.now → IsExport env.now it.now (export.default_expr (span_of env.now.tokens.now it.now.from it.now.to) (expr_in (valued env.now.text.now env.now.tokens.now e.now))) → DefaultExprMade env.now out.old out.new (span_of env.now.tokens.now it.now.from it.now.to) (expr_in (valued env.now.text.now env.now.tokens.now e.now)) }
{
    let number = out.draw();
    if made_const(out, env, number, e) {
        made_default(out, number, it);
    } else {
        out.keep_there(turn);
    }
}

/// An item that exports an expression by default; a name stays.
pub(crate) fn default_expr(
    out: &mut Draft,
    env: &Env<'_>,
    turn: &Item<'_>,
    it: &Item<'_>,
    e: &Item<'_>,
)
    requires { ReadsTokens env.now.text.now env.now.tokens.now }
    ensures before { out.new.failed ≡ false → out.old.failed ≡ false }
    ensures written { out.new.failed ≡ false → InTurn turn.now it.now → IsExport env.now it.now (export.default_expr (span_of env.now.tokens.now it.now.from it.now.to) (expr_in (valued env.now.text.now env.now.tokens.now e.now))) → (ranges : List ARange) (top : Bool) → ExportMade env.now ranges top out.old out.new (export.default_expr (span_of env.now.tokens.now it.now.from it.now.to) (expr_in (valued env.now.text.now env.now.tokens.now e.now))) }
{
    if is_name(e) {
        out.keep_there(turn);
    } else {
        other_default(out, env, turn, it, e);
    }
}
