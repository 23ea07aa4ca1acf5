//! Declarations as they are in the declarations of a program.

ghost use Rattle.std.specs.Prelude.{◌≡◌, true, false, ℕ, List, []};
ghost use Rattle.es_token.specs.declared.token.Token.{Token as Tok};
ghost use Rattle.es_lexer.specs.Reads.{ReadsTokens};
ghost use Rattle.es_lowering.specs.Texts.{span_of};
ghost use Rattle.es_syntax.specs.Held.{valued};
ghost use Rattle.es_syntax.specs.Roles.{decl_in, declarable_in, variables_in};
ghost use Rattle.es_changed.specs.Shape.{Writes};
ghost use Rattle.dts_draft.specs.Drafts.{state_of};
ghost use Rattle.dts_items.specs.Changed as changed_specs;
ghost use Rattle.dts_items.specs.Changed.{as_declared, as_variables, BlockBy, BlockDefaultBy, ChangedBy, DeclareBy, VarChangedBy, VarDeclareBy, VarMade};
ghost use Rattle.dts_items.specs.Decls.{DeclMade, DefaultMade};

use crate::blocks::block;
use dts_draft::Draft;
use dts_enums::keep_others;
use dts_members::{RangeSet, class};
use dts_names::Env;
use dts_parts::{plain_function, typed_function};
use dts_variables::variables;
use es_changed::{Change, Form};
use es_grammar::NodeKind;
use es_syntax::{Item, Siblings, What};
use es_view_statements::decl::{Decl, Declarable, decl_at, declarable_at};

/// Whether a node may follow `declare`; then, as a declaration, it is what it is there, without it.
#[tactic(auto, unfolding(es_lowering::specs::Lowering::build, es_lowering::specs::Lowering::decl_of))]
pub(crate) fn is_declarable(it: &Item<'_>) -> bool
    ensures { result ≡ true → (x : List ℕ) (ts : List Tok) → decl_in (valued x ts it.now) ≡ as_declared false (span_of ts it.now.from it.now.to) (declarable_in (valued x ts it.now)) }
{
    match it.what {
        What::Node(label) => match label {
            NodeKind::TypedFunction => true,
            NodeKind::TypedAsyncFunction => true,
            NodeKind::TypedClass => true,
            NodeKind::AbstractClass => true,
            NodeKind::InterfaceDeclaration => true,
            NodeKind::AliasDeclaration => true,
            NodeKind::EnumDeclaration => true,
            NodeKind::NamespaceDeclaration => true,
            NodeKind::ModuleDeclaration => true,
            NodeKind::GlobalDeclaration => true,
            _ => false,
        },
        What::Leaf => false,
        What::Role(_) => false,
        What::Parts => false,
        What::Lean(_) => false,
    }
}

/// The form that sets `declare` on the top, and clears it elsewhere.
fn declare_form(top: bool) -> Form
    ensures { result ≡ changed_specs.declare_form top }
{
    if top {
        return Form::Declare;
    }
    Form::Undeclare
}

/// The word `declare`, which is the first token, is dropped from the text where it is asked for.
fn drop_word(out: &mut Draft, from: u32, drops: bool)
    ensures before { out.new.failed ≡ false → out.old.failed ≡ false }
    ensures state { state_of out.new ≡ state_of out.old }
    ensures written { out.new.failed ≡ false → (x : List ℕ) (ts : List Tok) → Writes x ts out.old.row out.new.row [] }
{
    let mut to = from;
    if drops {
        to = from.saturating_add(1);
    }
    out.gone(to);
}

/// Variables with their end.
fn variable_declaration(
    out: &mut Draft,
    env: &Env<'_>,
    from: u32,
    to: u32,
    list: &Item<'_>,
    parts: &Siblings<'_>,
)
    requires { ReadsTokens env.now.text.now env.now.tokens.now }
    ensures before { out.new.failed ≡ false → out.old.failed ≡ false }
    ensures written { out.new.failed ≡ false → VarChangedBy env.now out.old out.new (as_variables false (span_of env.now.tokens.now from to) (variables_in (valued env.now.text.now env.now.tokens.now list.now))) }
{
    let place = out.open();
    variables(out, env, list);
    keep_others(out, parts);
    out.close_node(place, NodeKind::VariableDeclaration, from, to);
}

/// Variables without their end.
fn bare_variables(out: &mut Draft, env: &Env<'_>, it: &Item<'_>)
    requires { ReadsTokens env.now.text.now env.now.tokens.now }
    ensures before { out.new.failed ≡ false → out.old.failed ≡ false }
    ensures written { out.new.failed ≡ false → VarChangedBy env.now out.old out.new (decl_in (valued env.now.text.now env.now.tokens.now it.now)) }
{
    match it.what {
        What::Node(label) => match label {
            NodeKind::Variables => variables(out, env, it),
            _ => out.fail(),
        },
        What::Leaf => out.fail(),
        What::Role(_) => out.fail(),
        What::Parts => out.fail(),
        What::Lean(_) => out.fail(),
    }
}

/// `declare` before variables; the word is dropped where it is asked for.
fn declared_variables_node(
    out: &mut Draft,
    env: &Env<'_>,
    from: u32,
    to: u32,
    list: &Item<'_>,
    parts: &Siblings<'_>,
    drops: bool,
)
    requires { ReadsTokens env.now.text.now env.now.tokens.now }
    ensures before { out.new.failed ≡ false → out.old.failed ≡ false }
    ensures written { out.new.failed ≡ false → VarDeclareBy env.now out.old out.new (as_variables true (span_of env.now.tokens.now from to) (variables_in (valued env.now.text.now env.now.tokens.now list.now))) }
{
    let place = out.open();
    drop_word(out, from, drops);
    variables(out, env, list);
    keep_others(out, parts);
    out.close_node(place, NodeKind::DeclaredVariables, from, to);
}

/// The same as the rules have it on the top or elsewhere.
fn declared_variables(
    out: &mut Draft,
    env: &Env<'_>,
    from: u32,
    to: u32,
    list: &Item<'_>,
    parts: &Siblings<'_>,
    top: bool,
)
    requires { ReadsTokens env.now.text.now env.now.tokens.now }
    ensures before { out.new.failed ≡ false → out.old.failed ≡ false }
    ensures written { out.new.failed ≡ false → VarMade env.now top out.old out.new (as_variables true (span_of env.now.tokens.now from to) (variables_in (valued env.now.text.now env.now.tokens.now list.now))) }
{
    if top {
        declared_variables_node(out, env, from, to, list, parts, false);
    } else {
        let place = out.open();
        declared_variables_node(out, env, from, to, list, parts, true);
        out.close(place, Change::Form(Form::Undeclare), from, to);
    }
}

/// What may follow `declare`, but for the `declare` itself: types are written by others.
#[cycle(items)]
fn declarable(out: &mut Draft, env: &Env<'_>, ranges: &RangeSet, it: &Item<'_>)
    requires { ReadsTokens env.now.text.now env.now.tokens.now }
    ensures before { out.new.failed ≡ false → out.old.failed ≡ false }
    ensures written { out.new.failed ≡ false → BlockBy env.now ranges.now out.old out.new (span_of env.now.tokens.now it.now.from it.now.to) (declarable_in (valued env.now.text.now env.now.tokens.now it.now)) }
{
    match declarable_at(it) {
        Some(Declarable::Function { is_async, parts }) => {
            let node = Item {
                what: it.what,
                from: it.from,
                to: it.to,
                parts,
            };
            typed_function(out, env, is_async, &node, true);
        }
        Some(
            Declarable::Interface {
                name: _,
                type_params: _,
                extends: _,
                members: _,
            },
        ) => out.keep_there(it),
        Some(
            Declarable::Alias {
                name: _,
                type_params: _,
                ty: _,
            },
        ) => out.keep_there(it),
        _ => block(out, env, ranges, it),
    }
}

/// `declare` before a declaration; the word is dropped where it is asked for.
#[cycle(items)]
fn declared_node(
    out: &mut Draft,
    env: &Env<'_>,
    ranges: &RangeSet,
    from: u32,
    to: u32,
    inner: &Item<'_>,
    drops: bool,
)
    requires { ReadsTokens env.now.text.now env.now.tokens.now }
    ensures before { out.new.failed ≡ false → out.old.failed ≡ false }
    ensures written { out.new.failed ≡ false → DeclareBy env.now ranges.now out.old out.new (as_declared true (span_of env.now.tokens.now from to) (declarable_in (valued env.now.text.now env.now.tokens.now inner.now))) }
{
    let place = out.open();
    drop_word(out, from, drops);
    declarable(out, env, ranges, inner);
    out.close_node(place, NodeKind::Declared, from, to);
}

/// The same as the rules have it on the top or elsewhere.
#[cycle(items)]
fn declared(
    out: &mut Draft,
    env: &Env<'_>,
    ranges: &RangeSet,
    from: u32,
    to: u32,
    inner: &Item<'_>,
    top: bool,
)
    requires { ReadsTokens env.now.text.now env.now.tokens.now }
    ensures before { out.new.failed ≡ false → out.old.failed ≡ false }
    ensures written { out.new.failed ≡ false → DeclMade env.now ranges.now top out.old out.new (as_declared true (span_of env.now.tokens.now from to) (declarable_in (valued env.now.text.now env.now.tokens.now inner.now))) }
{
    if top {
        declared_node(out, env, ranges, from, to, inner, false);
    } else {
        let place = out.open();
        declared_node(out, env, ranges, from, to, inner, true);
        out.close(place, Change::Form(Form::Undeclare), from, to);
    }
}

/// A declaration of another form, which has no `declare`.
fn other_decl(out: &mut Draft, env: &Env<'_>, ranges: &RangeSet, it: &Item<'_>)
    requires { ReadsTokens env.now.text.now env.now.tokens.now }
    ensures before { out.new.failed ≡ false → out.old.failed ≡ false }
    ensures written { out.new.failed ≡ false → ChangedBy env.now ranges.now out.old out.new (decl_in (valued env.now.text.now env.now.tokens.now it.now)) }
{
    match decl_at(it) {
        Some(Decl::Function { is_async, parts }) => {
            let node = Item {
                what: it.what,
                from: it.from,
                to: it.to,
                parts,
            };
            plain_function(out, env, is_async, &node, true);
        }
        Some(Decl::Class(_)) => class(out, env, ranges, it),
        Some(Decl::Variables(list)) => variable_declaration(
            out, env, it.from, it.to, &list, &it.parts,
        ),
        Some(
            Decl::Var {
                word: _,
                first: _,
                others: _,
            },
        ) => bare_variables(out, env, it),
        _ => out.fail(),
    }
}

/// A declaration without `declare`, but for the `declare` that it gets on the top.
#[cycle(items)]
fn changed(out: &mut Draft, env: &Env<'_>, ranges: &RangeSet, it: &Item<'_>)
    requires { ReadsTokens env.now.text.now env.now.tokens.now }
    ensures before { out.new.failed ≡ false → out.old.failed ≡ false }
    ensures written { out.new.failed ≡ false → ChangedBy env.now ranges.now out.old out.new (decl_in (valued env.now.text.now env.now.tokens.now it.now)) }
{
    if is_declarable(it) {
        declarable(out, env, ranges, it);
    } else {
        other_decl(out, env, ranges, it);
    }
}

/// The same as the rules have it on the top or elsewhere.
#[cycle(items)]
fn undeclared(out: &mut Draft, env: &Env<'_>, ranges: &RangeSet, it: &Item<'_>, top: bool)
    requires { ReadsTokens env.now.text.now env.now.tokens.now }
    ensures before { out.new.failed ≡ false → out.old.failed ≡ false }
    ensures written { out.new.failed ≡ false → DeclMade env.now ranges.now top out.old out.new (decl_in (valued env.now.text.now env.now.tokens.now it.now)) }
{
    let place = out.open();
    changed(out, env, ranges, it);
    let form = declare_form(top);
    out.close(place, Change::Form(form), it.from, it.to);
}

/// A declaration that doesn't stay, after `declare` on the top, without it elsewhere.
#[cycle(items)]
pub(crate) fn decl(out: &mut Draft, env: &Env<'_>, ranges: &RangeSet, it: &Item<'_>, top: bool)
    requires { ReadsTokens env.now.text.now env.now.tokens.now }
    ensures before { out.new.failed ≡ false → out.old.failed ≡ false }
    ensures written { out.new.failed ≡ false → DeclMade env.now ranges.now top out.old out.new (decl_in (valued env.now.text.now env.now.tokens.now it.now)) }
{
    match decl_at(it) {
        Some(Decl::Declared(inner)) => declared(out, env, ranges, it.from, it.to, &inner, top),
        Some(Decl::DeclaredVariables(list)) => declared_variables(
            out, env, it.from, it.to, &list, &it.parts, top,
        ),
        _ => undeclared(out, env, ranges, it, top),
    }
}

/// What may follow `declare`, after `export default`: the parameters of a function stay, and so do types.
#[cycle(items)]
fn default_declarable(out: &mut Draft, env: &Env<'_>, ranges: &RangeSet, it: &Item<'_>)
    requires read { ReadsTokens env.now.text.now env.now.tokens.now }
    requires is { (x : List ℕ) (ts : List Tok) → decl_in (valued x ts it.now) ≡ as_declared false (span_of ts it.now.from it.now.to) (declarable_in (valued x ts it.now)) }
    ensures before { out.new.failed ≡ false → out.old.failed ≡ false }
    ensures written { out.new.failed ≡ false → BlockDefaultBy env.now ranges.now out.old out.new (span_of env.now.tokens.now it.now.from it.now.to) (declarable_in (valued env.now.text.now env.now.tokens.now it.now)) }
{
    match declarable_at(it) {
        Some(Declarable::Function { is_async, parts }) => {
            let node = Item {
                what: it.what,
                from: it.from,
                to: it.to,
                parts,
            };
            typed_function(out, env, is_async, &node, false);
        }
        Some(
            Declarable::Interface {
                name: _,
                type_params: _,
                extends: _,
                members: _,
            },
        ) => out.keep_there(it),
        Some(
            Declarable::Alias {
                name: _,
                type_params: _,
                ty: _,
            },
        ) => out.keep_there(it),
        _ => block(out, env, ranges, it),
    }
}

/// A declaration of another form, after `export default`.
fn default_other(out: &mut Draft, env: &Env<'_>, ranges: &RangeSet, it: &Item<'_>)
    requires { ReadsTokens env.now.text.now env.now.tokens.now }
    ensures before { out.new.failed ≡ false → out.old.failed ≡ false }
    ensures written { out.new.failed ≡ false → DefaultMade env.now ranges.now out.old out.new (decl_in (valued env.now.text.now env.now.tokens.now it.now)) }
{
    match decl_at(it) {
        Some(Decl::Function { is_async, parts }) => {
            let node = Item {
                what: it.what,
                from: it.from,
                to: it.to,
                parts,
            };
            plain_function(out, env, is_async, &node, false);
        }
        Some(Decl::Class(_)) => class(out, env, ranges, it),
        _ => out.fail(),
    }
}

/// A declaration after `export default`: the parameters of a function stay, and so do types.
#[cycle(items)]
pub(crate) fn default_decl(out: &mut Draft, env: &Env<'_>, ranges: &RangeSet, it: &Item<'_>)
    requires { ReadsTokens env.now.text.now env.now.tokens.now }
    ensures before { out.new.failed ≡ false → out.old.failed ≡ false }
    ensures written { out.new.failed ≡ false → DefaultMade env.now ranges.now out.old out.new (decl_in (valued env.now.text.now env.now.tokens.now it.now)) }
{
    if is_declarable(it) {
        default_declarable(out, env, ranges, it);
    } else {
        default_other(out, env, ranges, it);
    }
}
