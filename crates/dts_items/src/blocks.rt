//! Declarations with members or items.

ghost use Rattle.std.specs.Prelude.{◌≡◌, false, ℕ, List, slice_get};
ghost use Rattle.base.specs.declared.range.Range.{Range as ARange};
ghost use Rattle.es_token.specs.declared.token.Token.{Token as Tok};
ghost use Rattle.es_lexer.specs.Reads.{ReadsTokens};
ghost use Rattle.es_lowering.specs.Texts.{span_of};
ghost use Rattle.es_lowering.specs.Modules as modules;
ghost use Rattle.es_lowering.specs.TypedStatements.{items_of};
ghost use Rattle.es_syntax.specs.Held.{held, valued};
ghost use Rattle.es_syntax.specs.Roles.{declarable_in, entity_in};
ghost use Rattle.es_view_statements.specs.decl.Declarable.{global_of, module_of, namespace_of};
ghost use Rattle.dts_rules.specs.Rules as rules;
ghost use Rattle.dts_rules.specs.Programs as programs;
ghost use Rattle.dts_draft.specs.Drafts.{state_of};
ghost use Rattle.dts_draft.specs.Written.{IfThere, Puts};
ghost use Rattle.dts_members.specs.Classes.{DeclaresBy};
ghost use Rattle.dts_items.specs.Changed.{FirstName, InsideBy};

use crate::decls::is_declarable;
use crate::items::items;
use dts_draft::{Draft, is_kind};
use dts_enums::enum_declaration;
use dts_members::{RangeSet, class};
use dts_names::Env;
use es_grammar::NodeKind;
use es_syntax::{Item, Siblings, What};
use es_token::{Token, TokenKind};
use es_view_statements::decl::{Declarable, declarable_at};

/// The first name of a name with dots, whose text ends at this token.
fn first_name(out: &mut Draft, at: u32, to: u32)
    ensures before { out.new.failed ≡ false → out.old.failed ≡ false }
    ensures state { state_of out.new ≡ state_of out.old }
    ensures written { out.new.failed ≡ false → (x : List ℕ) (ts : List Tok) → FirstName x ts out.old.row out.new.row at }
{
    out.leaf_node(NodeKind::Entity, at);
    match at.checked_add(1) {
        Some(next) => out.dropped(next, to),
        None => out.fail(),
    }
}

/// The first name of a name of these parts. What begins with `this` names no namespace.
fn outer_entity(out: &mut Draft, tokens: &[Token], parts: &Siblings<'_>, to: u32)
    ensures before { out.new.failed ≡ false → out.old.failed ≡ false }
    ensures state { state_of out.new ≡ state_of out.old }
    ensures written { out.new.failed ≡ false → (x : List ℕ) (by : rules.Env) (r : ARange) → IfThere (λ id. Puts x tokens.now entity_in out.old.row out.new.row (programs.outer by id)) (modules.entity x tokens.now r (held x tokens.now parts.now.entries.now)) }
{
    match parts.token_at(0) {
        Some(at) => {
            if is_kind(tokens, at, TokenKind::ThisWord) {
                out.fail();
            } else {
                first_name(out, at, to);
            }
        }
        None => out.fail(),
    }
}

/// The name of a namespace: of a name with dots the first name.
fn outer_name(out: &mut Draft, tokens: &[Token], name: &Item<'_>)
    ensures before { out.new.failed ≡ false → out.old.failed ≡ false }
    ensures state { state_of out.new ≡ state_of out.old }
    ensures written { out.new.failed ≡ false → (x : List ℕ) (by : rules.Env) → IfThere (λ id. Puts x tokens.now entity_in out.old.row out.new.row (programs.outer by id)) (entity_in (valued x tokens.now name.now)) }
{
    match name.what {
        What::Node(label) => match label {
            NodeKind::Entity => outer_entity(out, tokens, &name.parts, name.to),
            _ => out.fail(),
        },
        What::Leaf => out.fail(),
        What::Role(_) => out.fail(),
        What::Parts => out.fail(),
        What::Lean(_) => out.fail(),
    }
}

/// Items that aren't on the top, as a group.
#[cycle(items)]
fn inside(out: &mut Draft, env: &Env<'_>, ranges: &RangeSet, body: &Siblings<'_>)
    requires { ReadsTokens env.now.text.now env.now.tokens.now }
    ensures before { out.new.failed ≡ false → out.old.failed ≡ false }
    ensures written { out.new.failed ≡ false → InsideBy env.now ranges.now out.old out.new (items_of (held env.now.text.now env.now.tokens.now body.now.entries.now)) }
{
    let group = out.open();
    items(out, env, ranges, body, false);
    out.close_group(group);
}

/// `namespace a.b {}` or `module a {}`, from one token up to another.
#[cycle(items)]
fn namespace_node(
    out: &mut Draft,
    env: &Env<'_>,
    ranges: &RangeSet,
    from: u32,
    to: u32,
    word: u32,
    name: &Item<'_>,
    body: &Siblings<'_>,
)
    requires { ReadsTokens env.now.text.now env.now.tokens.now }
    ensures before { out.new.failed ≡ false → out.old.failed ≡ false }
    ensures written { out.new.failed ≡ false → DeclaresBy env.now ranges.now out.old out.new (span_of env.now.tokens.now from to) (namespace_of (slice_get env.now.tokens.now word) (entity_in (valued env.now.text.now env.now.tokens.now name.now)) (held env.now.text.now env.now.tokens.now body.now.entries.now)) }
{
    let place = out.open();
    out.token(word);
    outer_name(out, env.tokens, name);
    inside(out, env, ranges, body);
    out.close_node(place, NodeKind::NamespaceDeclaration, from, to);
}

/// `module "a" {}`, from one token up to another.
#[cycle(items)]
fn module_node(
    out: &mut Draft,
    env: &Env<'_>,
    ranges: &RangeSet,
    from: u32,
    to: u32,
    name: &Item<'_>,
    body: &Siblings<'_>,
)
    requires { ReadsTokens env.now.text.now env.now.tokens.now }
    ensures before { out.new.failed ≡ false → out.old.failed ≡ false }
    ensures written { out.new.failed ≡ false → DeclaresBy env.now ranges.now out.old out.new (span_of env.now.tokens.now from to) (module_of env.now.text.now env.now.tokens.now (valued env.now.text.now env.now.tokens.now name.now) (held env.now.text.now env.now.tokens.now body.now.entries.now)) }
{
    let place = out.open();
    out.keep_there(name);
    let group = out.open();
    inside(out, env, ranges, body);
    out.close_group(group);
    out.close_node(place, NodeKind::ModuleDeclaration, from, to);
}

/// The same as it is, where it has no items.
#[cycle(items)]
fn module(
    out: &mut Draft,
    env: &Env<'_>,
    ranges: &RangeSet,
    it: &Item<'_>,
    name: &Item<'_>,
    body: &Siblings<'_>,
)
    requires { ReadsTokens env.now.text.now env.now.tokens.now }
    ensures before { out.new.failed ≡ false → out.old.failed ≡ false }
    ensures written { out.new.failed ≡ false → declarable_in (valued env.now.text.now env.now.tokens.now it.now) ≡ module_of env.now.text.now env.now.tokens.now (valued env.now.text.now env.now.tokens.now name.now) (held env.now.text.now env.now.tokens.now body.now.entries.now) → DeclaresBy env.now ranges.now out.old out.new (span_of env.now.tokens.now it.now.from it.now.to) (declarable_in (valued env.now.text.now env.now.tokens.now it.now)) }
{
    match body.split() {
        Some(_) => module_node(out, env, ranges, it.from, it.to, name, body),
        None => {
            if is_declarable(it) {
                out.keep_there(it);
            } else {
                out.fail();
            }
        }
    }
}

/// `global {}`, from one token up to another.
#[cycle(items)]
fn global_node(
    out: &mut Draft,
    env: &Env<'_>,
    ranges: &RangeSet,
    from: u32,
    to: u32,
    body: &Siblings<'_>,
)
    requires { ReadsTokens env.now.text.now env.now.tokens.now }
    ensures before { out.new.failed ≡ false → out.old.failed ≡ false }
    ensures written { out.new.failed ≡ false → DeclaresBy env.now ranges.now out.old out.new (span_of env.now.tokens.now from to) (global_of (held env.now.text.now env.now.tokens.now body.now.entries.now)) }
{
    let place = out.open();
    inside(out, env, ranges, body);
    out.close_node(place, NodeKind::GlobalDeclaration, from, to);
}

/// A class, an enum or a namespace, as the rules have it on the top, elsewhere and after `export default`.
#[cycle(items)]
pub(crate) fn block(out: &mut Draft, env: &Env<'_>, ranges: &RangeSet, it: &Item<'_>)
    requires { ReadsTokens env.now.text.now env.now.tokens.now }
    ensures before { out.new.failed ≡ false → out.old.failed ≡ false }
    ensures written { out.new.failed ≡ false → DeclaresBy env.now ranges.now out.old out.new (span_of env.now.tokens.now it.now.from it.now.to) (declarable_in (valued env.now.text.now env.now.tokens.now it.now)) }
{
    match declarable_at(it) {
        Some(
            Declarable::Class {
                is_abstract: _,
                parts: _,
            },
        ) => class(out, env, ranges, it),
        Some(
            Declarable::Enum {
                is_const: _,
                name: _,
                members: _,
            },
        ) => enum_declaration(out, env.tokens, it),
        Some(Declarable::Namespace { word, name, items }) => namespace_node(
            out, env, ranges, it.from, it.to, word, &name, &items,
        ),
        Some(Declarable::Module { name, items }) => module(out, env, ranges, it, &name, &items),
        Some(Declarable::Global(items)) => global_node(out, env, ranges, it.from, it.to, &items),
        _ => out.fail(),
    }
}
