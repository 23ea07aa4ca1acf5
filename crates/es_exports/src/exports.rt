//! The names that a module exports.

ghost use Rattle.std.specs.Prelude.{◌≡◌, false, IfOk};
ghost use Rattle.std.specs.List.{flat_map};
ghost use Rattle.base.specs.declared.range.Range.{Range};
ghost use Rattle.es_lowering.specs.Value.{as_group, turns, item_at, export_specifier_at};
ghost use Rattle.es_view_modules.specs.items.Export.{the_export};
ghost use Rattle.es_view_modules.specs.names.ExportSpecifier.{the_export_specifier};
ghost use Rattle.es_syntax.specs.Held.{held, valued};
ghost use Rattle.es_syntax.specs.Roles.{item_in, export_specifier_in};
ghost use Rattle.es_bound_names.specs.Adds.{Adds};
ghost use Rattle.es_bound_names.specs.Cuts.{IsCut};
ghost use Rattle.es_exports.specs.Exports.{exported_by, outer_name, all_as};
ghost use Rattle.es_exports.specs.Parts.{decl_exports};
ghost use Rattle.es_exports.specs.Named.{named_as};

use crate::body::module_items;
use crate::tokens::{export_name, name_part};
use base::{Items, Text};
use es_bound_names::{Names, decl_names, part_in};
use es_program::Module;
use es_syntax::{Item, Siblings};
use es_token::Token;
use es_view_modules::items::{Export, export_at};
use es_view_modules::names::{ExportName, export_specifier_at};
use std::alloc::{AllocError, Global};

/// The names that a module exports, in order.
#[tactic(auto, using(crate::proofs::Items::whole_module))]
pub fn module_exports(alloc: Global, it: &Module) -> Result<Items<Text>, AllocError>
    ensures { IfOk result (λ found. found ≡ flat_map exported_by it.now.typed.body) }
{
    let (text, tokens, items) = module_items(it);
    let mut out = Names::new(alloc);
    items_names(&mut out, text, tokens, &items);
    out.done()
}

/// The names that the items in turns export.
#[tactic(auto, using(es_bound_names::proofs::Lists::turns_all, es_bound_names::proofs::Lists::turns_done))]
fn items_names(out: &mut Names, text: &str, tokens: &[Token], items: &Siblings<'_>)
    requires { IsCut text.now tokens.now }
    ensures before { out.new.failed ≡ false → out.old.failed ≡ false }
    ensures adds { out.new.failed ≡ false → Adds (flat_map exported_by) out.old.found out.new.found (turns (λ turn. item_at turn 0) (held text.now tokens.now items.now.entries.now)) }
{
    let mut row = *items;
    while let Some((turn, rest)) = row.split() {
        item_turn(out, text, tokens, &turn);
        row = rest;
    }
}

/// The names that the item in a turn exports.
#[tactic(auto, using(es_bound_names::proofs::Lists::adds_nothing))]
fn item_turn(out: &mut Names, text: &str, tokens: &[Token], turn: &Item<'_>)
    requires { IsCut text.now tokens.now }
    ensures before { out.new.failed ≡ false → out.old.failed ≡ false }
    ensures adds { out.new.failed ≡ false → Adds exported_by out.old.found out.new.found (item_at (as_group (valued text.now tokens.now turn.now)) 0) }
{
    match part_in(turn) {
        Some(item) => item_names(out, text, tokens, &item),
        None => {}
    }
}

/// The names that an item exports.
#[tactic(auto, using(crate::proofs::Items::adds_export, crate::proofs::Items::adds_other))]
fn item_names(out: &mut Names, text: &str, tokens: &[Token], it: &Item<'_>)
    requires { IsCut text.now tokens.now }
    ensures before { out.new.failed ≡ false → out.old.failed ≡ false }
    ensures adds { out.new.failed ≡ false → Adds exported_by out.old.found out.new.found (item_in (valued text.now tokens.now it.now)) }
{
    match export_at(it) {
        Some(export) => export_names(out, text, tokens, &export),
        None => {}
    }
}

/// The names of an export.
#[tactic(auto, using(crate::proofs::ExportForms::adds_all, crate::proofs::ExportForms::adds_names, crate::proofs::ExportForms::adds_namespace, crate::proofs::ExportForms::adds_default_decl, crate::proofs::ExportForms::adds_default_expr, crate::proofs::ExportForms::adds_decl, crate::proofs::ExportForms::adds_assignment, es_bound_names::proofs::Lists::adds_nothing))]
fn export_names(out: &mut Names, text: &str, tokens: &[Token], it: &Export<'_>)
    requires { IsCut text.now tokens.now }
    ensures before { out.new.failed ≡ false → out.old.failed ≡ false }
    ensures adds { out.new.failed ≡ false → (r : Range) → Adds decl_exports out.old.found out.new.found (the_export text.now tokens.now r it.now) }
{
    match it {
        Export::All { exported, .. } => as_name(out, text, tokens, exported),
        Export::Names { specifiers, .. } => specifiers_names(out, text, tokens, specifiers),
        Export::Namespace(_) => {}
        Export::DefaultDecl(_) => out.add("default"),
        Export::DefaultExpr(_) => out.add("default"),
        Export::Decl(decl) => decl_names(out, text, tokens, decl),
        Export::Assignment(_) => {}
        Export::Broken => {}
    }
}

/// The name after `as`, which may be absent.
#[tactic(auto, using(crate::proofs::TokenForms::adds_no_as, crate::proofs::TokenForms::adds_as))]
fn as_name(out: &mut Names, text: &str, tokens: &[Token], exported: &Siblings<'_>)
    requires { IsCut text.now tokens.now }
    ensures before { out.new.failed ≡ false → out.old.failed ≡ false }
    ensures adds { out.new.failed ≡ false → Adds all_as out.old.found out.new.found (named_as text.now tokens.now (held text.now tokens.now exported.now.entries.now)) }
{
    match exported.split() {
        Some((first, _)) => name_part(out, text, tokens, &first),
        None => {}
    }
}

/// The outer names in turns in braces.
#[tactic(auto, using(es_bound_names::proofs::Lists::turns_all, es_bound_names::proofs::Lists::turns_done))]
fn specifiers_names(out: &mut Names, text: &str, tokens: &[Token], specifiers: &Siblings<'_>)
    requires { IsCut text.now tokens.now }
    ensures before { out.new.failed ≡ false → out.old.failed ≡ false }
    ensures adds { out.new.failed ≡ false → Adds (flat_map outer_name) out.old.found out.new.found (turns (λ turn. export_specifier_at turn 0) (held text.now tokens.now specifiers.now.entries.now)) }
{
    let mut row = *specifiers;
    while let Some((turn, rest)) = row.split() {
        specifier_turn(out, text, tokens, &turn);
        row = rest;
    }
}

/// The outer name in a turn.
#[tactic(auto, using(es_bound_names::proofs::Lists::adds_nothing))]
fn specifier_turn(out: &mut Names, text: &str, tokens: &[Token], turn: &Item<'_>)
    requires { IsCut text.now tokens.now }
    ensures before { out.new.failed ≡ false → out.old.failed ≡ false }
    ensures adds { out.new.failed ≡ false → Adds outer_name out.old.found out.new.found (export_specifier_at (as_group (valued text.now tokens.now turn.now)) 0) }
{
    match part_in(turn) {
        Some(specifier) => specifier_name(out, text, tokens, &specifier),
        None => {}
    }
}

/// The outer name of a specifier.
#[tactic(auto, using(crate::proofs::Specifiers::unknown))]
fn specifier_name(out: &mut Names, text: &str, tokens: &[Token], it: &Item<'_>)
    requires { IsCut text.now tokens.now }
    ensures before { out.new.failed ≡ false → out.old.failed ≡ false }
    ensures adds { out.new.failed ≡ false → Adds outer_name out.old.found out.new.found (export_specifier_in (valued text.now tokens.now it.now)) }
{
    match export_specifier_at(it) {
        Some(name) => outer_name(out, text, tokens, &name),
        None => {}
    }
}

/// The outer name: the one after `as`, or the only one.
#[tactic(auto, using(crate::proofs::ExportForms::adds_same, crate::proofs::ExportForms::adds_outer, es_bound_names::proofs::Lists::adds_nothing))]
fn outer_name(out: &mut Names, text: &str, tokens: &[Token], it: &ExportName<'_>)
    requires { IsCut text.now tokens.now }
    ensures before { out.new.failed ≡ false → out.old.failed ≡ false }
    ensures adds { out.new.failed ≡ false → (r : Range) → Adds outer_name out.old.found out.new.found (the_export_specifier text.now tokens.now r it.now) }
{
    match it {
        ExportName::Exported { orig, exported, .. } => match exported.split() {
            Some((first, _)) => name_part(out, text, tokens, &first),
            None => export_name(out, text, tokens, *orig),
        },
        ExportName::Broken => {}
    }
}
