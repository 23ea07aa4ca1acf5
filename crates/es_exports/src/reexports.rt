//! The modules whose names a module exports again.

ghost use Rattle.std.specs.Prelude.{◌≡◌, false, IfOk};
ghost use Rattle.std.specs.List.{flat_map};
ghost use Rattle.base.specs.declared.range.Range.{Range};
ghost use Rattle.es_lowering.specs.Value.{as_group, turns, item_at};
ghost use Rattle.es_view_modules.specs.items.Export.{the_export};
ghost use Rattle.es_syntax.specs.Held.{held, valued};
ghost use Rattle.es_syntax.specs.Roles.{item_in};
ghost use Rattle.es_bound_names.specs.Adds.{Adds};
ghost use Rattle.es_bound_names.specs.Cuts.{IsCut};
ghost use Rattle.es_exports.specs.Exports.{reexported_by};
ghost use Rattle.es_exports.specs.Parts.{decl_reexports};

use crate::body::module_items;
use crate::tokens::str_name;
use base::{Items, Text};
use es_bound_names::{Names, part_in};
use es_program::Module;
use es_syntax::{Item, Siblings};
use es_token::Token;
use es_view_modules::items::{Export, export_at};
use std::alloc::{AllocError, Global};

/// The specifiers of the modules whose names a module exports again, in order.
#[tactic(auto, using(crate::proofs::Items::whole_module))]
pub fn module_reexports(alloc: Global, it: &Module) -> Result<Items<Text>, AllocError>
    ensures { IfOk result (λ found. found ≡ flat_map reexported_by it.now.typed.body) }
{
    let (text, tokens, items) = module_items(it);
    let mut out = Names::new(alloc);
    items_names(&mut out, text, tokens, &items);
    out.done()
}

/// Those of the items in turns.
#[tactic(auto, using(es_bound_names::proofs::Lists::turns_all, es_bound_names::proofs::Lists::turns_done))]
fn items_names(out: &mut Names, text: &str, tokens: &[Token], items: &Siblings<'_>)
    requires { IsCut text.now tokens.now }
    ensures before { out.new.failed ≡ false → out.old.failed ≡ false }
    ensures adds { out.new.failed ≡ false → Adds (flat_map reexported_by) out.old.found out.new.found (turns (λ turn. item_at turn 0) (held text.now tokens.now items.now.entries.now)) }
{
    let mut row = *items;
    while let Some((turn, rest)) = row.split() {
        item_turn(out, text, tokens, &turn);
        row = rest;
    }
}

/// That of the item in a turn.
#[tactic(auto, using(es_bound_names::proofs::Lists::adds_nothing))]
fn item_turn(out: &mut Names, text: &str, tokens: &[Token], turn: &Item<'_>)
    requires { IsCut text.now tokens.now }
    ensures before { out.new.failed ≡ false → out.old.failed ≡ false }
    ensures adds { out.new.failed ≡ false → Adds reexported_by out.old.found out.new.found (item_at (as_group (valued text.now tokens.now turn.now)) 0) }
{
    match part_in(turn) {
        Some(item) => item_names(out, text, tokens, &item),
        None => {}
    }
}

/// That of an item.
#[tactic(auto, using(crate::proofs::Items::adds_reexport, crate::proofs::Items::adds_no_reexport))]
fn item_names(out: &mut Names, text: &str, tokens: &[Token], it: &Item<'_>)
    requires { IsCut text.now tokens.now }
    ensures before { out.new.failed ≡ false → out.old.failed ≡ false }
    ensures adds { out.new.failed ≡ false → Adds reexported_by out.old.found out.new.found (item_in (valued text.now tokens.now it.now)) }
{
    match export_at(it) {
        Some(export) => export_names(out, text, tokens, &export),
        None => {}
    }
}

/// That of an export: `export * from` without a name.
#[tactic(auto, using(crate::proofs::ReexportForms::adds_all, crate::proofs::ReexportForms::adds_all_as, crate::proofs::ReexportForms::adds_names, crate::proofs::ReexportForms::adds_namespace, crate::proofs::ReexportForms::adds_default_decl, crate::proofs::ReexportForms::adds_default_expr, crate::proofs::ReexportForms::adds_decl, crate::proofs::ReexportForms::adds_assignment, es_bound_names::proofs::Lists::adds_nothing))]
fn export_names(out: &mut Names, text: &str, tokens: &[Token], it: &Export<'_>)
    requires { IsCut text.now tokens.now }
    ensures before { out.new.failed ≡ false → out.old.failed ≡ false }
    ensures adds { out.new.failed ≡ false → (r : Range) → Adds decl_reexports out.old.found out.new.found (the_export text.now tokens.now r it.now) }
{
    match it {
        Export::All {
            exported,
            source,
            ..
        } => match exported.split() {
            Some((_, _)) => {}
            None => str_name(out, text, tokens, *source),
        },
        Export::Names { .. } => {}
        Export::Namespace(_) => {}
        Export::DefaultDecl(_) => {}
        Export::DefaultExpr(_) => {}
        Export::Decl(_) => {}
        Export::Assignment(_) => {}
        Export::Broken => {}
    }
}
