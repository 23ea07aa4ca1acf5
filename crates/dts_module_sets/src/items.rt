//! What the items of a module add to its sets.

ghost use Rattle.std.specs.Prelude.{◌≡◌, false, IfSome};
ghost use Rattle.base.specs.declared.range.Range.{Range};
ghost use Rattle.es_lexer.specs.Reads.{ReadsTokens};
ghost use Rattle.es_lowering.specs.Value.{as_group, turns, item_at};
ghost use Rattle.es_syntax.specs.Held.{held, valued};
ghost use Rattle.es_syntax.specs.Roles.{item_in, program_in};
ghost use Rattle.es_syntax.specs.Views.{IsNone, is_one_of};
ghost use Rattle.es_view_modules.specs.items.Export.{exports, the_export};
ghost use Rattle.es_view_statements.specs.decl.Decl.{declarations};
ghost use Rattle.dts_rules.specs.Sets.{Numbers};
ghost use Rattle.dts_sets.specs.Ids.{Numbered};
ghost use Rattle.dts_sets.specs.Known.{AddsBy, export_sets, item_sets};
ghost use Rattle.dts_module_sets.specs.Items.{Knows, is_declared, items_of, program_sets};

use dts_sets::{Known, decl_sets};
use es_grammar::NodeKind;
use es_syntax::{Item, Siblings, What};
use es_token::Token;
use es_variables::ScopeIds;
use es_view_modules::items::{Export, Program, export_at, program_at};
use std::alloc::Global;

/// What an export adds.
#[tactic(auto, using(crate::proofs::ExportForms::adds_all, crate::proofs::ExportForms::adds_names, crate::proofs::ExportForms::adds_namespace, crate::proofs::ExportForms::adds_default_decl, crate::proofs::ExportForms::adds_default_expr, crate::proofs::ExportForms::adds_decl, crate::proofs::ExportForms::adds_assignment))]
fn export_sets(out: &mut Known, text: &str, tokens: &[Token], ids: &ScopeIds, it: &Export<'_>)
    requires { ReadsTokens text.now tokens.now }
    ensures before { out.new.failed ≡ false → out.old.failed ≡ false }
    ensures adds { out.new.failed ≡ false → (r : Range) → AddsBy tokens.now ids.now export_sets out.old out.new (the_export text.now tokens.now r it.now) }
{
    match it {
        Export::All { .. } => {}
        Export::Names { .. } => {}
        Export::Namespace(_) => {}
        Export::DefaultDecl(decl) => decl_sets(out, text, tokens, ids, decl),
        Export::DefaultExpr(_) => {}
        Export::Decl(decl) => decl_sets(out, text, tokens, ids, decl),
        Export::Assignment(_) => {}
        Export::Broken => out.fail(),
    }
}

/// Whether nodes of this alternative are declarations.
fn is_declaration(label: NodeKind) -> bool
    ensures { is_one_of declarations label ≡ result }
{
    match label {
        NodeKind::Function => true,
        NodeKind::AsyncFunction => true,
        NodeKind::Class => true,
        NodeKind::VariableDeclaration => true,
        NodeKind::UsingDeclaration => true,
        NodeKind::Variables => true,
        NodeKind::Using => true,
        NodeKind::Declared => true,
        NodeKind::DeclaredVariables => true,
        NodeKind::TypedFunction => true,
        NodeKind::TypedAsyncFunction => true,
        NodeKind::TypedClass => true,
        NodeKind::AbstractClass => true,
        NodeKind::InterfaceDeclaration => true,
        NodeKind::AliasDeclaration => true,
        NodeKind::EnumDeclaration => true,
        NodeKind::NamespaceDeclaration => true,
        NodeKind::ModuleDeclaration => true,
        NodeKind::GlobalDeclaration => true,
        _ => false,
    }
}

/// Whether an item is a node that is a declaration.
fn declares(it: &Item<'_>) -> bool
    ensures { is_declared it.now.what ≡ result }
{
    match it.what {
        What::Node(label) => is_declaration(label),
        What::Leaf => false,
        What::Role(_) => false,
        What::Parts => false,
        What::Lean(_) => false,
    }
}

/// What an item adds that is no export: what its declaration does, if it is one.
#[tactic(auto, using(crate::proofs::ItemForms::adds_decl_item, crate::proofs::ItemForms::adds_no_decl))]
fn other_item(out: &mut Known, text: &str, tokens: &[Token], ids: &ScopeIds, it: &Item<'_>)
    requires reads { ReadsTokens text.now tokens.now }
    requires other { IsNone exports it.now.what }
    ensures before { out.new.failed ≡ false → out.old.failed ≡ false }
    ensures adds { out.new.failed ≡ false → AddsBy tokens.now ids.now item_sets out.old out.new (item_in (valued text.now tokens.now it.now)) }
{
    if declares(it) {
        decl_sets(out, text, tokens, ids, it);
    }
}

/// What an item adds.
#[tactic(auto, using(crate::proofs::ExportForms::adds_export_item))]
fn item_sets(out: &mut Known, text: &str, tokens: &[Token], ids: &ScopeIds, it: &Item<'_>)
    requires { ReadsTokens text.now tokens.now }
    ensures before { out.new.failed ≡ false → out.old.failed ≡ false }
    ensures adds { out.new.failed ≡ false → AddsBy tokens.now ids.now item_sets out.old out.new (item_in (valued text.now tokens.now it.now)) }
{
    match export_at(it) {
        Some(view) => export_sets(out, text, tokens, ids, &view),
        None => other_item(out, text, tokens, ids, it),
    }
}

/// What the item in a turn adds.
fn item_turn(out: &mut Known, text: &str, tokens: &[Token], ids: &ScopeIds, turn: &Item<'_>)
    requires { ReadsTokens text.now tokens.now }
    ensures before { out.new.failed ≡ false → out.old.failed ≡ false }
    ensures adds { out.new.failed ≡ false → AddsBy tokens.now ids.now item_sets out.old out.new (item_at (as_group (valued text.now tokens.now turn.now)) 0) }
{
    match turn.group().part(0) {
        Some(item) => item_sets(out, text, tokens, ids, &item),
        None => out.fail(),
    }
}

/// What the items in turns add.
#[tactic(auto, using(dts_sets::proofs::Grown::turns_all, dts_sets::proofs::Grown::turns_done))]
fn body_sets(out: &mut Known, text: &str, tokens: &[Token], ids: &ScopeIds, body: &Siblings<'_>)
    requires { ReadsTokens text.now tokens.now }
    ensures before { out.new.failed ≡ false → out.old.failed ≡ false }
    ensures adds { out.new.failed ≡ false → AddsBy tokens.now ids.now items_of out.old out.new (turns (λ turn. item_at turn 0) (held text.now tokens.now body.now.entries.now)) }
{
    let mut row = *body;
    while let Some((turn, rest)) = row.split() {
        item_turn(out, text, tokens, ids, &turn);
        row = rest;
    }
}

/// What the items of a program add where it is a module.
#[tactic(auto, using(crate::proofs::ProgramForms::adds_module, crate::proofs::ProgramForms::adds_script))]
fn program_sets(out: &mut Known, text: &str, tokens: &[Token], ids: &ScopeIds, it: &Item<'_>)
    requires { ReadsTokens text.now tokens.now }
    ensures before { out.new.failed ≡ false → out.old.failed ≡ false }
    ensures adds { out.new.failed ≡ false → AddsBy tokens.now ids.now program_sets out.old out.new (program_in (valued text.now tokens.now it.now)) }
{
    match program_at(it) {
        Some(Program::Module { body, .. }) => body_sets(out, text, tokens, ids, &body),
        Some(Program::Script { .. }) => {}
        Some(Program::Broken) => out.fail(),
        None => out.fail(),
    }
}

/// The sets of a module; those of a script are empty. They have failed where memory is out, or the row is that of no program.
#[tactic(auto, using(crate::proofs::ProgramForms::knows))]
pub fn module_sets(
    alloc: Global,
    text: &str,
    tokens: &[Token],
    ids: &ScopeIds,
    program: &Item<'_>,
) -> Known
    requires { ReadsTokens text.now tokens.now }
    ensures { result.failed ≡ false → (number : Numbers) → Numbered tokens.now ids.now number → IfSome (program_in (valued text.now tokens.now program.now)) (λ it. Knows result (program_sets number it)) }
{
    let mut known = Known::new(alloc);
    program_sets(&mut known, text, tokens, ids, program);
    known
}
