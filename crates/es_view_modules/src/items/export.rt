//! Exports.

ghost use Rattle.std.specs.Prelude.{◌≡◌, ℕ, List, IfSome, IfNone, None};
ghost use Rattle.base.specs.declared.range.Range.{Range};
ghost use Rattle.es_token.specs.declared.token.Token.{Token as Tok};
ghost use Rattle.es_lowering.specs.Modules.{export_all, export_names, export_namespace, export_default_decl, export_default_expression, export_declaration};
ghost use Rattle.es_lowering.specs.TypedStatements.{export_assignment};
ghost use Rattle.es_lowering.specs.Lowering.{item_by};
ghost use Rattle.es_lowering.specs.Texts.{span_of};
ghost use Rattle.es_syntax.specs.Held.{held, valued};
ghost use Rattle.es_syntax.specs.Roles.{item_in};
ghost use Rattle.es_syntax.specs.Views.{IsNone};
ghost use Rattle.es_view_modules.specs.items.Export.{exports, the_export, IsBelow};

use es_grammar::NodeKind;
use es_syntax::{Item, Siblings, What};

/// An export, with its parts as cursors. Numbers are those of tokens.
#[derive(Clone, Copy)]
pub enum Export<'a> {
    /// `export * as a from "b"`, with optional `type`: the name and attributes may be absent.
    All {
        type_only: bool,
        exported: Siblings<'a>,
        source: u32,
        attributes: Siblings<'a>,
    },
    /// `export { a } from "b"`, with optional `type`: its names as turns; what follows `from` may be absent.
    Names {
        type_only: bool,
        specifiers: Siblings<'a>,
        source: Siblings<'a>,
    },
    /// `export as namespace a`
    Namespace(u32),
    /// `export default` before a declaration.
    DefaultDecl(Item<'a>),
    /// `export default` before an expression.
    DefaultExpr(Item<'a>),
    /// `export` before a declaration.
    Decl(Item<'a>),
    /// `export = a`
    Assignment(Item<'a>),
    /// A part is not there.
    Broken,
}

/// `export * as a from "b"`, with optional `type`: the name and attributes may be absent.
#[tactic(auto, unfolding(es_lowering::specs::Modules::export_all, crate::specs::items::Export::all))]
fn all<'a>(parts: &Siblings<'a>) -> Export<'a>
    ensures form { (x : List ℕ) (ts : List Tok) (r : Range) → export_all x ts r (held x ts parts.now.entries.now) ≡ the_export x ts r result }
    ensures below { IsBelow parts.now result }
{
    match parts.token_at(2) {
        Some(source) => Export::All {
            type_only: parts.has(0),
            exported: parts.group_at(1),
            source,
            attributes: parts.group_at(3),
        },
        None => Export::Broken,
    }
}

/// `export { a } from "b"`, with optional `type`: its names as turns; what follows `from` may be absent.
#[tactic(auto, unfolding(es_lowering::specs::Modules::export_names, crate::specs::items::Export::names))]
fn names<'a>(parts: &Siblings<'a>) -> Export<'a>
    ensures form { (x : List ℕ) (ts : List Tok) (r : Range) → export_names x ts r (held x ts parts.now.entries.now) ≡ the_export x ts r result }
    ensures below { IsBelow parts.now result }
{
    Export::Names {
        type_only: parts.has(0),
        specifiers: parts.group_at(1),
        source: parts.group_at(2),
    }
}

/// `export as namespace a`
#[tactic(auto, unfolding(es_lowering::specs::Modules::export_namespace, crate::specs::items::Export::namespace))]
fn namespace<'a>(parts: &Siblings<'a>) -> Export<'a>
    ensures form { (x : List ℕ) (ts : List Tok) (r : Range) → export_namespace x ts r (held x ts parts.now.entries.now) ≡ the_export x ts r result }
    ensures below { IsBelow parts.now result }
{
    match parts.token_at(0) {
        Some(name) => Export::Namespace(name),
        None => Export::Broken,
    }
}

/// `export default` before a declaration.
#[tactic(auto, unfolding(es_lowering::specs::Modules::export_default_decl, crate::specs::items::Export::default_decl))]
fn default_decl<'a>(parts: &Siblings<'a>) -> Export<'a>
    ensures form { (x : List ℕ) (ts : List Tok) (r : Range) → export_default_decl r (held x ts parts.now.entries.now) ≡ the_export x ts r result }
    ensures below { IsBelow parts.now result }
{
    match parts.part(0) {
        Some(decl) => Export::DefaultDecl(decl),
        None => Export::Broken,
    }
}

/// `export default` before an expression.
#[tactic(auto, unfolding(es_lowering::specs::Modules::export_default_expression, crate::specs::items::Export::default_expr))]
fn default_expr<'a>(parts: &Siblings<'a>) -> Export<'a>
    ensures form { (x : List ℕ) (ts : List Tok) (r : Range) → export_default_expression r (held x ts parts.now.entries.now) ≡ the_export x ts r result }
    ensures below { IsBelow parts.now result }
{
    match parts.part(0) {
        Some(expr) => Export::DefaultExpr(expr),
        None => Export::Broken,
    }
}

/// `export` before a declaration.
#[tactic(auto, unfolding(es_lowering::specs::Modules::export_declaration, crate::specs::items::Export::declaration))]
fn declaration<'a>(parts: &Siblings<'a>) -> Export<'a>
    ensures form { (x : List ℕ) (ts : List Tok) (r : Range) → export_declaration r (held x ts parts.now.entries.now) ≡ the_export x ts r result }
    ensures below { IsBelow parts.now result }
{
    match parts.part(0) {
        Some(decl) => Export::Decl(decl),
        None => Export::Broken,
    }
}

/// `export = a`
#[tactic(auto, unfolding(es_lowering::specs::TypedStatements::export_assignment, crate::specs::items::Export::assignment))]
fn assignment<'a>(parts: &Siblings<'a>) -> Export<'a>
    ensures form { (x : List ℕ) (ts : List Tok) (r : Range) → export_assignment r (held x ts parts.now.entries.now) ≡ the_export x ts r result }
    ensures below { IsBelow parts.now result }
{
    match parts.part(0) {
        Some(expr) => Export::Assignment(expr),
        None => Export::Broken,
    }
}

/// What a node is as an export; none where it is of another alternative.
#[tactic(auto, unfolding(es_lowering::specs::Lowering::build, es_lowering::specs::Lowering::module_decl_of, es_lowering::specs::Lowering::stmt_of, es_lowering::specs::Lowering::decl_of, es_lowering::specs::Lowering::declarable_of))]
pub fn export_at<'a>(node: &Item<'a>) -> Option<Export<'a>>
    ensures form { (x : List ℕ) (ts : List Tok) → IfSome result (λ view. item_in (valued x ts node.now) ≡ item_by x ts (the_export x ts (span_of ts node.now.from node.now.to) view) None) }
    ensures other { IfNone result (IsNone exports node.now.what) }
    ensures below { IfSome result (λ view. IsBelow node.now.parts view) }
{
    match node.what {
        What::Node(label) => match label {
            NodeKind::ExportAll => Some(all(&node.parts)),
            NodeKind::ExportNames => Some(names(&node.parts)),
            NodeKind::ExportNamespace => Some(namespace(&node.parts)),
            NodeKind::ExportDefaultFunction => Some(default_decl(&node.parts)),
            NodeKind::ExportDefaultClass => Some(default_decl(&node.parts)),
            NodeKind::ExportDefaultInterface => Some(default_decl(&node.parts)),
            NodeKind::ExportDefaultExpression => Some(default_expr(&node.parts)),
            NodeKind::ExportDeclaration => Some(declaration(&node.parts)),
            NodeKind::ExportAssignment => Some(assignment(&node.parts)),
            _ => None,
        },
        What::Leaf => None,
        What::Role(_) => None,
        What::Parts => None,
        What::Lean(_) => None,
    }
}
