//! Alternatives of items.

ghost use Rattle.std.specs.Prelude.{◌≡◌, ℕ, List, IfSome};
ghost use Rattle.base.specs.declared.range.Range.{Range};
ghost use Rattle.es_token.specs.declared.token.Token.{Token as Tok};
ghost use Rattle.es_lowering.specs.Value.{Value};
ghost use Rattle.es_lowering.specs.Modules.{export_default_decl};
ghost use Rattle.es_lowering.specs.Lowering.{module_decl_of};
ghost use Rattle.es_syntax.specs.Views.{is_one_of};
ghost use Rattle.es_view_statements.specs.decl.Decl.{declarations};
ghost use Rattle.dts_items.specs.Labels.{is_node_of, module_labels, using_labels};
ghost use Rattle.dts_operands.specs.Labels.{naming};

use es_grammar::NodeKind;
use es_syntax::{Item, What};

/// Whether nodes of this alternative are imports or exports.
fn is_module_label(label: NodeKind) -> bool
    ensures { is_one_of module_labels label ≡ result }
{
    match label {
        NodeKind::BareImport => true,
        NodeKind::FromImport => true,
        NodeKind::SourceImport => true,
        NodeKind::DeferImport => true,
        NodeKind::RequireImport => true,
        NodeKind::ExportedRequireImport => true,
        NodeKind::EntityImport => true,
        NodeKind::ExportedEntityImport => true,
        NodeKind::ExportAll => true,
        NodeKind::ExportNames => true,
        NodeKind::ExportNamespace => true,
        NodeKind::ExportDefaultFunction => true,
        NodeKind::ExportDefaultClass => true,
        NodeKind::ExportDefaultInterface => true,
        NodeKind::ExportDefaultExpression => true,
        NodeKind::ExportDeclaration => true,
        NodeKind::ExportAssignment => true,
        _ => false,
    }
}

/// Whether nodes of this alternative are declarations.
fn is_declaration(label: NodeKind) -> bool
    ensures { is_one_of declarations label ≡ result }
{
    match label {
        NodeKind::Function => true,
        NodeKind::AsyncFunction => true,
        NodeKind::Class => true,
        NodeKind::VariableDeclaration => true,
        NodeKind::UsingDeclaration => true,
        NodeKind::Variables => true,
        NodeKind::Using => true,
        NodeKind::Declared => true,
        NodeKind::DeclaredVariables => true,
        NodeKind::TypedFunction => true,
        NodeKind::TypedAsyncFunction => true,
        NodeKind::TypedClass => true,
        NodeKind::AbstractClass => true,
        NodeKind::InterfaceDeclaration => true,
        NodeKind::AliasDeclaration => true,
        NodeKind::EnumDeclaration => true,
        NodeKind::NamespaceDeclaration => true,
        NodeKind::ModuleDeclaration => true,
        NodeKind::GlobalDeclaration => true,
        _ => false,
    }
}

/// Whether nodes of this alternative are names.
fn is_name_label(label: NodeKind) -> bool
    ensures { is_one_of naming label ≡ result }
{
    match label {
        NodeKind::Name => true,
        _ => false,
    }
}

/// Whether nodes of this alternative are `using`.
fn is_using_label(label: NodeKind) -> bool
    ensures { is_one_of using_labels label ≡ result }
{
    match label {
        NodeKind::Using => true,
        _ => false,
    }
}

/// Whether variables are `using`.
pub(crate) fn is_using(it: &Item<'_>) -> bool
    ensures { is_node_of using_labels it.now.what ≡ result }
{
    match it.what {
        What::Node(label) => is_using_label(label),
        What::Leaf => false,
        What::Role(_) => false,
        What::Parts => false,
        What::Lean(_) => false,
    }
}

/// Whether a node is an import or an export.
pub(crate) fn is_module_decl(it: &Item<'_>) -> bool
    ensures { is_node_of module_labels it.now.what ≡ result }
{
    match it.what {
        What::Node(label) => is_module_label(label),
        What::Leaf => false,
        What::Role(_) => false,
        What::Parts => false,
        What::Lean(_) => false,
    }
}

/// Whether a node is a declaration.
pub(crate) fn declares(it: &Item<'_>) -> bool
    ensures { is_node_of declarations it.now.what ≡ result }
{
    match it.what {
        What::Node(label) => is_declaration(label),
        What::Leaf => false,
        What::Role(_) => false,
        What::Parts => false,
        What::Lean(_) => false,
    }
}

/// Whether an expression is a name.
pub(crate) fn is_name(it: &Item<'_>) -> bool
    ensures { is_node_of naming it.now.what ≡ result }
{
    match it.what {
        What::Node(label) => is_name_label(label),
        What::Leaf => false,
        What::Role(_) => false,
        What::Parts => false,
        What::Lean(_) => false,
    }
}

/// The alternative of a declaration after `export default`.
#[tactic(auto, unfolding(es_lowering::specs::Lowering::module_decl_of))]
pub(crate) fn default_label(it: &Item<'_>) -> Option<NodeKind>
    ensures { IfSome result (λ label. (x : List ℕ) (ts : List Tok) (r : Range) (p : Value) → module_decl_of x ts label r p ≡ export_default_decl r p) }
{
    match it.what {
        What::Node(label) => match label {
            NodeKind::ExportDefaultFunction => Some(NodeKind::ExportDefaultFunction),
            NodeKind::ExportDefaultClass => Some(NodeKind::ExportDefaultClass),
            NodeKind::ExportDefaultInterface => Some(NodeKind::ExportDefaultInterface),
            _ => None,
        },
        What::Leaf => None,
        What::Role(_) => None,
        What::Parts => None,
        What::Lean(_) => None,
    }
}
