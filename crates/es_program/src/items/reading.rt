//! The range of an item, and what it says.
ghost use Rattle.std.specs.Prelude.{◌≡◌};
ghost use Rattle.es_lowering.specs.Texts.{span_of};
ghost use Rattle.es_program.specs.items.Told.{told_by};
ghost use Rattle.es_syntax.specs.Views.{is_one_of};
ghost use Rattle.es_program.specs.items.Items.{told_of, told_node, decl_labels, is_decl_node};
ghost use Rattle.es_program.specs.items.Lent as spec;

use crate::items::item::ModuleItemRef;
use crate::items::place::Place;
use crate::span_at;
use base::Range;
use es_grammar::NodeKind;
use es_syntax::What;

impl ModuleItemRef<'_> {
    /// The range of bytes of the text that the item was read from.
    #[tactic(auto, using(crate::proofs::items_lemmas::ReadLemmas::decl_span, crate::proofs::items_lemmas::ReadLemmas::stmt_span))]
    pub fn span(self) -> Range
        ensures { result ≡ spec.span_of_item self.entry }
    {
        match self {
            ModuleItemRef::ModuleDecl(decl) => span_of(&decl.at),
            ModuleItemRef::Stmt(stmt) => span_of(&stmt.at),
        }
    }

    /// What it says of its module: `import a = ..` and `export = a` say that it is a CommonJS module, any other import or export
    /// says that it is none, and `export as namespace a` or a statement says nothing.
    #[tactic(auto, using(crate::proofs::items_lemmas::ReadLemmas::decl_told, crate::proofs::items_lemmas::ReadLemmas::stmt_told))]
    pub fn told(self) -> Option<bool>
        ensures { result ≡ told_by (spec.lent_item self.entry) }
    {
        match self {
            ModuleItemRef::ModuleDecl(decl) => told_by_node(decl.at.node.what),
            ModuleItemRef::Stmt(_) => None,
        }
    }
}

fn span_of(at: &Place<'_>) -> Range
    ensures { result ≡ span_of at.now.tokens.now at.now.node.from at.now.node.to }
{
    span_at(at.tokens, at.node.from as usize, at.node.to as usize)
}

fn told_by_node(what: What) -> Option<bool>
    ensures { result ≡ told_node what }
{
    match what {
        What::Node(label) => told_by_label(label),
        What::Leaf => Some(false),
        What::Role(_) => Some(false),
        What::Parts => Some(false),
        What::Lean(_) => Some(false),
    }
}

fn told_by_label(label: NodeKind) -> Option<bool>
    ensures { result ≡ told_of label }
{
    match label {
        NodeKind::RequireImport => Some(true),
        NodeKind::EntityImport => Some(true),
        NodeKind::ExportedRequireImport => Some(true),
        NodeKind::ExportedEntityImport => Some(true),
        NodeKind::ExportAssignment => Some(true),
        NodeKind::ExportNamespace => None,
        _ => Some(false),
    }
}

/// Whether a node is of an alternative of imports and exports.
pub fn is_decl(what: What) -> bool
    ensures { result ≡ is_decl_node what }
{
    match what {
        What::Node(label) => is_decl_label(label),
        What::Leaf => false,
        What::Role(_) => false,
        What::Parts => false,
        What::Lean(_) => false,
    }
}

fn is_decl_label(label: NodeKind) -> bool
    ensures { result ≡ is_one_of decl_labels label }
{
    match label {
        NodeKind::BareImport => true,
        NodeKind::FromImport => true,
        NodeKind::SourceImport => true,
        NodeKind::DeferImport => true,
        NodeKind::RequireImport => true,
        NodeKind::EntityImport => true,
        NodeKind::ExportedRequireImport => true,
        NodeKind::ExportedEntityImport => true,
        NodeKind::ExportAll => true,
        NodeKind::ExportNames => true,
        NodeKind::ExportNamespace => true,
        NodeKind::ExportDefaultFunction => true,
        NodeKind::ExportDefaultClass => true,
        NodeKind::ExportDefaultExpression => true,
        NodeKind::ExportDeclaration => true,
        NodeKind::ExportDefaultInterface => true,
        NodeKind::ExportAssignment => true,
        _ => false,
    }
}
