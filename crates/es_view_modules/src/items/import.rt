//! Imports.

ghost use Rattle.std.specs.Prelude.{◌≡◌, ℕ, List, IfSome, IfNone, None};
ghost use Rattle.base.specs.declared.range.Range.{Range};
ghost use Rattle.es_token.specs.declared.token.Token.{Token as Tok};
ghost use Rattle.es_lowering.specs.Modules.{bare_import, from_import, phase_import, require_import, entity_import};
ghost use Rattle.es_lowering.specs.Lowering.{item_by};
ghost use Rattle.es_lowering.specs.Texts.{span_of};
ghost use Rattle.es_syntax.specs.Held.{held, valued};
ghost use Rattle.es_syntax.specs.Roles.{item_in};
ghost use Rattle.es_syntax.specs.Views.{IsNone};
ghost use Rattle.es_view_modules.specs.items.Import.{imports, the_import, IsBelow};

use es_ast::ImportPhase;
use es_grammar::NodeKind;
use es_syntax::{Item, Siblings, What};

/// An import, with its parts as cursors. Numbers are those of tokens.
#[derive(Clone, Copy)]
pub enum Import<'a> {
    /// `import "a"`: attributes may be absent.
    Bare {
        source: u32,
        attributes: Siblings<'a>,
    },
    /// `import a from "b"`, with optional `type`.
    From {
        type_only: bool,
        clause: Item<'a>,
        source: u32,
        attributes: Siblings<'a>,
    },
    /// `import source a from "b"`, or `import defer * as a from "b"`: the name is a token's.
    Phased {
        phase: ImportPhase,
        name: Item<'a>,
        source: u32,
        attributes: Siblings<'a>,
    },
    /// `import a = require("b")`, with optional `export`.
    Require {
        is_export: bool,
        type_only: bool,
        name: u32,
        source: Item<'a>,
    },
    /// `import a = b.c`, with optional `export`.
    Entity {
        is_export: bool,
        type_only: bool,
        name: u32,
        entity: Item<'a>,
    },
    /// A part is not there.
    Broken,
}

/// `import "a"`: attributes may be absent.
#[tactic(auto, unfolding(es_lowering::specs::Modules::bare_import, crate::specs::items::Import::bare))]
fn bare<'a>(parts: &Siblings<'a>) -> Import<'a>
    ensures form { (x : List ℕ) (ts : List Tok) (r : Range) → bare_import x ts r (held x ts parts.now.entries.now) ≡ the_import x ts r result }
    ensures below { IsBelow parts.now result }
{
    match parts.token_at(0) {
        Some(source) => Import::Bare {
            source,
            attributes: parts.group_at(1),
        },
        None => Import::Broken,
    }
}

/// `import a from "b"`, with optional `type`.
#[tactic(auto, unfolding(es_lowering::specs::Modules::from_import, crate::specs::items::Import::from_of))]
fn from_<'a>(parts: &Siblings<'a>) -> Import<'a>
    ensures form { (x : List ℕ) (ts : List Tok) (r : Range) → from_import x ts r (held x ts parts.now.entries.now) ≡ the_import x ts r result }
    ensures below { IsBelow parts.now result }
{
    match parts.part(1) {
        Some(clause) => match parts.token_at(2) {
            Some(source) => Import::From {
                type_only: parts.has(0),
                clause,
                source,
                attributes: parts.group_at(3),
            },
            None => Import::Broken,
        },
        None => Import::Broken,
    }
}

/// `import source a from "b"`, `import defer * as a from "b"`
#[tactic(auto, unfolding(es_lowering::specs::Modules::phase_import, crate::specs::items::Import::phased))]
fn phased<'a>(phase: ImportPhase, parts: &Siblings<'a>) -> Import<'a>
    ensures form { (x : List ℕ) (ts : List Tok) (r : Range) → phase_import x ts phase r (held x ts parts.now.entries.now) ≡ the_import x ts r result }
    ensures below { IsBelow parts.now result }
{
    match parts.part(0) {
        Some(name) => match parts.token_at(1) {
            Some(source) => Import::Phased {
                phase,
                name,
                source,
                attributes: parts.group_at(2),
            },
            None => Import::Broken,
        },
        None => Import::Broken,
    }
}

/// `import a = require("b")`, with optional `export`.
#[tactic(auto, unfolding(es_lowering::specs::Modules::require_import, crate::specs::items::Import::require))]
fn require<'a>(is_export: bool, parts: &Siblings<'a>) -> Import<'a>
    ensures form { (x : List ℕ) (ts : List Tok) (r : Range) → require_import x ts is_export r (held x ts parts.now.entries.now) ≡ the_import x ts r result }
    ensures below { IsBelow parts.now result }
{
    match parts.token_at(1) {
        Some(name) => match parts.part(2) {
            Some(source) => Import::Require {
                is_export,
                type_only: parts.has(0),
                name,
                source,
            },
            None => Import::Broken,
        },
        None => Import::Broken,
    }
}

/// `import a = b.c`, with optional `export`.
#[tactic(auto, unfolding(es_lowering::specs::Modules::entity_import, crate::specs::items::Import::aliased))]
fn entity<'a>(is_export: bool, parts: &Siblings<'a>) -> Import<'a>
    ensures form { (x : List ℕ) (ts : List Tok) (r : Range) → entity_import x ts is_export r (held x ts parts.now.entries.now) ≡ the_import x ts r result }
    ensures below { IsBelow parts.now result }
{
    match parts.token_at(1) {
        Some(name) => match parts.part(2) {
            Some(entity) => Import::Entity {
                is_export,
                type_only: parts.has(0),
                name,
                entity,
            },
            None => Import::Broken,
        },
        None => Import::Broken,
    }
}

/// What a node is as an import; none where it is of another alternative.
#[tactic(auto, unfolding(es_lowering::specs::Lowering::build, es_lowering::specs::Lowering::module_decl_of, es_lowering::specs::Lowering::stmt_of, es_lowering::specs::Lowering::decl_of, es_lowering::specs::Lowering::declarable_of))]
pub fn import_at<'a>(node: &Item<'a>) -> Option<Import<'a>>
    ensures form { (x : List ℕ) (ts : List Tok) → IfSome result (λ view. item_in (valued x ts node.now) ≡ item_by x ts (the_import x ts (span_of ts node.now.from node.now.to) view) None) }
    ensures other { IfNone result (IsNone imports node.now.what) }
    ensures below { IfSome result (λ view. IsBelow node.now.parts view) }
{
    match node.what {
        What::Node(label) => match label {
            NodeKind::BareImport => Some(bare(&node.parts)),
            NodeKind::FromImport => Some(from_(&node.parts)),
            NodeKind::SourceImport => Some(phased(ImportPhase::Source, &node.parts)),
            NodeKind::DeferImport => Some(phased(ImportPhase::Defer, &node.parts)),
            NodeKind::RequireImport => Some(require(false, &node.parts)),
            NodeKind::ExportedRequireImport => Some(require(true, &node.parts)),
            NodeKind::EntityImport => Some(entity(false, &node.parts)),
            NodeKind::ExportedEntityImport => Some(entity(true, &node.parts)),
            _ => None,
        },
        What::Leaf => None,
        What::Role(_) => None,
        What::Parts => None,
        What::Lean(_) => None,
    }
}
