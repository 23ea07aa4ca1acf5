//! Names in the braces of an import.

ghost use Rattle.std.specs.Prelude.{◌≡◌, ℕ, List, IfSome, IfNone};
ghost use Rattle.base.specs.declared.range.Range.{Range};
ghost use Rattle.es_token.specs.declared.token.Token.{Token as Tok};
ghost use Rattle.es_lowering.specs.Modules.{renamed_import, imported_name};
ghost use Rattle.es_lowering.specs.Texts.{span_of};
ghost use Rattle.es_syntax.specs.Held.{held, valued};
ghost use Rattle.es_syntax.specs.Roles.{import_specifier_in};
ghost use Rattle.es_syntax.specs.Views.{IsNone};
ghost use Rattle.es_view_modules.specs.names.ImportSpecifier.{import_specifiers, the_import_specifier, IsBelow};

use es_grammar::NodeKind;
use es_syntax::{Item, Siblings, What};

/// A name in the braces of an import. Numbers are those of tokens.
#[derive(Clone, Copy)]
pub enum ImportName {
    /// `a as b`, with optional `type`.
    Renamed {
        type_only: bool,
        imported: u32,
        local: u32,
    },
    /// `a`, with optional `type`.
    Same {
        type_only: bool,
        local: u32,
    },
    /// A part is not there.
    Broken,
}

/// `a as b`, with optional `type`.
#[tactic(auto, unfolding(es_lowering::specs::Modules::renamed_import, crate::specs::names::ImportSpecifier::renamed))]
fn renamed(parts: &Siblings<'_>) -> ImportName
    ensures form { (x : List ℕ) (ts : List Tok) (r : Range) → renamed_import x ts r (held x ts parts.now.entries.now) ≡ the_import_specifier x ts r result }
    ensures below { IsBelow parts.now result }
{
    match parts.group_at(1).token_at(0) {
        Some(imported) => match parts.token_at(2) {
            Some(local) => ImportName::Renamed {
                type_only: parts.has(0),
                imported,
                local,
            },
            None => ImportName::Broken,
        },
        None => ImportName::Broken,
    }
}

/// `a`, with optional `type`.
#[tactic(auto, unfolding(es_lowering::specs::Modules::imported_name, crate::specs::names::ImportSpecifier::same))]
fn same(parts: &Siblings<'_>) -> ImportName
    ensures form { (x : List ℕ) (ts : List Tok) (r : Range) → imported_name x ts r (held x ts parts.now.entries.now) ≡ the_import_specifier x ts r result }
    ensures below { IsBelow parts.now result }
{
    match parts.token_at(1) {
        Some(local) => ImportName::Same {
            type_only: parts.has(0),
            local,
        },
        None => ImportName::Broken,
    }
}

/// What a node is as a name in the braces of an import; none where it is of another alternative.
#[tactic(auto, unfolding(es_lowering::specs::Lowering::build, es_lowering::specs::Lowering::import_specifier_of))]
pub fn import_specifier_at(node: &Item<'_>) -> Option<ImportName>
    ensures form { (x : List ℕ) (ts : List Tok) → IfSome result (λ view. import_specifier_in (valued x ts node.now) ≡ the_import_specifier x ts (span_of ts node.now.from node.now.to) view) }
    ensures other { IfNone result (IsNone import_specifiers node.now.what) }
    ensures below { IfSome result (λ view. IsBelow node.now.parts view) }
{
    match node.what {
        What::Node(label) => match label {
            NodeKind::RenamedImport => Some(renamed(&node.parts)),
            NodeKind::ImportedName => Some(same(&node.parts)),
            _ => None,
        },
        What::Leaf => None,
        What::Role(_) => None,
        What::Parts => None,
        What::Lean(_) => None,
    }
}
