//! Names in the braces of an export.

ghost use Rattle.std.specs.Prelude.{◌≡◌, ℕ, List, IfSome, IfNone};
ghost use Rattle.base.specs.declared.range.Range.{Range};
ghost use Rattle.es_token.specs.declared.token.Token.{Token as Tok};
ghost use Rattle.es_lowering.specs.Modules.{exported_name};
ghost use Rattle.es_lowering.specs.Texts.{span_of};
ghost use Rattle.es_syntax.specs.Held.{held, valued};
ghost use Rattle.es_syntax.specs.Roles.{export_specifier_in};
ghost use Rattle.es_syntax.specs.Views.{IsNone};
ghost use Rattle.es_view_modules.specs.names.ExportSpecifier.{export_specifiers, the_export_specifier, IsBelow};

use es_grammar::NodeKind;
use es_syntax::{Item, Siblings, What};

/// A name in the braces of an export. Numbers are those of tokens.
#[derive(Clone, Copy)]
pub enum ExportName<'a> {
    /// `a as b`, with optional `type`: the name after `as` may be absent.
    Exported {
        type_only: bool,
        orig: u32,
        exported: Siblings<'a>,
    },
    /// A part is not there.
    Broken,
}

/// `a as b`, with optional `type`: the name after `as` may be absent.
#[tactic(auto, unfolding(es_lowering::specs::Modules::exported_name, crate::specs::names::ExportSpecifier::exported_as))]
fn exported<'a>(parts: &Siblings<'a>) -> ExportName<'a>
    ensures form { (x : List ℕ) (ts : List Tok) (r : Range) → exported_name x ts r (held x ts parts.now.entries.now) ≡ the_export_specifier x ts r result }
    ensures below { IsBelow parts.now result }
{
    match parts.group_at(1).token_at(0) {
        Some(orig) => ExportName::Exported {
            type_only: parts.has(0),
            orig,
            exported: parts.group_at(2),
        },
        None => ExportName::Broken,
    }
}

/// What a node is as a name in the braces of an export; none where it is of another alternative.
#[tactic(auto, unfolding(es_lowering::specs::Lowering::build, es_lowering::specs::Lowering::export_specifier_of))]
pub fn export_specifier_at<'a>(node: &Item<'a>) -> Option<ExportName<'a>>
    ensures form { (x : List ℕ) (ts : List Tok) → IfSome result (λ view. export_specifier_in (valued x ts node.now) ≡ the_export_specifier x ts (span_of ts node.now.from node.now.to) view) }
    ensures other { IfNone result (IsNone export_specifiers node.now.what) }
    ensures below { IfSome result (λ view. IsBelow node.now.parts view) }
{
    match node.what {
        What::Node(label) => match label {
            NodeKind::ExportedName => Some(exported(&node.parts)),
            _ => None,
        },
        What::Leaf => None,
        What::Role(_) => None,
        What::Parts => None,
        What::Lean(_) => None,
    }
}
