//! Names of types, with arguments or without.

ghost use Rattle.std.specs.Prelude.{◌≡◌, ℕ, List, IfSome, IfNone};
ghost use Rattle.base.specs.declared.range.Range.{Range};
ghost use Rattle.es_token.specs.declared.token.Token.{Token as Tok};
ghost use Rattle.es_lowering.specs.TypeNames.{named_reference};
ghost use Rattle.es_lowering.specs.Texts.{span_of};
ghost use Rattle.es_syntax.specs.Held.{held, valued};
ghost use Rattle.es_syntax.specs.Roles.{reference_in};
ghost use Rattle.es_syntax.specs.Views.{IsNone};
ghost use Rattle.es_view_types.specs.names.Reference.{references, the_reference, IsBelow};

use es_grammar::NodeKind;
use es_syntax::{Item, Siblings, What};

/// A name of a type, with its parts as cursors.
#[derive(Clone, Copy)]
pub enum Reference<'a> {
    /// `a<b>`
    Named { name: Item<'a>, arguments: Item<'a> },
    /// A name alone: its parts.
    Entity(Siblings<'a>),
    /// A part is not there.
    Broken,
}

/// `a<b>`
#[tactic(auto, unfolding(crate::specs::names::Reference::named))]
fn named<'a>(parts: &Siblings<'a>) -> Reference<'a>
    ensures form { (x : List ℕ) (ts : List Tok) (r : Range) → named_reference (held x ts parts.now.entries.now) ≡ the_reference x ts r result }
    ensures below { IsBelow parts.now result }
{
    match parts.part(0) {
        Some(name) => match parts.part(1) {
            Some(arguments) => Reference::Named { name, arguments },
            None => Reference::Broken,
        },
        None => Reference::Broken,
    }
}

/// What a node is as a name of a type, with arguments or without; none where it is of another alternative.
#[tactic(auto, unfolding(es_lowering::specs::Lowering::build, es_lowering::specs::Lowering::reference_of))]
pub fn reference_at<'a>(node: &Item<'a>) -> Option<Reference<'a>>
    ensures form { (x : List ℕ) (ts : List Tok) → IfSome result (λ view. reference_in (valued x ts node.now) ≡ the_reference x ts (span_of ts node.now.from node.now.to) view) }
    ensures other { IfNone result (IsNone references node.now.what) }
    ensures below { IfSome result (λ view. IsBelow node.now.parts view) }
{
    match node.what {
        What::Node(label) => match label {
            NodeKind::Reference => Some(named(&node.parts)),
            NodeKind::EntityOfType => Some(Reference::Entity(node.parts)),
            _ => None,
        },
        What::Leaf => None,
        What::Role(_) => None,
        What::Parts => None,
        What::Lean(_) => None,
    }
}
