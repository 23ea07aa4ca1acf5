//! Arguments of types.

ghost use Rattle.std.specs.Prelude.{◌≡◌, ℕ, List, IfSome, IfNone};
ghost use Rattle.base.specs.declared.range.Range.{Range};
ghost use Rattle.es_token.specs.declared.token.Token.{Token as Tok};
ghost use Rattle.es_lowering.specs.TypeNames.{arguments};
ghost use Rattle.es_lowering.specs.Texts.{span_of};
ghost use Rattle.es_syntax.specs.Held.{held, valued};
ghost use Rattle.es_syntax.specs.Roles.{arguments_in};
ghost use Rattle.es_syntax.specs.Views.{IsNone};
ghost use Rattle.es_view_types.specs.names.Arguments.{argument_labels, the_arguments, IsBelow};

use es_grammar::NodeKind;
use es_syntax::{Item, Siblings, What};

/// Type arguments, as cursors.
#[derive(Clone, Copy)]
pub enum TypeArguments<'a> {
    /// `<a, b>`: the first, and turns of the others.
    Arguments {
        first: Item<'a>,
        others: Siblings<'a>,
    },
    /// A part is not there.
    Broken,
}

/// `<a, b>`: the first, and turns of the others.
#[tactic(auto, unfolding(es_lowering::specs::TypeNames::arguments, crate::specs::names::Arguments::arguments))]
fn arguments<'a>(parts: &Siblings<'a>) -> TypeArguments<'a>
    ensures form { (x : List ℕ) (ts : List Tok) (r : Range) → arguments r (held x ts parts.now.entries.now) ≡ the_arguments x ts r result }
    ensures below { IsBelow parts.now result }
{
    match parts.part(0) {
        Some(first) => TypeArguments::Arguments {
            first,
            others: parts.group_at(1),
        },
        None => TypeArguments::Broken,
    }
}

/// What a node is as type arguments; none where it is of another alternative.
#[tactic(auto, unfolding(es_lowering::specs::Lowering::build, es_lowering::specs::Lowering::arguments_of))]
pub fn arguments_at<'a>(node: &Item<'a>) -> Option<TypeArguments<'a>>
    ensures form { (x : List ℕ) (ts : List Tok) → IfSome result (λ view. arguments_in (valued x ts node.now) ≡ the_arguments x ts (span_of ts node.now.from node.now.to) view) }
    ensures other { IfNone result (IsNone argument_labels node.now.what) }
    ensures below { IfSome result (λ view. IsBelow node.now.parts view) }
{
    match node.what {
        What::Node(label) => match label {
            NodeKind::TypeArguments => Some(arguments(&node.parts)),
            _ => None,
        },
        What::Leaf => None,
        What::Role(_) => None,
        What::Parts => None,
        What::Lean(_) => None,
    }
}
