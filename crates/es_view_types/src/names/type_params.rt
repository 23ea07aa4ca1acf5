//! Parameters of types.

ghost use Rattle.std.specs.Prelude.{◌≡◌, ℕ, List, IfSome, IfNone};
ghost use Rattle.base.specs.declared.range.Range.{Range};
ghost use Rattle.es_token.specs.declared.token.Token.{Token as Tok};
ghost use Rattle.es_lowering.specs.TypeNames.{type_params};
ghost use Rattle.es_lowering.specs.Texts.{span_of};
ghost use Rattle.es_syntax.specs.Held.{held, valued};
ghost use Rattle.es_syntax.specs.Roles.{type_params_in};
ghost use Rattle.es_syntax.specs.Views.{IsNone};
ghost use Rattle.es_view_types.specs.names.TypeParams.{type_param_labels, the_type_params, IsBelow};

use es_grammar::NodeKind;
use es_syntax::{Item, Siblings, What};

/// Type parameters, as cursors.
#[derive(Clone, Copy)]
pub enum TypeParams<'a> {
    /// `<a, b>`: the parts of the first one are among those of the node; the others are turns.
    Params {
        first: Siblings<'a>,
        others: Siblings<'a>,
    },
    /// A part is not there.
    Broken,
}

/// `<a, b>`: the parts of the first one are among those of the node; the others are turns.
#[tactic(auto, unfolding(es_lowering::specs::TypeNames::type_params, crate::specs::names::TypeParams::type_params))]
fn type_params<'a>(parts: &Siblings<'a>) -> TypeParams<'a>
    ensures form { (x : List ℕ) (ts : List Tok) (r : Range) → type_params x ts r (held x ts parts.now.entries.now) ≡ the_type_params x ts r result }
    ensures below { IsBelow parts.now result }
{
    TypeParams::Params {
        first: *parts,
        others: parts.group_at(5),
    }
}

/// What a node is as type parameters; none where it is of another alternative.
#[tactic(auto, unfolding(es_lowering::specs::Lowering::build, es_lowering::specs::Lowering::type_params_of))]
pub fn type_params_at<'a>(node: &Item<'a>) -> Option<TypeParams<'a>>
    ensures form { (x : List ℕ) (ts : List Tok) → IfSome result (λ view. type_params_in (valued x ts node.now) ≡ the_type_params x ts (span_of ts node.now.from node.now.to) view) }
    ensures other { IfNone result (IsNone type_param_labels node.now.what) }
    ensures below { IfSome result (λ view. IsBelow node.now.parts view) }
{
    match node.what {
        What::Node(label) => match label {
            NodeKind::TypeParameters => Some(type_params(&node.parts)),
            _ => None,
        },
        What::Leaf => None,
        What::Role(_) => None,
        What::Parts => None,
        What::Lean(_) => None,
    }
}
