//! Lists of parameters of types of functions.

ghost use Rattle.std.specs.Prelude.{◌≡◌, ℕ, List, IfSome, IfNone};
ghost use Rattle.es_token.specs.declared.token.Token.{Token as Tok};
ghost use Rattle.es_lowering.specs.TypePatterns.{parameters};
ghost use Rattle.es_syntax.specs.Held.{held, valued};
ghost use Rattle.es_syntax.specs.Roles.{fn_params_in};
ghost use Rattle.es_syntax.specs.Views.{IsNone};
ghost use Rattle.es_view_types.specs.members.Params.{parameter_lists, the_params, IsBelow};

use es_grammar::NodeKind;
use es_syntax::{Item, Siblings, What};

/// Parameters, as cursors.
#[derive(Clone, Copy)]
pub enum TypeFnParams<'a> {
    /// `a, b, ...c`: turns of one each, and what follows `...` or none.
    Params {
        all: Siblings<'a>,
        rest: Siblings<'a>,
    },
    /// A part is not there.
    Broken,
}

/// `a, b, ...c`: turns of one each, and what follows `...` or none.
#[tactic(auto, unfolding(es_lowering::specs::TypePatterns::parameters, crate::specs::members::Params::parameters))]
fn parameters<'a>(parts: &Siblings<'a>) -> TypeFnParams<'a>
    ensures form { (x : List ℕ) (ts : List Tok) → parameters ts (held x ts parts.now.entries.now) ≡ the_params x ts result }
    ensures below { IsBelow parts.now result }
{
    TypeFnParams::Params {
        all: parts.group_at(0),
        rest: parts.group_at(1),
    }
}

/// What a node is as parameters of a type of a function; none where it is of another alternative.
#[tactic(auto, unfolding(es_lowering::specs::Lowering::build, es_lowering::specs::Lowering::fn_params_of))]
pub fn params_at<'a>(node: &Item<'a>) -> Option<TypeFnParams<'a>>
    ensures form { (x : List ℕ) (ts : List Tok) → IfSome result (λ view. fn_params_in (valued x ts node.now) ≡ the_params x ts view) }
    ensures other { IfNone result (IsNone parameter_lists node.now.what) }
    ensures below { IfSome result (λ view. IsBelow node.now.parts view) }
{
    match node.what {
        What::Node(label) => match label {
            NodeKind::ParametersOfType => Some(parameters(&node.parts)),
            _ => None,
        },
        What::Leaf => None,
        What::Role(_) => None,
        What::Parts => None,
        What::Lean(_) => None,
    }
}
