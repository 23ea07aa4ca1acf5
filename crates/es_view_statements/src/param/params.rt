//! Lists of parameters.

ghost use Rattle.std.specs.Prelude.{◌≡◌, ℕ, List, IfSome, IfNone};
ghost use Rattle.es_token.specs.declared.token.Token.{Token as Tok};
ghost use Rattle.es_lowering.specs.Functions.{parameters, signature};
ghost use Rattle.es_lowering.specs.TypedParts.{typed_parameters};
ghost use Rattle.es_syntax.specs.Held.{held, valued};
ghost use Rattle.es_syntax.specs.Roles.{params_in};
ghost use Rattle.es_syntax.specs.Views.{IsNone};
ghost use Rattle.es_view_statements.specs.param.Params.{parameter_lists, the_params, IsBelow};

use es_grammar::NodeKind;
use es_syntax::{Item, Siblings, What};

/// Parameters, with their parts in place.
#[derive(Clone, Copy)]
pub enum Params<'a> {
    /// `a, b, ...c`: turns of one each, and what follows `...` or none.
    Plain {
        all: Siblings<'a>,
        rest: Siblings<'a>,
    },
    /// `(a)`: the parameters between the brackets.
    Signature(Item<'a>),
    /// The same of TypeScript.
    Typed {
        all: Siblings<'a>,
        rest: Siblings<'a>,
    },
    /// A part is not there.
    Broken,
}

/// `a, b, ...c`: turns of one each, and what follows `...` or none.
#[tactic(auto, unfolding(es_lowering::specs::Functions::parameters, crate::specs::param::Params::plain))]
fn plain<'a>(parts: &Siblings<'a>) -> Params<'a>
    ensures form { (x : List ℕ) (ts : List Tok) → parameters ts (held x ts parts.now.entries.now) ≡ the_params x ts result }
    ensures below { IsBelow parts.now result }
{
    Params::Plain {
        all: parts.group_at(0),
        rest: parts.group_at(1),
    }
}

/// `(a)`: the parameters between the brackets.
#[tactic(auto, unfolding(es_lowering::specs::Functions::signature, crate::specs::param::Params::bracketed))]
fn signature<'a>(parts: &Siblings<'a>) -> Params<'a>
    ensures form { (x : List ℕ) (ts : List Tok) → signature (held x ts parts.now.entries.now) ≡ the_params x ts result }
    ensures below { IsBelow parts.now result }
{
    match parts.part(0) {
        Some(params) => Params::Signature(params),
        None => Params::Broken,
    }
}

/// The same of TypeScript.
#[tactic(auto, unfolding(es_lowering::specs::TypedParts::typed_parameters, crate::specs::param::Params::typed))]
fn typed<'a>(parts: &Siblings<'a>) -> Params<'a>
    ensures form { (x : List ℕ) (ts : List Tok) → typed_parameters ts (held x ts parts.now.entries.now) ≡ the_params x ts result }
    ensures below { IsBelow parts.now result }
{
    Params::Typed {
        all: parts.group_at(0),
        rest: parts.group_at(1),
    }
}

/// What a node is as parameters; none where it is of another alternative.
#[tactic(auto, unfolding(es_lowering::specs::Lowering::build, es_lowering::specs::Lowering::params_of))]
pub fn params_at<'a>(node: &Item<'a>) -> Option<Params<'a>>
    ensures form { (x : List ℕ) (ts : List Tok) → IfSome result (λ view. params_in (valued x ts node.now) ≡ the_params x ts view) }
    ensures other { IfNone result (IsNone parameter_lists node.now.what) }
    ensures below { IfSome result (λ view. IsBelow node.now.parts view) }
{
    match node.what {
        What::Node(label) => match label {
            NodeKind::Parameters => Some(plain(&node.parts)),
            NodeKind::Signature => Some(signature(&node.parts)),
            NodeKind::TypedParameters => Some(typed(&node.parts)),
            _ => None,
        },
        What::Leaf => None,
        What::Role(_) => None,
        What::Parts => None,
        What::Lean(_) => None,
    }
}
