//! Signatures of TypeScript.

ghost use Rattle.std.specs.Prelude.{◌≡◌, ℕ, List, IfSome, IfNone};
ghost use Rattle.es_token.specs.declared.token.Token.{Token as Tok};
ghost use Rattle.es_lowering.specs.TypedParts.{typed_signature};
ghost use Rattle.es_syntax.specs.Held.{held, valued};
ghost use Rattle.es_syntax.specs.Roles.{signature_in};
ghost use Rattle.es_syntax.specs.Views.{IsNone};
ghost use Rattle.es_view_statements.specs.param.Signature.{signatures, the_signature, IsBelow};

use es_grammar::NodeKind;
use es_syntax::{Item, Siblings, What};

/// Type parameters or none, parameters, and the type of the result or none.
#[derive(Clone, Copy)]
pub enum Signature<'a> {
    /// `<T>(a): R`
    Typed {
        type_params: Siblings<'a>,
        params: Item<'a>,
        return_type: Siblings<'a>,
    },
    /// A part is not there.
    Broken,
}

/// `<T>(a): R`
#[tactic(auto, unfolding(es_lowering::specs::TypedParts::typed_signature, crate::specs::param::Signature::typed))]
fn typed<'a>(parts: &Siblings<'a>) -> Signature<'a>
    ensures form { (x : List ℕ) (ts : List Tok) → typed_signature (held x ts parts.now.entries.now) ≡ the_signature x ts result }
    ensures below { IsBelow parts.now result }
{
    match parts.part(1) {
        Some(params) => Signature::Typed {
            type_params: parts.group_at(0),
            params,
            return_type: parts.group_at(2),
        },
        None => Signature::Broken,
    }
}

/// What a node is as a signature of TypeScript; none where it is of another alternative.
#[tactic(auto, unfolding(es_lowering::specs::Lowering::build, es_lowering::specs::Lowering::signature_of))]
pub fn signature_at<'a>(node: &Item<'a>) -> Option<Signature<'a>>
    ensures form { (x : List ℕ) (ts : List Tok) → IfSome result (λ view. signature_in (valued x ts node.now) ≡ the_signature x ts view) }
    ensures other { IfNone result (IsNone signatures node.now.what) }
    ensures below { IfSome result (λ view. IsBelow node.now.parts view) }
{
    match node.what {
        What::Node(label) => match label {
            NodeKind::TypedSignature => Some(typed(&node.parts)),
            _ => None,
        },
        What::Leaf => None,
        What::Role(_) => None,
        What::Parts => None,
        What::Lean(_) => None,
    }
}
