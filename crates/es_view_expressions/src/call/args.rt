//! Arguments.

ghost use Rattle.std.specs.Prelude.{◌≡◌, ℕ, List, IfSome, IfNone};
ghost use Rattle.es_token.specs.declared.token.Token.{Token as Tok};
ghost use Rattle.es_lowering.specs.Expressions.{arguments};
ghost use Rattle.es_syntax.specs.Held.{held, valued};
ghost use Rattle.es_syntax.specs.Roles.{args_in};
ghost use Rattle.es_syntax.specs.Views.{IsNone};
ghost use Rattle.es_view_expressions.specs.call.Args.{argument_labels, the_args, IsBelow};

use es_grammar::NodeKind;
use es_syntax::{Item, Siblings, What};

/// Arguments: turns of a sign `...` or none, and an expression.
#[derive(Clone, Copy)]
pub enum Args<'a> {
    /// `(a, ...b)`
    Arguments(Siblings<'a>),
    /// A part is not there.
    Broken,
}

/// `(a, ...b)`
#[tactic(auto, unfolding(es_lowering::specs::Expressions::arguments, crate::specs::call::Args::arguments))]
fn arguments<'a>(parts: &Siblings<'a>) -> Args<'a>
    ensures form { (x : List ℕ) (ts : List Tok) → arguments ts (held x ts parts.now.entries.now) ≡ the_args x ts result }
    ensures below { IsBelow parts.now result }
{
    Args::Arguments(parts.group_at(0))
}

/// What a node is as arguments; none where it is of another alternative.
#[tactic(auto, unfolding(es_lowering::specs::Lowering::build, es_lowering::specs::Lowering::args_of))]
pub fn args_at<'a>(node: &Item<'a>) -> Option<Args<'a>>
    ensures form { (x : List ℕ) (ts : List Tok) → IfSome result (λ view. args_in (valued x ts node.now) ≡ the_args x ts view) }
    ensures other { IfNone result (IsNone argument_labels node.now.what) }
    ensures below { IfSome result (λ view. IsBelow node.now.parts view) }
{
    match node.what {
        What::Node(label) => match label {
            NodeKind::Arguments => Some(arguments(&node.parts)),
            _ => None,
        },
        What::Leaf => None,
        What::Role(_) => None,
        What::Parts => None,
        What::Lean(_) => None,
    }
}
