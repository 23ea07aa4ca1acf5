//! Which expressions are functions or arrows.

ghost use Rattle.std.specs.Prelude.{◌≡◌, ℕ, List, IfSome};
ghost use Rattle.es_token.specs.declared.token.Token.{Token as Tok};
ghost use Rattle.es_ast.specs.declared.ast.Expr.{out-Expr};
ghost use Rattle.es_syntax.specs.Held.{valued};
ghost use Rattle.es_syntax.specs.Roles.{expr_in};
ghost use Rattle.es_syntax.specs.Views.{is_one_of};
ghost use Rattle.dts_rules.specs.Sets.{is_function_by};
ghost use Rattle.dts_sets.specs.Forms.{function_labels};

use es_grammar::NodeKind;
use es_syntax::{Item, What};

/// Whether nodes of this alternative are functions or arrows as expressions.
fn is_function_label(label: NodeKind) -> bool
    ensures { is_one_of function_labels label ≡ result }
{
    match label {
        NodeKind::Function => true,
        NodeKind::AsyncFunction => true,
        NodeKind::TypedFunction => true,
        NodeKind::TypedAsyncFunction => true,
        NodeKind::NameArrow => true,
        NodeKind::ParenthesizedArrow => true,
        NodeKind::AsyncNameArrow => true,
        NodeKind::AsyncParenthesizedArrow => true,
        NodeKind::TypedParenthesizedArrow => true,
        NodeKind::TypedAsyncParenthesizedArrow => true,
        _ => false,
    }
}

/// Whether an expression is a function or an arrow.
#[tactic(auto, using(crate::proofs::FunctionForms::node_function, crate::proofs::FunctionForms::lean_function, crate::proofs::FunctionForms::role_function, crate::proofs::FunctionForms::parts_function))]
pub fn is_function(it: &Item<'_>) -> bool
    ensures { (x : List ℕ) (ts : List Tok) → IfSome (expr_in (valued x ts it.now)) (λ e. is_function_by (out-Expr e) ≡ result) }
{
    match it.what {
        What::Node(label) => is_function_label(label),
        What::Leaf => false,
        What::Role(_) => false,
        What::Parts => false,
        What::Lean(_) => false,
    }
}
