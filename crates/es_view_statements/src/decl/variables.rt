//! Variables.

ghost use Rattle.std.specs.Prelude.{◌≡◌, ℕ, List, IfSome, IfNone};
ghost use Rattle.es_token.specs.declared.token.Token.{Token as Tok};
ghost use Rattle.es_lowering.specs.Statements.{variables, using_};
ghost use Rattle.es_syntax.specs.Held.{held, valued};
ghost use Rattle.es_syntax.specs.Roles.{variables_in};
ghost use Rattle.es_syntax.specs.Views.{IsNone};
ghost use Rattle.es_view_statements.specs.decl.Variables.{variable_labels, the_variables, IsBelow};

use es_grammar::NodeKind;
use es_syntax::{Item, Siblings, What};

/// Variables: the first declarator, and turns of the others. Numbers are those of tokens.
#[derive(Clone, Copy)]
pub enum Variables<'a> {
    /// `var a = b, c`
    Var {
        word: u32,
        first: Item<'a>,
        others: Siblings<'a>,
    },
    /// `using a = b`, with or without `await`.
    Using {
        is_await: bool,
        first: Item<'a>,
        others: Siblings<'a>,
    },
    /// A part is not there.
    Broken,
}

/// `var a = b, c`
#[tactic(auto, unfolding(es_lowering::specs::Statements::variables, crate::specs::decl::Variables::var_of))]
fn var<'a>(parts: &Siblings<'a>) -> Variables<'a>
    ensures form { (x : List ℕ) (ts : List Tok) → variables ts (held x ts parts.now.entries.now) ≡ the_variables x ts result }
    ensures below { IsBelow parts.now result }
{
    match parts.token_at(0) {
        Some(word) => match parts.part(1) {
            Some(first) => Variables::Var {
                word,
                first,
                others: parts.group_at(2),
            },
            None => Variables::Broken,
        },
        None => Variables::Broken,
    }
}

/// `using a = b`, with or without `await`.
#[tactic(auto, unfolding(es_lowering::specs::Statements::using_, crate::specs::decl::Variables::using_of))]
fn using_<'a>(parts: &Siblings<'a>) -> Variables<'a>
    ensures form { (x : List ℕ) (ts : List Tok) → using_ (held x ts parts.now.entries.now) ≡ the_variables x ts result }
    ensures below { IsBelow parts.now result }
{
    match parts.part(1) {
        Some(first) => Variables::Using {
            is_await: parts.has(0),
            first,
            others: parts.group_at(2),
        },
        None => Variables::Broken,
    }
}

/// What a node is as variables; none where it is of another alternative.
#[tactic(auto, unfolding(es_lowering::specs::Lowering::build, es_lowering::specs::Lowering::variables_of))]
pub fn variables_at<'a>(node: &Item<'a>) -> Option<Variables<'a>>
    ensures form { (x : List ℕ) (ts : List Tok) → IfSome result (λ view. variables_in (valued x ts node.now) ≡ the_variables x ts view) }
    ensures other { IfNone result (IsNone variable_labels node.now.what) }
    ensures below { IfSome result (λ view. IsBelow node.now.parts view) }
{
    match node.what {
        What::Node(label) => match label {
            NodeKind::Variables => Some(var(&node.parts)),
            NodeKind::Using => Some(using_(&node.parts)),
            _ => None,
        },
        What::Leaf => None,
        What::Role(_) => None,
        What::Parts => None,
        What::Lean(_) => None,
    }
}
