//! Heads of loops.

ghost use Rattle.std.specs.Prelude.{◌≡◌, ℕ, List, IfSome, IfNone};
ghost use Rattle.es_token.specs.declared.token.Token.{Token as Tok};
ghost use Rattle.es_lowering.specs.Statements.{variable_head, using_head};
ghost use Rattle.es_lowering.specs.TypedStatements.{typed_head};
ghost use Rattle.es_lowering.specs.Value.{part};
ghost use Rattle.es_lowering.specs.Lowering.{as_target};
ghost use Rattle.es_syntax.specs.Held.{held, valued};
ghost use Rattle.es_syntax.specs.Roles.{head_in};
ghost use Rattle.es_syntax.specs.Views.{IsNone};
ghost use Rattle.es_view_statements.specs.decl.Head.{heads, the_head, IsBelow};

use es_grammar::NodeKind;
use es_syntax::{Item, Siblings, What};

/// What precedes `in` or `of` in a `for`. Numbers are those of tokens.
#[derive(Clone, Copy)]
pub enum Head<'a> {
    /// `var a`
    Variable {
        word: u32,
        name: Item<'a>,
    },
    /// `using a`, with or without `await`.
    Using {
        is_await: bool,
        name: u32,
    },
    /// `var a: T`: the type may be absent.
    Typed {
        word: u32,
        name: Item<'a>,
        ty: Siblings<'a>,
    },
    /// An expression that is assigned to.
    Target(Item<'a>),
    /// A pattern alone: the node itself.
    Pattern(Item<'a>),
    /// A part is not there.
    Broken,
}

/// `var a`
#[tactic(auto, unfolding(es_lowering::specs::Statements::variable_head, crate::specs::decl::Head::variable))]
fn variable_head<'a>(parts: &Siblings<'a>) -> Head<'a>
    ensures form { (x : List ℕ) (ts : List Tok) → variable_head ts (held x ts parts.now.entries.now) ≡ the_head x ts result }
    ensures below { IsBelow parts.now result }
{
    match parts.token_at(0) {
        Some(word) => match parts.part(1) {
            Some(name) => Head::Variable { word, name },
            None => Head::Broken,
        },
        None => Head::Broken,
    }
}

/// `using a`, with or without `await`.
#[tactic(auto, unfolding(es_lowering::specs::Statements::using_head, crate::specs::decl::Head::using_of))]
fn using_head<'a>(parts: &Siblings<'a>) -> Head<'a>
    ensures form { (x : List ℕ) (ts : List Tok) → using_head x ts (held x ts parts.now.entries.now) ≡ the_head x ts result }
    ensures below { IsBelow parts.now result }
{
    match parts.token_at(1) {
        Some(name) => Head::Using {
            is_await: parts.has(0),
            name,
        },
        None => Head::Broken,
    }
}

/// `var a: T`: the type may be absent.
#[tactic(auto, unfolding(es_lowering::specs::TypedStatements::typed_head, crate::specs::decl::Head::typed))]
fn typed_head<'a>(parts: &Siblings<'a>) -> Head<'a>
    ensures form { (x : List ℕ) (ts : List Tok) → typed_head ts (held x ts parts.now.entries.now) ≡ the_head x ts result }
    ensures below { IsBelow parts.now result }
{
    match parts.token_at(0) {
        Some(word) => match parts.part(1) {
            Some(name) => Head::Typed {
                word,
                name,
                ty: parts.group_at(2),
            },
            None => Head::Broken,
        },
        None => Head::Broken,
    }
}

/// An expression that is assigned to.
#[tactic(auto, using(crate::proofs::decl_lemmas::Targets::head_target), unfolding(crate::specs::decl::Head::target))]
fn target<'a>(parts: &Siblings<'a>) -> Head<'a>
    ensures form { (x : List ℕ) (ts : List Tok) → head_in (as_target x ts (part (held x ts parts.now.entries.now) 0)) ≡ the_head x ts result }
    ensures below { IsBelow parts.now result }
{
    match parts.part(0) {
        Some(expr) => Head::Target(expr),
        None => Head::Broken,
    }
}

/// What a node is as the head of a `for` before `in` or `of`; a target that is no pattern has another role; none where it is of another alternative.
#[tactic(auto, unfolding(es_lowering::specs::Lowering::build, es_lowering::specs::Lowering::head_of, es_lowering::specs::Lowering::pat_of))]
pub fn head_at<'a>(node: &Item<'a>) -> Option<Head<'a>>
    ensures form { (x : List ℕ) (ts : List Tok) → IfSome result (λ view. head_in (valued x ts node.now) ≡ the_head x ts view) }
    ensures other { IfNone result (IsNone heads node.now.what) }
    ensures below { IfSome result (λ view. IsBelow node.now.parts view) }
{
    match node.what {
        What::Node(label) => match label {
            NodeKind::VariableHead => Some(variable_head(&node.parts)),
            NodeKind::UsingHead => Some(using_head(&node.parts)),
            NodeKind::TypedVariableHead => Some(typed_head(&node.parts)),
            NodeKind::NamePattern => Some(Head::Pattern(*node)),
            NodeKind::ArrayPattern => Some(Head::Pattern(*node)),
            NodeKind::ObjectPattern => Some(Head::Pattern(*node)),
            NodeKind::RestPattern => Some(Head::Pattern(*node)),
            NodeKind::DefaultPattern => Some(Head::Pattern(*node)),
            _ => None,
        },
        What::Leaf => None,
        What::Role(_) => Some(target(&node.parts)),
        What::Parts => None,
        What::Lean(_) => None,
    }
}
