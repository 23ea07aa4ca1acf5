//! Declarators.

ghost use Rattle.std.specs.Prelude.{◌≡◌, ℕ, List, IfSome, IfNone};
ghost use Rattle.base.specs.declared.range.Range.{Range};
ghost use Rattle.es_token.specs.declared.token.Token.{Token as Tok};
ghost use Rattle.es_lowering.specs.Statements.{declarator};
ghost use Rattle.es_lowering.specs.TypedStatements.{typed_declarator};
ghost use Rattle.es_lowering.specs.Texts.{span_of};
ghost use Rattle.es_syntax.specs.Held.{held, valued};
ghost use Rattle.es_syntax.specs.Roles.{declarator_in};
ghost use Rattle.es_syntax.specs.Views.{IsNone};
ghost use Rattle.es_view_statements.specs.decl.Declarator.{declarators, the_declarator, IsBelow};

use es_grammar::NodeKind;
use es_syntax::{Item, Siblings, What};

/// A declarator, with its parts in place.
#[derive(Clone, Copy)]
pub enum Declarator<'a> {
    /// `a = b`
    Assigned {
        name: Item<'a>,
        value: Item<'a>,
    },
    /// `a!: T = b`: whether `!` is there; the type and the value may be absent.
    Typed {
        name: Item<'a>,
        definite: bool,
        ty: Siblings<'a>,
        value: Siblings<'a>,
    },
    /// A pattern alone: the node itself.
    Pattern(Item<'a>),
    /// A part is not there.
    Broken,
}

/// `a = b`
#[tactic(auto, unfolding(es_lowering::specs::Statements::declarator, crate::specs::decl::Declarator::assigned))]
fn assigned<'a>(parts: &Siblings<'a>) -> Declarator<'a>
    ensures form { (x : List ℕ) (ts : List Tok) (r : Range) → declarator r (held x ts parts.now.entries.now) ≡ the_declarator x ts r result }
    ensures below { IsBelow parts.now result }
{
    match parts.part(0) {
        Some(name) => match parts.part(1) {
            Some(value) => Declarator::Assigned { name, value },
            None => Declarator::Broken,
        },
        None => Declarator::Broken,
    }
}

/// `a!: T = b`: whether `!` is there; the type and the value may be absent.
#[tactic(auto, unfolding(es_lowering::specs::TypedStatements::typed_declarator, crate::specs::decl::Declarator::typed))]
fn typed_declarator<'a>(parts: &Siblings<'a>) -> Declarator<'a>
    ensures form { (x : List ℕ) (ts : List Tok) (r : Range) → typed_declarator ts r (held x ts parts.now.entries.now) ≡ the_declarator x ts r result }
    ensures below { IsBelow parts.now result }
{
    match parts.part(0) {
        Some(name) => Declarator::Typed {
            name,
            definite: parts.has(1),
            ty: parts.group_at(2),
            value: parts.group_at(3),
        },
        None => Declarator::Broken,
    }
}

/// What a node is as a declarator; none where it is of another alternative.
#[tactic(auto, unfolding(es_lowering::specs::Lowering::build, es_lowering::specs::Lowering::declarator_of, es_lowering::specs::Lowering::pat_of))]
pub fn declarator_at<'a>(node: &Item<'a>) -> Option<Declarator<'a>>
    ensures form { (x : List ℕ) (ts : List Tok) → IfSome result (λ view. declarator_in (valued x ts node.now) ≡ the_declarator x ts (span_of ts node.now.from node.now.to) view) }
    ensures other { IfNone result (IsNone declarators node.now.what) }
    ensures below { IfSome result (λ view. IsBelow node.now.parts view) }
{
    match node.what {
        What::Node(label) => match label {
            NodeKind::Declarator => Some(assigned(&node.parts)),
            NodeKind::TypedDeclarator => Some(typed_declarator(&node.parts)),
            NodeKind::NamePattern => Some(Declarator::Pattern(*node)),
            NodeKind::ArrayPattern => Some(Declarator::Pattern(*node)),
            NodeKind::ObjectPattern => Some(Declarator::Pattern(*node)),
            NodeKind::RestPattern => Some(Declarator::Pattern(*node)),
            NodeKind::DefaultPattern => Some(Declarator::Pattern(*node)),
            _ => None,
        },
        What::Leaf => None,
        What::Role(_) => None,
        What::Parts => None,
        What::Lean(_) => None,
    }
}
