//! Parameters of types of functions.

ghost use Rattle.std.specs.Prelude.{◌≡◌, ℕ, List, IfSome, IfNone};
ghost use Rattle.base.specs.declared.range.Range.{Range};
ghost use Rattle.es_token.specs.declared.token.Token.{Token as Tok};
ghost use Rattle.es_lowering.specs.TypePatterns.{this_parameter, marked_parameter};
ghost use Rattle.es_lowering.specs.Texts.{span_of};
ghost use Rattle.es_syntax.specs.Held.{held, valued};
ghost use Rattle.es_syntax.specs.Roles.{fn_param_in};
ghost use Rattle.es_syntax.specs.Views.{IsNone};
ghost use Rattle.es_view_types.specs.members.Param.{parameters, the_param, IsBelow};

use es_grammar::NodeKind;
use es_syntax::{Item, Siblings, What};

/// A parameter, with its parts as cursors. Numbers are those of tokens.
#[derive(Clone, Copy)]
pub enum TypeFnParam<'a> {
    /// `this?: T`: whether a mark is there; the type may be absent.
    This {
        word: u32,
        mark: bool,
        ty: Siblings<'a>,
    },
    /// `a?: T`, `a: T`, `a?`: a pattern, and what follows it.
    Marked {
        pat: Item<'a>,
        mark: Siblings<'a>,
    },
    /// A pattern alone: the node itself.
    Pattern(Item<'a>),
    /// A part is not there.
    Broken,
}

/// `this?: T`: whether a mark is there; the type may be absent.
#[tactic(auto, unfolding(es_lowering::specs::TypePatterns::this_parameter, crate::specs::members::Param::this))]
fn this<'a>(parts: &Siblings<'a>) -> TypeFnParam<'a>
    ensures form { (x : List ℕ) (ts : List Tok) (r : Range) → this_parameter ts r (held x ts parts.now.entries.now) ≡ the_param x ts r result }
    ensures below { IsBelow parts.now result }
{
    match parts.token_at(0) {
        Some(word) => TypeFnParam::This {
            word,
            mark: parts.has(1),
            ty: parts.group_at(2),
        },
        None => TypeFnParam::Broken,
    }
}

/// `a?: T`, `a: T`, `a?`: a pattern, and what follows it.
#[tactic(auto, unfolding(es_lowering::specs::TypePatterns::marked_parameter, crate::specs::members::Param::marked))]
fn marked<'a>(parts: &Siblings<'a>) -> TypeFnParam<'a>
    ensures form { (x : List ℕ) (ts : List Tok) (r : Range) → marked_parameter r (held x ts parts.now.entries.now) ≡ the_param x ts r result }
    ensures below { IsBelow parts.now result }
{
    match parts.part(0) {
        Some(pat) => TypeFnParam::Marked {
            pat,
            mark: parts.group_at(1),
        },
        None => TypeFnParam::Broken,
    }
}

/// What a node is as a parameter of a type of a function; none where it is of another alternative.
#[tactic(auto, unfolding(es_lowering::specs::Lowering::build, es_lowering::specs::Lowering::fn_param_of, es_lowering::specs::Lowering::type_pat_of))]
pub fn param_at<'a>(node: &Item<'a>) -> Option<TypeFnParam<'a>>
    ensures form { (x : List ℕ) (ts : List Tok) → IfSome result (λ view. fn_param_in (valued x ts node.now) ≡ the_param x ts (span_of ts node.now.from node.now.to) view) }
    ensures other { IfNone result (IsNone parameters node.now.what) }
    ensures below { IfSome result (λ view. IsBelow node.now.parts view) }
{
    match node.what {
        What::Node(label) => match label {
            NodeKind::ThisParameterOfType => Some(this(&node.parts)),
            NodeKind::MarkedParameterOfType => Some(marked(&node.parts)),
            NodeKind::NamePatternOfType => Some(TypeFnParam::Pattern(*node)),
            NodeKind::ArrayPatternOfType => Some(TypeFnParam::Pattern(*node)),
            NodeKind::ObjectPatternOfType => Some(TypeFnParam::Pattern(*node)),
            NodeKind::RestPatternOfType => Some(TypeFnParam::Pattern(*node)),
            _ => None,
        },
        What::Leaf => None,
        What::Role(_) => None,
        What::Parts => None,
        What::Lean(_) => None,
    }
}
