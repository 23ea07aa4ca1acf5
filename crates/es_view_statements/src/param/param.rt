//! Parameters.

ghost use Rattle.std.specs.Prelude.{◌≡◌, ℕ, List, IfSome, IfNone};
ghost use Rattle.base.specs.declared.range.Range.{Range};
ghost use Rattle.es_token.specs.declared.token.Token.{Token as Tok};
ghost use Rattle.es_lowering.specs.Functions.{default_parameter};
ghost use Rattle.es_lowering.specs.TypedParts.{this_parameter, property_parameter, marked_parameter};
ghost use Rattle.es_lowering.specs.Texts.{span_of};
ghost use Rattle.es_syntax.specs.Held.{held, valued};
ghost use Rattle.es_syntax.specs.Roles.{param_in};
ghost use Rattle.es_syntax.specs.Views.{IsNone};
ghost use Rattle.es_view_statements.specs.param.Param.{parameters, the_param, IsBelow};

use es_grammar::NodeKind;
use es_syntax::{Item, Siblings, What};

/// A parameter, with its parts in place.
#[derive(Clone, Copy)]
pub enum Param<'a> {
    /// `a = b`
    Default {
        left: Item<'a>,
        right: Item<'a>,
    },
    /// `this: T = a`: the word; its type and its default may be absent.
    This {
        word: Item<'a>,
        ty: Siblings<'a>,
        value: Siblings<'a>,
    },
    /// `public a?: T = b` in a constructor: its modifiers as turns.
    Property {
        modifiers: Siblings<'a>,
        name: Item<'a>,
        mark: Siblings<'a>,
        ty: Siblings<'a>,
        value: Siblings<'a>,
    },
    /// `a?: T = b`: the mark, the type and the default may be absent.
    Marked {
        name: Item<'a>,
        mark: Siblings<'a>,
        ty: Siblings<'a>,
        value: Siblings<'a>,
    },
    /// A pattern alone: the node itself.
    Pattern(Item<'a>),
    /// A part is not there.
    Broken,
}

/// `a = b`
#[tactic(auto, unfolding(es_lowering::specs::Functions::default_parameter, crate::specs::param::Param::default))]
fn default<'a>(parts: &Siblings<'a>) -> Param<'a>
    ensures form { (x : List ℕ) (ts : List Tok) (r : Range) → default_parameter r (held x ts parts.now.entries.now) ≡ the_param x ts r result }
    ensures below { IsBelow parts.now result }
{
    match parts.part(0) {
        Some(left) => match parts.part(1) {
            Some(right) => Param::Default { left, right },
            None => Param::Broken,
        },
        None => Param::Broken,
    }
}

/// `this: T = a`: the word; its type and its default may be absent.
#[tactic(auto, unfolding(es_lowering::specs::TypedParts::this_parameter, crate::specs::param::Param::this))]
fn this<'a>(parts: &Siblings<'a>) -> Param<'a>
    ensures form { (x : List ℕ) (ts : List Tok) (r : Range) → this_parameter ts r (held x ts parts.now.entries.now) ≡ the_param x ts r result }
    ensures below { IsBelow parts.now result }
{
    match parts.part(0) {
        Some(word) => Param::This {
            word,
            ty: parts.group_at(2),
            value: parts.group_at(3),
        },
        None => Param::Broken,
    }
}

/// `public a?: T = b` in a constructor: its modifiers as turns.
#[tactic(auto, unfolding(es_lowering::specs::TypedParts::property_parameter, crate::specs::param::Param::property))]
fn property<'a>(parts: &Siblings<'a>) -> Param<'a>
    ensures form { (x : List ℕ) (ts : List Tok) (r : Range) → property_parameter ts r (held x ts parts.now.entries.now) ≡ the_param x ts r result }
    ensures below { IsBelow parts.now result }
{
    match parts.part(1) {
        Some(name) => Param::Property {
            modifiers: parts.group_at(0),
            name,
            mark: parts.group_at(2),
            ty: parts.group_at(3),
            value: parts.group_at(4),
        },
        None => Param::Broken,
    }
}

/// `a?: T = b`: the mark, the type and the default may be absent.
#[tactic(auto, unfolding(es_lowering::specs::TypedParts::marked_parameter, crate::specs::param::Param::marked))]
fn marked<'a>(parts: &Siblings<'a>) -> Param<'a>
    ensures form { (x : List ℕ) (ts : List Tok) (r : Range) → marked_parameter ts r (held x ts parts.now.entries.now) ≡ the_param x ts r result }
    ensures below { IsBelow parts.now result }
{
    match parts.part(0) {
        Some(name) => Param::Marked {
            name,
            mark: parts.group_at(1),
            ty: parts.group_at(2),
            value: parts.group_at(3),
        },
        None => Param::Broken,
    }
}

/// What a node is as a parameter; none where it is of another alternative.
#[tactic(auto, unfolding(es_lowering::specs::Lowering::build, es_lowering::specs::Lowering::param_of, es_lowering::specs::Lowering::pat_of))]
pub fn param_at<'a>(node: &Item<'a>) -> Option<Param<'a>>
    ensures form { (x : List ℕ) (ts : List Tok) → IfSome result (λ view. param_in (valued x ts node.now) ≡ the_param x ts (span_of ts node.now.from node.now.to) view) }
    ensures other { IfNone result (IsNone parameters node.now.what) }
    ensures below { IfSome result (λ view. IsBelow node.now.parts view) }
{
    match node.what {
        What::Node(label) => match label {
            NodeKind::DefaultParameter => Some(default(&node.parts)),
            NodeKind::ThisParameter => Some(this(&node.parts)),
            NodeKind::PropertyParameter => Some(property(&node.parts)),
            NodeKind::MarkedParameter => Some(marked(&node.parts)),
            NodeKind::NamePattern => Some(Param::Pattern(*node)),
            NodeKind::ArrayPattern => Some(Param::Pattern(*node)),
            NodeKind::ObjectPattern => Some(Param::Pattern(*node)),
            NodeKind::RestPattern => Some(Param::Pattern(*node)),
            NodeKind::DefaultPattern => Some(Param::Pattern(*node)),
            _ => None,
        },
        What::Leaf => None,
        What::Role(_) => None,
        What::Parts => None,
        What::Lean(_) => None,
    }
}
