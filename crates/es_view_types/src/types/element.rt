//! Elements of tuples.

ghost use Rattle.std.specs.Prelude.{◌≡◌, ℕ, List, IfSome, IfNone};
ghost use Rattle.base.specs.declared.range.Range.{Range};
ghost use Rattle.es_token.specs.declared.token.Token.{Token as Tok};
ghost use Rattle.es_lowering.specs.Types.{rest_element, labelled_element, optional_element};
ghost use Rattle.es_lowering.specs.Texts.{span_of};
ghost use Rattle.es_syntax.specs.Held.{held, valued};
ghost use Rattle.es_syntax.specs.Roles.{element_in};
ghost use Rattle.es_syntax.specs.Views.{IsNone};
ghost use Rattle.es_view_types.specs.types.Element.{elements, the_element, IsBelow};

use es_grammar::NodeKind;
use es_syntax::{Item, Siblings, What};

/// An element of a tuple, with its parts as cursors. Numbers are those of tokens.
#[derive(Clone, Copy)]
pub enum Element<'a> {
    /// `...a: b`: the label may be absent.
    Rest {
        label: Siblings<'a>,
        ty: Item<'a>,
        mark: bool,
    },
    /// `a?: b`: whether a mark is after the label, and after the type.
    Labelled {
        label: u32,
        label_mark: bool,
        ty: Item<'a>,
        mark: bool,
    },
    /// `a?`
    Optional(Item<'a>),
    /// A type alone: the node itself.
    Type(Item<'a>),
    /// A part is not there.
    Broken,
}

/// `...a: b`: the label may be absent.
#[tactic(auto, unfolding(es_lowering::specs::Types::rest_element, crate::specs::types::Element::rest))]
fn rest<'a>(parts: &Siblings<'a>) -> Element<'a>
    ensures form { (x : List ℕ) (ts : List Tok) (r : Range) → rest_element x ts r (held x ts parts.now.entries.now) ≡ the_element x ts r result }
    ensures below { IsBelow parts.now result }
{
    match parts.part(1) {
        Some(ty) => Element::Rest {
            label: parts.group_at(0),
            ty,
            mark: parts.has(2),
        },
        None => Element::Broken,
    }
}

/// `a?: b`: whether a mark is after the label, and after the type.
#[tactic(auto, unfolding(es_lowering::specs::Types::labelled_element, crate::specs::types::Element::labelled))]
fn labelled<'a>(parts: &Siblings<'a>) -> Element<'a>
    ensures form { (x : List ℕ) (ts : List Tok) (r : Range) → labelled_element x ts r (held x ts parts.now.entries.now) ≡ the_element x ts r result }
    ensures below { IsBelow parts.now result }
{
    match parts.token_at(0) {
        Some(label) => match parts.part(2) {
            Some(ty) => Element::Labelled {
                label,
                label_mark: parts.has(1),
                ty,
                mark: parts.has(3),
            },
            None => Element::Broken,
        },
        None => Element::Broken,
    }
}

/// `a?`
#[tactic(auto, unfolding(es_lowering::specs::Types::optional_element, crate::specs::types::Element::optional_of))]
fn optional<'a>(parts: &Siblings<'a>) -> Element<'a>
    ensures form { (x : List ℕ) (ts : List Tok) (r : Range) → optional_element r (held x ts parts.now.entries.now) ≡ the_element x ts r result }
    ensures below { IsBelow parts.now result }
{
    match parts.part(0) {
        Some(ty) => Element::Optional(ty),
        None => Element::Broken,
    }
}

/// What a node is as an element of a tuple; none where it is of another alternative.
#[tactic(auto, unfolding(es_lowering::specs::Lowering::build, es_lowering::specs::Lowering::element_of, es_lowering::specs::Lowering::type_of))]
pub fn element_at<'a>(node: &Item<'a>) -> Option<Element<'a>>
    ensures form { (x : List ℕ) (ts : List Tok) → IfSome result (λ view. element_in (valued x ts node.now) ≡ the_element x ts (span_of ts node.now.from node.now.to) view) }
    ensures other { IfNone result (IsNone elements node.now.what) }
    ensures below { IfSome result (λ view. IsBelow node.now.parts view) }
{
    match node.what {
        What::Node(label) => match label {
            NodeKind::RestElement => Some(rest(&node.parts)),
            NodeKind::LabelledElement => Some(labelled(&node.parts)),
            NodeKind::OptionalElement => Some(optional(&node.parts)),
            NodeKind::KeywordType => Some(Element::Type(*node)),
            NodeKind::ThisType => Some(Element::Type(*node)),
            NodeKind::WordType => Some(Element::Type(*node)),
            NodeKind::StrType => Some(Element::Type(*node)),
            NodeKind::NumberType => Some(Element::Type(*node)),
            NodeKind::TemplateType => Some(Element::Type(*node)),
            NodeKind::TemplateTypes => Some(Element::Type(*node)),
            NodeKind::TypeQuery => Some(Element::Type(*node)),
            NodeKind::Reference => Some(Element::Type(*node)),
            NodeKind::ImportType => Some(Element::Type(*node)),
            NodeKind::EntityOfType => Some(Element::Type(*node)),
            NodeKind::UnionType => Some(Element::Type(*node)),
            NodeKind::LeadingUnionType => Some(Element::Type(*node)),
            NodeKind::IntersectionType => Some(Element::Type(*node)),
            NodeKind::LeadingIntersectionType => Some(Element::Type(*node)),
            NodeKind::TypeOperator => Some(Element::Type(*node)),
            NodeKind::InferType => Some(Element::Type(*node)),
            NodeKind::ArrayTypes => Some(Element::Type(*node)),
            NodeKind::ConditionalType => Some(Element::Type(*node)),
            NodeKind::ParenthesizedType => Some(Element::Type(*node)),
            NodeKind::MembersType => Some(Element::Type(*node)),
            NodeKind::TupleType => Some(Element::Type(*node)),
            NodeKind::MappedType => Some(Element::Type(*node)),
            NodeKind::FunctionType => Some(Element::Type(*node)),
            NodeKind::ConstructorType => Some(Element::Type(*node)),
            NodeKind::AssertsResult => Some(Element::Type(*node)),
            NodeKind::PredicateResult => Some(Element::Type(*node)),
            _ => None,
        },
        What::Leaf => None,
        What::Role(_) => None,
        What::Parts => None,
        What::Lean(_) => None,
    }
}
