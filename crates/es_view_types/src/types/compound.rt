//! Types that hold types.

ghost use Rattle.std.specs.Prelude.{◌≡◌, ℕ, List, IfSome, IfNone};
ghost use Rattle.base.specs.declared.range.Range.{Range};
ghost use Rattle.es_token.specs.declared.token.Token.{Token as Tok};
ghost use Rattle.es_lowering.specs.Types.{parenthesized_type, members_type, tuple_type, mapped_type, array_types, type_operator, infer_type, union_type, leading_union_type, intersection_type, leading_intersection_type, conditional_type};
ghost use Rattle.es_lowering.specs.Texts.{span_of};
ghost use Rattle.es_syntax.specs.Held.{held, valued};
ghost use Rattle.es_syntax.specs.Roles.{ts_type_in};
ghost use Rattle.es_syntax.specs.Views.{IsNone};
ghost use Rattle.es_view_types.specs.types.Compound.{compound_types, the_compound, IsBelow};

use es_grammar::NodeKind;
use es_syntax::{Item, Siblings, What};

/// A type, with its parts as cursors. Numbers are those of tokens.
#[derive(Clone, Copy)]
pub enum CompoundType<'a> {
    /// `a | b | c`: the first two, and turns of the others.
    Union {
        first: Item<'a>,
        second: Item<'a>,
        others: Siblings<'a>,
    },
    /// `| a | b`: the first, and turns of the others.
    LeadingUnion {
        first: Item<'a>,
        others: Siblings<'a>,
    },
    /// `a & b & c`: the first two, and turns of the others.
    Intersection {
        first: Item<'a>,
        second: Item<'a>,
        others: Siblings<'a>,
    },
    /// `& a & b`: the first, and turns of the others.
    LeadingIntersection {
        first: Item<'a>,
        others: Siblings<'a>,
    },
    /// `keyof a`
    Operator {
        word: u32,
        ty: Item<'a>,
    },
    /// `infer a`
    Infer(u32),
    /// `a[][b]`: a type, what is in the first brackets or none, and turns of the others.
    Array {
        ty: Item<'a>,
        first: Siblings<'a>,
        others: Siblings<'a>,
    },
    /// `a extends b ? c : d`
    Conditional {
        check: Item<'a>,
        extends: Item<'a>,
        cons: Item<'a>,
        alt: Item<'a>,
    },
    /// `(a)`
    Paren(Item<'a>),
    /// `{ a: b }`: its members as turns.
    Members(Siblings<'a>),
    /// `[a, b]`: its elements as turns.
    Tuple(Siblings<'a>),
    /// `{ readonly [a in b as c]?: d }`: each part but the name and what it ranges over may be absent.
    Mapped {
        readonly: Siblings<'a>,
        name: u32,
        constraint: Item<'a>,
        name_type: Siblings<'a>,
        mark: Siblings<'a>,
        ty: Siblings<'a>,
    },
    /// A part is not there.
    Broken,
}

/// `a | b | c`: the first two, and turns of the others.
#[tactic(auto, unfolding(es_lowering::specs::Types::union_type, crate::specs::types::Compound::union))]
fn union<'a>(parts: &Siblings<'a>) -> CompoundType<'a>
    ensures form { (x : List ℕ) (ts : List Tok) (r : Range) → union_type r (held x ts parts.now.entries.now) ≡ the_compound x ts r result }
    ensures below { IsBelow parts.now result }
{
    match parts.part(0) {
        Some(first) => match parts.part(1) {
            Some(second) => CompoundType::Union {
                first,
                second,
                others: parts.group_at(2),
            },
            None => CompoundType::Broken,
        },
        None => CompoundType::Broken,
    }
}

/// `| a | b`: the first, and turns of the others.
#[tactic(auto, unfolding(es_lowering::specs::Types::leading_union_type, crate::specs::types::Compound::leading_union))]
fn leading_union<'a>(parts: &Siblings<'a>) -> CompoundType<'a>
    ensures form { (x : List ℕ) (ts : List Tok) (r : Range) → leading_union_type r (held x ts parts.now.entries.now) ≡ the_compound x ts r result }
    ensures below { IsBelow parts.now result }
{
    match parts.part(0) {
        Some(first) => CompoundType::LeadingUnion {
            first,
            others: parts.group_at(1),
        },
        None => CompoundType::Broken,
    }
}

/// `a & b & c`: the first two, and turns of the others.
#[tactic(auto, unfolding(es_lowering::specs::Types::intersection_type, crate::specs::types::Compound::intersection))]
fn intersection<'a>(parts: &Siblings<'a>) -> CompoundType<'a>
    ensures form { (x : List ℕ) (ts : List Tok) (r : Range) → intersection_type r (held x ts parts.now.entries.now) ≡ the_compound x ts r result }
    ensures below { IsBelow parts.now result }
{
    match parts.part(0) {
        Some(first) => match parts.part(1) {
            Some(second) => CompoundType::Intersection {
                first,
                second,
                others: parts.group_at(2),
            },
            None => CompoundType::Broken,
        },
        None => CompoundType::Broken,
    }
}

/// `& a & b`: the first, and turns of the others.
#[tactic(auto, unfolding(es_lowering::specs::Types::leading_intersection_type, crate::specs::types::Compound::leading_intersection))]
fn leading_intersection<'a>(parts: &Siblings<'a>) -> CompoundType<'a>
    ensures form { (x : List ℕ) (ts : List Tok) (r : Range) → leading_intersection_type r (held x ts parts.now.entries.now) ≡ the_compound x ts r result }
    ensures below { IsBelow parts.now result }
{
    match parts.part(0) {
        Some(first) => CompoundType::LeadingIntersection {
            first,
            others: parts.group_at(1),
        },
        None => CompoundType::Broken,
    }
}

/// `keyof a`
#[tactic(auto, unfolding(es_lowering::specs::Types::type_operator, crate::specs::types::Compound::operator))]
fn operator<'a>(parts: &Siblings<'a>) -> CompoundType<'a>
    ensures form { (x : List ℕ) (ts : List Tok) (r : Range) → type_operator ts r (held x ts parts.now.entries.now) ≡ the_compound x ts r result }
    ensures below { IsBelow parts.now result }
{
    match parts.token_at(0) {
        Some(word) => match parts.part(1) {
            Some(ty) => CompoundType::Operator { word, ty },
            None => CompoundType::Broken,
        },
        None => CompoundType::Broken,
    }
}

/// `infer a`
#[tactic(auto, unfolding(es_lowering::specs::Types::infer_type, crate::specs::types::Compound::infer))]
fn infer<'a>(parts: &Siblings<'a>) -> CompoundType<'a>
    ensures form { (x : List ℕ) (ts : List Tok) (r : Range) → infer_type x ts r (held x ts parts.now.entries.now) ≡ the_compound x ts r result }
    ensures below { IsBelow parts.now result }
{
    match parts.token_at(0) {
        Some(name) => CompoundType::Infer(name),
        None => CompoundType::Broken,
    }
}

/// `a[][b]`: a type, what is in the first brackets or none, and turns of the others.
#[tactic(auto, unfolding(es_lowering::specs::Types::array_types, crate::specs::types::Compound::array))]
fn array<'a>(parts: &Siblings<'a>) -> CompoundType<'a>
    ensures form { (x : List ℕ) (ts : List Tok) (r : Range) → array_types ts r (held x ts parts.now.entries.now) ≡ the_compound x ts r result }
    ensures below { IsBelow parts.now result }
{
    match parts.part(0) {
        Some(ty) => CompoundType::Array {
            ty,
            first: parts.group_at(1),
            others: parts.group_at(2),
        },
        None => CompoundType::Broken,
    }
}

/// `a extends b ? c : d`
#[tactic(auto, unfolding(es_lowering::specs::Types::conditional_type, crate::specs::types::Compound::conditional))]
fn conditional<'a>(parts: &Siblings<'a>) -> CompoundType<'a>
    ensures form { (x : List ℕ) (ts : List Tok) (r : Range) → conditional_type r (held x ts parts.now.entries.now) ≡ the_compound x ts r result }
    ensures below { IsBelow parts.now result }
{
    match parts.part(0) {
        Some(check) => match parts.part(1) {
            Some(extends) => match parts.part(2) {
                Some(cons) => match parts.part(3) {
                    Some(alt) => CompoundType::Conditional {
                        check,
                        extends,
                        cons,
                        alt,
                    },
                    None => CompoundType::Broken,
                },
                None => CompoundType::Broken,
            },
            None => CompoundType::Broken,
        },
        None => CompoundType::Broken,
    }
}

/// `(a)`
#[tactic(auto, unfolding(es_lowering::specs::Types::parenthesized_type, crate::specs::types::Compound::paren))]
fn parenthesized<'a>(parts: &Siblings<'a>) -> CompoundType<'a>
    ensures form { (x : List ℕ) (ts : List Tok) (r : Range) → parenthesized_type r (held x ts parts.now.entries.now) ≡ the_compound x ts r result }
    ensures below { IsBelow parts.now result }
{
    match parts.part(0) {
        Some(ty) => CompoundType::Paren(ty),
        None => CompoundType::Broken,
    }
}

/// `{ a: b }`: its members as turns.
#[tactic(auto, unfolding(es_lowering::specs::Types::members_type, crate::specs::types::Compound::braced))]
fn members<'a>(parts: &Siblings<'a>) -> CompoundType<'a>
    ensures form { (x : List ℕ) (ts : List Tok) (r : Range) → members_type r (held x ts parts.now.entries.now) ≡ the_compound x ts r result }
    ensures below { IsBelow parts.now result }
{
    CompoundType::Members(parts.group_at(0))
}

/// `[a, b]`: its elements as turns.
#[tactic(auto, unfolding(es_lowering::specs::Types::tuple_type, crate::specs::types::Compound::tuple))]
fn tuple<'a>(parts: &Siblings<'a>) -> CompoundType<'a>
    ensures form { (x : List ℕ) (ts : List Tok) (r : Range) → tuple_type r (held x ts parts.now.entries.now) ≡ the_compound x ts r result }
    ensures below { IsBelow parts.now result }
{
    CompoundType::Tuple(parts.group_at(0))
}

/// `{ readonly [a in b as c]?: d }`: each part but the name and what it ranges over may be absent.
#[tactic(auto, unfolding(es_lowering::specs::Types::mapped_type, crate::specs::types::Compound::mapped))]
fn mapped<'a>(parts: &Siblings<'a>) -> CompoundType<'a>
    ensures form { (x : List ℕ) (ts : List Tok) (r : Range) → mapped_type x ts r (held x ts parts.now.entries.now) ≡ the_compound x ts r result }
    ensures below { IsBelow parts.now result }
{
    match parts.token_at(1) {
        Some(name) => match parts.part(2) {
            Some(constraint) => CompoundType::Mapped {
                readonly: parts.group_at(0),
                name,
                constraint,
                name_type: parts.group_at(3),
                mark: parts.group_at(4),
                ty: parts.group_at(5),
            },
            None => CompoundType::Broken,
        },
        None => CompoundType::Broken,
    }
}

/// What a node is as a type that holds types; none where it is of another alternative.
#[tactic(auto, unfolding(es_lowering::specs::Lowering::build, es_lowering::specs::Lowering::type_of))]
pub fn compound_at<'a>(node: &Item<'a>) -> Option<CompoundType<'a>>
    ensures form { (x : List ℕ) (ts : List Tok) → IfSome result (λ view. ts_type_in (valued x ts node.now) ≡ the_compound x ts (span_of ts node.now.from node.now.to) view) }
    ensures other { IfNone result (IsNone compound_types node.now.what) }
    ensures below { IfSome result (λ view. IsBelow node.now.parts view) }
{
    match node.what {
        What::Node(label) => match label {
            NodeKind::UnionType => Some(union(&node.parts)),
            NodeKind::LeadingUnionType => Some(leading_union(&node.parts)),
            NodeKind::IntersectionType => Some(intersection(&node.parts)),
            NodeKind::LeadingIntersectionType => Some(leading_intersection(&node.parts)),
            NodeKind::TypeOperator => Some(operator(&node.parts)),
            NodeKind::InferType => Some(infer(&node.parts)),
            NodeKind::ArrayTypes => Some(array(&node.parts)),
            NodeKind::ConditionalType => Some(conditional(&node.parts)),
            NodeKind::ParenthesizedType => Some(parenthesized(&node.parts)),
            NodeKind::MembersType => Some(members(&node.parts)),
            NodeKind::TupleType => Some(tuple(&node.parts)),
            NodeKind::MappedType => Some(mapped(&node.parts)),
            _ => None,
        },
        What::Leaf => None,
        What::Role(_) => None,
        What::Parts => None,
        What::Lean(_) => None,
    }
}
