//! Patterns of parameters of types.

ghost use Rattle.std.specs.Prelude.{◌≡◌, ℕ, List, IfSome, IfNone};
ghost use Rattle.base.specs.declared.range.Range.{Range};
ghost use Rattle.es_token.specs.declared.token.Token.{Token as Tok};
ghost use Rattle.es_lowering.specs.TypePatterns.{name_pattern, array_pattern, object_pattern, rest_pattern};
ghost use Rattle.es_lowering.specs.Texts.{span_of};
ghost use Rattle.es_syntax.specs.Held.{held, valued};
ghost use Rattle.es_syntax.specs.Roles.{type_pat_in};
ghost use Rattle.es_syntax.specs.Views.{IsNone};
ghost use Rattle.es_view_types.specs.members.Pat.{patterns, the_pat, IsBelow};

use es_grammar::NodeKind;
use es_syntax::{Item, Siblings, What};

/// A pattern, with its parts as cursors. Numbers are those of tokens.
#[derive(Clone, Copy)]
pub enum TypePat<'a> {
    /// `a`
    Ident(u32),
    /// `[a, , b]`: its first token, and its elements as turns.
    Array { from: u32, elems: Siblings<'a> },
    /// `{ a: b }`: its properties as turns.
    Object(Siblings<'a>),
    /// `...a`
    Rest(Item<'a>),
    /// A part is not there.
    Broken,
}

/// `a`
#[tactic(auto, unfolding(es_lowering::specs::TypePatterns::name_pattern, crate::specs::members::Pat::ident))]
fn name<'a>(parts: &Siblings<'a>) -> TypePat<'a>
    ensures form { (x : List ℕ) (ts : List Tok) (r : Range) → name_pattern x ts (held x ts parts.now.entries.now) ≡ the_pat x ts r result }
    ensures below { IsBelow parts.now result }
{
    match parts.token_at(0) {
        Some(token) => TypePat::Ident(token),
        None => TypePat::Broken,
    }
}

/// `[a, , b]`: its first token, and its elements as turns.
#[tactic(auto, unfolding(es_lowering::specs::TypePatterns::array_pattern, crate::specs::members::Pat::array))]
fn array<'a>(from: u32, parts: &Siblings<'a>) -> TypePat<'a>
    ensures form { (x : List ℕ) (ts : List Tok) (r : Range) → array_pattern ts from r (held x ts parts.now.entries.now) ≡ the_pat x ts r result }
    ensures below { IsBelow parts.now result }
{
    TypePat::Array {
        from,
        elems: parts.group_at(0),
    }
}

/// `{ a: b }`: its properties as turns.
#[tactic(auto, unfolding(es_lowering::specs::TypePatterns::object_pattern, crate::specs::members::Pat::object))]
fn object<'a>(parts: &Siblings<'a>) -> TypePat<'a>
    ensures form { (x : List ℕ) (ts : List Tok) (r : Range) → object_pattern r (held x ts parts.now.entries.now) ≡ the_pat x ts r result }
    ensures below { IsBelow parts.now result }
{
    TypePat::Object(parts.group_at(0))
}

/// `...a`
#[tactic(auto, unfolding(es_lowering::specs::TypePatterns::rest_pattern, crate::specs::members::Pat::rest))]
fn rest<'a>(parts: &Siblings<'a>) -> TypePat<'a>
    ensures form { (x : List ℕ) (ts : List Tok) (r : Range) → rest_pattern r (held x ts parts.now.entries.now) ≡ the_pat x ts r result }
    ensures below { IsBelow parts.now result }
{
    match parts.part(0) {
        Some(arg) => TypePat::Rest(arg),
        None => TypePat::Broken,
    }
}

/// What a node is as a pattern of a parameter of a type; none where it is of another alternative.
#[tactic(auto, unfolding(es_lowering::specs::Lowering::build, es_lowering::specs::Lowering::type_pat_of))]
pub fn pat_at<'a>(node: &Item<'a>) -> Option<TypePat<'a>>
    ensures form { (x : List ℕ) (ts : List Tok) → IfSome result (λ view. type_pat_in (valued x ts node.now) ≡ the_pat x ts (span_of ts node.now.from node.now.to) view) }
    ensures other { IfNone result (IsNone patterns node.now.what) }
    ensures below { IfSome result (λ view. IsBelow node.now.parts view) }
{
    match node.what {
        What::Node(label) => match label {
            NodeKind::NamePatternOfType => Some(name(&node.parts)),
            NodeKind::ArrayPatternOfType => Some(array(node.from, &node.parts)),
            NodeKind::ObjectPatternOfType => Some(object(&node.parts)),
            NodeKind::RestPatternOfType => Some(rest(&node.parts)),
            _ => None,
        },
        What::Leaf => None,
        What::Role(_) => None,
        What::Parts => None,
        What::Lean(_) => None,
    }
}
