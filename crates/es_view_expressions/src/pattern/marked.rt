//! Patterns that may be followed by `?` or a type.

ghost use Rattle.std.specs.Prelude.{◌≡◌, ℕ, List, IfSome, IfNone};
ghost use Rattle.es_token.specs.declared.token.Token.{Token as Tok};
ghost use Rattle.es_lowering.specs.TypedParts.{marked_name, marked_array, marked_object};
ghost use Rattle.es_syntax.specs.Held.{held, valued};
ghost use Rattle.es_syntax.specs.Roles.{marked_in};
ghost use Rattle.es_syntax.specs.Views.{IsNone};
ghost use Rattle.es_view_expressions.specs.pattern.Marked.{marked_patterns, the_marked, IsBelow};

use es_grammar::NodeKind;
use es_syntax::{Item, Siblings, What};

/// A pattern, with its parts in place. Numbers are those of tokens.
#[derive(Clone, Copy)]
pub enum Marked<'a> {
    /// `a`
    Ident(u32),
    /// `[a, , b]`: its first token, and its elements as turns.
    Array { from: u32, elems: Siblings<'a> },
    /// `{ a: b }`: its properties as turns.
    Object(Siblings<'a>),
    /// A part is not there.
    Broken,
}

/// `a`
#[tactic(auto, unfolding(es_lowering::specs::TypedParts::marked_name, crate::specs::pattern::Marked::ident))]
fn name<'a>(parts: &Siblings<'a>) -> Marked<'a>
    ensures form { (x : List ℕ) (ts : List Tok) → marked_name x ts (held x ts parts.now.entries.now) ≡ the_marked x ts result }
    ensures below { IsBelow parts.now result }
{
    match parts.token_at(0) {
        Some(token) => Marked::Ident(token),
        None => Marked::Broken,
    }
}

/// `[a, , b]`: its first token, and its elements as turns.
#[tactic(auto, unfolding(es_lowering::specs::TypedParts::marked_array, crate::specs::pattern::Marked::array))]
fn array<'a>(from: u32, parts: &Siblings<'a>) -> Marked<'a>
    ensures form { (x : List ℕ) (ts : List Tok) → marked_array ts from (held x ts parts.now.entries.now) ≡ the_marked x ts result }
    ensures below { IsBelow parts.now result }
{
    Marked::Array {
        from,
        elems: parts.group_at(0),
    }
}

/// `{ a: b }`: its properties as turns.
#[tactic(auto, unfolding(es_lowering::specs::TypedParts::marked_object, crate::specs::pattern::Marked::object))]
fn object<'a>(parts: &Siblings<'a>) -> Marked<'a>
    ensures form { (x : List ℕ) (ts : List Tok) → marked_object (held x ts parts.now.entries.now) ≡ the_marked x ts result }
    ensures below { IsBelow parts.now result }
{
    Marked::Object(parts.group_at(0))
}

/// What a node is as a pattern that may be followed by `?` or a type; none where it is of another alternative.
#[tactic(auto, unfolding(es_lowering::specs::Lowering::build, es_lowering::specs::Lowering::marked_of))]
pub fn marked_at<'a>(node: &Item<'a>) -> Option<Marked<'a>>
    ensures form { (x : List ℕ) (ts : List Tok) → IfSome result (λ view. marked_in (valued x ts node.now) ≡ the_marked x ts view) }
    ensures other { IfNone result (IsNone marked_patterns node.now.what) }
    ensures below { IfSome result (λ view. IsBelow node.now.parts view) }
{
    match node.what {
        What::Node(label) => match label {
            NodeKind::NamePattern => Some(name(&node.parts)),
            NodeKind::ArrayPattern => Some(array(node.from, &node.parts)),
            NodeKind::ObjectPattern => Some(object(&node.parts)),
            _ => None,
        },
        What::Leaf => None,
        What::Role(_) => None,
        What::Parts => None,
        What::Lean(_) => None,
    }
}
