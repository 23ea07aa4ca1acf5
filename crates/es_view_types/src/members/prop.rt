//! Properties of patterns of parameters of types.

ghost use Rattle.std.specs.Prelude.{◌≡◌, ℕ, List, IfSome, IfNone};
ghost use Rattle.base.specs.declared.range.Range.{Range};
ghost use Rattle.es_token.specs.declared.token.Token.{Token as Tok};
ghost use Rattle.es_lowering.specs.TypePatterns.{rest_property, key_property, name_property};
ghost use Rattle.es_lowering.specs.Texts.{span_of};
ghost use Rattle.es_syntax.specs.Held.{held, valued};
ghost use Rattle.es_syntax.specs.Roles.{type_prop_in};
ghost use Rattle.es_syntax.specs.Views.{IsNone};
ghost use Rattle.es_view_types.specs.members.Prop.{props, the_prop, IsBelow};

use es_grammar::NodeKind;
use es_syntax::{Item, Siblings, What};

/// A property, with its parts as cursors. Numbers are those of tokens.
#[derive(Clone, Copy)]
pub enum TypeProp<'a> {
    /// `...a`
    Rest(Item<'a>),
    /// `a: b`
    KeyValue { key: Item<'a>, value: Item<'a> },
    /// `a`
    Shorthand(u32),
    /// A part is not there.
    Broken,
}

/// `...a`
#[tactic(auto, unfolding(es_lowering::specs::TypePatterns::rest_property, crate::specs::members::Prop::rest))]
fn rest<'a>(parts: &Siblings<'a>) -> TypeProp<'a>
    ensures form { (x : List ℕ) (ts : List Tok) (r : Range) → rest_property r (held x ts parts.now.entries.now) ≡ the_prop x ts r result }
    ensures below { IsBelow parts.now result }
{
    match parts.part(0) {
        Some(arg) => TypeProp::Rest(arg),
        None => TypeProp::Broken,
    }
}

/// `a: b`
#[tactic(auto, unfolding(es_lowering::specs::TypePatterns::key_property, crate::specs::members::Prop::key_value))]
fn key_value<'a>(parts: &Siblings<'a>) -> TypeProp<'a>
    ensures form { (x : List ℕ) (ts : List Tok) (r : Range) → key_property r (held x ts parts.now.entries.now) ≡ the_prop x ts r result }
    ensures below { IsBelow parts.now result }
{
    match parts.part(0) {
        Some(key) => match parts.part(1) {
            Some(value) => TypeProp::KeyValue { key, value },
            None => TypeProp::Broken,
        },
        None => TypeProp::Broken,
    }
}

/// `a`
#[tactic(auto, unfolding(es_lowering::specs::TypePatterns::name_property, crate::specs::members::Prop::shorthand))]
fn shorthand<'a>(parts: &Siblings<'a>) -> TypeProp<'a>
    ensures form { (x : List ℕ) (ts : List Tok) (r : Range) → name_property x ts (held x ts parts.now.entries.now) ≡ the_prop x ts r result }
    ensures below { IsBelow parts.now result }
{
    match parts.token_at(0) {
        Some(name) => TypeProp::Shorthand(name),
        None => TypeProp::Broken,
    }
}

/// What a node is as a property of a pattern of a parameter of a type; none where it is of another alternative.
#[tactic(auto, unfolding(es_lowering::specs::Lowering::build, es_lowering::specs::Lowering::type_prop_of))]
pub fn prop_at<'a>(node: &Item<'a>) -> Option<TypeProp<'a>>
    ensures form { (x : List ℕ) (ts : List Tok) → IfSome result (λ view. type_prop_in (valued x ts node.now) ≡ the_prop x ts (span_of ts node.now.from node.now.to) view) }
    ensures other { IfNone result (IsNone props node.now.what) }
    ensures below { IfSome result (λ view. IsBelow node.now.parts view) }
{
    match node.what {
        What::Node(label) => match label {
            NodeKind::RestPropertyOfType => Some(rest(&node.parts)),
            NodeKind::KeyProperty => Some(key_value(&node.parts)),
            NodeKind::NamePropertyOfType => Some(shorthand(&node.parts)),
            _ => None,
        },
        What::Leaf => None,
        What::Role(_) => None,
        What::Parts => None,
        What::Lean(_) => None,
    }
}
