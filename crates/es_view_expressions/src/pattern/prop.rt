//! Properties of object patterns.

ghost use Rattle.std.specs.Prelude.{◌≡◌, ℕ, List, IfSome, IfNone};
ghost use Rattle.base.specs.declared.range.Range.{Range};
ghost use Rattle.es_token.specs.declared.token.Token.{Token as Tok};
ghost use Rattle.es_lowering.specs.Patterns.{rest_property, key_pattern, name_property};
ghost use Rattle.es_lowering.specs.Texts.{span_of};
ghost use Rattle.es_syntax.specs.Held.{held, valued};
ghost use Rattle.es_syntax.specs.Roles.{pat_prop_in};
ghost use Rattle.es_syntax.specs.Views.{IsNone};
ghost use Rattle.es_view_expressions.specs.pattern.PatProp.{pattern_props, the_pat_prop, IsBelow};

use es_grammar::NodeKind;
use es_syntax::{Item, Siblings, What};

/// A property of an object pattern, with its parts in place. Numbers are those of tokens.
#[derive(Clone, Copy)]
pub enum PatProp<'a> {
    /// `...a`
    Rest(Item<'a>),
    /// `a: b = c`: the default may be absent.
    KeyValue {
        key: Item<'a>,
        pat: Item<'a>,
        value: Siblings<'a>,
    },
    /// `a = b`: the default may be absent.
    Shorthand {
        name: u32,
        value: Siblings<'a>,
    },
    /// A part is not there.
    Broken,
}

/// `...a`
#[tactic(auto, unfolding(es_lowering::specs::Patterns::rest_property, crate::specs::pattern::PatProp::rest))]
fn rest<'a>(parts: &Siblings<'a>) -> PatProp<'a>
    ensures form { (x : List ℕ) (ts : List Tok) (r : Range) → rest_property r (held x ts parts.now.entries.now) ≡ the_pat_prop x ts r result }
    ensures below { IsBelow parts.now result }
{
    match parts.part(0) {
        Some(arg) => PatProp::Rest(arg),
        None => PatProp::Broken,
    }
}

/// `a: b = c`: the default may be absent.
#[tactic(auto, unfolding(es_lowering::specs::Patterns::key_pattern, crate::specs::pattern::PatProp::key_value))]
fn key_pattern<'a>(parts: &Siblings<'a>) -> PatProp<'a>
    ensures form { (x : List ℕ) (ts : List Tok) (r : Range) → key_pattern ts r (held x ts parts.now.entries.now) ≡ the_pat_prop x ts r result }
    ensures below { IsBelow parts.now result }
{
    match parts.part(0) {
        Some(key) => match parts.part(1) {
            Some(pat) => PatProp::KeyValue {
                key,
                pat,
                value: parts.group_at(2),
            },
            None => PatProp::Broken,
        },
        None => PatProp::Broken,
    }
}

/// `a = b`: the default may be absent.
#[tactic(auto, unfolding(es_lowering::specs::Patterns::name_property, crate::specs::pattern::PatProp::shorthand))]
fn name_property<'a>(parts: &Siblings<'a>) -> PatProp<'a>
    ensures form { (x : List ℕ) (ts : List Tok) (r : Range) → name_property x ts r (held x ts parts.now.entries.now) ≡ the_pat_prop x ts r result }
    ensures below { IsBelow parts.now result }
{
    match parts.token_at(0) {
        Some(name) => PatProp::Shorthand {
            name,
            value: parts.group_at(1),
        },
        None => PatProp::Broken,
    }
}

/// What a node is as a property of an object pattern; none where it is of another alternative.
#[tactic(auto, unfolding(es_lowering::specs::Lowering::build, es_lowering::specs::Lowering::pat_prop_of))]
pub fn pat_prop_at<'a>(node: &Item<'a>) -> Option<PatProp<'a>>
    ensures form { (x : List ℕ) (ts : List Tok) → IfSome result (λ view. pat_prop_in (valued x ts node.now) ≡ the_pat_prop x ts (span_of ts node.now.from node.now.to) view) }
    ensures other { IfNone result (IsNone pattern_props node.now.what) }
    ensures below { IfSome result (λ view. IsBelow node.now.parts view) }
{
    match node.what {
        What::Node(label) => match label {
            NodeKind::RestProperty => Some(rest(&node.parts)),
            NodeKind::KeyPattern => Some(key_pattern(&node.parts)),
            NodeKind::NameProperty => Some(name_property(&node.parts)),
            _ => None,
        },
        What::Leaf => None,
        What::Role(_) => None,
        What::Parts => None,
        What::Lean(_) => None,
    }
}
