//! Patterns.

ghost use Rattle.std.specs.Prelude.{◌≡◌, ℕ, List, IfSome, IfNone};
ghost use Rattle.base.specs.declared.range.Range.{Range};
ghost use Rattle.es_token.specs.declared.token.Token.{Token as Tok};
ghost use Rattle.es_lowering.specs.Patterns.{name_pattern, array_pattern, object_pattern, rest_pattern, default_pattern};
ghost use Rattle.es_lowering.specs.Value.{part};
ghost use Rattle.es_lowering.specs.Lowering.{as_target};
ghost use Rattle.es_lowering.specs.Texts.{span_of};
ghost use Rattle.es_syntax.specs.Held.{held, valued};
ghost use Rattle.es_syntax.specs.Roles.{pat_in};
ghost use Rattle.es_syntax.specs.Views.{IsNone};
ghost use Rattle.es_view_expressions.specs.pattern.Pat.{patterns, the_pat, IsBelow};

use es_grammar::NodeKind;
use es_syntax::{Item, Siblings, What};

/// A pattern, with its parts in place. Numbers are those of tokens.
#[derive(Clone, Copy)]
pub enum Pat<'a> {
    /// `a`
    Ident(u32),
    /// `[a, , b]`: its first token, and its elements as turns.
    Array { from: u32, elems: Siblings<'a> },
    /// `{ a: b }`: its properties as turns.
    Object(Siblings<'a>),
    /// `...a`
    Rest(Item<'a>),
    /// `a = b`
    Default { left: Item<'a>, right: Item<'a> },
    /// An expression that is assigned to.
    Target(Item<'a>),
    /// A part is not there.
    Broken,
}

/// `a`
#[tactic(auto, unfolding(es_lowering::specs::Patterns::name_pattern, crate::specs::pattern::Pat::ident))]
fn name<'a>(parts: &Siblings<'a>) -> Pat<'a>
    ensures form { (x : List ℕ) (ts : List Tok) (r : Range) → name_pattern x ts (held x ts parts.now.entries.now) ≡ the_pat x ts r result }
    ensures below { IsBelow parts.now result }
{
    match parts.token_at(0) {
        Some(token) => Pat::Ident(token),
        None => Pat::Broken,
    }
}

/// `[a, , b]`: its first token, and its elements as turns.
#[tactic(auto, unfolding(es_lowering::specs::Patterns::array_pattern, crate::specs::pattern::Pat::array))]
fn array<'a>(from: u32, parts: &Siblings<'a>) -> Pat<'a>
    ensures form { (x : List ℕ) (ts : List Tok) (r : Range) → array_pattern ts from r (held x ts parts.now.entries.now) ≡ the_pat x ts r result }
    ensures below { IsBelow parts.now result }
{
    Pat::Array {
        from,
        elems: parts.group_at(0),
    }
}

/// `{ a: b }`: its properties as turns.
#[tactic(auto, unfolding(es_lowering::specs::Patterns::object_pattern, crate::specs::pattern::Pat::object))]
fn object<'a>(parts: &Siblings<'a>) -> Pat<'a>
    ensures form { (x : List ℕ) (ts : List Tok) (r : Range) → object_pattern r (held x ts parts.now.entries.now) ≡ the_pat x ts r result }
    ensures below { IsBelow parts.now result }
{
    Pat::Object(parts.group_at(0))
}

/// `...a`
#[tactic(auto, unfolding(es_lowering::specs::Patterns::rest_pattern, crate::specs::pattern::Pat::rest))]
fn rest<'a>(parts: &Siblings<'a>) -> Pat<'a>
    ensures form { (x : List ℕ) (ts : List Tok) (r : Range) → rest_pattern r (held x ts parts.now.entries.now) ≡ the_pat x ts r result }
    ensures below { IsBelow parts.now result }
{
    match parts.part(0) {
        Some(arg) => Pat::Rest(arg),
        None => Pat::Broken,
    }
}

/// `a = b`
#[tactic(auto, unfolding(es_lowering::specs::Patterns::default_pattern, crate::specs::pattern::Pat::default))]
fn default<'a>(parts: &Siblings<'a>) -> Pat<'a>
    ensures form { (x : List ℕ) (ts : List Tok) (r : Range) → default_pattern r (held x ts parts.now.entries.now) ≡ the_pat x ts r result }
    ensures below { IsBelow parts.now result }
{
    match parts.part(0) {
        Some(left) => match parts.part(1) {
            Some(right) => Pat::Default { left, right },
            None => Pat::Broken,
        },
        None => Pat::Broken,
    }
}

/// An expression that is assigned to.
#[tactic(auto, using(crate::proofs::pattern_lemmas::Targets::pat_target), unfolding(crate::specs::pattern::Pat::target))]
fn target<'a>(parts: &Siblings<'a>) -> Pat<'a>
    ensures form { (x : List ℕ) (ts : List Tok) (r : Range) → pat_in (as_target x ts (part (held x ts parts.now.entries.now) 0)) ≡ the_pat x ts r result }
    ensures below { IsBelow parts.now result }
{
    match parts.part(0) {
        Some(expr) => Pat::Target(expr),
        None => Pat::Broken,
    }
}

/// What a node is as a pattern, or as a target that is no pattern; none where it is of another alternative.
#[tactic(auto, unfolding(es_lowering::specs::Lowering::build, es_lowering::specs::Lowering::pat_of))]
pub fn pat_at<'a>(node: &Item<'a>) -> Option<Pat<'a>>
    ensures form { (x : List ℕ) (ts : List Tok) → IfSome result (λ view. pat_in (valued x ts node.now) ≡ the_pat x ts (span_of ts node.now.from node.now.to) view) }
    ensures other { IfNone result (IsNone patterns node.now.what) }
    ensures below { IfSome result (λ view. IsBelow node.now.parts view) }
{
    match node.what {
        What::Node(label) => match label {
            NodeKind::NamePattern => Some(name(&node.parts)),
            NodeKind::ArrayPattern => Some(array(node.from, &node.parts)),
            NodeKind::ObjectPattern => Some(object(&node.parts)),
            NodeKind::RestPattern => Some(rest(&node.parts)),
            NodeKind::DefaultPattern => Some(default(&node.parts)),
            _ => None,
        },
        What::Leaf => None,
        What::Role(_) => Some(target(&node.parts)),
        What::Parts => None,
        What::Lean(_) => None,
    }
}
