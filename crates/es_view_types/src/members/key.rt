//! Keys of members and of properties of patterns.

ghost use Rattle.std.specs.Prelude.{◌≡◌, ℕ, List, IfSome, IfNone};
ghost use Rattle.base.specs.declared.range.Range.{Range};
ghost use Rattle.es_token.specs.declared.token.Token.{Token as Tok};
ghost use Rattle.es_lowering.specs.TypeMembers.{computed_key};
ghost use Rattle.es_lowering.specs.TypePatterns.{word_key, str_key, number_key};
ghost use Rattle.es_lowering.specs.Texts.{span_of};
ghost use Rattle.es_syntax.specs.Held.{held, valued};
ghost use Rattle.es_syntax.specs.Roles.{type_key_in};
ghost use Rattle.es_syntax.specs.Views.{IsNone};
ghost use Rattle.es_view_types.specs.members.Key.{keys, the_key, IsBelow};

use es_grammar::NodeKind;
use es_syntax::{Item, Siblings, What};

/// A key. Numbers are those of tokens.
#[derive(Clone, Copy)]
pub enum TypeKey<'a> {
    /// A word.
    Word(u32),
    /// A string literal.
    Str(u32),
    /// A number or a BigInt.
    Number(u32),
    /// In brackets: a literal, or a name.
    Computed(Siblings<'a>),
    /// A part is not there.
    Broken,
}

/// A word.
#[tactic(auto, unfolding(es_lowering::specs::TypePatterns::word_key, crate::specs::members::Key::word))]
fn word<'a>(parts: &Siblings<'a>) -> TypeKey<'a>
    ensures form { (x : List ℕ) (ts : List Tok) (r : Range) → word_key x ts (held x ts parts.now.entries.now) ≡ the_key x ts r result }
    ensures below { IsBelow parts.now result }
{
    match parts.token_at(0) {
        Some(token) => TypeKey::Word(token),
        None => TypeKey::Broken,
    }
}

/// A string literal.
#[tactic(auto, unfolding(es_lowering::specs::TypePatterns::str_key, crate::specs::members::Key::str))]
fn str<'a>(parts: &Siblings<'a>) -> TypeKey<'a>
    ensures form { (x : List ℕ) (ts : List Tok) (r : Range) → str_key x ts (held x ts parts.now.entries.now) ≡ the_key x ts r result }
    ensures below { IsBelow parts.now result }
{
    match parts.token_at(0) {
        Some(token) => TypeKey::Str(token),
        None => TypeKey::Broken,
    }
}

/// A number or a BigInt.
#[tactic(auto, unfolding(es_lowering::specs::TypePatterns::number_key, crate::specs::members::Key::number))]
fn number<'a>(parts: &Siblings<'a>) -> TypeKey<'a>
    ensures form { (x : List ℕ) (ts : List Tok) (r : Range) → number_key x ts (held x ts parts.now.entries.now) ≡ the_key x ts r result }
    ensures below { IsBelow parts.now result }
{
    match parts.token_at(0) {
        Some(token) => TypeKey::Number(token),
        None => TypeKey::Broken,
    }
}

/// In brackets: a literal, or a name.
#[tactic(auto, unfolding(es_lowering::specs::TypeMembers::computed_key, crate::specs::members::Key::computed))]
fn computed<'a>(parts: &Siblings<'a>) -> TypeKey<'a>
    ensures form { (x : List ℕ) (ts : List Tok) (r : Range) → computed_key x ts r (held x ts parts.now.entries.now) ≡ the_key x ts r result }
    ensures below { IsBelow parts.now result }
{
    TypeKey::Computed(parts.group_at(0))
}

/// What a node is as a key of a member of a type; none where it is of another alternative.
#[tactic(auto, unfolding(es_lowering::specs::Lowering::build, es_lowering::specs::Lowering::type_key_of))]
pub fn key_at<'a>(node: &Item<'a>) -> Option<TypeKey<'a>>
    ensures form { (x : List ℕ) (ts : List Tok) → IfSome result (λ view. type_key_in (valued x ts node.now) ≡ the_key x ts (span_of ts node.now.from node.now.to) view) }
    ensures other { IfNone result (IsNone keys node.now.what) }
    ensures below { IfSome result (λ view. IsBelow node.now.parts view) }
{
    match node.what {
        What::Node(label) => match label {
            NodeKind::WordKeyOfType => Some(word(&node.parts)),
            NodeKind::WordPatternKey => Some(word(&node.parts)),
            NodeKind::StrKeyOfType => Some(str(&node.parts)),
            NodeKind::StrPatternKey => Some(str(&node.parts)),
            NodeKind::NumberKeyOfType => Some(number(&node.parts)),
            NodeKind::NumberPatternKey => Some(number(&node.parts)),
            NodeKind::ComputedKeyOfType => Some(computed(&node.parts)),
            _ => None,
        },
        What::Leaf => None,
        What::Role(_) => None,
        What::Parts => None,
        What::Lean(_) => None,
    }
}
