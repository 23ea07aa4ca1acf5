//! Keys of properties and members.

ghost use Rattle.std.specs.Prelude.{◌≡◌, ℕ, List, IfSome, IfNone};
ghost use Rattle.es_token.specs.declared.token.Token.{Token as Tok};
ghost use Rattle.es_lowering.specs.Functions.{word_key, str_key, number_key, computed_key, private_key};
ghost use Rattle.es_syntax.specs.Held.{held, valued};
ghost use Rattle.es_syntax.specs.Roles.{key_in};
ghost use Rattle.es_syntax.specs.Views.{IsNone};
ghost use Rattle.es_view_expressions.specs.member.Key.{keys, the_key, IsBelow};

use es_grammar::NodeKind;
use es_syntax::{Item, Siblings, What};

/// A key. Numbers are those of tokens.
#[derive(Clone, Copy)]
pub enum Key<'a> {
    /// A word.
    Word(u32),
    /// A string literal.
    Str(u32),
    /// A number or a BigInt.
    Number(u32),
    /// `[a]`
    Computed(Item<'a>),
    /// `#a`
    Private(u32),
    /// A part is not there.
    Broken,
}

/// A word.
#[tactic(auto, unfolding(es_lowering::specs::Functions::word_key, crate::specs::member::Key::word))]
fn word<'a>(parts: &Siblings<'a>) -> Key<'a>
    ensures form { (x : List ℕ) (ts : List Tok) → word_key x ts (held x ts parts.now.entries.now) ≡ the_key x ts result }
    ensures below { IsBelow parts.now result }
{
    match parts.token_at(0) {
        Some(token) => Key::Word(token),
        None => Key::Broken,
    }
}

/// A string literal.
#[tactic(auto, unfolding(es_lowering::specs::Functions::str_key, crate::specs::member::Key::str))]
fn str<'a>(parts: &Siblings<'a>) -> Key<'a>
    ensures form { (x : List ℕ) (ts : List Tok) → str_key x ts (held x ts parts.now.entries.now) ≡ the_key x ts result }
    ensures below { IsBelow parts.now result }
{
    match parts.token_at(0) {
        Some(token) => Key::Str(token),
        None => Key::Broken,
    }
}

/// A number or a BigInt.
#[tactic(auto, unfolding(es_lowering::specs::Functions::number_key, crate::specs::member::Key::number))]
fn number<'a>(parts: &Siblings<'a>) -> Key<'a>
    ensures form { (x : List ℕ) (ts : List Tok) → number_key x ts (held x ts parts.now.entries.now) ≡ the_key x ts result }
    ensures below { IsBelow parts.now result }
{
    match parts.token_at(0) {
        Some(token) => Key::Number(token),
        None => Key::Broken,
    }
}

/// `[a]`
#[tactic(auto, unfolding(es_lowering::specs::Functions::computed_key, crate::specs::member::Key::computed))]
fn computed<'a>(parts: &Siblings<'a>) -> Key<'a>
    ensures form { (x : List ℕ) (ts : List Tok) → computed_key (held x ts parts.now.entries.now) ≡ the_key x ts result }
    ensures below { IsBelow parts.now result }
{
    match parts.part(0) {
        Some(expr) => Key::Computed(expr),
        None => Key::Broken,
    }
}

/// `#a`
#[tactic(auto, unfolding(es_lowering::specs::Functions::private_key, crate::specs::member::Key::private))]
fn private<'a>(parts: &Siblings<'a>) -> Key<'a>
    ensures form { (x : List ℕ) (ts : List Tok) → private_key x ts (held x ts parts.now.entries.now) ≡ the_key x ts result }
    ensures below { IsBelow parts.now result }
{
    match parts.token_at(0) {
        Some(token) => Key::Private(token),
        None => Key::Broken,
    }
}

/// What a node is as a key; none where it is of another alternative.
#[tactic(auto, unfolding(es_lowering::specs::Lowering::build, es_lowering::specs::Lowering::key_of))]
pub fn key_at<'a>(node: &Item<'a>) -> Option<Key<'a>>
    ensures form { (x : List ℕ) (ts : List Tok) → IfSome result (λ view. key_in (valued x ts node.now) ≡ the_key x ts view) }
    ensures other { IfNone result (IsNone keys node.now.what) }
    ensures below { IfSome result (λ view. IsBelow node.now.parts view) }
{
    match node.what {
        What::Node(label) => match label {
            NodeKind::WordKey => Some(word(&node.parts)),
            NodeKind::StrKey => Some(str(&node.parts)),
            NodeKind::NumberKey => Some(number(&node.parts)),
            NodeKind::ComputedKey => Some(computed(&node.parts)),
            NodeKind::PrivateKey => Some(private(&node.parts)),
            _ => None,
        },
        What::Leaf => None,
        What::Role(_) => None,
        What::Parts => None,
        What::Lean(_) => None,
    }
}
