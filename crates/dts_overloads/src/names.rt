//! The names that overloads share.

ghost use Rattle.std.specs.Prelude.{◌≡◌, ◌≤◌, ◌+◌, option_map, ℕ, false, true, List, None, Some, IfOk, IfSome, IsCharBoundary, slice_get, slice_range};
ghost use Rattle.es_token.specs.declared.token.Token.{Token as Tok};
ghost use Rattle.es_lexer.specs.Reads.{ReadsTokens};
ghost use Rattle.es_literal.specs.Values.{value_of};
ghost use Rattle.es_syntax.specs.Held.{valued};
ghost use Rattle.es_syntax.specs.Roles.{expr_in, key_in};
ghost use Rattle.es_syntax.specs.Views.{is_one_of};
ghost use Rattle.es_view_expressions.specs.member.Key.{the_key};
ghost use Rattle.dts_overloads.specs.Names.{Cuts, spelling, private_spelling, keyed, IsNoKey, Calls, CallsIn};

use crate::paths::path_name;
use base::{Items, Text};
use es_grammar::NodeKind;
use es_literal::literal_value;
use es_syntax::{Item, What};
use es_token::Token;
use es_view_expressions::expr::{Primary, primary_at};
use es_view_expressions::member::{Key, key_at};
use std::alloc::{AllocError, Global};

/// What a function or a method is called.
#[derive(Drop)]
pub enum Name {
    /// A function after `export default` that has no name.
    Unnamed,
    /// The name of a function; a key that is a word, or a string, by its value.
    Text(Text),
    /// `#a`, without `#`.
    Private(Text),
    /// A number or a BigInt, as it is spelled.
    Number(Text),
    /// `[a.b]`: its names.
    Path(Items<Text>),
}

/// The token of this number.
fn token_at(tokens: &[Token], at: u32) -> Option<Token>
    ensures { result ≡ slice_get tokens.now at }
{
    tokens.get(at as usize).copied()
}

/// The text between two places.
fn between<'a>(text: &'a str, from: usize, to: usize) -> &'a str
    requires ordered { from ≤ to }
    requires starts { IsCharBoundary text.now from }
    requires ends { IsCharBoundary text.now to }
    ensures { result.now ≡ slice_range text.now from to }
{
    &text[from..to]
}

/// The text of a token.
fn cut<'a>(text: &'a str, token: Token) -> &'a str
    requires { Cuts text.now token }
    ensures { result.now ≡ slice_range text.now token.range.start token.range.end }
{
    let range = token.range();
    between(text, range.start, range.end)
}

/// The text of a token without its first byte, where that is a character.
fn cut_second<'a>(text: &'a str, token: Token) -> Option<&'a str>
    requires { Cuts text.now token }
    ensures { IfSome result (λ s. s.now ≡ slice_range text.now (token.range.start + 1) token.range.end) }
{
    let range = token.range();
    let from = range.start + 1;
    if text.is_char_boundary(from) {
        return Some(between(text, from, range.end));
    }
    None
}

/// The text of the token of this number.
#[tactic(auto, using(crate::proofs::NameLemmas::spelled_is))]
fn spelled<'a>(text: &'a str, tokens: &[Token], at: u32) -> Option<&'a str>
    requires { ReadsTokens text.now tokens.now }
    ensures { IfSome result (λ s. spelling text.now (slice_get tokens.now at) ≡ Some s.now) }
{
    match token_at(tokens, at) {
        Some(token) => Some(cut(text, token)),
        None => None,
    }
}

/// The text of the token of this number without its first byte, where that is a character.
#[tactic(auto, using(crate::proofs::NameLemmas::private_is))]
fn spelled_private<'a>(text: &'a str, tokens: &[Token], at: u32) -> Option<&'a str>
    requires { ReadsTokens text.now tokens.now }
    ensures { IfSome result (λ s. private_spelling text.now (slice_get tokens.now at) ≡ Some s.now) }
{
    match token_at(tokens, at) {
        Some(token) => cut_second(text, token),
        None => None,
    }
}

/// How the token of this number is spelled. What no grammar makes is reported as out of memory.
pub fn word(alloc: Global, text: &str, tokens: &[Token], at: u32) -> Result<Text, AllocError>
    requires { ReadsTokens text.now tokens.now }
    ensures { IfOk result (λ t. spelling text.now (slice_get tokens.now at) ≡ Some t) }
{
    match spelled(text, tokens, at) {
        Some(s) => Text::from_str(alloc, s),
        None => Err(AllocError),
    }
}

/// The value of the string that the token of this number is.
#[tactic(auto, using(crate::proofs::NameLemmas::value_is))]
fn string(alloc: Global, text: &str, tokens: &[Token], at: u32) -> Result<Text, AllocError>
    requires { ReadsTokens text.now tokens.now }
    ensures { IfOk result (λ t. option_map value_of (spelling text.now (slice_get tokens.now at)) ≡ Some t) }
{
    match spelled(text, tokens, at) {
        Some(s) => Ok(literal_value(alloc, s)?.text),
        None => Err(AllocError),
    }
}

/// A private name without `#`.
fn private(alloc: Global, text: &str, tokens: &[Token], at: u32) -> Result<Text, AllocError>
    requires { ReadsTokens text.now tokens.now }
    ensures { IfOk result (λ t. private_spelling text.now (slice_get tokens.now at) ≡ Some t) }
{
    match spelled_private(text, tokens, at) {
        Some(s) => Text::from_str(alloc, s),
        None => Err(AllocError),
    }
}

/// What a key is called, in brackets or not.
#[tactic(auto, using(crate::proofs::NameLemmas::calls_word, crate::proofs::NameLemmas::calls_str, crate::proofs::NameLemmas::calls_number, crate::proofs::NameLemmas::calls_private, crate::proofs::NameLemmas::calls_computed))]
fn name_by(
    alloc: Global,
    text: &str,
    tokens: &[Token],
    view: &Key<'_>,
) -> Result<Option<Name>, AllocError>
    requires { ReadsTokens text.now tokens.now }
    ensures { IfOk result (λ it. Calls it (the_key text.now tokens.now view.now)) }
{
    match view {
        Key::Word(at) => Ok(Some(Name::Text(word(alloc, text, tokens, *at)?))),
        Key::Str(at) => Ok(Some(Name::Text(string(alloc, text, tokens, *at)?))),
        Key::Number(at) => Ok(Some(Name::Number(word(alloc, text, tokens, *at)?))),
        Key::Private(at) => Ok(Some(Name::Private(private(alloc, text, tokens, *at)?))),
        Key::Computed(e) => computed_name(alloc, text, tokens, e),
        Key::Broken => Err(AllocError),
    }
}

/// The name that a key is, where it is one. What no grammar makes is reported as out of memory.
#[tactic(auto, using(crate::proofs::NameLemmas::calls_same))]
pub fn key_name(
    alloc: Global,
    text: &str,
    tokens: &[Token],
    key: &Item<'_>,
) -> Result<Option<Name>, AllocError>
    requires { ReadsTokens text.now tokens.now }
    ensures { IfOk result (λ it. Calls it (key_in (valued text.now tokens.now key.now))) }
{
    match key_at(key) {
        Some(view) => name_by(alloc, text, tokens, &view),
        None => Err(AllocError),
    }
}

/// Whether a node of this alternative may be a name in brackets.
fn may_be_name(label: NodeKind) -> bool
    ensures { is_one_of keyed label ≡ result }
{
    match label {
        NodeKind::Name => true,
        NodeKind::Word => true,
        NodeKind::Number => true,
        NodeKind::Str => true,
        NodeKind::Chain => true,
        _ => false,
    }
}

/// Whether an expression in brackets may be a name.
#[tactic(auto, using(crate::proofs::NameLemmas::key_of_node, crate::proofs::NameLemmas::key_of_leaf, crate::proofs::NameLemmas::key_of_role, crate::proofs::NameLemmas::key_of_parts, crate::proofs::NameLemmas::key_of_lean))]
fn is_keyed(e: &Item<'_>) -> bool
    ensures { result ≡ false → (x : List ℕ) (ts : List Tok) → IsNoKey (expr_in (valued x ts e.now)) }
{
    match e.what {
        What::Node(label) => may_be_name(label),
        What::Leaf => false,
        What::Role(_) => false,
        What::Parts => false,
        What::Lean(_) => false,
    }
}

/// The name that an expression in brackets is, where it is one.
#[tactic(auto, using(crate::proofs::NameLemmas::calls_none))]
fn computed_name(
    alloc: Global,
    text: &str,
    tokens: &[Token],
    e: &Item<'_>,
) -> Result<Option<Name>, AllocError>
    requires { ReadsTokens text.now tokens.now }
    ensures { IfOk result (λ it. CallsIn it (expr_in (valued text.now tokens.now e.now))) }
{
    if is_keyed(e) {
        return keyed_name(alloc, text, tokens, e);
    }
    Ok(None)
}

/// The name that a literal, a name, or a chain in brackets is.
#[tactic(auto, using(crate::proofs::NameLemmas::calls_in_str, crate::proofs::NameLemmas::calls_in_number))]
fn keyed_name(
    alloc: Global,
    text: &str,
    tokens: &[Token],
    e: &Item<'_>,
) -> Result<Option<Name>, AllocError>
    requires { ReadsTokens text.now tokens.now }
    ensures { IfOk result (λ it. CallsIn it (expr_in (valued text.now tokens.now e.now))) }
{
    match primary_at(e) {
        Some(Primary::Str(at)) => Ok(Some(Name::Text(string(alloc, text, tokens, at)?))),
        Some(Primary::Number(at)) => Ok(Some(Name::Number(word(alloc, text, tokens, at)?))),
        _ => path_name(alloc, text, tokens, e),
    }
}
