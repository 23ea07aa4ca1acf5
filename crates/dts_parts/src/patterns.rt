//! What is asked of patterns and modifiers of parameters.

ghost use Rattle.std.specs.Prelude.{◌≡◌, ◌||◌, ◌+◌, true, false, ℕ, List, slice_get, IfSome};
ghost use Rattle.es_token.specs.declared.token.Token.{Token as Tok};
ghost use Rattle.es_lowering.specs.Value.{as_group};
ghost use Rattle.es_lowering.specs.Texts.{span_of, token_at};
ghost use Rattle.es_lowering.specs.Functions.{plain};
ghost use Rattle.es_lowering.specs.TypedParts.{modifiers_in};
ghost use Rattle.es_syntax.specs.declared.entry.What.TheVariants as vWhat;
ghost use Rattle.es_syntax.specs.Held.{held, valued, token_there};
ghost use Rattle.dts_rules.specs.Rules as rules;
ghost use Rattle.dts_parts.specs.Patterns.{Own, OwnName, Properties, is_property_word};

use dts_draft::is_kind;
use es_grammar::NodeKind;
use es_syntax::{Item, Siblings, What};
use es_token::{Token, TokenKind};

/// Whether a node ends with this token.
fn ends_after(at: u32, to: u32) -> bool
    ensures { result ≡ true → to ≡ at + 1 }
{
    match at.checked_add(1) {
        Some(next) => next == to,
        None => false,
    }
}

/// Whether the first part of a node is the token that it spans.
#[tactic(auto, using(crate::proofs::PatternLemmas::own_token))]
fn own_name(it: &Item<'_>) -> bool
    ensures { result ≡ true → (x : List ℕ) (ts : List Tok) → OwnName ts (held x ts it.now.parts.entries.now) it.now.from it.now.to }
{
    match it.parts.token_at(0) {
        Some(at) => {
            if it.from != at {
                return false;
            }
            ends_after(at, it.to)
        }
        None => false,
    }
}

/// Whether a node of this alternative spans the pattern that it is.
#[tactic(auto, using(crate::proofs::PatternLemmas::own_named, crate::proofs::PatternLemmas::own_array, crate::proofs::PatternLemmas::own_object))]
fn own_node(it: &Item<'_>, label: NodeKind) -> bool
    ensures { result ≡ true → it.now.what ≡ vWhat.Node label → (x : List ℕ) (ts : List Tok) → Own x ts it.now }
{
    match label {
        NodeKind::NamePattern => own_name(it),
        NodeKind::ArrayPattern => true,
        NodeKind::ObjectPattern => true,
        _ => false,
    }
}

/// Whether a node is a name, an array or an object, over the tokens that it spans.
pub fn own_pattern(it: &Item<'_>) -> bool
    ensures { result ≡ true → (x : List ℕ) (ts : List Tok) → Own x ts it.now }
{
    match it.what {
        What::Node(label) => own_node(it, label),
        What::Leaf => false,
        What::Role(_) => false,
        What::Parts => false,
        What::Lean(_) => false,
    }
}

/// Whether one of these holds.
fn either(a: bool, b: bool) -> bool
    ensures { result ≡ (a || b) }
{
    a || b
}

/// Whether this token makes a parameter a property of its class.
fn is_word(tokens: &[Token], at: u32) -> bool
    ensures { result ≡ is_property_word (slice_get tokens.now at) }
{
    let public = is_kind(tokens, at, TokenKind::PublicWord);
    let protected = is_kind(tokens, at, TokenKind::ProtectedWord);
    let private = is_kind(tokens, at, TokenKind::PrivateWord);
    let readonly = is_kind(tokens, at, TokenKind::ReadonlyWord);
    let overrides = is_kind(tokens, at, TokenKind::OverrideWord);
    either(
        public,
        either(protected, either(private, either(readonly, overrides))),
    )
}

/// Whether this modifier does.
fn is_property_turn(tokens: &[Token], turn: &Item<'_>) -> bool
    ensures { (x : List ℕ) → result ≡ is_property_word (token_at tokens.now (as_group (valued x tokens.now turn.now)) 0) }
{
    match turn.group().token_at(0) {
        Some(at) => is_word(tokens, at),
        None => false,
    }
}

/// Whether one of these modifiers does.
#[tactic(auto, using(crate::proofs::PatternLemmas::properties_none))]
fn are_properties(tokens: &[Token], modifiers: &Siblings<'_>) -> bool
    ensures { (x : List ℕ) (by : rules.Env) → Properties by tokens.now false result (held x tokens.now modifiers.now.entries.now) }
{
    let mut found = false;
    let mut row = *modifiers;
    while let Some((turn, rest)) = row.split() {
        let word = is_property_turn(tokens, &turn);
        found = either(word, found);
        row = rest;
    }
    found
}

/// Whether these modifiers make a parameter a property of its class.
#[tactic(auto, using(crate::proofs::PatternLemmas::property_of))]
pub(crate) fn is_property(tokens: &[Token], modifiers: &Siblings<'_>) -> bool
    ensures { (x : List ℕ) (by : rules.Env) → IfSome (modifiers_in tokens.now plain (held x tokens.now modifiers.now.entries.now)) (λ m. rules.is_property by m ≡ result) }
{
    are_properties(tokens, modifiers)
}
