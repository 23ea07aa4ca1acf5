//! What names and strings say.

ghost use Rattle.std.specs.Prelude.{◌≡◌, ℕ, List, IfOk, bytes_eq, codes};
ghost use Rattle.es_bound_names.specs.Cuts.{IsCut};
ghost use Rattle.cjs_facts.specs.Exports.{says, exports_like, is_exports, is_exports_object, is_define, is_star_word, is_star};
ghost use Rattle.cjs_looks.specs.Seen.{name_at, text_at, key_of, object_of, look_of};
ghost use Rattle.cjs_looks.specs.steps.Values.{text_by, value_by};

use crate::{Key, Look, Object, spells, token_at};
use base::Text;
use es_bound_names::cut;
use es_literal::{LiteralValue, literal_value};
use es_token::Token;
use std::alloc::{AllocError, Global};

/// The name that the token of this number is. One that isn't there is the empty one.
#[tactic(auto, unfolding(es_lowering::specs::Texts::ident_of))]
pub fn name_value(alloc: Global, text: &str, tokens: &[Token], at: u32) -> Result<Text, AllocError>
    requires { IsCut text.now tokens.now }
    ensures { IfOk result (λ name. name ≡ name_at text.now tokens.now at) }
{
    match token_at(tokens, at) {
        Some(token) => Text::from_str(alloc, cut(text, token)),
        None => Text::from_str(alloc, ""),
    }
}

/// The value of the string literal that the token of this number is, if it is there.
#[tactic(auto, unfolding(es_lowering::specs::Texts::str_of))]
pub fn string_value(
    alloc: Global,
    source: &str,
    tokens: &[Token],
    at: u32,
) -> Result<Option<LiteralValue>, AllocError>
    requires { IsCut source.now tokens.now }
    ensures { IfOk result (λ value. text_at source.now tokens.now at ≡ text_by value) }
{
    match token_at(tokens, at) {
        Some(token) => {
            let value = literal_value(alloc, cut(source, token))?;
            Ok(Some(value))
        }
        None => Ok(None),
    }
}

/// The value of a string literal without lone surrogate.
pub fn plain_value(
    alloc: Global,
    source: &str,
    tokens: &[Token],
    at: u32,
) -> Result<Option<Text>, AllocError>
    requires { IsCut source.now tokens.now }
    ensures { IfOk result (λ value. value ≡ value_by (text_at source.now tokens.now at)) }
{
    match string_value(alloc, source, tokens, at)? {
        Some(LiteralValue { text, lone }) => {
            if lone {
                return Ok(None);
            }
            Ok(Some(text))
        }
        None => Ok(None),
    }
}

/// Whether a key says this word.
#[tactic(auto, using(crate::proofs::steps_lemmas::Strings::says_value, crate::proofs::steps_lemmas::Strings::says_nothing))]
pub fn says(
    alloc: Global,
    text: &str,
    tokens: &[Token],
    key: Key,
    word: &str,
) -> Result<bool, AllocError>
    requires { IsCut text.now tokens.now }
    ensures { IfOk result (λ is. is ≡ says (key_of text.now tokens.now key) word.now) }
{
    match key {
        Key::Dotted(at) => Ok(spells(text, tokens, at, word)),
        Key::Quoted(at) => match plain_value(alloc, text, tokens, at)? {
            Some(value) => Ok(value.as_str() == word),
            None => Ok(false),
        },
        Key::Keyed(_) => Ok(false),
        Key::Odd => Ok(false),
    }
}

/// Whether an object is `exports` or `module.exports`.
pub fn is_exports_object(
    alloc: Global,
    text: &str,
    tokens: &[Token],
    object: Object,
) -> Result<bool, AllocError>
    requires { IsCut text.now tokens.now }
    ensures { IfOk result (λ is. is ≡ is_exports_object (object_of text.now tokens.now object)) }
{
    match object {
        Object::One(name) => Ok(spells(text, tokens, name, "exports")),
        Object::Within(name, key) => {
            if spells(text, tokens, name, "module") {
                return says(alloc, text, tokens, key, "exports");
            }
            Ok(false)
        }
        Object::Odd => Ok(false),
    }
}

/// Whether what looks so is `exports` or `module.exports`.
#[tactic(auto, using(crate::proofs::steps_lemmas::Strings::like_text, crate::proofs::steps_lemmas::Strings::like_required))]
pub fn exports_like(
    alloc: Global,
    text: &str,
    tokens: &[Token],
    look: Look,
) -> Result<bool, AllocError>
    requires { IsCut text.now tokens.now }
    ensures { IfOk result (λ is. is ≡ exports_like (look_of text.now tokens.now look)) }
{
    match look {
        Look::Named(name) => Ok(spells(text, tokens, name, "exports")),
        Look::Member(Object::One(name), key) => {
            if spells(text, tokens, name, "module") {
                return says(alloc, text, tokens, key, "exports");
            }
            Ok(false)
        }
        Look::Member(Object::Within(_, _), _) => Ok(false),
        Look::Member(Object::Odd, _) => Ok(false),
        Look::Text(_) => Ok(false),
        Look::Requires(_) => Ok(false),
        Look::Other => Ok(false),
    }
}

/// Whether what looks so is `exports`.
#[tactic(auto, using(crate::proofs::steps_lemmas::Strings::exports_text, crate::proofs::steps_lemmas::Strings::exports_required))]
pub fn is_exports(text: &str, tokens: &[Token], look: Look) -> bool
    ensures { result ≡ is_exports (look_of text.now tokens.now look) }
{
    match look {
        Look::Named(name) => spells(text, tokens, name, "exports"),
        Look::Member(_, _) => false,
        Look::Text(_) => false,
        Look::Requires(_) => false,
        Look::Other => false,
    }
}

/// Whether what looks so is `Object.defineProperty`.
#[tactic(auto, using(crate::proofs::steps_lemmas::Strings::define_text, crate::proofs::steps_lemmas::Strings::define_required, crate::proofs::steps_lemmas::Strings::define_quoted))]
pub fn is_define(text: &str, tokens: &[Token], look: Look) -> bool
    ensures { result ≡ is_define (look_of text.now tokens.now look) }
{
    match look {
        Look::Member(Object::One(name), Key::Dotted(key)) => {
            spells(text, tokens, name, "Object") && spells(text, tokens, key, "defineProperty")
        }
        Look::Member(Object::One(_), Key::Quoted(_)) => false,
        Look::Member(Object::One(_), Key::Keyed(_)) => false,
        Look::Member(Object::One(_), Key::Odd) => false,
        Look::Member(Object::Within(_, _), _) => false,
        Look::Member(Object::Odd, _) => false,
        Look::Named(_) => false,
        Look::Text(_) => false,
        Look::Requires(_) => false,
        Look::Other => false,
    }
}

fn is_star_word(text: &str, tokens: &[Token], at: u32) -> bool
    ensures { result ≡ is_star_word (name_at text.now tokens.now at) }
{
    spells(text, tokens, at, "__exportStar") || spells(text, tokens, at, "__export")
}

/// Whether what looks so is `__exportStar` or `__export`, as a name or a member of one.
#[tactic(auto, using(crate::proofs::steps_lemmas::Strings::star_text, crate::proofs::steps_lemmas::Strings::star_required, crate::proofs::steps_lemmas::Strings::star_quoted))]
pub fn is_star(text: &str, tokens: &[Token], look: Look) -> bool
    ensures { result ≡ is_star (look_of text.now tokens.now look) }
{
    match look {
        Look::Named(name) => is_star_word(text, tokens, name),
        Look::Member(Object::One(_), Key::Dotted(key)) => is_star_word(text, tokens, key),
        Look::Member(Object::One(_), Key::Quoted(_)) => false,
        Look::Member(Object::One(_), Key::Keyed(_)) => false,
        Look::Member(Object::One(_), Key::Odd) => false,
        Look::Member(Object::Within(_, _), _) => false,
        Look::Member(Object::Odd, _) => false,
        Look::Text(_) => false,
        Look::Requires(_) => false,
        Look::Other => false,
    }
}
