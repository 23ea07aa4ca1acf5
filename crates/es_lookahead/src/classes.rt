//! Predicates of members of classes.

ghost use Rattle.std.specs.Prelude.{◌≡◌, ◌<◌, true, length};
ghost use Rattle.grammar_theory.specs.Key.{keys_of};
ghost use Rattle.es_grammar.specs.types.Functions.{opens_accessor, opens_async, opens_star, opens_method};
ghost use Rattle.es_grammar.specs.types.Classes.{opens_static, opens_field_accessor, behind_static, is_plain_member, opens_static_block};

use crate::looks::{self, is};
use crate::tokens::Tokens;
use es_token::TokenKind;

impl Tokens<'_> {
    /// `static` before a key, `*` or `{`; then a token is at this place.
    #[tactic(auto, unfolding(es_grammar::specs::types::Classes::opens_static))]
    pub fn opens_static(&self, at: usize) -> bool
        ensures predicate { result ≡ opens_static (keys_of self.now.tokens.now) at }
        ensures within { result ≡ true → at < length self.now.tokens.now }
    {
        if !self.stands(TokenKind::StaticWord, at) {
            return false;
        }
        let next = self.seen_after(at, 1);
        looks::starts_key(true, next) || is(TokenKind::Star, next) || is(TokenKind::OpenBrace, next)
    }

    /// `accessor` before a key or `*` on its line.
    #[tactic(auto, unfolding(es_grammar::specs::types::Classes::opens_field_accessor))]
    pub fn opens_field_accessor(&self, at: usize) -> bool
        ensures { result ≡ opens_field_accessor (keys_of self.now.tokens.now) at }
    {
        if !self.sees(TokenKind::AccessorWord, at) {
            return false;
        }
        let next = self.seen_after(at, 1);
        looks::is_near(next) && (looks::starts_key(true, next) || is(TokenKind::Star, next))
    }

    /// The predicate at this place, or after the modifier `static`.
    #[tactic(auto, unfolding(es_grammar::specs::types::Classes::behind_static))]
    pub fn behind_static_accessor(&self, at: usize) -> bool
        ensures { result ≡ behind_static (opens_accessor true) (keys_of self.now.tokens.now) at }
    {
        if self.opens_static(at) {
            self.opens_accessor(true, at + 1)
        } else {
            self.opens_accessor(true, at)
        }
    }

    /// The predicate at this place, or after the modifier `static`.
    #[tactic(auto, unfolding(es_grammar::specs::types::Classes::behind_static))]
    pub fn behind_static_async(&self, at: usize) -> bool
        ensures { result ≡ behind_static (opens_async true) (keys_of self.now.tokens.now) at }
    {
        if self.opens_static(at) {
            self.opens_async(true, at + 1)
        } else {
            self.opens_async(true, at)
        }
    }

    /// The predicate at this place, or after the modifier `static`.
    #[tactic(auto, unfolding(es_grammar::specs::types::Classes::behind_static))]
    pub fn behind_static_star(&self, at: usize) -> bool
        ensures { result ≡ behind_static opens_star (keys_of self.now.tokens.now) at }
    {
        if self.opens_static(at) {
            self.opens_star(at + 1)
        } else {
            self.opens_star(at)
        }
    }

    /// The predicate at this place, or after the modifier `static`.
    #[tactic(auto, unfolding(es_grammar::specs::types::Classes::behind_static))]
    pub fn behind_static_field_accessor(&self, at: usize) -> bool
        ensures { result ≡ behind_static opens_field_accessor (keys_of self.now.tokens.now) at }
    {
        if self.opens_static(at) {
            self.opens_field_accessor(at + 1)
        } else {
            self.opens_field_accessor(at)
        }
    }

    /// The predicate at this place, or after the modifier `static`.
    #[tactic(auto, unfolding(es_grammar::specs::types::Classes::behind_static))]
    pub fn behind_static_method(&self, at: usize) -> bool
        ensures { result ≡ behind_static opens_method (keys_of self.now.tokens.now) at }
    {
        if self.opens_static(at) {
            self.opens_method(at + 1)
        } else {
            self.opens_method(at)
        }
    }

    /// The key after the modifiers isn't a modifier.
    #[tactic(auto, unfolding(es_grammar::specs::types::Classes::is_plain_member))]
    pub fn is_plain_member(&self, at: usize) -> bool
        ensures { result ≡ is_plain_member (keys_of self.now.tokens.now) at }
    {
        !self.opens_static(at)
            && !self.opens_accessor(true, at)
            && !self.opens_async(true, at)
            && !self.opens_field_accessor(at)
    }

    /// `static` before `{`.
    #[tactic(auto, unfolding(es_grammar::specs::types::Classes::opens_static_block))]
    pub fn opens_static_block(&self, at: usize) -> bool
        ensures { result ≡ opens_static_block (keys_of self.now.tokens.now) at }
    {
        self.sees(TokenKind::StaticWord, at) && is(TokenKind::OpenBrace, self.seen_after(at, 1))
    }
}
