//! Predicates of parameters, patterns, keys, and properties of objects.

ghost use Rattle.std.specs.Prelude.{◌≡◌};
ghost use Rattle.grammar_theory.specs.Key.{keys_of, seen};
ghost use Rattle.es_grammar.specs.types.Functions.{opens_inner_pattern, is_parameter, opens_value, opens_accessor, opens_async, is_plain_key, opens_star, opens_method};

use crate::looks::{self, is};
use crate::tokens::Tokens;
use es_token::TokenKind;

impl Tokens<'_> {
    /// A pattern inside a pattern that is assigned to.
    #[tactic(auto, unfolding(es_grammar::specs::types::Functions::opens_inner_pattern))]
    pub fn opens_inner_pattern(&self, at: usize) -> bool
        ensures { result ≡ opens_inner_pattern (keys_of self.now.tokens.now) at }
    {
        (self.sees(TokenKind::OpenBracket, at) || self.sees(TokenKind::OpenBrace, at))
            && self.closes_before_next(at)
    }

    /// A parameter begins here: neither `)` nor `...`.
    #[tactic(auto, unfolding(es_grammar::specs::types::Functions::is_parameter))]
    pub fn is_parameter(&self, at: usize) -> bool
        ensures { result ≡ is_parameter (seen (keys_of self.now.tokens.now) at) }
    {
        !self.sees(TokenKind::CloseParen, at) && !self.sees(TokenKind::Ellipsis, at)
    }

    /// A key before `:`.
    #[tactic(auto, unfolding(es_grammar::specs::types::Functions::opens_value))]
    pub fn opens_value(&self, at: usize) -> bool
        ensures { result ≡ opens_value (keys_of self.now.tokens.now) at }
    {
        is(TokenKind::Colon, self.seen_behind_key(at))
    }

    /// `get` or `set` before a key.
    #[tactic(auto, unfolding(es_grammar::specs::types::Functions::opens_accessor))]
    pub fn opens_accessor(&self, private: bool, at: usize) -> bool
        ensures { result ≡ opens_accessor private (keys_of self.now.tokens.now) at }
    {
        self.sees_accessor_word(at) && looks::starts_key(private, self.seen_after(at, 1))
    }

    /// `async` before a key or `*` on its line.
    #[tactic(auto, unfolding(es_grammar::specs::types::Functions::opens_async))]
    pub fn opens_async(&self, private: bool, at: usize) -> bool
        ensures { result ≡ opens_async private (keys_of self.now.tokens.now) at }
    {
        if !self.sees(TokenKind::AsyncWord, at) {
            return false;
        }
        let next = self.seen_after(at, 1);
        looks::is_near(next) && (looks::starts_key(private, next) || is(TokenKind::Star, next))
    }

    /// The key after a modifier isn't a modifier.
    #[tactic(auto, unfolding(es_grammar::specs::types::Functions::is_plain_key))]
    pub fn is_plain_key(&self, at: usize) -> bool
        ensures { result ≡ is_plain_key (keys_of self.now.tokens.now) at }
    {
        !self.opens_accessor(false, at) && !self.opens_async(false, at)
    }

    /// `*`
    #[tactic(auto, unfolding(es_grammar::specs::types::Functions::opens_star))]
    pub fn opens_star(&self, at: usize) -> bool
        ensures { result ≡ opens_star (keys_of self.now.tokens.now) at }
    {
        self.sees(TokenKind::Star, at)
    }

    /// A key before `(`.
    #[tactic(auto, unfolding(es_grammar::specs::types::Functions::opens_method))]
    pub fn opens_method(&self, at: usize) -> bool
        ensures { result ≡ opens_method (keys_of self.now.tokens.now) at }
    {
        is(TokenKind::OpenParen, self.seen_behind_key(at))
    }
}
