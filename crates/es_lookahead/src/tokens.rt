//! The tokens of a text, and what is seen at a place.

ghost use Rattle.std.specs.Prelude.{◌≡◌, ◌+◌, ◌-◌, ◌<◌, true, length, slice_get};
ghost use Rattle.grammar_theory.specs.Key.{keys_of, seen, is};
ghost use Rattle.es_grammar.specs.types.Words.{partner_of};
ghost use Rattle.es_grammar.specs.types.Expressions.{joins};
ghost use Rattle.es_grammar.specs.types.Functions.{behind_key};
ghost use Rattle.es_lookahead.specs.Sight.{sight};
ghost use Rattle.es_lookahead.specs.Ends.{AreRight};

use crate::ends::Angle;
use crate::looks::{Seen, is};
use es_token::{Token, TokenKind};

/// The tokens of a text, and where type arguments and type parameters of it end, as far as that is known: no angle, or some,
/// from the last one to the first.
#[derive(Clone, Copy)]
pub struct Tokens<'a> {
    pub tokens: &'a [Token],
    pub angles: &'a [Angle],
    pub ghost right: { AreRight (keys_of tokens.now) angles.now },
}

/// The place before this one, or 0.
pub fn before(at: usize) -> usize
    ensures { result ≡ at - 1 }
{
    if at == 0 { 0 } else { at - 1 }
}

impl Tokens<'_> {
    /// The token at this place.
    pub fn token(&self, at: usize) -> Option<Token>
        ensures { result ≡ slice_get self.now.tokens.now at }
    {
        self.tokens.get(at).copied()
    }

    /// What is seen at this place.
    pub fn seen(&self, at: usize) -> Option<Seen>
        ensures { sight result ≡ seen (keys_of self.now.tokens.now) at }
    {
        match self.token(at) {
            Some(token) => Some(Seen {
                kind: token.kind(),
                line_before: token.line_before(),
            }),
            None => None,
        }
    }

    /// What is seen so many places after this one.
    pub fn seen_after(&self, at: usize, steps: usize) -> Option<Seen>
        ensures { sight result ≡ seen (keys_of self.now.tokens.now) (at + steps) }
    {
        if at >= self.tokens.len() {
            return None;
        }
        if steps >= self.tokens.len() - at {
            return None;
        }
        self.seen(at + steps)
    }

    /// Whether the token at this place is of this kind.
    pub fn sees(&self, kind: TokenKind, at: usize) -> bool
        ensures { result ≡ is kind (seen (keys_of self.now.tokens.now) at) }
    {
        is(kind, self.seen(at))
    }

    /// Whether the token at this place is of this kind; then it is a place of the tokens.
    pub fn stands(&self, kind: TokenKind, at: usize) -> bool
        ensures kind { result ≡ is kind (seen (keys_of self.now.tokens.now) at) }
        ensures within { result ≡ true → at < length self.now.tokens.now }
    {
        if at >= self.tokens.len() {
            return false;
        }
        self.sees(kind, at)
    }

    /// The number of the bracket that matches the one at this place.
    pub fn partner(&self, at: usize) -> Option<usize>
        ensures { result ≡ partner_of (slice_get (keys_of self.now.tokens.now) at) }
    {
        match self.token(at) {
            Some(token) => token.partner(),
            None => None,
        }
    }

    /// What is seen after the key at this place.
    pub fn seen_behind_key(&self, at: usize) -> Option<Seen>
        ensures { sight result ≡ seen (keys_of self.now.tokens.now)
            (behind_key at (partner_of (slice_get (keys_of self.now.tokens.now) at))) }
    {
        match self.partner(at) {
            Some(closer) => self.seen_after(closer, 1),
            None => self.seen_after(at, 1),
        }
    }

    /// Whether the token at this place is of this kind and starts where the one before it ends.
    #[tactic(auto, unfolding(es_grammar::specs::types::Expressions::joins))]
    pub fn joins(&self, kind: TokenKind, at: usize) -> bool
        ensures { result ≡ joins kind (keys_of self.now.tokens.now) at }
    {
        if at == 0 {
            return false;
        }
        let last = match self.token(at - 1) {
            Some(token) => token,
            None => return false,
        };
        match self.token(at) {
            Some(token) => token.kind() == kind && token.range().start == last.range().end,
            None => false,
        }
    }
}
