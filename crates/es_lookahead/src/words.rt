//! Tests of the token at a place, and of what follows a bracket.

ghost use Rattle.std.specs.Prelude.{◌≡◌};
ghost use Rattle.es_token.specs.declared.token.TokenKind.TheVariants as k;
ghost use Rattle.grammar_theory.specs.Key.{keys_of, seen, has_kind, is, is_end, is_token, is_after_line};
ghost use Rattle.es_grammar.specs.types.Words.{is_name, is_accessor_word, is_near, is_other, closes_before};
ghost use Rattle.es_grammar.specs.types.Expressions.{is_update, is_relation, is_assignment, is_arrow};
ghost use Rattle.es_grammar.specs.types.Functions.{follows_pattern};
ghost use Rattle.es_grammar.specs.types.Statements.{is_variable_word, is_each};

use crate::looks::{self, is};
use crate::tokens::Tokens;
use es_token::TokenKind;

impl Tokens<'_> {
    /// Whether a name is at this place.
    pub fn sees_name(&self, at: usize) -> bool
        ensures { result ≡ has_kind is_name (seen (keys_of self.now.tokens.now) at) }
    {
        looks::has_name(self.seen(at))
    }

    /// Whether `get` or `set` is at this place.
    pub fn sees_accessor_word(&self, at: usize) -> bool
        ensures { result ≡ has_kind is_accessor_word (seen (keys_of self.now.tokens.now) at) }
    {
        looks::has_accessor_word(self.seen(at))
    }

    /// Whether `++` or `--` is at this place.
    pub fn sees_update(&self, at: usize) -> bool
        ensures { result ≡ has_kind is_update (seen (keys_of self.now.tokens.now) at) }
    {
        looks::has_update(self.seen(at))
    }

    /// Whether a relational operator of one token is at this place.
    pub fn sees_relation(&self, at: usize) -> bool
        ensures { result ≡ has_kind is_relation (seen (keys_of self.now.tokens.now) at) }
    {
        looks::has_relation(self.seen(at))
    }

    /// Whether an assignment operator of one token is at this place.
    pub fn sees_assignment(&self, at: usize) -> bool
        ensures { result ≡ has_kind is_assignment (seen (keys_of self.now.tokens.now) at) }
    {
        looks::has_assignment(self.seen(at))
    }

    /// Whether `var`, `let` or `const` is at this place.
    pub fn sees_variable_word(&self, at: usize) -> bool
        ensures { result ≡ has_kind is_variable_word (seen (keys_of self.now.tokens.now) at) }
    {
        looks::has_variable_word(self.seen(at))
    }

    /// Whether no token is at this place.
    pub fn is_end(&self, at: usize) -> bool
        ensures { result ≡ is_end (seen (keys_of self.now.tokens.now) at) }
    {
        looks::is_end(self.seen(at))
    }

    /// Whether a token is at this place.
    pub fn is_token(&self, at: usize) -> bool
        ensures { result ≡ is_token (seen (keys_of self.now.tokens.now) at) }
    {
        looks::is_token(self.seen(at))
    }

    /// Whether a line end precedes the token at this place.
    pub fn is_after_line(&self, at: usize) -> bool
        ensures { result ≡ is_after_line (seen (keys_of self.now.tokens.now) at) }
    {
        looks::is_after_line(self.seen(at))
    }

    /// ~: whether this place is on the line of the token before it.
    pub fn is_near(&self, at: usize) -> bool
        ensures { result ≡ is_near (seen (keys_of self.now.tokens.now) at) }
    {
        looks::is_near(self.seen(at))
    }

    /// Whether another token than this one, or the end, is at this place.
    pub fn is_other(&self, kind: TokenKind, at: usize) -> bool
        ensures { result ≡ is_other kind (seen (keys_of self.now.tokens.now) at) }
    {
        !self.sees(kind, at)
    }

    /// Whether the bracket that matches the one at this place precedes `=>` on its line.
    pub fn closes_before_arrow(&self, at: usize) -> bool
        ensures { result ≡ closes_before is_arrow (keys_of self.now.tokens.now) at }
    {
        match self.partner(at) {
            Some(closer) => looks::is_arrow(self.seen_after(closer, 1)),
            None => false,
        }
    }

    /// Whether the bracket that matches the one at this place precedes `of` or `in`.
    pub fn closes_before_each(&self, at: usize) -> bool
        ensures { result ≡ closes_before is_each (keys_of self.now.tokens.now) at }
    {
        match self.partner(at) {
            Some(closer) => looks::is_each(self.seen_after(closer, 1)),
            None => false,
        }
    }

    /// Whether the bracket that matches the one at this place precedes what may follow a pattern inside a pattern.
    pub fn closes_before_next(&self, at: usize) -> bool
        ensures { result ≡ closes_before follows_pattern (keys_of self.now.tokens.now) at }
    {
        match self.partner(at) {
            Some(closer) => looks::follows_pattern(self.seen_after(closer, 1)),
            None => false,
        }
    }

    /// Whether the bracket that matches the one at this place precedes `=`.
    pub fn closes_before_equal(&self, at: usize) -> bool
        ensures { result ≡ closes_before (is k.Equal) (keys_of self.now.tokens.now) at }
    {
        match self.partner(at) {
            Some(closer) => is(TokenKind::Equal, self.seen_after(closer, 1)),
            None => false,
        }
    }
}
