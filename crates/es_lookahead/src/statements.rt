//! Predicates of statements and declarations.

ghost use Rattle.std.specs.Prelude.{◌≡◌, ℕ, ◌+◌, ◌<◌, ◌&&◌, length, slice_get};
ghost use Rattle.es_token.specs.declared.token.TokenKind.TheVariants as k;
ghost use Rattle.grammar_theory.specs.Key.{keys_of, seen, has_kind, is};
ghost use Rattle.es_grammar.specs.types.Words.{is_name, is_near, is_other, partner_of};
ghost use Rattle.es_grammar.specs.types.Statements.{opens_using, step_over, has_semicolon, opens_for, opens_for_await, opens_head_pattern, starts_using, starts_expression, is_label_here, is_value_here, is_case, is_in_case, is_script, opens_label, begins_no_other};

use crate::looks::{self, is};
use crate::tokens::{Tokens, before};
use es_grammar::types::Context;
use es_token::TokenKind;

impl Tokens<'_> {
    /// `using` before a name on its line, but `of`.
    fn opens_plain_using(&self, at: usize) -> bool
        ensures { result ≡ is k.UsingWord (seen (keys_of self.now.tokens.now) at)
            && (is_near (seen (keys_of self.now.tokens.now) (at + 1))
            && (has_kind is_name (seen (keys_of self.now.tokens.now) (at + 1))
            && is_other k.OfWord (seen (keys_of self.now.tokens.now) (at + 1)))) }
    {
        if !self.sees(TokenKind::UsingWord, at) {
            return false;
        }
        let next = self.seen_after(at, 1);
        looks::is_near(next) && looks::has_name(next) && !is(TokenKind::OfWord, next)
    }

    /// `await` before `using` on its line, before a name on its line.
    fn opens_await_using(&self, at: usize) -> bool
        ensures { result ≡ is k.AwaitWord (seen (keys_of self.now.tokens.now) at)
            && (is_near (seen (keys_of self.now.tokens.now) (at + 1))
            && (is k.UsingWord (seen (keys_of self.now.tokens.now) (at + 1))
            && (is_near (seen (keys_of self.now.tokens.now) (at + 2))
            && has_kind is_name (seen (keys_of self.now.tokens.now) (at + 2))))) }
    {
        if !self.sees(TokenKind::AwaitWord, at) {
            return false;
        }
        let next = self.seen_after(at, 1);
        let name = self.seen_after(at, 2);
        looks::is_near(next)
            && is(TokenKind::UsingWord, next)
            && looks::is_near(name)
            && looks::has_name(name)
    }

    /// `using` before a name on its line, but not `of` unless `await` precedes it.
    #[tactic(auto, unfolding(es_grammar::specs::types::Statements::opens_using))]
    pub fn opens_using(&self, at: usize) -> bool
        ensures { result ≡ opens_using (keys_of self.now.tokens.now) at }
    {
        self.opens_plain_using(at) || self.opens_await_using(at)
    }

    /// The place after this token, or after its closer where it opens a bracket; at most `to`.
    fn step_over(&self, at: usize, to: usize) -> usize
        requires { at < to }
        ensures { (turns : ℕ) → has_semicolon (keys_of self.now.tokens.now) turns result to
            ≡ has_semicolon (keys_of self.now.tokens.now) turns
            (step_over at (partner_of (slice_get (keys_of self.now.tokens.now) at))) to }
    {
        match self.partner(at) {
            Some(closer) => {
                if at >= closer {
                    return at + 1;
                }
                if closer >= to {
                    return to;
                }
                closer + 1
            }
            None => at + 1,
        }
    }

    /// A `;` is directly between these places.
    fn has_semicolon(&self, from: usize, to: usize) -> bool
        ensures { result ≡ has_semicolon (keys_of self.now.tokens.now) (length (keys_of self.now.tokens.now)) from to }
    {
        let mut at = from;
        for turn in 0..self.tokens.len() {
            let _ = turn;
            if at >= to {
                return false;
            }
            if self.sees(TokenKind::Semicolon, at) {
                return true;
            }
            at = self.step_over(at, to);
        }
        false
    }

    /// `for` before a head with `;`.
    #[tactic(auto, unfolding(es_grammar::specs::types::Statements::opens_for))]
    pub fn opens_for(&self, at: usize) -> bool
        ensures { result ≡ opens_for (keys_of self.now.tokens.now) at }
    {
        if at >= self.tokens.len() {
            return false;
        }
        match self.partner(at + 1) {
            Some(closer) => self.has_semicolon(at + 2, closer),
            None => false,
        }
    }

    /// `await` follows `for`.
    #[tactic(auto, unfolding(es_grammar::specs::types::Statements::opens_for_await))]
    pub fn opens_for_await(&self, at: usize) -> bool
        ensures { result ≡ opens_for_await (keys_of self.now.tokens.now) at }
    {
        is(TokenKind::AwaitWord, self.seen_after(at, 1))
    }

    /// `[` or `{` whose closer is followed by `of` or `in`.
    #[tactic(auto, unfolding(es_grammar::specs::types::Statements::opens_head_pattern))]
    pub fn opens_head_pattern(&self, at: usize) -> bool
        ensures { result ≡ opens_head_pattern (keys_of self.now.tokens.now) at }
    {
        (self.sees(TokenKind::OpenBracket, at) || self.sees(TokenKind::OpenBrace, at))
            && self.closes_before_each(at)
    }

    /// The head of a `for` begins here with `using`.
    #[tactic(auto, unfolding(es_grammar::specs::types::Statements::starts_using))]
    pub fn starts_using(&self, at: usize) -> bool
        ensures { result ≡ starts_using (keys_of self.now.tokens.now) at }
    {
        self.sees(TokenKind::OpenParen, before(at)) && self.opens_using(at)
    }

    /// The head of a `for` begins here with an expression.
    #[tactic(auto, unfolding(es_grammar::specs::types::Statements::starts_expression))]
    pub fn starts_expression(&self, at: usize) -> bool
        ensures { result ≡ starts_expression (keys_of self.now.tokens.now) at }
    {
        self.sees(TokenKind::OpenParen, before(at))
            && self.is_other(TokenKind::Semicolon, at)
            && !self.opens_using(at)
    }

    /// A name on the line of the token before it.
    #[tactic(auto, unfolding(es_grammar::specs::types::Statements::is_label_here))]
    pub fn is_label_here(&self, at: usize) -> bool
        ensures { result ≡ is_label_here (seen (keys_of self.now.tokens.now) at) }
    {
        self.is_near(at) && self.sees_name(at)
    }

    /// An expression on the line of the token before it.
    #[tactic(auto, unfolding(es_grammar::specs::types::Statements::is_value_here))]
    pub fn is_value_here(&self, at: usize) -> bool
        ensures { result ≡ is_value_here (seen (keys_of self.now.tokens.now) at) }
    {
        self.is_near(at) && self.begins_expression(at)
    }

    /// A clause of `switch` begins here.
    pub fn is_case(&self, at: usize) -> bool
        ensures { result ≡ is_case (seen (keys_of self.now.tokens.now) at) }
    {
        looks::is_case(self.seen(at))
    }

    /// Neither a clause of `switch` nor `}`.
    #[tactic(auto, unfolding(es_grammar::specs::types::Statements::is_in_case))]
    pub fn is_in_case(&self, at: usize) -> bool
        ensures { result ≡ is_in_case (seen (keys_of self.now.tokens.now) at) }
    {
        !self.is_case(at) && self.is_other(TokenKind::CloseBrace, at)
    }

    /// In scripts.
    #[tactic(auto, unfolding(es_grammar::specs::types::Statements::is_script))]
    pub fn is_script(&self, context: Context, _at: usize) -> bool
        ensures { result ≡ is_script context (keys_of self.now.tokens.now) _at }
    {
        context.script
    }

    /// A name before `:`.
    #[tactic(auto, unfolding(es_grammar::specs::types::Statements::opens_label))]
    pub fn opens_label(&self, at: usize) -> bool
        ensures { result ≡ opens_label (keys_of self.now.tokens.now) at }
    {
        self.sees_name(at) && is(TokenKind::Colon, self.seen_after(at, 1))
    }

    /// Neither `{`, `function` nor `class`.
    #[tactic(auto, unfolding(es_grammar::specs::types::Statements::begins_no_other))]
    pub fn begins_no_other(&self, at: usize) -> bool
        ensures { result ≡ begins_no_other (seen (keys_of self.now.tokens.now) at) }
    {
        !(self.sees(TokenKind::OpenBrace, at)
            || self.sees(TokenKind::FunctionWord, at)
            || self.sees(TokenKind::ClassWord, at))
    }
}
