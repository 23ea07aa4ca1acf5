//! Predicates of expressions.

ghost use Rattle.std.specs.Prelude.{◌≡◌, ◌+◌, ◌^◌, ◌<◌, ◌&&◌, ◌||◌};
ghost use Rattle.es_token.specs.declared.token.TokenKind.TheVariants as k;
ghost use Rattle.grammar_theory.specs.Key.{keys_of, seen};
ghost use Rattle.es_grammar.specs.types.Expressions.{joins, opens_greater, opens_right_shift, opens_right_assignment, begins_expression, is_arrow, no_arrow, opens_plain_arrow, opens_async_arrow, opens_arrow, opens_async_parenthesis, is_no_arrow_head, opens_async_function, opens_property, has_argument, opens_source_call, opens_defer_call, is_module, may_await, may_test, follows_super, begins_member, begins_post, is_update_here, no_update_here, no_mix, is_operand, opens_shift, opens_relation, opens_pattern, opens_assignment};

use crate::looks::{self, is};
use crate::tokens::{Tokens, before};
use es_grammar::types::Context;
use es_token::TokenKind;

impl Tokens<'_> {
    /// `>` or `>=`
    #[tactic(auto, unfolding(es_grammar::specs::types::Expressions::opens_greater))]
    pub fn opens_greater(&self, at: usize) -> bool
        ensures { result ≡ opens_greater (keys_of self.now.tokens.now) at }
    {
        self.stands(TokenKind::Greater, at) && !self.joins(TokenKind::Greater, at + 1)
    }

    /// `=`, or `>` and `=`, which join the tokens before them: the end of an operator.
    fn joins_equal(&self, at: usize) -> bool
        requires { at + 1 < 2 ^ 64 }
        ensures { result ≡ joins k.Equal (keys_of self.now.tokens.now) at || (joins k.Greater (keys_of self.now.tokens.now) at
            && joins k.Equal (keys_of self.now.tokens.now) (at + 1)) }
    {
        self.joins(TokenKind::Equal, at)
            || (self.joins(TokenKind::Greater, at) && self.joins(TokenKind::Equal, at + 1))
    }

    /// `>>` or `>>>` without `=`
    #[tactic(auto, unfolding(es_grammar::specs::types::Expressions::opens_right_shift))]
    pub fn opens_right_shift(&self, at: usize) -> bool
        ensures { result ≡ opens_right_shift (keys_of self.now.tokens.now) at }
    {
        self.stands(TokenKind::Greater, at)
            && self.joins(TokenKind::Greater, at + 1)
            && !self.joins_equal(at + 2)
    }

    /// `>>=` or `>>>=`
    #[tactic(auto, unfolding(es_grammar::specs::types::Expressions::opens_right_assignment))]
    pub fn opens_right_assignment(&self, at: usize) -> bool
        ensures { result ≡ opens_right_assignment (keys_of self.now.tokens.now) at }
    {
        self.stands(TokenKind::Greater, at)
            && self.joins(TokenKind::Greater, at + 1)
            && self.joins_equal(at + 2)
    }

    /// Whether the token at this place begins an expression.
    pub fn begins_expression(&self, at: usize) -> bool
        ensures { result ≡ begins_expression (seen (keys_of self.now.tokens.now) at) }
    {
        looks::begins_expression(self.seen(at))
    }

    /// `=>` on its line.
    pub fn is_arrow(&self, at: usize) -> bool
        ensures { result ≡ is_arrow (seen (keys_of self.now.tokens.now) at) }
    {
        looks::is_arrow(self.seen(at))
    }

    /// No `=>` on its line.
    #[tactic(auto, unfolding(es_grammar::specs::types::Expressions::no_arrow))]
    pub fn no_arrow(&self, at: usize) -> bool
        ensures { result ≡ no_arrow (seen (keys_of self.now.tokens.now) at) }
    {
        !self.is_arrow(at)
    }

    /// A name before `=>` on its line, or `(` whose `)` precedes one.
    #[tactic(auto, unfolding(es_grammar::specs::types::Expressions::opens_plain_arrow))]
    pub fn opens_plain_arrow(&self, at: usize) -> bool
        ensures { result ≡ opens_plain_arrow (keys_of self.now.tokens.now) at }
    {
        (self.sees_name(at) && looks::is_arrow(self.seen_after(at, 1)))
            || (self.sees(TokenKind::OpenParen, at) && self.closes_before_arrow(at))
    }

    /// `async` before such a name or `(` on its line.
    #[tactic(auto, unfolding(es_grammar::specs::types::Expressions::opens_async_arrow))]
    pub fn opens_async_arrow(&self, at: usize) -> bool
        ensures { result ≡ opens_async_arrow (keys_of self.now.tokens.now) at }
    {
        self.stands(TokenKind::AsyncWord, at)
            && !self.is_arrow(at + 1)
            && self.is_near(at + 1)
            && self.opens_plain_arrow(at + 1)
    }

    /// An arrow begins here.
    #[tactic(auto, unfolding(es_grammar::specs::types::Expressions::opens_arrow))]
    pub fn opens_arrow(&self, at: usize) -> bool
        ensures { result ≡ opens_arrow (keys_of self.now.tokens.now) at }
    {
        self.opens_plain_arrow(at) || self.opens_async_arrow(at)
    }

    /// `(` follows `async`.
    #[tactic(auto, unfolding(es_grammar::specs::types::Expressions::opens_async_parenthesis))]
    pub fn opens_async_parenthesis(&self, at: usize) -> bool
        ensures { result ≡ opens_async_parenthesis (keys_of self.now.tokens.now) at }
    {
        is(TokenKind::OpenParen, self.seen_after(at, 1))
    }

    /// `(` that opens no arrow.
    #[tactic(auto, unfolding(es_grammar::specs::types::Expressions::is_no_arrow_head))]
    pub fn is_no_arrow_head(&self, at: usize) -> bool
        ensures { result ≡ is_no_arrow_head (keys_of self.now.tokens.now) at }
    {
        !self.closes_before_arrow(at)
    }

    /// `async` before `function` on its line.
    #[tactic(auto, unfolding(es_grammar::specs::types::Expressions::opens_async_function))]
    pub fn opens_async_function(&self, at: usize) -> bool
        ensures { result ≡ opens_async_function (keys_of self.now.tokens.now) at }
    {
        if !self.sees(TokenKind::AsyncWord, at) {
            return false;
        }
        let next = self.seen_after(at, 1);
        looks::is_near(next) && is(TokenKind::FunctionWord, next)
    }

    /// A `.` follows the word at this place.
    #[tactic(auto, unfolding(es_grammar::specs::types::Expressions::opens_property))]
    pub fn opens_property(&self, at: usize) -> bool
        ensures { result ≡ opens_property (keys_of self.now.tokens.now) at }
    {
        is(TokenKind::Dot, self.seen_after(at, 1))
    }

    /// `source` follows `import` and `.`.
    #[tactic(auto, unfolding(es_grammar::specs::types::Expressions::opens_source_call))]
    pub fn opens_source_call(&self, at: usize) -> bool
        ensures { result ≡ opens_source_call (keys_of self.now.tokens.now) at }
    {
        is(TokenKind::Dot, self.seen_after(at, 1))
            && is(TokenKind::SourceWord, self.seen_after(at, 2))
    }

    /// `defer` follows `import` and `.`.
    #[tactic(auto, unfolding(es_grammar::specs::types::Expressions::opens_defer_call))]
    pub fn opens_defer_call(&self, at: usize) -> bool
        ensures { result ≡ opens_defer_call (keys_of self.now.tokens.now) at }
    {
        is(TokenKind::Dot, self.seen_after(at, 1))
            && is(TokenKind::DeferWord, self.seen_after(at, 2))
    }

    /// A further argument of `import()`: a `,` that isn't the last one.
    #[tactic(auto, unfolding(es_grammar::specs::types::Expressions::has_argument))]
    pub fn has_argument(&self, at: usize) -> bool
        ensures { result ≡ has_argument (keys_of self.now.tokens.now) at }
    {
        self.sees(TokenKind::Comma, at) && !is(TokenKind::CloseParen, self.seen_after(at, 1))
    }

    /// In modules.
    #[tactic(auto, unfolding(es_grammar::specs::types::Expressions::is_module))]
    pub fn is_module(&self, context: Context, _at: usize) -> bool
        ensures { result ≡ is_module context (keys_of self.now.tokens.now) _at }
    {
        !context.script
    }

    /// In modules, and in async functions.
    #[tactic(auto, unfolding(es_grammar::specs::types::Expressions::may_await))]
    pub fn may_await(&self, context: Context, _at: usize) -> bool
        ensures { result ≡ may_await context (keys_of self.now.tokens.now) _at }
    {
        !context.script || context.in_async
    }

    /// Outside the head of a `for`.
    #[tactic(auto, unfolding(es_grammar::specs::types::Expressions::may_test))]
    pub fn may_test(&self, context: Context, _at: usize) -> bool
        ensures { result ≡ may_test context (keys_of self.now.tokens.now) _at }
    {
        !context.no_in
    }

    /// What may follow `super`.
    #[tactic(auto, unfolding(es_grammar::specs::types::Expressions::follows_super))]
    pub fn follows_super(&self, at: usize) -> bool
        ensures { result ≡ follows_super (seen (keys_of self.now.tokens.now) at) }
    {
        self.sees(TokenKind::Dot, at)
            || self.sees(TokenKind::OpenBracket, at)
            || self.sees(TokenKind::OpenParen, at)
    }

    /// A token that begins a member.
    pub fn begins_member(&self, at: usize) -> bool
        ensures { result ≡ begins_member (seen (keys_of self.now.tokens.now) at) }
    {
        looks::begins_member(self.seen(at))
    }

    /// A token that begins a further part of a chain.
    #[tactic(auto, unfolding(es_grammar::specs::types::Expressions::begins_post))]
    pub fn begins_post(&self, at: usize) -> bool
        ensures { result ≡ begins_post (seen (keys_of self.now.tokens.now) at) }
    {
        self.begins_member(at)
            || self.sees(TokenKind::OpenParen, at)
            || self.sees(TokenKind::QuestionDot, at)
    }

    /// `++` or `--` on the line of the token before it.
    #[tactic(auto, unfolding(es_grammar::specs::types::Expressions::is_update_here))]
    pub fn is_update_here(&self, at: usize) -> bool
        ensures { result ≡ is_update_here (seen (keys_of self.now.tokens.now) at) }
    {
        self.is_near(at) && self.sees_update(at)
    }

    /// Neither of them.
    #[tactic(auto, unfolding(es_grammar::specs::types::Expressions::no_update_here))]
    pub fn no_update_here(&self, at: usize) -> bool
        ensures { result ≡ no_update_here (seen (keys_of self.now.tokens.now) at) }
    {
        !self.is_update_here(at)
    }

    /// Neither `&&` nor `||`.
    #[tactic(auto, unfolding(es_grammar::specs::types::Expressions::no_mix))]
    pub fn no_mix(&self, at: usize) -> bool
        ensures { result ≡ no_mix (seen (keys_of self.now.tokens.now) at) }
    {
        !self.sees(TokenKind::AmpersandAmpersand, at) && !self.sees(TokenKind::BarBar, at)
    }

    /// An operand of `yield` begins here.
    #[tactic(auto, unfolding(es_grammar::specs::types::Expressions::is_operand))]
    pub fn is_operand(&self, at: usize) -> bool
        ensures { result ≡ is_operand (seen (keys_of self.now.tokens.now) at) }
    {
        self.is_near(at) && (self.sees(TokenKind::Star, at) || self.begins_expression(at))
    }

    /// An operator of shifts.
    #[tactic(auto, unfolding(es_grammar::specs::types::Expressions::opens_shift))]
    pub fn opens_shift(&self, at: usize) -> bool
        ensures { result ≡ opens_shift (keys_of self.now.tokens.now) at }
    {
        self.sees(TokenKind::LessLess, at) || self.opens_right_shift(at)
    }

    /// A relational operator; `in` outside the head of a `for` alone.
    #[tactic(auto, unfolding(es_grammar::specs::types::Expressions::opens_relation))]
    pub fn opens_relation(&self, context: Context, at: usize) -> bool
        ensures { result ≡ opens_relation context (keys_of self.now.tokens.now) at }
    {
        self.opens_greater(at)
            || (self.sees_relation(at) && !(context.no_in && self.sees(TokenKind::InWord, at)))
    }

    /// `[` or `{` whose closer is followed by `=`.
    #[tactic(auto, unfolding(es_grammar::specs::types::Expressions::opens_pattern))]
    pub fn opens_pattern(&self, at: usize) -> bool
        ensures { result ≡ opens_pattern (keys_of self.now.tokens.now) at }
    {
        (self.sees(TokenKind::OpenBracket, at) || self.sees(TokenKind::OpenBrace, at))
            && self.closes_before_equal(at)
    }

    /// An assignment operator.
    #[tactic(auto, unfolding(es_grammar::specs::types::Expressions::opens_assignment))]
    pub fn opens_assignment(&self, at: usize) -> bool
        ensures { result ≡ opens_assignment (keys_of self.now.tokens.now) at }
    {
        self.sees_assignment(at) || self.opens_right_assignment(at)
    }
}
