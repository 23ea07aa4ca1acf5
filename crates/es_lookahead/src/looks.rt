//! Tests of what is seen of the next token, or of the end.

ghost use Rattle.std.specs.Prelude.{◌≡◌};
ghost use Rattle.grammar_theory.specs.Key.{has_kind, is, is_end, is_token, is_after_line};
ghost use Rattle.es_grammar.specs.types.Words.{is_name, is_word, is_numeric, is_accessor_word, is_near, begins_key};
ghost use Rattle.es_grammar.specs.types.Modules.{may_end};
ghost use Rattle.es_grammar.specs.types.Expressions.{is_prefix, is_update, is_product, is_sum, is_equality, is_relation, is_assignment, is_arrow, begins_expression, begins_member};
ghost use Rattle.es_grammar.specs.types.Functions.{follows_pattern, starts_key};
ghost use Rattle.es_grammar.specs.types.Statements.{is_variable_word, is_each, is_case};
ghost use Rattle.es_lookahead.specs.Sight.{sight};

use crate::kinds;
use es_token::TokenKind;

/// What a test of one token looks at.
#[derive(Clone, Copy)]
pub struct Seen {
    pub kind: TokenKind,
    /// Whether a line end precedes the token.
    pub line_before: bool,
}

/// The next token is of this kind.
#[tactic(auto, unfolding(crate::specs::Sight::sight))]
pub fn is(kind: TokenKind, next: Option<Seen>) -> bool
    ensures { result ≡ is kind (sight next) }
{
    match next {
        Some(seen) => seen.kind == kind,
        None => false,
    }
}

/// There is no next token.
#[tactic(auto, unfolding(crate::specs::Sight::sight))]
pub fn is_end(next: Option<Seen>) -> bool
    ensures { result ≡ is_end (sight next) }
{
    match next {
        Some(_seen) => false,
        None => true,
    }
}

/// There is a next token.
#[tactic(auto, unfolding(crate::specs::Sight::sight))]
pub fn is_token(next: Option<Seen>) -> bool
    ensures { result ≡ is_token (sight next) }
{
    match next {
        Some(_seen) => true,
        None => false,
    }
}

/// A line end precedes the next token.
#[tactic(auto, unfolding(crate::specs::Sight::sight))]
pub fn is_after_line(next: Option<Seen>) -> bool
    ensures { result ≡ is_after_line (sight next) }
{
    match next {
        Some(seen) => seen.line_before,
        None => false,
    }
}

/// ~: on the line of the token before it.
#[tactic(auto, unfolding(es_grammar::specs::types::Words::is_near))]
pub fn is_near(next: Option<Seen>) -> bool
    ensures { result ≡ is_near (sight next) }
{
    !is_after_line(next)
}

/// A name.
#[tactic(auto, unfolding(crate::specs::Sight::sight))]
pub fn has_name(next: Option<Seen>) -> bool
    ensures { result ≡ has_kind is_name (sight next) }
{
    match next {
        Some(seen) => kinds::is_name(seen.kind),
        None => false,
    }
}

/// A word.
#[tactic(auto, unfolding(crate::specs::Sight::sight))]
pub fn has_word(next: Option<Seen>) -> bool
    ensures { result ≡ has_kind is_word (sight next) }
{
    match next {
        Some(seen) => kinds::is_word(seen.kind),
        None => false,
    }
}

/// A number or a bigint.
#[tactic(auto, unfolding(crate::specs::Sight::sight))]
pub fn has_numeric(next: Option<Seen>) -> bool
    ensures { result ≡ has_kind is_numeric (sight next) }
{
    match next {
        Some(seen) => kinds::is_numeric(seen.kind),
        None => false,
    }
}

/// `get` or `set`
#[tactic(auto, unfolding(crate::specs::Sight::sight))]
pub fn has_accessor_word(next: Option<Seen>) -> bool
    ensures { result ≡ has_kind is_accessor_word (sight next) }
{
    match next {
        Some(seen) => kinds::is_accessor_word(seen.kind),
        None => false,
    }
}

/// An operator before its operand.
#[tactic(auto, unfolding(crate::specs::Sight::sight))]
pub fn has_prefix(next: Option<Seen>) -> bool
    ensures { result ≡ has_kind is_prefix (sight next) }
{
    match next {
        Some(seen) => kinds::is_prefix(seen.kind),
        None => false,
    }
}

/// `++` or `--`
#[tactic(auto, unfolding(crate::specs::Sight::sight))]
pub fn has_update(next: Option<Seen>) -> bool
    ensures { result ≡ has_kind is_update (sight next) }
{
    match next {
        Some(seen) => kinds::is_update(seen.kind),
        None => false,
    }
}

/// `*`, `/`, `%`
#[tactic(auto, unfolding(crate::specs::Sight::sight))]
pub fn has_product(next: Option<Seen>) -> bool
    ensures { result ≡ has_kind is_product (sight next) }
{
    match next {
        Some(seen) => kinds::is_product(seen.kind),
        None => false,
    }
}

/// `+` or `-` between operands
#[tactic(auto, unfolding(crate::specs::Sight::sight))]
pub fn has_sum(next: Option<Seen>) -> bool
    ensures { result ≡ has_kind is_sum (sight next) }
{
    match next {
        Some(seen) => kinds::is_sum(seen.kind),
        None => false,
    }
}

/// An equality operator.
#[tactic(auto, unfolding(crate::specs::Sight::sight))]
pub fn has_equality(next: Option<Seen>) -> bool
    ensures { result ≡ has_kind is_equality (sight next) }
{
    match next {
        Some(seen) => kinds::is_equality(seen.kind),
        None => false,
    }
}

/// A relational operator of one token.
#[tactic(auto, unfolding(crate::specs::Sight::sight))]
pub fn has_relation(next: Option<Seen>) -> bool
    ensures { result ≡ has_kind is_relation (sight next) }
{
    match next {
        Some(seen) => kinds::is_relation(seen.kind),
        None => false,
    }
}

/// An assignment operator of one token.
#[tactic(auto, unfolding(crate::specs::Sight::sight))]
pub fn has_assignment(next: Option<Seen>) -> bool
    ensures { result ≡ has_kind is_assignment (sight next) }
{
    match next {
        Some(seen) => kinds::is_assignment(seen.kind),
        None => false,
    }
}

/// `var`, `let`, `const`
#[tactic(auto, unfolding(crate::specs::Sight::sight))]
pub fn has_variable_word(next: Option<Seen>) -> bool
    ensures { result ≡ has_kind is_variable_word (sight next) }
{
    match next {
        Some(seen) => kinds::is_variable_word(seen.kind),
        None => false,
    }
}

/// A token that can begin the key of a property.
#[tactic(auto, unfolding(es_grammar::specs::types::Words::begins_key))]
pub fn begins_key(next: Option<Seen>) -> bool
    ensures { result ≡ begins_key (sight next) }
{
    has_word(next)
        || is(TokenKind::Str, next)
        || has_numeric(next)
        || is(TokenKind::OpenBracket, next)
}

/// A token that can begin a key, in classes a private one too.
pub fn starts_key(private: bool, next: Option<Seen>) -> bool
    ensures { result ≡ starts_key private (sight next) }
{
    if private {
        is(TokenKind::PrivateName, next) || begins_key(next)
    } else {
        begins_key(next)
    }
}

/// Before END: a `;`, or `}`, or the end, or a token on a new line.
#[tactic(auto, unfolding(es_grammar::specs::types::Modules::may_end))]
pub fn may_end(next: Option<Seen>) -> bool
    ensures { result ≡ may_end (sight next) }
{
    is(TokenKind::Semicolon, next)
        || is(TokenKind::CloseBrace, next)
        || is_end(next)
        || is_after_line(next)
}

/// `=>` on its line.
#[tactic(auto, unfolding(es_grammar::specs::types::Expressions::is_arrow))]
pub fn is_arrow(next: Option<Seen>) -> bool
    ensures { result ≡ is_arrow (sight next) }
{
    is_near(next) && is(TokenKind::Arrow, next)
}

/// `of` or `in`
#[tactic(auto, unfolding(es_grammar::specs::types::Statements::is_each))]
pub fn is_each(next: Option<Seen>) -> bool
    ensures { result ≡ is_each (sight next) }
{
    is(TokenKind::OfWord, next) || is(TokenKind::InWord, next)
}

/// A clause of `switch` begins here.
#[tactic(auto, unfolding(es_grammar::specs::types::Statements::is_case))]
pub fn is_case(next: Option<Seen>) -> bool
    ensures { result ≡ is_case (sight next) }
{
    is(TokenKind::CaseWord, next) || is(TokenKind::DefaultWord, next)
}

/// What may follow a pattern inside a pattern that is assigned to.
#[tactic(auto, unfolding(es_grammar::specs::types::Functions::follows_pattern))]
pub fn follows_pattern(next: Option<Seen>) -> bool
    ensures { result ≡ follows_pattern (sight next) }
{
    is(TokenKind::Equal, next)
        || is(TokenKind::Comma, next)
        || is(TokenKind::CloseBracket, next)
        || is(TokenKind::CloseBrace, next)
}

/// A token that begins a member.
#[tactic(auto, unfolding(es_grammar::specs::types::Expressions::begins_member))]
pub fn begins_member(next: Option<Seen>) -> bool
    ensures { result ≡ begins_member (sight next) }
{
    is(TokenKind::Dot, next)
        || is(TokenKind::OpenBracket, next)
        || is(TokenKind::TemplateWhole, next)
        || is(TokenKind::TemplateHead, next)
}

/// A token that begins an expression.
#[tactic(auto, unfolding(es_grammar::specs::types::Expressions::begins_expression))]
pub fn begins_expression(next: Option<Seen>) -> bool
    ensures { result ≡ begins_expression (sight next) }
{
    has_name(next)
        || has_numeric(next)
        || is(TokenKind::Str, next)
        || is(TokenKind::RegExp, next)
        || is(TokenKind::TemplateWhole, next)
        || is(TokenKind::TemplateHead, next)
        || is(TokenKind::OpenParen, next)
        || is(TokenKind::OpenBracket, next)
        || is(TokenKind::OpenBrace, next)
        || is(TokenKind::ThisWord, next)
        || is(TokenKind::NullWord, next)
        || is(TokenKind::TrueWord, next)
        || is(TokenKind::FalseWord, next)
        || is(TokenKind::FunctionWord, next)
        || is(TokenKind::ClassWord, next)
        || is(TokenKind::SuperWord, next)
        || is(TokenKind::ImportWord, next)
        || is(TokenKind::NewWord, next)
        || has_prefix(next)
        || has_update(next)
        || is(TokenKind::AwaitWord, next)
        || is(TokenKind::YieldWord, next)
        || is(TokenKind::PrivateName, next)
}
