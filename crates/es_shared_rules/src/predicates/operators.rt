//! Operators that may follow an operand, by groups of levels.

ghost use Rattle.std.specs.Prelude.{◌≡◌};
ghost use Rattle.grammar_theory.specs.Key.{keys_of, seen, has_kind};
ghost use Rattle.es_grammar.specs.types.Words.{is_between};
ghost use Rattle.es_shared_rules.specs.predicates.Operators.{is_operator_word, is_arithmetic, is_comparing, is_bitwise, is_logical, is_operator};

use es_lookahead::Tokens;
use es_token::TokenKind;

/// The kind is one of those from one to another.
fn is_between(first: TokenKind, last: TokenKind, kind: TokenKind) -> bool
    ensures { result ≡ is_between first last kind }
{
    let number = kind as u8;
    first as u8 <= number && number <= last as u8
}

/// `in`, `instanceof`, `as`, `satisfies`
#[tactic(auto, unfolding(crate::specs::predicates::Operators::is_operator_word))]
fn is_operator_word(kind: TokenKind) -> bool
    ensures { result ≡ is_operator_word kind }
{
    kind == TokenKind::InWord
        || kind == TokenKind::InstanceofWord
        || kind == TokenKind::AsWord
        || kind == TokenKind::SatisfiesWord
}

/// `+`, `-`, `*`, `/` or `%` is here.
#[tactic(auto, unfolding(crate::specs::predicates::Operators::is_arithmetic, es_lookahead::specs::Sight::sight))]
pub fn opens_arithmetic(tokens: &Tokens<'_>, at: usize) -> bool
    ensures { result ≡ has_kind is_arithmetic (seen (keys_of tokens.now.tokens.now) at) }
{
    match tokens.seen(at) {
        Some(seen) => is_between(TokenKind::Plus, TokenKind::Percent, seen.kind),
        None => false,
    }
}

/// A token that may begin an operator of shifts, or of the level of `<`, is here.
#[tactic(auto, unfolding(crate::specs::predicates::Operators::is_comparing, es_lookahead::specs::Sight::sight))]
pub fn opens_comparing(tokens: &Tokens<'_>, at: usize) -> bool
    ensures { result ≡ has_kind is_comparing (seen (keys_of tokens.now.tokens.now) at) }
{
    match tokens.seen(at) {
        Some(seen) => {
            is_between(TokenKind::Less, TokenKind::StarStar, seen.kind)
                || seen.kind == TokenKind::LessLess
                || is_operator_word(seen.kind)
        }
        None => false,
    }
}

/// `&`, `|` or `^` is here.
#[tactic(auto, unfolding(crate::specs::predicates::Operators::is_bitwise, es_lookahead::specs::Sight::sight))]
pub fn opens_bitwise(tokens: &Tokens<'_>, at: usize) -> bool
    ensures { result ≡ has_kind is_bitwise (seen (keys_of tokens.now.tokens.now) at) }
{
    match tokens.seen(at) {
        Some(seen) => is_between(TokenKind::Ampersand, TokenKind::Caret, seen.kind),
        None => false,
    }
}

/// `&&`, `||` or `??` is here.
#[tactic(auto, unfolding(crate::specs::predicates::Operators::is_logical, es_lookahead::specs::Sight::sight))]
pub fn opens_logical(tokens: &Tokens<'_>, at: usize) -> bool
    ensures { result ≡ has_kind is_logical (seen (keys_of tokens.now.tokens.now) at) }
{
    match tokens.seen(at) {
        Some(seen) => {
            is_between(
                TokenKind::AmpersandAmpersand,
                TokenKind::QuestionQuestion,
                seen.kind,
            )
        }
        None => false,
    }
}

/// A token that may go on after an operand is here.
#[tactic(auto, unfolding(crate::specs::predicates::Operators::is_operator, es_lookahead::specs::Sight::sight))]
pub fn opens_operator(tokens: &Tokens<'_>, at: usize) -> bool
    ensures { result ≡ has_kind is_operator (seen (keys_of tokens.now.tokens.now) at) }
{
    match tokens.seen(at) {
        Some(seen) => {
            is_between(TokenKind::Less, TokenKind::Question, seen.kind)
                || is_between(
                    TokenKind::PlusEqual,
                    TokenKind::QuestionQuestionEqual,
                    seen.kind,
                )
                || is_operator_word(seen.kind)
        }
        None => false,
    }
}
