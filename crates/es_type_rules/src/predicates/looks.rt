//! Tests of what is seen of the next token, or of the end.

ghost use Rattle.std.specs.Prelude.{◌≡◌};
ghost use Rattle.grammar_theory.specs.Key.{has_kind, is, is_end, is_after_line};
ghost use Rattle.es_grammar.specs.types.Words.{is_near, begins_key};
ghost use Rattle.es_grammar.specs.types.TypeNames.{begins_type_parameter};
ghost use Rattle.es_grammar.specs.types.Parameters.{is_parameter, has_mark};
ghost use Rattle.es_grammar.specs.types.Members.{may_separate, opens_parameters};
ghost use Rattle.es_grammar.specs.types.Types.{begins_type, begins_signed, opens_brackets, opens_condition, follows_parameter, is_asserted_name};
ghost use Rattle.es_lookahead.specs.Sight.{sight};
ghost use Rattle.es_type_rules.specs.predicates.Named.{kinds_of, lookahead_of};

use crate::predicates::kinds::is_of;
use crate::predicates::named::{Kinds, Lookahead};
use es_lookahead::Seen;
use es_token::TokenKind;

/// The next token is of this kind.
#[tactic(auto, unfolding(es_lookahead::specs::Sight::sight))]
pub fn is(kind: TokenKind, next: Option<Seen>) -> bool
    ensures { result ≡ is kind (sight next) }
{
    match next {
        Some(seen) => seen.kind == kind,
        None => false,
    }
}

/// The next token is of one of these kinds.
#[tactic(auto, unfolding(es_lookahead::specs::Sight::sight))]
pub fn has(kinds: Kinds, next: Option<Seen>) -> bool
    ensures { result ≡ has_kind (kinds_of kinds) (sight next) }
{
    match next {
        Some(seen) => is_of(kinds, seen.kind),
        None => false,
    }
}

/// There is no next token.
#[tactic(auto, unfolding(es_lookahead::specs::Sight::sight))]
fn is_end(next: Option<Seen>) -> bool
    ensures { result ≡ is_end (sight next) }
{
    match next {
        Some(_seen) => false,
        None => true,
    }
}

/// A line end precedes the next token.
#[tactic(auto, unfolding(es_lookahead::specs::Sight::sight))]
fn is_after_line(next: Option<Seen>) -> bool
    ensures { result ≡ is_after_line (sight next) }
{
    match next {
        Some(seen) => seen.line_before,
        None => false,
    }
}

/// ~: on the line of the token before it.
#[tactic(auto, unfolding(es_grammar::specs::types::Words::is_near))]
pub fn is_near(next: Option<Seen>) -> bool
    ensures { result ≡ is_near (sight next) }
{
    !is_after_line(next)
}

/// A token that can begin a key.
#[tactic(auto, unfolding(es_grammar::specs::types::Words::begins_key))]
pub fn begins_key(next: Option<Seen>) -> bool
    ensures { result ≡ begins_key (sight next) }
{
    has(Kinds::Word, next)
        || is(TokenKind::Str, next)
        || has(Kinds::Numeric, next)
        || is(TokenKind::OpenBracket, next)
}

/// A token that can begin a type.
#[tactic(auto, unfolding(es_grammar::specs::types::Types::begins_type))]
pub fn begins_type(next: Option<Seen>) -> bool
    ensures { result ≡ begins_type (sight next) }
{
    has(Kinds::NameOrThis, next)
        || is(TokenKind::OpenParen, next)
        || is(TokenKind::OpenBrace, next)
        || is(TokenKind::OpenBracket, next)
        || is(TokenKind::Less, next)
        || is(TokenKind::NewWord, next)
        || is(TokenKind::Bar, next)
        || is(TokenKind::Ampersand, next)
        || has(Kinds::LiteralWord, next)
        || is(TokenKind::Str, next)
        || is(TokenKind::Minus, next)
        || has(Kinds::Numeric, next)
        || is(TokenKind::TemplateWhole, next)
        || is(TokenKind::TemplateHead, next)
        || is(TokenKind::TypeofWord, next)
        || is(TokenKind::ImportWord, next)
}

/// A sign or this token.
#[tactic(auto, unfolding(es_grammar::specs::types::Types::begins_signed))]
fn begins_signed(kind: TokenKind, next: Option<Seen>) -> bool
    ensures { result ≡ begins_signed kind (sight next) }
{
    has(Kinds::Sign, next) || is(kind, next)
}

/// `const`, `in`, or a name.
#[tactic(auto, unfolding(es_grammar::specs::types::TypeNames::begins_type_parameter))]
fn begins_type_parameter(next: Option<Seen>) -> bool
    ensures { result ≡ begins_type_parameter (sight next) }
{
    is(TokenKind::ConstWord, next) || is(TokenKind::InWord, next) || has(Kinds::Name, next)
}

/// `[` on the line of the token before it.
#[tactic(auto, unfolding(es_grammar::specs::types::Types::opens_brackets))]
fn opens_brackets(next: Option<Seen>) -> bool
    ensures { result ≡ opens_brackets (sight next) }
{
    is_near(next) && is(TokenKind::OpenBracket, next)
}

/// `extends` on the line of the token before it.
#[tactic(auto, unfolding(es_grammar::specs::types::Types::opens_condition))]
fn opens_condition(next: Option<Seen>) -> bool
    ensures { result ≡ opens_condition (sight next) }
{
    is_near(next) && is(TokenKind::ExtendsWord, next)
}

/// A parameter begins here: neither `)` nor `...`.
#[tactic(auto, unfolding(es_grammar::specs::types::Parameters::is_parameter))]
fn is_parameter(next: Option<Seen>) -> bool
    ensures { result ≡ is_parameter (sight next) }
{
    !is(TokenKind::CloseParen, next) && !is(TokenKind::Ellipsis, next)
}

/// `?` or `:`
#[tactic(auto, unfolding(es_grammar::specs::types::Parameters::has_mark))]
fn has_mark(next: Option<Seen>) -> bool
    ensures { result ≡ has_mark (sight next) }
{
    is(TokenKind::Question, next) || is(TokenKind::Colon, next)
}

/// Before SEP: `;` or `,`, or `}`, or a token on a new line.
#[tactic(auto, unfolding(es_grammar::specs::types::Members::may_separate))]
fn may_separate(next: Option<Seen>) -> bool
    ensures { result ≡ may_separate (sight next) }
{
    has(Kinds::Separator, next) || is(TokenKind::CloseBrace, next) || is_after_line(next)
}

/// `(` or `<`
#[tactic(auto, unfolding(es_grammar::specs::types::Members::opens_parameters))]
pub fn opens_parameters(next: Option<Seen>) -> bool
    ensures { result ≡ opens_parameters (sight next) }
{
    is(TokenKind::OpenParen, next) || is(TokenKind::Less, next)
}

/// What may follow the name or the pattern of a parameter.
#[tactic(auto, unfolding(es_grammar::specs::types::Types::follows_parameter))]
pub fn follows_parameter(next: Option<Seen>) -> bool
    ensures { result ≡ follows_parameter (sight next) }
{
    is(TokenKind::Colon, next)
        || is(TokenKind::Comma, next)
        || is(TokenKind::Question, next)
        || is(TokenKind::Equal, next)
        || is(TokenKind::CloseParen, next)
}

/// Behind `is`: what makes it the name that is asserted.
#[tactic(auto, unfolding(es_grammar::specs::types::Types::is_asserted_name))]
pub fn is_asserted_name(next: Option<Seen>) -> bool
    ensures { result ≡ is_asserted_name (sight next) }
{
    is_end(next)
        || is_after_line(next)
        || is(TokenKind::OpenBrace, next)
        || is(TokenKind::IsWord, next)
        || !begins_type(next)
}

/// What the test that is named says of the next token.
#[tactic(auto, unfolding(es_grammar::specs::types::Types::no_condition, es_grammar::specs::types::Parameters::no_mark))]
pub fn looks(lookahead: Lookahead, next: Option<Seen>) -> bool
    ensures { result ≡ lookahead_of lookahead (sight next) }
{
    match lookahead {
        Lookahead::Is(kind) => is(kind, next),
        Lookahead::Other(kind) => !is(kind, next),
        Lookahead::Has(kinds) => has(kinds, next),
        Lookahead::Signed(kind) => begins_signed(kind, next),
        Lookahead::Near => is_near(next),
        Lookahead::BeginsType => begins_type(next),
        Lookahead::BeginsTypeParameter => begins_type_parameter(next),
        Lookahead::OpensBrackets => opens_brackets(next),
        Lookahead::OpensCondition => opens_condition(next),
        Lookahead::NoCondition => !opens_condition(next),
        Lookahead::Parameter => is_parameter(next),
        Lookahead::HasMark => has_mark(next),
        Lookahead::NoMark => !has_mark(next),
        Lookahead::MaySeparate => may_separate(next),
        Lookahead::OpensParameters => opens_parameters(next),
    }
}
