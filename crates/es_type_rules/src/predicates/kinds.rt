//! Tests of the kind of a token.

ghost use Rattle.std.specs.Prelude.{◌≡◌};
ghost use Rattle.es_grammar.specs.types.Words.{is_sign};
ghost use Rattle.es_grammar.specs.types.TypeNames.{is_modifier};
ghost use Rattle.es_grammar.specs.types.Members.{is_separator};
ghost use Rattle.es_grammar.specs.types.Types.{is_literal_word, is_type_word, is_type_operator};
ghost use Rattle.es_type_rules.specs.predicates.Named.{kinds_of};

use crate::predicates::named::Kinds;
use es_lookahead::{Kinds as Plain, is_of as is_plain};
use es_token::TokenKind;

/// `+` or `-`
#[tactic(auto, unfolding(es_grammar::specs::types::Words::is_sign))]
fn is_sign(kind: TokenKind) -> bool
    ensures { result ≡ is_sign kind }
{
    kind == TokenKind::Plus || kind == TokenKind::Minus
}

/// `null`, `void`, `true`, `false`
#[tactic(auto, unfolding(es_grammar::specs::types::Types::is_literal_word))]
fn is_literal_word(kind: TokenKind) -> bool
    ensures { result ≡ is_literal_word kind }
{
    kind == TokenKind::NullWord
        || kind == TokenKind::VoidWord
        || kind == TokenKind::TrueWord
        || kind == TokenKind::FalseWord
}

/// A word of a keyword type.
#[tactic(auto, unfolding(es_grammar::specs::types::Types::is_type_word))]
fn is_type_word(kind: TokenKind) -> bool
    ensures { result ≡ is_type_word kind }
{
    kind == TokenKind::AnyWord
        || kind == TokenKind::UnknownWord
        || kind == TokenKind::NeverWord
        || kind == TokenKind::UndefinedWord
        || kind == TokenKind::StringWord
        || kind == TokenKind::NumberWord
        || kind == TokenKind::BooleanWord
        || kind == TokenKind::BigintWord
        || kind == TokenKind::SymbolWord
        || kind == TokenKind::ObjectWord
}

/// `keyof`, `unique`, `readonly`
#[tactic(auto, unfolding(es_grammar::specs::types::Types::is_type_operator))]
fn is_type_operator(kind: TokenKind) -> bool
    ensures { result ≡ is_type_operator kind }
{
    kind == TokenKind::KeyofWord || kind == TokenKind::UniqueWord || kind == TokenKind::ReadonlyWord
}

/// `const`, `in`, `out`
#[tactic(auto, unfolding(es_grammar::specs::types::TypeNames::is_modifier))]
fn is_modifier(kind: TokenKind) -> bool
    ensures { result ≡ is_modifier kind }
{
    kind == TokenKind::ConstWord || kind == TokenKind::InWord || kind == TokenKind::OutWord
}

/// `;` or `,`
#[tactic(auto, unfolding(es_grammar::specs::types::Members::is_separator))]
fn is_separator(kind: TokenKind) -> bool
    ensures { result ≡ is_separator kind }
{
    kind == TokenKind::Semicolon || kind == TokenKind::Comma
}

/// The kind is one of these.
pub fn is_of(named: Kinds, kind: TokenKind) -> bool
    ensures { result ≡ kinds_of named kind }
{
    match named {
        Kinds::Only(other) => kind == other,
        Kinds::Name => is_plain(Plain::Name, kind),
        Kinds::Word => is_plain(Plain::Word, kind),
        Kinds::NameOrThis => is_plain(Plain::NameOrThis, kind),
        Kinds::Numeric => is_plain(Plain::Numeric, kind),
        Kinds::Sign => is_sign(kind),
        Kinds::AccessorWord => is_plain(Plain::AccessorWord, kind),
        Kinds::LiteralWord => is_literal_word(kind),
        Kinds::TypeWord => is_type_word(kind),
        Kinds::TypeOperator => is_type_operator(kind),
        Kinds::Modifier => is_modifier(kind),
        Kinds::Separator => is_separator(kind),
    }
}
