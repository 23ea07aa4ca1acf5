//! Tests and predicates named by a value.

use es_token::TokenKind;

/// Kinds of tokens.
#[derive(Clone, Copy)]
pub enum Kinds {
    Only(TokenKind),
    Name,
    Word,
    NameOrThis,
    Numeric,
    Sign,
    AccessorWord,
    LiteralWord,
    TypeWord,
    TypeOperator,
    Modifier,
    Separator,
}

/// A test of the next token, or of the end.
#[derive(Clone, Copy)]
pub enum Lookahead {
    Is(TokenKind),
    Other(TokenKind),
    Has(Kinds),
    Signed(TokenKind),
    Near,
    BeginsType,
    BeginsTypeParameter,
    OpensBrackets,
    OpensCondition,
    NoCondition,
    Parameter,
    HasMark,
    NoMark,
    MaySeparate,
    OpensParameters,
}

/// A predicate, which may look at any of the tokens.
#[derive(Clone, Copy)]
pub enum Predicate {
    OpensModifier,
    OpensArguments,
    NoArguments,
    OpensAngle,
    OpensValue,
    OpensConstruct,
    OpensReadonly,
    OpensIndex,
    OpensAccessor,
    OpensMethod,
    IsPropertyKey,
    OpensMapped,
    OpensThisReference,
    IsKeywordType,
    OpensOperator,
    OpensInfer,
    OpensFunction,
    OpensConstructor,
    IsLabel,
    OpensAsserts,
    OpensPredicate,
}
