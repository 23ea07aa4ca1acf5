//! Patterns of parameters.

ghost use Rattle.es_grammar.specs.types.Parameters.{array_pattern, object_pattern, pattern, pattern_element, pattern_key, pattern_property};
ghost use Rattle.es_grammar.specs.TypeNames.{label_name};
ghost use Rattle.es_rules.specs.Labelled.{labelled};

use crate::members::parameters::ListBefore;
use crate::predicates::Lookahead::{Has, Is, Other};
use crate::predicates::{Kinds, Predicate};
use es_grammar::{NodeKind, TypeRow};
use es_rules::{
    Alt, ByLookahead, Choose, Cursor, Done, Grammar, Greedy, LeafKind, Make, Many, OfRow, Opt,
    Pick, Punct, ReadsProduction, Rows, Tok,
};
use es_token::TokenKind;
use grammar_theory::SyntaxError;

/// '[' (PElem? ',')* PElem? ']'
#[derive(Clone, Copy)]
pub struct ArrayPattern;

impl ReadsProduction<TypeRow> for ArrayPattern {
    ghost rule = { λ _. labelled label_name array_pattern };

    #[tactic(auto, unfolding(es_grammar::specs::types::Parameters::array_pattern))]
    fn read<T: Rows<TypeRow>>(
        &self,
        grammar: &Grammar<'_, T>,
        cursor: &mut Cursor,
    ) -> Result<usize, SyntaxError> {
        Make(
            NodeKind::ArrayPatternOfType,
            Punct(
                TokenKind::OpenBracket,
                Many(
                    ByLookahead(Other(TokenKind::CloseBracket)),
                    Alt(
                        Is(TokenKind::Comma),
                        Punct(TokenKind::Comma, Done),
                        OfRow(
                            TypeRow::PatternElementRow,
                            Opt(
                                Greedy(Other(TokenKind::CloseBracket)),
                                Punct(TokenKind::Comma, Done),
                                Done,
                            ),
                        ),
                        Done,
                    ),
                    Punct(TokenKind::CloseBracket, Done),
                ),
            ),
        )
        .read(grammar, cursor)
    }
}

/// '{' PProp% '}'
#[derive(Clone, Copy)]
pub struct ObjectPattern;

impl ReadsProduction<TypeRow> for ObjectPattern {
    ghost rule = { λ _. labelled label_name object_pattern };

    #[tactic(auto, unfolding(es_grammar::specs::types::Parameters::object_pattern))]
    fn read<T: Rows<TypeRow>>(
        &self,
        grammar: &Grammar<'_, T>,
        cursor: &mut Cursor,
    ) -> Result<usize, SyntaxError> {
        Make(
            NodeKind::ObjectPatternOfType,
            Punct(
                TokenKind::OpenBrace,
                ListBefore(
                    TokenKind::CloseBrace,
                    TypeRow::PatternPropertyRow,
                    Punct(TokenKind::CloseBrace, Done),
                ),
            ),
        )
        .read(grammar, cursor)
    }
}

/// Pat: Name | '[' .. ']' | '{' .. '}'
#[derive(Clone, Copy)]
pub struct Pattern;

impl ReadsProduction<TypeRow> for Pattern {
    ghost rule = { λ _. labelled label_name pattern };

    #[tactic(auto, unfolding(es_grammar::specs::types::Parameters::pattern, es_grammar::specs::types::Parameters::name_pattern))]
    fn read<T: Rows<TypeRow>>(
        &self,
        grammar: &Grammar<'_, T>,
        cursor: &mut Cursor,
    ) -> Result<usize, SyntaxError> {
        Choose(
            Is(TokenKind::OpenBracket),
            ArrayPattern,
            Choose(
                Is(TokenKind::OpenBrace),
                ObjectPattern,
                Make(
                    NodeKind::NamePatternOfType,
                    Tok(LeafKind::Name, Kinds::Name, Done),
                ),
            ),
        )
        .read(grammar, cursor)
    }
}

/// PElem: '...' Pat | Pat
#[derive(Clone, Copy)]
pub struct PatternElement;

impl ReadsProduction<TypeRow> for PatternElement {
    ghost rule = { λ _. labelled label_name pattern_element };

    #[tactic(auto, unfolding(es_grammar::specs::types::Parameters::pattern_element))]
    fn read<T: Rows<TypeRow>>(
        &self,
        grammar: &Grammar<'_, T>,
        cursor: &mut Cursor,
    ) -> Result<usize, SyntaxError> {
        Choose(
            Is(TokenKind::Ellipsis),
            Make(
                NodeKind::RestPatternOfType,
                Punct(TokenKind::Ellipsis, OfRow(TypeRow::PatternRow, Done)),
            ),
            Pattern,
        )
        .read(grammar, cursor)
    }
}

/// Key: Word | Str | Number | BigInt
#[derive(Clone, Copy)]
pub struct PatternKey;

impl ReadsProduction<TypeRow> for PatternKey {
    ghost rule = { λ _. labelled label_name pattern_key };

    #[tactic(auto, unfolding(es_grammar::specs::types::Parameters::pattern_key))]
    fn read<T: Rows<TypeRow>>(
        &self,
        grammar: &Grammar<'_, T>,
        cursor: &mut Cursor,
    ) -> Result<usize, SyntaxError> {
        Choose(
            Has(Kinds::Word),
            Make(
                NodeKind::WordPatternKey,
                Tok(LeafKind::Name, Kinds::Word, Done),
            ),
            Choose(
                Is(TokenKind::Str),
                Make(
                    NodeKind::StrPatternKey,
                    Tok(LeafKind::Str, Kinds::Only(TokenKind::Str), Done),
                ),
                Make(
                    NodeKind::NumberPatternKey,
                    Tok(LeafKind::Raw, Kinds::Numeric, Done),
                ),
            ),
        )
        .read(grammar, cursor)
    }
}

/// PProp: '...' Pat | Key ':' Pat | Name
#[derive(Clone, Copy)]
pub struct PatternProperty;

impl ReadsProduction<TypeRow> for PatternProperty {
    ghost rule = { λ _. labelled label_name pattern_property };

    #[tactic(auto, unfolding(es_grammar::specs::types::Parameters::pattern_property))]
    fn read<T: Rows<TypeRow>>(
        &self,
        grammar: &Grammar<'_, T>,
        cursor: &mut Cursor,
    ) -> Result<usize, SyntaxError> {
        Choose(
            Is(TokenKind::Ellipsis),
            Make(
                NodeKind::RestPropertyOfType,
                Punct(TokenKind::Ellipsis, OfRow(TypeRow::PatternRow, Done)),
            ),
            Pick(
                Predicate::OpensValue,
                Make(
                    NodeKind::KeyProperty,
                    OfRow(
                        TypeRow::PatternKeyRow,
                        Punct(TokenKind::Colon, OfRow(TypeRow::PatternRow, Done)),
                    ),
                ),
                Make(
                    NodeKind::NamePropertyOfType,
                    Tok(LeafKind::Name, Kinds::Name, Done),
                ),
            ),
        )
        .read(grammar, cursor)
    }
}
