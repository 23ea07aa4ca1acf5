//! Primary types.

ghost use Rattle.es_grammar.specs.types.Types.{parenthesized_type, members_type, sign_in, mapped_type, tuple_type, type_query, template_types, number_type, primary_type};
ghost use Rattle.es_grammar.specs.TypeNames.{label_name};
ghost use Rattle.es_rules.specs.Labelled.{labelled};

use crate::members::{ImportType, ListBefore, ReferenceOf, TypeIn};
use crate::predicates::Lookahead::{Has, Is, Other, Signed};
use crate::predicates::{Kinds, Predicate};
use es_grammar::{NodeKind, TypeRow};
use es_rules::{
    Alt, ByLookahead, Choose, Cursor, Done, Grammar, Greedy, LeafKind, Make, Many, OfRow, Opt,
    Pick, Punct, ReadsProduction, ReadsRhs, Rows, Tok,
};
use es_token::TokenKind;
use grammar_theory::SyntaxError;

/// '(' Type ')'
#[derive(Clone, Copy)]
pub struct ParenthesizedType;

impl ReadsProduction<TypeRow> for ParenthesizedType {
    ghost rule = { λ _. labelled label_name parenthesized_type };

    #[tactic(auto, unfolding(es_grammar::specs::types::Types::parenthesized_type))]
    fn read<T: Rows<TypeRow>>(
        &self,
        grammar: &Grammar<'_, T>,
        cursor: &mut Cursor,
    ) -> Result<usize, SyntaxError> {
        Make(
            NodeKind::ParenthesizedType,
            Punct(
                TokenKind::OpenParen,
                OfRow(TypeRow::TypeRow(true), Punct(TokenKind::CloseParen, Done)),
            ),
        )
        .read(grammar, cursor)
    }
}

/// '{' TMember* '}'
#[derive(Clone, Copy)]
pub struct MembersType;

impl ReadsProduction<TypeRow> for MembersType {
    ghost rule = { λ _. labelled label_name members_type };

    #[tactic(auto, unfolding(es_grammar::specs::types::Types::members_type))]
    fn read<T: Rows<TypeRow>>(
        &self,
        grammar: &Grammar<'_, T>,
        cursor: &mut Cursor,
    ) -> Result<usize, SyntaxError> {
        Make(
            NodeKind::MembersType,
            Punct(
                TokenKind::OpenBrace,
                Many(
                    ByLookahead(Other(TokenKind::CloseBrace)),
                    OfRow(TypeRow::MemberRow, Done),
                    Punct(TokenKind::CloseBrace, Done),
                ),
            ),
        )
        .read(grammar, cursor)
    }
}

/// ('+' | '-')?, and what follows it
#[derive(Clone, Copy)]
pub struct SignIn<N>(pub N);

impl<N: ReadsRhs<TypeRow> + Copy> ReadsRhs<TypeRow> for SignIn<N> {
    ghost form = { λ s. sign_in (N.form s.0) };

    #[tactic(auto, unfolding(es_grammar::specs::types::Types::sign_in))]
    fn read<T: Rows<TypeRow>>(
        &self,
        grammar: &Grammar<'_, T>,
        cursor: &mut Cursor,
    ) -> Result<usize, SyntaxError> {
        Opt(
            Greedy(Has(Kinds::Sign)),
            Tok(LeafKind::Kind, Kinds::Sign, Done),
            self.0,
        )
        .read(grammar, cursor)
    }
}

/// Mapped: '{' (('+' | '-')? 'readonly')? '[' Name 'in' Type ('as' Type)? ']' (('+' | '-')? '?')? (':' Type)? ';'? '}'
#[derive(Clone, Copy)]
pub struct MappedType;

impl ReadsProduction<TypeRow> for MappedType {
    ghost rule = { λ _. labelled label_name mapped_type };

    #[tactic(auto, unfolding(es_grammar::specs::types::Types::mapped_type))]
    fn read<T: Rows<TypeRow>>(
        &self,
        grammar: &Grammar<'_, T>,
        cursor: &mut Cursor,
    ) -> Result<usize, SyntaxError> {
        Make(
            NodeKind::MappedType,
            Punct(
                TokenKind::OpenBrace,
                Opt(
                    Greedy(Signed(TokenKind::ReadonlyWord)),
                    SignIn(Tok(LeafKind::There, Kinds::Only(TokenKind::ReadonlyWord), Done)),
                    Punct(
                        TokenKind::OpenBracket,
                        Tok(
                            LeafKind::Name,
                            Kinds::Name,
                            Punct(
                                TokenKind::InWord,
                                OfRow(
                                    TypeRow::TypeRow(true),
                                    Opt(
                                        Greedy(Is(TokenKind::AsWord)),
                                        Punct(
                                            TokenKind::AsWord,
                                            OfRow(TypeRow::TypeRow(true), Done),
                                        ),
                                        Punct(
                                            TokenKind::CloseBracket,
                                            Opt(
                                                Greedy(Signed(TokenKind::Question)),
                                                SignIn(Tok(
                                                    LeafKind::There,
                                                    Kinds::Only(TokenKind::Question),
                                                    Done,
                                                )),
                                                TypeIn(Opt(
                                                    Greedy(Is(TokenKind::Semicolon)),
                                                    Punct(TokenKind::Semicolon, Done),
                                                    Punct(TokenKind::CloseBrace, Done),
                                                )),
                                            ),
                                        ),
                                    ),
                                ),
                            ),
                        ),
                    ),
                ),
            ),
        )
        .read(grammar, cursor)
    }
}

/// '[' TElem% ']'
#[derive(Clone, Copy)]
pub struct TupleType;

impl ReadsProduction<TypeRow> for TupleType {
    ghost rule = { λ _. labelled label_name tuple_type };

    #[tactic(auto, unfolding(es_grammar::specs::types::Types::tuple_type))]
    fn read<T: Rows<TypeRow>>(
        &self,
        grammar: &Grammar<'_, T>,
        cursor: &mut Cursor,
    ) -> Result<usize, SyntaxError> {
        Make(
            NodeKind::TupleType,
            Punct(
                TokenKind::OpenBracket,
                ListBefore(
                    TokenKind::CloseBracket,
                    TypeRow::ElementRow,
                    Punct(TokenKind::CloseBracket, Done),
                ),
            ),
        )
        .read(grammar, cursor)
    }
}

/// 'typeof' (Ref | ImportT)
#[derive(Clone, Copy)]
pub struct TypeQuery;

impl ReadsProduction<TypeRow> for TypeQuery {
    ghost rule = { λ _. labelled label_name type_query };

    #[tactic(auto, unfolding(es_grammar::specs::types::Types::type_query))]
    fn read<T: Rows<TypeRow>>(
        &self,
        grammar: &Grammar<'_, T>,
        cursor: &mut Cursor,
    ) -> Result<usize, SyntaxError> {
        Make(
            NodeKind::TypeQuery,
            Punct(
                TokenKind::TypeofWord,
                Alt(
                    Is(TokenKind::ImportWord),
                    OfRow(TypeRow::ImportRow, Done),
                    OfRow(TypeRow::ReferenceRow, Done),
                    Done,
                ),
            ),
        )
        .read(grammar, cursor)
    }
}

/// TTpl: head Type (middle Type)* tail
#[derive(Clone, Copy)]
pub struct TemplateTypes;

impl ReadsProduction<TypeRow> for TemplateTypes {
    ghost rule = { λ _. labelled label_name template_types };

    #[tactic(auto, unfolding(es_grammar::specs::types::Types::template_types))]
    fn read<T: Rows<TypeRow>>(
        &self,
        grammar: &Grammar<'_, T>,
        cursor: &mut Cursor,
    ) -> Result<usize, SyntaxError> {
        Make(
            NodeKind::TemplateTypes,
            Tok(
                LeafKind::Raw,
                Kinds::Only(TokenKind::TemplateHead),
                OfRow(
                    TypeRow::TypeRow(true),
                    Many(
                        Greedy(Is(TokenKind::TemplateMiddle)),
                        Tok(
                            LeafKind::Raw,
                            Kinds::Only(TokenKind::TemplateMiddle),
                            OfRow(TypeRow::TypeRow(true), Done),
                        ),
                        Tok(LeafKind::Raw, Kinds::Only(TokenKind::TemplateTail), Done),
                    ),
                ),
            ),
        )
        .read(grammar, cursor)
    }
}

/// '-'? (Number | BigInt)
#[derive(Clone, Copy)]
pub struct NumberType;

impl ReadsProduction<TypeRow> for NumberType {
    ghost rule = { λ _. labelled label_name number_type };

    #[tactic(auto, unfolding(es_grammar::specs::types::Types::number_type))]
    fn read<T: Rows<TypeRow>>(
        &self,
        grammar: &Grammar<'_, T>,
        cursor: &mut Cursor,
    ) -> Result<usize, SyntaxError> {
        Make(
            NodeKind::NumberType,
            Opt(
                Greedy(Is(TokenKind::Minus)),
                Tok(LeafKind::There, Kinds::Only(TokenKind::Minus), Done),
                Tok(LeafKind::Raw, Kinds::Numeric, Done),
            ),
        )
        .read(grammar, cursor)
    }
}

/// TPrim: keyword type | 'this' | literal | TTpl | Ref | 'typeof' .. | ImportT | '(' .. ')' | '{' .. '}' | '[' .. ']' | Mapped
#[derive(Clone, Copy)]
pub struct PrimaryType;

impl ReadsProduction<TypeRow> for PrimaryType {
    ghost rule = { λ _. labelled label_name primary_type };

    #[tactic(auto, unfolding(es_grammar::specs::types::Types::primary_type))]
    fn read<T: Rows<TypeRow>>(
        &self,
        grammar: &Grammar<'_, T>,
        cursor: &mut Cursor,
    ) -> Result<usize, SyntaxError> {
        Choose(
            Is(TokenKind::OpenParen),
            ParenthesizedType,
            Choose(
                Is(TokenKind::OpenBrace),
                Pick(Predicate::OpensMapped, MappedType, MembersType),
                Choose(
                    Is(TokenKind::OpenBracket),
                    TupleType,
                    Choose(
                        Is(TokenKind::TypeofWord),
                        TypeQuery,
                        Choose(
                            Is(TokenKind::ImportWord),
                            ImportType,
                            Choose(
                                Is(TokenKind::ThisWord),
                                Pick(
                                    Predicate::OpensThisReference,
                                    ReferenceOf(Kinds::Only(TokenKind::ThisWord)),
                                    Make(
                                        NodeKind::ThisType,
                                        Tok(
                                            LeafKind::There,
                                            Kinds::Only(TokenKind::ThisWord),
                                            Done,
                                        ),
                                    ),
                                ),
                                Choose(
                                    Has(Kinds::Name),
                                    Pick(
                                        Predicate::IsKeywordType,
                                        Make(
                                            NodeKind::KeywordType,
                                            Tok(LeafKind::Kind, Kinds::TypeWord, Done),
                                        ),
                                        ReferenceOf(Kinds::Name),
                                    ),
                                    Choose(
                                        Is(TokenKind::Str),
                                        Make(
                                            NodeKind::StrType,
                                            Tok(LeafKind::Str, Kinds::Only(TokenKind::Str), Done),
                                        ),
                                        Choose(
                                            Is(TokenKind::TemplateWhole),
                                            Make(
                                                NodeKind::TemplateType,
                                                Tok(
                                                    LeafKind::Raw,
                                                    Kinds::Only(TokenKind::TemplateWhole),
                                                    Done,
                                                ),
                                            ),
                                            Choose(
                                                Is(TokenKind::TemplateHead),
                                                TemplateTypes,
                                                Choose(
                                                    Has(Kinds::LiteralWord),
                                                    Make(
                                                        NodeKind::WordType,
                                                        Tok(
                                                            LeafKind::Kind,
                                                            Kinds::LiteralWord,
                                                            Done,
                                                        ),
                                                    ),
                                                    NumberType,
                                                ),
                                            ),
                                        ),
                                    ),
                                ),
                            ),
                        ),
                    ),
                ),
            ),
        )
        .read(grammar, cursor)
    }
}
