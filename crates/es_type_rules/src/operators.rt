//! Types by their operators.

ghost use Rattle.es_grammar.specs.types.Types.{brackets_in, array_types, operand_type, operands_in, intersection_type, union_type, conditional_type, function_type, constructor_type, any_type};
ghost use Rattle.es_grammar.specs.TypeNames.{label_name};
ghost use Rattle.es_rules.specs.Labelled.{labelled};

use crate::members::ParametersIn;
use crate::predicates::Lookahead::Is;
use crate::predicates::{Kinds, Lookahead, Predicate};
use crate::primary::PrimaryType;
use es_grammar::{NodeKind, TypeRow};
use es_rules::{
    Choose, Cursor, Done, Grammar, Greedy, LeafKind, Make, Many, OfRow, Opt, Pick, Punct,
    ReadsProduction, ReadsRhs, Rows, Tok, When, Wrap,
};
use es_token::TokenKind;
use grammar_theory::SyntaxError;

/// ~ '[' Type? ']', and what follows it
#[derive(Clone, Copy)]
pub struct BracketsIn<N>(pub N);

impl<N: ReadsRhs<TypeRow> + Copy> ReadsRhs<TypeRow> for BracketsIn<N> {
    ghost form = { λ s. brackets_in (N.form s.0) };

    #[tactic(auto, unfolding(es_grammar::specs::types::Types::brackets_in))]
    fn read<T: Rows<TypeRow>>(
        &self,
        grammar: &Grammar<'_, T>,
        cursor: &mut Cursor,
    ) -> Result<usize, SyntaxError> {
        When(
            Lookahead::Near,
            Punct(
                TokenKind::OpenBracket,
                Opt(
                    Greedy(Lookahead::BeginsType),
                    OfRow(TypeRow::TypeRow(true), Done),
                    Punct(TokenKind::CloseBracket, self.0),
                ),
            ),
        )
        .read(grammar, cursor)
    }
}

/// TPrim (~ '[' Type? ']')*
#[derive(Clone, Copy)]
pub struct ArrayTypes;

impl ReadsProduction<TypeRow> for ArrayTypes {
    ghost rule = { λ _. labelled label_name array_types };

    #[tactic(auto, unfolding(es_grammar::specs::types::Types::array_types))]
    fn read<T: Rows<TypeRow>>(
        &self,
        grammar: &Grammar<'_, T>,
        cursor: &mut Cursor,
    ) -> Result<usize, SyntaxError> {
        Wrap(
            NodeKind::ArrayTypes,
            PrimaryType,
            Greedy(Lookahead::OpensBrackets),
            BracketsIn(Many(Greedy(Lookahead::OpensBrackets), BracketsIn(Done), Done)),
        )
        .read(grammar, cursor)
    }
}

/// TOp: ('keyof' | 'unique' | 'readonly') TOp | 'infer' Name | TPrim (~ '[' Type? ']')*
#[derive(Clone, Copy)]
pub struct OperandType;

impl ReadsProduction<TypeRow> for OperandType {
    ghost rule = { λ _. labelled label_name operand_type };

    #[tactic(auto, unfolding(es_grammar::specs::types::Types::operand_type))]
    fn read<T: Rows<TypeRow>>(
        &self,
        grammar: &Grammar<'_, T>,
        cursor: &mut Cursor,
    ) -> Result<usize, SyntaxError> {
        Pick(
            Predicate::OpensOperator,
            Make(
                NodeKind::TypeOperator,
                Tok(
                    LeafKind::Kind,
                    Kinds::TypeOperator,
                    OfRow(TypeRow::OperandRow, Done),
                ),
            ),
            Pick(
                Predicate::OpensInfer,
                Make(
                    NodeKind::InferType,
                    Punct(TokenKind::InferWord, Tok(LeafKind::Name, Kinds::Name, Done)),
                ),
                ArrayTypes,
            ),
        )
        .read(grammar, cursor)
    }
}

/// (operator X)+
#[derive(Clone, Copy)]
pub struct OperandsIn(pub TokenKind, pub TypeRow);

impl ReadsRhs<TypeRow> for OperandsIn {
    ghost form = { λ s. operands_in s.0 s.1 };

    #[tactic(auto, unfolding(es_grammar::specs::types::Types::operands_in))]
    fn read<T: Rows<TypeRow>>(
        &self,
        grammar: &Grammar<'_, T>,
        cursor: &mut Cursor,
    ) -> Result<usize, SyntaxError> {
        Punct(
            self.0,
            OfRow(
                self.1,
                Many(Greedy(Is(self.0)), Punct(self.0, OfRow(self.1, Done)), Done),
            ),
        )
        .read(grammar, cursor)
    }
}

/// Inter: '&'? TOp ('&' TOp)*
#[derive(Clone, Copy)]
pub struct IntersectionType;

impl ReadsProduction<TypeRow> for IntersectionType {
    ghost rule = { λ _. labelled label_name intersection_type };

    #[tactic(auto, unfolding(es_grammar::specs::types::Types::intersection_type))]
    fn read<T: Rows<TypeRow>>(
        &self,
        grammar: &Grammar<'_, T>,
        cursor: &mut Cursor,
    ) -> Result<usize, SyntaxError> {
        Choose(
            Is(TokenKind::Ampersand),
            Make(
                NodeKind::LeadingIntersectionType,
                OperandsIn(TokenKind::Ampersand, TypeRow::OperandRow),
            ),
            Wrap(
                NodeKind::IntersectionType,
                OperandType,
                Greedy(Is(TokenKind::Ampersand)),
                OperandsIn(TokenKind::Ampersand, TypeRow::OperandRow),
            ),
        )
        .read(grammar, cursor)
    }
}

/// Union: '|'? Inter ('|' Inter)*
#[derive(Clone, Copy)]
pub struct UnionType;

impl ReadsProduction<TypeRow> for UnionType {
    ghost rule = { λ _. labelled label_name union_type };

    #[tactic(auto, unfolding(es_grammar::specs::types::Types::union_type))]
    fn read<T: Rows<TypeRow>>(
        &self,
        grammar: &Grammar<'_, T>,
        cursor: &mut Cursor,
    ) -> Result<usize, SyntaxError> {
        Choose(
            Is(TokenKind::Bar),
            Make(
                NodeKind::LeadingUnionType,
                OperandsIn(TokenKind::Bar, TypeRow::IntersectionRow),
            ),
            Wrap(
                NodeKind::UnionType,
                IntersectionType,
                Greedy(Is(TokenKind::Bar)),
                OperandsIn(TokenKind::Bar, TypeRow::IntersectionRow),
            ),
        )
        .read(grammar, cursor)
    }
}

/// Union (~ 'extends' Type '?' Type ':' Type)?, where a conditional type is allowed (true).
#[derive(Clone, Copy)]
pub struct ConditionalType(pub bool);

impl ReadsProduction<TypeRow> for ConditionalType {
    ghost rule = { λ s. labelled label_name (conditional_type s.0) };

    #[tactic(auto, unfolding(es_grammar::specs::types::Types::conditional_type))]
    fn read<T: Rows<TypeRow>>(
        &self,
        grammar: &Grammar<'_, T>,
        cursor: &mut Cursor,
    ) -> Result<usize, SyntaxError> {
        if self.0 {
            Wrap(
                NodeKind::ConditionalType,
                UnionType,
                Greedy(Lookahead::OpensCondition),
                When(
                    Lookahead::Near,
                    Punct(
                        TokenKind::ExtendsWord,
                        OfRow(
                            TypeRow::TypeRow(false),
                            Punct(
                                TokenKind::Question,
                                OfRow(
                                    TypeRow::TypeRow(true),
                                    Punct(
                                        TokenKind::Colon,
                                        OfRow(
                                            TypeRow::TypeRow(true),
                                            When(Lookahead::NoCondition, Done),
                                        ),
                                    ),
                                ),
                            ),
                        ),
                    ),
                ),
            )
            .read(grammar, cursor)
        } else {
            UnionType.read(grammar, cursor)
        }
    }
}

/// TParams? '(' Params ')' '=>' Ret
#[derive(Clone, Copy)]
pub struct FunctionType(pub bool);

impl ReadsProduction<TypeRow> for FunctionType {
    ghost rule = { λ s. labelled label_name (function_type s.0) };

    #[tactic(auto, unfolding(es_grammar::specs::types::Types::function_type))]
    fn read<T: Rows<TypeRow>>(
        &self,
        grammar: &Grammar<'_, T>,
        cursor: &mut Cursor,
    ) -> Result<usize, SyntaxError> {
        Make(
            NodeKind::FunctionType,
            ParametersIn(Punct(TokenKind::Arrow, OfRow(TypeRow::ResultRow(self.0), Done))),
        )
        .read(grammar, cursor)
    }
}

/// 'abstract'? 'new' TParams? '(' Params ')' '=>' Type
#[derive(Clone, Copy)]
pub struct ConstructorType(pub bool);

impl ReadsProduction<TypeRow> for ConstructorType {
    ghost rule = { λ s. labelled label_name (constructor_type s.0) };

    #[tactic(auto, unfolding(es_grammar::specs::types::Types::constructor_type))]
    fn read<T: Rows<TypeRow>>(
        &self,
        grammar: &Grammar<'_, T>,
        cursor: &mut Cursor,
    ) -> Result<usize, SyntaxError> {
        Make(
            NodeKind::ConstructorType,
            Opt(
                Greedy(Is(TokenKind::AbstractWord)),
                Tok(LeafKind::There, Kinds::Only(TokenKind::AbstractWord), Done),
                Punct(
                    TokenKind::NewWord,
                    ParametersIn(Punct(TokenKind::Arrow, OfRow(TypeRow::TypeRow(self.0), Done))),
                ),
            ),
        )
        .read(grammar, cursor)
    }
}

/// Type, where a conditional type is allowed (true).
#[derive(Clone, Copy)]
pub struct AnyType(pub bool);

impl ReadsProduction<TypeRow> for AnyType {
    ghost rule = { λ s. labelled label_name (any_type s.0) };

    #[tactic(auto, unfolding(es_grammar::specs::types::Types::any_type))]
    fn read<T: Rows<TypeRow>>(
        &self,
        grammar: &Grammar<'_, T>,
        cursor: &mut Cursor,
    ) -> Result<usize, SyntaxError> {
        Pick(
            Predicate::OpensFunction,
            FunctionType(self.0),
            Pick(
                Predicate::OpensConstructor,
                ConstructorType(self.0),
                ConditionalType(self.0),
            ),
        )
        .read(grammar, cursor)
    }
}
