//! Parameters.

ghost use Rattle.es_grammar.specs.types.Parameters.{parameters_in, mark_in, type_in, list_before, parameters, parameter};
ghost use Rattle.es_grammar.specs.TypeNames.{label_name};
ghost use Rattle.es_rules.specs.Labelled.{labelled};

use crate::members::patterns::Pattern;
use crate::predicates::Lookahead::{Is, Other};
use crate::predicates::{Kinds, Lookahead};
use es_grammar::{NodeKind, TypeRow};
use es_rules::{
    Alt, ByLookahead, Choose, Cursor, Done, Grammar, Greedy, LeafKind, Make, Many, OfRow, Opt,
    Punct, ReadsProduction, ReadsRhs, Rows, Tok, When, Wrap,
};
use es_token::TokenKind;
use grammar_theory::SyntaxError;

/// TParams? '(' Params ')', and what follows it
#[derive(Clone, Copy)]
pub struct ParametersIn<N>(pub N);

impl<N: ReadsRhs<TypeRow> + Copy> ReadsRhs<TypeRow> for ParametersIn<N> {
    ghost form = { λ s. parameters_in (N.form s.0) };

    #[tactic(auto, unfolding(es_grammar::specs::types::Parameters::parameters_in))]
    fn read<T: Rows<TypeRow>>(
        &self,
        grammar: &Grammar<'_, T>,
        cursor: &mut Cursor,
    ) -> Result<usize, SyntaxError> {
        Opt(
            Greedy(Is(TokenKind::Less)),
            OfRow(TypeRow::TypeParametersRow, Done),
            Punct(
                TokenKind::OpenParen,
                OfRow(TypeRow::ParametersRow, Punct(TokenKind::CloseParen, self.0)),
            ),
        )
        .read(grammar, cursor)
    }
}

/// '?'?, and what follows it
#[derive(Clone, Copy)]
pub struct MarkIn<N>(pub N);

impl<N: ReadsRhs<TypeRow> + Copy> ReadsRhs<TypeRow> for MarkIn<N> {
    ghost form = { λ s. mark_in (N.form s.0) };

    #[tactic(auto, unfolding(es_grammar::specs::types::Parameters::mark_in))]
    fn read<T: Rows<TypeRow>>(
        &self,
        grammar: &Grammar<'_, T>,
        cursor: &mut Cursor,
    ) -> Result<usize, SyntaxError> {
        Opt(
            Greedy(Is(TokenKind::Question)),
            Tok(LeafKind::There, Kinds::Only(TokenKind::Question), Done),
            self.0,
        )
        .read(grammar, cursor)
    }
}

/// (':' Type)?, and what follows it
#[derive(Clone, Copy)]
pub struct TypeIn<N>(pub N);

impl<N: ReadsRhs<TypeRow> + Copy> ReadsRhs<TypeRow> for TypeIn<N> {
    ghost form = { λ s. type_in (N.form s.0) };

    #[tactic(auto, unfolding(es_grammar::specs::types::Parameters::type_in))]
    fn read<T: Rows<TypeRow>>(
        &self,
        grammar: &Grammar<'_, T>,
        cursor: &mut Cursor,
    ) -> Result<usize, SyntaxError> {
        Opt(
            Greedy(Is(TokenKind::Colon)),
            Punct(TokenKind::Colon, OfRow(TypeRow::TypeRow(true), Done)),
            self.0,
        )
        .read(grammar, cursor)
    }
}

/// X%: a comma list with an optional last comma, before its closer, and what follows it
#[derive(Clone, Copy)]
pub struct ListBefore<N>(pub TokenKind, pub TypeRow, pub N);

impl<N: ReadsRhs<TypeRow> + Copy> ReadsRhs<TypeRow> for ListBefore<N> {
    ghost form = { λ s. list_before s.0 s.1 (N.form s.2) };

    #[tactic(auto, unfolding(es_grammar::specs::types::Parameters::list_before))]
    fn read<T: Rows<TypeRow>>(
        &self,
        grammar: &Grammar<'_, T>,
        cursor: &mut Cursor,
    ) -> Result<usize, SyntaxError> {
        Many(
            ByLookahead(Other(self.0)),
            OfRow(
                self.1,
                Opt(Greedy(Other(self.0)), Punct(TokenKind::Comma, Done), Done),
            ),
            self.2,
        )
        .read(grammar, cursor)
    }
}

/// Params: Param% | (Param ',')* '...' Pat (':' Type)?
#[derive(Clone, Copy)]
pub struct Parameters;

impl ReadsProduction<TypeRow> for Parameters {
    ghost rule = { λ _. labelled label_name parameters };

    #[tactic(auto, unfolding(es_grammar::specs::types::Parameters::parameters))]
    fn read<T: Rows<TypeRow>>(
        &self,
        grammar: &Grammar<'_, T>,
        cursor: &mut Cursor,
    ) -> Result<usize, SyntaxError> {
        Make(
            NodeKind::ParametersOfType,
            Many(
                ByLookahead(Lookahead::Parameter),
                OfRow(
                    TypeRow::ParameterRow,
                    Opt(
                        Greedy(Other(TokenKind::CloseParen)),
                        Punct(TokenKind::Comma, Done),
                        Done,
                    ),
                ),
                Opt(
                    Greedy(Is(TokenKind::Ellipsis)),
                    Punct(
                        TokenKind::Ellipsis,
                        OfRow(TypeRow::PatternRow, TypeIn(Done)),
                    ),
                    Done,
                ),
            ),
        )
        .read(grammar, cursor)
    }
}

/// Param: (Pat | 'this') '?'? (':' Type)?
#[derive(Clone, Copy)]
pub struct Parameter;

impl ReadsProduction<TypeRow> for Parameter {
    ghost rule = { λ _. labelled label_name parameter };

    #[tactic(auto, unfolding(es_grammar::specs::types::Parameters::parameter))]
    fn read<T: Rows<TypeRow>>(
        &self,
        grammar: &Grammar<'_, T>,
        cursor: &mut Cursor,
    ) -> Result<usize, SyntaxError> {
        Choose(
            Is(TokenKind::ThisWord),
            Make(
                NodeKind::ThisParameterOfType,
                Tok(
                    LeafKind::There,
                    Kinds::Only(TokenKind::ThisWord),
                    MarkIn(TypeIn(Done)),
                ),
            ),
            Wrap(
                NodeKind::MarkedParameterOfType,
                Pattern,
                Greedy(Lookahead::HasMark),
                Alt(
                    Is(TokenKind::Question),
                    Tok(
                        LeafKind::There,
                        Kinds::Only(TokenKind::Question),
                        TypeIn(Done),
                    ),
                    Punct(TokenKind::Colon, OfRow(TypeRow::TypeRow(true), Done)),
                    When(Lookahead::NoMark, Done),
                ),
            ),
        )
        .read(grammar, cursor)
    }
}
