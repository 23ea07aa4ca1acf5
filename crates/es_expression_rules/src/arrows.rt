//! Arrows.

ghost use Rattle.es_grammar.specs.Expressions.{arrow_in, parameters_arrow_in, plain_arrow, async_arrow};

use es_grammar::{Context, NodeKind, Row};
use es_rules::{
    Alt, Choose, Cursor, Done, Grammar, LeafKind, Make, MakeBy, OfRow, Pick, Punct,
    ReadsProduction, ReadsRhs, Rows, Tok, When,
};
use es_shared_rules::predicates::Lookahead::{Is, Other};
use es_shared_rules::predicates::{Kinds, Lookahead, Predicate};
use es_shared_rules::{ArrowResultIn, TypeParametersIn};
use es_token::TokenKind;
use grammar_theory::{Lang, SyntaxError};

/// ~ '=>' (Block | Assign)
#[derive(Clone, Copy)]
pub struct ArrowIn(pub Context, pub Context);

impl ReadsRhs<Row> for ArrowIn {
    ghost form = { λ s. arrow_in s.0 s.1 };

    #[tactic(auto, unfolding(es_grammar::specs::Expressions::arrow_in))]
    fn read<T: Rows<Row>>(
        &self,
        grammar: &Grammar<'_, T>,
        cursor: &mut Cursor,
    ) -> Result<usize, SyntaxError> {
        let outside = Context {
            no_in: false,
            no_colon: false,
            in_constructor: false,
            ..self.1
        };
        When(
            Lookahead::Near,
            Punct(
                TokenKind::Arrow,
                Alt(
                    Is(TokenKind::OpenBrace),
                    OfRow(Row::BlockRow(outside), Done),
                    When(
                        Other(TokenKind::OpenBrace),
                        OfRow(Row::AssignmentRow(self.1), Done),
                    ),
                    Done,
                ),
            ),
        )
        .read(grammar, cursor)
    }
}

/// (TS TParams)? '(' Params ')' (TS ':' Ret)? ~ '=>' .., the parameters in a place of their own.
#[derive(Clone, Copy)]
pub struct ParametersArrowIn(pub Lang, pub Context, pub Context, pub Context);

impl ReadsRhs<Row> for ParametersArrowIn {
    ghost form = { λ s. parameters_arrow_in s.0 s.1 s.2 s.3 };

    #[tactic(auto, unfolding(es_grammar::specs::Expressions::parameters_arrow_in))]
    fn read<T: Rows<Row>>(
        &self,
        grammar: &Grammar<'_, T>,
        cursor: &mut Cursor,
    ) -> Result<usize, SyntaxError> {
        TypeParametersIn(
            self.0,
            Punct(
                TokenKind::OpenParen,
                OfRow(
                    Row::ParametersRow(self.1),
                    Punct(
                        TokenKind::CloseParen,
                        ArrowResultIn(self.0, self.2, ArrowIn(self.2, self.3)),
                    ),
                ),
            ),
        )
        .read(grammar, cursor)
    }
}

/// Name ~ '=>' .. | (TS TParams)? '(' Params ')' (TS ':' Ret)? ~ '=>' ..
#[derive(Clone, Copy)]
pub struct PlainArrow(pub Lang, pub Context);

impl ReadsProduction<Row> for PlainArrow {
    ghost rule = { λ s. plain_arrow s.0 s.1 };

    #[tactic(auto, unfolding(es_grammar::specs::Expressions::plain_arrow))]
    fn read<T: Rows<Row>>(
        &self,
        grammar: &Grammar<'_, T>,
        cursor: &mut Cursor,
    ) -> Result<usize, SyntaxError> {
        let outside = Context {
            no_in: false,
            no_colon: false,
            in_constructor: false,
            ..self.1
        };
        Choose(
            Lookahead::BeginsParameters(self.0),
            MakeBy(
                self.0,
                NodeKind::ParenthesizedArrow,
                NodeKind::TypedParenthesizedArrow,
                ParametersArrowIn(self.0, outside, self.1, self.1),
            ),
            Make(
                NodeKind::NameArrow,
                Tok(LeafKind::Name, Kinds::Name, ArrowIn(self.1, self.1)),
            ),
        )
        .read(grammar, cursor)
    }
}

/// 'async' ~ Name ~ '=>' .. | 'async' ~ '(' Params ')' ~ '=>' ..
#[derive(Clone, Copy)]
pub struct AsyncArrow(pub Lang, pub Context);

impl ReadsProduction<Row> for AsyncArrow {
    ghost rule = { λ s. async_arrow s.0 s.1 };

    #[tactic(auto, unfolding(es_grammar::specs::Expressions::async_arrow))]
    fn read<T: Rows<Row>>(
        &self,
        grammar: &Grammar<'_, T>,
        cursor: &mut Cursor,
    ) -> Result<usize, SyntaxError> {
        let async_in = Context {
            no_in: false,
            no_colon: false,
            in_constructor: false,
            in_async: true,
            ..self.1
        };
        let async_here = Context {
            in_async: true,
            in_constructor: false,
            ..self.1
        };
        Pick(
            Predicate::OpensAsyncList(self.0),
            MakeBy(
                self.0,
                NodeKind::AsyncParenthesizedArrow,
                NodeKind::TypedAsyncParenthesizedArrow,
                Punct(
                    TokenKind::AsyncWord,
                    When(
                        Lookahead::Near,
                        ParametersArrowIn(self.0, async_in, self.1, async_here),
                    ),
                ),
            ),
            Make(
                NodeKind::AsyncNameArrow,
                Punct(
                    TokenKind::AsyncWord,
                    When(
                        Lookahead::Near,
                        Tok(LeafKind::Name, Kinds::Name, ArrowIn(self.1, async_here)),
                    ),
                ),
            ),
        )
        .read(grammar, cursor)
    }
}
