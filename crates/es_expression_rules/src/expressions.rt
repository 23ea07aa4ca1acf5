//! Assignments and whole expressions.

ghost use Rattle.es_expression_rules.specs.Bases.{any_arrow, pattern_assignment};
ghost use Rattle.es_expression_rules.specs.Levels.{assignment_over};
ghost use Rattle.es_grammar.specs.Expressions.{conditional, yield_, assignment, expression, element};

use crate::arrows::{AsyncArrow, PlainArrow};
use crate::levels::Operators;
use crate::operand::Operand;
use crate::operators::Power;
use crate::primary::Spread;
use es_grammar::{Context, NodeKind, Row};
use es_rules::{
    Choose, Cursor, Done, Grammar, Greedy, Holds, LeafKind, Make, Many, OfRow, Opt, Pick, Punct,
    ReadsBehind, ReadsProduction, Rows, Tok, When,
};
use es_shared_rules::predicates::Lookahead::Is;
use es_shared_rules::predicates::{Kinds, Lookahead, Predicate, opens_operator};
use es_token::TokenKind;
use grammar_theory::{Lang, SyntaxError};

/// 'yield' (~ '*'? Assign)?
#[derive(Clone, Copy)]
pub struct Yield(pub Lang, pub Context);

impl ReadsProduction<Row> for Yield {
    ghost rule = { λ s. yield_ s.0 s.1 };

    #[tactic(auto, unfolding(es_grammar::specs::Expressions::yield_))]
    fn read<T: Rows<Row>>(
        &self,
        grammar: &Grammar<'_, T>,
        cursor: &mut Cursor,
    ) -> Result<usize, SyntaxError> {
        Make(
            NodeKind::Yield,
            Punct(
                TokenKind::YieldWord,
                Opt(
                    Greedy(Lookahead::Operand(self.0)),
                    When(
                        Lookahead::Near,
                        Opt(
                            Greedy(Is(TokenKind::Star)),
                            Tok(LeafKind::There, Kinds::Only(TokenKind::Star), Done),
                            OfRow(Row::AssignmentRow(self.1), Done),
                        ),
                    ),
                    Done,
                ),
            ),
        )
        .read(grammar, cursor)
    }
}

/// Cond, or Target AssignOp Assign: an operand, and all levels after it.
#[derive(Clone, Copy)]
pub struct Operated(pub Lang, pub Context);

impl ReadsProduction<Row> for Operated {
    ghost rule = { λ s. assignment_over s.1 (conditional s.0 s.1) };

    fn read<T: Rows<Row>>(
        &self,
        grammar: &Grammar<'_, T>,
        cursor: &mut Cursor,
    ) -> Result<usize, SyntaxError> {
        let from = cursor.here();
        let operand = Power(self.0, self.1).read(grammar, cursor);
        let tokens = grammar.input.tokens;
        if !opens_operator(&tokens, cursor.at) && !tokens.sees(TokenKind::PrivateName, from.token) {
            return operand;
        }
        Operators(self.0, self.1).read(from, operand, grammar, cursor)
    }
}

/// Assign: Arrow | 'yield' (~ '*'? Assign)? | Target AssignOp Assign | Cond
#[derive(Clone, Copy)]
pub struct Assignment(pub Lang, pub Context);

impl ReadsProduction<Row> for Assignment {
    ghost rule = { λ s. assignment s.0 s.1 };

    #[tactic(auto, unfolding(es_grammar::specs::Expressions::assignment))]
    fn read<T: Rows<Row>>(
        &self,
        grammar: &Grammar<'_, T>,
        cursor: &mut Cursor,
    ) -> Result<usize, SyntaxError> {
        if Predicate::OpensAnyArrow(self.0, self.1).holds(&grammar.input, cursor.at) {
            return AnyArrow(self.0, self.1).read(grammar, cursor);
        }
        if grammar.input.tokens.sees(TokenKind::YieldWord, cursor.at) {
            return Yield(self.0, self.1).read(grammar, cursor);
        }
        if Predicate::OpensPattern.holds(&grammar.input, cursor.at) {
            return PatternAssignment(self.1).read(grammar, cursor);
        }
        Operated(self.0, self.1).read(grammar, cursor)
    }
}

/// Arrow: an arrow of either kind.
#[derive(Clone, Copy)]
struct AnyArrow(Lang, Context);

impl ReadsProduction<Row> for AnyArrow {
    ghost rule = { λ s. any_arrow s.0 s.1 };

    fn read<T: Rows<Row>>(
        &self,
        grammar: &Grammar<'_, T>,
        cursor: &mut Cursor,
    ) -> Result<usize, SyntaxError> {
        Pick(
            Predicate::OpensAsyncHere(self.0, self.1),
            AsyncArrow(self.0, self.1),
            PlainArrow(self.0, self.1),
        )
        .read(grammar, cursor)
    }
}

/// Pat '=' Assign, of a pattern in brackets.
#[derive(Clone, Copy)]
struct PatternAssignment(Context);

impl ReadsProduction<Row> for PatternAssignment {
    ghost rule = { λ s. pattern_assignment s.0 };

    fn read<T: Rows<Row>>(
        &self,
        grammar: &Grammar<'_, T>,
        cursor: &mut Cursor,
    ) -> Result<usize, SyntaxError> {
        let outside = Context {
            no_in: false,
            no_colon: false,
            in_constructor: false,
            ..self.0
        };
        Make(
            NodeKind::PatternAssignment,
            OfRow(
                Row::PatternRow(true, outside),
                Punct(TokenKind::Equal, OfRow(Row::AssignmentRow(self.0), Done)),
            ),
        )
        .read(grammar, cursor)
    }
}

/// Expr: Assign (',' Assign)*
#[derive(Clone, Copy)]
pub struct Expression(pub Lang, pub Context);

impl ReadsProduction<Row> for Expression {
    ghost rule = { λ s. expression s.0 s.1 };

    #[tactic(auto, unfolding(es_grammar::specs::Expressions::expression))]
    fn read<T: Rows<Row>>(
        &self,
        grammar: &Grammar<'_, T>,
        cursor: &mut Cursor,
    ) -> Result<usize, SyntaxError> {
        Operand(
            NodeKind::Sequence,
            Assignment(self.0, self.1),
            Greedy(Is(TokenKind::Comma)),
            Punct(
                TokenKind::Comma,
                OfRow(
                    Row::AssignmentRow(self.1),
                    Many(
                        Greedy(Is(TokenKind::Comma)),
                        Punct(TokenKind::Comma, OfRow(Row::AssignmentRow(self.1), Done)),
                        Done,
                    ),
                ),
            ),
        )
        .read(grammar, cursor)
    }
}

/// AElem: '...'? Assign
#[derive(Clone, Copy)]
pub struct Element(pub Lang, pub Context);

impl ReadsProduction<Row> for Element {
    ghost rule = { λ s. element s.0 s.1 };

    #[tactic(auto, unfolding(es_grammar::specs::Expressions::element))]
    fn read<T: Rows<Row>>(
        &self,
        grammar: &Grammar<'_, T>,
        cursor: &mut Cursor,
    ) -> Result<usize, SyntaxError> {
        let outside = Context {
            no_in: false,
            no_colon: false,
            in_constructor: false,
            ..self.1
        };
        Choose(
            Is(TokenKind::Ellipsis),
            Spread(self.1),
            Assignment(self.0, outside),
        )
        .read(grammar, cursor)
    }
}
