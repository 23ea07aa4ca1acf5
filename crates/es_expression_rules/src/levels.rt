//! Levels of operators, after an operand that was read already: from the tightest outward.
//!
//! Each group first asks, by the kind of the next token, whether an operator of its levels can follow.

ghost use Rattle.es_grammar.specs.Expressions.{level, private_in};
ghost use Rattle.es_shared_rules.specs.predicates.Named.{kinds_of};
ghost use Rattle.es_expression_rules.specs.Levels.{arithmetic_over, shift_over, related, relation_over, behind_types, comparing_over, bitwise_over, coalesce_over, logical_over, conditional_over, assignment_over, operators_over};

use crate::operators::{ComparisonIn, PrivateIn, TightIn};
use es_grammar::{Context, NodeKind, Row};
use es_rules::{
    Alt, Both, ByPredicate, Cursor, Done, Grammar, Greedy, LeafKind, OfRow, Opt, Place, Punct,
    ReadsBehind, ReadsProduction, Rows, Tok, Turns, When,
};
use es_shared_rules::predicates::Lookahead::{Has, Is, Other};
use es_shared_rules::predicates::{
    Kinds, Lookahead, Predicate, opens_arithmetic, opens_bitwise, opens_comparing, opens_logical,
};
use es_shared_rules::{AssertedOr, without_colon};
use es_token::TokenKind;
use grammar_theory::{Lang, SyntaxError};

/// A level of operators of one token, left-associative.
#[derive(Clone, Copy)]
pub struct LevelBehind(pub Kinds, pub Row);

impl ReadsBehind<Row> for LevelBehind {
    ghost over = { λ s a. level (kinds_of s.0) s.1 a };

    #[tactic(auto, unfolding(es_grammar::specs::Expressions::level))]
    fn read<T: Rows<Row>>(
        &self,
        from: Place,
        operand: Result<usize, SyntaxError>,
        grammar: &Grammar<'_, T>,
        cursor: &mut Cursor,
    ) -> Result<usize, SyntaxError> {
        Turns(
            NodeKind::Binary,
            Greedy(Has(self.0)),
            Tok(LeafKind::Kind, self.0, OfRow(self.1, Done)),
        )
        .read(from, operand, grammar, cursor)
    }
}

/// ('*' | '/' | '%') Power, ('+' | '-') Product
#[derive(Clone, Copy)]
pub struct Arithmetic(pub Context);

impl ReadsBehind<Row> for Arithmetic {
    ghost over = { λ s a. arithmetic_over s.0 a };

    fn read<T: Rows<Row>>(
        &self,
        from: Place,
        operand: Result<usize, SyntaxError>,
        grammar: &Grammar<'_, T>,
        cursor: &mut Cursor,
    ) -> Result<usize, SyntaxError> {
        if !opens_arithmetic(&grammar.input.tokens, cursor.at) {
            return operand;
        }
        Both(
            LevelBehind(Kinds::Product, Row::PowerRow(self.0)),
            LevelBehind(Kinds::Sum, Row::ProductRow(self.0)),
        )
        .read(from, operand, grammar, cursor)
    }
}

/// ('<<' | '>>' | '>>>') Sum
#[derive(Clone, Copy)]
pub struct Shifted(pub Lang, pub Context);

impl ReadsBehind<Row> for Shifted {
    ghost over = { λ s a. shift_over s.0 s.1 a };

    fn read<T: Rows<Row>>(
        &self,
        from: Place,
        operand: Result<usize, SyntaxError>,
        grammar: &Grammar<'_, T>,
        cursor: &mut Cursor,
    ) -> Result<usize, SyntaxError> {
        Turns(
            NodeKind::Binary,
            ByPredicate(Predicate::OpensShiftIn(self.0)),
            Alt(
                Is(TokenKind::Greater),
                Tok(
                    LeafKind::Kind,
                    Kinds::Only(TokenKind::Greater),
                    Tok(
                        LeafKind::There,
                        Kinds::Only(TokenKind::Greater),
                        Opt(
                            ByPredicate(Predicate::Joins(TokenKind::Greater)),
                            Tok(LeafKind::There, Kinds::Only(TokenKind::Greater), Done),
                            Done,
                        ),
                    ),
                ),
                Tok(LeafKind::Kind, Kinds::Only(TokenKind::LessLess), Done),
                OfRow(Row::SumRow(self.1), Done),
            ),
        )
        .read(from, operand, grammar, cursor)
    }
}

/// ('<' | '<=' | '>' | '>=' | 'instanceof' | 'in') Shift, in TypeScript also `as` and `satisfies`, and tighter operators
#[derive(Clone, Copy)]
pub struct Compared(pub Lang, pub Context);

impl ReadsBehind<Row> for Compared {
    ghost over = { λ s a. related s.0 s.1 a };

    fn read<T: Rows<Row>>(
        &self,
        from: Place,
        operand: Result<usize, SyntaxError>,
        grammar: &Grammar<'_, T>,
        cursor: &mut Cursor,
    ) -> Result<usize, SyntaxError> {
        let told = ByPredicate(Predicate::OpensComparison(self.0, self.1));
        if self.0.is_typed() {
            Turns(NodeKind::TypedBinary, told, AssertedOr(TightIn(self.1))).read(
                from, operand, grammar, cursor,
            )
        } else {
            Turns(NodeKind::Binary, told, ComparisonIn(self.1)).read(from, operand, grammar, cursor)
        }
    }
}

/// The same after PrivateName 'in' Shift.
#[derive(Clone, Copy)]
pub struct PrivateCompared(pub Lang, pub Context);

impl ReadsProduction<Row> for PrivateCompared {
    ghost rule = { λ s. related s.0 s.1 (private_in s.1) };

    fn read<T: Rows<Row>>(
        &self,
        grammar: &Grammar<'_, T>,
        cursor: &mut Cursor,
    ) -> Result<usize, SyntaxError> {
        let from = cursor.here();
        let operand = PrivateIn(self.1).read(grammar, cursor);
        Compared(self.0, self.1).read(from, operand, grammar, cursor)
    }
}

/// Relations: where a private name comes first, it is read again, since it isn't an operand. What was written of it is
/// removed.
#[derive(Clone, Copy)]
pub struct Related(pub Lang, pub Context);

impl ReadsBehind<Row> for Related {
    ghost over = { λ s a. relation_over s.0 s.1 a };

    fn read<T: Rows<Row>>(
        &self,
        from: Place,
        operand: Result<usize, SyntaxError>,
        grammar: &Grammar<'_, T>,
        cursor: &mut Cursor,
    ) -> Result<usize, SyntaxError> {
        if grammar
            .input
            .tokens
            .sees(TokenKind::PrivateName, from.token)
        {
            cursor.back_to(from);
            return PrivateCompared(self.0, self.1).read(grammar, cursor);
        }
        Compared(self.0, self.1).read(from, operand, grammar, cursor)
    }
}

/// Shifts after a type of TypeScript.
#[derive(Clone, Copy)]
pub struct BehindTypes(pub Lang, pub Context);

impl ReadsBehind<Row> for BehindTypes {
    ghost over = { λ s a. behind_types s.0 s.1 a };

    fn read<T: Rows<Row>>(
        &self,
        from: Place,
        operand: Result<usize, SyntaxError>,
        grammar: &Grammar<'_, T>,
        cursor: &mut Cursor,
    ) -> Result<usize, SyntaxError> {
        if self.0.is_typed() {
            Shifted(self.0, self.1).read(from, operand, grammar, cursor)
        } else {
            operand
        }
    }
}

/// Shifts, relations, ('==' | '!=' | '===' | '!==') Relation
#[derive(Clone, Copy)]
pub struct Comparing(pub Lang, pub Context);

impl ReadsBehind<Row> for Comparing {
    ghost over = { λ s a. comparing_over s.0 s.1 a };

    fn read<T: Rows<Row>>(
        &self,
        from: Place,
        operand: Result<usize, SyntaxError>,
        grammar: &Grammar<'_, T>,
        cursor: &mut Cursor,
    ) -> Result<usize, SyntaxError> {
        let tokens = grammar.input.tokens;
        if !opens_comparing(&tokens, cursor.at)
            && !tokens.sees(TokenKind::PrivateName, from.token)
        {
            return operand;
        }
        Both(
            Both(
                Both(Shifted(self.0, self.1), Related(self.0, self.1)),
                BehindTypes(self.0, self.1),
            ),
            LevelBehind(Kinds::Equality, Row::RelationRow(self.1)),
        )
        .read(from, operand, grammar, cursor)
    }
}

/// '&' Equality, '^' BitAnd, '|' BitXor
#[derive(Clone, Copy)]
pub struct Bitwise(pub Context);

impl ReadsBehind<Row> for Bitwise {
    ghost over = { λ s a. bitwise_over s.0 a };

    fn read<T: Rows<Row>>(
        &self,
        from: Place,
        operand: Result<usize, SyntaxError>,
        grammar: &Grammar<'_, T>,
        cursor: &mut Cursor,
    ) -> Result<usize, SyntaxError> {
        if !opens_bitwise(&grammar.input.tokens, cursor.at) {
            return operand;
        }
        Both(
            Both(
                LevelBehind(Kinds::Only(TokenKind::Ampersand), Row::EqualityRow(self.0)),
                LevelBehind(Kinds::Only(TokenKind::Caret), Row::BitAndRow(self.0)),
            ),
            LevelBehind(Kinds::Only(TokenKind::Bar), Row::BitXorRow(self.0)),
        )
        .read(from, operand, grammar, cursor)
    }
}

/// '??' BitOr, which mixes with '||' or '&&' only in brackets.
#[derive(Clone, Copy)]
pub struct Coalesced(pub Context);

impl ReadsBehind<Row> for Coalesced {
    ghost over = { λ s a. coalesce_over s.0 a };

    fn read<T: Rows<Row>>(
        &self,
        from: Place,
        operand: Result<usize, SyntaxError>,
        grammar: &Grammar<'_, T>,
        cursor: &mut Cursor,
    ) -> Result<usize, SyntaxError> {
        Turns(
            NodeKind::Binary,
            Greedy(Is(TokenKind::QuestionQuestion)),
            Tok(
                LeafKind::Kind,
                Kinds::Only(TokenKind::QuestionQuestion),
                OfRow(Row::BitOrRow(self.0), When(Lookahead::NoMix, Done)),
            ),
        )
        .read(from, operand, grammar, cursor)
    }
}

/// '??' BitOr, '&&' BitOr, '||' And
#[derive(Clone, Copy)]
pub struct Logical(pub Context);

impl ReadsBehind<Row> for Logical {
    ghost over = { λ s a. logical_over s.0 a };

    fn read<T: Rows<Row>>(
        &self,
        from: Place,
        operand: Result<usize, SyntaxError>,
        grammar: &Grammar<'_, T>,
        cursor: &mut Cursor,
    ) -> Result<usize, SyntaxError> {
        if !opens_logical(&grammar.input.tokens, cursor.at) {
            return operand;
        }
        Both(
            Both(
                Coalesced(self.0),
                LevelBehind(
                    Kinds::Only(TokenKind::AmpersandAmpersand),
                    Row::BitOrRow(self.0),
                ),
            ),
            LevelBehind(Kinds::Only(TokenKind::BarBar), Row::AndRow(self.0)),
        )
        .read(from, operand, grammar, cursor)
    }
}

/// '?' Assign ':' Assign
#[derive(Clone, Copy)]
pub struct Questioned(pub Lang, pub Context);

impl ReadsBehind<Row> for Questioned {
    ghost over = { λ s a. conditional_over s.0 s.1 a };

    fn read<T: Rows<Row>>(
        &self,
        from: Place,
        operand: Result<usize, SyntaxError>,
        grammar: &Grammar<'_, T>,
        cursor: &mut Cursor,
    ) -> Result<usize, SyntaxError> {
        let first = without_colon(self.0, self.1);
        Turns(
            NodeKind::Conditional,
            Greedy(Is(TokenKind::Question)),
            Punct(
                TokenKind::Question,
                OfRow(
                    Row::AssignmentRow(first),
                    Punct(
                        TokenKind::Colon,
                        OfRow(
                            Row::AssignmentRow(self.1),
                            When(Other(TokenKind::Question), Done),
                        ),
                    ),
                ),
            ),
        )
        .read(from, operand, grammar, cursor)
    }
}

/// AssignOp Assign
#[derive(Clone, Copy)]
pub struct Assigned(pub Context);

impl ReadsBehind<Row> for Assigned {
    ghost over = { λ s a. assignment_over s.0 a };

    fn read<T: Rows<Row>>(
        &self,
        from: Place,
        operand: Result<usize, SyntaxError>,
        grammar: &Grammar<'_, T>,
        cursor: &mut Cursor,
    ) -> Result<usize, SyntaxError> {
        Turns(
            NodeKind::Assignment,
            ByPredicate(Predicate::OpensAssignment),
            Alt(
                Is(TokenKind::Greater),
                Tok(
                    LeafKind::Kind,
                    Kinds::Only(TokenKind::Greater),
                    Tok(
                        LeafKind::There,
                        Kinds::Only(TokenKind::Greater),
                        Opt(
                            ByPredicate(Predicate::Joins(TokenKind::Greater)),
                            Tok(LeafKind::There, Kinds::Only(TokenKind::Greater), Done),
                            Tok(LeafKind::There, Kinds::Only(TokenKind::Equal), Done),
                        ),
                    ),
                ),
                Tok(LeafKind::Kind, Kinds::Assignment, Done),
                OfRow(Row::AssignmentRow(self.0), Done),
            ),
        )
        .read(from, operand, grammar, cursor)
    }
}

/// All levels up to assignments.
#[derive(Clone, Copy)]
pub struct Operators(pub Lang, pub Context);

impl ReadsBehind<Row> for Operators {
    ghost over = { λ s a. operators_over s.0 s.1 a };

    fn read<T: Rows<Row>>(
        &self,
        from: Place,
        operand: Result<usize, SyntaxError>,
        grammar: &Grammar<'_, T>,
        cursor: &mut Cursor,
    ) -> Result<usize, SyntaxError> {
        Both(
            Both(
                Both(
                    Both(Arithmetic(self.1), Comparing(self.0, self.1)),
                    Both(Bitwise(self.1), Logical(self.1)),
                ),
                Questioned(self.0, self.1),
            ),
            Assigned(self.1),
        )
        .read(from, operand, grammar, cursor)
    }
}
