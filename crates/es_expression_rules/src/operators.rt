//! Operators, from the tightest to the loosest.

ghost use Rattle.es_expression_rules.specs.Bases.{update_prefix};
ghost use Rattle.es_grammar.specs.Expressions.{level, private_in, update, prefix, await_, type_assertion, asserted_before, unary, no_power, power, product, sum, shift, comparison_in, right_operand, tight_in, relation, equality, bit_and, bit_xor, bit_or, and_};
ghost use Rattle.es_shared_rules.specs.predicates.Named.{kinds_of};

use crate::chains::Chain;
use crate::levels::{Arithmetic, BehindTypes, Bitwise, Comparing, LevelBehind, Related, Shifted};
use crate::operand::Operand;
use es_grammar::{Context, NodeKind, Row, TypeRow};
use es_rules::{
    Alt, Both, ByPredicate, Choose, Cursor, Done, Grammar, Greedy, IsOfKinds, LeafKind, Make,
    OfRow, Opt, Pick, Punct, ReadsBehind, ReadsProduction, ReadsRhs, Rows, Tok, When, Where, Wrap,
};
use es_shared_rules::predicates::Lookahead::{Has, Is, Other};
use es_shared_rules::predicates::{Kinds, Lookahead, Predicate};
use es_token::TokenKind;
use grammar_theory::{Lang, SyntaxError};

/// ('++' | '--') Unary | Chain (~ ('++' | '--'))?
#[derive(Clone, Copy)]
pub struct Update(pub Lang, pub Context);

impl ReadsProduction<Row> for Update {
    ghost rule = { λ s. update s.0 s.1 };

    #[inline(always)]
    #[tactic(auto, unfolding(es_grammar::specs::Expressions::update))]
    fn read<T: Rows<Row>>(
        &self,
        grammar: &Grammar<'_, T>,
        cursor: &mut Cursor,
    ) -> Result<usize, SyntaxError> {
        if Kinds::Update.is_there(&grammar.input.tokens, cursor.at) {
            return UpdatePrefix(self.1).read(grammar, cursor);
        }
        Operand(
            NodeKind::UpdatePostfix,
            Chain(self.0, self.1),
            Greedy(Lookahead::UpdateHere),
            When(
                Lookahead::Near,
                Tok(
                    LeafKind::Kind,
                    Kinds::Update,
                    When(Lookahead::NoUpdateHere, Done),
                ),
            ),
        )
        .read(grammar, cursor)
    }
}

/// ('++' | '--') Unary
#[derive(Clone, Copy)]
struct UpdatePrefix(Context);

impl ReadsProduction<Row> for UpdatePrefix {
    ghost rule = { λ s. update_prefix s.0 };

    fn read<T: Rows<Row>>(
        &self,
        grammar: &Grammar<'_, T>,
        cursor: &mut Cursor,
    ) -> Result<usize, SyntaxError> {
        Make(
            NodeKind::UpdatePrefix,
            Tok(
                LeafKind::Kind,
                Kinds::Update,
                OfRow(Row::UnaryRow(self.0), Done),
            ),
        )
        .read(grammar, cursor)
    }
}

/// ('delete' | 'void' | 'typeof' | '+' | '-' | '~' | '!') Unary, and what follows.
#[derive(Clone, Copy)]
pub struct Prefix<N>(pub Context, pub N);

impl<N: ReadsRhs<Row> + Copy> ReadsProduction<Row> for Prefix<N> {
    ghost rule = { λ s. prefix s.0 (N.form s.1) };

    #[tactic(auto, unfolding(es_grammar::specs::Expressions::prefix))]
    fn read<T: Rows<Row>>(
        &self,
        grammar: &Grammar<'_, T>,
        cursor: &mut Cursor,
    ) -> Result<usize, SyntaxError> {
        Make(
            NodeKind::UnaryExpression,
            Tok(
                LeafKind::Kind,
                Kinds::Prefix,
                OfRow(Row::UnaryRow(self.0), self.1),
            ),
        )
        .read(grammar, cursor)
    }
}

/// 'await' Unary, in modules and in async functions, and what follows.
#[derive(Clone, Copy)]
pub struct Await<N>(pub Context, pub N);

impl<N: ReadsRhs<Row> + Copy> ReadsProduction<Row> for Await<N> {
    ghost rule = { λ s. await_ s.0 (N.form s.1) };

    #[tactic(auto, unfolding(es_grammar::specs::Expressions::await_))]
    fn read<T: Rows<Row>>(
        &self,
        grammar: &Grammar<'_, T>,
        cursor: &mut Cursor,
    ) -> Result<usize, SyntaxError> {
        Make(
            NodeKind::AwaitExpression,
            Where(
                Predicate::MayAwait(self.0),
                Punct(TokenKind::AwaitWord, OfRow(Row::UnaryRow(self.0), self.1)),
            ),
        )
        .read(grammar, cursor)
    }
}

/// '<' (Type | 'const') '>' Unary, and what follows.
#[derive(Clone, Copy)]
pub struct TypeAssertion<N>(pub Context, pub N);

impl<N: ReadsRhs<Row> + Copy> ReadsProduction<Row> for TypeAssertion<N> {
    ghost rule = { λ s. type_assertion s.0 (N.form s.1) };

    #[tactic(auto, unfolding(es_grammar::specs::Expressions::type_assertion))]
    fn read<T: Rows<Row>>(
        &self,
        grammar: &Grammar<'_, T>,
        cursor: &mut Cursor,
    ) -> Result<usize, SyntaxError> {
        Make(
            NodeKind::TypeAssertion,
            Punct(
                TokenKind::Less,
                Alt(
                    Is(TokenKind::ConstWord),
                    Tok(LeafKind::There, Kinds::Only(TokenKind::ConstWord), Done),
                    OfRow(Row::TypesRow(TypeRow::TypeRow(true)), Done),
                    Punct(
                        TokenKind::Greater,
                        OfRow(
                            Row::UnaryRow(self.0),
                            Where(Predicate::NoAssignment, self.1),
                        ),
                    ),
                ),
            ),
        )
        .read(grammar, cursor)
    }
}

/// Such an assertion, where the language has it, or another rule.
#[derive(Clone, Copy)]
pub struct AssertedBefore<N, A>(pub Lang, pub Context, pub N, pub A);

impl<N: ReadsRhs<Row> + Copy, A: ReadsProduction<Row> + Copy> ReadsProduction<Row>
    for AssertedBefore<N, A> {
    ghost rule = { λ s. asserted_before s.0 s.1 (N.form s.2) (A.rule s.3) };

    #[inline(always)]
    fn read<T: Rows<Row>>(
        &self,
        grammar: &Grammar<'_, T>,
        cursor: &mut Cursor,
    ) -> Result<usize, SyntaxError> {
        if self.0.has_assertions() {
            Choose(Is(TokenKind::Less), TypeAssertion(self.1, self.2), self.3).read(grammar, cursor)
        } else {
            self.3.read(grammar, cursor)
        }
    }
}

/// Unary: an operator and its operand, 'await' Unary, an assertion, or an update.
#[derive(Clone, Copy)]
pub struct Unary(pub Lang, pub Context);

impl ReadsProduction<Row> for Unary {
    ghost rule = { λ s. unary s.0 s.1 };

    #[tactic(auto, unfolding(es_grammar::specs::Expressions::unary))]
    fn read<T: Rows<Row>>(
        &self,
        grammar: &Grammar<'_, T>,
        cursor: &mut Cursor,
    ) -> Result<usize, SyntaxError> {
        let tokens = grammar.input.tokens;
        if Kinds::Prefix.is_there(&tokens, cursor.at) {
            return Prefix(self.1, Done).read(grammar, cursor);
        }
        if tokens.sees(TokenKind::AwaitWord, cursor.at) {
            return Await(self.1, Done).read(grammar, cursor);
        }
        AssertedBefore(self.0, self.1, Done, Update(self.0, self.1)).read(grammar, cursor)
    }
}

/// In TypeScript no `**` comes next.
#[derive(Clone, Copy)]
pub struct NoPower(pub Lang);

impl ReadsRhs<Row> for NoPower {
    ghost form = { λ s. no_power s.0 };

    #[tactic(auto, unfolding(es_grammar::specs::Expressions::no_power))]
    fn read<T: Rows<Row>>(
        &self,
        grammar: &Grammar<'_, T>,
        cursor: &mut Cursor,
    ) -> Result<usize, SyntaxError> {
        if self.0.is_typed() {
            When(Other(TokenKind::StarStar), Done).read(grammar, cursor)
        } else {
            Done.read(grammar, cursor)
        }
    }
}

/// Unary | (Chain or update) '**' Power
#[derive(Clone, Copy)]
pub struct Power(pub Lang, pub Context);

impl ReadsProduction<Row> for Power {
    ghost rule = { λ s. power s.0 s.1 };

    #[tactic(auto, unfolding(es_grammar::specs::Expressions::power))]
    fn read<T: Rows<Row>>(
        &self,
        grammar: &Grammar<'_, T>,
        cursor: &mut Cursor,
    ) -> Result<usize, SyntaxError> {
        let tokens = grammar.input.tokens;
        if Kinds::Prefix.is_there(&tokens, cursor.at) {
            return Prefix(self.1, NoPower(self.0)).read(grammar, cursor);
        }
        if tokens.sees(TokenKind::AwaitWord, cursor.at) {
            return Await(self.1, NoPower(self.0)).read(grammar, cursor);
        }
        AssertedBefore(
            self.0,
            self.1,
            NoPower(self.0),
            Operand(
                NodeKind::Binary,
                Update(self.0, self.1),
                Greedy(Is(TokenKind::StarStar)),
                Tok(
                    LeafKind::Kind,
                    Kinds::Only(TokenKind::StarStar),
                    OfRow(
                        Row::PowerRow(self.1),
                        When(Other(TokenKind::StarStar), Done),
                    ),
                ),
            ),
        )
        .read(grammar, cursor)
    }
}

/// A level of operators of one token, left-associative.
#[derive(Clone, Copy)]
pub struct Level<A>(pub Kinds, pub Row, pub A);

impl<A: ReadsProduction<Row> + Copy> ReadsProduction<Row> for Level<A> {
    ghost rule = { λ s. level (kinds_of s.0) s.1 (A.rule s.2) };

    #[tactic(auto, unfolding(es_grammar::specs::Expressions::level))]
    fn read<T: Rows<Row>>(
        &self,
        grammar: &Grammar<'_, T>,
        cursor: &mut Cursor,
    ) -> Result<usize, SyntaxError> {
        Wrap(
            NodeKind::Binary,
            self.2,
            Greedy(Has(self.0)),
            Tok(LeafKind::Kind, self.0, OfRow(self.1, Done)),
        )
        .read(grammar, cursor)
    }
}

/// Product: Power (('*' | '/' | '%') Power)*
#[derive(Clone, Copy)]
pub struct Product(pub Lang, pub Context);

impl ReadsProduction<Row> for Product {
    ghost rule = { λ s. product s.0 s.1 };

    #[tactic(auto, unfolding(es_grammar::specs::Expressions::product))]
    fn read<T: Rows<Row>>(
        &self,
        grammar: &Grammar<'_, T>,
        cursor: &mut Cursor,
    ) -> Result<usize, SyntaxError> {
        Level(Kinds::Product, Row::PowerRow(self.1), Power(self.0, self.1)).read(grammar, cursor)
    }
}

/// Sum: Product (('+' | '-') Product)*
#[derive(Clone, Copy)]
pub struct Sum(pub Lang, pub Context);

impl ReadsProduction<Row> for Sum {
    ghost rule = { λ s. sum s.0 s.1 };

    #[tactic(auto, unfolding(es_grammar::specs::Expressions::sum))]
    fn read<T: Rows<Row>>(
        &self,
        grammar: &Grammar<'_, T>,
        cursor: &mut Cursor,
    ) -> Result<usize, SyntaxError> {
        let from = cursor.here();
        let operand = Power(self.0, self.1).read(grammar, cursor);
        Arithmetic(self.1).read(from, operand, grammar, cursor)
    }
}

/// Shift: Sum (('<<' | '>>' | '>>>') Sum)*
#[derive(Clone, Copy)]
pub struct Shift(pub Lang, pub Context);

impl ReadsProduction<Row> for Shift {
    ghost rule = { λ s. shift s.0 s.1 };

    #[tactic(auto, unfolding(es_grammar::specs::Expressions::shift))]
    fn read<T: Rows<Row>>(
        &self,
        grammar: &Grammar<'_, T>,
        cursor: &mut Cursor,
    ) -> Result<usize, SyntaxError> {
        let from = cursor.here();
        let operand = Power(self.0, self.1).read(grammar, cursor);
        Both(Arithmetic(self.1), Shifted(self.0, self.1)).read(from, operand, grammar, cursor)
    }
}

/// PrivateName 'in' Shift
#[derive(Clone, Copy)]
pub struct PrivateIn(pub Context);

impl ReadsProduction<Row> for PrivateIn {
    ghost rule = { λ s. private_in s.0 };

    #[tactic(auto, unfolding(es_grammar::specs::Expressions::private_in))]
    fn read<T: Rows<Row>>(
        &self,
        grammar: &Grammar<'_, T>,
        cursor: &mut Cursor,
    ) -> Result<usize, SyntaxError> {
        Make(
            NodeKind::PrivateIn,
            Where(
                Predicate::MayTest(self.0),
                Tok(
                    LeafKind::Name,
                    Kinds::Only(TokenKind::PrivateName),
                    Punct(TokenKind::InWord, OfRow(Row::ShiftRow(self.0), Done)),
                ),
            ),
        )
        .read(grammar, cursor)
    }
}

/// Relation: (PrivateName 'in' Shift | Shift) (('<' | '<=' | '>' | '>=' | 'instanceof' | 'in') Shift)*
#[derive(Clone, Copy)]
pub struct Relation(pub Lang, pub Context);

impl ReadsProduction<Row> for Relation {
    ghost rule = { λ s. relation s.0 s.1 };

    #[tactic(auto, unfolding(es_grammar::specs::Expressions::relation))]
    fn read<T: Rows<Row>>(
        &self,
        grammar: &Grammar<'_, T>,
        cursor: &mut Cursor,
    ) -> Result<usize, SyntaxError> {
        let from = cursor.here();
        let operand = Power(self.0, self.1).read(grammar, cursor);
        Both(
            Both(
                Both(Arithmetic(self.1), Shifted(self.0, self.1)),
                Related(self.0, self.1),
            ),
            BehindTypes(self.0, self.1),
        )
        .read(from, operand, grammar, cursor)
    }
}

/// An operator of the level of `<`, and its operand.
#[derive(Clone, Copy)]
pub struct ComparisonIn(pub Context);

impl ReadsRhs<Row> for ComparisonIn {
    ghost form = { λ s. comparison_in s.0 };

    #[tactic(auto, unfolding(es_grammar::specs::Expressions::comparison_in))]
    fn read<T: Rows<Row>>(
        &self,
        grammar: &Grammar<'_, T>,
        cursor: &mut Cursor,
    ) -> Result<usize, SyntaxError> {
        Alt(
            Is(TokenKind::Greater),
            Tok(
                LeafKind::Kind,
                Kinds::Only(TokenKind::Greater),
                Opt(
                    ByPredicate(Predicate::Joins(TokenKind::Equal)),
                    Tok(LeafKind::There, Kinds::Only(TokenKind::Equal), Done),
                    Done,
                ),
            ),
            Tok(LeafKind::Kind, Kinds::Relation, Done),
            OfRow(Row::ShiftRow(self.0), Done),
        )
        .read(grammar, cursor)
    }
}

/// The right operand of an operator of the level of `<` or tighter, by the operator before it.
#[derive(Clone, Copy)]
pub struct RightOperand(pub Lang, pub Context);

impl ReadsProduction<Row> for RightOperand {
    ghost rule = { λ s. right_operand s.0 s.1 };

    #[tactic(auto, unfolding(es_grammar::specs::Expressions::right_operand))]
    fn read<T: Rows<Row>>(
        &self,
        grammar: &Grammar<'_, T>,
        cursor: &mut Cursor,
    ) -> Result<usize, SyntaxError> {
        Pick(
            Predicate::ComesBehind(Kinds::Tightest),
            Power(self.0, self.1),
            Pick(
                Predicate::ComesBehind(Kinds::Sum),
                Product(self.0, self.1),
                Pick(
                    Predicate::ComesBehind(Kinds::Only(TokenKind::LessLess)),
                    Sum(self.0, self.1),
                    Shift(self.0, self.1),
                ),
            ),
        )
        .read(grammar, cursor)
    }
}

/// An operator of the level of `<` or tighter, and its operand.
#[derive(Clone, Copy)]
pub struct TightIn(pub Context);

impl ReadsRhs<Row> for TightIn {
    ghost form = { λ s. tight_in s.0 };

    #[tactic(auto, unfolding(es_grammar::specs::Expressions::tight_in))]
    fn read<T: Rows<Row>>(
        &self,
        grammar: &Grammar<'_, T>,
        cursor: &mut Cursor,
    ) -> Result<usize, SyntaxError> {
        Alt(
            Is(TokenKind::Greater),
            Tok(
                LeafKind::Kind,
                Kinds::Only(TokenKind::Greater),
                Opt(
                    ByPredicate(Predicate::Joins(TokenKind::Equal)),
                    Tok(LeafKind::There, Kinds::Only(TokenKind::Equal), Done),
                    Done,
                ),
            ),
            Tok(LeafKind::Kind, Kinds::Tight, Done),
            OfRow(Row::RightRow(self.0), Done),
        )
        .read(grammar, cursor)
    }
}

/// Equality: Relation (('==' | '!=' | '===' | '!==') Relation)*
#[derive(Clone, Copy)]
pub struct Equality(pub Lang, pub Context);

impl ReadsProduction<Row> for Equality {
    ghost rule = { λ s. equality s.0 s.1 };

    #[tactic(auto, unfolding(es_grammar::specs::Expressions::equality))]
    fn read<T: Rows<Row>>(
        &self,
        grammar: &Grammar<'_, T>,
        cursor: &mut Cursor,
    ) -> Result<usize, SyntaxError> {
        let from = cursor.here();
        let operand = Power(self.0, self.1).read(grammar, cursor);
        Both(Arithmetic(self.1), Comparing(self.0, self.1)).read(from, operand, grammar, cursor)
    }
}

/// BitAnd: Equality ('&' Equality)*
#[derive(Clone, Copy)]
pub struct BitAnd(pub Lang, pub Context);

impl ReadsProduction<Row> for BitAnd {
    ghost rule = { λ s. bit_and s.0 s.1 };

    #[tactic(auto, unfolding(es_grammar::specs::Expressions::bit_and))]
    fn read<T: Rows<Row>>(
        &self,
        grammar: &Grammar<'_, T>,
        cursor: &mut Cursor,
    ) -> Result<usize, SyntaxError> {
        let from = cursor.here();
        let operand = Power(self.0, self.1).read(grammar, cursor);
        Both(
            Both(Arithmetic(self.1), Comparing(self.0, self.1)),
            LevelBehind(Kinds::Only(TokenKind::Ampersand), Row::EqualityRow(self.1)),
        )
        .read(from, operand, grammar, cursor)
    }
}

/// BitXor: BitAnd ('^' BitAnd)*
#[derive(Clone, Copy)]
pub struct BitXor(pub Lang, pub Context);

impl ReadsProduction<Row> for BitXor {
    ghost rule = { λ s. bit_xor s.0 s.1 };

    #[tactic(auto, unfolding(es_grammar::specs::Expressions::bit_xor))]
    fn read<T: Rows<Row>>(
        &self,
        grammar: &Grammar<'_, T>,
        cursor: &mut Cursor,
    ) -> Result<usize, SyntaxError> {
        let from = cursor.here();
        let operand = Power(self.0, self.1).read(grammar, cursor);
        Both(
            Both(Arithmetic(self.1), Comparing(self.0, self.1)),
            Both(
                LevelBehind(Kinds::Only(TokenKind::Ampersand), Row::EqualityRow(self.1)),
                LevelBehind(Kinds::Only(TokenKind::Caret), Row::BitAndRow(self.1)),
            ),
        )
        .read(from, operand, grammar, cursor)
    }
}

/// BitOr: BitXor ('|' BitXor)*
#[derive(Clone, Copy)]
pub struct BitOr(pub Lang, pub Context);

impl ReadsProduction<Row> for BitOr {
    ghost rule = { λ s. bit_or s.0 s.1 };

    #[tactic(auto, unfolding(es_grammar::specs::Expressions::bit_or))]
    fn read<T: Rows<Row>>(
        &self,
        grammar: &Grammar<'_, T>,
        cursor: &mut Cursor,
    ) -> Result<usize, SyntaxError> {
        let from = cursor.here();
        let operand = Power(self.0, self.1).read(grammar, cursor);
        Both(
            Both(Arithmetic(self.1), Comparing(self.0, self.1)),
            Bitwise(self.1),
        )
        .read(from, operand, grammar, cursor)
    }
}

/// '&&' after an operand.
#[derive(Clone, Copy)]
pub struct And<A>(pub Context, pub A);

impl<A: ReadsProduction<Row> + Copy> ReadsProduction<Row> for And<A> {
    ghost rule = { λ s. and_ s.0 (A.rule s.1) };

    #[tactic(auto, unfolding(es_grammar::specs::Expressions::and_))]
    fn read<T: Rows<Row>>(
        &self,
        grammar: &Grammar<'_, T>,
        cursor: &mut Cursor,
    ) -> Result<usize, SyntaxError> {
        Level(
            Kinds::Only(TokenKind::AmpersandAmpersand),
            Row::BitOrRow(self.0),
            self.1,
        )
        .read(grammar, cursor)
    }
}
