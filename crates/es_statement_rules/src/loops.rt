//! The loops with `for`.

ghost use Rattle.es_grammar.specs.Statements.{start_in, for_, for_each, for_await};

use es_grammar::{Context, NodeKind, Row};
use es_rules::{
    Alt, ByPredicate, Cursor, Done, Grammar, Greedy, LeafKind, Make, OfRow, Opt, Punct,
    ReadsProduction, ReadsRhs, Rows, Tok, Where,
};
use es_shared_rules::predicates::Lookahead::{Has, Is, Other};
use es_shared_rules::predicates::{Kinds, Predicate};
use es_token::TokenKind;
use grammar_theory::SyntaxError;

/// (Var | Using | Expr)?, where `in` is no operator, and what follows
#[derive(Clone, Copy)]
pub struct StartIn<N>(pub Context, pub N);

impl<N: ReadsRhs<Row> + Copy> ReadsRhs<Row> for StartIn<N> {
    ghost form = { λ s. start_in s.0 (N.form s.1) };

    #[tactic(auto, unfolding(es_grammar::specs::Statements::start_in))]
    fn read<T: Rows<Row>>(
        &self,
        grammar: &Grammar<'_, T>,
        cursor: &mut Cursor,
    ) -> Result<usize, SyntaxError> {
        let in_head = Context {
            no_in: true,
            in_constructor: false,
            ..self.0
        };
        Opt(
            Greedy(Has(Kinds::VariableWord)),
            OfRow(Row::VariablesRow(in_head), Done),
            Opt(
                ByPredicate(Predicate::StartsUsing),
                OfRow(Row::UsingRow(in_head), Done),
                Opt(
                    ByPredicate(Predicate::StartsExpression),
                    OfRow(Row::ExpressionRow(in_head), Done),
                    self.1,
                ),
            ),
        )
        .read(grammar, cursor)
    }
}

/// 'for' '(' (Var | Using | Expr)? ';' Expr? ';' Expr? ')' Stmt
#[derive(Clone, Copy)]
pub struct For(pub Context);

impl ReadsProduction<Row> for For {
    ghost rule = { λ s. for_ s.0 };

    #[tactic(auto, unfolding(es_grammar::specs::Statements::for_))]
    fn read<T: Rows<Row>>(
        &self,
        grammar: &Grammar<'_, T>,
        cursor: &mut Cursor,
    ) -> Result<usize, SyntaxError> {
        Make(
            NodeKind::ForStatement,
            Punct(
                TokenKind::ForWord,
                Punct(
                    TokenKind::OpenParen,
                    StartIn(
                        self.0,
                        Punct(
                            TokenKind::Semicolon,
                            Opt(
                                Greedy(Other(TokenKind::Semicolon)),
                                OfRow(Row::ExpressionRow(self.0), Done),
                                Punct(
                                    TokenKind::Semicolon,
                                    Opt(
                                        Greedy(Other(TokenKind::CloseParen)),
                                        OfRow(Row::ExpressionRow(self.0), Done),
                                        Punct(
                                            TokenKind::CloseParen,
                                            OfRow(Row::StatementRow(self.0), Done),
                                        ),
                                    ),
                                ),
                            ),
                        ),
                    ),
                ),
            ),
        )
        .read(grammar, cursor)
    }
}

/// 'for' '(' Head ('in' Expr | 'of' Assign) ')' Stmt
#[derive(Clone, Copy)]
pub struct ForEach(pub Context);

impl ReadsProduction<Row> for ForEach {
    ghost rule = { λ s. for_each s.0 };

    #[tactic(auto, unfolding(es_grammar::specs::Statements::for_each))]
    fn read<T: Rows<Row>>(
        &self,
        grammar: &Grammar<'_, T>,
        cursor: &mut Cursor,
    ) -> Result<usize, SyntaxError> {
        Make(
            NodeKind::ForEachStatement,
            Punct(
                TokenKind::ForWord,
                Punct(
                    TokenKind::OpenParen,
                    OfRow(
                        Row::HeadRow(self.0),
                        Alt(
                            Is(TokenKind::InWord),
                            Tok(
                                LeafKind::Kind,
                                Kinds::Only(TokenKind::InWord),
                                OfRow(Row::ExpressionRow(self.0), Done),
                            ),
                            Tok(
                                LeafKind::Kind,
                                Kinds::Only(TokenKind::OfWord),
                                OfRow(Row::AssignmentRow(self.0), Done),
                            ),
                            Punct(
                                TokenKind::CloseParen,
                                OfRow(Row::StatementRow(self.0), Done),
                            ),
                        ),
                    ),
                ),
            ),
        )
        .read(grammar, cursor)
    }
}

/// 'for' 'await' '(' Head 'of' Assign ')' Stmt
#[derive(Clone, Copy)]
pub struct ForAwait(pub Context);

impl ReadsProduction<Row> for ForAwait {
    ghost rule = { λ s. for_await s.0 };

    #[tactic(auto, unfolding(es_grammar::specs::Statements::for_await))]
    fn read<T: Rows<Row>>(
        &self,
        grammar: &Grammar<'_, T>,
        cursor: &mut Cursor,
    ) -> Result<usize, SyntaxError> {
        Make(
            NodeKind::ForAwaitStatement,
            Punct(
                TokenKind::ForWord,
                Where(
                    Predicate::MayAwait(self.0),
                    Punct(
                        TokenKind::AwaitWord,
                        Punct(
                            TokenKind::OpenParen,
                            OfRow(
                                Row::HeadRow(self.0),
                                Punct(
                                    TokenKind::OfWord,
                                    OfRow(
                                        Row::AssignmentRow(self.0),
                                        Punct(
                                            TokenKind::CloseParen,
                                            OfRow(Row::StatementRow(self.0), Done),
                                        ),
                                    ),
                                ),
                            ),
                        ),
                    ),
                ),
            ),
        )
        .read(grammar, cursor)
    }
}
