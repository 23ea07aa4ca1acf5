//! Statements.

ghost use Rattle.es_grammar.specs.Statements.{return_, case_in, switch_, finally_in, try_, expression_statement, keyword_statement, other_statement};
ghost use Rattle.es_grammar.specs.Declarations.{statement};
ghost use Rattle.es_grammar.specs.types.Statements.{label_ended};

use crate::declarations::{Block, ConditionIn, Declaration};
use crate::loops::{For, ForAwait, ForEach};
use es_grammar::{Context, NodeKind, Row};
use es_rules::{
    Alt, ByLookahead, Cursor, Done, Grammar, Greedy, Holds, LeafKind, Make, MakeBy, Many, OfRow,
    Opt, Pick, Punct, ReadsProduction, ReadsRhs, Rows, Tok, When, Where,
};
use es_shared_rules::predicates::Lookahead::Is;
use es_shared_rules::predicates::{Kinds, Lookahead, Predicate};
use es_shared_rules::{AnnotationIn, Ended, without_colon};
use es_token::TokenKind;
use grammar_theory::{Lang, SyntaxError};

/// (~ Name)? END
#[derive(Clone, Copy)]
pub struct LabelEnded;

impl ReadsRhs<Row> for LabelEnded {
    ghost form = { λ _. label_ended };

    #[tactic(auto, unfolding(es_grammar::specs::types::Statements::label_ended))]
    fn read<T: Rows<Row>>(
        &self,
        grammar: &Grammar<'_, T>,
        cursor: &mut Cursor,
    ) -> Result<usize, SyntaxError> {
        Opt(
            Greedy(Lookahead::LabelHere),
            When(Lookahead::Near, Tok(LeafKind::Name, Kinds::Name, Done)),
            Ended,
        )
        .read(grammar, cursor)
    }
}

/// 'return' (~ Expr)? END
#[derive(Clone, Copy)]
pub struct Return(pub Lang, pub Context);

impl ReadsProduction<Row> for Return {
    ghost rule = { λ s. return_ s.0 s.1 };

    #[tactic(auto, unfolding(es_grammar::specs::Statements::return_))]
    fn read<T: Rows<Row>>(
        &self,
        grammar: &Grammar<'_, T>,
        cursor: &mut Cursor,
    ) -> Result<usize, SyntaxError> {
        Make(
            NodeKind::ReturnStatement,
            Punct(
                TokenKind::ReturnWord,
                Alt(
                    Lookahead::ValueHere(self.0),
                    When(Lookahead::Near, OfRow(Row::ExpressionRow(self.1), Ended)),
                    Ended,
                    Done,
                ),
            ),
        )
        .read(grammar, cursor)
    }
}

/// ('case' Expr | 'default') ':' Stmt*
#[derive(Clone, Copy)]
pub struct CaseIn(pub Lang, pub Context);

impl ReadsRhs<Row> for CaseIn {
    ghost form = { λ s. case_in s.0 s.1 };

    #[tactic(auto, unfolding(es_grammar::specs::Statements::case_in))]
    fn read<T: Rows<Row>>(
        &self,
        grammar: &Grammar<'_, T>,
        cursor: &mut Cursor,
    ) -> Result<usize, SyntaxError> {
        Alt(
            Is(TokenKind::CaseWord),
            Punct(
                TokenKind::CaseWord,
                OfRow(Row::ExpressionRow(without_colon(self.0, self.1)), Done),
            ),
            Punct(TokenKind::DefaultWord, Done),
            Punct(
                TokenKind::Colon,
                Many(
                    ByLookahead(Lookahead::InCase),
                    OfRow(Row::StatementRow(self.1), Done),
                    Done,
                ),
            ),
        )
        .read(grammar, cursor)
    }
}

/// 'switch' '(' Expr ')' '{' .. '}'
#[derive(Clone, Copy)]
pub struct Switch(pub Lang, pub Context);

impl ReadsProduction<Row> for Switch {
    ghost rule = { λ s. switch_ s.0 s.1 };

    #[tactic(auto, unfolding(es_grammar::specs::Statements::switch_))]
    fn read<T: Rows<Row>>(
        &self,
        grammar: &Grammar<'_, T>,
        cursor: &mut Cursor,
    ) -> Result<usize, SyntaxError> {
        Make(
            NodeKind::SwitchStatement,
            Punct(
                TokenKind::SwitchWord,
                ConditionIn(
                    self.1,
                    Punct(
                        TokenKind::OpenBrace,
                        Many(
                            ByLookahead(Lookahead::Case),
                            CaseIn(self.0, self.1),
                            Punct(TokenKind::CloseBrace, Done),
                        ),
                    ),
                ),
            ),
        )
        .read(grammar, cursor)
    }
}

/// 'finally' Block
#[derive(Clone, Copy)]
pub struct FinallyIn(pub Context);

impl ReadsRhs<Row> for FinallyIn {
    ghost form = { λ s. finally_in s.0 };

    #[tactic(auto, unfolding(es_grammar::specs::Statements::finally_in))]
    fn read<T: Rows<Row>>(
        &self,
        grammar: &Grammar<'_, T>,
        cursor: &mut Cursor,
    ) -> Result<usize, SyntaxError> {
        Punct(TokenKind::FinallyWord, OfRow(Row::BlockRow(self.0), Done)).read(grammar, cursor)
    }
}

/// 'try' Block ('catch' ('(' Pat ')')? Block)? ('finally' Block)?, with one of the two at least.
#[derive(Clone, Copy)]
pub struct Try(pub Lang, pub Context);

impl ReadsProduction<Row> for Try {
    ghost rule = { λ s. try_ s.0 s.1 };

    #[tactic(auto, unfolding(es_grammar::specs::Statements::try_))]
    fn read<T: Rows<Row>>(
        &self,
        grammar: &Grammar<'_, T>,
        cursor: &mut Cursor,
    ) -> Result<usize, SyntaxError> {
        MakeBy(
            self.0,
            NodeKind::TryStatement,
            NodeKind::TypedTryStatement,
            Punct(
                TokenKind::TryWord,
                OfRow(
                    Row::BlockRow(self.1),
                    Alt(
                        Is(TokenKind::CatchWord),
                        Punct(
                            TokenKind::CatchWord,
                            Opt(
                                Greedy(Is(TokenKind::OpenParen)),
                                Punct(
                                    TokenKind::OpenParen,
                                    OfRow(
                                        Row::PatternRow(false, self.1),
                                        AnnotationIn(self.0, Punct(TokenKind::CloseParen, Done)),
                                    ),
                                ),
                                OfRow(
                                    Row::BlockRow(self.1),
                                    Opt(
                                        Greedy(Is(TokenKind::FinallyWord)),
                                        FinallyIn(self.1),
                                        Done,
                                    ),
                                ),
                            ),
                        ),
                        FinallyIn(self.1),
                        Done,
                    ),
                ),
            ),
        )
        .read(grammar, cursor)
    }
}

/// Expr END
#[derive(Clone, Copy)]
pub struct ExpressionStatement(pub Context);

impl ReadsProduction<Row> for ExpressionStatement {
    ghost rule = { λ s. expression_statement s.0 };

    #[tactic(auto, unfolding(es_grammar::specs::Statements::expression_statement))]
    fn read<T: Rows<Row>>(
        &self,
        grammar: &Grammar<'_, T>,
        cursor: &mut Cursor,
    ) -> Result<usize, SyntaxError> {
        Make(
            NodeKind::ExpressionStatement,
            When(
                Lookahead::BeginsNoOther,
                OfRow(Row::ExpressionRow(self.0), Ended),
            ),
        )
        .read(grammar, cursor)
    }
}

/// The statements that begin with a keyword of their own, or another rule.
#[derive(Clone, Copy)]
pub struct KeywordStatement<A>(pub Lang, pub Context, pub A);

impl<A: ReadsProduction<Row> + Copy> ReadsProduction<Row> for KeywordStatement<A> {
    ghost rule = { λ s. keyword_statement s.0 s.1 (A.rule s.2) };

    #[tactic(auto, unfolding(es_grammar::specs::Statements::keyword_statement))]
    fn read<T: Rows<Row>>(
        &self,
        grammar: &Grammar<'_, T>,
        cursor: &mut Cursor,
    ) -> Result<usize, SyntaxError> {
        let tokens = grammar.input.tokens;
        if tokens.sees(TokenKind::IfWord, cursor.at) {
            return Make(
                NodeKind::IfStatement,
                Punct(
                    TokenKind::IfWord,
                    ConditionIn(
                        self.1,
                        OfRow(
                            Row::StatementRow(self.1),
                            Opt(
                                Greedy(Is(TokenKind::ElseWord)),
                                Punct(TokenKind::ElseWord, OfRow(Row::StatementRow(self.1), Done)),
                                Done,
                            ),
                        ),
                    ),
                ),
            )
            .read(grammar, cursor);
        }
        if tokens.sees(TokenKind::ForWord, cursor.at) {
            return Pick(
                Predicate::OpensForAwait,
                ForAwait(self.1),
                Pick(Predicate::OpensFor, For(self.1), ForEach(self.1)),
            )
            .read(grammar, cursor);
        }
        if tokens.sees(TokenKind::WhileWord, cursor.at) {
            return Make(
                NodeKind::WhileStatement,
                Punct(
                    TokenKind::WhileWord,
                    ConditionIn(self.1, OfRow(Row::StatementRow(self.1), Done)),
                ),
            )
            .read(grammar, cursor);
        }
        if tokens.sees(TokenKind::DoWord, cursor.at) {
            return Make(
                NodeKind::DoStatement,
                Punct(
                    TokenKind::DoWord,
                    OfRow(
                        Row::StatementRow(self.1),
                        Punct(
                            TokenKind::WhileWord,
                            ConditionIn(
                                self.1,
                                Opt(
                                    Greedy(Is(TokenKind::Semicolon)),
                                    Punct(TokenKind::Semicolon, Done),
                                    Done,
                                ),
                            ),
                        ),
                    ),
                ),
            )
            .read(grammar, cursor);
        }
        if tokens.sees(TokenKind::ContinueWord, cursor.at) {
            return Make(
                NodeKind::ContinueStatement,
                Punct(TokenKind::ContinueWord, LabelEnded),
            )
            .read(grammar, cursor);
        }
        if tokens.sees(TokenKind::BreakWord, cursor.at) {
            return Make(
                NodeKind::BreakStatement,
                Punct(TokenKind::BreakWord, LabelEnded),
            )
            .read(grammar, cursor);
        }
        if tokens.sees(TokenKind::ReturnWord, cursor.at) {
            return Return(self.0, self.1).read(grammar, cursor);
        }
        if tokens.sees(TokenKind::ThrowWord, cursor.at) {
            return Make(
                NodeKind::ThrowStatement,
                Punct(
                    TokenKind::ThrowWord,
                    When(Lookahead::Near, OfRow(Row::ExpressionRow(self.1), Ended)),
                ),
            )
            .read(grammar, cursor);
        }
        if tokens.sees(TokenKind::SwitchWord, cursor.at) {
            return Switch(self.0, self.1).read(grammar, cursor);
        }
        if tokens.sees(TokenKind::TryWord, cursor.at) {
            return Try(self.0, self.1).read(grammar, cursor);
        }
        if tokens.sees(TokenKind::DebuggerWord, cursor.at) {
            return Make(
                NodeKind::DebuggerStatement,
                Punct(TokenKind::DebuggerWord, Ended),
            )
            .read(grammar, cursor);
        }
        if tokens.sees(TokenKind::WithWord, cursor.at) {
            return Make(
                NodeKind::WithStatement,
                Punct(
                    TokenKind::WithWord,
                    Where(
                        Predicate::IsScript(self.1),
                        ConditionIn(self.1, OfRow(Row::StatementRow(self.1), Done)),
                    ),
                ),
            )
            .read(grammar, cursor);
        }
        self.2.read(grammar, cursor)
    }
}

/// Name ':' Stmt, or an expression.
#[derive(Clone, Copy)]
struct OtherStatement(Context);

impl ReadsProduction<Row> for OtherStatement {
    ghost rule = { λ s. other_statement s.0 };

    #[tactic(auto, unfolding(es_grammar::specs::Statements::other_statement))]
    fn read<T: Rows<Row>>(
        &self,
        grammar: &Grammar<'_, T>,
        cursor: &mut Cursor,
    ) -> Result<usize, SyntaxError> {
        if Predicate::OpensLabel.holds(&grammar.input, cursor.at) {
            return Make(
                NodeKind::LabelledStatement,
                Tok(
                    LeafKind::Name,
                    Kinds::Name,
                    Punct(TokenKind::Colon, OfRow(Row::StatementRow(self.0), Done)),
                ),
            )
            .read(grammar, cursor);
        }
        ExpressionStatement(self.0).read(grammar, cursor)
    }
}

/// Stmt: a statement or a declaration.
#[derive(Clone, Copy)]
pub struct Statement(pub Lang, pub Context);

impl ReadsProduction<Row> for Statement {
    ghost rule = { λ s. statement s.0 s.1 };

    #[tactic(auto, unfolding(es_grammar::specs::Declarations::statement))]
    fn read<T: Rows<Row>>(
        &self,
        grammar: &Grammar<'_, T>,
        cursor: &mut Cursor,
    ) -> Result<usize, SyntaxError> {
        let tokens = grammar.input.tokens;
        if tokens.sees(TokenKind::OpenBrace, cursor.at) {
            return Block(self.1).read(grammar, cursor);
        }
        if tokens.sees(TokenKind::Semicolon, cursor.at) {
            return Make(NodeKind::EmptyStatement, Punct(TokenKind::Semicolon, Done)).read(
                grammar, cursor,
            );
        }
        KeywordStatement(
            self.0,
            self.1,
            Declaration(self.0, self.1, OtherStatement(self.1)),
        )
        .read(grammar, cursor)
    }
}
