//! Blocks and declarations.

ghost use Rattle.es_grammar.specs.Statements.{condition_in, block, typed_declarator, declarator, declarators, variables, using_};
ghost use Rattle.es_grammar.specs.Declarations.{plain_declaration, declaration};

use crate::typed::{Declare, Enum, TypedDeclaration};
use es_grammar::{Context, NodeKind, Row};
use es_rules::{
    ByLookahead, Cursor, Done, Grammar, Greedy, Holds, IsOfKinds, LeafKind, Make, Many, OfRow, Opt,
    Pick, Punct, ReadsProduction, ReadsRhs, Rows, Tok, When, Wrap,
};
use es_shared_rules::predicates::Lookahead::{Is, Other};
use es_shared_rules::predicates::{Kinds, Lookahead, Predicate};
use es_shared_rules::{
    AbstractClass, Annotation, AsyncFunction, Class, Ended, Function, Pattern, UsingIn,
};
use es_token::TokenKind;
use grammar_theory::{Lang, SyntaxError};

/// '(' Expr ')', and what follows
#[derive(Clone, Copy)]
pub struct ConditionIn<N>(pub Context, pub N);

impl<N: ReadsRhs<Row> + Copy> ReadsRhs<Row> for ConditionIn<N> {
    ghost form = { λ s. condition_in s.0 (N.form s.1) };

    #[tactic(auto, unfolding(es_grammar::specs::Statements::condition_in))]
    fn read<T: Rows<Row>>(
        &self,
        grammar: &Grammar<'_, T>,
        cursor: &mut Cursor,
    ) -> Result<usize, SyntaxError> {
        Punct(
            TokenKind::OpenParen,
            OfRow(
                Row::ExpressionRow(self.0),
                Punct(TokenKind::CloseParen, self.1),
            ),
        )
        .read(grammar, cursor)
    }
}

/// Block: '{' Stmt* '}'
#[derive(Clone, Copy)]
pub struct Block(pub Context);

impl ReadsProduction<Row> for Block {
    ghost rule = { λ s. block s.0 };

    #[tactic(auto, unfolding(es_grammar::specs::Statements::block))]
    fn read<T: Rows<Row>>(
        &self,
        grammar: &Grammar<'_, T>,
        cursor: &mut Cursor,
    ) -> Result<usize, SyntaxError> {
        Make(
            NodeKind::Block,
            Punct(
                TokenKind::OpenBrace,
                Many(
                    ByLookahead(Other(TokenKind::CloseBrace)),
                    OfRow(Row::StatementRow(self.0), Done),
                    Punct(TokenKind::CloseBrace, Done),
                ),
            ),
        )
        .read(grammar, cursor)
    }
}

/// Dtor: Pat ('=' Assign)?, without a node of its own where it is a pattern alone.
#[derive(Clone, Copy)]
pub struct Declarator(pub Lang, pub Context);

impl ReadsProduction<Row> for Declarator {
    ghost rule = { λ s. declarator s.0 s.1 };

    #[tactic(auto, unfolding(es_grammar::specs::Statements::declarator))]
    fn read<T: Rows<Row>>(
        &self,
        grammar: &Grammar<'_, T>,
        cursor: &mut Cursor,
    ) -> Result<usize, SyntaxError> {
        let outside = Context {
            no_in: false,
            no_colon: false,
            in_constructor: false,
            ..self.1
        };
        if self.0.is_typed() {
            TypedDeclarator(self.0, self.1).read(grammar, cursor)
        } else {
            Wrap(
                NodeKind::Declarator,
                Pattern(self.0, false, outside),
                Greedy(Is(TokenKind::Equal)),
                Punct(
                    TokenKind::Equal,
                    OfRow(
                        Row::AssignmentRow(self.1),
                        When(Other(TokenKind::Equal), Done),
                    ),
                ),
            )
            .read(grammar, cursor)
        }
    }
}

/// The same of TypeScript: Pat '!'? (':' Type)? ('=' Assign)?
#[derive(Clone, Copy)]
struct TypedDeclarator(Lang, Context);

impl ReadsProduction<Row> for TypedDeclarator {
    ghost rule = { λ s. typed_declarator s.0 s.1 };

    fn read<T: Rows<Row>>(
        &self,
        grammar: &Grammar<'_, T>,
        cursor: &mut Cursor,
    ) -> Result<usize, SyntaxError> {
        let outside = Context {
            no_in: false,
            no_colon: false,
            in_constructor: false,
            ..self.1
        };
        let value = Opt(
            Greedy(Is(TokenKind::Equal)),
            Punct(TokenKind::Equal, OfRow(Row::AssignmentRow(self.1), Done)),
            Done,
        );
        Pick(
            Predicate::OpensDeclarator,
            Make(
                NodeKind::TypedDeclarator,
                OfRow(
                    Row::PatternRow(false, outside),
                    Opt(
                        Greedy(Lookahead::NonNull),
                        When(
                            Lookahead::Near,
                            Tok(LeafKind::There, Kinds::Only(TokenKind::Exclamation), Done),
                        ),
                        Annotation(value),
                    ),
                ),
            ),
            Pattern(self.0, false, outside),
        )
        .read(grammar, cursor)
    }
}

/// Dtor (',' Dtor)*
#[derive(Clone, Copy)]
pub struct Declarators(pub Context);

impl ReadsRhs<Row> for Declarators {
    ghost form = { λ s. declarators s.0 };

    #[tactic(auto, unfolding(es_grammar::specs::Statements::declarators))]
    fn read<T: Rows<Row>>(
        &self,
        grammar: &Grammar<'_, T>,
        cursor: &mut Cursor,
    ) -> Result<usize, SyntaxError> {
        OfRow(
            Row::DeclaratorRow(self.0),
            Many(
                Greedy(Is(TokenKind::Comma)),
                Punct(TokenKind::Comma, OfRow(Row::DeclaratorRow(self.0), Done)),
                Done,
            ),
        )
        .read(grammar, cursor)
    }
}

/// Var: ('var' | 'let' | 'const') Dtor (',' Dtor)*
#[derive(Clone, Copy)]
pub struct Variables(pub Context);

impl ReadsProduction<Row> for Variables {
    ghost rule = { λ s. variables s.0 };

    #[tactic(auto, unfolding(es_grammar::specs::Statements::variables))]
    fn read<T: Rows<Row>>(
        &self,
        grammar: &Grammar<'_, T>,
        cursor: &mut Cursor,
    ) -> Result<usize, SyntaxError> {
        Make(
            NodeKind::Variables,
            Tok(LeafKind::Kind, Kinds::VariableWord, Declarators(self.0)),
        )
        .read(grammar, cursor)
    }
}

/// Using: ('await' ~)? 'using' ~ Dtor (',' Dtor)*
#[derive(Clone, Copy)]
pub struct Using(pub Context);

impl ReadsProduction<Row> for Using {
    ghost rule = { λ s. using_ s.0 };

    #[tactic(auto, unfolding(es_grammar::specs::Statements::using_))]
    fn read<T: Rows<Row>>(
        &self,
        grammar: &Grammar<'_, T>,
        cursor: &mut Cursor,
    ) -> Result<usize, SyntaxError> {
        Make(NodeKind::Using, UsingIn(self.0, Declarators(self.0))).read(grammar, cursor)
    }
}

/// Decl, or another rule.
#[derive(Clone, Copy)]
pub struct Declaration<A>(pub Lang, pub Context, pub A);

impl<A: ReadsProduction<Row> + Copy> ReadsProduction<Row> for Declaration<A> {
    ghost rule = { λ s. declaration s.0 s.1 (A.rule s.2) };

    #[tactic(auto, unfolding(es_grammar::specs::Declarations::declaration))]
    fn read<T: Rows<Row>>(
        &self,
        grammar: &Grammar<'_, T>,
        cursor: &mut Cursor,
    ) -> Result<usize, SyntaxError> {
        if self.0.is_typed() {
            Pick(
                Predicate::OpensEnum,
                Enum(self.1),
                Pick(
                    Predicate::OpensDeclare,
                    Declare(self.1),
                    Pick(
                        Predicate::OpensAbstractClass,
                        AbstractClass(self.0, true, self.1),
                        TypedDeclaration(self.1, PlainDeclaration(self.0, self.1, self.2)),
                    ),
                ),
            )
            .read(grammar, cursor)
        } else {
            PlainDeclaration(self.0, self.1, self.2).read(grammar, cursor)
        }
    }
}

/// Var END | Using END | Fn | Class, or another rule.
#[derive(Clone, Copy)]
pub struct PlainDeclaration<A>(pub Lang, pub Context, pub A);

impl<A: ReadsProduction<Row> + Copy> ReadsProduction<Row> for PlainDeclaration<A> {
    ghost rule = { λ s. plain_declaration s.0 s.1 (A.rule s.2) };

    #[tactic(auto, unfolding(es_grammar::specs::Declarations::plain_declaration))]
    fn read<T: Rows<Row>>(
        &self,
        grammar: &Grammar<'_, T>,
        cursor: &mut Cursor,
    ) -> Result<usize, SyntaxError> {
        let tokens = grammar.input.tokens;
        if Kinds::VariableWord.is_there(&tokens, cursor.at) {
            return Make(
                NodeKind::VariableDeclaration,
                OfRow(Row::VariablesRow(self.1), Ended),
            )
            .read(grammar, cursor);
        }
        if tokens.sees(TokenKind::FunctionWord, cursor.at) {
            return Function(self.0, true, self.1).read(grammar, cursor);
        }
        if tokens.sees(TokenKind::ClassWord, cursor.at) {
            return Class(self.0, true, self.1).read(grammar, cursor);
        }
        if Predicate::OpensUsing.holds(&grammar.input, cursor.at) {
            return Make(
                NodeKind::UsingDeclaration,
                OfRow(Row::UsingRow(self.1), Ended),
            )
            .read(grammar, cursor);
        }
        if Predicate::OpensAsyncFunction.holds(&grammar.input, cursor.at) {
            return AsyncFunction(self.0, true, self.1).read(grammar, cursor);
        }
        self.2.read(grammar, cursor)
    }
}
