//! Functions and classes.

ghost use Rattle.es_grammar.specs.Expressions.{star_in, name_in, class_name_in, body_in, function, async_function, any_function, class_form, class_, abstract_class, any_class};

use crate::ends::Ended;
use crate::predicates::Lookahead::{Has, Is, Other};
use crate::predicates::{Kinds, Lookahead, Predicate};
use crate::typed::{HeritageIn, ImplementsIn, TypeParametersIn};
use es_grammar::{Context, NodeKind, Row};
use es_rules::{
    Alt, ByLookahead, ByPredicate, Choose, Cursor, Done, Grammar, Greedy, LeafKind, Make, MakeBy,
    Many, OfRow, Opt, Punct, ReadsProduction, ReadsRhs, Rows, Tok, When,
};
use es_token::TokenKind;
use grammar_theory::{Lang, SyntaxError};

/// '*'?, and what follows
#[derive(Clone, Copy)]
pub struct StarIn<N>(pub N);

impl<N: ReadsRhs<Row> + Copy> ReadsRhs<Row> for StarIn<N> {
    ghost form = { λ s. star_in (N.form s.0) };

    #[tactic(auto, unfolding(es_grammar::specs::Expressions::star_in))]
    fn read<T: Rows<Row>>(
        &self,
        grammar: &Grammar<'_, T>,
        cursor: &mut Cursor,
    ) -> Result<usize, SyntaxError> {
        Opt(
            Greedy(Is(TokenKind::Star)),
            Tok(LeafKind::There, Kinds::Only(TokenKind::Star), Done),
            self.0,
        )
        .read(grammar, cursor)
    }
}

/// A name, required (true) or optional (false), and what follows.
#[derive(Clone, Copy)]
pub struct NameIn<N>(pub bool, pub N);

impl<N: ReadsRhs<Row> + Copy> ReadsRhs<Row> for NameIn<N> {
    ghost form = { λ s. name_in s.0 (N.form s.1) };

    #[tactic(auto, unfolding(es_grammar::specs::Expressions::name_in))]
    fn read<T: Rows<Row>>(
        &self,
        grammar: &Grammar<'_, T>,
        cursor: &mut Cursor,
    ) -> Result<usize, SyntaxError> {
        if self.0 {
            Tok(LeafKind::Name, Kinds::Name, self.1).read(grammar, cursor)
        } else {
            Opt(
                Greedy(Has(Kinds::Name)),
                Tok(LeafKind::Name, Kinds::Name, Done),
                self.1,
            )
            .read(grammar, cursor)
        }
    }
}

/// A class's name, required (true) or optional (false), and what follows.
#[derive(Clone, Copy)]
pub struct ClassNameIn<N>(pub Lang, pub bool, pub N);

impl<N: ReadsRhs<Row> + Copy> ReadsRhs<Row> for ClassNameIn<N> {
    ghost form = { λ s. class_name_in s.0 s.1 (N.form s.2) };

    #[tactic(auto, unfolding(es_grammar::specs::Expressions::class_name_in))]
    fn read<T: Rows<Row>>(
        &self,
        grammar: &Grammar<'_, T>,
        cursor: &mut Cursor,
    ) -> Result<usize, SyntaxError> {
        if self.0.is_typed() {
            if self.1 {
                return NameIn(true, self.2).read(grammar, cursor);
            }
            Opt(
                ByPredicate(Predicate::OpensClassName),
                Tok(LeafKind::Name, Kinds::Name, Done),
                self.2,
            )
            .read(grammar, cursor)
        } else {
            NameIn(self.1, self.2).read(grammar, cursor)
        }
    }
}

/// Block | TS END
#[derive(Clone, Copy)]
pub struct BodyIn(pub Lang, pub Context);

impl ReadsRhs<Row> for BodyIn {
    ghost form = { λ s. body_in s.0 s.1 };

    #[tactic(auto, unfolding(es_grammar::specs::Expressions::body_in))]
    fn read<T: Rows<Row>>(
        &self,
        grammar: &Grammar<'_, T>,
        cursor: &mut Cursor,
    ) -> Result<usize, SyntaxError> {
        if self.0.is_typed() {
            Alt(
                Is(TokenKind::OpenBrace),
                OfRow(Row::BlockRow(self.1), Done),
                When(Other(TokenKind::OpenBrace), Ended),
                Done,
            )
            .read(grammar, cursor)
        } else {
            OfRow(Row::BlockRow(self.1), Done).read(grammar, cursor)
        }
    }
}

/// 'function' '*'? Name? Sig (Block | TS END)
#[derive(Clone, Copy)]
pub struct Function(pub Lang, pub bool, pub Context);

impl ReadsProduction<Row> for Function {
    ghost rule = { λ s. function s.0 s.1 s.2 };

    #[tactic(auto, unfolding(es_grammar::specs::Expressions::function))]
    fn read<T: Rows<Row>>(
        &self,
        grammar: &Grammar<'_, T>,
        cursor: &mut Cursor,
    ) -> Result<usize, SyntaxError> {
        let outside = Context {
            no_in: false,
            no_colon: false,
            in_constructor: false,
            ..self.2
        };
        MakeBy(
            self.0,
            NodeKind::Function,
            NodeKind::TypedFunction,
            Punct(
                TokenKind::FunctionWord,
                StarIn(NameIn(
                    self.1,
                    OfRow(Row::SignatureRow(outside), BodyIn(self.0, outside)),
                )),
            ),
        )
        .read(grammar, cursor)
    }
}

/// 'async' ~ 'function' '*'? Name? Sig Block
#[derive(Clone, Copy)]
pub struct AsyncFunction(pub Lang, pub bool, pub Context);

impl ReadsProduction<Row> for AsyncFunction {
    ghost rule = { λ s. async_function s.0 s.1 s.2 };

    #[tactic(auto, unfolding(es_grammar::specs::Expressions::async_function))]
    fn read<T: Rows<Row>>(
        &self,
        grammar: &Grammar<'_, T>,
        cursor: &mut Cursor,
    ) -> Result<usize, SyntaxError> {
        let async_in = Context {
            no_in: false,
            no_colon: false,
            in_constructor: false,
            in_async: true,
            ..self.2
        };
        MakeBy(
            self.0,
            NodeKind::AsyncFunction,
            NodeKind::TypedAsyncFunction,
            Punct(
                TokenKind::AsyncWord,
                When(
                    Lookahead::Near,
                    Punct(
                        TokenKind::FunctionWord,
                        StarIn(NameIn(
                            self.1,
                            OfRow(Row::SignatureRow(async_in), BodyIn(self.0, async_in)),
                        )),
                    ),
                ),
            ),
        )
        .read(grammar, cursor)
    }
}

/// Fn: 'function' .. | 'async' ~ 'function' ..
#[derive(Clone, Copy)]
pub struct AnyFunction(pub Lang, pub bool, pub Context);

impl ReadsProduction<Row> for AnyFunction {
    ghost rule = { λ s. any_function s.0 s.1 s.2 };

    #[tactic(auto, unfolding(es_grammar::specs::Expressions::any_function))]
    fn read<T: Rows<Row>>(
        &self,
        grammar: &Grammar<'_, T>,
        cursor: &mut Cursor,
    ) -> Result<usize, SyntaxError> {
        Choose(
            Is(TokenKind::AsyncWord),
            AsyncFunction(self.0, self.1, self.2),
            Function(self.0, self.1, self.2),
        )
        .read(grammar, cursor)
    }
}

/// 'class' Name? (TS TParams)? ('extends' Chain (TS TArgs)?)? (TS 'implements' Ref%+)? '{' Member* '}'
#[derive(Clone, Copy)]
pub struct ClassForm(pub Lang, pub bool, pub Context);

impl ReadsRhs<Row> for ClassForm {
    ghost form = { λ s. class_form s.0 s.1 s.2 };

    #[tactic(auto, unfolding(es_grammar::specs::Expressions::class_form))]
    fn read<T: Rows<Row>>(
        &self,
        grammar: &Grammar<'_, T>,
        cursor: &mut Cursor,
    ) -> Result<usize, SyntaxError> {
        let outside = Context {
            no_in: false,
            no_colon: false,
            in_constructor: false,
            ..self.2
        };
        let body = Punct(
            TokenKind::OpenBrace,
            Many(
                ByLookahead(Other(TokenKind::CloseBrace)),
                OfRow(Row::MemberRow(outside), Done),
                Punct(TokenKind::CloseBrace, Done),
            ),
        );
        let superclass = OfRow(Row::ChainRow(outside), HeritageIn(self.0, Done));
        Punct(
            TokenKind::ClassWord,
            ClassNameIn(
                self.0,
                self.1,
                TypeParametersIn(
                    self.0,
                    Opt(
                        Greedy(Is(TokenKind::ExtendsWord)),
                        Punct(TokenKind::ExtendsWord, superclass),
                        ImplementsIn(self.0, body),
                    ),
                ),
            ),
        )
        .read(grammar, cursor)
    }
}

/// Class, without `abstract`.
#[derive(Clone, Copy)]
pub struct Class(pub Lang, pub bool, pub Context);

impl ReadsProduction<Row> for Class {
    ghost rule = { λ s. class_ s.0 s.1 s.2 };

    #[tactic(auto, unfolding(es_grammar::specs::Expressions::class_))]
    fn read<T: Rows<Row>>(
        &self,
        grammar: &Grammar<'_, T>,
        cursor: &mut Cursor,
    ) -> Result<usize, SyntaxError> {
        MakeBy(
            self.0,
            NodeKind::Class,
            NodeKind::TypedClass,
            ClassForm(self.0, self.1, self.2),
        )
        .read(grammar, cursor)
    }
}

/// TS 'abstract' 'class' ..
#[derive(Clone, Copy)]
pub struct AbstractClass(pub Lang, pub bool, pub Context);

impl ReadsProduction<Row> for AbstractClass {
    ghost rule = { λ s. abstract_class s.0 s.1 s.2 };

    #[tactic(auto, unfolding(es_grammar::specs::Expressions::abstract_class))]
    fn read<T: Rows<Row>>(
        &self,
        grammar: &Grammar<'_, T>,
        cursor: &mut Cursor,
    ) -> Result<usize, SyntaxError> {
        Make(
            NodeKind::AbstractClass,
            Punct(TokenKind::AbstractWord, ClassForm(self.0, self.1, self.2)),
        )
        .read(grammar, cursor)
    }
}

/// Class
#[derive(Clone, Copy)]
pub struct AnyClass(pub Lang, pub bool, pub Context);

impl ReadsProduction<Row> for AnyClass {
    ghost rule = { λ s. any_class s.0 s.1 s.2 };

    #[tactic(auto, unfolding(es_grammar::specs::Expressions::any_class))]
    fn read<T: Rows<Row>>(
        &self,
        grammar: &Grammar<'_, T>,
        cursor: &mut Cursor,
    ) -> Result<usize, SyntaxError> {
        if self.0.is_typed() {
            Choose(
                Is(TokenKind::AbstractWord),
                AbstractClass(self.0, self.1, self.2),
                Class(self.0, self.1, self.2),
            )
            .read(grammar, cursor)
        } else {
            Class(self.0, self.1, self.2).read(grammar, cursor)
        }
    }
}
