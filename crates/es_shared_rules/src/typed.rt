//! Parts of TypeScript alone: in JavaScript none of them is there.

ghost use Rattle.std.specs.Prelude.{◌≡◌};
ghost use Rattle.es_grammar.specs.Rows.{without_colon};
ghost use Rattle.es_grammar.specs.Embedding.{typed_in, type_parameters_in, type_arguments_in, annotation_in, result_in};
ghost use Rattle.es_grammar.specs.Expressions.{new_arguments_in, heritage_in, implements_in, references_in, arrow_result_in, asserted, asserted_or};

use crate::predicates::Lookahead::{Has, Is};
use crate::predicates::{Kinds, Lookahead, Predicate};
use es_grammar::{Context, Row, TypeRow};
use es_rules::{
    Alt, ByPredicate, Cursor, Done, Grammar, Greedy, LeafKind, Many, OfRow, Opt, Punct, ReadsRhs,
    Rows, Tok, When, Where,
};
use es_token::TokenKind;
use grammar_theory::{Lang, SyntaxError};

/// The place where no `:` opens an arrow's result.
pub fn without_colon(lang: Lang, context: Context) -> Context
    ensures { result ≡ without_colon lang context }
{
    if lang.is_typed() {
        Context {
            no_colon: true,
            ..context
        }
    } else {
        context
    }
}

/// Ref (',' Ref)*, and what follows.
#[derive(Clone, Copy)]
pub struct ReferencesIn<N>(pub N);

impl<N: ReadsRhs<Row> + Copy> ReadsRhs<Row> for ReferencesIn<N> {
    ghost form = { λ s. references_in (N.form s.0) };

    #[tactic(auto, unfolding(es_grammar::specs::Expressions::references_in))]
    fn read<T: Rows<Row>>(
        &self,
        grammar: &Grammar<'_, T>,
        cursor: &mut Cursor,
    ) -> Result<usize, SyntaxError> {
        OfRow(
            Row::TypesRow(TypeRow::ReferenceRow),
            Many(
                Greedy(Is(TokenKind::Comma)),
                Punct(
                    TokenKind::Comma,
                    OfRow(Row::TypesRow(TypeRow::ReferenceRow), Done),
                ),
                self.0,
            ),
        )
        .read(grammar, cursor)
    }
}

/// (TParams)?, and what follows.
#[derive(Clone, Copy)]
pub struct TypeParameters<N>(pub N);

impl<N: ReadsRhs<Row> + Copy> ReadsRhs<Row> for TypeParameters<N> {
    ghost form = { λ s. type_parameters_in (N.form s.0) };

    #[tactic(auto, unfolding(es_grammar::specs::Embedding::type_parameters_in))]
    fn read<T: Rows<Row>>(
        &self,
        grammar: &Grammar<'_, T>,
        cursor: &mut Cursor,
    ) -> Result<usize, SyntaxError> {
        Opt(
            Greedy(Is(TokenKind::Less)),
            OfRow(Row::TypesRow(TypeRow::TypeParametersRow), Done),
            self.0,
        )
        .read(grammar, cursor)
    }
}

/// (TS TParams)?, and what follows.
#[derive(Clone, Copy)]
pub struct TypeParametersIn<N>(pub Lang, pub N);

impl<N: ReadsRhs<Row> + Copy> ReadsRhs<Row> for TypeParametersIn<N> {
    ghost form = { λ s. typed_in s.0 type_parameters_in (N.form s.1) };

    fn read<T: Rows<Row>>(
        &self,
        grammar: &Grammar<'_, T>,
        cursor: &mut Cursor,
    ) -> Result<usize, SyntaxError> {
        if self.0.is_typed() {
            TypeParameters(self.1).read(grammar, cursor)
        } else {
            self.1.read(grammar, cursor)
        }
    }
}

/// (TArgs)?, and what follows.
#[derive(Clone, Copy)]
pub struct TypeArguments<N>(pub N);

impl<N: ReadsRhs<Row> + Copy> ReadsRhs<Row> for TypeArguments<N> {
    ghost form = { λ s. type_arguments_in (N.form s.0) };

    #[tactic(auto, unfolding(es_grammar::specs::Embedding::type_arguments_in))]
    fn read<T: Rows<Row>>(
        &self,
        grammar: &Grammar<'_, T>,
        cursor: &mut Cursor,
    ) -> Result<usize, SyntaxError> {
        Opt(
            Greedy(Lookahead::BeginsAngle),
            OfRow(Row::TypesRow(TypeRow::ArgumentsRow), Done),
            self.0,
        )
        .read(grammar, cursor)
    }
}

/// (TS TArgs)?, and what follows.
#[derive(Clone, Copy)]
pub struct TypeArgumentsIn<N>(pub Lang, pub N);

impl<N: ReadsRhs<Row> + Copy> ReadsRhs<Row> for TypeArgumentsIn<N> {
    ghost form = { λ s. typed_in s.0 type_arguments_in (N.form s.1) };

    fn read<T: Rows<Row>>(
        &self,
        grammar: &Grammar<'_, T>,
        cursor: &mut Cursor,
    ) -> Result<usize, SyntaxError> {
        if self.0.is_typed() {
            TypeArguments(self.1).read(grammar, cursor)
        } else {
            self.1.read(grammar, cursor)
        }
    }
}

/// (':' Type)?, and what follows.
#[derive(Clone, Copy)]
pub struct Annotation<N>(pub N);

impl<N: ReadsRhs<Row> + Copy> ReadsRhs<Row> for Annotation<N> {
    ghost form = { λ s. annotation_in (N.form s.0) };

    #[tactic(auto, unfolding(es_grammar::specs::Embedding::annotation_in))]
    fn read<T: Rows<Row>>(
        &self,
        grammar: &Grammar<'_, T>,
        cursor: &mut Cursor,
    ) -> Result<usize, SyntaxError> {
        Opt(
            Greedy(Is(TokenKind::Colon)),
            Punct(
                TokenKind::Colon,
                OfRow(Row::TypesRow(TypeRow::TypeRow(true)), Done),
            ),
            self.0,
        )
        .read(grammar, cursor)
    }
}

/// (TS (':' Type))?, and what follows.
#[derive(Clone, Copy)]
pub struct AnnotationIn<N>(pub Lang, pub N);

impl<N: ReadsRhs<Row> + Copy> ReadsRhs<Row> for AnnotationIn<N> {
    ghost form = { λ s. typed_in s.0 annotation_in (N.form s.1) };

    fn read<T: Rows<Row>>(
        &self,
        grammar: &Grammar<'_, T>,
        cursor: &mut Cursor,
    ) -> Result<usize, SyntaxError> {
        if self.0.is_typed() {
            Annotation(self.1).read(grammar, cursor)
        } else {
            self.1.read(grammar, cursor)
        }
    }
}

/// (TS (':' Ret))?, and what follows.
#[derive(Clone, Copy)]
pub struct ResultIn<N>(pub Lang, pub N);

impl<N: ReadsRhs<Row> + Copy> ReadsRhs<Row> for ResultIn<N> {
    ghost form = { λ s. typed_in s.0 result_in (N.form s.1) };

    #[tactic(auto, unfolding(es_grammar::specs::Embedding::result_in))]
    fn read<T: Rows<Row>>(
        &self,
        grammar: &Grammar<'_, T>,
        cursor: &mut Cursor,
    ) -> Result<usize, SyntaxError> {
        if self.0.is_typed() {
            Opt(
                Greedy(Is(TokenKind::Colon)),
                Punct(
                    TokenKind::Colon,
                    OfRow(Row::TypesRow(TypeRow::ResultRow(true)), Done),
                ),
                self.1,
            )
            .read(grammar, cursor)
        } else {
            self.1.read(grammar, cursor)
        }
    }
}

/// (TS TArgs, after the operand of `new`)?, and what follows.
#[derive(Clone, Copy)]
pub struct NewArgumentsIn<N>(pub Lang, pub N);

impl<N: ReadsRhs<Row> + Copy> ReadsRhs<Row> for NewArgumentsIn<N> {
    ghost form = { λ s. typed_in s.0 new_arguments_in (N.form s.1) };

    #[tactic(auto, unfolding(es_grammar::specs::Expressions::new_arguments_in))]
    fn read<T: Rows<Row>>(
        &self,
        grammar: &Grammar<'_, T>,
        cursor: &mut Cursor,
    ) -> Result<usize, SyntaxError> {
        if self.0.is_typed() {
            Opt(
                ByPredicate(Predicate::OpensNewArguments),
                OfRow(Row::TypesRow(TypeRow::ArgumentsRow), Done),
                self.1,
            )
            .read(grammar, cursor)
        } else {
            self.1.read(grammar, cursor)
        }
    }
}

/// (TS TArgs, after the operand of `extends`)?, and what follows.
#[derive(Clone, Copy)]
pub struct HeritageIn<N>(pub Lang, pub N);

impl<N: ReadsRhs<Row> + Copy> ReadsRhs<Row> for HeritageIn<N> {
    ghost form = { λ s. typed_in s.0 heritage_in (N.form s.1) };

    #[tactic(auto, unfolding(es_grammar::specs::Expressions::heritage_in))]
    fn read<T: Rows<Row>>(
        &self,
        grammar: &Grammar<'_, T>,
        cursor: &mut Cursor,
    ) -> Result<usize, SyntaxError> {
        if self.0.is_typed() {
            Opt(
                ByPredicate(Predicate::OpensHeritageArguments),
                OfRow(Row::TypesRow(TypeRow::ArgumentsRow), Done),
                self.1,
            )
            .read(grammar, cursor)
        } else {
            self.1.read(grammar, cursor)
        }
    }
}

/// (TS ('implements' Ref%+))?, and what follows.
#[derive(Clone, Copy)]
pub struct ImplementsIn<N>(pub Lang, pub N);

impl<N: ReadsRhs<Row> + Copy> ReadsRhs<Row> for ImplementsIn<N> {
    ghost form = { λ s. typed_in s.0 implements_in (N.form s.1) };

    #[tactic(auto, unfolding(es_grammar::specs::Expressions::implements_in))]
    fn read<T: Rows<Row>>(
        &self,
        grammar: &Grammar<'_, T>,
        cursor: &mut Cursor,
    ) -> Result<usize, SyntaxError> {
        if self.0.is_typed() {
            Opt(
                Greedy(Is(TokenKind::ImplementsWord)),
                Punct(TokenKind::ImplementsWord, ReferencesIn(Done)),
                self.1,
            )
            .read(grammar, cursor)
        } else {
            self.1.read(grammar, cursor)
        }
    }
}

/// (TS ':' Ret)? of an arrow, where a `:` may open it, and what follows.
#[derive(Clone, Copy)]
pub struct ArrowResultIn<N>(pub Lang, pub Context, pub N);

impl<N: ReadsRhs<Row> + Copy> ReadsRhs<Row> for ArrowResultIn<N> {
    ghost form = { λ s. typed_in s.0 (arrow_result_in s.1) (N.form s.2) };

    #[tactic(auto, unfolding(es_grammar::specs::Expressions::arrow_result_in))]
    fn read<T: Rows<Row>>(
        &self,
        grammar: &Grammar<'_, T>,
        cursor: &mut Cursor,
    ) -> Result<usize, SyntaxError> {
        if self.0.is_typed() {
            Opt(
                ByPredicate(Predicate::OpensArrowResult(self.1)),
                Punct(
                    TokenKind::Colon,
                    OfRow(Row::TypesRow(TypeRow::ResultRow(true)), Done),
                ),
                self.2,
            )
            .read(grammar, cursor)
        } else {
            self.2.read(grammar, cursor)
        }
    }
}

/// ~ 'as' Type | ~ 'as' 'const' | ~ 'satisfies' Type
#[derive(Clone, Copy)]
pub struct Asserted;

impl ReadsRhs<Row> for Asserted {
    ghost form = { λ s. asserted };

    #[tactic(auto, unfolding(es_grammar::specs::Expressions::asserted))]
    fn read<T: Rows<Row>>(
        &self,
        grammar: &Grammar<'_, T>,
        cursor: &mut Cursor,
    ) -> Result<usize, SyntaxError> {
        When(
            Lookahead::Near,
            Tok(
                LeafKind::Kind,
                Kinds::AssertionWord,
                Alt(
                    Is(TokenKind::ConstWord),
                    Where(
                        Predicate::IsBehindAs,
                        Tok(LeafKind::There, Kinds::Only(TokenKind::ConstWord), Done),
                    ),
                    OfRow(Row::TypesRow(TypeRow::TypeRow(true)), Done),
                    Done,
                ),
            ),
        )
        .read(grammar, cursor)
    }
}

/// One of these, or another form.
#[derive(Clone, Copy)]
pub struct AssertedOr<N>(pub N);

impl<N: ReadsRhs<Row> + Copy> ReadsRhs<Row> for AssertedOr<N> {
    ghost form = { λ s. asserted_or (N.form s.0) };

    #[tactic(auto, unfolding(es_grammar::specs::Expressions::asserted_or))]
    fn read<T: Rows<Row>>(
        &self,
        grammar: &Grammar<'_, T>,
        cursor: &mut Cursor,
    ) -> Result<usize, SyntaxError> {
        Alt(Has(Kinds::AssertionWord), Asserted, self.0, Done).read(grammar, cursor)
    }
}
