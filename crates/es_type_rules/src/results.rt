//! Elements of tuples, and results of functions.

ghost use Rattle.es_grammar.specs.types.Types.{label_in, element, result};
ghost use Rattle.es_grammar.specs.TypeNames.{label_name};
ghost use Rattle.es_rules.specs.Labelled.{labelled};

use crate::members::MarkIn;
use crate::operators::AnyType;
use crate::predicates::Lookahead::{Is, Other};
use crate::predicates::{Kinds, Lookahead, Predicate};
use es_grammar::{NodeKind, TypeRow};
use es_rules::{
    ByPredicate, Choose, Cursor, Done, Grammar, Greedy, LeafKind, Make, OfRow, Opt, Pick, Punct,
    ReadsProduction, ReadsRhs, Rows, Tok, When, Wrap,
};
use es_token::TokenKind;
use grammar_theory::SyntaxError;

/// Word '?'? ':', and what follows it
#[derive(Clone, Copy)]
pub struct LabelIn<N>(pub N);

impl<N: ReadsRhs<TypeRow> + Copy> ReadsRhs<TypeRow> for LabelIn<N> {
    ghost form = { λ s. label_in (N.form s.0) };

    #[tactic(auto, unfolding(es_grammar::specs::types::Types::label_in))]
    fn read<T: Rows<TypeRow>>(
        &self,
        grammar: &Grammar<'_, T>,
        cursor: &mut Cursor,
    ) -> Result<usize, SyntaxError> {
        Tok(
            LeafKind::Name,
            Kinds::Word,
            MarkIn(Punct(TokenKind::Colon, self.0)),
        )
        .read(grammar, cursor)
    }
}

/// TElem: '...'? (Word '?'? ':')? Type '?'?
#[derive(Clone, Copy)]
pub struct Element;

impl ReadsProduction<TypeRow> for Element {
    ghost rule = { λ _. labelled label_name element };

    #[tactic(auto, unfolding(es_grammar::specs::types::Types::element))]
    fn read<T: Rows<TypeRow>>(
        &self,
        grammar: &Grammar<'_, T>,
        cursor: &mut Cursor,
    ) -> Result<usize, SyntaxError> {
        Choose(
            Is(TokenKind::Ellipsis),
            Make(
                NodeKind::RestElement,
                Punct(
                    TokenKind::Ellipsis,
                    Opt(
                        ByPredicate(Predicate::IsLabel),
                        LabelIn(Done),
                        OfRow(TypeRow::TypeRow(true), MarkIn(Done)),
                    ),
                ),
            ),
            Pick(
                Predicate::IsLabel,
                Make(
                    NodeKind::LabelledElement,
                    LabelIn(OfRow(TypeRow::TypeRow(true), MarkIn(Done))),
                ),
                Wrap(
                    NodeKind::OptionalElement,
                    AnyType(true),
                    Greedy(Is(TokenKind::Question)),
                    Tok(
                        LeafKind::There,
                        Kinds::Only(TokenKind::Question),
                        When(Other(TokenKind::Question), Done),
                    ),
                ),
            ),
        )
        .read(grammar, cursor)
    }
}

/// Ret: 'asserts' ~ (Name | 'this') ('is' Type)? | (Name | 'this') ~ 'is' Type | Type
#[derive(Clone, Copy)]
pub struct ResultType(pub bool);

impl ReadsProduction<TypeRow> for ResultType {
    ghost rule = { λ s. labelled label_name (result s.0) };

    #[tactic(auto, unfolding(es_grammar::specs::types::Types::result))]
    fn read<T: Rows<TypeRow>>(
        &self,
        grammar: &Grammar<'_, T>,
        cursor: &mut Cursor,
    ) -> Result<usize, SyntaxError> {
        Pick(
            Predicate::OpensAsserts,
            Make(
                NodeKind::AssertsResult,
                Punct(
                    TokenKind::AssertsWord,
                    When(
                        Lookahead::Near,
                        Tok(
                            LeafKind::Name,
                            Kinds::NameOrThis,
                            Opt(
                                Greedy(Is(TokenKind::IsWord)),
                                Punct(TokenKind::IsWord, OfRow(TypeRow::TypeRow(self.0), Done)),
                                Done,
                            ),
                        ),
                    ),
                ),
            ),
            Pick(
                Predicate::OpensPredicate,
                Make(
                    NodeKind::PredicateResult,
                    Tok(
                        LeafKind::Name,
                        Kinds::NameOrThis,
                        When(
                            Lookahead::Near,
                            Punct(TokenKind::IsWord, OfRow(TypeRow::TypeRow(self.0), Done)),
                        ),
                    ),
                ),
                AnyType(self.0),
            ),
        )
        .read(grammar, cursor)
    }
}
