//! What a statement ends with, and what `using` begins with.

ghost use Rattle.es_grammar.specs.types.Modules.{ended};
ghost use Rattle.es_grammar.specs.Statements.{using_in};

use crate::predicates::Lookahead::Is;
use crate::predicates::{Kinds, Lookahead, Predicate};
use es_grammar::{Context, Row};
use es_rules::{
    Cursor, Done, Grammar, Greedy, LeafKind, Opt, Punct, ReadsRhs, Rows, Tok, When, Where,
};
use es_token::TokenKind;
use grammar_theory::SyntaxError;

/// END: a `;`, which is taken where it is there
#[derive(Clone, Copy)]
pub struct Ended;

impl ReadsRhs<Row> for Ended {
    ghost form = { λ _. ended };

    #[tactic(auto, unfolding(es_grammar::specs::types::Modules::ended))]
    fn read<T: Rows<Row>>(
        &self,
        grammar: &Grammar<'_, T>,
        cursor: &mut Cursor,
    ) -> Result<usize, SyntaxError> {
        When(
            Lookahead::MayEnd,
            Opt(
                Greedy(Is(TokenKind::Semicolon)),
                Punct(TokenKind::Semicolon, Done),
                Done,
            ),
        )
        .read(grammar, cursor)
    }
}

/// ('await' ~)? 'using' ~, and what follows
#[derive(Clone, Copy)]
pub struct UsingIn<N>(pub Context, pub N);

impl<N: ReadsRhs<Row> + Copy> ReadsRhs<Row> for UsingIn<N> {
    ghost form = { λ s. using_in s.0 (N.form s.1) };

    #[tactic(auto, unfolding(es_grammar::specs::Statements::using_in))]
    fn read<T: Rows<Row>>(
        &self,
        grammar: &Grammar<'_, T>,
        cursor: &mut Cursor,
    ) -> Result<usize, SyntaxError> {
        Opt(
            Greedy(Is(TokenKind::AwaitWord)),
            Where(
                Predicate::MayAwait(self.0),
                Tok(
                    LeafKind::There,
                    Kinds::Only(TokenKind::AwaitWord),
                    When(Lookahead::Near, Done),
                ),
            ),
            Punct(TokenKind::UsingWord, When(Lookahead::Near, self.1)),
        )
        .read(grammar, cursor)
    }
}
