//! Patterns whose names are no targets.

ghost use Rattle.es_grammar.specs.Functions.{default_in, array_pattern, object_pattern, bracket_pattern, pattern};

use crate::predicates::Kinds;
use crate::predicates::Lookahead::{Has, Is, Other};
use es_grammar::{Context, NodeKind, Row};
use es_rules::{
    Alt, ByLookahead, Choose, Cursor, Done, Grammar, Greedy, LeafKind, Make, Many, OfRow, Opt,
    Punct, ReadsProduction, ReadsRhs, Rows, Tok,
};
use es_token::TokenKind;
use grammar_theory::{Lang, SyntaxError};

/// ('=' Assign)?, and what follows
#[derive(Clone, Copy)]
pub struct DefaultIn<N>(pub Context, pub N);

impl<N: ReadsRhs<Row> + Copy> ReadsRhs<Row> for DefaultIn<N> {
    ghost form = { λ s. default_in s.0 (N.form s.1) };

    #[tactic(auto, unfolding(es_grammar::specs::Functions::default_in))]
    fn read<T: Rows<Row>>(
        &self,
        grammar: &Grammar<'_, T>,
        cursor: &mut Cursor,
    ) -> Result<usize, SyntaxError> {
        let outside = Context {
            no_in: false,
            no_colon: false,
            in_constructor: false,
            ..self.0
        };
        Opt(
            Greedy(Is(TokenKind::Equal)),
            Punct(TokenKind::Equal, OfRow(Row::AssignmentRow(outside), Done)),
            self.1,
        )
        .read(grammar, cursor)
    }
}

/// '[' (PElem? ',')* PElem? ']'
#[derive(Clone, Copy)]
pub struct ArrayPattern(pub bool, pub Context);

impl ReadsProduction<Row> for ArrayPattern {
    ghost rule = { λ s. array_pattern s.0 s.1 };

    #[tactic(auto, unfolding(es_grammar::specs::Functions::array_pattern))]
    fn read<T: Rows<Row>>(
        &self,
        grammar: &Grammar<'_, T>,
        cursor: &mut Cursor,
    ) -> Result<usize, SyntaxError> {
        Make(
            NodeKind::ArrayPattern,
            Punct(
                TokenKind::OpenBracket,
                Many(
                    ByLookahead(Other(TokenKind::CloseBracket)),
                    Alt(
                        Is(TokenKind::Comma),
                        Punct(TokenKind::Comma, Done),
                        OfRow(
                            Row::PatternElementRow(self.0, self.1),
                            Opt(
                                Greedy(Other(TokenKind::CloseBracket)),
                                Punct(TokenKind::Comma, Done),
                                Done,
                            ),
                        ),
                        Done,
                    ),
                    Punct(TokenKind::CloseBracket, Done),
                ),
            ),
        )
        .read(grammar, cursor)
    }
}

/// '{' PProp% '}'
#[derive(Clone, Copy)]
pub struct ObjectPattern(pub bool, pub Context);

impl ReadsProduction<Row> for ObjectPattern {
    ghost rule = { λ s. object_pattern s.0 s.1 };

    #[tactic(auto, unfolding(es_grammar::specs::Functions::object_pattern))]
    fn read<T: Rows<Row>>(
        &self,
        grammar: &Grammar<'_, T>,
        cursor: &mut Cursor,
    ) -> Result<usize, SyntaxError> {
        Make(
            NodeKind::ObjectPattern,
            Punct(
                TokenKind::OpenBrace,
                Many(
                    ByLookahead(Other(TokenKind::CloseBrace)),
                    OfRow(
                        Row::PatternPropertyRow(self.0, self.1),
                        Opt(
                            Greedy(Other(TokenKind::CloseBrace)),
                            Punct(TokenKind::Comma, Done),
                            Done,
                        ),
                    ),
                    Punct(TokenKind::CloseBrace, Done),
                ),
            ),
        )
        .read(grammar, cursor)
    }
}

/// '[' .. ']' | '{' .. '}'
#[derive(Clone, Copy)]
pub struct BracketPattern(pub bool, pub Context);

impl ReadsProduction<Row> for BracketPattern {
    ghost rule = { λ s. bracket_pattern s.0 s.1 };

    #[tactic(auto, unfolding(es_grammar::specs::Functions::bracket_pattern))]
    fn read<T: Rows<Row>>(
        &self,
        grammar: &Grammar<'_, T>,
        cursor: &mut Cursor,
    ) -> Result<usize, SyntaxError> {
        Choose(
            Is(TokenKind::OpenBracket),
            ArrayPattern(self.0, self.1),
            ObjectPattern(self.0, self.1),
        )
        .read(grammar, cursor)
    }
}

/// Pat, outermost: Name | '[' .. ']' | '{' .. '}'; a name or target by itself isn't allowed where it is assigned to (true).
#[derive(Clone, Copy)]
pub struct Pattern(pub Lang, pub bool, pub Context);

impl ReadsProduction<Row> for Pattern {
    ghost rule = { λ s. pattern s.0 s.1 s.2 };

    #[tactic(auto, unfolding(es_grammar::specs::Functions::pattern, es_grammar::specs::Functions::inner_pattern))]
    fn read<T: Rows<Row>>(
        &self,
        grammar: &Grammar<'_, T>,
        cursor: &mut Cursor,
    ) -> Result<usize, SyntaxError> {
        if self.1 {
            BracketPattern(true, self.2).read(grammar, cursor)
        } else {
            Choose(
                Has(Kinds::Name),
                Make(
                    NodeKind::NamePattern,
                    Tok(LeafKind::Name, Kinds::Name, Done),
                ),
                BracketPattern(false, self.2),
            )
            .read(grammar, cursor)
        }
    }
}
