//! Patterns.

ghost use Rattle.es_grammar.specs.Functions.{pattern_property};

use es_grammar::{Context, NodeKind, Row};
use es_rules::{
    Choose, Cursor, Done, Grammar, LeafKind, Make, OfRow, Pick, Punct, ReadsProduction, Rows, Tok,
};
use es_shared_rules::DefaultIn;
use es_shared_rules::predicates::Lookahead::Is;
use es_shared_rules::predicates::{Kinds, Predicate};
use es_token::TokenKind;
use grammar_theory::SyntaxError;

/// PProp: '...' Pat | Key ':' Pat ('=' Assign)? | Name ('=' Assign)?
#[derive(Clone, Copy)]
pub struct PatternProperty(pub bool, pub Context);

impl ReadsProduction<Row> for PatternProperty {
    ghost rule = { λ s. pattern_property s.0 s.1 };

    #[tactic(auto, unfolding(es_grammar::specs::Functions::pattern_property))]
    fn read<T: Rows<Row>>(
        &self,
        grammar: &Grammar<'_, T>,
        cursor: &mut Cursor,
    ) -> Result<usize, SyntaxError> {
        Choose(
            Is(TokenKind::Ellipsis),
            Make(
                NodeKind::RestProperty,
                Punct(
                    TokenKind::Ellipsis,
                    OfRow(Row::InnerPatternRow(self.0, self.1), Done),
                ),
            ),
            Pick(
                Predicate::OpensValue,
                Make(
                    NodeKind::KeyPattern,
                    OfRow(
                        Row::KeyRow(false, self.1),
                        Punct(
                            TokenKind::Colon,
                            OfRow(
                                Row::InnerPatternRow(self.0, self.1),
                                DefaultIn(self.1, Done),
                            ),
                        ),
                    ),
                ),
                Make(
                    NodeKind::NameProperty,
                    Tok(LeafKind::Name, Kinds::Name, DefaultIn(self.1, Done)),
                ),
            ),
        )
        .read(grammar, cursor)
    }
}
