//! What is assigned to: targets, which are chains, patterns with targets in them, and the heads of `for`.

ghost use Rattle.es_grammar.specs.Expressions.{no_form};
ghost use Rattle.es_grammar.specs.Functions.{target, inner_pattern, pattern_element};
ghost use Rattle.es_grammar.specs.Statements.{head_pattern, head_pattern_in, head};

use crate::chains::Chain;
use es_grammar::{Context, NodeKind, Row};
use es_rules::{
    As, Choose, Cursor, Done, Grammar, Greedy, LeafKind, Make, MakeBy, OfRow, Pick, Punct,
    ReadsProduction, ReadsRhs, Rows, Tok, When, Where, Wrap,
};
use es_shared_rules::predicates::Lookahead::{Has, Is, Other};
use es_shared_rules::predicates::{Kinds, Lookahead, Predicate};
use es_shared_rules::{Annotation, AssertedOr, BracketPattern, Pattern, UsingIn};
use es_token::TokenKind;
use grammar_theory::{Lang, SyntaxError};

/// No form.
#[derive(Clone, Copy)]
pub struct NoForm;

impl ReadsRhs<Row> for NoForm {
    ghost form = { λ _. no_form };

    #[tactic(auto, unfolding(es_grammar::specs::Expressions::no_form, es_rules::specs::Bounded::form_at))]
    fn read<T: Rows<Row>>(
        &self,
        grammar: &Grammar<'_, T>,
        cursor: &mut Cursor,
    ) -> Result<usize, SyntaxError> {
        Err(SyntaxError::Syntax { token: cursor.at })
    }
}

/// A simple target: a chain, in TypeScript with `as` and `satisfies` after it.
#[derive(Clone, Copy)]
pub struct Target(pub Lang, pub Context);

impl ReadsProduction<Row> for Target {
    ghost rule = { λ s. target s.0 s.1 };

    #[tactic(auto, unfolding(es_grammar::specs::Functions::target))]
    fn read<T: Rows<Row>>(
        &self,
        grammar: &Grammar<'_, T>,
        cursor: &mut Cursor,
    ) -> Result<usize, SyntaxError> {
        if self.0.is_typed() {
            As(
                NodeKind::Target,
                Wrap(
                    NodeKind::TypedBinary,
                    Chain(self.0, self.1),
                    Greedy(Lookahead::Assertion),
                    AssertedOr(NoForm),
                ),
            )
            .read(grammar, cursor)
        } else {
            As(NodeKind::Target, Chain(self.0, self.1)).read(grammar, cursor)
        }
    }
}

/// Pat: Name | '[' .. ']' | '{' .. '}', and where it is assigned to (true) a simple target in place of the name.
#[derive(Clone, Copy)]
pub struct InnerPattern(pub Lang, pub bool, pub Context);

impl ReadsProduction<Row> for InnerPattern {
    ghost rule = { λ s. inner_pattern s.0 s.1 s.2 };

    #[tactic(auto, unfolding(es_grammar::specs::Functions::inner_pattern, es_grammar::specs::Functions::pattern))]
    fn read<T: Rows<Row>>(
        &self,
        grammar: &Grammar<'_, T>,
        cursor: &mut Cursor,
    ) -> Result<usize, SyntaxError> {
        if self.1 {
            Pick(
                Predicate::OpensInnerPattern,
                BracketPattern(true, self.2),
                Target(self.0, self.2),
            )
            .read(grammar, cursor)
        } else {
            Pattern(self.0, false, self.2).read(grammar, cursor)
        }
    }
}

/// PElem: '...' Pat | Pat ('=' Assign)?
#[derive(Clone, Copy)]
pub struct PatternElement(pub Lang, pub bool, pub Context);

impl ReadsProduction<Row> for PatternElement {
    ghost rule = { λ s. pattern_element s.0 s.1 s.2 };

    #[tactic(auto, unfolding(es_grammar::specs::Functions::pattern_element))]
    fn read<T: Rows<Row>>(
        &self,
        grammar: &Grammar<'_, T>,
        cursor: &mut Cursor,
    ) -> Result<usize, SyntaxError> {
        let outside = Context {
            no_in: false,
            no_colon: false,
            in_constructor: false,
            ..self.2
        };
        Choose(
            Is(TokenKind::Ellipsis),
            Make(
                NodeKind::RestPattern,
                Punct(
                    TokenKind::Ellipsis,
                    OfRow(Row::InnerPatternRow(self.1, self.2), Done),
                ),
            ),
            Wrap(
                NodeKind::DefaultPattern,
                InnerPattern(self.0, self.1, self.2),
                Greedy(Is(TokenKind::Equal)),
                Punct(
                    TokenKind::Equal,
                    OfRow(
                        Row::AssignmentRow(outside),
                        When(Other(TokenKind::Equal), Done),
                    ),
                ),
            ),
        )
        .read(grammar, cursor)
    }
}

/// Pat, or in scripts after 'var': Name '=' Assign, before `in`
#[derive(Clone, Copy)]
pub struct HeadPattern(pub Lang, pub Context);

impl ReadsProduction<Row> for HeadPattern {
    ghost rule = { λ s. head_pattern s.0 s.1 };

    #[tactic(auto, unfolding(es_grammar::specs::Statements::head_pattern))]
    fn read<T: Rows<Row>>(
        &self,
        grammar: &Grammar<'_, T>,
        cursor: &mut Cursor,
    ) -> Result<usize, SyntaxError> {
        let in_head = Context {
            no_in: true,
            in_constructor: false,
            ..self.1
        };
        Pick(
            Predicate::OpensInitial,
            Make(
                NodeKind::DefaultPattern,
                Where(
                    Predicate::IsScript(self.1),
                    OfRow(
                        Row::PatternRow(false, self.1),
                        Punct(
                            TokenKind::Equal,
                            OfRow(
                                Row::AssignmentRow(in_head),
                                When(Is(TokenKind::InWord), Done),
                            ),
                        ),
                    ),
                ),
            ),
            Pattern(self.0, false, self.1),
        )
        .read(grammar, cursor)
    }
}

/// Such a pattern; TS: Pat (':' Type)?
#[derive(Clone, Copy)]
pub struct HeadPatternIn(pub Lang, pub Context);

impl ReadsRhs<Row> for HeadPatternIn {
    ghost form = { λ s. head_pattern_in s.0 s.1 };

    #[tactic(auto, unfolding(es_grammar::specs::Statements::head_pattern_in))]
    fn read<T: Rows<Row>>(
        &self,
        grammar: &Grammar<'_, T>,
        cursor: &mut Cursor,
    ) -> Result<usize, SyntaxError> {
        if self.0.is_typed() {
            OfRow(Row::PatternRow(false, self.1), Annotation(Done)).read(grammar, cursor)
        } else {
            OfRow(Row::HeadPatternRow(self.1), Done).read(grammar, cursor)
        }
    }
}

/// Head: ('var' | 'let' | 'const') Pat | ('await' ~)? 'using' ~ Name | Target
#[derive(Clone, Copy)]
pub struct Head(pub Lang, pub Context);

impl ReadsProduction<Row> for Head {
    ghost rule = { λ s. head s.0 s.1 };

    #[tactic(auto, unfolding(es_grammar::specs::Statements::head))]
    fn read<T: Rows<Row>>(
        &self,
        grammar: &Grammar<'_, T>,
        cursor: &mut Cursor,
    ) -> Result<usize, SyntaxError> {
        let in_head = Context {
            no_in: true,
            in_constructor: false,
            ..self.1
        };
        Choose(
            Has(Kinds::VariableWord),
            MakeBy(
                self.0,
                NodeKind::VariableHead,
                NodeKind::TypedVariableHead,
                Tok(
                    LeafKind::Kind,
                    Kinds::VariableWord,
                    HeadPatternIn(self.0, self.1),
                ),
            ),
            Pick(
                Predicate::OpensUsing,
                Make(
                    NodeKind::UsingHead,
                    UsingIn(self.1, Tok(LeafKind::Name, Kinds::Name, Done)),
                ),
                Pick(
                    Predicate::OpensHeadPattern,
                    Pattern(self.0, true, self.1),
                    Target(self.0, in_head),
                ),
            ),
        )
        .read(grammar, cursor)
    }
}
