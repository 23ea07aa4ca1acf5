//! Parameters.

ghost use Rattle.es_grammar.specs.Functions.{mark_in, parameters, parameter_tail, typed_parameter, plain_parameter, parameter, signature};

use es_grammar::{Context, NodeKind, Row};
use es_rules::{
    ByLookahead, ByPredicate, Choose, Cursor, Done, Grammar, Greedy, LeafKind, Make, MakeBy, Many,
    OfRow, Opt, Pick, Punct, ReadsProduction, ReadsRhs, Rows, Tok, When, Where, Wrap,
};
use es_shared_rules::predicates::Lookahead::{Is, Other};
use es_shared_rules::predicates::{Kinds, Lookahead, Predicate};
use es_shared_rules::{Annotation, AnnotationIn, DefaultIn, Pattern, ResultIn, TypeParametersIn};
use es_token::TokenKind;
use grammar_theory::{Lang, SyntaxError};

/// Params: Param% | (Param ',')* '...' Pat
#[derive(Clone, Copy)]
pub struct Parameters(pub Lang, pub Context);

impl ReadsProduction<Row> for Parameters {
    ghost rule = { λ s. parameters s.0 s.1 };

    #[tactic(auto, unfolding(es_grammar::specs::Functions::parameters, es_grammar::specs::Functions::rest_in))]
    fn read<T: Rows<Row>>(
        &self,
        grammar: &Grammar<'_, T>,
        cursor: &mut Cursor,
    ) -> Result<usize, SyntaxError> {
        MakeBy(
            self.0,
            NodeKind::Parameters,
            NodeKind::TypedParameters,
            Many(
                ByLookahead(Lookahead::Parameter),
                OfRow(
                    Row::ParameterRow(self.1),
                    Opt(
                        Greedy(Other(TokenKind::CloseParen)),
                        Punct(TokenKind::Comma, Done),
                        Done,
                    ),
                ),
                Opt(
                    Greedy(Is(TokenKind::Ellipsis)),
                    Punct(
                        TokenKind::Ellipsis,
                        OfRow(Row::PatternRow(false, self.1), AnnotationIn(self.0, Done)),
                    ),
                    Done,
                ),
            ),
        )
        .read(grammar, cursor)
    }
}

/// '?'? (':' Type)? ('=' Assign)?
#[derive(Clone, Copy)]
pub struct ParameterTail(pub Context);

impl ReadsRhs<Row> for ParameterTail {
    ghost form = { λ s. parameter_tail s.0 };

    #[tactic(auto, unfolding(es_grammar::specs::Functions::parameter_tail))]
    fn read<T: Rows<Row>>(
        &self,
        grammar: &Grammar<'_, T>,
        cursor: &mut Cursor,
    ) -> Result<usize, SyntaxError> {
        MarkIn(Annotation(DefaultIn(self.0, Done))).read(grammar, cursor)
    }
}

/// '?'?, and what follows.
#[derive(Clone, Copy)]
pub struct MarkIn<N>(pub N);

impl<N: ReadsRhs<Row> + Copy> ReadsRhs<Row> for MarkIn<N> {
    ghost form = { λ s. mark_in (N.form s.0) };

    #[tactic(auto, unfolding(es_grammar::specs::Functions::mark_in))]
    fn read<T: Rows<Row>>(
        &self,
        grammar: &Grammar<'_, T>,
        cursor: &mut Cursor,
    ) -> Result<usize, SyntaxError> {
        Opt(
            Greedy(Is(TokenKind::Question)),
            Tok(LeafKind::There, Kinds::Only(TokenKind::Question), Done),
            self.0,
        )
        .read(grammar, cursor)
    }
}

/// Param of TypeScript: Mod* (Pat | 'this') '?'? (':' Type)? ('=' Assign)?
#[derive(Clone, Copy)]
struct TypedParameter(Lang, Context);

impl ReadsProduction<Row> for TypedParameter {
    ghost rule = { λ s. typed_parameter s.0 s.1 };

    #[tactic(auto, unfolding(es_grammar::specs::Functions::parameter, es_grammar::specs::Functions::modifiers_in))]
    fn read<T: Rows<Row>>(
        &self,
        grammar: &Grammar<'_, T>,
        cursor: &mut Cursor,
    ) -> Result<usize, SyntaxError> {
        let marked = OfRow(Row::PatternRow(false, self.1), ParameterTail(self.1));
        Choose(
            Is(TokenKind::ThisWord),
            Make(
                NodeKind::ThisParameter,
                Tok(
                    LeafKind::There,
                    Kinds::Only(TokenKind::ThisWord),
                    ParameterTail(self.1),
                ),
            ),
            Pick(
                Predicate::OpensParameterModifier(self.1),
                Make(
                    NodeKind::PropertyParameter,
                    Where(
                        Predicate::ParameterModifiersOnce(self.1),
                        Many(
                            ByPredicate(Predicate::OpensParameterModifier(self.1)),
                            Tok(LeafKind::Kind, Kinds::Modifier, Done),
                            marked,
                        ),
                    ),
                ),
                Pick(
                    Predicate::OpensMarked,
                    Make(NodeKind::MarkedParameter, marked),
                    Pattern(self.0, false, self.1),
                ),
            ),
        )
        .read(grammar, cursor)
    }
}

/// Param: in JavaScript Pat ('=' Assign)?
#[derive(Clone, Copy)]
pub struct Parameter(pub Lang, pub Context);

impl ReadsProduction<Row> for Parameter {
    ghost rule = { λ s. parameter s.0 s.1 };

    #[tactic(auto, unfolding(es_grammar::specs::Functions::parameter))]
    fn read<T: Rows<Row>>(
        &self,
        grammar: &Grammar<'_, T>,
        cursor: &mut Cursor,
    ) -> Result<usize, SyntaxError> {
        if self.0.is_typed() {
            TypedParameter(self.0, self.1).read(grammar, cursor)
        } else {
            PlainParameter(self.0, self.1).read(grammar, cursor)
        }
    }
}

/// Param of JavaScript.
#[derive(Clone, Copy)]
struct PlainParameter(Lang, Context);

impl ReadsProduction<Row> for PlainParameter {
    ghost rule = { λ s. plain_parameter s.0 s.1 };

    fn read<T: Rows<Row>>(
        &self,
        grammar: &Grammar<'_, T>,
        cursor: &mut Cursor,
    ) -> Result<usize, SyntaxError> {
        let outside = Context {
            no_in: false,
            no_colon: false,
            in_constructor: false,
            ..self.1
        };
        Wrap(
            NodeKind::DefaultParameter,
            Pattern(self.0, false, self.1),
            Greedy(Is(TokenKind::Equal)),
            Punct(
                TokenKind::Equal,
                OfRow(
                    Row::AssignmentRow(outside),
                    When(Other(TokenKind::Equal), Done),
                ),
            ),
        )
        .read(grammar, cursor)
    }
}

/// Sig: '(' Params ')'
#[derive(Clone, Copy)]
pub struct Signature(pub Lang, pub Context);

impl ReadsProduction<Row> for Signature {
    ghost rule = { λ s. signature s.0 s.1 };

    #[tactic(auto, unfolding(es_grammar::specs::Functions::signature))]
    fn read<T: Rows<Row>>(
        &self,
        grammar: &Grammar<'_, T>,
        cursor: &mut Cursor,
    ) -> Result<usize, SyntaxError> {
        MakeBy(
            self.0,
            NodeKind::Signature,
            NodeKind::TypedSignature,
            TypeParametersIn(
                self.0,
                Punct(
                    TokenKind::OpenParen,
                    OfRow(
                        Row::ParametersRow(self.1),
                        Punct(TokenKind::CloseParen, ResultIn(self.0, Done)),
                    ),
                ),
            ),
        )
        .read(grammar, cursor)
    }
}
