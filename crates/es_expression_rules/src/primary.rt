//! Primary expressions and templates.

ghost use Rattle.es_grammar.specs.Expressions.{template, spread, array_literal, object_literal, name_expression, named_primary, primary};

use es_grammar::{Context, NodeKind, Row};
use es_rules::{
    Alt, ByLookahead, Cursor, Done, Grammar, Greedy, Holds, IsOfKinds, LeafKind, Make, Many, OfRow,
    Opt, Punct, ReadsProduction, Rows, Tok, When, Where,
};
use es_shared_rules::predicates::Lookahead::{Is, Other};
use es_shared_rules::predicates::{Kinds, Lookahead, Predicate};
use es_shared_rules::{AbstractClass, AsyncFunction, Class, Function};
use es_token::TokenKind;
use grammar_theory::{Lang, SyntaxError};

/// Tpl: whole | head Expr (middle Expr)* tail
#[derive(Clone, Copy)]
pub struct Template(pub Context);

impl ReadsProduction<Row> for Template {
    ghost rule = { λ s. template s.0 };

    #[tactic(auto, unfolding(es_grammar::specs::Expressions::template))]
    fn read<T: Rows<Row>>(
        &self,
        grammar: &Grammar<'_, T>,
        cursor: &mut Cursor,
    ) -> Result<usize, SyntaxError> {
        let outside = Context {
            no_in: false,
            no_colon: false,
            in_constructor: false,
            ..self.0
        };
        if grammar
            .input
            .tokens
            .sees(TokenKind::TemplateWhole, cursor.at)
        {
            return Make(
                NodeKind::Template,
                Tok(LeafKind::Raw, Kinds::Only(TokenKind::TemplateWhole), Done),
            )
            .read(grammar, cursor);
        }
        Make(
            NodeKind::TemplateParts,
            Tok(
                LeafKind::Raw,
                Kinds::Only(TokenKind::TemplateHead),
                OfRow(
                    Row::ExpressionRow(outside),
                    Many(
                        Greedy(Is(TokenKind::TemplateMiddle)),
                        Tok(
                            LeafKind::Raw,
                            Kinds::Only(TokenKind::TemplateMiddle),
                            OfRow(Row::ExpressionRow(outside), Done),
                        ),
                        Tok(LeafKind::Raw, Kinds::Only(TokenKind::TemplateTail), Done),
                    ),
                ),
            ),
        )
        .read(grammar, cursor)
    }
}

/// '...' Assign
#[derive(Clone, Copy)]
pub struct Spread(pub Context);

impl ReadsProduction<Row> for Spread {
    ghost rule = { λ s. spread s.0 };

    #[tactic(auto, unfolding(es_grammar::specs::Expressions::spread))]
    fn read<T: Rows<Row>>(
        &self,
        grammar: &Grammar<'_, T>,
        cursor: &mut Cursor,
    ) -> Result<usize, SyntaxError> {
        let outside = Context {
            no_in: false,
            no_colon: false,
            in_constructor: false,
            ..self.0
        };
        Make(
            NodeKind::Spread,
            Punct(
                TokenKind::Ellipsis,
                OfRow(Row::AssignmentRow(outside), Done),
            ),
        )
        .read(grammar, cursor)
    }
}

/// '[' (AElem? ',')* AElem? ']'
#[derive(Clone, Copy)]
pub struct ArrayLiteral(pub Context);

impl ReadsProduction<Row> for ArrayLiteral {
    ghost rule = { λ s. array_literal s.0 };

    #[tactic(auto, unfolding(es_grammar::specs::Expressions::array_literal))]
    fn read<T: Rows<Row>>(
        &self,
        grammar: &Grammar<'_, T>,
        cursor: &mut Cursor,
    ) -> Result<usize, SyntaxError> {
        Make(
            NodeKind::ArrayLiteral,
            Punct(
                TokenKind::OpenBracket,
                Many(
                    ByLookahead(Other(TokenKind::CloseBracket)),
                    Alt(
                        Is(TokenKind::Comma),
                        Punct(TokenKind::Comma, Done),
                        OfRow(
                            Row::ElementRow(self.0),
                            Opt(
                                Greedy(Other(TokenKind::CloseBracket)),
                                Punct(TokenKind::Comma, Done),
                                Done,
                            ),
                        ),
                        Done,
                    ),
                    Punct(TokenKind::CloseBracket, Done),
                ),
            ),
        )
        .read(grammar, cursor)
    }
}

/// '{' Prop% '}'
#[derive(Clone, Copy)]
pub struct ObjectLiteral(pub Context);

impl ReadsProduction<Row> for ObjectLiteral {
    ghost rule = { λ s. object_literal s.0 };

    #[tactic(auto, unfolding(es_grammar::specs::Expressions::object_literal))]
    fn read<T: Rows<Row>>(
        &self,
        grammar: &Grammar<'_, T>,
        cursor: &mut Cursor,
    ) -> Result<usize, SyntaxError> {
        Make(
            NodeKind::ObjectLiteral,
            Punct(
                TokenKind::OpenBrace,
                Many(
                    ByLookahead(Other(TokenKind::CloseBrace)),
                    OfRow(
                        Row::PropertyRow(self.0),
                        Opt(
                            Greedy(Other(TokenKind::CloseBrace)),
                            Punct(TokenKind::Comma, Done),
                            Done,
                        ),
                    ),
                    Punct(TokenKind::CloseBrace, Done),
                ),
            ),
        )
        .read(grammar, cursor)
    }
}

/// A name that is no part of an arrow, a function, or an abstract class.
#[derive(Clone, Copy)]
pub struct NameExpression;

impl ReadsProduction<Row> for NameExpression {
    ghost rule = { λ s. name_expression };

    #[tactic(auto, unfolding(es_grammar::specs::Expressions::name_expression))]
    fn read<T: Rows<Row>>(
        &self,
        grammar: &Grammar<'_, T>,
        cursor: &mut Cursor,
    ) -> Result<usize, SyntaxError> {
        Make(
            NodeKind::Name,
            Tok(LeafKind::Name, Kinds::Name, When(Lookahead::NoArrow, Done)),
        )
        .read(grammar, cursor)
    }
}

/// Prim that begins with a name.
#[derive(Clone, Copy)]
pub struct NamedPrimary(pub Lang, pub Context);

impl ReadsProduction<Row> for NamedPrimary {
    ghost rule = { λ s. named_primary s.0 s.1 };

    #[tactic(auto, unfolding(es_grammar::specs::Expressions::named_primary))]
    fn read<T: Rows<Row>>(
        &self,
        grammar: &Grammar<'_, T>,
        cursor: &mut Cursor,
    ) -> Result<usize, SyntaxError> {
        if Predicate::OpensAsyncFunction.holds(&grammar.input, cursor.at) {
            return AsyncFunction(self.0, false, self.1).read(grammar, cursor);
        }
        if self.0.is_typed() && Predicate::OpensAbstractClass.holds(&grammar.input, cursor.at) {
            return AbstractClass(self.0, false, self.1).read(grammar, cursor);
        }
        NameExpression.read(grammar, cursor)
    }
}

/// Prim: what is an operand by itself. Its first token says which alternative is read.
#[derive(Clone, Copy)]
pub struct Primary(pub Lang, pub Context);

impl ReadsProduction<Row> for Primary {
    ghost rule = { λ s. primary s.0 s.1 };

    #[tactic(auto, unfolding(es_grammar::specs::Expressions::primary))]
    fn read<T: Rows<Row>>(
        &self,
        grammar: &Grammar<'_, T>,
        cursor: &mut Cursor,
    ) -> Result<usize, SyntaxError> {
        let outside = Context {
            no_in: false,
            no_colon: false,
            in_constructor: false,
            ..self.1
        };
        let tokens = grammar.input.tokens;
        if tokens.sees(TokenKind::OpenParen, cursor.at) {
            return Make(
                NodeKind::Parenthesized,
                Where(
                    Predicate::OpensNoArrow(self.0, self.1),
                    Punct(
                        TokenKind::OpenParen,
                        OfRow(
                            Row::ExpressionRow(outside),
                            Punct(TokenKind::CloseParen, Done),
                        ),
                    ),
                ),
            )
            .read(grammar, cursor);
        }
        if tokens.sees(TokenKind::OpenBracket, cursor.at) {
            return ArrayLiteral(outside).read(grammar, cursor);
        }
        if tokens.sees(TokenKind::OpenBrace, cursor.at) {
            return ObjectLiteral(outside).read(grammar, cursor);
        }
        if tokens.sees(TokenKind::FunctionWord, cursor.at) {
            return Function(self.0, false, self.1).read(grammar, cursor);
        }
        if tokens.sees(TokenKind::ClassWord, cursor.at) {
            return Class(self.0, false, self.1).read(grammar, cursor);
        }
        if Kinds::Name.is_there(&tokens, cursor.at) {
            return NamedPrimary(self.0, self.1).read(grammar, cursor);
        }
        if Kinds::LiteralWord.is_there(&tokens, cursor.at) {
            return Make(
                NodeKind::Word,
                Tok(LeafKind::Kind, Kinds::LiteralWord, Done),
            )
            .read(grammar, cursor);
        }
        if Kinds::Numeric.is_there(&tokens, cursor.at) {
            return Make(NodeKind::Number, Tok(LeafKind::Raw, Kinds::Numeric, Done)).read(
                grammar, cursor,
            );
        }
        if tokens.sees(TokenKind::Str, cursor.at) {
            return Make(
                NodeKind::Str,
                Tok(LeafKind::Str, Kinds::Only(TokenKind::Str), Done),
            )
            .read(grammar, cursor);
        }
        if tokens.sees(TokenKind::RegExp, cursor.at) {
            return Make(
                NodeKind::RegExp,
                Tok(LeafKind::Raw, Kinds::Only(TokenKind::RegExp), Done),
            )
            .read(grammar, cursor);
        }
        Template(self.1).read(grammar, cursor)
    }
}
