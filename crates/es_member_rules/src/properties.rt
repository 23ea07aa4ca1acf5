//! Keys, and properties of objects.

ghost use Rattle.es_grammar.specs.Functions.{plain_key, key, typed_head_in, unmarked, mark_in, method_in, property};

use crate::parameters::MarkIn;
use es_grammar::{Context, NodeKind, Row};
use es_rules::{
    Alt, Choose, Cursor, Done, Grammar, LeafKind, Make, MakeBy, OfRow, Pick, Punct,
    ReadsProduction, ReadsRhs, Rows, Tok, When, Where,
};
use es_shared_rules::StarIn;
use es_shared_rules::predicates::Lookahead::{Has, Is, Other};
use es_shared_rules::predicates::{Kinds, Predicate};
use es_token::TokenKind;
use grammar_theory::{Lang, SyntaxError};

/// Key: Word | Str | Number | BigInt | '[' Assign ']'
#[derive(Clone, Copy)]
pub struct PlainKey(pub Context);

impl ReadsProduction<Row> for PlainKey {
    ghost rule = { λ s. plain_key s.0 };

    #[tactic(auto, unfolding(es_grammar::specs::Functions::plain_key))]
    fn read<T: Rows<Row>>(
        &self,
        grammar: &Grammar<'_, T>,
        cursor: &mut Cursor,
    ) -> Result<usize, SyntaxError> {
        let outside = Context {
            no_in: false,
            no_colon: false,
            in_constructor: false,
            ..self.0
        };
        Choose(
            Has(Kinds::Word),
            Make(NodeKind::WordKey, Tok(LeafKind::Name, Kinds::Word, Done)),
            Choose(
                Is(TokenKind::Str),
                Make(
                    NodeKind::StrKey,
                    Tok(LeafKind::Str, Kinds::Only(TokenKind::Str), Done),
                ),
                Choose(
                    Has(Kinds::Numeric),
                    Make(
                        NodeKind::NumberKey,
                        Tok(LeafKind::Raw, Kinds::Numeric, Done),
                    ),
                    Make(
                        NodeKind::ComputedKey,
                        Punct(
                            TokenKind::OpenBracket,
                            OfRow(
                                Row::AssignmentRow(outside),
                                Punct(TokenKind::CloseBracket, Done),
                            ),
                        ),
                    ),
                ),
            ),
        )
        .read(grammar, cursor)
    }
}

/// Key: a key, and in classes (true) PrivateName.
#[derive(Clone, Copy)]
pub struct Key(pub bool, pub Context);

impl ReadsProduction<Row> for Key {
    ghost rule = { λ s. key s.0 s.1 };

    #[tactic(auto, unfolding(es_grammar::specs::Functions::key))]
    fn read<T: Rows<Row>>(
        &self,
        grammar: &Grammar<'_, T>,
        cursor: &mut Cursor,
    ) -> Result<usize, SyntaxError> {
        if self.0 {
            Choose(
                Is(TokenKind::PrivateName),
                Make(
                    NodeKind::PrivateKey,
                    Tok(LeafKind::Name, Kinds::Only(TokenKind::PrivateName), Done),
                ),
                PlainKey(self.1),
            )
            .read(grammar, cursor)
        } else {
            PlainKey(self.1).read(grammar, cursor)
        }
    }
}

/// A key and its signature; after the key `constructor` the parameters are those of a constructor.
#[derive(Clone, Copy)]
pub struct HeadIn<N>(pub bool, pub Context, pub Context, pub N);

impl<N: ReadsRhs<Row> + Copy> ReadsRhs<Row> for HeadIn<N> {
    ghost form = { λ s. typed_head_in s.0 s.1 s.2 unmarked (N.form s.3) };

    #[tactic(auto, unfolding(es_grammar::specs::Functions::typed_head_in))]
    fn read<T: Rows<Row>>(
        &self,
        grammar: &Grammar<'_, T>,
        cursor: &mut Cursor,
    ) -> Result<usize, SyntaxError> {
        let constructing = Context {
            no_in: false,
            no_colon: false,
            in_constructor: true,
            ..self.2
        };
        Alt(
            Is(TokenKind::ConstructorWord),
            When(
                Is(TokenKind::ConstructorWord),
                OfRow(
                    Row::KeyRow(self.0, self.1),
                    OfRow(Row::SignatureRow(constructing), Done),
                ),
            ),
            When(
                Other(TokenKind::ConstructorWord),
                OfRow(
                    Row::KeyRow(self.0, self.1),
                    OfRow(Row::SignatureRow(self.2), Done),
                ),
            ),
            self.3,
        )
        .read(grammar, cursor)
    }
}

/// The same with '?' after the key.
#[derive(Clone, Copy)]
pub struct MarkedHeadIn<N>(pub bool, pub Context, pub Context, pub N);

impl<N: ReadsRhs<Row> + Copy> ReadsRhs<Row> for MarkedHeadIn<N> {
    ghost form = { λ s. typed_head_in s.0 s.1 s.2 mark_in (N.form s.3) };

    #[tactic(auto, unfolding(es_grammar::specs::Functions::typed_head_in))]
    fn read<T: Rows<Row>>(
        &self,
        grammar: &Grammar<'_, T>,
        cursor: &mut Cursor,
    ) -> Result<usize, SyntaxError> {
        let constructing = Context {
            no_in: false,
            no_colon: false,
            in_constructor: true,
            ..self.2
        };
        Alt(
            Is(TokenKind::ConstructorWord),
            When(
                Is(TokenKind::ConstructorWord),
                OfRow(
                    Row::KeyRow(self.0, self.1),
                    MarkIn(OfRow(Row::SignatureRow(constructing), Done)),
                ),
            ),
            When(
                Other(TokenKind::ConstructorWord),
                OfRow(
                    Row::KeyRow(self.0, self.1),
                    MarkIn(OfRow(Row::SignatureRow(self.2), Done)),
                ),
            ),
            self.3,
        )
        .read(grammar, cursor)
    }
}

/// Key Sig Block of a property, the key in one place, signature and body in another.
#[derive(Clone, Copy)]
pub struct MethodIn(pub Lang, pub Context, pub Context);

impl ReadsRhs<Row> for MethodIn {
    ghost form = { λ s. method_in s.0 s.1 s.2 };

    #[tactic(auto, unfolding(es_grammar::specs::Functions::method_in))]
    fn read<T: Rows<Row>>(
        &self,
        grammar: &Grammar<'_, T>,
        cursor: &mut Cursor,
    ) -> Result<usize, SyntaxError> {
        let body = OfRow(Row::BlockRow(self.2), Done);
        if self.0.is_typed() {
            HeadIn(false, self.1, self.2, body).read(grammar, cursor)
        } else {
            OfRow(
                Row::KeyRow(false, self.1),
                OfRow(Row::SignatureRow(self.2), body),
            )
            .read(grammar, cursor)
        }
    }
}

/// Prop: '...' Assign | Name | Key ':' Assign | ('get' | 'set' | 'async'? '*'?) Key Sig Block
#[derive(Clone, Copy)]
pub struct Property(pub Lang, pub Context);

impl ReadsProduction<Row> for Property {
    ghost rule = { λ s. property s.0 s.1 };

    #[tactic(auto, unfolding(es_grammar::specs::Functions::property))]
    fn read<T: Rows<Row>>(
        &self,
        grammar: &Grammar<'_, T>,
        cursor: &mut Cursor,
    ) -> Result<usize, SyntaxError> {
        let outside = Context {
            no_in: false,
            no_colon: false,
            in_constructor: false,
            ..self.1
        };
        let async_in = Context {
            in_async: true,
            ..outside
        };
        Choose(
            Is(TokenKind::Ellipsis),
            Make(
                NodeKind::SpreadProperty,
                Punct(
                    TokenKind::Ellipsis,
                    OfRow(Row::AssignmentRow(outside), Done),
                ),
            ),
            Pick(
                Predicate::OpensAccessor(false),
                MakeBy(
                    self.0,
                    NodeKind::AccessorProperty,
                    NodeKind::TypedAccessorProperty,
                    Tok(
                        LeafKind::Kind,
                        Kinds::AccessorWord,
                        Where(Predicate::IsPlainKey, MethodIn(self.0, outside, outside)),
                    ),
                ),
                Pick(
                    Predicate::OpensAsync(false),
                    MakeBy(
                        self.0,
                        NodeKind::AsyncProperty,
                        NodeKind::TypedAsyncProperty,
                        Punct(
                            TokenKind::AsyncWord,
                            StarIn(Where(
                                Predicate::IsPlainKey,
                                MethodIn(self.0, outside, async_in),
                            )),
                        ),
                    ),
                    Choose(
                        Is(TokenKind::Star),
                        MakeBy(
                            self.0,
                            NodeKind::GeneratorProperty,
                            NodeKind::TypedGeneratorProperty,
                            Punct(
                                TokenKind::Star,
                                Where(Predicate::IsPlainKey, MethodIn(self.0, outside, outside)),
                            ),
                        ),
                        Pick(
                            Predicate::OpensAnyMethod(self.0),
                            MakeBy(
                                self.0,
                                NodeKind::MethodProperty,
                                NodeKind::TypedMethodProperty,
                                MethodIn(self.0, outside, outside),
                            ),
                            Pick(
                                Predicate::OpensValue,
                                Make(
                                    NodeKind::KeyValue,
                                    OfRow(
                                        Row::KeyRow(false, outside),
                                        Punct(
                                            TokenKind::Colon,
                                            OfRow(Row::AssignmentRow(outside), Done),
                                        ),
                                    ),
                                ),
                                Make(NodeKind::Shorthand, Tok(LeafKind::Name, Kinds::Name, Done)),
                            ),
                        ),
                    ),
                ),
            ),
        )
        .read(grammar, cursor)
    }
}
