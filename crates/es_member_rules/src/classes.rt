//! Members of classes.

ghost use Rattle.es_grammar.specs.Functions.{modifiers_in};
ghost use Rattle.es_grammar.specs.Classes.{static_in, opens_modifier, head_in, marked_in, accessor_word_in, async_word_in, star_word_in, field_word_in, value_in, class_method_in, field_in, index_member, modified_member, any_member, member};
ghost use Rattle.es_shared_rules.specs.predicates.Named.{predicate_of};
ghost use Rattle.es_member_rules.specs.Behind.{member_behind};

use crate::properties::MarkedHeadIn;
use es_grammar::{Context, NodeKind, Row, TypeRow};
use es_rules::{
    ByPredicate, Choose, Cursor, Done, Grammar, Greedy, LeafKind, Make, MakeBy, Many, OfRow, Opt,
    Pick, Punct, ReadsProduction, ReadsRhs, Rows, Tok, Where,
};
use es_shared_rules::predicates::Lookahead::{Has, Is};
use es_shared_rules::predicates::{Kinds, Predicate};
use es_shared_rules::{Annotation, BodyIn, Ended, StarIn};
use es_token::TokenKind;
use grammar_theory::{Lang, SyntaxError};

/// 'static'?, which occurs once, and what follows
#[derive(Clone, Copy)]
pub struct StaticIn<N>(pub N);

impl<N: ReadsRhs<Row> + Copy> ReadsRhs<Row> for StaticIn<N> {
    ghost form = { λ s. static_in (N.form s.0) };

    #[tactic(auto, unfolding(es_grammar::specs::Classes::static_in))]
    fn read<T: Rows<Row>>(
        &self,
        grammar: &Grammar<'_, T>,
        cursor: &mut Cursor,
    ) -> Result<usize, SyntaxError> {
        Opt(
            ByPredicate(Predicate::OpensStatic),
            Tok(LeafKind::There, Kinds::Only(TokenKind::StaticWord), Done),
            self.0,
        )
        .read(grammar, cursor)
    }
}

/// Mod*, each at most once, and what follows.
#[derive(Clone, Copy)]
pub struct ModifiersIn<N>(pub N);

impl<N: ReadsRhs<Row> + Copy> ReadsRhs<Row> for ModifiersIn<N> {
    ghost form = { λ s. modifiers_in opens_modifier (N.form s.0) };

    #[tactic(auto, unfolding(es_grammar::specs::Functions::modifiers_in))]
    fn read<T: Rows<Row>>(
        &self,
        grammar: &Grammar<'_, T>,
        cursor: &mut Cursor,
    ) -> Result<usize, SyntaxError> {
        Where(
            Predicate::ModifiersOnce,
            Many(
                ByPredicate(Predicate::OpensModifier),
                Tok(LeafKind::Kind, Kinds::Modifier, Done),
                self.0,
            ),
        )
        .read(grammar, cursor)
    }
}

/// Mod*, and what follows; in JavaScript the only modifier is `static`.
#[derive(Clone, Copy)]
pub struct MemberHead<N>(pub Lang, pub N);

impl<N: ReadsRhs<Row> + Copy> ReadsRhs<Row> for MemberHead<N> {
    ghost form = { λ s. head_in s.0 (N.form s.1) };

    #[tactic(auto, unfolding(es_grammar::specs::Classes::head_in))]
    fn read<T: Rows<Row>>(
        &self,
        grammar: &Grammar<'_, T>,
        cursor: &mut Cursor,
    ) -> Result<usize, SyntaxError> {
        if self.0.is_typed() {
            ModifiersIn(Where(Predicate::IsMemberKey, self.1)).read(grammar, cursor)
        } else {
            StaticIn(Where(Predicate::IsPlainMember, self.1)).read(grammar, cursor)
        }
    }
}

/// Mod* ('get' | 'set'), and what follows; in JavaScript the only modifier is `static`.
#[derive(Clone, Copy)]
pub struct AccessorHead<N>(pub Lang, pub N);

impl<N: ReadsRhs<Row> + Copy> ReadsRhs<Row> for AccessorHead<N> {
    ghost form = { λ s. marked_in s.0 accessor_word_in (N.form s.1) };

    #[tactic(auto, unfolding(es_grammar::specs::Classes::marked_in))]
    fn read<T: Rows<Row>>(
        &self,
        grammar: &Grammar<'_, T>,
        cursor: &mut Cursor,
    ) -> Result<usize, SyntaxError> {
        if self.0.is_typed() {
            ModifiersIn(Tok(
                LeafKind::Kind,
                Kinds::AccessorWord,
                Where(Predicate::IsMemberKey, self.1),
            ))
            .read(grammar, cursor)
        } else {
            StaticIn(Tok(
                LeafKind::Kind,
                Kinds::AccessorWord,
                Where(Predicate::IsPlainMember, self.1),
            ))
            .read(grammar, cursor)
        }
    }
}

/// Mod* 'async' '*'?, and what follows; in JavaScript the only modifier is `static`.
#[derive(Clone, Copy)]
pub struct AsyncHead<N>(pub Lang, pub N);

impl<N: ReadsRhs<Row> + Copy> ReadsRhs<Row> for AsyncHead<N> {
    ghost form = { λ s. marked_in s.0 async_word_in (N.form s.1) };

    #[tactic(auto, unfolding(es_grammar::specs::Classes::marked_in))]
    fn read<T: Rows<Row>>(
        &self,
        grammar: &Grammar<'_, T>,
        cursor: &mut Cursor,
    ) -> Result<usize, SyntaxError> {
        if self.0.is_typed() {
            ModifiersIn(Punct(
                TokenKind::AsyncWord,
                StarIn(Where(Predicate::IsMemberKey, self.1)),
            ))
            .read(grammar, cursor)
        } else {
            StaticIn(Punct(
                TokenKind::AsyncWord,
                StarIn(Where(Predicate::IsPlainMember, self.1)),
            ))
            .read(grammar, cursor)
        }
    }
}

/// Mod* '*', and what follows; in JavaScript the only modifier is `static`.
#[derive(Clone, Copy)]
pub struct StarHead<N>(pub Lang, pub N);

impl<N: ReadsRhs<Row> + Copy> ReadsRhs<Row> for StarHead<N> {
    ghost form = { λ s. marked_in s.0 star_word_in (N.form s.1) };

    #[tactic(auto, unfolding(es_grammar::specs::Classes::marked_in))]
    fn read<T: Rows<Row>>(
        &self,
        grammar: &Grammar<'_, T>,
        cursor: &mut Cursor,
    ) -> Result<usize, SyntaxError> {
        if self.0.is_typed() {
            ModifiersIn(Punct(TokenKind::Star, Where(Predicate::IsMemberKey, self.1))).read(
                grammar, cursor,
            )
        } else {
            StaticIn(Punct(TokenKind::Star, Where(Predicate::IsPlainMember, self.1))).read(
                grammar, cursor,
            )
        }
    }
}

/// Mod* 'accessor', and what follows; in JavaScript the only modifier is `static`.
#[derive(Clone, Copy)]
pub struct FieldHead<N>(pub Lang, pub N);

impl<N: ReadsRhs<Row> + Copy> ReadsRhs<Row> for FieldHead<N> {
    ghost form = { λ s. marked_in s.0 field_word_in (N.form s.1) };

    #[tactic(auto, unfolding(es_grammar::specs::Classes::marked_in))]
    fn read<T: Rows<Row>>(
        &self,
        grammar: &Grammar<'_, T>,
        cursor: &mut Cursor,
    ) -> Result<usize, SyntaxError> {
        if self.0.is_typed() {
            ModifiersIn(Punct(
                TokenKind::AccessorWord,
                Where(Predicate::IsMemberKey, self.1),
            ))
            .read(grammar, cursor)
        } else {
            StaticIn(Punct(
                TokenKind::AccessorWord,
                Where(Predicate::IsPlainMember, self.1),
            ))
            .read(grammar, cursor)
        }
    }
}

/// ('=' Assign)? END
#[derive(Clone, Copy)]
pub struct ValueIn(pub Context);

impl ReadsRhs<Row> for ValueIn {
    ghost form = { λ s. value_in s.0 };

    #[tactic(auto, unfolding(es_grammar::specs::Classes::value_in))]
    fn read<T: Rows<Row>>(
        &self,
        grammar: &Grammar<'_, T>,
        cursor: &mut Cursor,
    ) -> Result<usize, SyntaxError> {
        Opt(
            Greedy(Is(TokenKind::Equal)),
            Punct(TokenKind::Equal, OfRow(Row::AssignmentRow(self.0), Done)),
            Ended,
        )
        .read(grammar, cursor)
    }
}

/// Key (TS '?')? Sig (Block | TS END), the key in one place, signature and body in another.
#[derive(Clone, Copy)]
pub struct ClassMethodIn(pub Lang, pub Context, pub Context);

impl ReadsRhs<Row> for ClassMethodIn {
    ghost form = { λ s. class_method_in s.0 s.1 s.2 };

    #[tactic(auto, unfolding(es_grammar::specs::Classes::class_method_in))]
    fn read<T: Rows<Row>>(
        &self,
        grammar: &Grammar<'_, T>,
        cursor: &mut Cursor,
    ) -> Result<usize, SyntaxError> {
        let body = BodyIn(self.0, self.2);
        if self.0.is_typed() {
            MarkedHeadIn(true, self.1, self.2, body).read(grammar, cursor)
        } else {
            OfRow(
                Row::KeyRow(true, self.1),
                OfRow(Row::SignatureRow(self.2), body),
            )
            .read(grammar, cursor)
        }
    }
}

/// Key (TS '?' | TS '!')? (TS ':' Type)? ('=' Assign)? END
#[derive(Clone, Copy)]
pub struct FieldIn(pub Lang, pub Context);

impl ReadsRhs<Row> for FieldIn {
    ghost form = { λ s. field_in s.0 s.1 };

    #[tactic(auto, unfolding(es_grammar::specs::Classes::field_in))]
    fn read<T: Rows<Row>>(
        &self,
        grammar: &Grammar<'_, T>,
        cursor: &mut Cursor,
    ) -> Result<usize, SyntaxError> {
        if self.0.is_typed() {
            OfRow(
                Row::KeyRow(true, self.1),
                Opt(
                    Greedy(Has(Kinds::FieldMark)),
                    Tok(LeafKind::Kind, Kinds::FieldMark, Done),
                    Annotation(ValueIn(self.1)),
                ),
            )
            .read(grammar, cursor)
        } else {
            OfRow(Row::KeyRow(true, self.1), ValueIn(self.1)).read(grammar, cursor)
        }
    }
}

/// Mod* '[' Name ':' Type ']' (':' Type)? END
#[derive(Clone, Copy)]
pub struct IndexMember;

impl ReadsProduction<Row> for IndexMember {
    ghost rule = { λ _. index_member };

    #[tactic(auto, unfolding(es_grammar::specs::Classes::index_member))]
    fn read<T: Rows<Row>>(
        &self,
        grammar: &Grammar<'_, T>,
        cursor: &mut Cursor,
    ) -> Result<usize, SyntaxError> {
        Make(
            NodeKind::IndexMember,
            ModifiersIn(Punct(
                TokenKind::OpenBracket,
                Tok(
                    LeafKind::Name,
                    Kinds::Name,
                    Punct(
                        TokenKind::Colon,
                        OfRow(
                            Row::TypesRow(TypeRow::TypeRow(true)),
                            Punct(TokenKind::CloseBracket, Annotation(Ended)),
                        ),
                    ),
                ),
            )),
        )
        .read(grammar, cursor)
    }
}

/// Member, with its modifiers: a method or a field, by predicates of what follows the modifiers.
#[derive(Clone, Copy)]
struct MemberBehind {
    lang: Lang,
    context: Context,
    accessor: Predicate,
    asynced: Predicate,
    star: Predicate,
    field: Predicate,
    method: Predicate,
}

impl ReadsProduction<Row> for MemberBehind {
    ghost rule = { λ s. member_behind s.lang s.context (predicate_of s.accessor) (predicate_of s.asynced) (predicate_of s.star) (predicate_of s.field) (predicate_of s.method) };

    fn read<T: Rows<Row>>(
        &self,
        grammar: &Grammar<'_, T>,
        cursor: &mut Cursor,
    ) -> Result<usize, SyntaxError> {
        let async_in = Context {
            no_in: false,
            no_colon: false,
            in_constructor: false,
            in_async: true,
            ..self.context
        };
        let lang = self.lang;
        let method = ClassMethodIn(lang, self.context, self.context);
        let field = FieldIn(lang, self.context);
        Pick(
            self.accessor,
            MakeBy(
                lang,
                NodeKind::AccessorMember,
                NodeKind::TypedAccessorMember,
                AccessorHead(lang, method),
            ),
            Pick(
                self.asynced,
                MakeBy(
                    lang,
                    NodeKind::AsyncMember,
                    NodeKind::TypedAsyncMember,
                    AsyncHead(lang, ClassMethodIn(lang, self.context, async_in)),
                ),
                Pick(
                    self.star,
                    MakeBy(
                        lang,
                        NodeKind::GeneratorMember,
                        NodeKind::TypedGeneratorMember,
                        StarHead(lang, method),
                    ),
                    Pick(
                        self.field,
                        MakeBy(
                            lang,
                            NodeKind::AccessorField,
                            NodeKind::TypedAccessorField,
                            FieldHead(lang, field),
                        ),
                        Pick(
                            self.method,
                            MakeBy(
                                lang,
                                NodeKind::MethodMember,
                                NodeKind::TypedMethodMember,
                                MemberHead(lang, method),
                            ),
                            MakeBy(
                                lang,
                                NodeKind::FieldMember,
                                NodeKind::TypedFieldMember,
                                MemberHead(lang, field),
                            ),
                        ),
                    ),
                ),
            ),
        )
        .read(grammar, cursor)
    }
}

/// The same; in JavaScript the only modifier is `static`.
#[derive(Clone, Copy)]
pub struct ModifiedMember(pub Lang, pub Context);

impl ReadsProduction<Row> for ModifiedMember {
    ghost rule = { λ s. modified_member s.0 s.1 };

    fn read<T: Rows<Row>>(
        &self,
        grammar: &Grammar<'_, T>,
        cursor: &mut Cursor,
    ) -> Result<usize, SyntaxError> {
        let context = self.1;
        if self.0.is_typed() {
            MemberBehind {
                lang: self.0,
                context,
                accessor: Predicate::BehindAllAccessor,
                asynced: Predicate::BehindAllAsync,
                star: Predicate::BehindAllStar,
                field: Predicate::BehindAllFieldAccessor,
                method: Predicate::BehindAllMethod,
            }
            .read(grammar, cursor)
        } else {
            MemberBehind {
                lang: self.0,
                context,
                accessor: Predicate::BehindStaticAccessor,
                asynced: Predicate::BehindStaticAsync,
                star: Predicate::BehindStaticStar,
                field: Predicate::BehindStaticFieldAccessor,
                method: Predicate::BehindStaticMethod,
            }
            .read(grammar, cursor)
        }
    }
}

/// In TypeScript also an index signature.
#[derive(Clone, Copy)]
pub struct AnyMember(pub Lang, pub Context);

impl ReadsProduction<Row> for AnyMember {
    ghost rule = { λ s. any_member s.0 s.1 };

    #[tactic(auto, unfolding(es_grammar::specs::Classes::any_member))]
    fn read<T: Rows<Row>>(
        &self,
        grammar: &Grammar<'_, T>,
        cursor: &mut Cursor,
    ) -> Result<usize, SyntaxError> {
        if self.0.is_typed() {
            Pick(
                Predicate::BehindAllIndex,
                IndexMember,
                ModifiedMember(self.0, self.1),
            )
            .read(grammar, cursor)
        } else {
            ModifiedMember(self.0, self.1).read(grammar, cursor)
        }
    }
}

/// Member: ';' | 'static' Block | 'static'? a method or a field
#[derive(Clone, Copy)]
pub struct Member(pub Lang, pub Context);

impl ReadsProduction<Row> for Member {
    ghost rule = { λ s. member s.0 s.1 };

    #[tactic(auto, unfolding(es_grammar::specs::Classes::member))]
    fn read<T: Rows<Row>>(
        &self,
        grammar: &Grammar<'_, T>,
        cursor: &mut Cursor,
    ) -> Result<usize, SyntaxError> {
        Choose(
            Is(TokenKind::Semicolon),
            Make(NodeKind::EmptyMember, Punct(TokenKind::Semicolon, Done)),
            Pick(
                Predicate::OpensStaticBlock,
                Make(
                    NodeKind::StaticBlock,
                    Punct(TokenKind::StaticWord, OfRow(Row::BlockRow(self.1), Done)),
                ),
                AnyMember(self.0, self.1),
            ),
        )
        .read(grammar, cursor)
    }
}
