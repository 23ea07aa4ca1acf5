//! Members of types in braces.

ghost use Rattle.es_grammar.specs.types.Members.{result_in, separator, call_signature, construct_signature, index_signature, accessor_signature, method_signature, property_signature, readonly_property, member, computed_key, key};
ghost use Rattle.es_grammar.specs.TypeNames.{label_name};
ghost use Rattle.es_rules.specs.Labelled.{labelled};

use crate::members::parameters::{MarkIn, ParametersIn, TypeIn};
use crate::predicates::Lookahead::{Has, Is};
use crate::predicates::{Kinds, Lookahead, Predicate};
use es_grammar::{NodeKind, TypeRow};
use es_rules::{
    Alt, Choose, Cursor, Done, Grammar, Greedy, LeafKind, Make, OfRow, Opt, Pick, Punct,
    ReadsProduction, ReadsRhs, Rows, Tok, When, Where,
};
use es_token::TokenKind;
use grammar_theory::SyntaxError;

/// (':' Ret)?, and what follows it
#[derive(Clone, Copy)]
pub struct ResultIn<N>(pub N);

impl<N: ReadsRhs<TypeRow> + Copy> ReadsRhs<TypeRow> for ResultIn<N> {
    ghost form = { λ s. result_in (N.form s.0) };

    #[tactic(auto, unfolding(es_grammar::specs::types::Members::result_in))]
    fn read<T: Rows<TypeRow>>(
        &self,
        grammar: &Grammar<'_, T>,
        cursor: &mut Cursor,
    ) -> Result<usize, SyntaxError> {
        Opt(
            Greedy(Is(TokenKind::Colon)),
            Punct(TokenKind::Colon, OfRow(TypeRow::ResultRow(true), Done)),
            self.0,
        )
        .read(grammar, cursor)
    }
}

/// SEP: `;` or `,`, which is taken where it is there
#[derive(Clone, Copy)]
pub struct Separator;

impl ReadsRhs<TypeRow> for Separator {
    ghost form = { λ _. separator };

    #[tactic(auto, unfolding(es_grammar::specs::types::Members::separator))]
    fn read<T: Rows<TypeRow>>(
        &self,
        grammar: &Grammar<'_, T>,
        cursor: &mut Cursor,
    ) -> Result<usize, SyntaxError> {
        When(
            Lookahead::MaySeparate,
            Opt(
                Greedy(Has(Kinds::Separator)),
                Tok(LeafKind::There, Kinds::Separator, Done),
                Done,
            ),
        )
        .read(grammar, cursor)
    }
}

/// TParams? '(' Params ')' (':' Ret)? SEP
#[derive(Clone, Copy)]
pub struct CallSignature;

impl ReadsProduction<TypeRow> for CallSignature {
    ghost rule = { λ _. labelled label_name call_signature };

    #[tactic(auto, unfolding(es_grammar::specs::types::Members::call_signature))]
    fn read<T: Rows<TypeRow>>(
        &self,
        grammar: &Grammar<'_, T>,
        cursor: &mut Cursor,
    ) -> Result<usize, SyntaxError> {
        Make(NodeKind::CallSignature, ParametersIn(ResultIn(Separator))).read(grammar, cursor)
    }
}

/// 'new' TParams? '(' Params ')' (':' Type)? SEP
#[derive(Clone, Copy)]
pub struct ConstructSignature;

impl ReadsProduction<TypeRow> for ConstructSignature {
    ghost rule = { λ _. labelled label_name construct_signature };

    #[tactic(auto, unfolding(es_grammar::specs::types::Members::construct_signature))]
    fn read<T: Rows<TypeRow>>(
        &self,
        grammar: &Grammar<'_, T>,
        cursor: &mut Cursor,
    ) -> Result<usize, SyntaxError> {
        Make(
            NodeKind::ConstructSignature,
            Punct(TokenKind::NewWord, ParametersIn(TypeIn(Separator))),
        )
        .read(grammar, cursor)
    }
}

/// 'readonly'? '[' Name ':' Type ']' (':' Type)? SEP
#[derive(Clone, Copy)]
pub struct IndexSignature;

impl ReadsProduction<TypeRow> for IndexSignature {
    ghost rule = { λ _. labelled label_name index_signature };

    #[tactic(auto, unfolding(es_grammar::specs::types::Members::index_signature))]
    fn read<T: Rows<TypeRow>>(
        &self,
        grammar: &Grammar<'_, T>,
        cursor: &mut Cursor,
    ) -> Result<usize, SyntaxError> {
        Make(
            NodeKind::IndexSignature,
            Opt(
                Greedy(Is(TokenKind::ReadonlyWord)),
                Tok(LeafKind::There, Kinds::Only(TokenKind::ReadonlyWord), Done),
                Punct(
                    TokenKind::OpenBracket,
                    Tok(
                        LeafKind::Name,
                        Kinds::Name,
                        Punct(
                            TokenKind::Colon,
                            OfRow(
                                TypeRow::TypeRow(true),
                                Punct(TokenKind::CloseBracket, TypeIn(Separator)),
                            ),
                        ),
                    ),
                ),
            ),
        )
        .read(grammar, cursor)
    }
}

/// ('get' | 'set') TKey '?'? TParams? '(' Params ')' (':' Ret)? SEP
#[derive(Clone, Copy)]
pub struct AccessorSignature;

impl ReadsProduction<TypeRow> for AccessorSignature {
    ghost rule = { λ _. labelled label_name accessor_signature };

    #[tactic(auto, unfolding(es_grammar::specs::types::Members::accessor_signature))]
    fn read<T: Rows<TypeRow>>(
        &self,
        grammar: &Grammar<'_, T>,
        cursor: &mut Cursor,
    ) -> Result<usize, SyntaxError> {
        Make(
            NodeKind::AccessorSignature,
            Tok(
                LeafKind::Kind,
                Kinds::AccessorWord,
                OfRow(TypeRow::KeyRow, MarkIn(ParametersIn(ResultIn(Separator)))),
            ),
        )
        .read(grammar, cursor)
    }
}

/// TKey '?'? TParams? '(' Params ')' (':' Ret)? SEP
#[derive(Clone, Copy)]
pub struct MethodSignature;

impl ReadsProduction<TypeRow> for MethodSignature {
    ghost rule = { λ _. labelled label_name method_signature };

    #[tactic(auto, unfolding(es_grammar::specs::types::Members::method_signature))]
    fn read<T: Rows<TypeRow>>(
        &self,
        grammar: &Grammar<'_, T>,
        cursor: &mut Cursor,
    ) -> Result<usize, SyntaxError> {
        Make(
            NodeKind::MethodSignature,
            OfRow(TypeRow::KeyRow, MarkIn(ParametersIn(ResultIn(Separator)))),
        )
        .read(grammar, cursor)
    }
}

/// TKey '?'? (':' Type)? SEP
#[derive(Clone, Copy)]
pub struct PropertySignature;

impl ReadsProduction<TypeRow> for PropertySignature {
    ghost rule = { λ _. labelled label_name property_signature };

    #[tactic(auto, unfolding(es_grammar::specs::types::Members::property_signature))]
    fn read<T: Rows<TypeRow>>(
        &self,
        grammar: &Grammar<'_, T>,
        cursor: &mut Cursor,
    ) -> Result<usize, SyntaxError> {
        Make(
            NodeKind::PropertySignature,
            OfRow(TypeRow::KeyRow, MarkIn(TypeIn(Separator))),
        )
        .read(grammar, cursor)
    }
}

/// 'readonly' TKey '?'? (':' Type)? SEP
#[derive(Clone, Copy)]
pub struct ReadonlyProperty;

impl ReadsProduction<TypeRow> for ReadonlyProperty {
    ghost rule = { λ _. labelled label_name readonly_property };

    #[tactic(auto, unfolding(es_grammar::specs::types::Members::readonly_property))]
    fn read<T: Rows<TypeRow>>(
        &self,
        grammar: &Grammar<'_, T>,
        cursor: &mut Cursor,
    ) -> Result<usize, SyntaxError> {
        Make(
            NodeKind::ReadonlyProperty,
            Punct(
                TokenKind::ReadonlyWord,
                Where(
                    Predicate::IsPropertyKey,
                    OfRow(TypeRow::KeyRow, MarkIn(TypeIn(Separator))),
                ),
            ),
        )
        .read(grammar, cursor)
    }
}

/// TMember
#[derive(Clone, Copy)]
pub struct Member;

impl ReadsProduction<TypeRow> for Member {
    ghost rule = { λ _. labelled label_name member };

    #[tactic(auto, unfolding(es_grammar::specs::types::Members::member))]
    fn read<T: Rows<TypeRow>>(
        &self,
        grammar: &Grammar<'_, T>,
        cursor: &mut Cursor,
    ) -> Result<usize, SyntaxError> {
        Choose(
            Lookahead::OpensParameters,
            CallSignature,
            Pick(
                Predicate::OpensConstruct,
                ConstructSignature,
                Pick(
                    Predicate::OpensIndex,
                    IndexSignature,
                    Pick(
                        Predicate::OpensAccessor,
                        AccessorSignature,
                        Pick(
                            Predicate::OpensReadonly,
                            ReadonlyProperty,
                            Pick(Predicate::OpensMethod, MethodSignature, PropertySignature),
                        ),
                    ),
                ),
            ),
        )
        .read(grammar, cursor)
    }
}

/// '[' (Entity | Str | Number | BigInt) ']'
#[derive(Clone, Copy)]
pub struct ComputedKey;

impl ReadsProduction<TypeRow> for ComputedKey {
    ghost rule = { λ _. labelled label_name computed_key };

    #[tactic(auto, unfolding(es_grammar::specs::types::Members::computed_key))]
    fn read<T: Rows<TypeRow>>(
        &self,
        grammar: &Grammar<'_, T>,
        cursor: &mut Cursor,
    ) -> Result<usize, SyntaxError> {
        Make(
            NodeKind::ComputedKeyOfType,
            Punct(
                TokenKind::OpenBracket,
                Alt(
                    Is(TokenKind::Str),
                    Tok(LeafKind::Str, Kinds::Only(TokenKind::Str), Done),
                    Alt(
                        Has(Kinds::Numeric),
                        Tok(LeafKind::Raw, Kinds::Numeric, Done),
                        OfRow(TypeRow::EntityRow, Done),
                        Done,
                    ),
                    Punct(TokenKind::CloseBracket, Done),
                ),
            ),
        )
        .read(grammar, cursor)
    }
}

/// TKey: Word | Str | Number | '[' .. ']'
#[derive(Clone, Copy)]
pub struct Key;

impl ReadsProduction<TypeRow> for Key {
    ghost rule = { λ _. labelled label_name key };

    #[tactic(auto, unfolding(es_grammar::specs::types::Members::key))]
    fn read<T: Rows<TypeRow>>(
        &self,
        grammar: &Grammar<'_, T>,
        cursor: &mut Cursor,
    ) -> Result<usize, SyntaxError> {
        Choose(
            Has(Kinds::Word),
            Make(
                NodeKind::WordKeyOfType,
                Tok(LeafKind::Name, Kinds::Word, Done),
            ),
            Choose(
                Is(TokenKind::Str),
                Make(
                    NodeKind::StrKeyOfType,
                    Tok(LeafKind::Str, Kinds::Only(TokenKind::Str), Done),
                ),
                Choose(
                    Is(TokenKind::Number),
                    Make(
                        NodeKind::NumberKeyOfType,
                        Tok(LeafKind::Raw, Kinds::Only(TokenKind::Number), Done),
                    ),
                    ComputedKey,
                ),
            ),
        )
        .read(grammar, cursor)
    }
}
