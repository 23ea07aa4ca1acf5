//! Names of types, and the lists of arguments and parameters between `<` and `>`.

ghost use Rattle.es_type_rules.specs.predicates.Named.{kinds_of};
ghost use Rattle.es_grammar.specs.types.TypeNames.{further_names, entity, reference, import_type, further_arguments, arguments, type_parameter, listed_parameters, type_parameters, opened_parameters, opened_function};
ghost use Rattle.es_grammar.specs.TypeNames.{label_name};
ghost use Rattle.es_rules.specs.Labelled.{labelled};

use crate::predicates::Lookahead::{Is, Other};
use crate::predicates::{Kinds, Lookahead, Predicate};
use es_grammar::{NodeKind, TypeRow};
use es_rules::{
    ByLookahead, ByPredicate, Choose, Cursor, Done, Grammar, Greedy, LeafKind, Make, Many, OfRow,
    Opt, Punct, ReadsProduction, ReadsRhs, Rows, Tok, When, Where, Wrap,
};
use es_token::TokenKind;
use grammar_theory::SyntaxError;

/// ('.' Name)*, and what follows it
#[derive(Clone, Copy)]
pub struct FurtherNames<N>(pub N);

impl<N: ReadsRhs<TypeRow> + Copy> ReadsRhs<TypeRow> for FurtherNames<N> {
    ghost form = { λ s. further_names (N.form s.0) };

    #[tactic(auto, unfolding(es_grammar::specs::types::TypeNames::further_names))]
    fn read<T: Rows<TypeRow>>(
        &self,
        grammar: &Grammar<'_, T>,
        cursor: &mut Cursor,
    ) -> Result<usize, SyntaxError> {
        Many(
            Greedy(Is(TokenKind::Dot)),
            Punct(TokenKind::Dot, Tok(LeafKind::Name, Kinds::Name, Done)),
            self.0,
        )
        .read(grammar, cursor)
    }
}

/// Entity: (Name | 'this') ('.' Name)*, by the kinds that its first token may have.
#[derive(Clone, Copy)]
pub struct EntityOf(pub Kinds);

impl ReadsProduction<TypeRow> for EntityOf {
    ghost rule = { λ s. labelled label_name (entity (kinds_of s.0)) };

    #[tactic(auto, unfolding(es_grammar::specs::types::TypeNames::entity))]
    fn read<T: Rows<TypeRow>>(
        &self,
        grammar: &Grammar<'_, T>,
        cursor: &mut Cursor,
    ) -> Result<usize, SyntaxError> {
        Make(
            NodeKind::EntityOfType,
            Tok(LeafKind::Name, self.0, FurtherNames(Done)),
        )
        .read(grammar, cursor)
    }
}

/// Ref: Entity (~ TArgs)?
#[derive(Clone, Copy)]
pub struct ReferenceOf(pub Kinds);

impl ReadsProduction<TypeRow> for ReferenceOf {
    ghost rule = { λ s. labelled label_name (reference (kinds_of s.0)) };

    #[tactic(auto, unfolding(es_grammar::specs::types::TypeNames::reference))]
    fn read<T: Rows<TypeRow>>(
        &self,
        grammar: &Grammar<'_, T>,
        cursor: &mut Cursor,
    ) -> Result<usize, SyntaxError> {
        Wrap(
            NodeKind::Reference,
            EntityOf(self.0),
            ByPredicate(Predicate::OpensArguments),
            When(
                Lookahead::Near,
                OfRow(TypeRow::ArgumentsRow, Where(Predicate::NoArguments, Done)),
            ),
        )
        .read(grammar, cursor)
    }
}

/// 'import' '(' Str ')' ('.' Entity)? TArgs?
#[derive(Clone, Copy)]
pub struct ImportType;

impl ReadsProduction<TypeRow> for ImportType {
    ghost rule = { λ _. labelled label_name import_type };

    #[tactic(auto, unfolding(es_grammar::specs::types::TypeNames::import_type))]
    fn read<T: Rows<TypeRow>>(
        &self,
        grammar: &Grammar<'_, T>,
        cursor: &mut Cursor,
    ) -> Result<usize, SyntaxError> {
        Make(
            NodeKind::ImportType,
            Punct(
                TokenKind::ImportWord,
                Punct(
                    TokenKind::OpenParen,
                    Tok(
                        LeafKind::Str,
                        Kinds::Only(TokenKind::Str),
                        Punct(
                            TokenKind::CloseParen,
                            Opt(
                                Greedy(Is(TokenKind::Dot)),
                                Punct(TokenKind::Dot, OfRow(TypeRow::EntityRow, Done)),
                                Opt(
                                    ByPredicate(Predicate::OpensAngle),
                                    OfRow(TypeRow::ArgumentsRow, Done),
                                    Done,
                                ),
                            ),
                        ),
                    ),
                ),
            ),
        )
        .read(grammar, cursor)
    }
}

/// (',' Type)* '>'
#[derive(Clone, Copy)]
pub struct FurtherArguments;

impl ReadsRhs<TypeRow> for FurtherArguments {
    ghost form = { λ _. further_arguments };

    #[tactic(auto, unfolding(es_grammar::specs::types::TypeNames::further_arguments))]
    fn read<T: Rows<TypeRow>>(
        &self,
        grammar: &Grammar<'_, T>,
        cursor: &mut Cursor,
    ) -> Result<usize, SyntaxError> {
        Many(
            Greedy(Is(TokenKind::Comma)),
            Punct(TokenKind::Comma, OfRow(TypeRow::TypeRow(true), Done)),
            Punct(TokenKind::Greater, Done),
        )
        .read(grammar, cursor)
    }
}

/// TArgs: '<' Type (',' Type)* '>', or with `<<` in the place of both `<` where the first type begins with one
#[derive(Clone, Copy)]
pub struct Arguments;

impl ReadsProduction<TypeRow> for Arguments {
    ghost rule = { λ _. labelled label_name arguments };

    #[tactic(auto, unfolding(es_grammar::specs::types::TypeNames::arguments))]
    fn read<T: Rows<TypeRow>>(
        &self,
        grammar: &Grammar<'_, T>,
        cursor: &mut Cursor,
    ) -> Result<usize, SyntaxError> {
        Choose(
            Is(TokenKind::LessLess),
            Make(
                NodeKind::TypeArguments,
                Punct(
                    TokenKind::LessLess,
                    OfRow(TypeRow::OpenedFunctionRow, FurtherArguments),
                ),
            ),
            Make(
                NodeKind::TypeArguments,
                Punct(
                    TokenKind::Less,
                    OfRow(TypeRow::TypeRow(true), FurtherArguments),
                ),
            ),
        )
        .read(grammar, cursor)
    }
}

/// ('const' | 'in' | 'out')* Name ('extends' Type)? ('=' Type)?, a `,` unless `>` follows, and what comes next
#[derive(Clone, Copy)]
pub struct TypeParameter<N>(pub N);

impl<N: ReadsRhs<TypeRow> + Copy> ReadsRhs<TypeRow> for TypeParameter<N> {
    ghost form = { λ s. type_parameter (N.form s.0) };

    #[tactic(auto, unfolding(es_grammar::specs::types::TypeNames::type_parameter))]
    fn read<T: Rows<TypeRow>>(
        &self,
        grammar: &Grammar<'_, T>,
        cursor: &mut Cursor,
    ) -> Result<usize, SyntaxError> {
        Many(
            ByPredicate(Predicate::OpensModifier),
            Tok(LeafKind::Kind, Kinds::Modifier, Done),
            Tok(
                LeafKind::Name,
                Kinds::Name,
                Opt(
                    Greedy(Is(TokenKind::ExtendsWord)),
                    Punct(TokenKind::ExtendsWord, OfRow(TypeRow::TypeRow(true), Done)),
                    Opt(
                        Greedy(Is(TokenKind::Equal)),
                        Punct(TokenKind::Equal, OfRow(TypeRow::TypeRow(true), Done)),
                        Opt(
                            Greedy(Other(TokenKind::Greater)),
                            Punct(TokenKind::Comma, Done),
                            self.0,
                        ),
                    ),
                ),
            ),
        )
        .read(grammar, cursor)
    }
}

/// One or more of them, with an optional last ',' '>'
#[derive(Clone, Copy)]
pub struct ListedParameters;

impl ReadsRhs<TypeRow> for ListedParameters {
    ghost form = { λ _. listed_parameters };

    #[tactic(auto, unfolding(es_grammar::specs::types::TypeNames::listed_parameters))]
    fn read<T: Rows<TypeRow>>(
        &self,
        grammar: &Grammar<'_, T>,
        cursor: &mut Cursor,
    ) -> Result<usize, SyntaxError> {
        TypeParameter(Many(
            ByLookahead(Other(TokenKind::Greater)),
            TypeParameter(Done),
            Punct(TokenKind::Greater, Done),
        ))
        .read(grammar, cursor)
    }
}

/// TParams: '<' and these
#[derive(Clone, Copy)]
pub struct TypeParameters;

impl ReadsProduction<TypeRow> for TypeParameters {
    ghost rule = { λ _. labelled label_name type_parameters };

    #[tactic(auto, unfolding(es_grammar::specs::types::TypeNames::type_parameters))]
    fn read<T: Rows<TypeRow>>(
        &self,
        grammar: &Grammar<'_, T>,
        cursor: &mut Cursor,
    ) -> Result<usize, SyntaxError> {
        Make(
            NodeKind::TypeParameters,
            Punct(TokenKind::Less, ListedParameters),
        )
        .read(grammar, cursor)
    }
}

/// The same after `<<`, whose second half is their `<`.
#[derive(Clone, Copy)]
pub struct OpenedParameters;

impl ReadsProduction<TypeRow> for OpenedParameters {
    ghost rule = { λ _. labelled label_name opened_parameters };

    #[tactic(auto, unfolding(es_grammar::specs::types::TypeNames::opened_parameters))]
    fn read<T: Rows<TypeRow>>(
        &self,
        grammar: &Grammar<'_, T>,
        cursor: &mut Cursor,
    ) -> Result<usize, SyntaxError> {
        Make(NodeKind::TypeParameters, ListedParameters).read(grammar, cursor)
    }
}

/// A function type whose parameters are opened so.
#[derive(Clone, Copy)]
pub struct OpenedFunction;

impl ReadsProduction<TypeRow> for OpenedFunction {
    ghost rule = { λ _. labelled label_name opened_function };

    #[tactic(auto, unfolding(es_grammar::specs::types::TypeNames::opened_function))]
    fn read<T: Rows<TypeRow>>(
        &self,
        grammar: &Grammar<'_, T>,
        cursor: &mut Cursor,
    ) -> Result<usize, SyntaxError> {
        let result = Punct(TokenKind::Arrow, OfRow(TypeRow::ResultRow(true), Done));
        Make(
            NodeKind::FunctionType,
            When(
                Lookahead::BeginsTypeParameter,
                Opt(
                    Greedy(Lookahead::BeginsTypeParameter),
                    OfRow(TypeRow::OpenedParametersRow, Done),
                    Punct(
                        TokenKind::OpenParen,
                        OfRow(TypeRow::ParametersRow, Punct(TokenKind::CloseParen, result)),
                    ),
                ),
            ),
        )
        .read(grammar, cursor)
    }
}
