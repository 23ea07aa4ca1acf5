//! Imports, and exports of names.

ghost use Rattle.es_shared_rules.specs.predicates.Named.{predicate_of};
ghost use Rattle.es_grammar.specs.types.Modules.{attributes, attributes_ended, from_ended, import_specifier, named, clause, entity, required, source_import, defer_import, import_, export_specifier, export_, word_or_str_in, names_in, type_word_in, equals_in};

use es_grammar::{NodeKind, Row};
use es_rules::{
    Alt, ByLookahead, ByPredicate, Choose, Cursor, Done, Grammar, Greedy, LeafKind, Make, Many,
    OfRow, Opt, Pick, Punct, ReadsProduction, ReadsRhs, Rows, Tok, Where,
};
use es_shared_rules::Ended;
use es_shared_rules::predicates::Lookahead::{Has, Is, Other};
use es_shared_rules::predicates::{Kinds, Predicate};
use es_token::TokenKind;
use grammar_theory::{Lang, SyntaxError};

/// A word or a string literal, and what follows.
#[derive(Clone, Copy)]
pub struct WordOrStrIn<N>(pub N);

impl<N: ReadsRhs<Row> + Copy> ReadsRhs<Row> for WordOrStrIn<N> {
    ghost form = { λ s. word_or_str_in (N.form s.0) };

    #[tactic(auto, unfolding(es_grammar::specs::types::Modules::word_or_str_in))]
    fn read<T: Rows<Row>>(
        &self,
        grammar: &Grammar<'_, T>,
        cursor: &mut Cursor,
    ) -> Result<usize, SyntaxError> {
        Alt(
            Is(TokenKind::Str),
            Tok(LeafKind::Str, Kinds::Only(TokenKind::Str), Done),
            Tok(LeafKind::Name, Kinds::Word, Done),
            self.0,
        )
        .read(grammar, cursor)
    }
}

/// X%: a comma list, possibly empty, with an optional last comma, before `}`
#[derive(Clone, Copy)]
pub struct NamesIn<N>(pub Row, pub N);

impl<N: ReadsRhs<Row> + Copy> ReadsRhs<Row> for NamesIn<N> {
    ghost form = { λ s. names_in s.0 (N.form s.1) };

    #[tactic(auto, unfolding(es_grammar::specs::types::Modules::names_in))]
    fn read<T: Rows<Row>>(
        &self,
        grammar: &Grammar<'_, T>,
        cursor: &mut Cursor,
    ) -> Result<usize, SyntaxError> {
        Many(
            ByLookahead(Other(TokenKind::CloseBrace)),
            OfRow(
                self.0,
                Opt(
                    Greedy(Other(TokenKind::CloseBrace)),
                    Punct(TokenKind::Comma, Done),
                    Done,
                ),
            ),
            self.1,
        )
        .read(grammar, cursor)
    }
}

/// Attrs: 'with' '{' ((Word | Str) ':' Str)% '}'
#[derive(Clone, Copy)]
pub struct Attributes;

impl ReadsProduction<Row> for Attributes {
    ghost rule = { λ _. attributes };

    #[tactic(auto, unfolding(es_grammar::specs::types::Modules::attributes, es_grammar::specs::types::Modules::word_or_str_in))]
    fn read<T: Rows<Row>>(
        &self,
        grammar: &Grammar<'_, T>,
        cursor: &mut Cursor,
    ) -> Result<usize, SyntaxError> {
        Make(
            NodeKind::Attributes,
            Punct(
                TokenKind::WithWord,
                Punct(
                    TokenKind::OpenBrace,
                    Many(
                        ByLookahead(Other(TokenKind::CloseBrace)),
                        WordOrStrIn(Punct(
                            TokenKind::Colon,
                            Tok(
                                LeafKind::Str,
                                Kinds::Only(TokenKind::Str),
                                Opt(
                                    Greedy(Other(TokenKind::CloseBrace)),
                                    Punct(TokenKind::Comma, Done),
                                    Done,
                                ),
                            ),
                        )),
                        Punct(TokenKind::CloseBrace, Done),
                    ),
                ),
            ),
        )
        .read(grammar, cursor)
    }
}

/// Attrs? END
#[derive(Clone, Copy)]
pub struct AttributesEnded;

impl ReadsRhs<Row> for AttributesEnded {
    ghost form = { λ _. attributes_ended };

    #[tactic(auto, unfolding(es_grammar::specs::types::Modules::attributes_ended))]
    fn read<T: Rows<Row>>(
        &self,
        grammar: &Grammar<'_, T>,
        cursor: &mut Cursor,
    ) -> Result<usize, SyntaxError> {
        Opt(
            Greedy(Is(TokenKind::WithWord)),
            OfRow(Row::AttributesRow, Done),
            Ended,
        )
        .read(grammar, cursor)
    }
}

/// 'from' Str Attrs? END
#[derive(Clone, Copy)]
pub struct FromEnded;

impl ReadsRhs<Row> for FromEnded {
    ghost form = { λ _. from_ended };

    #[tactic(auto, unfolding(es_grammar::specs::types::Modules::from_ended))]
    fn read<T: Rows<Row>>(
        &self,
        grammar: &Grammar<'_, T>,
        cursor: &mut Cursor,
    ) -> Result<usize, SyntaxError> {
        Punct(
            TokenKind::FromWord,
            Tok(LeafKind::Str, Kinds::Only(TokenKind::Str), AttributesEnded),
        )
        .read(grammar, cursor)
    }
}

/// 'type'?, and what follows
#[derive(Clone, Copy)]
pub struct TypeWordIn<N>(pub Predicate, pub N);

impl<N: ReadsRhs<Row> + Copy> ReadsRhs<Row> for TypeWordIn<N> {
    ghost form = { λ s. type_word_in (predicate_of s.0) (N.form s.1) };

    #[tactic(auto, unfolding(es_grammar::specs::types::Modules::type_word_in))]
    fn read<T: Rows<Row>>(
        &self,
        grammar: &Grammar<'_, T>,
        cursor: &mut Cursor,
    ) -> Result<usize, SyntaxError> {
        Opt(
            ByPredicate(self.0),
            Tok(LeafKind::There, Kinds::Only(TokenKind::TypeWord), Done),
            self.1,
        )
        .read(grammar, cursor)
    }
}

/// Spec: 'type'? (Word | Str) 'as' Name | 'type'? Name
#[derive(Clone, Copy)]
pub struct ImportSpecifier(pub Lang);

impl ReadsProduction<Row> for ImportSpecifier {
    ghost rule = { λ s. import_specifier s.0 };

    #[tactic(auto, unfolding(es_grammar::specs::types::Modules::import_specifier, es_grammar::specs::types::Modules::type_word_in, es_grammar::specs::types::Modules::word_or_str_in))]
    fn read<T: Rows<Row>>(
        &self,
        grammar: &Grammar<'_, T>,
        cursor: &mut Cursor,
    ) -> Result<usize, SyntaxError> {
        Pick(
            Predicate::IsRenamed(self.0),
            Make(
                NodeKind::RenamedImport,
                Where(
                    Predicate::IsNoTypeAsAs,
                    TypeWordIn(
                        Predicate::OpensTypeName(self.0),
                        WordOrStrIn(Punct(
                            TokenKind::AsWord,
                            Tok(LeafKind::Name, Kinds::Name, Done),
                        )),
                    ),
                ),
            ),
            Make(
                NodeKind::ImportedName,
                TypeWordIn(
                    Predicate::OpensTypeName(self.0),
                    Tok(LeafKind::Name, Kinds::Name, Done),
                ),
            ),
        )
        .read(grammar, cursor)
    }
}

/// Named: '*' 'as' Name | '{' Spec% '}'
#[derive(Clone, Copy)]
pub struct Named(pub Lang);

impl ReadsProduction<Row> for Named {
    ghost rule = { λ s. named };

    #[tactic(auto, unfolding(es_grammar::specs::types::Modules::named, es_grammar::specs::types::Modules::names_in))]
    fn read<T: Rows<Row>>(
        &self,
        grammar: &Grammar<'_, T>,
        cursor: &mut Cursor,
    ) -> Result<usize, SyntaxError> {
        Choose(
            Is(TokenKind::Star),
            Make(
                NodeKind::Namespace,
                Punct(
                    TokenKind::Star,
                    Punct(TokenKind::AsWord, Tok(LeafKind::Name, Kinds::Name, Done)),
                ),
            ),
            Make(
                NodeKind::NamedImports,
                Punct(
                    TokenKind::OpenBrace,
                    NamesIn(Row::ImportSpecifierRow, Punct(TokenKind::CloseBrace, Done)),
                ),
            ),
        )
        .read(grammar, cursor)
    }
}

/// Clause: Name | Name ',' Named | Named
#[derive(Clone, Copy)]
pub struct Clause(pub Lang);

impl ReadsProduction<Row> for Clause {
    ghost rule = { λ s. clause };

    #[tactic(auto, unfolding(es_grammar::specs::types::Modules::clause))]
    fn read<T: Rows<Row>>(
        &self,
        grammar: &Grammar<'_, T>,
        cursor: &mut Cursor,
    ) -> Result<usize, SyntaxError> {
        Choose(
            Has(Kinds::Name),
            Pick(
                Predicate::HasComma,
                Make(
                    NodeKind::DefaultAndClause,
                    Tok(
                        LeafKind::Name,
                        Kinds::Name,
                        Punct(TokenKind::Comma, OfRow(Row::NamedRow, Done)),
                    ),
                ),
                Make(
                    NodeKind::DefaultClause,
                    Tok(LeafKind::Name, Kinds::Name, Done),
                ),
            ),
            Named(self.0),
        )
        .read(grammar, cursor)
    }
}

/// Entity: (Name | 'this') ('.' Name)*
#[derive(Clone, Copy)]
pub struct Entity;

impl ReadsProduction<Row> for Entity {
    ghost rule = { λ _. entity };

    #[tactic(auto, unfolding(es_grammar::specs::types::Modules::entity))]
    fn read<T: Rows<Row>>(
        &self,
        grammar: &Grammar<'_, T>,
        cursor: &mut Cursor,
    ) -> Result<usize, SyntaxError> {
        Make(
            NodeKind::Entity,
            Tok(
                LeafKind::Name,
                Kinds::NameOrThis,
                Many(
                    Greedy(Is(TokenKind::Dot)),
                    Punct(TokenKind::Dot, Tok(LeafKind::Name, Kinds::Name, Done)),
                    Done,
                ),
            ),
        )
        .read(grammar, cursor)
    }
}

/// 'import' 'type'? Name '=', and what follows
#[derive(Clone, Copy)]
pub struct EqualsIn<N>(pub Lang, pub N);

impl<N: ReadsRhs<Row> + Copy> ReadsRhs<Row> for EqualsIn<N> {
    ghost form = { λ s. equals_in s.0 (N.form s.1) };

    #[tactic(auto, unfolding(es_grammar::specs::types::Modules::equals_in))]
    fn read<T: Rows<Row>>(
        &self,
        grammar: &Grammar<'_, T>,
        cursor: &mut Cursor,
    ) -> Result<usize, SyntaxError> {
        Punct(
            TokenKind::ImportWord,
            TypeWordIn(
                Predicate::OpensTypeImport(self.0),
                Tok(LeafKind::Name, Kinds::Name, Punct(TokenKind::Equal, self.1)),
            ),
        )
        .read(grammar, cursor)
    }
}

/// 'require' '(' Str ')' END
#[derive(Clone, Copy)]
pub struct Required;

impl ReadsRhs<Row> for Required {
    ghost form = { λ _. required };

    #[tactic(auto, unfolding(es_grammar::specs::types::Modules::required))]
    fn read<T: Rows<Row>>(
        &self,
        grammar: &Grammar<'_, T>,
        cursor: &mut Cursor,
    ) -> Result<usize, SyntaxError> {
        Punct(
            TokenKind::RequireWord,
            Punct(
                TokenKind::OpenParen,
                Tok(
                    LeafKind::Str,
                    Kinds::Only(TokenKind::Str),
                    Punct(TokenKind::CloseParen, Ended),
                ),
            ),
        )
        .read(grammar, cursor)
    }
}

/// 'import' 'source' Name 'from' Str Attrs? END
#[derive(Clone, Copy)]
pub struct SourceImport;

impl ReadsProduction<Row> for SourceImport {
    ghost rule = { λ _. source_import };

    #[tactic(auto, unfolding(es_grammar::specs::types::Modules::source_import))]
    fn read<T: Rows<Row>>(
        &self,
        grammar: &Grammar<'_, T>,
        cursor: &mut Cursor,
    ) -> Result<usize, SyntaxError> {
        Make(
            NodeKind::SourceImport,
            Punct(
                TokenKind::ImportWord,
                Punct(
                    TokenKind::SourceWord,
                    Tok(LeafKind::Name, Kinds::Name, FromEnded),
                ),
            ),
        )
        .read(grammar, cursor)
    }
}

/// 'import' 'defer' '*' 'as' Name 'from' Str Attrs? END
#[derive(Clone, Copy)]
pub struct DeferImport;

impl ReadsProduction<Row> for DeferImport {
    ghost rule = { λ _. defer_import };

    #[tactic(auto, unfolding(es_grammar::specs::types::Modules::defer_import))]
    fn read<T: Rows<Row>>(
        &self,
        grammar: &Grammar<'_, T>,
        cursor: &mut Cursor,
    ) -> Result<usize, SyntaxError> {
        Make(
            NodeKind::DeferImport,
            Punct(
                TokenKind::ImportWord,
                Punct(
                    TokenKind::DeferWord,
                    Punct(
                        TokenKind::Star,
                        Punct(
                            TokenKind::AsWord,
                            Tok(LeafKind::Name, Kinds::Name, FromEnded),
                        ),
                    ),
                ),
            ),
        )
        .read(grammar, cursor)
    }
}

/// Import: 'import' Str Attrs? END | 'import' 'type'? Clause 'from' Str Attrs? END | with a phase | TS, with '='.
#[derive(Clone, Copy)]
pub struct Import(pub Lang);

impl ReadsProduction<Row> for Import {
    ghost rule = { λ s. import_ s.0 };

    #[tactic(auto, unfolding(es_grammar::specs::types::Modules::import_, es_grammar::specs::types::Modules::equals_in, es_grammar::specs::types::Modules::type_word_in))]
    fn read<T: Rows<Row>>(
        &self,
        grammar: &Grammar<'_, T>,
        cursor: &mut Cursor,
    ) -> Result<usize, SyntaxError> {
        Pick(
            Predicate::OpensEquals(self.0),
            Pick(
                Predicate::OpensRequire(self.0),
                Make(NodeKind::RequireImport, EqualsIn(self.0, Required)),
                Make(
                    NodeKind::EntityImport,
                    EqualsIn(self.0, OfRow(Row::EntityRow, Ended)),
                ),
            ),
            Pick(
                Predicate::OpensBare,
                Make(
                    NodeKind::BareImport,
                    Punct(
                        TokenKind::ImportWord,
                        Tok(LeafKind::Str, Kinds::Only(TokenKind::Str), AttributesEnded),
                    ),
                ),
                Pick(
                    Predicate::OpensSourceImport,
                    SourceImport,
                    Pick(
                        Predicate::OpensDeferImport,
                        DeferImport,
                        Make(
                            NodeKind::FromImport,
                            Punct(
                                TokenKind::ImportWord,
                                TypeWordIn(
                                    Predicate::OpensTypeImport(self.0),
                                    OfRow(Row::ClauseRow, FromEnded),
                                ),
                            ),
                        ),
                    ),
                ),
            ),
        )
        .read(grammar, cursor)
    }
}

/// XSpec: 'type'? (Word | Str) ('as' (Word | Str))?
#[derive(Clone, Copy)]
pub struct ExportSpecifier(pub Lang);

impl ReadsProduction<Row> for ExportSpecifier {
    ghost rule = { λ s. export_specifier s.0 };

    #[tactic(auto, unfolding(es_grammar::specs::types::Modules::export_specifier, es_grammar::specs::types::Modules::type_word_in, es_grammar::specs::types::Modules::word_or_str_in))]
    fn read<T: Rows<Row>>(
        &self,
        grammar: &Grammar<'_, T>,
        cursor: &mut Cursor,
    ) -> Result<usize, SyntaxError> {
        Make(
            NodeKind::ExportedName,
            Where(
                Predicate::IsNoTypeAsAs,
                TypeWordIn(
                    Predicate::OpensTypeName(self.0),
                    WordOrStrIn(Opt(
                        Greedy(Is(TokenKind::AsWord)),
                        Punct(TokenKind::AsWord, WordOrStrIn(Done)),
                        Done,
                    )),
                ),
            ),
        )
        .read(grammar, cursor)
    }
}

/// Export of names, of all, or of an import with '='.
#[derive(Clone, Copy)]
pub struct Export(pub Lang);

impl ReadsProduction<Row> for Export {
    ghost rule = { λ s. export_ s.0 };

    #[tactic(auto, unfolding(es_grammar::specs::types::Modules::export_, es_grammar::specs::types::Modules::equals_in, es_grammar::specs::types::Modules::type_word_in, es_grammar::specs::types::Modules::word_or_str_in, es_grammar::specs::types::Modules::names_in))]
    fn read<T: Rows<Row>>(
        &self,
        grammar: &Grammar<'_, T>,
        cursor: &mut Cursor,
    ) -> Result<usize, SyntaxError> {
        Pick(
            Predicate::OpensExportedEquals(self.0),
            Pick(
                Predicate::OpensExportedRequire(self.0),
                Make(
                    NodeKind::ExportedRequireImport,
                    Punct(TokenKind::ExportWord, EqualsIn(self.0, Required)),
                ),
                Make(
                    NodeKind::ExportedEntityImport,
                    Punct(
                        TokenKind::ExportWord,
                        EqualsIn(self.0, OfRow(Row::EntityRow, Ended)),
                    ),
                ),
            ),
            Pick(
                Predicate::OpensNamespace(self.0),
                Make(
                    NodeKind::ExportNamespace,
                    Punct(
                        TokenKind::ExportWord,
                        Punct(
                            TokenKind::AsWord,
                            Punct(
                                TokenKind::NamespaceWord,
                                Tok(LeafKind::Name, Kinds::Name, Ended),
                            ),
                        ),
                    ),
                ),
                Pick(
                    Predicate::OpensAll(self.0),
                    Make(
                        NodeKind::ExportAll,
                        Punct(
                            TokenKind::ExportWord,
                            TypeWordIn(
                                Predicate::OpensTypeExport(self.0),
                                Punct(
                                    TokenKind::Star,
                                    Opt(
                                        Greedy(Is(TokenKind::AsWord)),
                                        Punct(TokenKind::AsWord, WordOrStrIn(Done)),
                                        FromEnded,
                                    ),
                                ),
                            ),
                        ),
                    ),
                    Make(
                        NodeKind::ExportNames,
                        Punct(
                            TokenKind::ExportWord,
                            TypeWordIn(
                                Predicate::OpensTypeExport(self.0),
                                Punct(
                                    TokenKind::OpenBrace,
                                    NamesIn(
                                        Row::ExportSpecifierRow,
                                        Punct(
                                            TokenKind::CloseBrace,
                                            Opt(
                                                Greedy(Is(TokenKind::FromWord)),
                                                Punct(
                                                    TokenKind::FromWord,
                                                    Tok(
                                                        LeafKind::Str,
                                                        Kinds::Only(TokenKind::Str),
                                                        Opt(
                                                            Greedy(Is(TokenKind::WithWord)),
                                                            OfRow(Row::AttributesRow, Done),
                                                            Done,
                                                        ),
                                                    ),
                                                ),
                                                Ended,
                                            ),
                                        ),
                                    ),
                                ),
                            ),
                        ),
                    ),
                ),
            ),
        )
        .read(grammar, cursor)
    }
}
