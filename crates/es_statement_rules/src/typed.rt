//! Declarations of TypeScript alone.

ghost use Rattle.es_grammar.specs.Declarations.{type_members, interface, alias, enum_, items_in, namespace, module_namespace, global, typed_declaration, declared, declare};

use es_grammar::{Context, NodeKind, Row, TypeRow};
use es_rules::{
    Alt, ByLookahead, Choose, Cursor, Done, Grammar, Greedy, LeafKind, Make, Many, OfRow, Opt,
    Pick, Punct, ReadsProduction, ReadsRhs, Rows, Tok, When,
};
use es_shared_rules::predicates::Lookahead::{Is, Other};
use es_shared_rules::predicates::{Kinds, Predicate};
use es_shared_rules::{
    AbstractClass, AsyncFunction, Class, DefaultIn, Ended, Function, ReferencesIn, TypeParameters,
};
use es_token::TokenKind;
use grammar_theory::{Lang, SyntaxError};

/// '{' TMember* '}'
#[derive(Clone, Copy)]
pub struct TypeMembers;

impl ReadsRhs<Row> for TypeMembers {
    ghost form = { λ _. type_members };

    #[tactic(auto, unfolding(es_grammar::specs::Declarations::type_members))]
    fn read<T: Rows<Row>>(
        &self,
        grammar: &Grammar<'_, T>,
        cursor: &mut Cursor,
    ) -> Result<usize, SyntaxError> {
        Punct(
            TokenKind::OpenBrace,
            Many(
                ByLookahead(Other(TokenKind::CloseBrace)),
                OfRow(Row::TypesRow(TypeRow::MemberRow), Done),
                Punct(TokenKind::CloseBrace, Done),
            ),
        )
        .read(grammar, cursor)
    }
}

/// '{' Item* '}'
#[derive(Clone, Copy)]
pub struct ItemsIn(pub Context);

impl ReadsRhs<Row> for ItemsIn {
    ghost form = { λ s. items_in s.0 };

    #[tactic(auto, unfolding(es_grammar::specs::Declarations::items_in))]
    fn read<T: Rows<Row>>(
        &self,
        grammar: &Grammar<'_, T>,
        cursor: &mut Cursor,
    ) -> Result<usize, SyntaxError> {
        Punct(
            TokenKind::OpenBrace,
            Many(
                ByLookahead(Other(TokenKind::CloseBrace)),
                OfRow(Row::ItemRow(self.0), Done),
                Punct(TokenKind::CloseBrace, Done),
            ),
        )
        .read(grammar, cursor)
    }
}

/// Interface: 'interface' Name TParams? ('extends' Ref%+)? '{' TMember* '}'
#[derive(Clone, Copy)]
pub struct Interface;

impl ReadsProduction<Row> for Interface {
    ghost rule = { λ s. interface };

    #[tactic(auto, unfolding(es_grammar::specs::Declarations::interface))]
    fn read<T: Rows<Row>>(
        &self,
        grammar: &Grammar<'_, T>,
        cursor: &mut Cursor,
    ) -> Result<usize, SyntaxError> {
        Make(
            NodeKind::InterfaceDeclaration,
            Punct(
                TokenKind::InterfaceWord,
                Tok(
                    LeafKind::Name,
                    Kinds::Name,
                    TypeParameters(Opt(
                        Greedy(Is(TokenKind::ExtendsWord)),
                        Punct(TokenKind::ExtendsWord, ReferencesIn(Done)),
                        TypeMembers,
                    )),
                ),
            ),
        )
        .read(grammar, cursor)
    }
}

/// Alias: 'type' Name TParams? '=' Type END
#[derive(Clone, Copy)]
pub struct Alias;

impl ReadsProduction<Row> for Alias {
    ghost rule = { λ s. alias };

    #[tactic(auto, unfolding(es_grammar::specs::Declarations::alias))]
    fn read<T: Rows<Row>>(
        &self,
        grammar: &Grammar<'_, T>,
        cursor: &mut Cursor,
    ) -> Result<usize, SyntaxError> {
        Make(
            NodeKind::AliasDeclaration,
            Punct(
                TokenKind::TypeWord,
                Tok(
                    LeafKind::Name,
                    Kinds::Name,
                    TypeParameters(Punct(
                        TokenKind::Equal,
                        OfRow(Row::TypesRow(TypeRow::TypeRow(true)), Ended),
                    )),
                ),
            ),
        )
        .read(grammar, cursor)
    }
}

/// Enum: 'const'? 'enum' Name '{' (Key ('=' Assign)?)% '}'
#[derive(Clone, Copy)]
pub struct Enum(pub Context);

impl ReadsProduction<Row> for Enum {
    ghost rule = { λ s. enum_ s.0 };

    #[tactic(auto, unfolding(es_grammar::specs::Declarations::enum_))]
    fn read<T: Rows<Row>>(
        &self,
        grammar: &Grammar<'_, T>,
        cursor: &mut Cursor,
    ) -> Result<usize, SyntaxError> {
        let outside = Context {
            no_in: false,
            no_colon: false,
            in_constructor: false,
            ..self.0
        };
        let comma = Opt(
            Greedy(Other(TokenKind::CloseBrace)),
            Punct(TokenKind::Comma, Done),
            Done,
        );
        Make(
            NodeKind::EnumDeclaration,
            Opt(
                Greedy(Is(TokenKind::ConstWord)),
                Tok(LeafKind::There, Kinds::Only(TokenKind::ConstWord), Done),
                Punct(
                    TokenKind::EnumWord,
                    Tok(
                        LeafKind::Name,
                        Kinds::Name,
                        Punct(
                            TokenKind::OpenBrace,
                            Many(
                                ByLookahead(Other(TokenKind::CloseBrace)),
                                OfRow(Row::KeyRow(false, outside), DefaultIn(self.0, comma)),
                                Punct(TokenKind::CloseBrace, Done),
                            ),
                        ),
                    ),
                ),
            ),
        )
        .read(grammar, cursor)
    }
}

/// ('namespace' | 'module') Entity '{' Item* '}'
#[derive(Clone, Copy)]
pub struct Namespace(pub Context);

impl ReadsProduction<Row> for Namespace {
    ghost rule = { λ s. namespace s.0 };

    #[tactic(auto, unfolding(es_grammar::specs::Declarations::namespace))]
    fn read<T: Rows<Row>>(
        &self,
        grammar: &Grammar<'_, T>,
        cursor: &mut Cursor,
    ) -> Result<usize, SyntaxError> {
        Make(
            NodeKind::NamespaceDeclaration,
            Tok(
                LeafKind::Kind,
                Kinds::NamespaceWord,
                OfRow(Row::EntityRow, ItemsIn(self.0)),
            ),
        )
        .read(grammar, cursor)
    }
}

/// 'module' Str ('{' Item* '}' | END)
#[derive(Clone, Copy)]
pub struct ModuleNamespace(pub Context);

impl ReadsProduction<Row> for ModuleNamespace {
    ghost rule = { λ s. module_namespace s.0 };

    #[tactic(auto, unfolding(es_grammar::specs::Declarations::module_namespace))]
    fn read<T: Rows<Row>>(
        &self,
        grammar: &Grammar<'_, T>,
        cursor: &mut Cursor,
    ) -> Result<usize, SyntaxError> {
        Make(
            NodeKind::ModuleDeclaration,
            Punct(
                TokenKind::ModuleWord,
                Tok(
                    LeafKind::Str,
                    Kinds::Only(TokenKind::Str),
                    Alt(
                        Is(TokenKind::OpenBrace),
                        ItemsIn(self.0),
                        When(Other(TokenKind::OpenBrace), Ended),
                        Done,
                    ),
                ),
            ),
        )
        .read(grammar, cursor)
    }
}

/// 'global' '{' Item* '}'
#[derive(Clone, Copy)]
pub struct Global(pub Context);

impl ReadsProduction<Row> for Global {
    ghost rule = { λ s. global s.0 };

    #[tactic(auto, unfolding(es_grammar::specs::Declarations::global))]
    fn read<T: Rows<Row>>(
        &self,
        grammar: &Grammar<'_, T>,
        cursor: &mut Cursor,
    ) -> Result<usize, SyntaxError> {
        Make(
            NodeKind::GlobalDeclaration,
            Punct(TokenKind::GlobalWord, ItemsIn(self.0)),
        )
        .read(grammar, cursor)
    }
}

/// Interface | Alias | Space, or another rule.
#[derive(Clone, Copy)]
pub struct TypedDeclaration<A>(pub Context, pub A);

impl<A: ReadsProduction<Row> + Copy> ReadsProduction<Row> for TypedDeclaration<A> {
    ghost rule = { λ s. typed_declaration s.0 (A.rule s.1) };

    #[tactic(auto, unfolding(es_grammar::specs::Declarations::typed_declaration))]
    fn read<T: Rows<Row>>(
        &self,
        grammar: &Grammar<'_, T>,
        cursor: &mut Cursor,
    ) -> Result<usize, SyntaxError> {
        Pick(
            Predicate::OpensInterface,
            Interface,
            Pick(
                Predicate::OpensAlias,
                Alias,
                Pick(
                    Predicate::OpensNamespaceDeclaration,
                    Namespace(self.0),
                    Pick(
                        Predicate::OpensModule,
                        ModuleNamespace(self.0),
                        Pick(Predicate::OpensGlobal, Global(self.0), self.1),
                    ),
                ),
            ),
        )
        .read(grammar, cursor)
    }
}

/// What follows `declare` besides variables.
#[derive(Clone, Copy)]
pub struct Declared(pub Lang, pub Context);

impl ReadsProduction<Row> for Declared {
    ghost rule = { λ s. declared s.0 s.1 };

    #[tactic(auto, unfolding(es_grammar::specs::Declarations::declared))]
    fn read<T: Rows<Row>>(
        &self,
        grammar: &Grammar<'_, T>,
        cursor: &mut Cursor,
    ) -> Result<usize, SyntaxError> {
        let lang = self.0;
        Pick(
            Predicate::OpensEnum,
            Enum(self.1),
            Choose(
                Is(TokenKind::FunctionWord),
                Function(lang, true, self.1),
                Choose(
                    Is(TokenKind::ClassWord),
                    Class(lang, true, self.1),
                    Pick(
                        Predicate::OpensAbstractClass,
                        AbstractClass(lang, true, self.1),
                        TypedDeclaration(self.1, AsyncFunction(lang, true, self.1)),
                    ),
                ),
            ),
        )
        .read(grammar, cursor)
    }
}

/// 'declare' (Var END | Fn | Class | Interface | Alias | Enum | Space)
#[derive(Clone, Copy)]
pub struct Declare(pub Context);

impl ReadsProduction<Row> for Declare {
    ghost rule = { λ s. declare s.0 };

    #[tactic(auto, unfolding(es_grammar::specs::Declarations::declare))]
    fn read<T: Rows<Row>>(
        &self,
        grammar: &Grammar<'_, T>,
        cursor: &mut Cursor,
    ) -> Result<usize, SyntaxError> {
        Pick(
            Predicate::DeclaresVariables,
            Make(
                NodeKind::DeclaredVariables,
                Punct(
                    TokenKind::DeclareWord,
                    OfRow(Row::VariablesRow(self.0), Ended),
                ),
            ),
            Make(
                NodeKind::Declared,
                Punct(
                    TokenKind::DeclareWord,
                    OfRow(Row::DeclaredRow(self.0), Done),
                ),
            ),
        )
        .read(grammar, cursor)
    }
}
