//! Kinds of tokens by what is written with them.

ghost use Rattle.std.specs.Prelude.{◌≡◌};
ghost use Rattle.es_grammar.specs.Expressions.{is_assertion_word, is_tight, is_tightest};
ghost use Rattle.es_grammar.specs.Functions.{is_typed_modifier, is_modifier};
ghost use Rattle.es_grammar.specs.Classes.{is_field_mark};
ghost use Rattle.es_grammar.specs.Declarations.{is_declaration_word, is_namespace_word};
ghost use Rattle.es_shared_rules.specs.predicates.Named.{kinds_of};

use crate::predicates::named::Kinds;
use es_lookahead as plain;
use es_token::TokenKind;

/// `as` or `satisfies`
#[tactic(auto, unfolding(es_grammar::specs::Expressions::is_assertion_word))]
fn is_assertion_word(kind: TokenKind) -> bool
    ensures { result ≡ is_assertion_word kind }
{
    kind == TokenKind::AsWord || kind == TokenKind::SatisfiesWord
}

/// An operator of one token at the level of `<` or tighter.
#[tactic(auto, unfolding(es_grammar::specs::Expressions::is_tight))]
fn is_tight(kind: TokenKind) -> bool
    ensures { result ≡ is_tight kind }
{
    plain::is_of(plain::Kinds::Relation, kind)
        || kind == TokenKind::LessLess
        || plain::is_of(plain::Kinds::Sum, kind)
        || plain::is_of(plain::Kinds::Product, kind)
        || kind == TokenKind::StarStar
}

/// `*`, `/`, `%` or `**`
#[tactic(auto, unfolding(es_grammar::specs::Expressions::is_tightest))]
fn is_tightest(kind: TokenKind) -> bool
    ensures { result ≡ is_tightest kind }
{
    plain::is_of(plain::Kinds::Product, kind) || kind == TokenKind::StarStar
}

/// A modifier of TypeScript.
#[tactic(auto, unfolding(es_grammar::specs::Functions::is_typed_modifier))]
fn is_typed_modifier(kind: TokenKind) -> bool
    ensures { result ≡ is_typed_modifier kind }
{
    kind == TokenKind::PublicWord
        || kind == TokenKind::PrivateWord
        || kind == TokenKind::ProtectedWord
        || kind == TokenKind::ReadonlyWord
        || kind == TokenKind::AbstractWord
        || kind == TokenKind::OverrideWord
        || kind == TokenKind::DeclareWord
}

/// Such a modifier, or `static`.
#[tactic(auto, unfolding(es_grammar::specs::Functions::is_modifier))]
fn is_modifier(kind: TokenKind) -> bool
    ensures { result ≡ is_modifier kind }
{
    kind == TokenKind::StaticWord || is_typed_modifier(kind)
}

/// `?` or `!`
#[tactic(auto, unfolding(es_grammar::specs::Classes::is_field_mark))]
fn is_field_mark(kind: TokenKind) -> bool
    ensures { result ≡ is_field_mark kind }
{
    kind == TokenKind::Question || kind == TokenKind::Exclamation
}

/// A word of a declaration.
#[tactic(auto, unfolding(es_grammar::specs::Declarations::is_declaration_word))]
fn is_declaration_word(kind: TokenKind) -> bool
    ensures { result ≡ is_declaration_word kind }
{
    plain::is_of(plain::Kinds::VariableWord, kind)
        || kind == TokenKind::FunctionWord
        || kind == TokenKind::ClassWord
        || kind == TokenKind::EnumWord
        || kind == TokenKind::AbstractWord
        || kind == TokenKind::AsyncWord
        || kind == TokenKind::InterfaceWord
        || kind == TokenKind::TypeWord
        || kind == TokenKind::NamespaceWord
        || kind == TokenKind::ModuleWord
        || kind == TokenKind::GlobalWord
}

/// `namespace` or `module`
#[tactic(auto, unfolding(es_grammar::specs::Declarations::is_namespace_word))]
fn is_namespace_word(kind: TokenKind) -> bool
    ensures { result ≡ is_namespace_word kind }
{
    kind == TokenKind::NamespaceWord || kind == TokenKind::ModuleWord
}

/// The kind is one of these.
pub fn is_of(named: Kinds, kind: TokenKind) -> bool
    ensures { result ≡ kinds_of named kind }
{
    match named {
        Kinds::Only(other) => kind == other,
        Kinds::Name => plain::is_of(plain::Kinds::Name, kind),
        Kinds::Word => plain::is_of(plain::Kinds::Word, kind),
        Kinds::NameOrThis => plain::is_of(plain::Kinds::NameOrThis, kind),
        Kinds::Numeric => plain::is_of(plain::Kinds::Numeric, kind),
        Kinds::AccessorWord => plain::is_of(plain::Kinds::AccessorWord, kind),
        Kinds::Prefix => plain::is_of(plain::Kinds::Prefix, kind),
        Kinds::Update => plain::is_of(plain::Kinds::Update, kind),
        Kinds::Product => plain::is_of(plain::Kinds::Product, kind),
        Kinds::Sum => plain::is_of(plain::Kinds::Sum, kind),
        Kinds::Equality => plain::is_of(plain::Kinds::Equality, kind),
        Kinds::Relation => plain::is_of(plain::Kinds::Relation, kind),
        Kinds::Assignment => plain::is_of(plain::Kinds::Assignment, kind),
        Kinds::PropertyName => plain::is_of(plain::Kinds::PropertyName, kind),
        Kinds::LiteralWord => plain::is_of(plain::Kinds::LiteralWord, kind),
        Kinds::VariableWord => plain::is_of(plain::Kinds::VariableWord, kind),
        Kinds::AssertionWord => is_assertion_word(kind),
        Kinds::Tight => is_tight(kind),
        Kinds::Tightest => is_tightest(kind),
        Kinds::TypedModifier => is_typed_modifier(kind),
        Kinds::Modifier => is_modifier(kind),
        Kinds::FieldMark => is_field_mark(kind),
        Kinds::DeclarationWord => is_declaration_word(kind),
        Kinds::NamespaceWord => is_namespace_word(kind),
    }
}
