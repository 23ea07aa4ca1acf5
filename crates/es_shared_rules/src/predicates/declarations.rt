//! Predicates of declarations and items.

ghost use Rattle.std.specs.Prelude.{◌≡◌, ◌+◌};
ghost use Rattle.grammar_theory.specs.Key.{keys_of};
ghost use Rattle.es_grammar.specs.Declarations.{heads_name, opens_interface, opens_alias, opens_enum, opens_namespace, opens_module, opens_global, opens_declare, declares_variables};
ghost use Rattle.es_grammar.specs.Expressions.{opens_abstract_class};
ghost use Rattle.es_grammar.specs.Items.{opens_any_default_class, opens_default_interface, opens_any_declaration, opens_export_assignment};
ghost use Rattle.es_shared_rules.specs.predicates.Named.{heads_typed};

use crate::predicates::expressions::opens_abstract_class;
use crate::predicates::looks::{has, has_name, is, is_near};
use crate::predicates::named::Kinds;
use es_lookahead::Tokens;
use es_token::TokenKind;
use grammar_theory::Lang;

/// A word before a name on its line.
fn heads_name(tokens: &Tokens<'_>, word: TokenKind, at: usize) -> bool
    ensures { result ≡ heads_name word (keys_of tokens.now.tokens.now) at }
{
    if !tokens.sees(word, at) {
        return false;
    }
    let next = tokens.seen_after(at, 1);
    is_near(next) && has_name(next)
}

/// `interface` heads a declaration.
#[tactic(auto, unfolding(es_grammar::specs::Declarations::opens_interface))]
pub fn opens_interface(tokens: &Tokens<'_>, at: usize) -> bool
    ensures { result ≡ opens_interface (keys_of tokens.now.tokens.now) at }
{
    heads_name(tokens, TokenKind::InterfaceWord, at)
}

/// `type` does.
#[tactic(auto, unfolding(es_grammar::specs::Declarations::opens_alias))]
pub fn opens_alias(tokens: &Tokens<'_>, at: usize) -> bool
    ensures { result ≡ opens_alias (keys_of tokens.now.tokens.now) at }
{
    heads_name(tokens, TokenKind::TypeWord, at)
}

/// `enum`, or `const enum`.
#[tactic(auto, unfolding(es_grammar::specs::Declarations::opens_enum))]
pub fn opens_enum(tokens: &Tokens<'_>, at: usize) -> bool
    ensures { result ≡ opens_enum (keys_of tokens.now.tokens.now) at }
{
    tokens.sees(TokenKind::EnumWord, at)
        || (tokens.sees(TokenKind::ConstWord, at)
            && is(TokenKind::EnumWord, tokens.seen_after(at, 1)))
}

/// `namespace` or `module` before a name.
#[tactic(auto, unfolding(es_grammar::specs::Declarations::opens_namespace))]
pub fn opens_namespace(tokens: &Tokens<'_>, at: usize) -> bool
    ensures { result ≡ opens_namespace (keys_of tokens.now.tokens.now) at }
{
    heads_name(tokens, TokenKind::NamespaceWord, at)
        || heads_name(tokens, TokenKind::ModuleWord, at)
}

/// `module` before a string literal on its line.
#[tactic(auto, unfolding(es_grammar::specs::Declarations::opens_module))]
pub fn opens_module(tokens: &Tokens<'_>, at: usize) -> bool
    ensures { result ≡ opens_module (keys_of tokens.now.tokens.now) at }
{
    if !tokens.sees(TokenKind::ModuleWord, at) {
        return false;
    }
    let next = tokens.seen_after(at, 1);
    is_near(next) && is(TokenKind::Str, next)
}

/// `global` before `{`.
#[tactic(auto, unfolding(es_grammar::specs::Declarations::opens_global))]
pub fn opens_global(tokens: &Tokens<'_>, at: usize) -> bool
    ensures { result ≡ opens_global (keys_of tokens.now.tokens.now) at }
{
    tokens.sees(TokenKind::GlobalWord, at) && is(TokenKind::OpenBrace, tokens.seen_after(at, 1))
}

/// `declare` before a declaration's word on its line.
#[tactic(auto, unfolding(es_grammar::specs::Declarations::opens_declare))]
pub fn opens_declare(tokens: &Tokens<'_>, at: usize) -> bool
    ensures { result ≡ opens_declare (keys_of tokens.now.tokens.now) at }
{
    if !tokens.sees(TokenKind::DeclareWord, at) {
        return false;
    }
    let next = tokens.seen_after(at, 1);
    is_near(next) && has(Kinds::DeclarationWord, next)
}

/// A declaration of TypeScript begins here, or one with `declare` or `abstract`.
fn heads_typed(tokens: &Tokens<'_>, at: usize) -> bool
    ensures { result ≡ heads_typed (keys_of tokens.now.tokens.now) at }
{
    opens_enum(tokens, at)
        || opens_declare(tokens, at)
        || opens_abstract_class(tokens, at)
        || opens_interface(tokens, at)
        || opens_alias(tokens, at)
        || opens_namespace(tokens, at)
        || opens_module(tokens, at)
        || opens_global(tokens, at)
}

/// `enum`, or `const enum`, one token later.
#[tactic(auto, unfolding(es_grammar::specs::Declarations::opens_enum))]
fn opens_enum_behind(tokens: &Tokens<'_>, at: usize) -> bool
    ensures { result ≡ opens_enum (keys_of tokens.now.tokens.now) (at + 1) }
{
    is(TokenKind::EnumWord, tokens.seen_after(at, 1))
        || (is(TokenKind::ConstWord, tokens.seen_after(at, 1))
            && is(TokenKind::EnumWord, tokens.seen_after(at, 2)))
}

/// Variables follow `declare`.
#[tactic(auto, unfolding(es_grammar::specs::Declarations::declares_variables))]
pub fn declares_variables(tokens: &Tokens<'_>, at: usize) -> bool
    ensures { result ≡ declares_variables (keys_of tokens.now.tokens.now) at }
{
    has(Kinds::VariableWord, tokens.seen_after(at, 1)) && !opens_enum_behind(tokens, at)
}

/// A declaration of TypeScript begins one token later.
fn heads_typed_behind(tokens: &Tokens<'_>, at: usize) -> bool
    ensures { result ≡ heads_typed (keys_of tokens.now.tokens.now) (at + 1) }
{
    if at >= tokens.tokens.len() {
        return false;
    }
    heads_typed(tokens, at + 1)
}

/// A declaration follows `export`.
#[tactic(auto, unfolding(es_grammar::specs::Items::opens_any_declaration))]
pub fn opens_any_declaration(tokens: &Tokens<'_>, lang: Lang, at: usize) -> bool
    ensures { result ≡ opens_any_declaration lang (keys_of tokens.now.tokens.now) at }
{
    if lang.is_typed() {
        tokens.opens_declaration(at) || heads_typed_behind(tokens, at)
    } else {
        tokens.opens_declaration(at)
    }
}

/// A class follows `export default`.
#[tactic(auto, unfolding(es_grammar::specs::Items::opens_any_default_class, es_grammar::specs::Expressions::opens_abstract_class))]
pub fn opens_any_default_class(tokens: &Tokens<'_>, lang: Lang, at: usize) -> bool
    ensures { result ≡ opens_any_default_class lang (keys_of tokens.now.tokens.now) at }
{
    if lang.is_typed() {
        tokens.opens_default_class(at)
            || (is(TokenKind::AbstractWord, tokens.seen_after(at, 2))
                && is(TokenKind::ClassWord, tokens.seen_after(at, 3)))
    } else {
        tokens.opens_default_class(at)
    }
}

/// An interface follows `export default`.
#[tactic(auto, unfolding(es_grammar::specs::Items::opens_default_interface, es_grammar::specs::Declarations::opens_interface))]
pub fn opens_default_interface(tokens: &Tokens<'_>, at: usize) -> bool
    ensures { result ≡ opens_default_interface (keys_of tokens.now.tokens.now) at }
{
    let name = tokens.seen_after(at, 3);
    is(TokenKind::InterfaceWord, tokens.seen_after(at, 2)) && is_near(name) && has_name(name)
}

/// `=` follows `export`.
#[tactic(auto, unfolding(es_grammar::specs::Items::opens_export_assignment))]
pub fn opens_export_assignment(tokens: &Tokens<'_>, at: usize) -> bool
    ensures { result ≡ opens_export_assignment (keys_of tokens.now.tokens.now) at }
{
    is(TokenKind::Equal, tokens.seen_after(at, 1))
}
