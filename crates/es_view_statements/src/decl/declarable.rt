//! Declarations that may follow `declare`.

ghost use Rattle.std.specs.Prelude.{◌≡◌, ℕ, List, IfSome, IfNone};
ghost use Rattle.base.specs.declared.range.Range.{Range};
ghost use Rattle.es_token.specs.declared.token.Token.{Token as Tok};
ghost use Rattle.es_lowering.specs.TypedStatements.{interface, alias, enum_, namespace, module_namespace, global};
ghost use Rattle.es_lowering.specs.Texts.{span_of};
ghost use Rattle.es_syntax.specs.Held.{held, valued};
ghost use Rattle.es_syntax.specs.Roles.{declarable_in};
ghost use Rattle.es_syntax.specs.Views.{IsNone};
ghost use Rattle.es_view_statements.specs.decl.Declarable.{declarables, the_declarable, IsBelow};

use es_grammar::NodeKind;
use es_syntax::{Item, Siblings, What};

/// A declaration that may follow `declare`, with its parts in place. Numbers are those of tokens.
#[derive(Clone, Copy)]
pub enum Declarable<'a> {
    /// A function of TypeScript, with or without `async`: its parts.
    Function {
        is_async: bool,
        parts: Siblings<'a>,
    },
    /// A class of TypeScript, with or without `abstract`: its parts.
    Class {
        is_abstract: bool,
        parts: Siblings<'a>,
    },
    /// `interface a<T> extends b {}`: its members as turns.
    Interface {
        name: u32,
        type_params: Siblings<'a>,
        extends: Siblings<'a>,
        members: Siblings<'a>,
    },
    /// `type a<T> = b`
    Alias {
        name: u32,
        type_params: Siblings<'a>,
        ty: Item<'a>,
    },
    /// `enum a {}`, with or without `const`: its members as turns.
    Enum {
        is_const: bool,
        name: u32,
        members: Siblings<'a>,
    },
    /// `namespace a.b {}`, `module a {}`: the word, the name, its items as turns.
    Namespace {
        word: u32,
        name: Item<'a>,
        items: Siblings<'a>,
    },
    /// `module "a" {}`: its items as turns; without braces it has none.
    Module {
        name: Item<'a>,
        items: Siblings<'a>,
    },
    /// `global {}`: its items as turns.
    Global(Siblings<'a>),
    /// A part is not there.
    Broken,
}

/// `interface a<T> extends b {}`: its members as turns.
#[tactic(auto, unfolding(es_lowering::specs::TypedStatements::interface, crate::specs::decl::Declarable::interface_of))]
fn interface<'a>(parts: &Siblings<'a>) -> Declarable<'a>
    ensures form { (x : List ℕ) (ts : List Tok) (r : Range) → interface x ts (held x ts parts.now.entries.now) ≡ the_declarable x ts r result }
    ensures below { IsBelow parts.now result }
{
    match parts.token_at(0) {
        Some(name) => Declarable::Interface {
            name,
            type_params: parts.group_at(1),
            extends: parts.group_at(2),
            members: parts.group_at(3),
        },
        None => Declarable::Broken,
    }
}

/// `type a<T> = b`
#[tactic(auto, unfolding(es_lowering::specs::TypedStatements::alias, crate::specs::decl::Declarable::alias_of))]
fn alias<'a>(parts: &Siblings<'a>) -> Declarable<'a>
    ensures form { (x : List ℕ) (ts : List Tok) (r : Range) → alias x ts (held x ts parts.now.entries.now) ≡ the_declarable x ts r result }
    ensures below { IsBelow parts.now result }
{
    match parts.token_at(0) {
        Some(name) => match parts.part(2) {
            Some(ty) => Declarable::Alias {
                name,
                type_params: parts.group_at(1),
                ty,
            },
            None => Declarable::Broken,
        },
        None => Declarable::Broken,
    }
}

/// `enum a {}`, with or without `const`: its members as turns.
#[tactic(auto, unfolding(es_lowering::specs::TypedStatements::enum_, crate::specs::decl::Declarable::enum_of))]
fn enum_<'a>(parts: &Siblings<'a>) -> Declarable<'a>
    ensures form { (x : List ℕ) (ts : List Tok) (r : Range) → enum_ x ts (held x ts parts.now.entries.now) ≡ the_declarable x ts r result }
    ensures below { IsBelow parts.now result }
{
    match parts.token_at(1) {
        Some(name) => Declarable::Enum {
            is_const: parts.has(0),
            name,
            members: parts.group_at(2),
        },
        None => Declarable::Broken,
    }
}

/// `namespace a.b {}`, `module a {}`: the word, the name, its items as turns.
#[tactic(auto, unfolding(es_lowering::specs::TypedStatements::namespace, crate::specs::decl::Declarable::namespace_of))]
fn namespace<'a>(parts: &Siblings<'a>) -> Declarable<'a>
    ensures form { (x : List ℕ) (ts : List Tok) (r : Range) → namespace ts (held x ts parts.now.entries.now) ≡ the_declarable x ts r result }
    ensures below { IsBelow parts.now result }
{
    match parts.token_at(0) {
        Some(word) => match parts.part(1) {
            Some(name) => Declarable::Namespace {
                word,
                name,
                items: parts.group_at(2),
            },
            None => Declarable::Broken,
        },
        None => Declarable::Broken,
    }
}

/// `module "a" {}`: its items as turns; without braces it has none.
#[tactic(auto, unfolding(es_lowering::specs::TypedStatements::module_namespace, crate::specs::decl::Declarable::module_of))]
fn module_namespace<'a>(parts: &Siblings<'a>) -> Declarable<'a>
    ensures form { (x : List ℕ) (ts : List Tok) (r : Range) → module_namespace x ts (held x ts parts.now.entries.now) ≡ the_declarable x ts r result }
    ensures below { IsBelow parts.now result }
{
    match parts.part(0) {
        Some(name) => Declarable::Module {
            name,
            items: parts.group_at(1).group_at(0),
        },
        None => Declarable::Broken,
    }
}

/// `global {}`: its items as turns.
#[tactic(auto, unfolding(es_lowering::specs::TypedStatements::global, crate::specs::decl::Declarable::global_of))]
fn global<'a>(parts: &Siblings<'a>) -> Declarable<'a>
    ensures form { (x : List ℕ) (ts : List Tok) (r : Range) → global (held x ts parts.now.entries.now) ≡ the_declarable x ts r result }
    ensures below { IsBelow parts.now result }
{
    Declarable::Global(parts.group_at(0))
}

/// What a node is as a declaration that may follow `declare`; none where it is of another alternative.
#[tactic(auto, unfolding(es_lowering::specs::Lowering::build, es_lowering::specs::Lowering::declarable_of))]
pub fn declarable_at<'a>(node: &Item<'a>) -> Option<Declarable<'a>>
    ensures form { (x : List ℕ) (ts : List Tok) → IfSome result (λ view. declarable_in (valued x ts node.now) ≡ the_declarable x ts (span_of ts node.now.from node.now.to) view) }
    ensures other { IfNone result (IsNone declarables node.now.what) }
    ensures below { IfSome result (λ view. IsBelow node.now.parts view) }
{
    match node.what {
        What::Node(label) => match label {
            NodeKind::TypedFunction => Some(Declarable::Function {
                is_async: false,
                parts: node.parts,
            }),
            NodeKind::TypedAsyncFunction => Some(Declarable::Function {
                is_async: true,
                parts: node.parts,
            }),
            NodeKind::TypedClass => Some(Declarable::Class {
                is_abstract: false,
                parts: node.parts,
            }),
            NodeKind::AbstractClass => Some(Declarable::Class {
                is_abstract: true,
                parts: node.parts,
            }),
            NodeKind::InterfaceDeclaration => Some(interface(&node.parts)),
            NodeKind::AliasDeclaration => Some(alias(&node.parts)),
            NodeKind::EnumDeclaration => Some(enum_(&node.parts)),
            NodeKind::NamespaceDeclaration => Some(namespace(&node.parts)),
            NodeKind::ModuleDeclaration => Some(module_namespace(&node.parts)),
            NodeKind::GlobalDeclaration => Some(global(&node.parts)),
            _ => None,
        },
        What::Leaf => None,
        What::Role(_) => None,
        What::Parts => None,
        What::Lean(_) => None,
    }
}
