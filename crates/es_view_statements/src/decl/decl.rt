//! Declarations.

ghost use Rattle.std.specs.Prelude.{◌≡◌, ℕ, List, option_map, IfSome, IfNone};
ghost use Rattle.base.specs.declared.range.Range.{Range};
ghost use Rattle.es_token.specs.declared.token.Token.{Token as Tok};
ghost use Rattle.es_lowering.specs.Statements.{variable_declaration, variables, using_};
ghost use Rattle.es_lowering.specs.TypedStatements.{declared, declared_variables};
ghost use Rattle.es_lowering.specs.Statements.{decl_of};
ghost use Rattle.es_lowering.specs.Texts.{span_of};
ghost use Rattle.es_syntax.specs.Held.{held, valued};
ghost use Rattle.es_syntax.specs.Roles.{decl_in};
ghost use Rattle.es_syntax.specs.Views.{IsNone};
ghost use Rattle.es_view_statements.specs.decl.Decl.{declarations, the_decl, IsBelow};

use es_grammar::NodeKind;
use es_syntax::{Item, Siblings, What};

/// A declaration, with its parts in place. Numbers are those of tokens.
#[derive(Clone, Copy)]
pub enum Decl<'a> {
    /// `function a(b) {}`, with or without `async`: its parts.
    Function {
        is_async: bool,
        parts: Siblings<'a>,
    },
    /// `class a {}`: its parts.
    Class(Siblings<'a>),
    /// `var a;`: the variables before the end.
    Variables(Item<'a>),
    /// `var a = b, c`: the first declarator, and turns of the others.
    Var {
        word: u32,
        first: Item<'a>,
        others: Siblings<'a>,
    },
    /// `using a = b`, with or without `await`.
    Using {
        is_await: bool,
        first: Item<'a>,
        others: Siblings<'a>,
    },
    /// `declare` before a declaration.
    Declared(Item<'a>),
    /// `declare` before variables.
    DeclaredVariables(Item<'a>),
    /// One that may follow `declare`: the node itself.
    Declarable(Item<'a>),
    /// A part is not there.
    Broken,
}

/// `var a;`: the variables before the end.
#[tactic(auto, unfolding(es_lowering::specs::Statements::variable_declaration, crate::specs::decl::Decl::var_decl))]
fn variable_declaration<'a>(parts: &Siblings<'a>) -> Decl<'a>
    ensures form { (x : List ℕ) (ts : List Tok) (r : Range) → variable_declaration r (held x ts parts.now.entries.now) ≡ the_decl x ts r result }
    ensures below { IsBelow parts.now result }
{
    match parts.part(0) {
        Some(variables) => Decl::Variables(variables),
        None => Decl::Broken,
    }
}

/// `var a = b, c`: the first declarator, and turns of the others.
#[tactic(auto, unfolding(es_lowering::specs::Statements::variables, crate::specs::decl::Decl::var_of))]
fn variables<'a>(parts: &Siblings<'a>) -> Decl<'a>
    ensures form { (x : List ℕ) (ts : List Tok) (r : Range) → option_map (decl_of r) (variables ts (held x ts parts.now.entries.now)) ≡ the_decl x ts r result }
    ensures below { IsBelow parts.now result }
{
    match parts.token_at(0) {
        Some(word) => match parts.part(1) {
            Some(first) => Decl::Var {
                word,
                first,
                others: parts.group_at(2),
            },
            None => Decl::Broken,
        },
        None => Decl::Broken,
    }
}

/// `using a = b`, with or without `await`.
#[tactic(auto, unfolding(es_lowering::specs::Statements::using_, crate::specs::decl::Decl::using_of))]
fn using_<'a>(parts: &Siblings<'a>) -> Decl<'a>
    ensures form { (x : List ℕ) (ts : List Tok) (r : Range) → option_map (decl_of r) (using_ (held x ts parts.now.entries.now)) ≡ the_decl x ts r result }
    ensures below { IsBelow parts.now result }
{
    match parts.part(1) {
        Some(first) => Decl::Using {
            is_await: parts.has(0),
            first,
            others: parts.group_at(2),
        },
        None => Decl::Broken,
    }
}

/// `declare` before a declaration.
#[tactic(auto, unfolding(es_lowering::specs::TypedStatements::declared, crate::specs::decl::Decl::declared))]
fn declared<'a>(parts: &Siblings<'a>) -> Decl<'a>
    ensures form { (x : List ℕ) (ts : List Tok) (r : Range) → declared r (held x ts parts.now.entries.now) ≡ the_decl x ts r result }
    ensures below { IsBelow parts.now result }
{
    match parts.part(0) {
        Some(decl) => Decl::Declared(decl),
        None => Decl::Broken,
    }
}

/// `declare` before variables.
#[tactic(auto, unfolding(es_lowering::specs::TypedStatements::declared_variables, crate::specs::decl::Decl::declared_variables))]
fn declared_variables<'a>(parts: &Siblings<'a>) -> Decl<'a>
    ensures form { (x : List ℕ) (ts : List Tok) (r : Range) → declared_variables r (held x ts parts.now.entries.now) ≡ the_decl x ts r result }
    ensures below { IsBelow parts.now result }
{
    match parts.part(0) {
        Some(variables) => Decl::DeclaredVariables(variables),
        None => Decl::Broken,
    }
}

/// What a node is as a declaration; none where it is of another alternative.
#[tactic(auto, unfolding(es_lowering::specs::Lowering::build, es_lowering::specs::Lowering::decl_of))]
pub fn decl_at<'a>(node: &Item<'a>) -> Option<Decl<'a>>
    ensures form { (x : List ℕ) (ts : List Tok) → IfSome result (λ view. decl_in (valued x ts node.now) ≡ the_decl x ts (span_of ts node.now.from node.now.to) view) }
    ensures other { IfNone result (IsNone declarations node.now.what) }
    ensures below { IfSome result (λ view. IsBelow node.now.parts view) }
{
    match node.what {
        What::Node(label) => match label {
            NodeKind::Function => Some(Decl::Function {
                is_async: false,
                parts: node.parts,
            }),
            NodeKind::AsyncFunction => Some(Decl::Function {
                is_async: true,
                parts: node.parts,
            }),
            NodeKind::Class => Some(Decl::Class(node.parts)),
            NodeKind::VariableDeclaration => Some(variable_declaration(&node.parts)),
            NodeKind::UsingDeclaration => Some(variable_declaration(&node.parts)),
            NodeKind::Variables => Some(variables(&node.parts)),
            NodeKind::Using => Some(using_(&node.parts)),
            NodeKind::Declared => Some(declared(&node.parts)),
            NodeKind::DeclaredVariables => Some(declared_variables(&node.parts)),
            NodeKind::TypedFunction => Some(Decl::Declarable(*node)),
            NodeKind::TypedAsyncFunction => Some(Decl::Declarable(*node)),
            NodeKind::TypedClass => Some(Decl::Declarable(*node)),
            NodeKind::AbstractClass => Some(Decl::Declarable(*node)),
            NodeKind::InterfaceDeclaration => Some(Decl::Declarable(*node)),
            NodeKind::AliasDeclaration => Some(Decl::Declarable(*node)),
            NodeKind::EnumDeclaration => Some(Decl::Declarable(*node)),
            NodeKind::NamespaceDeclaration => Some(Decl::Declarable(*node)),
            NodeKind::ModuleDeclaration => Some(Decl::Declarable(*node)),
            NodeKind::GlobalDeclaration => Some(Decl::Declarable(*node)),
            _ => None,
        },
        What::Leaf => None,
        What::Role(_) => None,
        What::Parts => None,
        What::Lean(_) => None,
    }
}
