//! Types of functions, and type predicates as results.

ghost use Rattle.std.specs.Prelude.{◌≡◌, ℕ, List, IfSome, IfNone};
ghost use Rattle.base.specs.declared.range.Range.{Range};
ghost use Rattle.es_token.specs.declared.token.Token.{Token as Tok};
ghost use Rattle.es_lowering.specs.Types.{function_type, constructor_type, asserts_result, predicate_result};
ghost use Rattle.es_lowering.specs.Texts.{span_of};
ghost use Rattle.es_syntax.specs.Held.{held, valued};
ghost use Rattle.es_syntax.specs.Roles.{ts_type_in};
ghost use Rattle.es_syntax.specs.Views.{IsNone};
ghost use Rattle.es_view_types.specs.types.Function.{function_types, the_function, IsBelow};

use es_grammar::NodeKind;
use es_syntax::{Item, Siblings, What};

/// A type, with its parts as cursors. Numbers are those of tokens.
#[derive(Clone, Copy)]
pub enum FunctionType<'a> {
    /// `<T>(a) => b`: the type parameters may be absent.
    Function {
        type_params: Siblings<'a>,
        params: Item<'a>,
        ty: Item<'a>,
    },
    /// `new <T>(a) => b`, with optional `abstract`.
    Constructor {
        is_abstract: bool,
        type_params: Siblings<'a>,
        params: Item<'a>,
        ty: Item<'a>,
    },
    /// `asserts a is b`: the type may be absent.
    Asserts {
        name: u32,
        ty: Siblings<'a>,
    },
    /// `a is b`
    Predicate {
        name: u32,
        ty: Item<'a>,
    },
    /// A part is not there.
    Broken,
}

/// `<T>(a) => b`: the type parameters may be absent.
#[tactic(auto, unfolding(es_lowering::specs::Types::function_type, crate::specs::types::Function::function))]
fn function<'a>(parts: &Siblings<'a>) -> FunctionType<'a>
    ensures form { (x : List ℕ) (ts : List Tok) (r : Range) → function_type r (held x ts parts.now.entries.now) ≡ the_function x ts r result }
    ensures below { IsBelow parts.now result }
{
    match parts.part(1) {
        Some(params) => match parts.part(2) {
            Some(ty) => FunctionType::Function {
                type_params: parts.group_at(0),
                params,
                ty,
            },
            None => FunctionType::Broken,
        },
        None => FunctionType::Broken,
    }
}

/// `new <T>(a) => b`, with optional `abstract`.
#[tactic(auto, unfolding(es_lowering::specs::Types::constructor_type, crate::specs::types::Function::constructor))]
fn constructor<'a>(parts: &Siblings<'a>) -> FunctionType<'a>
    ensures form { (x : List ℕ) (ts : List Tok) (r : Range) → constructor_type r (held x ts parts.now.entries.now) ≡ the_function x ts r result }
    ensures below { IsBelow parts.now result }
{
    match parts.part(2) {
        Some(params) => match parts.part(3) {
            Some(ty) => FunctionType::Constructor {
                is_abstract: parts.has(0),
                type_params: parts.group_at(1),
                params,
                ty,
            },
            None => FunctionType::Broken,
        },
        None => FunctionType::Broken,
    }
}

/// `asserts a is b`: the type may be absent.
#[tactic(auto, unfolding(es_lowering::specs::Types::asserts_result, crate::specs::types::Function::asserts))]
fn asserts<'a>(parts: &Siblings<'a>) -> FunctionType<'a>
    ensures form { (x : List ℕ) (ts : List Tok) (r : Range) → asserts_result x ts r (held x ts parts.now.entries.now) ≡ the_function x ts r result }
    ensures below { IsBelow parts.now result }
{
    match parts.token_at(0) {
        Some(name) => FunctionType::Asserts {
            name,
            ty: parts.group_at(1),
        },
        None => FunctionType::Broken,
    }
}

/// `a is b`
#[tactic(auto, unfolding(es_lowering::specs::Types::predicate_result, crate::specs::types::Function::predicate))]
fn predicate<'a>(parts: &Siblings<'a>) -> FunctionType<'a>
    ensures form { (x : List ℕ) (ts : List Tok) (r : Range) → predicate_result x ts r (held x ts parts.now.entries.now) ≡ the_function x ts r result }
    ensures below { IsBelow parts.now result }
{
    match parts.token_at(0) {
        Some(name) => match parts.part(1) {
            Some(ty) => FunctionType::Predicate { name, ty },
            None => FunctionType::Broken,
        },
        None => FunctionType::Broken,
    }
}

/// What a node is as a type of a function, or as a type predicate; none where it is of another alternative.
#[tactic(auto, unfolding(es_lowering::specs::Lowering::build, es_lowering::specs::Lowering::type_of))]
pub fn function_at<'a>(node: &Item<'a>) -> Option<FunctionType<'a>>
    ensures form { (x : List ℕ) (ts : List Tok) → IfSome result (λ view. ts_type_in (valued x ts node.now) ≡ the_function x ts (span_of ts node.now.from node.now.to) view) }
    ensures other { IfNone result (IsNone function_types node.now.what) }
    ensures below { IfSome result (λ view. IsBelow node.now.parts view) }
{
    match node.what {
        What::Node(label) => match label {
            NodeKind::FunctionType => Some(function(&node.parts)),
            NodeKind::ConstructorType => Some(constructor(&node.parts)),
            NodeKind::AssertsResult => Some(asserts(&node.parts)),
            NodeKind::PredicateResult => Some(predicate(&node.parts)),
            _ => None,
        },
        What::Leaf => None,
        What::Role(_) => None,
        What::Parts => None,
        What::Lean(_) => None,
    }
}
