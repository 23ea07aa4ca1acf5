//! Functions and classes as expressions.

ghost use Rattle.std.specs.Prelude.{◌≡◌, ℕ, List, IfSome, IfNone};
ghost use Rattle.base.specs.declared.range.Range.{Range};
ghost use Rattle.es_token.specs.declared.token.Token.{Token as Tok};
ghost use Rattle.es_lowering.specs.Functions.{name_arrow, parenthesized_arrow};
ghost use Rattle.es_lowering.specs.TypedFunctions.{typed_arrow};
ghost use Rattle.es_lowering.specs.Texts.{span_of};
ghost use Rattle.es_syntax.specs.Held.{held, valued};
ghost use Rattle.es_syntax.specs.Roles.{expr_in};
ghost use Rattle.es_syntax.specs.Views.{IsNone};
ghost use Rattle.es_view_expressions.specs.function.Function.{functions, the_function, IsBelow};

use es_grammar::NodeKind;
use es_syntax::{Item, Siblings, What};

/// A function or a class as an expression. Numbers are those of tokens.
#[derive(Clone, Copy)]
pub enum Function<'a> {
    /// `function a(b) {}`, with or without `async`: its parts, which `plain_function` reads.
    Plain {
        is_async: bool,
        parts: Siblings<'a>,
    },
    /// The same of TypeScript, which `typed_function` reads.
    Typed {
        is_async: bool,
        parts: Siblings<'a>,
    },
    /// `class a {}`: its parts, which `plain_class` reads.
    Class(Siblings<'a>),
    /// The same of TypeScript, with or without `abstract`, which `typed_class` reads.
    TypedClass {
        is_abstract: bool,
        parts: Siblings<'a>,
    },
    /// `a => b`: its parameter, and a block or an expression.
    NameArrow {
        is_async: bool,
        param: u32,
        body: Item<'a>,
    },
    /// `(a, b) => c`
    Arrow {
        is_async: bool,
        params: Item<'a>,
        body: Item<'a>,
    },
    /// `<T>(a, b): R => c`: its type parameters and its result may be absent.
    TypedArrow {
        is_async: bool,
        type_params: Siblings<'a>,
        params: Item<'a>,
        return_type: Siblings<'a>,
        body: Item<'a>,
    },
    /// A part is not there.
    Broken,
}

/// `a => b`: its parameter, and a block or an expression.
#[tactic(auto, unfolding(es_lowering::specs::Functions::name_arrow, crate::specs::function::Function::named_arrow))]
fn name_arrow<'a>(is_async: bool, parts: &Siblings<'a>) -> Function<'a>
    ensures form { (x : List ℕ) (ts : List Tok) (r : Range) → name_arrow x ts is_async r (held x ts parts.now.entries.now) ≡ the_function x ts r result }
    ensures below { IsBelow parts.now result }
{
    match parts.token_at(0) {
        Some(param) => match parts.group_at(1).part(0) {
            Some(body) => Function::NameArrow {
                is_async,
                param,
                body,
            },
            None => Function::Broken,
        },
        None => Function::Broken,
    }
}

/// `(a, b) => c`
#[tactic(auto, unfolding(es_lowering::specs::Functions::parenthesized_arrow, crate::specs::function::Function::arrow))]
fn arrow<'a>(is_async: bool, parts: &Siblings<'a>) -> Function<'a>
    ensures form { (x : List ℕ) (ts : List Tok) (r : Range) → parenthesized_arrow ts is_async r (held x ts parts.now.entries.now) ≡ the_function x ts r result }
    ensures below { IsBelow parts.now result }
{
    match parts.part(0) {
        Some(params) => match parts.group_at(1).part(0) {
            Some(body) => Function::Arrow {
                is_async,
                params,
                body,
            },
            None => Function::Broken,
        },
        None => Function::Broken,
    }
}

/// `<T>(a, b): R => c`: its type parameters and its result may be absent.
#[tactic(auto, unfolding(es_lowering::specs::TypedFunctions::typed_arrow, crate::specs::function::Function::typed_arrow_of))]
fn typed_arrow<'a>(is_async: bool, parts: &Siblings<'a>) -> Function<'a>
    ensures form { (x : List ℕ) (ts : List Tok) (r : Range) → typed_arrow ts is_async r (held x ts parts.now.entries.now) ≡ the_function x ts r result }
    ensures below { IsBelow parts.now result }
{
    match parts.part(1) {
        Some(params) => match parts.group_at(3).part(0) {
            Some(body) => Function::TypedArrow {
                is_async,
                type_params: parts.group_at(0),
                params,
                return_type: parts.group_at(2),
                body,
            },
            None => Function::Broken,
        },
        None => Function::Broken,
    }
}

/// What a node is as a function or a class that is an expression; none where it is of another alternative.
#[tactic(auto, unfolding(es_lowering::specs::Lowering::build, es_lowering::specs::Lowering::expr_of))]
pub fn function_at<'a>(node: &Item<'a>) -> Option<Function<'a>>
    ensures form { (x : List ℕ) (ts : List Tok) → IfSome result (λ view. expr_in (valued x ts node.now) ≡ the_function x ts (span_of ts node.now.from node.now.to) view) }
    ensures other { IfNone result (IsNone functions node.now.what) }
    ensures below { IfSome result (λ view. IsBelow node.now.parts view) }
{
    match node.what {
        What::Node(label) => match label {
            NodeKind::Function => Some(Function::Plain {
                is_async: false,
                parts: node.parts,
            }),
            NodeKind::AsyncFunction => Some(Function::Plain {
                is_async: true,
                parts: node.parts,
            }),
            NodeKind::TypedFunction => Some(Function::Typed {
                is_async: false,
                parts: node.parts,
            }),
            NodeKind::TypedAsyncFunction => Some(Function::Typed {
                is_async: true,
                parts: node.parts,
            }),
            NodeKind::Class => Some(Function::Class(node.parts)),
            NodeKind::TypedClass => Some(Function::TypedClass {
                is_abstract: false,
                parts: node.parts,
            }),
            NodeKind::AbstractClass => Some(Function::TypedClass {
                is_abstract: true,
                parts: node.parts,
            }),
            NodeKind::NameArrow => Some(name_arrow(false, &node.parts)),
            NodeKind::AsyncNameArrow => Some(name_arrow(true, &node.parts)),
            NodeKind::ParenthesizedArrow => Some(arrow(false, &node.parts)),
            NodeKind::AsyncParenthesizedArrow => Some(arrow(true, &node.parts)),
            NodeKind::TypedParenthesizedArrow => Some(typed_arrow(false, &node.parts)),
            NodeKind::TypedAsyncParenthesizedArrow => Some(typed_arrow(true, &node.parts)),
            _ => None,
        },
        What::Leaf => None,
        What::Role(_) => None,
        What::Parts => None,
        What::Lean(_) => None,
    }
}
