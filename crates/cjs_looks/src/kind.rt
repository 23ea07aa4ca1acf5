//! What kind of expression an expression is.

ghost use Rattle.std.specs.Prelude.{◌≡◌, ℕ, List, Option, Some, option_map, map, IfSome};
ghost use Rattle.base.specs.declared.range.Range.{Range};
ghost use Rattle.es_token.specs.declared.token.Token.{Token as Tok};
ghost use Rattle.es_ast.specs.declared.ast.Expr.TheVariants as vExpr;
ghost use Rattle.es_lowering.specs.Value.{as_group, turns, behind, first_of as start_of, post_at as post_there};
ghost use Rattle.es_view_expressions.specs.operator.Operator.{assigned, operators};
ghost use Rattle.es_view_expressions.specs.call.Call.{calls};
ghost use Rattle.es_syntax.specs.declared.cursor.Siblings.{Siblings as Row};
ghost use Rattle.es_syntax.specs.Views.{IsNone, Under};
ghost use Rattle.es_syntax.specs.Held.{held, valued};
ghost use Rattle.es_syntax.specs.Roles.{expr_in, post_in, args_in};
ghost use Rattle.es_view_expressions.specs.expr.Primary.{the_primary, primaries};
ghost use Rattle.es_view_expressions.specs.function.Head.{the_head};
ghost use Rattle.cjs_facts.specs.Looks.{look, call_of};
ghost use Rattle.cjs_looks.specs.Seen.{Tells, look_of};
ghost use Rattle.cjs_looks.specs.Odd.{All, Looks, Linked};
ghost use Rattle.cjs_looks.specs.Posts.{Makes, AllMake};
ghost use Rattle.cjs_looks.specs.Kinds.{IsKind, IsRightUnder};

use crate::looks::Look;
use crate::words::token_at;
use es_syntax::{Item, Siblings};
use es_token::{Token, TokenKind};
use es_view_expressions::expr::Primary;
use es_view_expressions::function::{
    Function, FunctionHead, function_at, plain_function, typed_function,
};

/// The body of a function.
#[derive(Clone, Copy)]
pub enum Body<'a> {
    Block(Item<'a>),
    /// A block, which may be absent.
    May(Siblings<'a>),
    /// What follows `=>`.
    Arrow(Item<'a>),
}

/// What kind of expression an expression is.
#[derive(Clone, Copy)]
pub enum Kind<'a> {
    /// None of those below, which looks so.
    Plain(Look),
    /// An object, with its properties as turns.
    Object(Siblings<'a>),
    /// Brackets around an expression.
    Paren(Item<'a>),
    /// A number, by its token.
    Number(u32),
    /// Expressions between commas: the first two, and the others as turns.
    Sequence {
        first: Item<'a>,
        second: Item<'a>,
        others: Siblings<'a>,
    },
    /// What follows `...`.
    Spread,
    Function(Body<'a>),
    /// An assignment by `=`, of this.
    Assigned(Item<'a>),
}

#[tactic(auto, using(crate::proofs::Primaries::is_ident, crate::proofs::Primaries::is_str, crate::proofs::Primaries::is_word, crate::proofs::Primaries::is_number, crate::proofs::Primaries::is_regexp, crate::proofs::Primaries::is_template, crate::proofs::Primaries::is_template_parts, crate::proofs::Primaries::is_array, crate::proofs::Primaries::is_spread, crate::proofs::Primaries::is_object, crate::proofs::Primaries::is_paren))]
pub fn primary_kind<'a>(it: &Primary<'a>) -> Kind<'a>
    ensures kind { (x : List ℕ) (ts : List Tok) (r : Range) → IsKind x ts result (the_primary x ts r it.now) }
    ensures under { (n : Row) → IsRightUnder n result }
{
    match *it {
        Primary::Ident(token) => Kind::Plain(Look::Named(token)),
        Primary::Word(_) => Kind::Plain(Look::Other),
        Primary::Number(token) => Kind::Number(token),
        Primary::Str(token) => Kind::Plain(Look::Text(token)),
        Primary::RegExp(_) => Kind::Plain(Look::Other),
        Primary::Template(_) => Kind::Plain(Look::Other),
        Primary::TemplateParts { .. } => Kind::Plain(Look::Other),
        Primary::Paren(inner) => Kind::Paren(inner),
        Primary::Array { .. } => Kind::Plain(Look::Other),
        Primary::Object(props) => Kind::Object(props),
        Primary::Spread(_) => Kind::Spread,
        Primary::Broken => Kind::Plain(Look::Other),
    }
}

/// The kind of a function with a name or without.
#[tactic(auto, using(crate::proofs::Functions::is_plain_function, crate::proofs::Functions::is_typed_function))]
fn head_kind<'a>(it: &FunctionHead<'a>) -> Kind<'a>
    ensures kind { (x : List ℕ) (ts : List Tok) (r : Range) → IsKind x ts result (option_map vExpr.Fn (the_head x ts r it.now)) }
    ensures under { (n : Row) → IsRightUnder n result }
{
    match *it {
        FunctionHead::Plain { body, .. } => Kind::Function(Body::Block(body)),
        FunctionHead::Typed { body, .. } => Kind::Function(Body::May(body)),
        FunctionHead::Broken => Kind::Plain(Look::Other),
    }
}

/// What kind of expression a function is. What no view knows is a chain of operators, or no expression.
#[tactic(auto, using(crate::proofs::Others::plain_class, crate::proofs::Functions::is_named_arrow, crate::proofs::Functions::is_plain_arrow, crate::proofs::Functions::is_typed_arrow, crate::proofs::Unknown::plain_else))]
pub fn function_kind<'a>(it: &Item<'a>) -> Kind<'a>
    requires primary { IsNone primaries it.now.what }
    requires operator { IsNone operators it.now.what }
    requires call { IsNone calls it.now.what }
    ensures kind { (x : List ℕ) (ts : List Tok) → IsKind x ts result (expr_in (valued x ts it.now)) }
    ensures under { (n : Row) → IsRightUnder n result }
{
    match function_at(it) {
        Some(Function::Plain { is_async, parts }) => head_kind(&plain_function(is_async, &parts)),
        Some(Function::Typed { is_async, parts }) => head_kind(&typed_function(is_async, &parts)),
        Some(Function::Class(_)) => Kind::Plain(Look::Other),
        Some(Function::TypedClass { .. }) => Kind::Plain(Look::Other),
        Some(Function::NameArrow { body, .. }) => Kind::Function(Body::Arrow(body)),
        Some(Function::Arrow { body, .. }) => Kind::Function(Body::Arrow(body)),
        Some(Function::TypedArrow { body, .. }) => Kind::Function(Body::Arrow(body)),
        Some(Function::Broken) => Kind::Plain(Look::Other),
        None => Kind::Plain(Look::Other),
    }
}

/// Whether the sign between the operands of an assignment is `=`.
#[tactic(auto, using(crate::proofs::Assignments::is_equal, crate::proofs::Assignments::is_unequal, crate::proofs::Assignments::is_no_token, crate::proofs::Assignments::is_no_node))]
pub fn assignment_kind<'a>(tokens: &[Token], left: &Item<'a>, right: &Item<'a>) -> Kind<'a>
    ensures kind { (x : List ℕ) (r : Range) → IsKind x tokens.now result (assigned tokens.now r (behind (valued x tokens.now left.now)) (start_of (valued x tokens.now right.now)) (expr_in (valued x tokens.now left.now)) (expr_in (valued x tokens.now right.now))) }
    ensures under { (n : Row) → Under right.now n → IsRightUnder n result }
{
    match left.place() {
        Some((_, behind)) => match token_at(tokens, behind) {
            Some(token) => {
                if token.kind() == TokenKind::Equal {
                    Kind::Assigned(*right)
                } else {
                    Kind::Plain(Look::Other)
                }
            }
            None => Kind::Plain(Look::Other),
        },
        None => Kind::Plain(Look::Other),
    }
}
