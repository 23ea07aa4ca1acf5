//! What follows the base of a chain.

ghost use Rattle.std.specs.Prelude.{◌≡◌, ℕ, List, IfSome, IfNone};
ghost use Rattle.base.specs.declared.range.Range.{Range};
ghost use Rattle.es_token.specs.declared.token.Token.{Token as Tok};
ghost use Rattle.es_lowering.specs.Expressions.{member_post, index_post, call_post, template_post, optional_post};
ghost use Rattle.es_lowering.specs.TypedExpressions.{typed_call_post, typed_template_post, typed_optional_post};
ghost use Rattle.es_lowering.specs.Texts.{span_of};
ghost use Rattle.es_syntax.specs.Held.{held, valued};
ghost use Rattle.es_syntax.specs.Roles.{post_in};
ghost use Rattle.es_syntax.specs.Views.{IsNone};
ghost use Rattle.es_view_expressions.specs.call.Post.{posts, the_post, IsBelow};

use es_grammar::NodeKind;
use es_syntax::{Item, Siblings, What};

/// A further part of a chain, with its parts in place. Numbers are those of tokens.
#[derive(Clone, Copy)]
pub enum Post<'a> {
    /// `.a`
    Member(u32),
    /// `[a]`
    Index(Item<'a>),
    /// `(a)`: the node of the arguments.
    Call(Item<'a>),
    /// A template after a tag.
    Template(Item<'a>),
    /// `?.a`, `?.[a]`, `?.(a)`: what follows `?.`.
    Optional(Item<'a>),
    /// `<T>(a)`: the node of the arguments.
    TypedCall {
        type_args: Siblings<'a>,
        args: Item<'a>,
    },
    /// A template after a tag with types.
    TypedTemplate {
        type_args: Siblings<'a>,
        tpl: Item<'a>,
    },
    /// `?.a`, `?.[a]`, `?.<T>(a)`: what follows `?.`.
    TypedOptional(Item<'a>),
    /// `!`
    NonNull,
    /// A part is not there.
    Broken,
}

/// `.a`
#[tactic(auto, unfolding(es_lowering::specs::Expressions::member_post, crate::specs::call::Post::member))]
fn member<'a>(parts: &Siblings<'a>) -> Post<'a>
    ensures form { (x : List ℕ) (ts : List Tok) (r : Range) → member_post x ts r (held x ts parts.now.entries.now) ≡ the_post x ts r result }
    ensures below { IsBelow parts.now result }
{
    match parts.token_at(0) {
        Some(name) => Post::Member(name),
        None => Post::Broken,
    }
}

/// `[a]`
#[tactic(auto, unfolding(es_lowering::specs::Expressions::index_post, crate::specs::call::Post::index))]
fn index<'a>(parts: &Siblings<'a>) -> Post<'a>
    ensures form { (x : List ℕ) (ts : List Tok) (r : Range) → index_post r (held x ts parts.now.entries.now) ≡ the_post x ts r result }
    ensures below { IsBelow parts.now result }
{
    match parts.part(0) {
        Some(expr) => Post::Index(expr),
        None => Post::Broken,
    }
}

/// `(a)`: the node of the arguments.
#[tactic(auto, unfolding(es_lowering::specs::Expressions::call_post, crate::specs::call::Post::call))]
fn call<'a>(parts: &Siblings<'a>) -> Post<'a>
    ensures form { (x : List ℕ) (ts : List Tok) (r : Range) → call_post r (held x ts parts.now.entries.now) ≡ the_post x ts r result }
    ensures below { IsBelow parts.now result }
{
    match parts.part(0) {
        Some(args) => Post::Call(args),
        None => Post::Broken,
    }
}

/// A template after a tag.
#[tactic(auto, unfolding(es_lowering::specs::Expressions::template_post, crate::specs::call::Post::tagged))]
fn template<'a>(parts: &Siblings<'a>) -> Post<'a>
    ensures form { (x : List ℕ) (ts : List Tok) (r : Range) → template_post r (held x ts parts.now.entries.now) ≡ the_post x ts r result }
    ensures below { IsBelow parts.now result }
{
    match parts.part(0) {
        Some(tpl) => Post::Template(tpl),
        None => Post::Broken,
    }
}

/// `?.a`, `?.[a]`, `?.(a)`: what follows `?.`.
#[tactic(auto, unfolding(es_lowering::specs::Expressions::optional_post, crate::specs::call::Post::optioned))]
fn optional<'a>(parts: &Siblings<'a>) -> Post<'a>
    ensures form { (x : List ℕ) (ts : List Tok) (r : Range) → optional_post x ts r (held x ts parts.now.entries.now) ≡ the_post x ts r result }
    ensures below { IsBelow parts.now result }
{
    match parts.group_at(0).part(0) {
        Some(inner) => Post::Optional(inner),
        None => Post::Broken,
    }
}

/// `<T>(a)`: the node of the arguments.
#[tactic(auto, unfolding(es_lowering::specs::TypedExpressions::typed_call_post, crate::specs::call::Post::typed_call))]
fn typed_call<'a>(parts: &Siblings<'a>) -> Post<'a>
    ensures form { (x : List ℕ) (ts : List Tok) (r : Range) → typed_call_post r (held x ts parts.now.entries.now) ≡ the_post x ts r result }
    ensures below { IsBelow parts.now result }
{
    match parts.part(1) {
        Some(args) => Post::TypedCall {
            type_args: parts.group_at(0),
            args,
        },
        None => Post::Broken,
    }
}

/// A template after a tag with types.
#[tactic(auto, unfolding(es_lowering::specs::TypedExpressions::typed_template_post, crate::specs::call::Post::typed_tagged))]
fn typed_template<'a>(parts: &Siblings<'a>) -> Post<'a>
    ensures form { (x : List ℕ) (ts : List Tok) (r : Range) → typed_template_post r (held x ts parts.now.entries.now) ≡ the_post x ts r result }
    ensures below { IsBelow parts.now result }
{
    match parts.part(1) {
        Some(tpl) => Post::TypedTemplate {
            type_args: parts.group_at(0),
            tpl,
        },
        None => Post::Broken,
    }
}

/// `?.a`, `?.[a]`, `?.<T>(a)`: what follows `?.`.
#[tactic(auto, unfolding(es_lowering::specs::TypedExpressions::typed_optional_post, crate::specs::call::Post::typed_optioned))]
fn typed_optional<'a>(parts: &Siblings<'a>) -> Post<'a>
    ensures form { (x : List ℕ) (ts : List Tok) (r : Range) → typed_optional_post x ts r (held x ts parts.now.entries.now) ≡ the_post x ts r result }
    ensures below { IsBelow parts.now result }
{
    match parts.group_at(0).part(0) {
        Some(inner) => Post::TypedOptional(inner),
        None => Post::Broken,
    }
}

/// What a node is as a further part of a chain; none where it is of another alternative.
#[tactic(auto, unfolding(es_lowering::specs::Lowering::build, es_lowering::specs::Lowering::post_of, es_lowering::specs::TypedExpressions::non_null_post))]
pub fn post_at<'a>(node: &Item<'a>) -> Option<Post<'a>>
    ensures form { (x : List ℕ) (ts : List Tok) → IfSome result (λ view. post_in (valued x ts node.now) ≡ the_post x ts (span_of ts node.now.from node.now.to) view) }
    ensures other { IfNone result (IsNone posts node.now.what) }
    ensures below { IfSome result (λ view. IsBelow node.now.parts view) }
{
    match node.what {
        What::Node(label) => match label {
            NodeKind::MemberPost => Some(member(&node.parts)),
            NodeKind::IndexPost => Some(index(&node.parts)),
            NodeKind::CallPost => Some(call(&node.parts)),
            NodeKind::TemplatePost => Some(template(&node.parts)),
            NodeKind::OptionalPost => Some(optional(&node.parts)),
            NodeKind::TypedCallPost => Some(typed_call(&node.parts)),
            NodeKind::TypedTemplatePost => Some(typed_template(&node.parts)),
            NodeKind::TypedOptionalPost => Some(typed_optional(&node.parts)),
            NodeKind::NonNullPost => Some(Post::NonNull),
            _ => None,
        },
        What::Leaf => None,
        What::Role(_) => None,
        What::Parts => None,
        What::Lean(_) => None,
    }
}
