//! Properties of objects.

ghost use Rattle.std.specs.Prelude.{◌≡◌, ℕ, true, List, IfSome, IfNone};
ghost use Rattle.base.specs.declared.range.Range.{Range};
ghost use Rattle.es_token.specs.declared.token.Token.{Token as Tok};
ghost use Rattle.es_lowering.specs.Functions.{spread_property, shorthand, key_value, method_property, accessor_property};
ghost use Rattle.es_lowering.specs.TypedFunctions.{typed_method_property, typed_accessor_property};
ghost use Rattle.es_ast.specs.declared.ts.leaf.MethodKind.TheVariants as vMethod;
ghost use Rattle.es_lowering.specs.Value.{is_there, group};
ghost use Rattle.es_lowering.specs.Texts.{span_of};
ghost use Rattle.es_syntax.specs.Held.{held, valued};
ghost use Rattle.es_syntax.specs.Roles.{prop_in};
ghost use Rattle.es_syntax.specs.Views.{IsNone};
ghost use Rattle.es_view_expressions.specs.member.Prop.{props, the_prop, IsBelow};

use es_grammar::NodeKind;
use es_syntax::{Item, Siblings, What};

/// A property of an object, with its parts in place. Numbers are those of tokens.
#[derive(Clone, Copy)]
pub enum Prop<'a> {
    /// `async *a() {}`, `*a() {}`, `a() {}`
    Method {
        is_async: bool,
        is_generator: bool,
        key: Item<'a>,
        params: Item<'a>,
        body: Item<'a>,
    },
    /// `get a() {}`
    Accessor {
        sign: u32,
        key: Item<'a>,
        params: Item<'a>,
        body: Item<'a>,
    },
    /// `a: b`
    KeyValue {
        key: Item<'a>,
        value: Item<'a>,
    },
    /// `a`
    Shorthand(u32),
    /// `...a`
    Spread(Item<'a>),
    /// A method with types: its key, its signature, its body.
    TypedMethod {
        is_async: bool,
        is_generator: bool,
        key: Item<'a>,
        signature: Item<'a>,
        body: Item<'a>,
    },
    /// `get a(): T {}`
    TypedAccessor {
        sign: u32,
        key: Item<'a>,
        signature: Item<'a>,
        body: Item<'a>,
    },
    /// A part is not there.
    Broken,
}

/// `async *a() {}`, `*a() {}`, `a() {}`
#[tactic(auto, unfolding(es_lowering::specs::Functions::method_property, es_lowering::specs::Functions::method_at, crate::specs::member::Prop::method))]
fn method<'a>(is_async: bool, is_generator: bool, parts: &Siblings<'a>) -> Prop<'a>
    ensures form { (x : List ℕ) (ts : List Tok) (r : Range) → method_property ts vMethod.Method is_async is_generator r (held x ts parts.now.entries.now) 0 ≡ the_prop x ts r result }
    ensures below { IsBelow parts.now result }
{
    match parts.part(0) {
        Some(key) => match parts.part(1) {
            Some(params) => match parts.part(2) {
                Some(body) => Prop::Method {
                    is_async,
                    is_generator,
                    key,
                    params,
                    body,
                },
                None => Prop::Broken,
            },
            None => Prop::Broken,
        },
        None => Prop::Broken,
    }
}

/// `async *a() {}`
#[tactic(auto, unfolding(es_lowering::specs::Functions::method_property, es_lowering::specs::Functions::method_at, crate::specs::member::Prop::method))]
fn async_method<'a>(parts: &Siblings<'a>) -> Prop<'a>
    ensures form { (x : List ℕ) (ts : List Tok) (r : Range) → method_property ts vMethod.Method true (is_there (group (held x ts parts.now.entries.now) 0)) r (held x ts parts.now.entries.now) 1 ≡ the_prop x ts r result }
    ensures below { IsBelow parts.now result }
{
    match parts.part(1) {
        Some(key) => match parts.part(2) {
            Some(params) => match parts.part(3) {
                Some(body) => Prop::Method {
                    is_async: true,
                    is_generator: parts.has(0),
                    key,
                    params,
                    body,
                },
                None => Prop::Broken,
            },
            None => Prop::Broken,
        },
        None => Prop::Broken,
    }
}

/// `get a() {}`
#[tactic(auto, unfolding(es_lowering::specs::Functions::accessor_property, es_lowering::specs::Functions::method_at, es_lowering::specs::Functions::method_property, crate::specs::member::Prop::accessor, crate::specs::member::Prop::method))]
fn accessor<'a>(parts: &Siblings<'a>) -> Prop<'a>
    ensures form { (x : List ℕ) (ts : List Tok) (r : Range) → accessor_property ts r (held x ts parts.now.entries.now) ≡ the_prop x ts r result }
    ensures below { IsBelow parts.now result }
{
    match parts.token_at(0) {
        Some(sign) => match parts.part(1) {
            Some(key) => match parts.part(2) {
                Some(params) => match parts.part(3) {
                    Some(body) => Prop::Accessor {
                        sign,
                        key,
                        params,
                        body,
                    },
                    None => Prop::Broken,
                },
                None => Prop::Broken,
            },
            None => Prop::Broken,
        },
        None => Prop::Broken,
    }
}

/// `a: b`
#[tactic(auto, unfolding(es_lowering::specs::Functions::key_value, crate::specs::member::Prop::key_value))]
fn key_value<'a>(parts: &Siblings<'a>) -> Prop<'a>
    ensures form { (x : List ℕ) (ts : List Tok) (r : Range) → key_value r (held x ts parts.now.entries.now) ≡ the_prop x ts r result }
    ensures below { IsBelow parts.now result }
{
    match parts.part(0) {
        Some(key) => match parts.part(1) {
            Some(value) => Prop::KeyValue { key, value },
            None => Prop::Broken,
        },
        None => Prop::Broken,
    }
}

/// `a`
#[tactic(auto, unfolding(es_lowering::specs::Functions::shorthand, crate::specs::member::Prop::shorthand))]
fn shorthand<'a>(parts: &Siblings<'a>) -> Prop<'a>
    ensures form { (x : List ℕ) (ts : List Tok) (r : Range) → shorthand x ts (held x ts parts.now.entries.now) ≡ the_prop x ts r result }
    ensures below { IsBelow parts.now result }
{
    match parts.token_at(0) {
        Some(name) => Prop::Shorthand(name),
        None => Prop::Broken,
    }
}

/// `...a`
#[tactic(auto, unfolding(es_lowering::specs::Functions::spread_property, crate::specs::member::Prop::spread))]
fn spread<'a>(parts: &Siblings<'a>) -> Prop<'a>
    ensures form { (x : List ℕ) (ts : List Tok) (r : Range) → spread_property r (held x ts parts.now.entries.now) ≡ the_prop x ts r result }
    ensures below { IsBelow parts.now result }
{
    match parts.part(0) {
        Some(expr) => Prop::Spread(expr),
        None => Prop::Broken,
    }
}

/// A method with types: its key, its signature, its body.
#[tactic(auto, unfolding(es_lowering::specs::TypedFunctions::typed_method_property, crate::specs::member::Prop::typed_method))]
fn typed_method<'a>(is_async: bool, is_generator: bool, parts: &Siblings<'a>) -> Prop<'a>
    ensures form { (x : List ℕ) (ts : List Tok) (r : Range) → typed_method_property ts vMethod.Method is_async is_generator r (held x ts parts.now.entries.now) 0 ≡ the_prop x ts r result }
    ensures below { IsBelow parts.now result }
{
    let head = parts.group_at(0);
    match head.part(0) {
        Some(key) => match head.part(1) {
            Some(signature) => match parts.part(1) {
                Some(body) => Prop::TypedMethod {
                    is_async,
                    is_generator,
                    key,
                    signature,
                    body,
                },
                None => Prop::Broken,
            },
            None => Prop::Broken,
        },
        None => Prop::Broken,
    }
}

/// The same after `async`.
#[tactic(auto, unfolding(es_lowering::specs::TypedFunctions::typed_method_property, crate::specs::member::Prop::typed_method))]
fn typed_async_method<'a>(parts: &Siblings<'a>) -> Prop<'a>
    ensures form { (x : List ℕ) (ts : List Tok) (r : Range) → typed_method_property ts vMethod.Method true (is_there (group (held x ts parts.now.entries.now) 0)) r (held x ts parts.now.entries.now) 1 ≡ the_prop x ts r result }
    ensures below { IsBelow parts.now result }
{
    let head = parts.group_at(1);
    match head.part(0) {
        Some(key) => match head.part(1) {
            Some(signature) => match parts.part(2) {
                Some(body) => Prop::TypedMethod {
                    is_async: true,
                    is_generator: parts.has(0),
                    key,
                    signature,
                    body,
                },
                None => Prop::Broken,
            },
            None => Prop::Broken,
        },
        None => Prop::Broken,
    }
}

/// `get a(): T {}`
#[tactic(auto, unfolding(es_lowering::specs::TypedFunctions::typed_accessor_property, es_lowering::specs::TypedFunctions::typed_method_property, crate::specs::member::Prop::typed_accessor, crate::specs::member::Prop::typed_method))]
fn typed_accessor<'a>(parts: &Siblings<'a>) -> Prop<'a>
    ensures form { (x : List ℕ) (ts : List Tok) (r : Range) → typed_accessor_property ts r (held x ts parts.now.entries.now) ≡ the_prop x ts r result }
    ensures below { IsBelow parts.now result }
{
    let head = parts.group_at(1);
    match parts.token_at(0) {
        Some(sign) => match head.part(0) {
            Some(key) => match head.part(1) {
                Some(signature) => match parts.part(2) {
                    Some(body) => Prop::TypedAccessor {
                        sign,
                        key,
                        signature,
                        body,
                    },
                    None => Prop::Broken,
                },
                None => Prop::Broken,
            },
            None => Prop::Broken,
        },
        None => Prop::Broken,
    }
}

/// What a node is as a property; none where it is of another alternative.
#[tactic(auto, unfolding(es_lowering::specs::Lowering::build, es_lowering::specs::Lowering::prop_of))]
pub fn prop_at<'a>(node: &Item<'a>) -> Option<Prop<'a>>
    ensures form { (x : List ℕ) (ts : List Tok) → IfSome result (λ view. prop_in (valued x ts node.now) ≡ the_prop x ts (span_of ts node.now.from node.now.to) view) }
    ensures other { IfNone result (IsNone props node.now.what) }
    ensures below { IfSome result (λ view. IsBelow node.now.parts view) }
{
    match node.what {
        What::Node(label) => match label {
            NodeKind::GeneratorProperty => Some(method(false, true, &node.parts)),
            NodeKind::MethodProperty => Some(method(false, false, &node.parts)),
            NodeKind::AsyncProperty => Some(async_method(&node.parts)),
            NodeKind::AccessorProperty => Some(accessor(&node.parts)),
            NodeKind::KeyValue => Some(key_value(&node.parts)),
            NodeKind::Shorthand => Some(shorthand(&node.parts)),
            NodeKind::SpreadProperty => Some(spread(&node.parts)),
            NodeKind::TypedGeneratorProperty => Some(typed_method(false, true, &node.parts)),
            NodeKind::TypedMethodProperty => Some(typed_method(false, false, &node.parts)),
            NodeKind::TypedAsyncProperty => Some(typed_async_method(&node.parts)),
            NodeKind::TypedAccessorProperty => Some(typed_accessor(&node.parts)),
            _ => None,
        },
        What::Leaf => None,
        What::Role(_) => None,
        What::Parts => None,
        What::Lean(_) => None,
    }
}
