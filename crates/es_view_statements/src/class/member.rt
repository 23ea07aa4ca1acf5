//! Members of classes.

ghost use Rattle.std.specs.Prelude.{◌≡◌, ℕ, true, false, List, IfSome, IfNone};
ghost use Rattle.base.specs.declared.range.Range.{Range};
ghost use Rattle.es_token.specs.declared.token.Token.{Token as Tok};
ghost use Rattle.es_ast.specs.declared.ts.leaf.MethodKind.TheVariants as vMethod;
ghost use Rattle.es_lowering.specs.Classes.{static_block, method_member, accessor_member, field_member};
ghost use Rattle.es_lowering.specs.TypedFunctions.{typed_method_member, typed_accessor_member, typed_field, index_member};
ghost use Rattle.es_lowering.specs.Value.{is_there, group};
ghost use Rattle.es_lowering.specs.Texts.{span_of};
ghost use Rattle.es_syntax.specs.Held.{held, valued};
ghost use Rattle.es_syntax.specs.Roles.{member_in};
ghost use Rattle.es_syntax.specs.Views.{IsNone};
ghost use Rattle.es_view_statements.specs.class.Member.{members, the_member, IsBelow};

use es_grammar::NodeKind;
use es_syntax::{Item, Siblings, What};

/// A member of a class, with its parts in place. Numbers are those of tokens.
#[derive(Clone, Copy)]
pub enum Member<'a> {
    /// `;`
    Empty,
    /// `static { a }`: the node of the block.
    StaticBlock(Item<'a>),
    /// `async *a() {}`, `*a() {}`, `a() {}`, with or without `static`.
    Method {
        is_static: bool,
        is_async: bool,
        is_generator: bool,
        key: Item<'a>,
        params: Item<'a>,
        body: Item<'a>,
    },
    /// `get a() {}`, with or without `static`.
    Accessor {
        is_static: bool,
        word: u32,
        key: Item<'a>,
        params: Item<'a>,
        body: Item<'a>,
    },
    /// `a = b`, with or without each of `static` and `accessor`: the value may be absent.
    Field {
        is_static: bool,
        is_accessor: bool,
        key: Item<'a>,
        value: Siblings<'a>,
    },
    /// A method of TypeScript: its modifiers as turns, its key, whether a mark follows it, its signature, a body or
    /// none.
    TypedMethod {
        modifiers: Siblings<'a>,
        is_async: bool,
        is_generator: bool,
        key: Item<'a>,
        mark: bool,
        signature: Item<'a>,
        body: Siblings<'a>,
    },
    /// The same after `get` or `set`.
    TypedAccessor {
        modifiers: Siblings<'a>,
        word: u32,
        key: Item<'a>,
        mark: bool,
        signature: Item<'a>,
        body: Siblings<'a>,
    },
    /// `a?: T = b`: its modifiers as turns; the mark, which is `?` or `!`, the type and the value may be absent.
    TypedField {
        modifiers: Siblings<'a>,
        is_accessor: bool,
        key: Item<'a>,
        mark: Siblings<'a>,
        ty: Siblings<'a>,
        value: Siblings<'a>,
    },
    /// `[a: b]: c`: its modifiers as turns; the last type may be absent.
    Index {
        modifiers: Siblings<'a>,
        name: u32,
        of: Item<'a>,
        ty: Siblings<'a>,
    },
    /// A part is not there.
    Broken,
}

/// `static { a }`: the node of the block.
#[tactic(auto, unfolding(es_lowering::specs::Classes::static_block, crate::specs::class::Member::static_of))]
fn static_block<'a>(parts: &Siblings<'a>) -> Member<'a>
    ensures form { (x : List ℕ) (ts : List Tok) (r : Range) → static_block r (held x ts parts.now.entries.now) ≡ the_member x ts r result }
    ensures below { IsBelow parts.now result }
{
    match parts.part(0) {
        Some(block) => Member::StaticBlock(block),
        None => Member::Broken,
    }
}

/// `*a() {}`, `a() {}`
#[tactic(auto, unfolding(es_lowering::specs::Classes::method_member, es_lowering::specs::Functions::method_at, crate::specs::class::Member::method))]
fn method<'a>(is_generator: bool, parts: &Siblings<'a>) -> Member<'a>
    ensures form { (x : List ℕ) (ts : List Tok) (r : Range) → method_member ts vMethod.Method false is_generator r (held x ts parts.now.entries.now) 1 ≡ the_member x ts r result }
    ensures below { IsBelow parts.now result }
{
    match parts.part(1) {
        Some(key) => match parts.part(2) {
            Some(params) => match parts.part(3) {
                Some(body) => Member::Method {
                    is_static: parts.has(0),
                    is_async: false,
                    is_generator,
                    key,
                    params,
                    body,
                },
                None => Member::Broken,
            },
            None => Member::Broken,
        },
        None => Member::Broken,
    }
}

/// `async *a() {}`
#[tactic(auto, unfolding(es_lowering::specs::Classes::method_member, es_lowering::specs::Functions::method_at, crate::specs::class::Member::method))]
fn async_method<'a>(parts: &Siblings<'a>) -> Member<'a>
    ensures form { (x : List ℕ) (ts : List Tok) (r : Range) → method_member ts vMethod.Method true (is_there (group (held x ts parts.now.entries.now) 1)) r (held x ts parts.now.entries.now) 2 ≡ the_member x ts r result }
    ensures below { IsBelow parts.now result }
{
    match parts.part(2) {
        Some(key) => match parts.part(3) {
            Some(params) => match parts.part(4) {
                Some(body) => Member::Method {
                    is_static: parts.has(0),
                    is_async: true,
                    is_generator: parts.has(1),
                    key,
                    params,
                    body,
                },
                None => Member::Broken,
            },
            None => Member::Broken,
        },
        None => Member::Broken,
    }
}

/// `get a() {}`
#[tactic(auto, unfolding(es_lowering::specs::Classes::accessor_member, es_lowering::specs::Classes::method_member, es_lowering::specs::Functions::method_at, crate::specs::class::Member::accessor, crate::specs::class::Member::method))]
fn accessor<'a>(parts: &Siblings<'a>) -> Member<'a>
    ensures form { (x : List ℕ) (ts : List Tok) (r : Range) → accessor_member ts r (held x ts parts.now.entries.now) ≡ the_member x ts r result }
    ensures below { IsBelow parts.now result }
{
    match parts.token_at(1) {
        Some(word) => match parts.part(2) {
            Some(key) => match parts.part(3) {
                Some(params) => match parts.part(4) {
                    Some(body) => Member::Accessor {
                        is_static: parts.has(0),
                        word,
                        key,
                        params,
                        body,
                    },
                    None => Member::Broken,
                },
                None => Member::Broken,
            },
            None => Member::Broken,
        },
        None => Member::Broken,
    }
}

/// `a = b`: the value may be absent.
#[tactic(auto, unfolding(es_lowering::specs::Classes::field_member, crate::specs::class::Member::field))]
fn field<'a>(is_accessor: bool, parts: &Siblings<'a>) -> Member<'a>
    ensures form { (x : List ℕ) (ts : List Tok) (r : Range) → field_member is_accessor r (held x ts parts.now.entries.now) ≡ the_member x ts r result }
    ensures below { IsBelow parts.now result }
{
    match parts.part(1) {
        Some(key) => Member::Field {
            is_static: parts.has(0),
            is_accessor,
            key,
            value: parts.group_at(2),
        },
        None => Member::Broken,
    }
}

/// A method with types: its key, its mark and its signature are in a group.
#[tactic(auto, unfolding(es_lowering::specs::TypedFunctions::typed_method_member, crate::specs::class::Member::typed_method))]
fn typed_method<'a>(is_generator: bool, parts: &Siblings<'a>) -> Member<'a>
    ensures form { (x : List ℕ) (ts : List Tok) (r : Range) → typed_method_member ts vMethod.Method false is_generator r (held x ts parts.now.entries.now) 1 ≡ the_member x ts r result }
    ensures below { IsBelow parts.now result }
{
    let head = parts.group_at(1);
    match head.part(0) {
        Some(key) => match head.part(2) {
            Some(signature) => Member::TypedMethod {
                modifiers: parts.group_at(0),
                is_async: false,
                is_generator,
                key,
                mark: head.has(1),
                signature,
                body: parts.group_at(2),
            },
            None => Member::Broken,
        },
        None => Member::Broken,
    }
}

/// The same after `async`.
#[tactic(auto, unfolding(es_lowering::specs::TypedFunctions::typed_method_member, crate::specs::class::Member::typed_method))]
fn typed_async_method<'a>(parts: &Siblings<'a>) -> Member<'a>
    ensures form { (x : List ℕ) (ts : List Tok) (r : Range) → typed_method_member ts vMethod.Method true (is_there (group (held x ts parts.now.entries.now) 1)) r (held x ts parts.now.entries.now) 2 ≡ the_member x ts r result }
    ensures below { IsBelow parts.now result }
{
    let head = parts.group_at(2);
    match head.part(0) {
        Some(key) => match head.part(2) {
            Some(signature) => Member::TypedMethod {
                modifiers: parts.group_at(0),
                is_async: true,
                is_generator: parts.has(1),
                key,
                mark: head.has(1),
                signature,
                body: parts.group_at(3),
            },
            None => Member::Broken,
        },
        None => Member::Broken,
    }
}

/// The same after `get` or `set`.
#[tactic(auto, unfolding(es_lowering::specs::TypedFunctions::typed_accessor_member, es_lowering::specs::TypedFunctions::typed_method_member, crate::specs::class::Member::typed_accessor, crate::specs::class::Member::typed_method))]
fn typed_accessor<'a>(parts: &Siblings<'a>) -> Member<'a>
    ensures form { (x : List ℕ) (ts : List Tok) (r : Range) → typed_accessor_member ts r (held x ts parts.now.entries.now) ≡ the_member x ts r result }
    ensures below { IsBelow parts.now result }
{
    let head = parts.group_at(2);
    match parts.token_at(1) {
        Some(word) => match head.part(0) {
            Some(key) => match head.part(2) {
                Some(signature) => Member::TypedAccessor {
                    modifiers: parts.group_at(0),
                    word,
                    key,
                    mark: head.has(1),
                    signature,
                    body: parts.group_at(3),
                },
                None => Member::Broken,
            },
            None => Member::Broken,
        },
        None => Member::Broken,
    }
}

/// `a?: T = b`: the mark, the type and the value may be absent.
#[tactic(auto, unfolding(es_lowering::specs::TypedFunctions::typed_field, crate::specs::class::Member::typed_field_of))]
fn typed_field<'a>(is_accessor: bool, parts: &Siblings<'a>) -> Member<'a>
    ensures form { (x : List ℕ) (ts : List Tok) (r : Range) → typed_field ts is_accessor r (held x ts parts.now.entries.now) ≡ the_member x ts r result }
    ensures below { IsBelow parts.now result }
{
    match parts.part(1) {
        Some(key) => Member::TypedField {
            modifiers: parts.group_at(0),
            is_accessor,
            key,
            mark: parts.group_at(2),
            ty: parts.group_at(3),
            value: parts.group_at(4),
        },
        None => Member::Broken,
    }
}

/// `[a: b]: c`: the last type may be absent.
#[tactic(auto, unfolding(es_lowering::specs::TypedFunctions::index_member, crate::specs::class::Member::index))]
fn index<'a>(parts: &Siblings<'a>) -> Member<'a>
    ensures form { (x : List ℕ) (ts : List Tok) (r : Range) → index_member x ts r (held x ts parts.now.entries.now) ≡ the_member x ts r result }
    ensures below { IsBelow parts.now result }
{
    match parts.token_at(1) {
        Some(name) => match parts.part(2) {
            Some(of) => Member::Index {
                modifiers: parts.group_at(0),
                name,
                of,
                ty: parts.group_at(3),
            },
            None => Member::Broken,
        },
        None => Member::Broken,
    }
}

/// What a node is as a member of a class; none where it is of another alternative.
#[tactic(auto, unfolding(es_lowering::specs::Lowering::build, es_lowering::specs::Lowering::member_of))]
pub fn member_at<'a>(node: &Item<'a>) -> Option<Member<'a>>
    ensures form { (x : List ℕ) (ts : List Tok) → IfSome result (λ view. member_in (valued x ts node.now) ≡ the_member x ts (span_of ts node.now.from node.now.to) view) }
    ensures other { IfNone result (IsNone members node.now.what) }
    ensures below { IfSome result (λ view. IsBelow node.now.parts view) }
{
    match node.what {
        What::Node(label) => match label {
            NodeKind::EmptyMember => Some(Member::Empty),
            NodeKind::StaticBlock => Some(static_block(&node.parts)),
            NodeKind::GeneratorMember => Some(method(true, &node.parts)),
            NodeKind::MethodMember => Some(method(false, &node.parts)),
            NodeKind::AsyncMember => Some(async_method(&node.parts)),
            NodeKind::AccessorMember => Some(accessor(&node.parts)),
            NodeKind::FieldMember => Some(field(false, &node.parts)),
            NodeKind::AccessorField => Some(field(true, &node.parts)),
            NodeKind::TypedGeneratorMember => Some(typed_method(true, &node.parts)),
            NodeKind::TypedMethodMember => Some(typed_method(false, &node.parts)),
            NodeKind::TypedAsyncMember => Some(typed_async_method(&node.parts)),
            NodeKind::TypedAccessorMember => Some(typed_accessor(&node.parts)),
            NodeKind::TypedFieldMember => Some(typed_field(false, &node.parts)),
            NodeKind::TypedAccessorField => Some(typed_field(true, &node.parts)),
            NodeKind::IndexMember => Some(index(&node.parts)),
            _ => None,
        },
        What::Leaf => None,
        What::Role(_) => None,
        What::Parts => None,
        What::Lean(_) => None,
    }
}
