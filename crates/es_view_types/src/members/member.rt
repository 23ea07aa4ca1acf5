//! Members of types in braces.

ghost use Rattle.std.specs.Prelude.{◌≡◌, ℕ, List, IfSome, IfNone};
ghost use Rattle.base.specs.declared.range.Range.{Range};
ghost use Rattle.es_token.specs.declared.token.Token.{Token as Tok};
ghost use Rattle.es_lowering.specs.TypeMembers.{call_signature, construct_signature, index_signature, method_by, accessor_signature, property_by};
ghost use Rattle.es_ast.specs.declared.ts.leaf.MethodKind.TheVariants as vMethod;
ghost use Rattle.es_lowering.specs.Texts.{span_of};
ghost use Rattle.es_syntax.specs.Held.{held, valued};
ghost use Rattle.es_syntax.specs.Roles.{type_member_in};
ghost use Rattle.es_syntax.specs.Views.{IsNone};
ghost use Rattle.es_view_types.specs.members.Member.{members, the_member, IsBelow};

use es_grammar::NodeKind;
use es_syntax::{Item, Siblings, What};

/// A member of a type in braces, with its parts as cursors. Numbers are those of tokens.
#[derive(Clone, Copy)]
pub enum TypeMember<'a> {
    /// `<T>(a): b`: the type parameters and the result may be absent.
    Call {
        type_params: Siblings<'a>,
        params: Item<'a>,
        ty: Siblings<'a>,
    },
    /// `new <T>(a): b`
    Construct {
        type_params: Siblings<'a>,
        params: Item<'a>,
        ty: Siblings<'a>,
    },
    /// `[a: b]: c`, with optional `readonly`.
    Index {
        readonly: bool,
        name: u32,
        of: Item<'a>,
        ty: Siblings<'a>,
    },
    /// `get a(): b`: the word, the key, whether a mark follows it.
    Accessor {
        word: u32,
        key: Item<'a>,
        mark: bool,
        type_params: Siblings<'a>,
        params: Item<'a>,
        ty: Siblings<'a>,
    },
    /// `a?(b): c`: whether a mark follows the key.
    Method {
        key: Item<'a>,
        mark: bool,
        type_params: Siblings<'a>,
        params: Item<'a>,
        ty: Siblings<'a>,
    },
    /// `a?: b`, with optional `readonly`: whether a mark follows the key.
    Property {
        readonly: bool,
        key: Item<'a>,
        mark: bool,
        ty: Siblings<'a>,
    },
    /// A part is not there.
    Broken,
}

/// `<T>(a): b`: the type parameters and the result may be absent.
#[tactic(auto, unfolding(es_lowering::specs::TypeMembers::call_signature, crate::specs::members::Member::call))]
fn call<'a>(parts: &Siblings<'a>) -> TypeMember<'a>
    ensures form { (x : List ℕ) (ts : List Tok) (r : Range) → call_signature r (held x ts parts.now.entries.now) ≡ the_member x ts r result }
    ensures below { IsBelow parts.now result }
{
    match parts.part(1) {
        Some(params) => TypeMember::Call {
            type_params: parts.group_at(0),
            params,
            ty: parts.group_at(2),
        },
        None => TypeMember::Broken,
    }
}

/// `new <T>(a): b`
#[tactic(auto, unfolding(es_lowering::specs::TypeMembers::construct_signature, crate::specs::members::Member::construct))]
fn construct<'a>(parts: &Siblings<'a>) -> TypeMember<'a>
    ensures form { (x : List ℕ) (ts : List Tok) (r : Range) → construct_signature r (held x ts parts.now.entries.now) ≡ the_member x ts r result }
    ensures below { IsBelow parts.now result }
{
    match parts.part(1) {
        Some(params) => TypeMember::Construct {
            type_params: parts.group_at(0),
            params,
            ty: parts.group_at(2),
        },
        None => TypeMember::Broken,
    }
}

/// `[a: b]: c`, with optional `readonly`.
#[tactic(auto, unfolding(es_lowering::specs::TypeMembers::index_signature, crate::specs::members::Member::index))]
fn index<'a>(parts: &Siblings<'a>) -> TypeMember<'a>
    ensures form { (x : List ℕ) (ts : List Tok) (r : Range) → index_signature x ts r (held x ts parts.now.entries.now) ≡ the_member x ts r result }
    ensures below { IsBelow parts.now result }
{
    match parts.token_at(1) {
        Some(name) => match parts.part(2) {
            Some(of) => TypeMember::Index {
                readonly: parts.has(0),
                name,
                of,
                ty: parts.group_at(3),
            },
            None => TypeMember::Broken,
        },
        None => TypeMember::Broken,
    }
}

/// `get a(): b`: the word, the key, whether a mark follows it.
#[tactic(auto, unfolding(es_lowering::specs::TypeMembers::accessor_signature, es_lowering::specs::TypeMembers::method_by, crate::specs::members::Member::accessor))]
fn accessor<'a>(parts: &Siblings<'a>) -> TypeMember<'a>
    ensures form { (x : List ℕ) (ts : List Tok) (r : Range) → accessor_signature ts r (held x ts parts.now.entries.now) ≡ the_member x ts r result }
    ensures below { IsBelow parts.now result }
{
    match parts.token_at(0) {
        Some(word) => match parts.part(1) {
            Some(key) => match parts.part(4) {
                Some(params) => TypeMember::Accessor {
                    word,
                    key,
                    mark: parts.has(2),
                    type_params: parts.group_at(3),
                    params,
                    ty: parts.group_at(5),
                },
                None => TypeMember::Broken,
            },
            None => TypeMember::Broken,
        },
        None => TypeMember::Broken,
    }
}

/// `a?(b): c`: whether a mark follows the key.
#[tactic(auto, unfolding(es_lowering::specs::TypeMembers::method_by, crate::specs::members::Member::method))]
fn method<'a>(parts: &Siblings<'a>) -> TypeMember<'a>
    ensures form { (x : List ℕ) (ts : List Tok) (r : Range) → method_by vMethod.Method r (held x ts parts.now.entries.now) 0 ≡ the_member x ts r result }
    ensures below { IsBelow parts.now result }
{
    match parts.part(0) {
        Some(key) => match parts.part(3) {
            Some(params) => TypeMember::Method {
                key,
                mark: parts.has(1),
                type_params: parts.group_at(2),
                params,
                ty: parts.group_at(4),
            },
            None => TypeMember::Broken,
        },
        None => TypeMember::Broken,
    }
}

/// `a?: b`, with optional `readonly`: whether a mark follows the key.
#[tactic(auto, unfolding(es_lowering::specs::TypeMembers::property_by, crate::specs::members::Member::property))]
fn property<'a>(readonly: bool, parts: &Siblings<'a>) -> TypeMember<'a>
    ensures form { (x : List ℕ) (ts : List Tok) (r : Range) → property_by readonly r (held x ts parts.now.entries.now) ≡ the_member x ts r result }
    ensures below { IsBelow parts.now result }
{
    match parts.part(0) {
        Some(key) => TypeMember::Property {
            readonly,
            key,
            mark: parts.has(1),
            ty: parts.group_at(2),
        },
        None => TypeMember::Broken,
    }
}

/// What a node is as a member of a type in braces; none where it is of another alternative.
#[tactic(auto, unfolding(es_lowering::specs::Lowering::build, es_lowering::specs::Lowering::type_member_of))]
pub fn member_at<'a>(node: &Item<'a>) -> Option<TypeMember<'a>>
    ensures form { (x : List ℕ) (ts : List Tok) → IfSome result (λ view. type_member_in (valued x ts node.now) ≡ the_member x ts (span_of ts node.now.from node.now.to) view) }
    ensures other { IfNone result (IsNone members node.now.what) }
    ensures below { IfSome result (λ view. IsBelow node.now.parts view) }
{
    match node.what {
        What::Node(label) => match label {
            NodeKind::CallSignature => Some(call(&node.parts)),
            NodeKind::ConstructSignature => Some(construct(&node.parts)),
            NodeKind::IndexSignature => Some(index(&node.parts)),
            NodeKind::AccessorSignature => Some(accessor(&node.parts)),
            NodeKind::MethodSignature => Some(method(&node.parts)),
            NodeKind::PropertySignature => Some(property(false, &node.parts)),
            NodeKind::ReadonlyProperty => Some(property(true, &node.parts)),
            _ => None,
        },
        What::Leaf => None,
        What::Role(_) => None,
        What::Parts => None,
        What::Lean(_) => None,
    }
}
