//! Functions and methods in lists.

ghost use Rattle.std.specs.Prelude.{◌≡◌, ◌++◌, ◌∷◌, [], ℕ, false, true, List, Some, None, IfOk, OnOk};
ghost use Rattle.base.specs.declared.range.Range.{Range as ARange};
ghost use Rattle.es_token.specs.declared.token.Token.{Token as Tok};
ghost use Rattle.es_lexer.specs.Reads.{ReadsTokens};
ghost use Rattle.es_lowering.specs.Value.{as_group, optional};
ghost use Rattle.es_lowering.specs.Texts.{span_of as texts_span, ident_at, own_name_of};
ghost use Rattle.es_lowering.specs.TypedParts.{body_in};
ghost use Rattle.es_syntax.specs.declared.entry.What.TheVariants as what;
ghost use Rattle.es_syntax.specs.Held.{held, there, valued};
ghost use Rattle.es_syntax.specs.Roles.{decl_in, declarable_in, item_in, member_in, stmt_in};
ghost use Rattle.es_syntax.specs.Views.{is_one_of};
ghost use Rattle.es_view_expressions.specs.function.Head.{the_head};
ghost use Rattle.es_view_statements.specs.class.Member.{the_member};
ghost use Rattle.es_view_statements.specs.decl.Decl.{declarations, the_decl};
ghost use Rattle.es_view_statements.specs.decl.Declarable.{the_declarable};
ghost use Rattle.dts_rules.specs.Ranges.{key_head};
ghost use Rattle.dts_overloads.specs.Names.{named, CallsFunction};
ghost use Rattle.dts_overloads.specs.Heads.{heads_of, HasBody, HeadsFunction, HeadsDecl, HeadsDeclarable, HeadsStmt, HeadsItem, HeadsMember, HeadsIn, heads_in, exported};

use crate::names::{Name, key_name, word};
use base::Range;
use es_expr_spans::span_of;
use es_grammar::NodeKind;
use es_syntax::{Item, Siblings, What};
use es_token::Token;
use es_view_expressions::function::{FunctionHead, plain_function, typed_function};
use es_view_statements::class::{Member, member_at};
use es_view_statements::decl::{Decl, Declarable, decl_at, declarable_at};
use std::alloc::{AllocError, Global};

/// A function or a method in a list: its name, whether it has a body, and the range of the whole item.
#[derive(Drop)]
pub struct Head {
    pub name: Name,
    pub has_body: bool,
    pub span: Range,
}

/// What is in a list.
#[derive(Clone, Copy)]
pub enum Kind {
    Stmts,
    Items,
    Members,
}

/// The name of a function that is a part in a group, where there is one.
#[tactic(auto, using(crate::proofs::HeadLemmas::group_unnamed, crate::proofs::HeadLemmas::group_named))]
fn group_name(
    alloc: Global,
    text: &str,
    tokens: &[Token],
    group: &Siblings<'_>,
) -> Result<Name, AllocError>
    requires { ReadsTokens text.now tokens.now }
    ensures { IfOk result (λ name. CallsFunction name (optional (ident_at text.now tokens.now) (held text.now tokens.now group.now.entries.now))) }
{
    match group.split() {
        None => Ok(Name::Unnamed),
        Some(_) => match group.token_at(0) {
            Some(at) => Ok(Name::Text(word(alloc, text, tokens, at)?)),
            None => Err(AllocError),
        },
    }
}

/// The name of a function that is a token, or a part that may be absent.
#[tactic(auto, using(crate::proofs::HeadLemmas::token_named, crate::proofs::HeadLemmas::other_named))]
fn item_name(
    alloc: Global,
    text: &str,
    tokens: &[Token],
    item: &Item<'_>,
) -> Result<Name, AllocError>
    requires { ReadsTokens text.now tokens.now }
    ensures { IfOk result (λ name. CallsFunction name (own_name_of text.now tokens.now (valued text.now tokens.now item.now))) }
{
    match item.token() {
        Some(at) => Ok(Name::Text(word(alloc, text, tokens, at)?)),
        None => group_name(alloc, text, tokens, &item.group()),
    }
}

/// The name of a function, where there is one.
#[tactic(auto, using(crate::proofs::HeadLemmas::absent_named))]
fn function_name(
    alloc: Global,
    text: &str,
    tokens: &[Token],
    name: &Option<Item<'_>>,
) -> Result<Name, AllocError>
    requires { ReadsTokens text.now tokens.now }
    ensures { IfOk result (λ it. CallsFunction it (own_name_of text.now tokens.now (there text.now tokens.now name.now))) }
{
    match name {
        Some(item) => item_name(alloc, text, tokens, item),
        None => Ok(Name::Unnamed),
    }
}

/// Whether a group has a body: it may have none, or `;`. What no grammar makes is reported as out of memory.
#[tactic(auto, using(crate::proofs::HeadLemmas::no_body, crate::proofs::HeadLemmas::node_body, crate::proofs::HeadLemmas::leaf_body, crate::proofs::HeadLemmas::parts_body))]
fn has_body(group: &Siblings<'_>) -> Result<bool, AllocError>
    ensures { IfOk result (λ has. (x : List ℕ) (ts : List Tok) → HasBody has (body_in (held x ts group.now.entries.now))) }
{
    match group.split() {
        None => Ok(false),
        Some((it, _)) => match it.what {
            What::Node(_) => Ok(true),
            What::Leaf => Ok(false),
            What::Parts => Ok(false),
            What::Role(_) => Err(AllocError),
            What::Lean(_) => Err(AllocError),
        },
    }
}

/// A function in an item of this range.
#[tactic(auto, using(crate::proofs::HeadLemmas::heads_plain, crate::proofs::HeadLemmas::heads_typed))]
fn function_head(
    alloc: Global,
    text: &str,
    tokens: &[Token],
    view: &FunctionHead<'_>,
    span: Range,
) -> Result<Option<Head>, AllocError>
    requires { ReadsTokens text.now tokens.now }
    ensures { IfOk result (λ head. (r : ARange) → HeadsFunction head span (the_head text.now tokens.now r view.now)) }
{
    match view {
        FunctionHead::Plain { name, .. } => {
            let name = function_name(alloc, text, tokens, name)?;
            Ok(Some(Head {
                name,
                has_body: true,
                span,
            }))
        }
        FunctionHead::Typed { name, body, .. } => {
            let name = function_name(alloc, text, tokens, name)?;
            let has_body = has_body(body)?;
            Ok(Some(Head {
                name,
                has_body,
                span,
            }))
        }
        FunctionHead::Broken => Err(AllocError),
    }
}

/// A declaration that may follow `declare`, in an item of this range.
#[tactic(auto, using(crate::proofs::HeadLemmas::declarable_same, crate::proofs::HeadLemmas::declarable_fn, crate::proofs::HeadLemmas::declarable_class, crate::proofs::HeadLemmas::declarable_interface, crate::proofs::HeadLemmas::declarable_alias, crate::proofs::HeadLemmas::declarable_enum, crate::proofs::HeadLemmas::declarable_namespace, crate::proofs::HeadLemmas::declarable_module, crate::proofs::HeadLemmas::declarable_global))]
fn declarable_by(
    alloc: Global,
    text: &str,
    tokens: &[Token],
    view: &Declarable<'_>,
    span: Range,
) -> Result<Option<Head>, AllocError>
    requires { ReadsTokens text.now tokens.now }
    ensures { IfOk result (λ head. (r : ARange) → HeadsDeclarable head span (the_declarable text.now tokens.now r view.now)) }
{
    match view {
        Declarable::Function { is_async, parts } => {
            let function = typed_function(*is_async, parts);
            function_head(alloc, text, tokens, &function, span)
        }
        Declarable::Class { .. } => Ok(None),
        Declarable::Interface { .. } => Ok(None),
        Declarable::Alias { .. } => Ok(None),
        Declarable::Enum { .. } => Ok(None),
        Declarable::Namespace { .. } => Ok(None),
        Declarable::Module { .. } => Ok(None),
        Declarable::Global { .. } => Ok(None),
        Declarable::Broken => Err(AllocError),
    }
}

/// The same of the node that it is.
#[tactic(auto, using(crate::proofs::HeadLemmas::declarable_same))]
fn declarable_head(
    alloc: Global,
    text: &str,
    tokens: &[Token],
    node: &Item<'_>,
    span: Range,
) -> Result<Option<Head>, AllocError>
    requires { ReadsTokens text.now tokens.now }
    ensures { IfOk result (λ head. HeadsDeclarable head span (declarable_in (valued text.now tokens.now node.now))) }
{
    match declarable_at(node) {
        Some(view) => declarable_by(alloc, text, tokens, &view, span),
        None => Err(AllocError),
    }
}

/// A declaration in an item of this range.
#[tactic(auto, using(crate::proofs::HeadLemmas::decl_fn, crate::proofs::HeadLemmas::decl_class, crate::proofs::HeadLemmas::decl_variables, crate::proofs::HeadLemmas::decl_var, crate::proofs::HeadLemmas::decl_using, crate::proofs::HeadLemmas::decl_declared, crate::proofs::HeadLemmas::decl_declared_variables, crate::proofs::HeadLemmas::decl_declarable))]
fn decl_by(
    alloc: Global,
    text: &str,
    tokens: &[Token],
    view: &Decl<'_>,
    span: Range,
) -> Result<Option<Head>, AllocError>
    requires { ReadsTokens text.now tokens.now }
    ensures { IfOk result (λ head. (r : ARange) → HeadsDecl head span r (the_decl text.now tokens.now r view.now)) }
{
    match view {
        Decl::Function { is_async, parts } => {
            let function = plain_function(*is_async, parts);
            function_head(alloc, text, tokens, &function, span)
        }
        Decl::Class(_) => Ok(None),
        Decl::Variables(_) => Ok(None),
        Decl::Var { .. } => Ok(None),
        Decl::Using { .. } => Ok(None),
        Decl::DeclaredVariables(_) => Ok(None),
        Decl::Declared(node) => declarable_head(alloc, text, tokens, node, span),
        Decl::Declarable(node) => declarable_head(alloc, text, tokens, node, span),
        Decl::Broken => Err(AllocError),
    }
}

/// The same of the node that it is.
#[tactic(auto, using(crate::proofs::HeadLemmas::decl_same))]
fn decl_head(
    alloc: Global,
    text: &str,
    tokens: &[Token],
    node: &Item<'_>,
    span: Range,
) -> Result<Option<Head>, AllocError>
    requires { ReadsTokens text.now tokens.now }
    ensures { IfOk result (λ head. HeadsDecl head span (texts_span tokens.now node.now.from node.now.to) (decl_in (valued text.now tokens.now node.now))) }
{
    match decl_at(node) {
        Some(view) => decl_by(alloc, text, tokens, &view, span),
        None => Err(AllocError),
    }
}

/// Whether nodes of this alternative are declarations.
fn is_declaration(label: NodeKind) -> bool
    ensures { is_one_of declarations label ≡ result }
{
    match label {
        NodeKind::Function => true,
        NodeKind::AsyncFunction => true,
        NodeKind::Class => true,
        NodeKind::VariableDeclaration => true,
        NodeKind::UsingDeclaration => true,
        NodeKind::Variables => true,
        NodeKind::Using => true,
        NodeKind::Declared => true,
        NodeKind::DeclaredVariables => true,
        NodeKind::TypedFunction => true,
        NodeKind::TypedAsyncFunction => true,
        NodeKind::TypedClass => true,
        NodeKind::AbstractClass => true,
        NodeKind::InterfaceDeclaration => true,
        NodeKind::AliasDeclaration => true,
        NodeKind::EnumDeclaration => true,
        NodeKind::NamespaceDeclaration => true,
        NodeKind::ModuleDeclaration => true,
        NodeKind::GlobalDeclaration => true,
        _ => false,
    }
}

/// A statement.
#[tactic(auto, using(crate::proofs::StmtHeads::stmt_declared, crate::proofs::StmtHeads::stmt_other))]
fn stmt_by(
    alloc: Global,
    text: &str,
    tokens: &[Token],
    it: &Item<'_>,
    label: NodeKind,
) -> Result<Option<Head>, AllocError>
    requires reads { ReadsTokens text.now tokens.now }
    requires node { it.now.what ≡ what.Node label }
    ensures { IfOk result (λ head. HeadsStmt head (stmt_in (valued text.now tokens.now it.now))) }
{
    if is_declaration(label) {
        let head = decl_head(alloc, text, tokens, it, span_of(tokens, it.from, it.to))?;
        return Ok(head);
    }
    Ok(None)
}

/// A statement. What no grammar makes is reported as out of memory.
fn stmt_head(
    alloc: Global,
    text: &str,
    tokens: &[Token],
    it: &Item<'_>,
) -> Result<Option<Head>, AllocError>
    requires { ReadsTokens text.now tokens.now }
    ensures { IfOk result (λ head. HeadsStmt head (stmt_in (valued text.now tokens.now it.now))) }
{
    match it.what {
        What::Node(label) => stmt_by(alloc, text, tokens, it, label),
        _ => Err(AllocError),
    }
}

/// Whether nodes of this alternative are exports of declarations.
fn is_exported(label: NodeKind) -> bool
    ensures { is_one_of exported label ≡ result }
{
    match label {
        NodeKind::ExportDeclaration => true,
        NodeKind::ExportDefaultFunction => true,
        NodeKind::ExportDefaultClass => true,
        NodeKind::ExportDefaultInterface => true,
        _ => false,
    }
}

/// An export of a declaration.
#[tactic(auto, using(crate::proofs::StmtHeads::item_exported))]
fn exported_head(
    alloc: Global,
    text: &str,
    tokens: &[Token],
    it: &Item<'_>,
    label: NodeKind,
) -> Result<Option<Head>, AllocError>
    requires reads { ReadsTokens text.now tokens.now }
    requires node { it.now.what ≡ what.Node label }
    requires exported { is_one_of exported label ≡ true }
    ensures { IfOk result (λ head. HeadsItem head (item_in (valued text.now tokens.now it.now))) }
{
    match it.parts.part(0) {
        Some(decl) => {
            let span = span_of(tokens, it.from, it.to);
            let head = decl_head(alloc, text, tokens, &decl, span)?;
            Ok(head)
        }
        None => Err(AllocError),
    }
}

/// An item.
#[tactic(auto, using(crate::proofs::StmtHeads::item_declared, crate::proofs::StmtHeads::item_other))]
fn item_by(
    alloc: Global,
    text: &str,
    tokens: &[Token],
    it: &Item<'_>,
    label: NodeKind,
) -> Result<Option<Head>, AllocError>
    requires reads { ReadsTokens text.now tokens.now }
    requires node { it.now.what ≡ what.Node label }
    ensures { IfOk result (λ head. HeadsItem head (item_in (valued text.now tokens.now it.now))) }
{
    if is_exported(label) {
        return exported_head(alloc, text, tokens, it, label);
    }
    if is_declaration(label) {
        let head = decl_head(alloc, text, tokens, it, span_of(tokens, it.from, it.to))?;
        return Ok(head);
    }
    Ok(None)
}

/// An item. What no grammar makes is reported as out of memory.
fn item_head(
    alloc: Global,
    text: &str,
    tokens: &[Token],
    it: &Item<'_>,
) -> Result<Option<Head>, AllocError>
    requires { ReadsTokens text.now tokens.now }
    ensures { IfOk result (λ head. HeadsItem head (item_in (valued text.now tokens.now it.now))) }
{
    match it.what {
        What::Node(label) => item_by(alloc, text, tokens, it, label),
        _ => Err(AllocError),
    }
}

/// A method of this name, where it has one.
fn named_head(name: Option<Name>, has_body: bool, span: Range) -> Option<Head>
    ensures { heads_of result ≡ key_head (named name) has_body span }
{
    match name {
        Some(name) => Some(Head {
            name,
            has_body,
            span,
        }),
        None => None,
    }
}

/// A member of a class over this range; getters and setters have no overloads.
#[tactic(auto, using(crate::proofs::MemberHeads::member_method, crate::proofs::MemberHeads::member_typed_method, crate::proofs::MemberHeads::member_empty, crate::proofs::MemberHeads::member_static, crate::proofs::MemberHeads::member_accessor, crate::proofs::MemberHeads::member_field, crate::proofs::MemberHeads::member_typed_accessor, crate::proofs::MemberHeads::member_typed_field, crate::proofs::MemberHeads::member_index))]
fn member_by(
    alloc: Global,
    text: &str,
    tokens: &[Token],
    view: &Member<'_>,
    span: Range,
) -> Result<Option<Head>, AllocError>
    requires { ReadsTokens text.now tokens.now }
    ensures { IfOk result (λ head. HeadsMember head (the_member text.now tokens.now span view.now)) }
{
    match view {
        Member::Method { key, .. } => {
            let name = key_name(alloc, text, tokens, key)?;
            Ok(named_head(name, true, span))
        }
        Member::TypedMethod { key, body, .. } => {
            let name = key_name(alloc, text, tokens, key)?;
            let has_body = has_body(body)?;
            Ok(named_head(name, has_body, span))
        }
        Member::Empty => Ok(None),
        Member::StaticBlock(_) => Ok(None),
        Member::Accessor { .. } => Ok(None),
        Member::Field { .. } => Ok(None),
        Member::TypedAccessor { .. } => Ok(None),
        Member::TypedField { .. } => Ok(None),
        Member::Index { .. } => Ok(None),
        Member::Broken => Err(AllocError),
    }
}

/// A member of a class. What no grammar makes is reported as out of memory.
#[tactic(auto, using(crate::proofs::MemberHeads::member_same))]
fn member_head(
    alloc: Global,
    text: &str,
    tokens: &[Token],
    it: &Item<'_>,
) -> Result<Option<Head>, AllocError>
    requires { ReadsTokens text.now tokens.now }
    ensures { IfOk result (λ head. HeadsMember head (member_in (valued text.now tokens.now it.now))) }
{
    match member_at(it) {
        Some(view) => member_by(alloc, text, tokens, &view, span_of(tokens, it.from, it.to)),
        None => Err(AllocError),
    }
}

/// What is in a list of this kind.
#[tactic(auto, using(crate::proofs::MemberHeads::in_stmts, crate::proofs::MemberHeads::in_items, crate::proofs::MemberHeads::in_members))]
pub fn head_in(
    alloc: Global,
    text: &str,
    tokens: &[Token],
    kind: Kind,
    it: &Item<'_>,
) -> Result<Option<Head>, AllocError>
    requires { ReadsTokens text.now tokens.now }
    ensures { IfOk result (λ head. HeadsIn head (heads_in kind (valued text.now tokens.now it.now))) }
{
    match kind {
        Kind::Stmts => stmt_head(alloc, text, tokens, it),
        Kind::Items => item_head(alloc, text, tokens, it),
        Kind::Members => member_head(alloc, text, tokens, it),
    }
}
