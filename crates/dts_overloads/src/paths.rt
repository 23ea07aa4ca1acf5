//! Names with dots.

ghost use Rattle.std.specs.Prelude.{◌≡◌, ◌++◌, ◌∷◌, [], ℕ, false, true, List, Some, None, IfOk, option_map, slice_get};
ghost use Rattle.base.specs.declared.range.Range.{Range};
ghost use Rattle.es_token.specs.declared.token.Token.{Token as Tok};
ghost use Rattle.es_lexer.specs.Reads.{ReadsTokens};
ghost use Rattle.es_lowering.specs.Value.{as_group, turns, post_at};
ghost use Rattle.es_syntax.specs.Held.{held, valued};
ghost use Rattle.es_syntax.specs.Roles.{expr_in, post_in};
ghost use Rattle.es_syntax.specs.Views.{is_one_of};
ghost use Rattle.es_view_expressions.specs.call.Call as call;
ghost use Rattle.es_view_expressions.specs.call.Post as post;
ghost use Rattle.es_view_expressions.specs.expr.Primary as primary;
ghost use Rattle.dts_overloads.specs.Names.{is_kind, beginning, IsNoPath, IsDotted, CallsIn, HasPath, Follows, AllFollow};

use crate::names::{Name, word};
use base::{Items, Text};
use es_grammar::NodeKind;
use es_syntax::{Item, Siblings, What};
use es_token::{Token, TokenKind};
use es_view_expressions::call::{Call, Post, call_at, post_at};
use es_view_expressions::expr::{Primary, primary_at};
use std::alloc::{AllocError, Global};

/// Whether a node of this alternative may begin a name with dots, or be one.
fn may_begin(label: NodeKind) -> bool
    ensures { is_one_of beginning label ≡ result }
{
    match label {
        NodeKind::Name => true,
        NodeKind::Word => true,
        NodeKind::Chain => true,
        _ => false,
    }
}

/// Whether an expression may be a name with dots.
#[tactic(auto, using(crate::proofs::NameLemmas::path_of_node, crate::proofs::NameLemmas::dotted_node, crate::proofs::NameLemmas::path_of_leaf, crate::proofs::NameLemmas::path_of_role, crate::proofs::NameLemmas::path_of_parts, crate::proofs::NameLemmas::path_of_lean))]
fn begins(e: &Item<'_>) -> bool
    ensures no { result ≡ false → (x : List ℕ) (ts : List Tok) → IsNoPath (expr_in (valued x ts e.now)) }
    ensures yes { result ≡ true → (x : List ℕ) (ts : List Tok) → IsDotted (expr_in (valued x ts e.now)) }
{
    match e.what {
        What::Node(label) => may_begin(label),
        What::Leaf => false,
        What::Role(_) => false,
        What::Parts => false,
        What::Lean(_) => false,
    }
}

/// Whether the token of this number is of this kind; not so where there is none.
fn is_kind(tokens: &[Token], at: u32, kind: TokenKind) -> bool
    ensures { is_kind kind (slice_get tokens.now at) ≡ result }
{
    match tokens.get(at as usize) {
        Some(token) => token.kind() == kind,
        None => false,
    }
}

fn one(alloc: Global, name: Text) -> Result<Items<Text>, AllocError>
    ensures { IfOk result (λ names. names ≡ name ∷ []) }
{
    let mut names = Items::new(alloc);
    names.push(name)?;
    Ok(names)
}

/// A name alone.
#[tactic(auto, using(crate::proofs::PathLemmas::has_ident))]
fn ident_path(
    alloc: Global,
    text: &str,
    tokens: &[Token],
    at: u32,
) -> Result<Option<Items<Text>>, AllocError>
    requires { ReadsTokens text.now tokens.now }
    ensures { IfOk result (λ names. HasPath names (primary.ident text.now (slice_get tokens.now at))) }
{
    let name = word(alloc, text, tokens, at)?;
    Ok(Some(one(alloc, name)?))
}

/// `this`; another word is none.
#[tactic(auto, using(crate::proofs::PathLemmas::has_this, crate::proofs::PathLemmas::has_other))]
fn word_path(alloc: Global, tokens: &[Token], at: u32) -> Result<Option<Items<Text>>, AllocError>
    ensures { IfOk result (λ names. (r : Range) → HasPath names (primary.word r (slice_get tokens.now at))) }
{
    if is_kind(tokens, at, TokenKind::ThisWord) {
        let name = Text::from_str(alloc, "this")?;
        return Ok(Some(one(alloc, name)?));
    }
    Ok(None)
}

/// A name or a word as the first of a name with dots. What no grammar makes is reported as out of memory.
#[tactic(auto, using(crate::proofs::PathLemmas::has_same))]
fn first_path(
    alloc: Global,
    text: &str,
    tokens: &[Token],
    e: &Item<'_>,
) -> Result<Option<Items<Text>>, AllocError>
    requires { ReadsTokens text.now tokens.now }
    ensures { IfOk result (λ names. HasPath names (expr_in (valued text.now tokens.now e.now))) }
{
    match primary_at(e) {
        Some(Primary::Ident(at)) => ident_path(alloc, text, tokens, at),
        Some(Primary::Word(at)) => word_path(alloc, tokens, at),
        _ => Err(AllocError),
    }
}

/// What stands first in a chain. A chain in its place is made by no grammar.
#[tactic(auto, using(crate::proofs::PathLemmas::has_none))]
fn base_path(
    alloc: Global,
    text: &str,
    tokens: &[Token],
    base: &Item<'_>,
) -> Result<Option<Items<Text>>, AllocError>
    requires { ReadsTokens text.now tokens.now }
    ensures { IfOk result (λ names. HasPath names (expr_in (valued text.now tokens.now base.now))) }
{
    if begins(base) {
        return first_path(alloc, text, tokens, base);
    }
    Ok(None)
}

/// These names and one more, where there are any.
fn longer(names: Option<Items<Text>>, name: Text) -> Result<Option<Items<Text>>, AllocError>
    ensures { IfOk result (λ new. new ≡ option_map (λ old. old ++ name ∷ []) names) }
{
    match names {
        Some(names) => {
            let mut all = names;
            all.push(name)?;
            Ok(Some(all))
        }
        None => Ok(None),
    }
}

/// `.a` after these names; `.#a` makes none.
#[tactic(auto, using(crate::proofs::PathLemmas::follows_name, crate::proofs::PathLemmas::follows_private))]
fn member_path(
    alloc: Global,
    text: &str,
    tokens: &[Token],
    names: Option<Items<Text>>,
    at: u32,
) -> Result<Option<Items<Text>>, AllocError>
    requires { ReadsTokens text.now tokens.now }
    ensures { IfOk result (λ new. (r : Range) → Follows names new (post.member text.now r (slice_get tokens.now at))) }
{
    if is_kind(tokens, at, TokenKind::PrivateName) {
        return Ok(None);
    }
    let name = word(alloc, text, tokens, at)?;
    let new = longer(names, name)?;
    Ok(new)
}

/// A further part after these names.
#[tactic(auto, using(crate::proofs::PathLemmas::follows_index, crate::proofs::PathLemmas::follows_call, crate::proofs::PathLemmas::follows_tagged, crate::proofs::PathLemmas::follows_optional, crate::proofs::PathLemmas::follows_typed_call, crate::proofs::PathLemmas::follows_typed_tagged, crate::proofs::PathLemmas::follows_typed_optional, crate::proofs::PathLemmas::follows_non_null))]
fn part_path(
    alloc: Global,
    text: &str,
    tokens: &[Token],
    names: Option<Items<Text>>,
    view: &Post<'_>,
) -> Result<Option<Items<Text>>, AllocError>
    requires { ReadsTokens text.now tokens.now }
    ensures { IfOk result (λ new. (r : Range) → Follows names new (post.the_post text.now tokens.now r view.now)) }
{
    match view {
        Post::Member(at) => member_path(alloc, text, tokens, names, *at),
        Post::Index(_) => Ok(None),
        Post::Call(_) => Ok(None),
        Post::Template(_) => Ok(None),
        Post::Optional(_) => Ok(None),
        Post::TypedCall { .. } => Ok(None),
        Post::TypedTemplate { .. } => Ok(None),
        Post::TypedOptional(_) => Ok(None),
        Post::NonNull => Ok(None),
        Post::Broken => Err(AllocError),
    }
}

/// The further part that an item is, after these names.
#[tactic(auto, using(crate::proofs::PathLemmas::follows_same))]
fn post_path(
    alloc: Global,
    text: &str,
    tokens: &[Token],
    names: Option<Items<Text>>,
    post: &Item<'_>,
) -> Result<Option<Items<Text>>, AllocError>
    requires { ReadsTokens text.now tokens.now }
    ensures { IfOk result (λ new. Follows names new (post_in (valued text.now tokens.now post.now))) }
{
    match post_at(post) {
        Some(view) => part_path(alloc, text, tokens, names, &view),
        None => Err(AllocError),
    }
}

/// The further part in a turn, after these names.
fn turn_path(
    alloc: Global,
    text: &str,
    tokens: &[Token],
    names: Option<Items<Text>>,
    turn: &Item<'_>,
) -> Result<Option<Items<Text>>, AllocError>
    requires { ReadsTokens text.now tokens.now }
    ensures { IfOk result (λ new. Follows names new (post_at (as_group (valued text.now tokens.now turn.now)) 0)) }
{
    match turn.group().part(0) {
        Some(post) => post_path(alloc, text, tokens, names, &post),
        None => Err(AllocError),
    }
}

/// The further parts in turns, after these names.
#[tactic(auto, using(crate::proofs::PathLemmas::left_all, crate::proofs::PathLemmas::left_next, crate::proofs::PathLemmas::left_done))]
fn posts_path(
    alloc: Global,
    text: &str,
    tokens: &[Token],
    start: Option<Items<Text>>,
    others: &Siblings<'_>,
) -> Result<Option<Items<Text>>, AllocError>
    requires { ReadsTokens text.now tokens.now }
    ensures { IfOk result (λ new. AllFollow start new (turns (λ turn. post_at turn 0) (held text.now tokens.now others.now.entries.now))) }
{
    let mut names = start;
    let mut row = *others;
    while let Some((turn, rest)) = row.split() {
        names = turn_path(alloc, text, tokens, names, &turn)?;
        row = rest;
    }
    Ok(names)
}

/// A chain of a base, a first further part, and others.
#[tactic(auto, using(crate::proofs::PathLemmas::has_chain))]
fn chain_path(
    alloc: Global,
    text: &str,
    tokens: &[Token],
    base: &Item<'_>,
    first: &Item<'_>,
    others: &Siblings<'_>,
) -> Result<Option<Items<Text>>, AllocError>
    requires { ReadsTokens text.now tokens.now }
    ensures { IfOk result (λ names. (r : Range) → HasPath names (call.chained_of r (expr_in (valued text.now tokens.now base.now)) (post_in (valued text.now tokens.now first.now)) (held text.now tokens.now others.now.entries.now))) }
{
    let start = base_path(alloc, text, tokens, base)?;
    let next = post_path(alloc, text, tokens, start, first)?;
    let all = posts_path(alloc, text, tokens, next, others)?;
    Ok(all)
}

/// A name with dots, or one name, where an expression is that.
#[tactic(auto, using(crate::proofs::PathLemmas::has_same))]
fn expr_path(
    alloc: Global,
    text: &str,
    tokens: &[Token],
    e: &Item<'_>,
) -> Result<Option<Items<Text>>, AllocError>
    requires { ReadsTokens text.now tokens.now }
    ensures { IfOk result (λ names. HasPath names (expr_in (valued text.now tokens.now e.now))) }
{
    match call_at(e) {
        Some(
            Call::Chain {
                base,
                first,
                others,
            },
        ) => chain_path(alloc, text, tokens, &base, &first, &others),
        _ => first_path(alloc, text, tokens, e),
    }
}

/// The name with dots that an expression in brackets is, where it is one.
#[tactic(auto, using(crate::proofs::PathLemmas::called_path, crate::proofs::PathLemmas::called_nothing))]
pub fn path_name(
    alloc: Global,
    text: &str,
    tokens: &[Token],
    e: &Item<'_>,
) -> Result<Option<Name>, AllocError>
    requires { ReadsTokens text.now tokens.now }
    ensures { IfOk result (λ it. CallsIn it (expr_in (valued text.now tokens.now e.now))) }
{
    if begins(e) {
        return match expr_path(alloc, text, tokens, e)? {
            Some(names) => Ok(Some(Name::Path(names))),
            None => Ok(None),
        };
    }
    Err(AllocError)
}
