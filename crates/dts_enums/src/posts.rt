//! Which further parts of a chain are members.

ghost use Rattle.std.specs.Prelude.{◌≡◌, ℕ, List, true};
ghost use Rattle.base.specs.declared.range.Range.{Range};
ghost use Rattle.es_token.specs.declared.token.Token.{Token as Tok};
ghost use Rattle.es_lowering.specs.Value.{Value, more, as_group, part, expr_at, post_at};
ghost use Rattle.es_lowering.specs.Expressions.{chain};
ghost use Rattle.es_lowering.specs.Lowering.{post_of};
ghost use Rattle.es_syntax.specs.Held.{held, valued};
ghost use Rattle.es_syntax.specs.Roles.{post_in};
ghost use Rattle.es_syntax.specs.Views.{is_one_of};
ghost use Rattle.dts_rules.specs.Rules.{Env};
ghost use Rattle.dts_enums.specs.Forms.{access_labels, Access, Optional, Along, Starts};

use crate::tokens::both;
use es_grammar::NodeKind;
use es_syntax::{Item, Siblings, What};

/// Whether what begins a group after `?.` is a name.
#[tactic(auto, using(crate::proofs::PostLemmas::leaf_named, crate::proofs::PostLemmas::node_named, crate::proofs::PostLemmas::role_named, crate::proofs::PostLemmas::parts_named, crate::proofs::PostLemmas::lean_named))]
fn is_named(first: &Item<'_>) -> bool
    ensures { (x : List ℕ) (ts : List Tok) (env : Env) (r : Range) (vs : Value) → Optional env x ts r result (more (valued x ts first.now) vs) }
{
    match first.what {
        What::Leaf => true,
        What::Node(_) => false,
        What::Role(_) => false,
        What::Parts => false,
        What::Lean(_) => false,
    }
}

/// The same of all that a group begins with.
#[tactic(auto, using(crate::proofs::PostLemmas::group_named, crate::proofs::PostLemmas::nothing_named))]
fn is_named_group(group: &Siblings<'_>) -> bool
    ensures { (x : List ℕ) (ts : List Tok) (env : Env) (r : Range) → Optional env x ts r result (held x ts group.now.entries.now) }
{
    match group.split() {
        Some((first, _)) => is_named(&first),
        None => false,
    }
}

/// Whether what is after `?.` is a name or in brackets, and no call.
#[tactic(auto, using(crate::proofs::PostLemmas::leaf_optional, crate::proofs::PostLemmas::node_optional, crate::proofs::PostLemmas::role_optional, crate::proofs::PostLemmas::lean_optional))]
fn is_optional(inner: &Item<'_>) -> bool
    ensures { (x : List ℕ) (ts : List Tok) (env : Env) (r : Range) → Optional env x ts r result (valued x ts inner.now) }
{
    match inner.what {
        What::Node(_) => true,
        What::Lean(_) => true,
        What::Parts => is_named_group(&inner.parts),
        What::Leaf => false,
        What::Role(_) => false,
    }
}

/// The same of what is first in a group.
#[tactic(auto, using(crate::proofs::PostLemmas::optional_there, crate::proofs::PostLemmas::optional_none))]
fn is_optional_in(group: &Siblings<'_>) -> bool
    ensures { (x : List ℕ) (ts : List Tok) (env : Env) (r : Range) → Optional env x ts r result (part (held x ts group.now.entries.now) 0) }
{
    match group.part(0) {
        Some(inner) => is_optional(&inner),
        None => false,
    }
}

/// Whether nodes of this alternative may be members.
fn is_access_label(label: NodeKind) -> bool
    ensures { is_one_of access_labels label ≡ result }
{
    match label {
        NodeKind::MemberPost => true,
        NodeKind::IndexPost => true,
        NodeKind::OptionalPost => true,
        NodeKind::TypedOptionalPost => true,
        _ => false,
    }
}

/// Whether a node of such an alternative is a member.
#[tactic(auto, using(crate::proofs::PostLemmas::member_access, crate::proofs::PostLemmas::index_access, crate::proofs::PostLemmas::optional_access, crate::proofs::PostLemmas::typed_optional_access))]
fn own_access(label: NodeKind, parts: &Siblings<'_>) -> bool
    ensures { is_one_of access_labels label ≡ true → (x : List ℕ) (ts : List Tok) (env : Env) (r : Range) → Access env result (post_of x ts label r (held x ts parts.now.entries.now)) }
{
    match label {
        NodeKind::MemberPost => true,
        NodeKind::IndexPost => true,
        NodeKind::OptionalPost => is_optional_in(&parts.group_at(0)),
        NodeKind::TypedOptionalPost => is_optional_in(&parts.group_at(0)),
        _ => false,
    }
}

/// Whether a further part of a chain is a member: `.a`, `[a]`, `?.a`, `?.[a]`.
#[tactic(auto, using(crate::proofs::PostLemmas::own_post, crate::proofs::PostLemmas::other_post, crate::proofs::PostLemmas::role_post, crate::proofs::PostLemmas::parts_post, crate::proofs::PostLemmas::lean_post))]
fn is_access(post: &Item<'_>) -> bool
    ensures { (x : List ℕ) (ts : List Tok) (env : Env) → Access env result (post_in (valued x ts post.now)) }
{
    match post.what {
        What::Node(label) => {
            if !is_access_label(label) {
                return false;
            }
            own_access(label, &post.parts)
        }
        What::Leaf => false,
        What::Role(_) => false,
        What::Parts => false,
        What::Lean(_) => false,
    }
}

/// The same of the further part in a turn.
#[tactic(auto, using(crate::proofs::PostLemmas::turn_access, crate::proofs::PostLemmas::no_turn))]
fn is_access_in(turn: &Item<'_>) -> bool
    ensures { (x : List ℕ) (ts : List Tok) (env : Env) → Access env result (post_at (as_group (valued x ts turn.now)) 0) }
{
    match turn.group().part(0) {
        Some(post) => is_access(&post),
        None => false,
    }
}

/// Whether an enum keeps what these further parts make, by whether it keeps what precedes them.
#[tactic(auto, using(crate::proofs::PostLemmas::along_none, crate::proofs::PostLemmas::along_next))]
fn are_accesses(before: bool, posts: &Siblings<'_>) -> bool
    ensures { (x : List ℕ) (ts : List Tok) (env : Env) → Along env before result (held x ts posts.now.entries.now) }
{
    let mut there = before;
    let mut row = *posts;
    while let Some((turn, rest)) = row.split() {
        let access = is_access_in(&turn);
        there = both(access, there);
        row = rest;
    }
    there
}

/// Whether an enum keeps a chain, by whether it keeps what the chain begins with.
#[tactic(auto, using(crate::proofs::PostLemmas::chain_along, crate::proofs::PostLemmas::no_chain))]
pub(crate) fn is_chain(before: bool, parts: &Siblings<'_>) -> bool
    ensures { (x : List ℕ) (ts : List Tok) (env : Env) (r : Range) → Starts env before (expr_at (held x ts parts.now.entries.now) 0) → Starts env result (chain r (held x ts parts.now.entries.now)) }
{
    match parts.part(1) {
        Some(first) => {
            let access = is_access(&first);
            are_accesses(both(access, before), &parts.group_at(2))
        }
        None => false,
    }
}
