//! Further parts of chains.

ghost use Rattle.std.specs.Prelude.{◌≡◌, ◌&&◌, true, ℕ, List};
ghost use Rattle.es_token.specs.declared.token.Token.{Token as Tok};
ghost use Rattle.es_lowering.specs.Value.{as_group, post_at};
ghost use Rattle.es_syntax.specs.Held.{held, valued};
ghost use Rattle.es_syntax.specs.Roles.{post_in};
ghost use Rattle.dts_rules.specs.Rules as rules;
ghost use Rattle.dts_draft.specs.Written.{IfThere};
ghost use Rattle.dts_member_keys.specs.Looks.{Link, Links, Makes};

use es_syntax::{Item, Siblings};
use es_view_expressions::call::{Post, post_at};

/// A further part of a chain.
#[derive(Clone, Copy)]
pub enum Further {
    /// `!`
    NonNull,
    /// The token of this number after a dot.
    Dot(u32),
    /// Any other.
    Other,
}

pub(crate) fn both(first: bool, second: bool) -> bool
    ensures { result ≡ (first && second) }
{
    first && second
}

/// What a further part of a chain is.
#[tactic(auto, using(crate::proofs::LinkLemmas::dot_is, crate::proofs::LinkLemmas::bang_is, crate::proofs::LinkLemmas::index_ends, crate::proofs::LinkLemmas::call_ends, crate::proofs::LinkLemmas::tagged_ends, crate::proofs::LinkLemmas::optional_ends, crate::proofs::LinkLemmas::typed_call_ends, crate::proofs::LinkLemmas::typed_tagged_ends, crate::proofs::LinkLemmas::typed_optional_ends))]
pub(crate) fn further_at(post: &Item<'_>) -> Further
    ensures { (by : rules.Env) (x : List ℕ) (ts : List Tok) → Makes by x ts result (post_in (valued x ts post.now)) }
{
    match post_at(post) {
        Some(Post::NonNull) => Further::NonNull,
        Some(Post::Member(at)) => Further::Dot(at),
        Some(Post::Index(_)) => Further::Other,
        Some(Post::Call(_)) => Further::Other,
        Some(Post::Template(_)) => Further::Other,
        Some(Post::Optional(_)) => Further::Other,
        Some(
            Post::TypedCall {
                type_args: _,
                args: _,
            },
        ) => Further::Other,
        Some(
            Post::TypedTemplate {
                type_args: _,
                tpl: _,
            },
        ) => Further::Other,
        Some(Post::TypedOptional(_)) => Further::Other,
        Some(Post::Broken) => Further::Other,
        None => Further::Other,
    }
}

/// Whether a further part of a chain is `!`.
#[tactic(auto, using(crate::proofs::LinkLemmas::bang_link, crate::proofs::LinkLemmas::dot_link, crate::proofs::LinkLemmas::other_link))]
fn is_non_null(post: &Item<'_>) -> bool
    ensures { (by : rules.Env) (x : List ℕ) (ts : List Tok) → IfThere (Link by result) (post_in (valued x ts post.now)) }
{
    match further_at(post) {
        Further::NonNull => true,
        Further::Dot(_) => false,
        Further::Other => false,
    }
}

/// The same of the further part in a turn.
#[tactic(auto, using(crate::proofs::LinkLemmas::turn_link, crate::proofs::LinkLemmas::no_turn))]
fn is_non_null_turn(turn: &Item<'_>) -> bool
    ensures { (by : rules.Env) (x : List ℕ) (ts : List Tok) → IfThere (Link by result) (post_at (as_group (valued x ts turn.now)) 0) }
{
    match turn.group().part(0) {
        Some(post) => is_non_null(&post),
        None => false,
    }
}

/// Whether all further parts are `!`.
#[tactic(auto, using(crate::proofs::LinkLemmas::links_none))]
pub(crate) fn are_non_null(posts: &Siblings<'_>) -> bool
    ensures { (by : rules.Env) (x : List ℕ) (ts : List Tok) → Links by true result (held x ts posts.now.entries.now) }
{
    let mut all = true;
    let mut row = *posts;
    while let Some((turn, rest)) = row.split() {
        let bang = is_non_null_turn(&turn);
        all = both(bang, all);
        row = rest;
    }
    all
}
