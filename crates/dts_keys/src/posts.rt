//! Further parts of names with dots.

ghost use Rattle.std.specs.Prelude.{◌≡◌, false, ℕ, List, is_some, slice_get};
ghost use Rattle.es_token.specs.declared.token.Token.{Token as Tok};
ghost use Rattle.es_lowering.specs.Value.{as_group, part, post_at, turns};
ghost use Rattle.es_lowering.specs.Texts.{span_of};
ghost use Rattle.es_syntax.specs.Held.{held, there, valued};
ghost use Rattle.es_syntax.specs.Roles.{post_in};
ghost use Rattle.es_view_expressions.specs.call.Post as view;
ghost use Rattle.dts_rules.specs.Rules.{Env};
ghost use Rattle.dts_draft.specs.Drafts.{state_of};
ghost use Rattle.dts_draft.specs.Written.{IfThere};
ghost use Rattle.dts_keys.specs.Keys.{Goes, GoesOn};

use dts_draft::{Draft, is_kind};
use es_syntax::{Item, Siblings};
use es_token::{Token, TokenKind};
use es_view_expressions::call::{Post, post_at};

/// `.a` after a name or not, up to this token: where the name ends, where there is one.
fn member_end(
    out: &mut Draft,
    tokens: &[Token],
    at: u32,
    named: bool,
    from: u32,
    to: u32,
) -> Option<u32>
    ensures before { out.new.failed ≡ false → out.old.failed ≡ false }
    ensures state { state_of out.new ≡ state_of out.old }
    ensures written { out.new.failed ≡ false → (env : Env) (x : List ℕ) → IfThere (Goes env x tokens.now named out.old.row out.new.row result) (view.member x (span_of tokens.now from to) (slice_get tokens.now at)) }
{
    if is_kind(tokens, at, TokenKind::PrivateName) {
        return None;
    }
    if !named {
        return None;
    }
    out.token(at);
    Some(to)
}

/// The name of a further part, after a name or not: where the name ends, where what the part makes is one. What no grammar makes
/// is reported as out of memory.
#[tactic(auto, using(crate::proofs::PostLemmas::index_ends, crate::proofs::PostLemmas::call_ends, crate::proofs::PostLemmas::tagged_ends, crate::proofs::PostLemmas::optional_ends, crate::proofs::PostLemmas::typed_call_ends, crate::proofs::PostLemmas::typed_tagged_ends, crate::proofs::PostLemmas::typed_optional_ends, crate::proofs::PostLemmas::non_null_ends))]
pub fn post_end(out: &mut Draft, tokens: &[Token], post: &Item<'_>, named: bool) -> Option<u32>
    ensures before { out.new.failed ≡ false → out.old.failed ≡ false }
    ensures state { state_of out.new ≡ state_of out.old }
    ensures written { out.new.failed ≡ false → (env : Env) (x : List ℕ) → IfThere (Goes env x tokens.now named out.old.row out.new.row result) (post_in (valued x tokens.now post.now)) }
{
    match post_at(post) {
        Some(Post::Member(at)) => member_end(out, tokens, at, named, post.from, post.to),
        Some(Post::Index(_)) => None,
        Some(Post::Call(_)) => None,
        Some(Post::Template(_)) => None,
        Some(Post::Optional(_)) => None,
        Some(
            Post::TypedCall {
                type_args: _,
                args: _,
            },
        ) => None,
        Some(
            Post::TypedTemplate {
                type_args: _,
                tpl: _,
            },
        ) => None,
        Some(Post::TypedOptional(_)) => None,
        Some(Post::NonNull) => None,
        Some(Post::Broken) => {
            out.fail();
            None
        }
        None => {
            out.fail();
            None
        }
    }
}

/// The first part of a turn.
fn part_in<'a>(turn: &Item<'a>) -> Option<Item<'a>>
    ensures { (x : List ℕ) (ts : List Tok) → part (as_group (valued x ts turn.now)) 0 ≡ there x ts result }
{
    turn.group().part(0)
}

/// The further part in a turn, after the name that ends there.
#[tactic(auto, using(crate::proofs::PostLemmas::none_there))]
fn turn_end(out: &mut Draft, tokens: &[Token], turn: &Item<'_>, before: Option<u32>) -> Option<u32>
    ensures before { out.new.failed ≡ false → out.old.failed ≡ false }
    ensures state { state_of out.new ≡ state_of out.old }
    ensures written { out.new.failed ≡ false → (env : Env) (x : List ℕ) → IfThere (Goes env x tokens.now (is_some before) out.old.row out.new.row result) (post_at (as_group (valued x tokens.now turn.now)) 0) }
{
    match part_in(turn) {
        Some(post) => post_end(out, tokens, &post, before.is_some()),
        None => None,
    }
}

/// All further parts in turns, after the name that ends there: where the name with them ends.
#[tactic(auto, using(crate::proofs::PostLemmas::posts_all, crate::proofs::PostLemmas::posts_done))]
pub fn posts_end(
    out: &mut Draft,
    tokens: &[Token],
    posts: &Siblings<'_>,
    before: Option<u32>,
) -> Option<u32>
    ensures before { out.new.failed ≡ false → out.old.failed ≡ false }
    ensures state { state_of out.new ≡ state_of out.old }
    ensures written { out.new.failed ≡ false → (env : Env) (x : List ℕ) → IfThere (GoesOn env x tokens.now before out.old.row out.new.row result) (turns (λ turn. post_at turn 0) (held x tokens.now posts.now.entries.now)) }
{
    let mut end = before;
    let mut row = *posts;
    while let Some((turn, rest)) = row.split() {
        end = turn_end(out, tokens, &turn, end);
        row = rest;
    }
    end
}
