//! Where a chain of calls and members ends.

ghost use Rattle.std.specs.Prelude.{◌≡◌, ℕ, List, IfSome};
ghost use Rattle.es_lowering.specs.Value.{as_group, post_at};
ghost use Rattle.es_syntax.specs.Held.{held, valued};
ghost use Rattle.es_syntax.specs.Roles.{post_in};
ghost use Rattle.es_expr_spans.specs.Spans.{Ends, Moves};

use crate::tokens::span_of;
use es_syntax::{Item, Siblings};
use es_token::Token;

/// Where a further part of a chain ends.
#[tactic(auto, using(crate::proofs::Posts::item_ends))]
pub fn post_end(tokens: &[Token], post: &Item<'_>) -> usize
    ensures { (x : List ℕ) → IfSome (post_in (valued x tokens.now post.now)) (Ends result) }
{
    span_of(tokens, post.from, post.to).end
}

/// Where the further part in a turn ends.
#[tactic(auto, using(crate::proofs::Posts::turn_ends, crate::proofs::Posts::no_turn))]
fn turn_end(tokens: &[Token], turn: &Item<'_>) -> usize
    ensures { (x : List ℕ) → IfSome (post_at (as_group (valued x tokens.now turn.now)) 0) (Ends result) }
{
    match turn.group().part(0) {
        Some(post) => post_end(tokens, &post),
        None => 0,
    }
}

/// Where an expression ends that ends here before these further parts.
#[tactic(auto, using(crate::proofs::Posts::moves_none, crate::proofs::Posts::moves_next))]
pub fn posts_end(tokens: &[Token], posts: &Siblings<'_>, before: usize) -> usize
    ensures { (x : List ℕ) → Moves (held x tokens.now posts.now.entries.now) before result }
{
    let mut end = before;
    let mut row = *posts;
    while let Some((turn, rest)) = row.split() {
        end = turn_end(tokens, &turn);
        row = rest;
    }
    end
}
