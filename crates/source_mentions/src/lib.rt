//! What a source mentions, by its media type, or that it has no tree.
//!
//! - `token_mentions(alloc, media_type, text, tokens, allowed, strict)`: what the tree of these tokens mentions
//!   (`AreMentions`, `specs/Answers.antt`), or `Syntax` exactly where they have none.
#![tactic(auto)]

mod read;

pub use es_mentions::{Mention, Reason};
pub use read::token_mentions;
