//! The comments of a text by their places: before a token, or after one.
//!
//! - `comments_of(text, tokens, comments)`: a comment is trailing at the end of the token before it where no line end is
//!   between them, or where no token follows; else leading at the start of the next token. With no token it is leading at 0
//!   (`ArePlaced`, `specs/Standing.antt`).
//! - `MultiThreadedComments`: both maps, shared by its copies, which contracts see as places with their comments (`Placed`,
//!   `specs/Placed.antt`); `SingleThreadedComments`: the same two as its fields.
//!
//! Not promised: that text and tokens are gone through once, which is so where the comments ascend.
#![tactic(auto)]

mod maps;
mod place;
mod shared;

pub use crate::maps::{CommentMap, SingleThreadedComments, copy_comment};
pub use crate::place::comments_of;
pub use crate::shared::{CommentsIter, MultiThreadedComments};
