//! Typed views of members of classes: which form a node has, with its parts in place.
//!
//! - `Member`, `member_at`: members of classes.

mod member;

pub use member::{Member, member_at};
