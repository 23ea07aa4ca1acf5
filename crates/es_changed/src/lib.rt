//! Rows over the tokens of a program in which nodes are dropped, changed and made.
//!
//! - `ChangedEntry`, `Change`, `Form`, `Word`: what is at a place: an entry of the program's own row, over its tokens, with
//!   kept parts or changed ones; a node that no text has, by its form and its parts; and where the text continues after what is
//!   dropped.
//! - `ChangedWriter`: makes such a row. What is kept is copied.
//! - `ChangedSiblings`, `ChangedItem`: the parts in a row, and one of them; `Copy` views of a slice.
#![tactic(auto)]

mod cursor;
mod entry;
mod writer;

pub use cursor::{ChangedItem, ChangedSiblings};
pub use entry::{Change, ChangedEntry, Form, Word};
pub use writer::ChangedWriter;
