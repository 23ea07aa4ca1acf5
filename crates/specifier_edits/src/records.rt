//! Other specifiers for the sites of a text, by records over one buffer of bytes, as a program in C has them.
//!
//! - `rewrite_by_records(text, sites, records, values)`: the new text, or the first record that can't be followed, and why
//!   (`IsRewritten`, `specs/records/Records.antt`).
//!
//! Not promised: when memory runs out.

mod records;
mod rewrite;

pub use crate::records::records::SourceChange;
pub use crate::records::rewrite::{Rewritten, rewrite_by_records};
