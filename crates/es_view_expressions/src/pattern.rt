//! Typed views of patterns: which form a node has, with its parts in place.
//!
//! - `Pat`, `pat_at`: patterns, and targets that are none.
//! - `Marked`, `marked_at`: patterns that may be followed by `?` or a type.
//! - `PatProp`, `pat_prop_at`: properties of object patterns.

mod marked;
mod pat;
mod prop;

pub use marked::{Marked, marked_at};
pub use pat::{Pat, pat_at};
pub use prop::{PatProp, pat_prop_at};
