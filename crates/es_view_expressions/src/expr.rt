//! Typed views of expressions, one level at a time: which form of expression a node in a row of entries is, with
//! its parts in place.
//!
//! - `Primary`, `primary_at`: names, literals, templates, arrays, objects, brackets.

mod primary;

pub use primary::{Primary, primary_at};
