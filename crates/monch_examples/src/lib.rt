//! The combinators of `monch` at work.
//!
//! - `json`: a small grammar after JSON, read with them. Each function says that what it leaves is a suffix of the text.
//! - The tests try each maker at a concrete type.
#![tactic(auto)]

mod json;

pub use json::{Fields, Scalar, read_list, read_record, read_scalar, read_text};
