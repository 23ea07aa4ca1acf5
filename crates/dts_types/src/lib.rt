//! The types of expressions, as declarations have them, written into a draft.
//!
//! - `Ask`: how the type of an expression is asked for.
//! - `infer`: writes the type of an expression, where it has one.
#![tactic(auto)]

mod arrays;
mod ask;
mod exprs;
mod functions;
mod objects;
mod params;

pub use ask::Ask;
pub use exprs::{infer, infer_or_any};
