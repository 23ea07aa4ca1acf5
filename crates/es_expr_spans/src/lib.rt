//! The range of an expression in a row of entries: the `span` of the node that it becomes.
#![tactic(auto)]

mod chain;
mod expr;
mod tokens;

pub use expr::expr_range;
pub use tokens::span_of;
