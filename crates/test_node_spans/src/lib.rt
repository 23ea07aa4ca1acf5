//! The kind and the range of one node of a program, for comparison with what was marked by hand: a walk by the views of a
//! row, one level at a time.
//!
//! - `place`: the node of the first item that a letter names.
//! - `Seen`: the kind of a node, and its bytes.
#![tactic(auto)]

mod decls;
mod exprs;
mod in_exprs;
mod names;
mod pats;
mod places;
mod spans;
mod stmts;
mod types;

pub use places::place;
pub use spans::Seen;
