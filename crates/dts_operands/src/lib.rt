//! Types of expressions that are known without a look at their parts, and what decides the type of an expression with a cast or of a call.
#![tactic(auto)]

mod callees;
mod labels;
mod leaves;
mod sources;

pub use callees::{Callee, value_of};
pub use labels::{Behind, Sort, behind_of, is_spread, sort_of};
pub use leaves::{leaf_type, new_type, signed_type};
pub use sources::{Source, cast, lean_turns, turned};
