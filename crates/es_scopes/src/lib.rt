//! Scope numbers of a program's names (ECMA-262, "Static Semantics: Scope Analysis"), straight from its tree in a row of entries.
#![tactic(auto)]

mod plan;
mod program;
mod scopes;
mod steps;

pub use program::{body_marks, program_marks};
pub use steps::{Act, Mark, Place, Turn, Way, When};
