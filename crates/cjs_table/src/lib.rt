//! The facts of a program as a module of CommonJS (`cjs_facts`), by a walk over its row of entries.
//!
//! - `plan` (`shapes.rt`): where facts are among the parts of a node of each alternative.
//! - `program_found`: what the facts of a program add to what is found.
//!
//! No function calls itself: a deep program needs heap, not the machine's stack.
#![tactic(auto)]

mod bound;
mod chain;
mod node;
mod shapes;
mod walk;
mod ways;

pub use walk::program_found;
