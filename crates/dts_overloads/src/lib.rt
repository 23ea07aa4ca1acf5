//! The ranges of the bodies of overloads of a program (`dts_rules`), by a walk over its row of entries.
//!
//! - `overloads`: the ranges, in any order.
//!
//! No function calls itself: a deep program needs heap, not the machine's stack.
#![tactic(auto)]

mod heads;
mod lists;
mod names;
mod paths;
mod shapes;
mod walk;
mod ways;

pub use walk::overloads;
