//! The items of a program as its declarations have them: declarations, namespaces, default exports, `declare`.
//!
//! - `declared_program`: the declarations of the program that is first in a row.
#![tactic(auto)]

mod blocks;
mod decls;
mod defaults;
mod exports;
mod items;
mod labels;
mod programs;
mod sorts;
mod stmts;

pub use programs::declared_program;
