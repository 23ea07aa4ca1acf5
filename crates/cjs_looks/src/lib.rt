//! What expressions look like to the analysis of CommonJS, by the views of a row of entries.
//!
//! - `kind_at`: what kind of expression an expression is (`Kind`, `IsKind` in `specs/Kinds.antt`).
//! - `look_at`, `argument_look`, `post_look`, `call_look`: what an expression, an argument, a chain with one part or call more
//!   looks like (`Look`).
//! - `is_harmless`: whether an expression does nothing (`is_harmless`, `cjs_facts`).
//! - `spells`, `same_name`, `token_at`: whether a token spells a word, whether two spell the same, and a token by its number.
//!
//! A look holds numbers of tokens alone: nothing is copied, and strings are read where they are asked for. What no view knows
//! is no expression, so that any answer keeps the promise: no call fails but out of memory.
#![tactic(auto)]

mod chain;
mod harmless;
mod kind;
mod looks;
pub mod objects;
pub mod steps;
mod words;

pub use chain::{argument_look, call_look, kind_at, look_at, post_look};
pub use harmless::is_harmless;
pub use kind::{Body, Kind};
pub use looks::{Key, Look, Object};
pub use words::{same_name, spells, token_at};
