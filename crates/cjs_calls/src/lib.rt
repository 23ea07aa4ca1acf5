//! What calls, assignments and declarators add to what is found of the exports of a module of CommonJS, by the views of a
//! row of entries.
//!
//! - `callee_at`: what the callee of a call looks like (`callee_look`, `cjs_facts`).
//! - `called`: what a call adds (`called_by`).
//! - `assigned`, `pattern_assigned`: what an assignment by `=` adds (`assigned`).
//! - `bound`: what a declarator adds (`bound`).
//!
//! What no view knows is no such part, and adds nothing: a call fails only out of memory. The tokens cut the text between
//! characters (`IsCut`, `es_bound_names`).
#![tactic(auto)]

mod arguments;
mod assignments;
mod callee;
mod calls;
mod declarators;
mod descriptor;
mod getter;
mod names;
mod rights;

pub use assignments::{assigned, pattern_assigned};
pub use callee::callee_at;
pub use calls::called;
pub use declarators::bound;
