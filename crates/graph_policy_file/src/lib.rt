//! Rules on modules and edges, read from JSON.
//!
//! - `policy_in`: exactly the rules that a JSON value says, or the pointer to the first thing for which it says none
//!   (`policy_of`, `specs/PolicyFile.antt`).
//! - `policy_at`: the same of what must stand at a key of an object.
//!
//! Running out of memory is the one answer without a cause.
#![tactic(auto)]

mod asked;
mod condition;
mod file;
mod lists;
mod rules;
mod target;

pub use file::{policy_at, policy_in};
