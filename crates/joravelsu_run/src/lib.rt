//! A run of the second program: from its arguments and the bytes of a bundle with choices to the bytes that are due.
//!
//! - `run`: by its arguments, reads a bundle with choices and writes the report of its graph, the order of its modules, their
//!   groups, what is wrong with their texts, a way to one, what is gone without one, what rules say of it or their declarations,
//!   and answers a `Status` (`Wrote`, `specs/Run.antt`).
//! - `form_of`: the form that the arguments are (`IsForm`, `specs/Words.antt`).
//!
//! Running out of memory is the one answer without a cause.
#![tactic(auto)]

mod asked;
mod declarations;
mod due;
mod faults;
mod groups;
mod program;
mod verdicts;
mod ways;
mod without;
mod words;

pub use crate::asked::{Asked, Telling, take_asked};
pub use crate::program::run;
pub use crate::words::{Form, form_of};
