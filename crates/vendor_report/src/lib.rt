//! What is written of a plan: a bundle of its files, or why there is no plan.
//!
//! - `plan_text(wanted, plan)`: the bundle of the plan's files, as compact JSON and a line end, byte for byte (`plan_text`,
//!   `specs/Plans.antt`).
//! - `refused_line(cause, specifier)`: the line of a refusal (`refused_line`, there too).
//!
//! Running out of memory is the one answer without a cause.
#![tactic(auto)]

mod modules;
mod refused;
mod wanted;

pub use crate::modules::plan_text;
pub use crate::refused::refused_line;
pub use crate::wanted::{Wanted, wanted_of};
