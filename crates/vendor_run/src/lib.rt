//! A run of the program, with all its arguments; and with `vendor BASE`: from the bytes of a bundle to the bytes of the bundle
//! of its files.
//!
//! - `run_program`: all that the program does, by its arguments (`Wrote`, `specs/Program.antt`): `run_vendor`, or `run` of `graph_run`.
//! - `folder_of`: the folder that the arguments name (`IsVendor`, `specs/Words.antt`).
//! - `run_vendor`: reads a bundle and writes that of its modules as files of the folder, or why there is none, and answers
//!   a `Status` (`Wrote`, `specs/Run.antt`).
//! - `vendor_text`: the bundle of a plan's files (`plan_text` of `vendor_report`).
//!
//! Running out of memory is the one answer without a cause.
#![tactic(auto)]

mod due;
mod program;
mod readable;
mod run;
mod words;

pub use crate::due::vendor_text;
pub use crate::program::run_program;
pub use crate::run::run_vendor;
pub use crate::words::folder_of;
