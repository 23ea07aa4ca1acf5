//! The modules of a graph as files of one folder, in which each names the others by their new names.
//!
//! - `plan_vendor(analyzer, graph, base)`: the files, the roots and what stays outside, or the first cause for which the
//!   graph can't be vendored (`IsPlanned`, `specs/Plan.antt`).
//! - `write_vendor(sys, plan, mode)`: the plan's files, written one after the other by atomic writes (`IsWritten`,
//!   `specs/Written.antt` of `vendor_files`).
//!
//! Not promised: when memory runs out.
//!
//! `vendored`: The graph of a plan's files is the old graph, renamed: laws, and no code.
//!
//! - `vendored_graph` (`proofs/vendored/Theorems.antt`): there is a graph of a plan's roots over the plan's own answers
//! (`vendored_answers`, `specs/vendored/Vendored.antt`), resolved by the URL Standard and read by the parser.
//! - `vendored`: it has the entries of the old graph but for its redirects, each at its new name, with its new literals, and
//! leading to the new names of what it led to (`IsVendored`).
#![tactic(auto)]

mod edges;
mod files;
mod kept;
mod names;
mod plan;
mod refused;
mod written;

pub use crate::names::NewName;
pub use crate::plan::{VendorCause, VendorError, VendorPlan, plan_vendor};
pub use crate::written::write_vendor;
pub use vendor_files::{VendorFile, VendorWriteError};
