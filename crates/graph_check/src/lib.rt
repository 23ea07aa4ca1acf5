//! Whether rules allow a graph.
//!
//! - `check`: the first entry or edge, in the report's order, that breaks a rule, with its place and why; or how many
//!   entries and edges were looked at, where none breaks one (`look_from`, `specs/Check.antt`; `things_in`, `seen_of`,
//!   `specs/SeenGraph.antt`).
//!
//! Running out of memory is the one answer without a cause.
#![tactic(auto)]

mod checking;
mod seen;

pub use checking::{Found, Thing, Verdict, check};
