//! Why an entry is in a graph, and what the graph has only through one entry or edge.
//!
//! - `why(graph, following, specifier)`: a shortest path of followed edges and redirects from a start of the graph to the specifier's
//!   entry, or that there is none (`IsWhy`, `specs/Why.antt`).
//! - `gone_without(graph, following, without)`: exactly the entries that such paths lead to, and no longer lead to without an entry or
//!   without an edge (`AreGone`).
//! - Starts are the roots, and where referrer imports lead. A redirect is a step of its own.
//!
//! Linear in entries and edges, but for looking up each edge's target. Out of memory is the one answer without a cause.
#![tactic(auto)]

mod find;
mod nodes;
mod step;

pub use find::{gone_without, why};
pub use step::{Step, Without};
