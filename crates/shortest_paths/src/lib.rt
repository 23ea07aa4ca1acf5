//! Shortest paths from roots over links of numbered nodes, and what is reached only through one node or link.
//!
//! - `shortest(links, roots, node)`: a path of links from a root to the node, and none is shorter; or that there is none
//!   (`IsShortest`, `specs/Paths.antt`).
//! - `gone_without(links, roots, without)`: exactly the nodes that paths from roots lead to, and no longer lead to without a node or
//!   without a link (`IsGone`).
//!
//! Breadth-first, and linear in nodes and links. Out of memory is the one answer without a cause.
#![tactic(auto)]

mod gone;
mod path;
mod search;
mod without;

pub use gone::gone_without;
pub use path::shortest;
pub use without::Without;
