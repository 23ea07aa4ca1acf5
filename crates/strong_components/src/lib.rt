//! The strongly connected components of numbered nodes in evaluation order.
//!
//! - `components(links)`: exactly that (`AreComponents`, `specs/Components.antt`). Each component's members ascend, each link of a
//!   member leads to a member or to an earlier component, and of the components that may come next the one with the least
//!   member comes first. Without cycles this is the order of `topological_order`.
//!
//! Linear in nodes and links, but for the ordered set of `topological_order`. Out of memory is the one answer without a cause.
#![tactic(auto)]

mod condense;
mod find;
mod finish;
mod gather;
mod members;
mod reverse;

pub use find::components;
