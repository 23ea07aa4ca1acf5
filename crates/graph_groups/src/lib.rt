//! The groups of a graph's modules that static edges connect both there and back, in evaluation order.
//!
//! - `groups(graph)`: exactly these (`AreGroups`, `specs/Groups.antt`). Each group's specifiers ascend by bytes. A group comes after
//!   those that static edges of its modules lead to; of the groups that may come next the one with the least specifier comes
//!   first. In a graph without cycles each group has one module, and they are in the order of `graph_order`.
//! - Static edges are those of `graph_order` (`IsStaticEdge`).
//!
//! Out of memory is the one answer without a cause.
#![tactic(auto)]

mod find;

pub use find::groups;
