//! The least order of numbered nodes in which each link leads to a node before its own, or the first cycle where there is none.
//!
//! - `order(links)`: exactly that (`IsFound`, `specs/Order.antt`). An order and a cycle never exist together, and one of the two
//!   is always there.
//!
//! Linear in the links, but for an ordered set of the nodes that may come next. Running out of memory is the one answer without
//! a cause.
#![tactic(auto)]

mod back;
mod find;
mod found;
mod free;
mod placing;
mod walk;

pub use find::order;
pub use found::Found;
