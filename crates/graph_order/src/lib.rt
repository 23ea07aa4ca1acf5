//! An order of a graph's modules in which each comes after those that it loads before it runs, or a cycle of such edges.
//!
//! - `order(graph)`: the least order by bytes, or where there is none the cycle of the walk from the least module that
//!   leads to one (`IsFound`, `specs/Order.antt`).
//! - `check_order(graph, list)`, `check_cycle(graph, edges)`: whether a list is an order, or edges are a cycle
//!   (`IsOrder`, `IsCycle`).
//! - Static edges (`IsStaticEdge`, `specs/Edges.antt`) are those of imports, exports, `import a = require()` and WebAssembly,
//!   unless they are for types alone.
//!
//! A graph has an order or a cycle, and never both (`exactly_one`, `proofs/Theorems.antt`). Running out of memory is the one answer
//! without a cause.
#![tactic(auto)]

mod check;
mod edges;
mod find;
mod found;
pub mod names;
pub mod nodes;

pub use check::{check_cycle, check_order};
pub use find::order;
pub use found::{CycleEdge, Order};
