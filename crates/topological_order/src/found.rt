//! What is found of nodes.

use base::Items;

/// An order of the nodes, or a cycle.
#[derive(Debug, Drop)]
pub enum Found {
    /// All nodes, each once, in an order in which each link leads to a node before its own.
    Order(Items<usize>),
    /// Links that lead from the first one's node back to it: each its node, and its place among the node's links, from 0.
    Cycle(Items<(usize, usize)>),
}
