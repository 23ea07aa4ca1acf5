//! Orders of modules, and cycles of static edges.
use base::Items;
use url::Url;

/// A static edge of a cycle.
#[derive(Debug, Drop)]
pub struct CycleEdge {
    /// The module that has the edge.
    pub module: Url,
    /// The number of its dependency, from 0.
    pub dependency: usize,
    /// The module that it leads to.
    pub target: Url,
}

/// An order of a graph's modules, or a cycle of its static edges.
#[derive(Debug, Drop)]
pub enum Order {
    /// All modules' specifiers.
    Sorted(Items<Url>),
    /// Edges that lead from the first one's module back to it.
    Cycle(Items<CycleEdge>),
}
