//! The steps of the nodes of a program.

use es_walk::Path;

/// Where a node stands.
#[derive(Clone, Copy)]
pub enum Place {
    Plain,
    /// It is a part of a worker's `new`, or of its arguments.
    Worker,
}

/// Where a part stands.
#[derive(Clone, Copy)]
pub enum Way {
    /// Nowhere in particular.
    Inner,
    /// Where the node does.
    Same,
    /// In a `new` whose arguments are at this place.
    Made(Path),
}

/// What is met at a node itself.
#[derive(Clone, Copy)]
pub enum Act {
    /// The calls that a chain begins with.
    Call,
    /// A `new` whose arguments are at this place.
    New(Path),
    /// A type of another module.
    Type,
}
