//! The steps of a node.

/// A part: its place among those of the node, after the places of the groups that it is in. Parts count from 0.
#[derive(Clone, Copy)]
pub enum Path {
    At(usize),
    In(usize, usize),
    Deep(usize, usize, usize),
    Deeper(usize, usize, usize, usize),
}

/// What is done at a node, one step after the other.
#[derive(Clone, Copy)]
pub enum Step<W: Copy + 'static, A: Copy + 'static, T: Copy + 'static> {
    /// What the analysis does at the node itself.
    Act(A),
    /// All nodes of the parts, in groups and lists too: the default.
    Rest(W),
    /// The node at a place.
    At(W, Path),
    /// All nodes of the part at a place.
    All(W, Path),
    /// Each turn of the list at a place, by the steps of a turn.
    Turns(W, Path, T),
}
