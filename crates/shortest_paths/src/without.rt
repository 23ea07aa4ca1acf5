//! What is left out of a graph.
ghost use Rattle.std.specs.Prelude.{◌≡◌};
ghost use Rattle.shortest_paths.specs.Paths as spec;

/// What is left out of a graph.
#[derive(Debug, Clone, Copy)]
pub enum Without {
    Nothing,
    /// A node, with all its links and all links to it.
    Node(usize),
    /// The link of a node at a place among the node's links, from 0.
    Link(usize, usize),
}

impl Without {
    /// Whether a path may begin at the root.
    pub fn keeps_root(self, root: usize) -> bool
        ensures { result ≡ spec.keeps_root self root }
    {
        match self {
            Without::Node(node) => root != node,
            Without::Nothing | Without::Link(_, _) => true,
        }
    }

    /// Whether a path may take the link of the node at this place, to this target.
    pub fn keeps(self, node: usize, place: usize, target: usize) -> bool
        ensures { result ≡ spec.keeps_link self node place target }
    {
        match self {
            Without::Nothing => true,
            Without::Node(left) => target != left,
            Without::Link(from, at) => !(node == from && place == at),
        }
    }
}
