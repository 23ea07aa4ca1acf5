use es_grammar::NodeKind;

/// The left-associative alternatives: their first part is again such a node, and a row has the whole chain as one entry.
#[derive(Clone, Copy, Debug, PartialEq, Eq)]
pub enum Lean {
    Binary,
    TypedBinary,
}

/// What is at a place.
#[derive(Clone, Copy)]
pub enum What {
    /// A token that is kept; its number is the entry's first token.
    Leaf,
    /// A node, by its alternative.
    Node(NodeKind),
    /// A node in another role: the one that is its part.
    Role(NodeKind),
    /// The turns of a list, or the parts of a turn or of an optional part.
    Parts,
    /// A first operand and turns: the left-associative nodes over these. A turn has the parts after the first one, and the
    /// token after the last one of its node.
    Lean(Lean),
}

/// What is there, before its parts: its first token, the token after its last one, and how many entries its parts take.
#[derive(Clone, Copy)]
pub struct Entry {
    pub what: What,
    pub from: u32,
    pub to: u32,
    pub size: u32,
}

const _: () = prove!(size_of::<Entry>() == 16);
