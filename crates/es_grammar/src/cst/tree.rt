use crate::NodeKind;
use base::{Boxed, Items};

/// A tree over the tokens of a text, without those that tell nothing but the form.
#[cycle(tree)]
pub enum Cst {
    /// A token that is kept, by its number.
    Leaf {
        at: usize,
    },
    /// A node: the alternative that was read, its first token, the token after its last one, and its parts.
    Node {
        label: NodeKind,
        from: usize,
        to: usize,
        parts: Items<Cst>,
    },
    /// A node in another role.
    Role {
        label: NodeKind,
        tree: Boxed<Cst>,
    },
    /// The turns of a list, or the parts of a turn or of an optional part; none where that part is absent.
    Parts(Items<Cst>),
}

impl Drop for Cst {
    #[cycle(tree)]
    fn drop(self) {
        match self {
            Cst::Leaf { at: _ } => {}
            Cst::Node {
                label: _,
                from: _,
                to: _,
                parts,
            } => {
                let _ = parts;
            }
            Cst::Role { label: _, tree } => {
                let _ = tree;
            }
            Cst::Parts(parts) => {
                let _ = parts;
            }
        }
    }
}
