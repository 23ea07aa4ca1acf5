//! What a reader of programs in both languages keeps of a plain tree.
//!
//! - `Cst`: the nodes, and the tokens that are kept (`slim`, `specs/cst/Slim.antt`).
//!
//! It is below the readers, so that what is made of such a tree depends on no reader.

mod tree;

pub use tree::Cst;
