//! Typed views of statements: which form a node has, with its parts in place.
//!
//! - `Stmt`, `stmt_at`: statements other than loops, `switch`, `try` and declarations.
//! - `Compound`, `compound_at`: loops, `switch` and `try`.
//! - `Block`, `block_at`: the statements of a block.

mod block;
mod compound;
mod stmt;

pub use block::{Block, block_at};
pub use compound::{Compound, compound_at};
pub use stmt::{Stmt, stmt_at};
