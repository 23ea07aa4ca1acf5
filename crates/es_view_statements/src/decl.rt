//! Typed views of declarations: which form a node has, with its parts in place.
//!
//! - `Decl`, `decl_at`: declarations.
//! - `Declarable`, `declarable_at`: declarations that may follow `declare`.
//! - `Variables`, `variables_at`: variables.
//! - `Declarator`, `declarator_at`: declarators.
//! - `Head`, `head_at`: what precedes `in` or `of` in a `for`.

mod decl;
mod declarable;
mod declarator;
mod head;
mod variables;

pub use decl::{Decl, decl_at};
pub use declarable::{Declarable, declarable_at};
pub use declarator::{Declarator, declarator_at};
pub use head::{Head, head_at};
pub use variables::{Variables, variables_at};
