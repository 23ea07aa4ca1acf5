//! The language in which the grammar of JavaScript and TypeScript programs (ECMA-262) is written as a table, with its
//! laws, and what a reader of programs takes and answers.
//!
//! - `specs/Productions.antt`: the forms and rules of a table; `specs/Fits.antt`: when a tree fits one; `specs/Reader.antt`:
//!   the reader of one. Its laws hold for whatever table of rows (`proofs/Theorems.antt`).
//! - `Lang`, `Mode`, `SyntaxError`: how a text is to be read, and why it can't be.
//!
//! Not promised: what `Display` and `Debug` write.
#![tactic(auto)]

mod error;

pub use error::{Lang, Mode, SyntaxError};
