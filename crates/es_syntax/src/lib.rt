//! A kept tree in one row of entries, each before its parts, and cursors that go over it. No value is boxed, and none is
//! dropped but the row.
//!
//! - `Entry`, `What`, `Lean`: what is kept.
//! - `Siblings`, `Item`: the parts that are in a row, and one of them; copies of a slice.
//! - `Writer`: makes a row, as text is written: a node is opened, its parts are written, it is closed. A node may be opened
//!   before what is there already, as a left-associative one is.
#![tactic(auto)]

mod cursor;
mod entry;
mod writer;

pub use cursor::{Item, Siblings};
pub use entry::{Entry, Lean, What};
pub use writer::Writer;
