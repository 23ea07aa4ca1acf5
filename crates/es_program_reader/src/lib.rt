//! The reader of programs of the table of both languages (`es_grammar`): from tokens to a row of entries, which is
//! one tree.
//!
//! - `read_program(alloc, lang, mode, tokens)`: the row of the tree that is kept of the one plain tree of a program over the
//!   tokens (`HoldsKept`, `specs/Program.antt`), or `Syntax` where there is none. Both ways: only lack of memory may refuse
//!   besides.
//! - `read_tree(alloc, lang, mode, tokens)`: the same of the rows of the table alone (`HoldsShaped`, `specs/Derived.antt`),
//!   where anything may be assigned to.
//! - `whole(grammar, mode)`: the same, by a function that reads each row of the table.
//! - `first_unsound(row)`: where anything but a simple target is assigned to, or updated; none exactly where the trees of
//!   the row are sound (`are_sound`, `specs/Sound.antt`).
//!
//! Not promised: which token `Syntax` names, and when memory runs out.
#![tactic(auto)]

mod parts;
mod plain;
mod program;
pub mod row_reader;
mod simple;
mod sound;
mod written;

pub use plain::{read_program, read_tree};
pub use program::whole;
pub use sound::first_unsound;
