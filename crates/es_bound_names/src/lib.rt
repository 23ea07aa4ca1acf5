//! The names that patterns and declarations bind (ECMA-262, "Static Semantics: BoundNames"), by the views of a row of entries.
//!
//! - `pat_names`, `marked_names`: the names of a pattern (`bound_names`, `specs/Names.antt`).
//! - `decl_names`: the names that a declaration binds at run time (`declared_names`).
//! - `Names`: names that are found, and whether memory ran out on the way.
//! - `part_in`, `token_at`, `cut`: a turn's first part, a token by its number, and its text.
//!
//! A name is the text as it is spelled. The tokens cut the text between characters (`IsCut`, `specs/Cuts.antt`). A walk
//! fails only where an allocation does.
#![tactic(auto)]

mod decls;
mod names;
mod pats;

pub use decls::decl_names;
pub use names::{Names, cut, token_at};
pub use pats::{marked_names, part_in, pat_names};
