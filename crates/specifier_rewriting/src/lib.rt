//! Other specifiers at some of the sites of a parsed source.
//!
//! - `rewrite_specifiers(source, changes)`: the source's text with new string literals at these of its sites, each change the
//!   number of a site, from 0, and its new specifier: `rewrite_sites` of `specifier_edits`, with its clauses.
//! - A source that `parse_program` and its like answered has the tree of its text (`parsed_own`, `proofs/Theorems.antt`).
#![tactic(auto)]

mod rewrite;

pub use crate::rewrite::rewrite_specifiers;
