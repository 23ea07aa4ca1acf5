//! The places where a program names other modules, straight from its plain tree, which is a row of entries
//! (`es_syntax`): no typed tree is built.
//!
//! - `tree_sites(alloc, text, tokens, entries)`: exactly the sites that `plain_sites` of `es_law_sites::plain` finds in the trees
//!   that the row is, in the order of the text. What a reader of programs keeps of a text is a row of one tree, which has a
//!   typed tree with the same sites (`es_law_programs::sites`).
//!
//! Out of memory is the only cause of an `Err`. The walk loops from one node that can name a module to the next; what is left
//! at each level is on a stack.
#![tactic(auto)]

mod attribute;
mod named;
mod options;
mod plan;
mod search;
mod source;
mod walk;

pub use walk::tree_sites;
