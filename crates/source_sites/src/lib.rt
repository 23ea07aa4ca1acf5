//! The sites of a source: where a text names other modules, or why it is no program. No typed tree is built.
//!
//! - `read_sites(alloc, specifier, text, media_type)`: the sites of a text (`HasSites`, `specs/Read.antt`), or its fault
//!   (`IsFaultAt`, `specs/Fault.antt`). `token_sites(alloc, media_type, text, tokens)`: the same of tokens at hand.
//!   `read_sites_in`, `token_sites_in`: in a language that the caller names.
//! - `references_in`: what comments of typed sources refer to; `modes_of`, `language_of`: how a media type is read.
//! - A text of a media type has sites, or it is faulty, one list or one fault at most, and never both; each site cuts its
//!   value (`proofs/Theorems.antt`).
//!
//! The definitions speak of the typed tree that is derived from the tokens: a text whose tokens are read as a plain tree
//! has it, and its sites are those of the plain tree (`es_law_programs::sites`).
//! Not promised: the range of a `Syntax` fault, and when memory runs out.
#![tactic(auto)]

mod fault;
mod modes;
mod references;
mod sites;

pub use crate::fault::{lexical_fault, syntax_fault};
pub use crate::modes::{Modes, language_of, modes_of};
pub use crate::references::{references_in, with_sites};
pub use crate::sites::{read_sites, read_sites_in, token_sites, token_sites_in};
