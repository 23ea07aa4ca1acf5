//! Other specifiers at some of the sites of a text.
//!
//! - `rewrite_sites(text, sites, changes)`: the text with new string literals at these of its sites (`edits`,
//!   `specs/Edits.antt`), each change the number of a site, from 0, and its new specifier. It is read as the old tokens and
//!   comments, moved (`ReadsMoved`); where a site moved to, there is a literal of its new specifier (`CutsSpecifiers`); its
//!   tree is the old one, moved, with the new literals, and so are its sites, with their attributes, while those in comments
//!   stay (`KeepsSites`).
//! - `name_literals(sites, changes)`: whether the numbers ascend, each that of a literal (`NamesLiterals`).
//! - `first_fault(sites, changes)`: the first number that doesn't, and why (`IsFirstFault`, `specs/Faults.antt`).
//!
//! Not promised: when memory runs out.
#![tactic(auto)]

mod numbers;
pub mod records;
mod rewrite;

pub use crate::numbers::{ChangeFault, first_fault, name_literals};
pub use crate::rewrite::rewrite_sites;
