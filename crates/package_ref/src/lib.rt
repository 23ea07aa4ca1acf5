//! References to packages, as `npm:chalk@5` and `jsr:@std/path@^1/posix`.
//!
//! - `parse_package_ref(url)`: the record that the grammar derives from the URL's text (`IsReference`,
//!   `specs/Reference.antt`), or `NotAReference` exactly where it derives none, unless memory runs out. It is read with the
//!   combinators of `monch`.
//! - `PackageRef::copy`: an equal value.
//!
//! A text has at most one record (`one_reference`, `proofs/Theorems.antt`). Not promised: what `Display` and `Debug`
//! write, and when memory runs out.
#![tactic(auto)]

mod error;
mod grammar;
mod parse;
mod reference;

pub use crate::error::PackageError;
pub use crate::parse::parse_package_ref;
pub use crate::reference::{PackageKind, PackageRef};
