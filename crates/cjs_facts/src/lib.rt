//! What a program exports as a module of CommonJS, as its facts tell: definitions, and what is found on the way.
//!
//! - `facts_of` (`specs/Facts.antt`): the facts of a program, in the order of the text.
//! - `found_in`, `AreExports` (`specs/Exports.antt`): what the facts tell.
//! - `Found`, `Var`: what is found by now.
#![tactic(auto)]

mod found;

pub use found::{Found, Var};
