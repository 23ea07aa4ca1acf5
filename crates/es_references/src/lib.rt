//! Reference comments of TypeScript as the sites that they are (TypeScript Handbook, "Triple-Slash Directives").
//!
//! - `references(tokens, comments)`: the site of each comment before the first token, or between the shebang and the next
//!   token, that is `/// <reference path="a" />` or `/// <reference types="a" />` (`references_of`, `specs/References.antt`).
//!
//! A site's range is the value with its quotes. Each comment is gone through once; memory is the only cause of an `Err`.
#![tactic(auto)]

mod parts;
mod reference;
mod sites;

pub use crate::sites::references;
