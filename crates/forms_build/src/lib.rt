//! Bundles with choices, of which some are that further forms are edges too, one that all forms are read, and one where
//! `require` leads, and their graphs.
//!
//! - `take_forms(alloc, bytes)`: the bundle that a JSON text says (`forms_of`, `specs/Bundle.antt`), or the pointer to the
//!   first thing for which it says none.
//! - `forms_in`, `forms_with::<K>`, `FormsKeys`: what reads it, for objects with more keys.
//! - `FormsResolver`: resolves edges of `require` by a map of their own (`kind_resolving`, `specs/Resolver.antt`).
//! - `build_forms(rt, alloc, forms, batch)`: the graph of such a bundle (`IsGraphOf`, `specs/Forms.antt`), or that more is
//!   reached than its limit. Its modules are analysed in batches, in threads.
#![tactic(auto)]

mod build;
mod bundle;
mod resolver;

pub use build::build_forms;
pub use bundle::{FormsBundle, FormsKeys, forms_in, forms_with, take_forms};
pub use resolver::FormsResolver;
