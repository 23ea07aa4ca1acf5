//! Which names a module exports at run time.
//!
//! - `analyze_es_runtime_exports`: the names that a program exports, in order (`exports_of`, `specs/Exports.antt`), and the
//!   modules whose names it exports again (`reexports_of`).
//! - `ModuleExportsAndReExports`: both lists.
//!
//! Linear in the items of the program and in the names that they bind; the rest of it isn't read.
#![tactic(auto)]

mod analysis;
mod body;
mod exports;
mod reexports;
mod tokens;

pub use analysis::{ModuleExportsAndReExports, analyze_es_runtime_exports};
