//! What a program exports as a module of CommonJS, of what is found in it: two lists, each ascending by bytes.
//!
//! - `export_names`: the names that are exported, and the modules that are exported again (`AreNames` of `cjs_facts`).

mod names;

pub use names::export_names;
