//! What a program exports as a module of CommonJS.
//!
//! - `analyze_cjs`: the names that a program exports, and the modules whose names it exports again (`AreExports` of `cjs_facts`).
#![tactic(auto)]

mod analysis;
pub mod names;

pub use analysis::analyze_cjs;
