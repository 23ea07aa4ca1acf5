//! Modules of sources that were parsed: what `graph_entry` makes of their sites.
//!
//! - `parse_module_from_ast(options)`: the module of a source that was parsed, at a specifier (`js_module` of `graph_entry`,
//!   over `parsed_sites` of `deno_ast`).
//! - `module_info(parsed)`: what such a source names.
//! - `rewrite_specifiers` of `specifier_rewriting` is handed on: such a source with other specifiers at some of its sites.
//!
//! It depends on the parser of typed trees, so that the graph itself needn't.
#![tactic(auto)]

mod parsed;

pub use crate::parsed::{ParseModuleFromAstOptions, module_info, parse_module_from_ast};
pub use deno_ast::ParsedSource;
pub use specifier_rewriting::rewrite_specifiers;
