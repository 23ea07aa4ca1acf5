//! The analysis of modules by the parser: what `graph_entry` makes of one answer, where sources are read by `source_sites`.
//!
//! - `ParserModuleAnalyzer`: reads exactly the sites of a source, or its first fault (`ReadsSource` of `graph_entry`).
//! - `analyse(specifier, answer)`: the entry that a loader's answer makes (`Analysed` of `graph_entry`).
//! - `analyse_unasked(specifier)`: the same where no loader is asked for the specifier.
//!
//! It depends on the readers of the grammar, so that `graph_entry` and the builder over it needn't.

mod analysis;
mod analyzer;

pub use crate::analyzer::analysis::{analyse, analyse_unasked};
pub use crate::analyzer::analyzer::ParserModuleAnalyzer;
