//! What to build.
use base::Items;
use graph_entry::{GraphKind, ReferrerImports};

/// What to build: which edges to follow, and how many modules to allow.
#[derive(Drop)]
pub struct BuildOptions {
    pub kind: GraphKind,
    /// How many specifiers the graph may have, those with an error counted.
    pub limit: usize,
    pub skip_dynamic_deps: bool,
    /// What places outside the graph import. The graph has their edges, and starts at their targets too.
    pub imports: Items<ReferrerImports>,
}
