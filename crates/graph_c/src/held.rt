//! What a handle of C's points to.
use deno_graph::ParserModuleAnalyzer;
use graph_session::Session;

/// A graph under construction, whose sources the parser reads.
#[derive(Drop)]
pub struct Held {
    pub session: Session<ParserModuleAnalyzer>,
}
