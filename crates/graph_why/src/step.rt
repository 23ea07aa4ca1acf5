//! Steps between entries.
use url::Url;

/// A step from an entry to another one.
#[derive(Debug, Drop)]
pub struct Step {
    pub from: Url,
    /// The number of the module's dependency, from 0; `None` where the entry redirects.
    pub dependency: Option<usize>,
    pub to: Url,
}

/// What is left out of a graph.
#[derive(Debug, Drop)]
pub enum Without {
    /// The entry of a specifier, with all steps from it and to it.
    Entry(Url),
    /// The dependency of a module with this number, from 0; number 0 of an entry that redirects is its redirect.
    Edge(Url, usize),
}
