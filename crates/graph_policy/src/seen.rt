//! What a rule sees of a graph.

/// What a rule sees of a module.
#[derive(Clone, Copy, Debug)]
pub struct SeenModule<'a> {
    pub specifier: &'a str,
    /// Without `:`.
    pub scheme: &'a str,
    /// Without the port.
    pub host: Option<&'a str>,
    /// Of a package's reference its name, such as `@types/node`; the registry is the scheme.
    pub package_name: Option<&'a str>,
}

/// What a rule sees of an edge.
#[derive(Clone, Copy, Debug)]
pub struct SeenEdge<'a> {
    pub from: SeenModule<'a>,
    /// The target; `None` for an edge that doesn't resolve.
    pub to: Option<SeenModule<'a>>,
    /// The specifier as the module has it.
    pub text: &'a str,
    /// The word for the kind.
    pub kind: &'a str,
    pub type_only: bool,
    pub dynamic: bool,
}

/// What a rule sees of an entry.
#[derive(Clone, Copy, Debug)]
pub struct SeenEntry<'a> {
    pub own: SeenModule<'a>,
    /// Its edges; `None` for an entry that is no module.
    pub edges: Option<&'a [SeenEdge<'a>]>,
}

#[derive(Clone, Copy, Debug)]
pub enum Seen<'a> {
    Entry(SeenEntry<'a>),
    Edge(SeenEdge<'a>),
}
