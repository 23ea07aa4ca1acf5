/// Which edges of a graph are followed.
#[derive(Clone, Copy, Debug, PartialEq, Eq)]
pub enum GraphKind {
    /// Every edge but those that name a place.
    All,
    /// The edges that a running program takes.
    CodeOnly,
    /// The edges of typed modules.
    TypesOnly,
}
