//! What becomes of the edges of a graph: which are followed, and what JSON is imported with.
ghost use Rattle.std.specs.Prelude.{◌≡◌};
ghost use Rattle.graph_builder.specs.Rules.{of_kind, is_source, is_place, is_untyped, is_dynamic, is_followed};

use graph_entry::{Dependency, DependencyKind, GraphKind};

/// Which edges are followed, and whether an import without an attribute may be of JSON.
#[derive(Clone, Copy)]
pub struct Following {
    pub kind: GraphKind,
    pub skip_dynamic_deps: bool,
    pub json_without_attribute: bool,
}

impl Following {
    /// Whether an edge of a module with types, or without, is followed.
    pub fn is_followed(self, typed: bool, dependency: &Dependency) -> bool
        ensures { result ≡ is_followed self typed dependency.now }
    {
        self.is_of_kind(typed, dependency)
            && !(self.skip_dynamic_deps && is_dynamic(dependency.kind))
    }

    fn is_of_kind(self, typed: bool, dependency: &Dependency) -> bool
        ensures { result ≡ of_kind self.kind typed dependency.now }
    {
        match self.kind {
            GraphKind::All => !is_place(dependency.kind),
            GraphKind::CodeOnly => !dependency.type_only && !is_place(dependency.kind),
            GraphKind::TypesOnly => typed && !is_untyped(dependency.kind),
        }
    }
}

/// Whether an edge takes the source of a module of WebAssembly.
pub fn is_source(kind: DependencyKind) -> bool
    ensures { result ≡ is_source kind }
{
    matches!(
        kind,
        DependencyKind::ImportSource | DependencyKind::DynamicSource
    )
}

/// Whether an edge names a place, so that nothing is read or run by it.
fn is_place(kind: DependencyKind) -> bool
    ensures { result ≡ is_place kind }
{
    matches!(
        kind,
        DependencyKind::RequireResolve | DependencyKind::Address
    )
}

/// Whether an edge leads to no types.
fn is_untyped(kind: DependencyKind) -> bool
    ensures { result ≡ is_untyped kind }
{
    matches!(
        kind,
        DependencyKind::ImportSource
            | DependencyKind::DynamicSource
            | DependencyKind::Require
            | DependencyKind::RequireResolve
            | DependencyKind::Worker
            | DependencyKind::Address
    )
}

fn is_dynamic(kind: DependencyKind) -> bool
    ensures { result ≡ is_dynamic kind }
{
    matches!(
        kind,
        DependencyKind::Dynamic
            | DependencyKind::DynamicSource
            | DependencyKind::DynamicDefer
            | DependencyKind::Worker
    )
}
