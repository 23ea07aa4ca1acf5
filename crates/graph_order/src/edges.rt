//! Static edges.
ghost use Rattle.std.specs.Prelude.{◌≡◌, bytes_eq, slice_get, option_map, option_and_then};
ghost use Rattle.std.specs.Option.{option_copied};
ghost use Rattle.graph_entry.specs.Specifier.{text_of};
ghost use Rattle.graph_builder.specs.Rules.{edges_of};
ghost use Rattle.graph_builder.specs.Graph.{entry_of, module_of};
ghost use Rattle.graph_order.specs.Edges as spec;

use graph_builder::ModuleGraph;
use graph_entry::{Dependency, DependencyKind, Entry, Module};
use url::Url;

/// The edges of a module.
pub fn edges(held: &Module) -> &[Dependency]
    ensures { result.now ≡ edges_of held.now }
{
    match held {
        Module::Js(module) => module.dependencies.as_slice(),
        Module::Wasm(module) => module.dependencies.as_slice(),
        Module::Json(_) => &[],
    }
}

/// The module at a specifier, if there is one.
pub fn module_at<'a>(graph: &'a ModuleGraph, specifier: &Url) -> Option<&'a Module>
    ensures { option_copied result ≡ option_and_then module_of (entry_of graph.now.entries (text_of specifier.now)) }
{
    match graph.entry(specifier) {
        Some(Entry::Module(held)) => Some(held),
        _ => None,
    }
}

/// The edge of a module with this number.
pub fn nth_edge(held: &Module, number: usize) -> Option<&Dependency>
    ensures { option_copied result ≡ slice_get (edges_of held.now) number }
{
    edges(held).get(number)
}

/// Whether two specifiers are one.
#[tactic(auto, unfolding(graph_entry::specs::Specifier::text_of))]
pub fn is_same(a: &Url, b: &Url) -> bool
    ensures { result ≡ bytes_eq (text_of a.now) (text_of b.now) }
{
    a.as_str() == b.as_str()
}

/// The specifier of the module that an edge leads to, if it is static and leads to one.
pub fn static_target<'a>(graph: &'a ModuleGraph, edge: &'a Dependency) -> Option<&'a Url>
    ensures { option_map text_of (option_copied result) ≡ spec.static_target graph.now.entries edge.now }
{
    if !is_static(edge) {
        return None;
    }
    match &edge.resolution {
        Ok(target) => module_there(graph, target),
        Err(_) => None,
    }
}

/// Whether an edge leads to what runs first.
pub fn is_static(edge: &Dependency) -> bool
    ensures { result ≡ spec.is_static edge.now }
{
    is_static_kind(edge.kind) && !edge.type_only
}

fn is_static_kind(kind: DependencyKind) -> bool
    ensures { result ≡ spec.is_static_kind kind }
{
    matches!(
        kind,
        DependencyKind::Import
            | DependencyKind::ImportSource
            | DependencyKind::Export
            | DependencyKind::ImportEquals
            | DependencyKind::Wasm
    )
}

// The specifier of the module that a specifier leads to.
fn module_there<'a>(graph: &'a ModuleGraph, specifier: &'a Url) -> Option<&'a Url>
    ensures { option_map text_of (option_copied result) ≡ spec.module_there graph.now.entries (text_of specifier.now) }
{
    match graph.get(specifier) {
        Some(_) => Some(graph.resolve(specifier)),
        None => None,
    }
}
