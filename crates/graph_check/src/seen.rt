//! What the rules see of a graph.
ghost use Rattle.std.specs.Prelude.{◌≡◌, Some, map, option_map, IfOk};
ghost use Rattle.std.specs.Option.{option_copied};
ghost use Rattle.std.specs.Result.{result_ok};
ghost use Rattle.graph_entry.specs.Specifier.{text_of};
ghost use Rattle.graph_policy.specs.Seen.{module_texts, edge_texts};
ghost use Rattle.graph_check.specs.SeenGraph as spec;

use graph_builder::ModuleGraph;
use graph_entry::{Dependency, DependencyKind, Entry};
use graph_policy::{SeenEdge, SeenModule};
use graph_report::kind_name;
use std::alloc::{AllocError, Global};
use url::Url;

/// A specifier, with what the graph has there.
#[tactic(auto, unfolding(graph_entry::specs::Specifier::text_of))]
pub fn module_seen<'a>(specifier: &'a Url, entry: Option<&'a Entry>) -> SeenModule<'a>
    ensures { module_texts result ≡ spec.module_seen specifier.now (option_copied entry.entry) }
{
    SeenModule {
        specifier: specifier.as_str(),
        scheme: specifier.scheme(),
        host: specifier.host_str(),
        package_name: package_name(entry),
    }
}

fn package_name<'a>(entry: Option<&'a Entry>) -> Option<&'a str>
    ensures { option_copied result ≡ spec.name_of_package (option_copied entry.entry) }
{
    match entry {
        Some(Entry::Package(package)) => Some(package.name.as_str()),
        _ => None,
    }
}

/// A specifier in the graph.
pub fn module_in<'a>(graph: &'a ModuleGraph, specifier: &'a Url) -> SeenModule<'a>
    ensures { module_texts result ≡ spec.module_in graph.now specifier.now }
{
    module_seen(specifier, graph.entry(specifier))
}

/// An edge of this module.
pub fn edge_seen<'a>(
    graph: &'a ModuleGraph,
    from: SeenModule<'a>,
    edge: &'a Dependency,
) -> SeenEdge<'a>
    ensures { edge_texts result ≡ spec.edge_seen graph.now (module_texts from.entry) edge.now }
{
    SeenEdge {
        from,
        to: target_of(graph, edge),
        text: edge.text.as_str(),
        kind: kind_name(edge.kind, edge.type_only),
        type_only: edge.type_only,
        dynamic: is_dynamic(edge.kind),
    }
}

/// The edges of a module.
pub fn edges_seen<'a>(
    alloc: Global,
    graph: &'a ModuleGraph,
    from: &'a Url,
    edges: &'a [Dependency],
) -> Result<Vec<SeenEdge<'a>>, AllocError>
    ensures { IfOk result (λ seen. map edge_texts seen.items
        ≡ map (spec.edge_seen graph.now (spec.module_in graph.now from.now)) edges.now) }
{
    let own = module_in(graph, from);
    let mut seen = Vec::new(alloc);
    for dependency in edges {
        seen.push(edge_seen(graph, own, dependency))?;
    }
    Ok(seen)
}

fn target_of<'a>(graph: &'a ModuleGraph, edge: &'a Dependency) -> Option<SeenModule<'a>>
    ensures { option_map module_texts result ≡ option_map (spec.module_in graph.now) (result_ok edge.now.resolution) }
{
    match &edge.resolution {
        Ok(target) => Some(module_in(graph, target)),
        Err(_) => None,
    }
}

fn is_dynamic(kind: DependencyKind) -> bool
    ensures { result ≡ spec.is_dynamic kind }
{
    matches!(
        kind,
        DependencyKind::Dynamic | DependencyKind::DynamicSource | DependencyKind::DynamicDefer
    )
}
