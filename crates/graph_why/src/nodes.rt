//! Numbers for entries, and links for steps.
ghost use Rattle.std.specs.Prelude.{◌≡◌, ◌<◌, ◌∷◌, [], ◌++◌, ℕ, List, map, length, slice_index_or, option_map, IfOk, OnOk};
ghost use Rattle.std.specs.Option.{option_copied};
ghost use Rattle.std.specs.List.{filter_map};
ghost use Rattle.graph_entry.specs.Specifier.{text_of};
ghost use Rattle.graph_entry.specs.Entry.{edge_target};
ghost use Rattle.graph_builder.specs.Rules.{edges_of, has_types, is_followed, led_to};
ghost use Rattle.graph_builder.specs.Graph.{texts, entry_of};
ghost use Rattle.graph_why.specs.Nodes as spec;

use base::Items;
use graph_builder::{Following, ModuleGraph};
use graph_entry::{Dependency, Entry, Module};
use std::alloc::{AllocError, Global};
use url::Url;

/// For each entry, by its number, the numbers of the entries that its steps lead to; for a dependency that isn't followed, or leads to
/// no entry, the number after the last one. That one has no links.
pub fn links_of(
    alloc: Global,
    graph: &ModuleGraph,
    following: Following,
) -> Result<Items<Items<usize>>, AllocError>
    ensures { IfOk result (λ links. links ≡ spec.rows graph.now following) }
{
    let sink = count(alloc, graph)?;
    let mut links = Items::new(alloc);
    for number in 0..sink {
        links.push(entry_links(alloc, graph, following, sink, number)?)?;
    }
    links.push(Items::new(alloc))?;
    Ok(links)
}

/// How many entries there are.
pub fn count(alloc: Global, graph: &ModuleGraph) -> Result<usize, AllocError>
    ensures { IfOk result (λ count. count ≡ length graph.now.numbered) }
{
    let mut units = Items::new(alloc);
    for _ in graph.entries()? {
        units.push(0u8)?;
    }
    let count = units.len();
    // The proof learns from these that there are as many numbers.
    let _none = graph.numbered(count);
    let _last = graph.numbered(count.saturating_sub(1));
    Ok(count)
}

// The links of the entry with a number.
fn entry_links(
    alloc: Global,
    graph: &ModuleGraph,
    following: Following,
    sink: usize,
    number: usize,
) -> Result<Items<usize>, AllocError>
    requires { number < length graph.now.numbered }
    ensures { IfOk result (λ links. links ≡ spec.row_of graph.now.numbered sink following
        (entry_of graph.now.entries (slice_index_or (texts graph.now.numbered) number []))) }
{
    match graph.numbered(number) {
        Some(specifier) => specifier_links(alloc, graph, following, sink, specifier),
        None => unreachable!(),
    }
}

fn specifier_links(
    alloc: Global,
    graph: &ModuleGraph,
    following: Following,
    sink: usize,
    specifier: &Url,
) -> Result<Items<usize>, AllocError>
    ensures { IfOk result (λ links. links ≡ spec.row_of graph.now.numbered sink following
        (entry_of graph.now.entries (text_of specifier.now))) }
{
    match graph.entry(specifier) {
        Some(Entry::Redirect(target)) => redirect_links(alloc, graph, sink, target),
        Some(Entry::Module(held)) => module_links(alloc, graph, following, sink, held),
        Some(Entry::Package(_) | Entry::External | Entry::Error(_)) | None => Ok(Items::new(alloc)),
    }
}

// A redirect's link.
fn redirect_links(
    alloc: Global,
    graph: &ModuleGraph,
    sink: usize,
    target: &Url,
) -> Result<Items<usize>, AllocError>
    ensures { IfOk result (λ links. links ≡ spec.node_of graph.now.numbered sink (text_of target.now) ∷ []) }
{
    let mut links = Items::new(alloc);
    links.push(node_of(graph, sink, target))?;
    Ok(links)
}

// A module's links.
fn module_links(
    alloc: Global,
    graph: &ModuleGraph,
    following: Following,
    sink: usize,
    held: &Module,
) -> Result<Items<usize>, AllocError>
    ensures { IfOk result (λ links. links
        ≡ map (λ d. spec.node_there graph.now.numbered sink (led_to (is_followed following (has_types held.now)) d)) (edges_of held.now)) }
{
    let typed = is_typed_module(held);
    let all = edges(held);
    let mut links = Items::new(alloc);
    for dependency in all {
        links.push(node_by(graph, following, sink, typed, dependency))?;
    }
    Ok(links)
}

// The number of the entry that a dependency leads to, if it is followed and leads to one.
fn node_by(
    graph: &ModuleGraph,
    following: Following,
    sink: usize,
    typed: bool,
    dependency: &Dependency,
) -> usize
    ensures { result ≡ spec.node_there graph.now.numbered sink (led_to (is_followed following typed) dependency.now) }
{
    if !following.is_followed(typed, dependency) {
        return sink;
    }
    match target_of(dependency) {
        Some(target) => node_of(graph, sink, target),
        None => sink,
    }
}

// The number of a specifier's entry, if it has one.
fn node_of(graph: &ModuleGraph, sink: usize, specifier: &Url) -> usize
    ensures { result ≡ spec.node_of graph.now.numbered sink (text_of specifier.now) }
{
    match graph.number(specifier) {
        Some(number) => number,
        None => sink,
    }
}

/// The numbers of the graph's starts: its roots, and where referrer imports lead.
pub fn starts_of(alloc: Global, graph: &ModuleGraph) -> Result<Items<usize>, AllocError>
    ensures { IfOk result (λ nodes. nodes ≡ spec.start_nodes graph.now) }
{
    let sink = count(alloc, graph)?;
    let mut nodes = Items::new(alloc);
    for root in graph.roots() {
        nodes.push(node_of(graph, sink, root))?;
    }
    for place in graph.referrer_imports() {
        add_targets(&mut nodes, graph, sink, place.1.as_slice())?;
    }
    Ok(nodes)
}

// Adds the numbers of where these lead.
fn add_targets(
    nodes: &mut Items<usize>,
    graph: &ModuleGraph,
    sink: usize,
    dependencies: &[Dependency],
) -> Result<(), AllocError>
    ensures { OnOk result (nodes.new ≡ nodes.old
        ++ map (spec.node_of graph.now.numbered sink) (filter_map edge_target dependencies.now)) }
{
    for dependency in dependencies {
        if let Some(target) = target_of(dependency) {
            nodes.push(node_of(graph, sink, target))?;
        }
    }
    Ok(())
}

// The target of a dependency, if it has one.
fn target_of(dependency: &Dependency) -> Option<&Url>
    ensures { option_map text_of (option_copied result) ≡ edge_target dependency.now }
{
    match &dependency.resolution {
        Ok(target) => Some(target),
        Err(_) => None,
    }
}

/// The number of the dependency that is an entry's link at a place; `None` where the entry redirects.
pub fn dependency_of(graph: &ModuleGraph, specifier: &Url, place: usize) -> Option<usize>
    ensures { result ≡ spec.dependency_at (entry_of graph.now.entries (text_of specifier.now)) place }
{
    match graph.entry(specifier) {
        Some(Entry::Redirect(_)) => None,
        Some(Entry::Module(_) | Entry::Package(_) | Entry::External | Entry::Error(_)) | None =>
            Some(place),
    }
}

fn edges(held: &Module) -> &[Dependency]
    ensures { result.now ≡ edges_of held.now }
{
    match held {
        Module::Js(module) => module.dependencies.as_slice(),
        Module::Wasm(module) => module.dependencies.as_slice(),
        Module::Json(_) => &[],
    }
}

fn is_typed_module(held: &Module) -> bool
    ensures { result ≡ has_types held.now }
{
    match held {
        Module::Js(module) => module.media_type.is_typed(),
        Module::Json(_) | Module::Wasm(_) => false,
    }
}
