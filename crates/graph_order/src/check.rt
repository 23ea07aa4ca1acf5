//! Whether a list is an order of a graph's modules, and whether edges are a cycle.
ghost use Rattle.std.specs.Prelude.{◌≡◌, ◌↔◌, true, map, Some, IfOk};
ghost use Rattle.std.specs.List.{AllByRecursion};
ghost use Rattle.graph_builder.specs.ByText.{keys_at};
ghost use Rattle.graph_entry.specs.Specifier.{text_of};
ghost use Rattle.graph_builder.specs.Graph.{texts, IsAscending};
ghost use Rattle.graph_builder.specs.Rules.{edges_of};
ghost use Rattle.graph_order.specs.Edges.{IsStaticEdge, static_target};
ghost use Rattle.graph_order.specs.Order.{IsFree, IsOrder, IsChain, IsCycle, AreApart, modules, edge_of};
ghost use Rattle.graph_order.specs.Names.{LeadsTo, LeadsSo, GoesOn, HoldsEach};

use crate::edges::{edges, is_same, module_at, nth_edge, static_target};
use crate::found::CycleEdge;
use crate::names::{add_name, number};
use graph_builder::ModuleGraph;
use graph_entry::{Dependency, Entry, Module};
use graph_tables::specifier_table::Numbered;
use std::alloc::{AllocError, Global};
use url::Url;

/// Whether the list is an order of the graph's modules: all their specifiers, each once, in which each static edge leads to
/// one before its own module's.
pub fn check_order(alloc: Global, graph: &ModuleGraph, list: &[Url]) -> Result<bool, AllocError>
    ensures { IfOk result (λ yes. (yes ≡ true) ↔ IsOrder graph.now.entries (texts list.now)) }
{
    let mut placed = Numbered::new(alloc);
    for url in list {
        if !may_stand(graph, &placed, url) {
            return Ok(false);
        }
        add_name(&mut placed, url)?;
    }
    has_all(graph, &placed)
}

// Whether a module may come after these.
fn may_stand(graph: &ModuleGraph, placed: &Numbered<()>, url: &Url) -> bool
    ensures { (result ≡ true) ↔ IsFree graph.now.entries (keys_at placed.now) (text_of url.now) }
{
    if number(placed, url).is_some() {
        return false;
    }
    match module_at(graph, url) {
        Some(held) => leads_back(graph, placed, held),
        None => false,
    }
}

// Whether all static edges of a module lead to these.
fn leads_back(graph: &ModuleGraph, placed: &Numbered<()>, held: &Module) -> bool
    ensures { (result ≡ true) ↔ AllByRecursion (LeadsTo graph.now.entries (keys_at placed.now)) (edges_of held.now) }
{
    let all = edges(held);
    for edge in all {
        if !leads_to(graph, placed, edge) {
            return false;
        }
    }
    true
}

fn leads_to(graph: &ModuleGraph, placed: &Numbered<()>, edge: &Dependency) -> bool
    ensures { (result ≡ true) ↔ LeadsTo graph.now.entries (keys_at placed.now) edge.now }
{
    match static_target(graph, edge) {
        Some(target) => number(placed, target).is_some(),
        None => true,
    }
}

// Whether all modules are among these.
fn has_all(graph: &ModuleGraph, placed: &Numbered<()>) -> Result<bool, AllocError>
    ensures each { IfOk result (λ yes. (yes ≡ true) ↔ HoldsEach (keys_at placed.now) graph.now.entries) }
    ensures ascending { IsAscending graph.now.entries }
{
    for (specifier, entry) in graph.entries()? {
        if let Entry::Module(_) = entry {
            if number(placed, specifier).is_none() {
                return Ok(false);
            }
        }
    }
    Ok(true)
}

/// Whether the edges are a cycle: static edges that lead from the first one's module back to it, over different modules.
pub fn check_cycle(
    alloc: Global,
    graph: &ModuleGraph,
    edges: &[CycleEdge],
) -> Result<bool, AllocError>
    ensures { IfOk result (λ yes. (yes ≡ true) ↔ IsCycle graph.now.entries (map edge_of edges.now)) }
{
    match edges.first() {
        Some(first) if is_chain(graph, edges, &first.module) => are_apart(alloc, edges),
        _ => Ok(false),
    }
}

// Whether the edges are static ones that lead from a module back to it.
fn is_chain(graph: &ModuleGraph, edges: &[CycleEdge], first: &Url) -> bool
    ensures { (result ≡ true) ↔ IsChain graph.now.entries (text_of first.now) (map edge_of edges.now) (text_of first.now) }
{
    let mut at = first;
    for edge in edges {
        if !goes_on(graph, edge, at) {
            return false;
        }
        at = &edge.target;
    }
    is_same(at, first)
}

// Whether an edge is a static one, of the module at this specifier.
fn goes_on(graph: &ModuleGraph, edge: &CycleEdge, at: &Url) -> bool
    ensures { (result ≡ true) ↔ GoesOn graph.now.entries (text_of at.now) (edge_of edge.now) }
{
    is_same(&edge.module, at) && is_static_edge(graph, edge)
}

fn is_static_edge(graph: &ModuleGraph, edge: &CycleEdge) -> bool
    ensures { (result ≡ true) ↔ IsStaticEdge graph.now.entries (edge_of edge.now) }
{
    match module_at(graph, &edge.module) {
        Some(held) => leads_so(graph, held, edge),
        None => false,
    }
}

// Whether the module's dependency leads to the edge's target.
fn leads_so(graph: &ModuleGraph, held: &Module, edge: &CycleEdge) -> bool
    ensures { (result ≡ true) ↔ LeadsSo graph.now.entries (edges_of held.now) (edge_of edge.now) }
{
    match nth_edge(held, edge.dependency) {
        Some(dependency) => leads_there(graph, dependency, &edge.target),
        None => false,
    }
}

// Whether an edge is static and leads to this module.
fn leads_there(graph: &ModuleGraph, edge: &Dependency, target: &Url) -> bool
    ensures { (result ≡ true) ↔ (static_target graph.now.entries edge.now ≡ Some (text_of target.now)) }
{
    match static_target(graph, edge) {
        Some(found) => is_same(found, target),
        None => false,
    }
}

// Whether no two edges have the same module.
fn are_apart(alloc: Global, edges: &[CycleEdge]) -> Result<bool, AllocError>
    ensures { IfOk result (λ yes. (yes ≡ true) ↔ AreApart (modules (map edge_of edges.now))) }
{
    let mut met = Numbered::new(alloc);
    for edge in edges {
        if number(&met, &edge.module).is_some() {
            return Ok(false);
        }
        add_name(&mut met, &edge.module)?;
    }
    Ok(true)
}
