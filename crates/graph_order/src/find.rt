//! Finds an order of a graph's modules, or a cycle of its static edges.
ghost use Rattle.std.specs.Prelude.{◌≡◌, ◌<◌, length, map, slice_get, option_map, option_and_then, IfOk};
ghost use Rattle.std.specs.Option.{option_copied};
ghost use Rattle.std.specs.List.{AllByRecursion, filter_map};
ghost use Rattle.graph_entry.specs.Specifier.{text_of};
ghost use Rattle.graph_builder.specs.Graph.{IsAscending};
ghost use Rattle.topological_order.specs.Order as least;
ghost use Rattle.topological_order.specs.Order.{IsLink};
ghost use Rattle.graph_order.specs.Edges as spec;
ghost use Rattle.graph_order.specs.Order.{IsFound, edge_of};
ghost use Rattle.graph_order.specs.Nodes.{AreLed};
ghost use Rattle.graph_order.specs.Names.{name_of, named, named_at, sees, links_in, place_of, edges_there, edge_at, IsSorted, IsRound};

use crate::edges::{edges, static_target};
use crate::found::{CycleEdge, Order};
use crate::names::{links_of, names_of};
use crate::nodes::{led_of, node_of};
use base::Items;
use graph_builder::ModuleGraph;
use graph_entry::{Dependency, Entry};
use std::alloc::{AllocError, Global};
use topological_order::Found;
use url::Url;

/// The least order of the modules' specifiers by bytes in which each static edge leads to one before its own module's; where there is
/// none, the cycle of the walk that begins at the least module by bytes from which static edges lead to a cycle, and follows
/// each module's first such edge.
pub fn order(alloc: Global, graph: &ModuleGraph) -> Result<Order, AllocError>
    ensures { IfOk result (IsFound graph.now.entries) }
{
    let names = names_of(alloc, graph)?;
    let led = led_of(alloc, graph, names.as_slice())?;
    let links = links_of(alloc, graph, led.as_slice())?;
    let targets = links.as_slice();
    let found = topological_order::order(alloc, targets)?;
    told(alloc, graph, names.as_slice(), led.as_slice(), found)
}

// What was found of the numbers, in terms of the modules.
fn told(
    alloc: Global,
    graph: &ModuleGraph,
    names: &[&Url],
    led: &[Option<usize>],
    found: Found,
) -> Result<Order, AllocError>
    requires named { named_at names.now ≡ named graph.now.entries }
    requires led { AreLed graph.now led.now }
    requires ascending { IsAscending graph.now.entries }
    requires found { least.IsFound (links_in (named graph.now.entries) graph.now.entries) found }
    ensures { IfOk result (IsFound graph.now.entries) }
{
    match found {
        Found::Order(nodes) => sorted(alloc, names, nodes.as_slice()),
        Found::Cycle(links) => cycle(alloc, graph, names, led, links.as_slice()),
    }
}

// The order of these modules.
fn sorted(alloc: Global, names: &[&Url], nodes: &[usize]) -> Result<Order, AllocError>
    requires { AllByRecursion (λ v. v < length names.now) nodes.now }
    ensures { IfOk result (IsSorted (map (name_of (named_at names.now)) nodes.now)) }
{
    let mut urls = Items::new(alloc);
    for node in nodes {
        urls.push(url_of(names, *node).clone()?)?;
    }
    Ok(Order::Sorted(urls))
}

// The specifier of a module.
fn url_of<'a>(names: &[&'a Url], node: usize) -> &'a Url
    requires { node < length names.now }
    ensures { text_of result.now ≡ name_of (named_at names.now) node }
{
    names[node]
}

// The cycle of these links.
fn cycle(
    alloc: Global,
    graph: &ModuleGraph,
    names: &[&Url],
    led: &[Option<usize>],
    links: &[(usize, usize)],
) -> Result<Order, AllocError>
    requires named { named_at names.now ≡ named graph.now.entries }
    requires led { AreLed graph.now led.now }
    requires ascending { IsAscending graph.now.entries }
    requires links { AllByRecursion (IsLink (links_in (named graph.now.entries) graph.now.entries)) links.now }
    ensures { IfOk result (IsRound (map (edge_at graph.now.entries) links.now)) }
{
    let mut cycle = Items::new(alloc);
    for link in links {
        cycle.push(cycle_edge(graph, names, led, link.0, link.1)?)?;
    }
    Ok(Order::Cycle(cycle))
}

// The edge that is a module's link with this number.
fn cycle_edge(
    graph: &ModuleGraph,
    names: &[&Url],
    led: &[Option<usize>],
    node: usize,
    link: usize,
) -> Result<CycleEdge, AllocError>
    requires named { named_at names.now ≡ named graph.now.entries }
    requires led { AreLed graph.now led.now }
    requires ascending { IsAscending graph.now.entries }
    requires link { IsLink (links_in (named graph.now.entries) graph.now.entries) (node, link) }
    ensures { IfOk result (λ e. edge_of e ≡ edge_at graph.now.entries (node, link)) }
{
    let module = url_of(names, node).clone()?;
    let all = edges_at(graph, &module);
    let dependency = nth_static(graph, led, all, link);
    match target_of(graph, all, dependency) {
        Some(target) => Ok(CycleEdge {
            target: target.clone()?,
            module,
            dependency,
        }),
        None => unreachable!(),
    }
}

// The edges of the module at a specifier.
fn edges_at<'a>(graph: &'a ModuleGraph, specifier: &Url) -> &'a [Dependency]
    ensures { result.now ≡ edges_there graph.now.entries (text_of specifier.now) }
{
    match graph.entry(specifier) {
        Some(Entry::Module(held)) => edges(held),
        _ => &[],
    }
}

// Where the edge at a place leads, if it is static.
fn target_of<'a>(graph: &'a ModuleGraph, all: &'a [Dependency], place: usize) -> Option<&'a Url>
    ensures { option_map text_of (option_copied result)
        ≡ option_and_then (spec.static_target graph.now.entries) (slice_get all.now place) }
{
    static_target(graph, all.get(place)?)
}

// The place of a static edge among all edges, by its place among the static ones.
fn nth_static(graph: &ModuleGraph, led: &[Option<usize>], edges: &[Dependency], nth: usize) -> usize
    requires led { AreLed graph.now led.now }
    requires nth { nth < length (filter_map (sees (named graph.now.entries) graph.now.entries) edges.now) }
    ensures { result ≡ place_of (sees (named graph.now.entries) graph.now.entries) edges.now nth }
{
    let mut left = nth;
    for place in 0..edges.len() {
        if node_of(graph, led, &edges[place]).is_some() {
            if left == 0 {
                return place;
            }
            left -= 1;
        }
    }
    unreachable!()
}
