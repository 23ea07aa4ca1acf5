//! Finds paths, and what is gone without an entry or an edge.
ghost use Rattle.std.specs.Prelude.{◌≡◌, ◌<◌, Some, length, map, IfOk, MatchOption};
ghost use Rattle.std.specs.List.{AllByRecursion};
ghost use Rattle.graph_entry.specs.Specifier.{text_of};
ghost use Rattle.graph_builder.specs.Graph.{texts, number_in};
ghost use Rattle.graph_why.specs.declared.step.Without as out;
ghost use Rattle.graph_why.specs.Why.{IsWhy, AreGone, step_of};
ghost use Rattle.graph_why.specs.Nodes.{IsLow, IsLeft, IsAbsent, name, names_below, step_at};

use crate::nodes::{count, dependency_of, links_of, starts_of};
use crate::step::{Step, Without};
use base::Items;
use graph_builder::{Following, ModuleGraph};
use shortest_paths::{gone_without as gone_nodes, shortest};
use std::alloc::{AllocError, Global};
use url::Url;

/// A shortest path of followed edges and redirects from a start of the graph to the specifier's entry: no steps where it is a start
/// itself; `None` where no path leads there, and so where it has no entry. Of the shortest paths it is the one that a search breadth
/// first finds, which takes starts, and the edges of each module, in their order.
pub fn why(
    alloc: Global,
    graph: &ModuleGraph,
    following: Following,
    specifier: &Url,
) -> Result<Option<Items<Step>>, AllocError>
    ensures { IfOk result (IsWhy graph.now following (text_of specifier.now)) }
{
    match graph.number(specifier) {
        Some(node) => why_node(alloc, graph, following, node),
        None => Ok(None),
    }
}

// The same for the entry with a number.
fn why_node(
    alloc: Global,
    graph: &ModuleGraph,
    following: Following,
    node: usize,
) -> Result<Option<Items<Step>>, AllocError>
    requires { number_in graph.now.numbered (name graph.now node) ≡ Some node }
    ensures { IfOk result (IsWhy graph.now following (name graph.now node)) }
{
    let links = links_of(alloc, graph, following)?;
    let starts = starts_of(alloc, graph)?;
    let targets = links.as_slice();
    let begun = starts.as_slice();
    let found = shortest(alloc, targets, begun, node)?;
    match found {
        Some(path) => Ok(Some(steps(alloc, graph, targets, path.as_slice())?)),
        None => Ok(None),
    }
}

// The steps of these links.
fn steps(
    alloc: Global,
    graph: &ModuleGraph,
    links: &[Items<usize>],
    path: &[(usize, usize)],
) -> Result<Items<Step>, AllocError>
    requires { AllByRecursion (IsLow links.now (length graph.now.numbered)) path.now }
    ensures { IfOk result (λ steps. map step_of steps ≡ map (step_at graph.now links.now) path.now) }
{
    let mut steps = Items::new(alloc);
    for link in path {
        steps.push(step(graph, links, link.0, link.1)?)?;
    }
    Ok(steps)
}

// The step of the link of a node at a place.
fn step(
    graph: &ModuleGraph,
    links: &[Items<usize>],
    node: usize,
    place: usize,
) -> Result<Step, AllocError>
    requires { IsLow links.now (length graph.now.numbered) (node, place) }
    ensures { IfOk result (λ s. step_of s ≡ step_at graph.now links.now (node, place)) }
{
    let targets = links[node].as_slice();
    let from = named(graph, node);
    let to = named(graph, targets[place]);
    Ok(Step {
        from: from.clone()?,
        dependency: dependency_of(graph, from, place),
        to: to.clone()?,
    })
}

// The specifier with a number.
fn named(graph: &ModuleGraph, node: usize) -> &Url
    requires { node < length graph.now.numbered }
    ensures { text_of result.now ≡ name graph.now node }
{
    match graph.numbered(node) {
        Some(specifier) => specifier,
        None => unreachable!(),
    }
}

/// The specifiers of the entries to which paths lead, and to which none leads without this entry or this edge, by their numbers. Without an
/// entry that is reached, it is itself among them.
pub fn gone_without(
    alloc: Global,
    graph: &ModuleGraph,
    following: Following,
    without: &Without,
) -> Result<Items<Url>, AllocError>
    ensures { IfOk result (λ gone. AreGone graph.now following without.now (texts gone)) }
{
    match left_out(graph, without) {
        Some(left) => gone_by_numbers(alloc, graph, following, left),
        None => Ok(Items::new(alloc)),
    }
}

// The same for what is left out by numbers.
fn gone_by_numbers(
    alloc: Global,
    graph: &ModuleGraph,
    following: Following,
    left: shortest_paths::Without,
) -> Result<Items<Url>, AllocError>
    ensures { IfOk result (λ gone. (w : out.Without) → IsLeft graph.now (Some w) left → AreGone graph.now following w (texts gone)) }
{
    let links = links_of(alloc, graph, following)?;
    let starts = starts_of(alloc, graph)?;
    let targets = links.as_slice();
    let begun = starts.as_slice();
    let gone = gone_nodes(alloc, targets, begun, left)?;
    let nodes = gone.as_slice();
    names_of(alloc, graph, nodes)
}

// What is left out, by numbers, if the graph has its entry.
fn left_out(graph: &ModuleGraph, without: &Without) -> Option<shortest_paths::Without>
    ensures { MatchOption result (IsAbsent graph.now without.now) (IsLeft graph.now (Some without.now)) }
{
    match without {
        Without::Entry(specifier) => match graph.number(specifier) {
            Some(node) => Some(shortest_paths::Without::Node(node)),
            None => None,
        },
        Without::Edge(specifier, place) => match graph.number(specifier) {
            Some(node) => Some(shortest_paths::Without::Link(node, *place)),
            None => None,
        },
    }
}

// The specifiers with those of these numbers that are entries'.
fn names_of(alloc: Global, graph: &ModuleGraph, nodes: &[usize]) -> Result<Items<Url>, AllocError>
    ensures { IfOk result (λ urls. texts urls ≡ names_below graph.now nodes.now) }
{
    let count = count(alloc, graph)?;
    let mut urls = Items::new(alloc);
    for node in nodes {
        if *node < count {
            urls.push(named(graph, *node).clone()?)?;
        }
    }
    Ok(urls)
}
