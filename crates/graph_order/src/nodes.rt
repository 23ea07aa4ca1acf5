//! The numbers of modules at the numbers that the graph gave to their specifiers, so that each edge's target is looked up once.
ghost use Rattle.std.specs.Prelude.{◌≡◌, ◌<◌, ℕ, List, Some, None, length, slice_index_or, slice_set, IfOk};
ghost use Rattle.std.specs.Option.{option_copied};
ghost use Rattle.graph_entry.specs.Specifier.{text_of};
ghost use Rattle.graph_builder.specs.ByText.{number_of};
ghost use Rattle.graph_builder.specs.Graph.{number_in, IsAscending};
ghost use Rattle.graph_order.specs.Names.{named, named_at, sees};
ghost use Rattle.graph_order.specs.Nodes.{AreUnknown, AreNodes, AreLed, node_there};

use crate::edges::is_static;
use base::Items;
use graph_builder::ModuleGraph;
use graph_entry::Dependency;
use std::alloc::{AllocError, Global};
use url::Url;

/// At each number of the graph's the number of the module that its specifier leads to, if it leads to one.
pub fn led_of(
    alloc: Global,
    graph: &ModuleGraph,
    names: &[&Url],
) -> Result<Items<Option<usize>>, AllocError>
    requires named { named_at names.now ≡ named graph.now.entries }
    requires ascending { IsAscending graph.now.entries }
    ensures { IfOk result (AreLed graph.now) }
{
    let nodes = nodes_of(alloc, graph, names)?;
    all_led(alloc, graph, nodes.as_slice())
}

// At each number of the graph's the number of the module at its specifier, if there is one.
fn nodes_of(
    alloc: Global,
    graph: &ModuleGraph,
    names: &[&Url],
) -> Result<Items<Option<usize>>, AllocError>
    requires named { named_at names.now ≡ named graph.now.entries }
    requires ascending { IsAscending graph.now.entries }
    ensures { IfOk result (AreNodes graph.now (named graph.now.entries) (length (named graph.now.entries))) }
{
    let mut nodes = unknown(alloc, graph)?;
    for node in 0..names.len() {
        set_node(&mut nodes, graph, names[node], node);
    }
    Ok(nodes)
}

// `None` for each entry.
fn unknown(alloc: Global, graph: &ModuleGraph) -> Result<Items<Option<usize>>, AllocError>
    ensures { IfOk result (AreUnknown (length graph.now.entries)) }
{
    let mut nodes = Items::new(alloc);
    for _ in graph.entries()? {
        nodes.push(None)?;
    }
    Ok(nodes)
}

// Puts the number of the module at a specifier.
fn set_node(nodes: &mut Items<Option<usize>>, graph: &ModuleGraph, name: &Url, node: usize)
    requires { length nodes.old ≡ length graph.now.entries }
    ensures len { length nodes.new ≡ length graph.now.entries }
    ensures here { (n : ℕ) → number_in graph.now.numbered (text_of name.now) ≡ Some n
        → slice_index_or nodes.new n None ≡ Some node }
    ensures others { (n : ℕ) → (number_in graph.now.numbered (text_of name.now) ≡ Some n → ⊥)
        → slice_index_or nodes.new n None ≡ slice_index_or nodes.old n None }
{
    if let Some(number) = graph.number(name) {
        nodes.set(number, Some(node));
    }
}

fn all_led(
    alloc: Global,
    graph: &ModuleGraph,
    nodes: &[Option<usize>],
) -> Result<Items<Option<usize>>, AllocError>
    requires nodes { AreNodes graph.now (named graph.now.entries) (length (named graph.now.entries)) nodes.now }
    requires ascending { IsAscending graph.now.entries }
    ensures { IfOk result (AreLed graph.now) }
{
    let mut led = Items::new(alloc);
    for number in 0..nodes.len() {
        led.push(led_at(graph, nodes, number))?;
    }
    Ok(led)
}

// The number of the module that the specifier with a number leads to.
fn led_at(graph: &ModuleGraph, nodes: &[Option<usize>], number: usize) -> Option<usize>
    requires within { number < length nodes.now }
    requires nodes { AreNodes graph.now (named graph.now.entries) (length (named graph.now.entries)) nodes.now }
    requires ascending { IsAscending graph.now.entries }
    ensures { (s : List ℕ) → number_in graph.now.numbered s ≡ Some number → result ≡ node_there graph.now.entries s }
{
    match nodes[number] {
        Some(node) => Some(node),
        None => led_from(graph, nodes, graph.numbered(number)?),
    }
}

// The number of the module that a specifier leads to.
fn led_from(graph: &ModuleGraph, nodes: &[Option<usize>], specifier: &Url) -> Option<usize>
    requires nodes { AreNodes graph.now (named graph.now.entries) (length (named graph.now.entries)) nodes.now }
    requires ascending { IsAscending graph.now.entries }
    ensures { result ≡ node_there graph.now.entries (text_of specifier.now) }
{
    match graph.get(specifier) {
        Some(_) => node_at(graph, nodes, graph.resolve(specifier)),
        None => None,
    }
}

// The number of the module at a specifier.
fn node_at(graph: &ModuleGraph, nodes: &[Option<usize>], specifier: &Url) -> Option<usize>
    requires nodes { AreNodes graph.now (named graph.now.entries) (length (named graph.now.entries)) nodes.now }
    requires ascending { IsAscending graph.now.entries }
    ensures { result ≡ number_of (named graph.now.entries) (text_of specifier.now) }
{
    nodes[graph.number(specifier)?]
}

/// The number of the module that an edge leads to, if it is static and leads to one.
pub fn node_of(graph: &ModuleGraph, led: &[Option<usize>], edge: &Dependency) -> Option<usize>
    requires { AreLed graph.now led.now }
    ensures { result ≡ sees (named graph.now.entries) graph.now.entries edge.now }
{
    if !is_static(edge) {
        return None;
    }
    match &edge.resolution {
        Ok(target) => led_to(graph, led, target),
        Err(_) => None,
    }
}

fn led_to(graph: &ModuleGraph, led: &[Option<usize>], target: &Url) -> Option<usize>
    requires { AreLed graph.now led.now }
    ensures { result ≡ node_there graph.now.entries (text_of target.now) }
{
    led[graph.number(target)?]
}
