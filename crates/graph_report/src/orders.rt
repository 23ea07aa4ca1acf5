//! The order of a graph's modules, or a cycle of their static edges, as lines of text.
ghost use Rattle.std.specs.Prelude.{◌≡◌, IfOk, OnOk, string_bytes};
ghost use Rattle.std.specs.List.{flat_map};
ghost use Rattle.std.specs.Option.{option_copied};
ghost use Rattle.graph_report.specs.Orders.{IsOrderText, order_text, order_line, cycle_line, place_words, dependency_at};
ghost use Rattle.graph_report.specs.Adds.{Adds};
ghost use Rattle.graph_entry.specs.Specifier.{text_of};

use crate::quoted::add_quoted;
use crate::reports::{add_range, edges};
use graph_builder::ModuleGraph;
use graph_entry::Dependency;
use graph_order::{CycleEdge, Order, order};
use std::alloc::{AllocError, Global};
use url::Url;

/// A line for each module, in their order, or for each edge of a cycle. Each line ends by a line feed.
pub fn order_lines(alloc: Global, graph: &ModuleGraph) -> Result<String, AllocError>
    ensures { IfOk result (λ text. IsOrderText graph.now (string_bytes text)) }
{
    let found = order(alloc, graph)?;
    let mut out = String::new(alloc);
    add_found(alloc, &mut out, graph, &found)?;
    Ok(out)
}

fn add_found(
    alloc: Global,
    out: &mut String,
    graph: &ModuleGraph,
    found: &Order,
) -> Result<(), AllocError>
    ensures { OnOk result (Adds out.old out.new (order_text graph.now found.now)) }
{
    match found {
        Order::Sorted(list) => add_sorted(out, list.as_slice()),
        Order::Cycle(cycle) => add_cycle(alloc, out, graph, cycle.as_slice()),
    }
}

fn add_sorted(out: &mut String, list: &[Url]) -> Result<(), AllocError>
    ensures { OnOk result (Adds out.old out.new (flat_map order_line list.now)) }
{
    for url in list {
        add_order(out, url)?;
    }
    Ok(())
}

#[tactic(auto, unfolding(crate::specs::Orders::order_line, graph_entry::specs::Specifier::text_of))]
fn add_order(out: &mut String, url: &Url) -> Result<(), AllocError>
    ensures { OnOk result (Adds out.old out.new (order_line url.now)) }
{
    out.push_str("order ")?;
    out.push_str(url.as_str())?;
    out.push_str("\n")
}

fn add_cycle(
    alloc: Global,
    out: &mut String,
    graph: &ModuleGraph,
    cycle: &[CycleEdge],
) -> Result<(), AllocError>
    ensures { OnOk result (Adds out.old out.new (flat_map (cycle_line graph.now) cycle.now)) }
{
    for edge in cycle {
        add_edge_of(alloc, out, graph, edge)?;
    }
    Ok(())
}

#[tactic(auto, unfolding(crate::specs::Orders::cycle_line, graph_entry::specs::Specifier::text_of))]
fn add_edge_of(
    alloc: Global,
    out: &mut String,
    graph: &ModuleGraph,
    edge: &CycleEdge,
) -> Result<(), AllocError>
    ensures { OnOk result (Adds out.old out.new (cycle_line graph.now edge.now)) }
{
    out.push_str("cycle ")?;
    out.push_str(edge.module.as_str())?;
    out.push_str(" ")?;
    add_place(
        alloc,
        out,
        dependency_of(graph, &edge.module, edge.dependency),
    )?;
    out.push_str(" -> ")?;
    out.push_str(edge.target.as_str())?;
    out.push_str("\n")
}

fn dependency_of<'a>(
    graph: &'a ModuleGraph,
    specifier: &Url,
    number: usize,
) -> Option<&'a Dependency>
    ensures { option_copied result ≡ dependency_at graph.now.entries (text_of specifier.now) number }
{
    edges(graph.entry(specifier)?).get(number)
}

fn add_place(
    alloc: Global,
    out: &mut String,
    dependency: Option<&Dependency>,
) -> Result<(), AllocError>
    ensures { OnOk result (Adds out.old out.new (place_words (option_copied dependency.entry))) }
{
    match dependency {
        Some(dependency) => {
            add_range(out, dependency.range)?;
            out.push_str(" ")?;
            add_quoted(alloc, out, dependency.text.as_str())
        }
        None => Ok(()),
    }
}
