//! The modules of a graph, by the bytes of their specifiers, and their links.
ghost use Rattle.std.specs.Prelude.{◌≡◌, ◌<◌, ◌∷◌, [], ◌++◌, None, length, IfOk, OnOk, IfSome};
ghost use Rattle.std.specs.List.{filter_map};
ghost use Rattle.graph_entry.specs.Specifier.{text_of};
ghost use Rattle.graph_builder.specs.ByText.{number_of};
ghost use Rattle.graph_builder.specs.Rules.{edges_of};
ghost use Rattle.graph_builder.specs.Graph.{IsAscending};
ghost use Rattle.graph_order.specs.Names.{Names, named, named_at, sees, links_in, modules_of};
ghost use Rattle.graph_order.specs.Nodes.{AreLed};

use crate::edges::edges;
use crate::nodes::node_of;
use base::Items;
use graph_builder::ModuleGraph;
use graph_entry::{Entry, Module};
use graph_tables::specifier_table::Numbered;
use std::alloc::{AllocError, Global};
use url::Url;

/// The specifiers of the modules, in the order of their bytes.
pub fn names_of<'a>(alloc: Global, graph: &'a ModuleGraph) -> Result<Vec<&'a Url>, AllocError>
    ensures named { IfOk result (λ names. named_at names.items ≡ named graph.now.entries) }
    ensures ascending { IsAscending graph.now.entries }
{
    let mut names = Vec::new(alloc);
    for (specifier, entry) in graph.entries()? {
        if let Entry::Module(_) = entry {
            names.push(specifier)?;
        }
    }
    Ok(names)
}

/// Gives the next number to a specifier that has none.
#[tactic(auto, unfolding(graph_entry::specs::Specifier::text_of))]
pub fn add_name(names: &mut Numbered<()>, specifier: &Url) -> Result<(), AllocError>
    requires { number_of names.old (text_of specifier.now) ≡ None }
    ensures { OnOk result (names.new ≡ names.old ++ (specifier.now, tt) ∷ []) }
{
    names.push(specifier.clone()?, ())
}

/// The number of a specifier.
#[tactic(auto, unfolding(graph_entry::specs::Specifier::text_of))]
pub fn number(names: &Numbered<()>, specifier: &Url) -> Option<usize>
    ensures value { result ≡ number_of names.now (text_of specifier.now) }
    ensures within { IfSome result (λ n. n < length names.now) }
{
    names.number(specifier)
}

/// The numbers of the modules that each module's static edges lead to.
pub fn links_of(
    alloc: Global,
    graph: &ModuleGraph,
    led: &[Option<usize>],
) -> Result<Items<Items<usize>>, AllocError>
    requires { AreLed graph.now led.now }
    ensures { IfOk result (λ links. links ≡ links_in (named graph.now.entries) graph.now.entries) }
{
    let mut links = Items::new(alloc);
    for (_, entry) in graph.entries()? {
        if let Entry::Module(held) = entry {
            links.push(module_links(alloc, graph, led, held)?)?;
        }
    }
    Ok(links)
}

fn module_links(
    alloc: Global,
    graph: &ModuleGraph,
    led: &[Option<usize>],
    held: &Module,
) -> Result<Items<usize>, AllocError>
    requires { AreLed graph.now led.now }
    ensures { IfOk result (λ links. links
        ≡ filter_map (sees (named graph.now.entries) graph.now.entries) (edges_of held.now)) }
{
    let all = edges(held);
    let mut links = Items::new(alloc);
    for edge in all {
        if let Some(node) = node_of(graph, led, edge) {
            links.push(node)?;
        }
    }
    Ok(links)
}
