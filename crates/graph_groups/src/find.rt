//! Finds the groups.
ghost use Rattle.std.specs.Prelude.{◌≡◌, ◌<◌, length, map, IfOk};
ghost use Rattle.std.specs.List.{AllByRecursion};
ghost use Rattle.graph_entry.specs.Specifier.{text_of};
ghost use Rattle.graph_builder.specs.Graph.{texts};
ghost use Rattle.graph_order.specs.Names.{name_of, named_at};
ghost use Rattle.graph_groups.specs.Groups.{AreGroups};

use base::Items;
use graph_builder::ModuleGraph;
use graph_order::names::{links_of, names_of};
use graph_order::nodes::led_of;
use std::alloc::{AllocError, Global};
use strong_components::components;
use url::Url;

/// The groups of modules of which each reaches each by static edges, in evaluation order. Specifiers in a group are in the order of
/// their bytes.
pub fn groups(alloc: Global, graph: &ModuleGraph) -> Result<Items<Items<Url>>, AllocError>
    ensures { IfOk result (λ found. AreGroups graph.now.entries (map texts found)) }
{
    let names = names_of(alloc, graph)?;
    let urls = names.as_slice();
    let led = led_of(alloc, graph, urls)?;
    let links = links_of(alloc, graph, led.as_slice())?;
    let targets = links.as_slice();
    let found = components(alloc, targets)?;
    let numbered = found.as_slice();
    named_groups(alloc, urls, numbered)
}

// The specifiers of each group's modules.
fn named_groups(
    alloc: Global,
    names: &[&Url],
    found: &[Items<usize>],
) -> Result<Items<Items<Url>>, AllocError>
    requires { AllByRecursion (AllByRecursion (λ v. v < length names.now)) found.now }
    ensures { IfOk result (λ groups. map texts groups ≡ map (map (name_of (named_at names.now))) found.now) }
{
    let mut groups = Items::new(alloc);
    for members in found {
        groups.push(named_group(alloc, names, members.as_slice())?)?;
    }
    Ok(groups)
}

// The specifiers of these modules.
fn named_group(alloc: Global, names: &[&Url], members: &[usize]) -> Result<Items<Url>, AllocError>
    requires { AllByRecursion (λ v. v < length names.now) members.now }
    ensures { IfOk result (λ urls. texts urls ≡ map (name_of (named_at names.now)) members.now) }
{
    let mut urls = Items::new(alloc);
    for node in members {
        urls.push(url_of(names, *node).clone()?)?;
    }
    Ok(urls)
}

// The specifier of a module.
fn url_of<'a>(names: &[&'a Url], node: usize) -> &'a Url
    requires { node < length names.now }
    ensures { text_of result.now ≡ name_of (named_at names.now) node }
{
    names[node]
}
