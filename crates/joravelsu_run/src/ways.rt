//! A shortest way to an entry, and what is gone without it, as lines of text.
ghost use Rattle.std.specs.Prelude.{◌≡◌, IfOk, OnOk, string_bytes};
ghost use Rattle.std.specs.List.{flat_map};
ghost use Rattle.std.specs.Option.{option_copied};
ghost use Rattle.graph_report.specs.Adds.{Adds};
ghost use Rattle.joravelsu_run.specs.Ways.{IsGoneText, IsWayText, IsWhyText, gone_line, edge_at, path_lines, step_line, step_words, words_of};

use deno_graph::ModuleGraph;
use graph_builder::Following;
use graph_entry::{Dependency, Entry};
use graph_report::{add_edge_words, add_number, edges};
use graph_why::{Step, Without, gone_without, why};
use std::alloc::{AllocError, Global};
use url::Url;

/// The lines of a shortest way to the specifier's entry, and a line for each entry to which only ways over this one lead.
pub fn why_lines(
    alloc: Global,
    graph: &ModuleGraph,
    following: Following,
    to: &Url,
) -> Result<String, AllocError>
    ensures { IfOk result (λ text. IsWhyText graph.now following to.now (string_bytes text)) }
{
    let mut out = way_lines(alloc, graph, following, to)?;
    let gone = gone_without(alloc, graph, following, &Without::Entry(to.clone()?))?;
    add_gone(&mut out, gone.as_slice())?;
    Ok(out)
}

/// A line for each entry to which paths lead, and none without this entry or edge.
pub fn gone_lines(
    alloc: Global,
    graph: &ModuleGraph,
    following: Following,
    without: &Without,
) -> Result<String, AllocError>
    ensures { IfOk result (λ text. IsGoneText graph.now following without.now (string_bytes text)) }
{
    let mut out = String::new(alloc);
    let gone = gone_without(alloc, graph, following, without)?;
    add_gone(&mut out, gone.as_slice())?;
    Ok(out)
}

fn add_gone(out: &mut String, gone: &[Url]) -> Result<(), AllocError>
    ensures { OnOk result (Adds out.old out.new (flat_map gone_line gone.now)) }
{
    for url in gone {
        add_gone_one(out, url)?;
    }
    Ok(())
}

#[tactic(auto, unfolding(crate::specs::Ways::gone_line, graph_entry::specs::Specifier::text_of))]
fn add_gone_one(out: &mut String, url: &Url) -> Result<(), AllocError>
    ensures { OnOk result (Adds out.old out.new (gone_line url.now)) }
{
    out.push_str("gone ")?;
    out.push_str(url.as_str())?;
    out.push_str("\n")
}

/// How many steps a shortest way to the specifier's entry has, and a line for each; or that there is none.
fn way_lines(
    alloc: Global,
    graph: &ModuleGraph,
    following: Following,
    to: &Url,
) -> Result<String, AllocError>
    ensures { IfOk result (λ text. IsWayText graph.now following to.now (string_bytes text)) }
{
    match why(alloc, graph, following, to)? {
        Some(path) => path_text(alloc, graph, path.as_slice()),
        None => String::from_str(alloc, "why none\n"),
    }
}

#[tactic(auto, unfolding(crate::specs::Ways::path_lines))]
fn path_text(alloc: Global, graph: &ModuleGraph, path: &[Step]) -> Result<String, AllocError>
    ensures { IfOk result (λ text. string_bytes text ≡ path_lines graph.now path.now) }
{
    let mut out = String::from_str(alloc, "why ")?;
    add_number(&mut out, path.len())?;
    out.push_str("\n")?;
    add_steps(alloc, &mut out, graph, path)?;
    Ok(out)
}

fn add_steps(
    alloc: Global,
    out: &mut String,
    graph: &ModuleGraph,
    path: &[Step],
) -> Result<(), AllocError>
    ensures { OnOk result (Adds out.old out.new (flat_map (step_line graph.now) path.now)) }
{
    for step in path {
        add_step(alloc, out, graph, step)?;
    }
    Ok(())
}

#[tactic(auto, unfolding(crate::specs::Ways::step_line, graph_entry::specs::Specifier::text_of))]
fn add_step(
    alloc: Global,
    out: &mut String,
    graph: &ModuleGraph,
    step: &Step,
) -> Result<(), AllocError>
    ensures { OnOk result (Adds out.old out.new (step_line graph.now step.now)) }
{
    out.push_str("way ")?;
    out.push_str(step.from.as_str())?;
    out.push_str(" ")?;
    add_step_words(alloc, out, graph, step)?;
    out.push_str("\n")
}

#[tactic(auto, unfolding(graph_entry::specs::Specifier::text_of))]
fn add_step_words(
    alloc: Global,
    out: &mut String,
    graph: &ModuleGraph,
    step: &Step,
) -> Result<(), AllocError>
    ensures { OnOk result (Adds out.old out.new (step_words graph.now step.now step.now.dependency)) }
{
    match step.dependency {
        Some(number) => add_edge(alloc, out, graph.entry(&step.from), number),
        None => {
            out.push_str("redirect ")?;
            out.push_str(step.to.as_str())
        }
    }
}

fn add_edge(
    alloc: Global,
    out: &mut String,
    entry: Option<&Entry>,
    number: usize,
) -> Result<(), AllocError>
    ensures { OnOk result (Adds out.old out.new (edge_at (option_copied entry.entry) number)) }
{
    match entry {
        Some(entry) => add_words(alloc, out, edges(entry).get(number)),
        None => Ok(()),
    }
}

fn add_words(
    alloc: Global,
    out: &mut String,
    dependency: Option<&Dependency>,
) -> Result<(), AllocError>
    ensures { OnOk result (Adds out.old out.new (words_of (option_copied dependency.entry))) }
{
    match dependency {
        Some(dependency) => add_edge_words(alloc, out, dependency),
        None => Ok(()),
    }
}
