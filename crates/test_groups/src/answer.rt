//! What is found of the graph of a row.

use crate::given::{following, graph_of, named};
use base::Items;
use deno_graph::ModuleGraph;
use graph_groups::groups;
use graph_why::{Step, Without, gone_without, why};
use std::alloc::{AllocError, Global};
use test_rows::Row;
use url::Url;

/// What a row's call answers.
pub fn answer(alloc: Global, row: &Row) -> Result<String, AllocError> {
    let Some(graph) = graph_of(alloc, row)? else {
        return String::from_str(alloc, "no graph");
    };
    match row.call() {
        "groups" => grouped(alloc, &graph),
        "why" => reason(alloc, row, &graph),
        "gone" => gone(alloc, row, &graph),
        _ => String::from_str(alloc, "no call"),
    }
}

// The groups, their names one after another.
fn grouped(alloc: Global, graph: &ModuleGraph) -> Result<String, AllocError> {
    let mut told = String::new(alloc);
    for group in groups(alloc, graph)?.as_slice() {
        if !told.is_empty() {
            told.push(' ')?;
        }
        for member in group.as_slice() {
            told.push_str(short(member))?;
        }
    }
    Ok(told)
}

// The path to the row's specifier, step by step.
fn reason(alloc: Global, row: &Row, graph: &ModuleGraph) -> Result<String, AllocError> {
    let Some(specifier) = named(alloc, row.at(5))? else {
        return String::from_str(alloc, "no specifier");
    };
    match why(alloc, graph, following(row), &specifier)? {
        Some(path) => steps(alloc, path.as_slice()),
        None => String::from_str(alloc, "none"),
    }
}

fn steps(alloc: Global, path: &[Step]) -> Result<String, AllocError> {
    let mut told = String::from_str(alloc, "path")?;
    for step in path {
        let line = match step.dependency {
            Some(place) => format!(in alloc; " {}{place}{}", short(&step.from), short(&step.to))?,
            None => format!(in alloc; " {}={}", short(&step.from), short(&step.to))?,
        };
        told.push_str(line.as_str())?;
    }
    Ok(told)
}

// The names of what is gone without the row's entry, or its edge.
fn gone(alloc: Global, row: &Row, graph: &ModuleGraph) -> Result<String, AllocError> {
    let Some(specifier) = named(alloc, row.at(5))? else {
        return String::from_str(alloc, "no specifier");
    };
    let without = match row.at(6) {
        "" => Without::Entry(specifier),
        _ => Without::Edge(specifier, row.number(6)),
    };
    listed(alloc, gone_without(alloc, graph, following(row), &without)?)
}

fn listed(alloc: Global, urls: Items<Url>) -> Result<String, AllocError> {
    let mut told = String::from_str(alloc, "gone ")?;
    for url in urls.as_slice() {
        told.push_str(short(url))?;
    }
    Ok(told)
}

// A specifier's name, without its folder and its ending.
fn short(url: &Url) -> &str {
    let path = url.path();
    let name = path.strip_prefix('/').unwrap_or(path);
    name.strip_suffix(".ts").unwrap_or(name)
}
