//! What the program prints of a graph.
use deno_graph::{Dependency, Entry, Module, ModuleGraph};
use std::alloc::{AllocError, Global};
use std::fmt::Write;

/// Each module of the graph, and where its edges lead.
pub fn lines(alloc: Global, graph: &ModuleGraph) -> anyhow::Result<String> {
    let mut out = String::new(alloc);
    for (specifier, entry) in graph.entries()? {
        writeln!(out, "{specifier}")?;
        for edge in edges(entry) {
            tell(&mut out, edge)?;
        }
    }
    Ok(out)
}

fn edges(entry: &Entry) -> &[Dependency] {
    match entry {
        Entry::Module(Module::Js(module)) => module.dependencies.as_slice(),
        Entry::Module(Module::Wasm(module)) => module.dependencies.as_slice(),
        _ => &[],
    }
}

fn tell(out: &mut String, edge: &Dependency) -> Result<(), AllocError> {
    match &edge.resolution {
        Ok(target) => writeln!(out, "  -> {target}"),
        Err(error) => writeln!(out, "  ! {error}"),
    }
}
