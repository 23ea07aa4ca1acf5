//! An entry as a line.

use base::{Range, Text};
use graph_entry::{
    Attribute, Dependency, DependencyKind, Entry, Module, ModuleError, PackageKind, PackageRef,
};
use std::alloc::{AllocError, Global};

/// A module's media type, length and edges, a package's parts, or the error with the place of its fault.
pub fn line_of(alloc: Global, entry: &Entry) -> Result<String, AllocError> {
    match entry {
        Entry::Module(module) => line_of_module(alloc, module),
        Entry::Error(error) => line_of_error(alloc, error),
        Entry::Package(package) => line_of_package(alloc, package),
        Entry::Redirect(target) => format!(in alloc; "redirect {target}"),
        Entry::External => String::from_str(alloc, "external"),
    }
}

fn line_of_error(alloc: Global, error: &ModuleError) -> Result<String, AllocError> {
    match error {
        ModuleError::Parse(kept) => {
            let fault = kept.diagnostic();
            let Range { start, end } = fault.range();
            format!(in alloc; "{error} {} {start}-{end}; {fault}", fault.kind())
        }
        ModuleError::WasmParse(fault) => format!(in alloc; "{error} {fault}"),
        _ => format!(in alloc; "{error}"),
    }
}

fn line_of_package(alloc: Global, package: &PackageRef) -> Result<String, AllocError> {
    let kind = match package.kind {
        PackageKind::Npm => "npm",
        PackageKind::Jsr => "jsr",
    };
    let requirement = part(&package.requirement);
    let sub_path = part(&package.sub_path);
    format!(in alloc; "{kind} {} {requirement} {sub_path}", package.name)
}

fn part(text: &Option<Text>) -> &str {
    match text {
        Some(text) => text.as_str(),
        None => "-",
    }
}

fn line_of_module(alloc: Global, module: &Module) -> Result<String, AllocError> {
    match module {
        Module::Js(module) => {
            let edges = module.dependencies.as_slice();
            with_edges(alloc, module.media_type.name(), module.text.len(), edges)
        }
        Module::Json(module) => with_edges(alloc, "Json", module.text.len(), &[]),
        Module::Wasm(module) => {
            let edges = module.dependencies.as_slice();
            with_edges(alloc, "Wasm", module.bytes.len(), edges)
        }
    }
}

fn with_edges(
    alloc: Global,
    name: &str,
    length: usize,
    edges: &[Dependency],
) -> Result<String, AllocError> {
    let mut line = format!(in alloc; "{name} {length}")?;
    for edge in edges {
        push_edge(alloc, &mut line, edge)?;
    }
    Ok(line)
}

fn push_edge(alloc: Global, line: &mut String, edge: &Dependency) -> Result<(), AllocError> {
    let Range { start, end } = edge.range.unwrap_or(Range { start: 0, end: 0 });
    let kind = kind_of(edge);
    let mark = match &edge.attribute {
        Attribute::Absent => String::new(alloc),
        Attribute::Named(name) => format!(in alloc; " with {name}")?,
        Attribute::Unknown => String::from_str(alloc, " with ?")?,
    };
    let part = match &edge.resolution {
        Ok(target) => {
            format!(in alloc; "; {kind} {start}-{end} {}{mark} -> {target}", edge.text)?
        }
        Err(error) => { format!(in alloc; "; {kind} {start}-{end} {}{mark} ! {error}", edge.text)? }
    };
    line.push_str(part.as_str())
}

fn kind_of(edge: &Dependency) -> &'static str {
    match (edge.kind, edge.type_only) {
        (DependencyKind::Import, false) => "import",
        (DependencyKind::Import, true) => "import-type",
        (DependencyKind::ImportSource, _) => "import-source",
        (DependencyKind::ImportDefer, _) => "import-defer",
        (DependencyKind::Export, false) => "export",
        (DependencyKind::Export, true) => "export-type",
        (DependencyKind::ImportEquals, false) => "import-equals",
        (DependencyKind::ImportEquals, true) => "import-equals-type",
        (DependencyKind::Dynamic, _) => "dynamic",
        (DependencyKind::DynamicSource, _) => "dynamic-source",
        (DependencyKind::DynamicDefer, _) => "dynamic-defer",
        (DependencyKind::ReferencePath, _) => "reference-path",
        (DependencyKind::ReferenceTypes, _) => "reference-types",
        _ => "other",
    }
}
