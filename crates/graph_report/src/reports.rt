//! The program's output: a graph as lines of text.
ghost use Rattle.std.specs.Prelude.{◌≡◌, ◌++◌, codes, OnOk, IfOk, string_bytes, decimal, length};
ghost use Rattle.std.specs.List.{flat_map};
ghost use Rattle.json.specs.Print.{quoted};
ghost use Rattle.graph_entry.specs.Specifier.{text_of};
ghost use Rattle.graph_report.specs.Report.{report_of, root_line, entry_lines, count_line, edge_line, edge_words, import_line, import_lines, state, package_words, registry_word, part_word, edges_of, kind_word, range_word, attribute_word, outcome, line_end};
ghost use Rattle.graph_report.specs.Adds.{Adds};

use crate::counts::sum;
use crate::quoted::add_quoted;
use base::{Items, Range, Text};
use graph_builder::ModuleGraph;
use graph_entry::{
    Attribute, Dependency, DependencyKind, Entry, JsonModule, Module, PackageKind, PackageRef,
    ResolutionError,
};
use itoa::Buffer;
use std::alloc::{AllocError, Global};
use url::Url;

/// The report of a graph. Each line ends by a line feed.
#[tactic(auto, unfolding(crate::specs::Report::report_of))]
pub fn report(alloc: Global, graph: &ModuleGraph) -> Result<String, AllocError>
    ensures { IfOk result (λ text. string_bytes text ≡ report_of graph.now) }
{
    let mut out = String::new(alloc);
    add_roots(&mut out, graph.roots())?;
    add_imports(alloc, &mut out, graph.referrer_imports())?;
    let count = add_entries(alloc, &mut out, graph)?;
    add_count(&mut out, count)?;
    Ok(out)
}

fn add_roots(out: &mut String, roots: &[Url]) -> Result<(), AllocError>
    ensures { OnOk result (Adds out.old out.new (flat_map root_line roots.now)) }
{
    for root in roots {
        add_root(out, root)?;
    }
    Ok(())
}

#[tactic(auto, unfolding(crate::specs::Report::root_line, graph_entry::specs::Specifier::text_of))]
fn add_root(out: &mut String, root: &Url) -> Result<(), AllocError>
    ensures { OnOk result (Adds out.old out.new (root_line root.now)) }
{
    out.push_str("root ")?;
    out.push_str(root.as_str())?;
    out.push_str("\n")
}

fn add_imports(
    alloc: Global,
    out: &mut String,
    places: &[(Url, Items<Dependency>)],
) -> Result<(), AllocError>
    ensures { OnOk result (Adds out.old out.new (flat_map import_lines places.now)) }
{
    for place in places {
        add_place(alloc, out, &place.0, place.1.as_slice())?;
    }
    Ok(())
}

fn add_place(
    alloc: Global,
    out: &mut String,
    referrer: &Url,
    edges: &[Dependency],
) -> Result<(), AllocError>
    ensures { OnOk result (Adds out.old out.new (flat_map (import_line referrer.now) edges.now)) }
{
    for edge in edges {
        add_import(alloc, out, referrer, edge)?;
    }
    Ok(())
}

#[tactic(auto, unfolding(crate::specs::Report::import_line, graph_entry::specs::Specifier::text_of))]
fn add_import(
    alloc: Global,
    out: &mut String,
    referrer: &Url,
    edge: &Dependency,
) -> Result<(), AllocError>
    ensures { OnOk result (Adds out.old out.new (import_line referrer.now edge.now)) }
{
    out.push_str("import ")?;
    out.push_str(referrer.as_str())?;
    out.push_str(" ")?;
    add_edge_words(alloc, out, edge)?;
    out.push_str("\n")
}

fn add_entries(alloc: Global, out: &mut String, graph: &ModuleGraph) -> Result<usize, AllocError>
    ensures lines { OnOk result (Adds out.old out.new (flat_map entry_lines graph.now.entries)) }
    ensures count { IfOk result (λ n. n ≡ length graph.now.entries) }
{
    let mut count = 0;
    for (specifier, entry) in graph.entries()? {
        add_entry(alloc, out, specifier, entry)?;
        count = sum(count, 1)?;
    }
    Ok(count)
}

#[tactic(auto, unfolding(crate::specs::Report::entry_lines, graph_entry::specs::Specifier::text_of))]
fn add_entry(
    alloc: Global,
    out: &mut String,
    specifier: &Url,
    entry: &Entry,
) -> Result<(), AllocError>
    ensures { OnOk result (Adds out.old out.new (entry_lines (specifier.now, entry.now))) }
{
    out.push_str(specifier.as_str())?;
    out.push_str(" ")?;
    add_state(alloc, out, entry)?;
    out.push_str("\n")?;
    add_edges(alloc, out, edges(entry))
}

/// The edges of an entry, which only a module has.
pub fn edges(entry: &Entry) -> &[Dependency]
    ensures { result.now ≡ edges_of entry.now }
{
    match entry {
        Entry::Module(Module::Js(module)) => module.dependencies.as_slice(),
        Entry::Module(Module::Wasm(module)) => module.dependencies.as_slice(),
        Entry::Module(Module::Json(_))
        | Entry::Redirect(_)
        | Entry::Package(_)
        | Entry::External
        | Entry::Error(_) => &[],
    }
}

/// Writes what an entry is.
#[tactic(auto, unfolding(graph_entry::specs::Specifier::text_of))]
pub fn add_state(alloc: Global, out: &mut String, entry: &Entry) -> Result<(), AllocError>
    ensures { OnOk result (Adds out.old out.new (state entry.now)) }
{
    match entry {
        Entry::Redirect(target) => {
            out.push_str("redirect ")?;
            out.push_str(target.as_str())
        }
        Entry::Module(Module::Js(module)) => {
            out.push_str("module ")?;
            out.push_str(module.media_type.name())?;
            out.push_str(" ")?;
            add_number(out, module.text.len())
        }
        Entry::Module(Module::Json(module)) => add_json(out, module),
        Entry::Module(Module::Wasm(module)) => {
            out.push_str("module Wasm ")?;
            add_number(out, module.bytes.len())
        }
        Entry::Package(named) => add_package(alloc, out, named),
        Entry::External => out.push_str("external"),
        Entry::Error(error) => {
            out.push_str("error ")?;
            out.push_str(error.name())
        }
    }
}

#[tactic(auto, unfolding(crate::specs::Report::package_words))]
fn add_package(alloc: Global, out: &mut String, named: &PackageRef) -> Result<(), AllocError>
    ensures { OnOk result (Adds out.old out.new (package_words named.now)) }
{
    out.push_str("package ")?;
    out.push_str(registry_name(named.kind))?;
    out.push_str(" ")?;
    add_quoted(alloc, out, named.name.as_str())?;
    out.push_str(" ")?;
    add_part(alloc, out, &named.requirement)?;
    out.push_str(" ")?;
    add_part(alloc, out, &named.sub_path)
}

fn registry_name(kind: PackageKind) -> &'static str
    ensures { result.now ≡ registry_word kind }
{
    match kind {
        PackageKind::Npm => "npm",
        PackageKind::Jsr => "jsr",
    }
}

fn add_part(alloc: Global, out: &mut String, part: &Option<Text>) -> Result<(), AllocError>
    ensures { OnOk result (Adds out.old out.new (part_word part.now)) }
{
    match part {
        None => out.push_str("-"),
        Some(text) => add_quoted(alloc, out, text.as_str()),
    }
}

fn add_json(out: &mut String, json: &JsonModule) -> Result<(), AllocError>
    ensures { OnOk result (Adds out.old out.new (codes "module Json " ++ decimal (length json.now.text))) }
{
    out.push_str("module Json ")?;
    add_number(out, json.text.len())
}

fn add_edges(alloc: Global, out: &mut String, edges: &[Dependency]) -> Result<(), AllocError>
    ensures { OnOk result (Adds out.old out.new (flat_map edge_line edges.now)) }
{
    for edge in edges {
        add_edge(alloc, out, edge)?;
    }
    Ok(())
}

#[tactic(auto, unfolding(crate::specs::Report::edge_line))]
fn add_edge(alloc: Global, out: &mut String, edge: &Dependency) -> Result<(), AllocError>
    ensures { OnOk result (Adds out.old out.new (edge_line edge.now)) }
{
    out.push_str("  ")?;
    add_edge_words(alloc, out, edge)?;
    out.push_str("\n")
}

/// Writes an edge: its kind, where its literal is, its text, its attribute, and its target or fault.
#[tactic(auto, unfolding(crate::specs::Report::edge_words))]
pub fn add_edge_words(alloc: Global, out: &mut String, edge: &Dependency) -> Result<(), AllocError>
    ensures { OnOk result (Adds out.old out.new (edge_words edge.now)) }
{
    out.push_str(kind_name(edge.kind, edge.type_only))?;
    out.push_str(" ")?;
    add_range(out, edge.range)?;
    out.push_str(" ")?;
    add_quoted(alloc, out, edge.text.as_str())?;
    out.push_str(" ")?;
    add_attribute(alloc, out, &edge.attribute)?;
    out.push_str(" ")?;
    add_outcome(out, &edge.resolution)
}

/// The word for a kind of edge.
pub fn kind_name(kind: DependencyKind, type_only: bool) -> &'static str
    ensures { result.now ≡ kind_word kind type_only }
{
    match (kind, type_only) {
        (DependencyKind::Import, false) => "import",
        (DependencyKind::Import, true) => "import-type",
        (DependencyKind::ImportSource, _) => "import-source",
        (DependencyKind::ImportDefer, _) => "import-defer",
        (DependencyKind::Export, false) => "export",
        (DependencyKind::Export, true) => "export-type",
        (DependencyKind::ImportEquals, false) => "import-equals",
        (DependencyKind::ImportEquals, true) => "import-equals-type",
        (DependencyKind::Dynamic, _) => "dynamic",
        (DependencyKind::DynamicSource, _) => "dynamic-source",
        (DependencyKind::DynamicDefer, _) => "dynamic-defer",
        (DependencyKind::ReferencePath, _) => "reference-path",
        (DependencyKind::ReferenceTypes, _) => "reference-types",
        (DependencyKind::Wasm, _) => "wasm",
        (DependencyKind::Referrer, _) => "referrer",
        (DependencyKind::Require, _) => "require",
        (DependencyKind::RequireResolve, _) => "require-resolve",
        (DependencyKind::TypeImport, _) => "type-import",
        (DependencyKind::Worker, _) => "worker",
        (DependencyKind::Address, _) => "address",
    }
}

/// Writes where a literal is.
pub fn add_range(out: &mut String, range: Option<Range>) -> Result<(), AllocError>
    ensures { OnOk result (Adds out.old out.new (range_word range)) }
{
    let Some(range) = range else {
        return out.push_str("-");
    };
    add_number(out, range.start)?;
    out.push_str("-")?;
    add_number(out, range.end)
}

fn add_attribute(alloc: Global, out: &mut String, attribute: &Attribute) -> Result<(), AllocError>
    ensures { OnOk result (Adds out.old out.new (attribute_word attribute.now)) }
{
    match attribute {
        Attribute::Absent => out.push_str("-"),
        Attribute::Named(text) => add_quoted(alloc, out, text.as_str()),
        Attribute::Unknown => out.push_str("?"),
    }
}

#[tactic(auto, unfolding(graph_entry::specs::Specifier::text_of))]
fn add_outcome(
    out: &mut String,
    resolution: &Result<Url, ResolutionError>,
) -> Result<(), AllocError>
    ensures { OnOk result (Adds out.old out.new (outcome resolution.now)) }
{
    match resolution {
        Ok(target) => {
            out.push_str("-> ")?;
            out.push_str(target.as_str())
        }
        Err(fault) => {
            out.push_str("! ")?;
            out.push_str(fault.name())
        }
    }
}

#[tactic(auto, unfolding(crate::specs::Report::count_line))]
fn add_count(out: &mut String, count: usize) -> Result<(), AllocError>
    ensures { OnOk result (Adds out.old out.new (count_line count)) }
{
    out.push_str("entries ")?;
    add_number(out, count)?;
    out.push_str("\n")
}

/// Writes a number in decimal.
pub fn add_number(out: &mut String, n: usize) -> Result<(), AllocError>
    ensures { OnOk result (Adds out.old out.new (decimal n)) }
{
    let mut buffer = Buffer::new();
    out.push_str(buffer.format(n))
}
