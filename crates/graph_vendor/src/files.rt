//! The files of modules, in which each names the others by their new names.
ghost use Rattle.std.specs.Prelude.{◌≡◌, List, map, string_bytes, IfOk};
ghost use Rattle.es_site.specs.declared.site.Site.{Site as Place};
ghost use Rattle.source_text.specs.text_changes.Changes.{changed};
ghost use Rattle.graph_vendor.specs.Names as names_spec;
ghost use Rattle.graph_vendor.specs.Plan as spec;
ghost use Rattle.graph_vendor.specs.Refused.{AreOfSites};
ghost use Rattle.graph_vendor.specs.Files.{AreOwn, IsOwnSource, CanBeNamed, AreLiterals};

use crate::kept::literal_for;
use crate::names::{NewName, target_at};
use base::{Items, Range};
use es_site::Site;
use graph_builder::ModuleGraph;
use graph_entry::{Dependency, Entry, JsModule, Module};
use graph_tables::specifier_table::Numbered;
use source_text::module_text::has_mark;
use specifier_edits::rewrite_sites;
use std::alloc::{AllocError, Global};
use url::Url;
use vendor_files::VendorFile;

/// The files of the graph's modules, in their order.
pub fn files_of(
    alloc: Global,
    graph: &ModuleGraph,
    names: &Numbered<NewName>,
) -> Result<Items<VendorFile>, AllocError>
    // The edges of each source are those of its text.
    requires { AreOwn graph.now.entries }
    ensures { IfOk result (λ files. files
        ≡ spec.files_of graph.now.entries names.now (names_spec.modules_of graph.now.entries)) }
{
    let mut files = Items::new(alloc);
    for (specifier, entry) in graph.entries()? {
        if let Entry::Module(module) = entry {
            if let Some(target) = target_at(names, specifier) {
                files.push(file_of(alloc, graph, names, specifier, module, target)?)?;
            }
        }
    }
    Ok(files)
}

fn file_of(
    alloc: Global,
    graph: &ModuleGraph,
    names: &Numbered<NewName>,
    specifier: &Url,
    held: &Module,
    target: &Url,
) -> Result<VendorFile, AllocError>
    requires { IsOwnSource held.now }
    ensures { IfOk result (λ file. file ≡ record {
      source = specifier.now;
      target = target.now;
      bytes = spec.bytes_of graph.now.entries names.now held.now;
    }) }
{
    Ok(VendorFile {
        source: specifier.clone()?,
        target: target.clone()?,
        bytes: bytes_of(alloc, graph, names, held)?,
    })
}

fn bytes_of(
    alloc: Global,
    graph: &ModuleGraph,
    names: &Numbered<NewName>,
    held: &Module,
) -> Result<Items<u8>, AllocError>
    requires { IsOwnSource held.now }
    ensures { IfOk result (λ bytes. bytes ≡ spec.bytes_of graph.now.entries names.now held.now) }
{
    match held {
        Module::Js(module) => {
            let text = new_text(alloc, graph, names, module)?;
            in_file(alloc, text.as_str())
        }
        Module::Json(module) => in_file(alloc, module.text.as_str()),
        Module::Wasm(module) => Ok(Items::from_vec(Vec::from_slice(
            alloc,
            module.bytes.as_slice(),
        )?)),
    }
}

// A text as the bytes of a file that is read as this text.
fn in_file(alloc: Global, text: &str) -> Result<Items<u8>, AllocError>
    ensures { IfOk result (λ bytes. bytes ≡ spec.in_file text.now) }
{
    let mut bytes = Vec::new(alloc);
    if has_mark(text) {
        bytes.extend_from_slice("\u{feff}".as_bytes())?;
    }
    bytes.extend_from_slice(text.as_bytes())?;
    Ok(Items::from_vec(bytes))
}

// The text of a source with the new literals.
fn new_text(
    alloc: Global,
    graph: &ModuleGraph,
    names: &Numbered<NewName>,
    held: &JsModule,
) -> Result<String, AllocError>
    requires { CanBeNamed held.now }
    ensures { IfOk result (λ text. string_bytes text
        ≡ changed held.now.text 0 (map (spec.edit_of graph.now.entries names.now) held.now.dependencies)) }
{
    let sites = sites_of(alloc, held.dependencies.as_slice())?;
    let changes = changes_of(alloc, graph, names, held.dependencies.as_slice())?;
    rewrite_sites(
        alloc,
        held.text.as_str(),
        sites.as_slice(),
        changes.as_slice(),
    )
}

// The sites of edges, which have ranges.
fn sites_of(alloc: Global, edges: &[Dependency]) -> Result<Items<Site>, AllocError>
    ensures { IfOk result (λ sites. (others : List Place) → AreOfSites edges.now others → sites ≡ others) }
{
    let mut sites = Items::new(alloc);
    for edge in edges {
        if let Some(range) = edge.range {
            sites.push(site_of(edge, range)?)?;
        }
    }
    Ok(sites)
}

fn site_of(edge: &Dependency, range: Range) -> Result<Site, AllocError>
    ensures { IfOk result (λ site. site ≡ spec.site_of edge.now range) }
{
    Ok(Site {
        kind: edge.kind,
        type_only: edge.type_only,
        range,
        value: edge.text.copy()?,
        attribute: edge.attribute.copy()?,
    })
}

// A change for each edge: its number, and its new literal.
fn changes_of(
    alloc: Global,
    graph: &ModuleGraph,
    names: &Numbered<NewName>,
    edges: &[Dependency],
) -> Result<Vec<(usize, String)>, AllocError>
    ensures { IfOk result (λ changes. AreLiterals graph.now.entries names.now 0 edges.now changes.items) }
{
    let mut changes = Vec::new(alloc);
    for (number, edge) in edges.iter().enumerate() {
        changes.push((number, literal_to(alloc, graph, names, edge)?))?;
    }
    Ok(changes)
}

fn literal_to(
    alloc: Global,
    graph: &ModuleGraph,
    names: &Numbered<NewName>,
    edge: &Dependency,
) -> Result<String, AllocError>
    ensures { IfOk result (λ text. string_bytes text
        ≡ spec.literal_to graph.now.entries names.now edge.now.resolution) }
{
    match &edge.resolution {
        Ok(to) => Ok(literal_for(alloc, graph, names, to)?.into_string()),
        Err(_) => Ok(String::new(alloc)),
    }
}
