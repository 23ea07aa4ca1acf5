//! The plan of a graph's modules as files of a folder.
ghost use Rattle.std.specs.Prelude.{◌≡◌, ℕ, List, [], bytes_eq, None, Ok, IfOk};
ghost use Rattle.std.specs.List.{filter_map, IsDistinct};
ghost use Rattle.media_type.specs.declared.media_type.MediaType.{MediaType as Media};
ghost use Rattle.es_site.specs.declared.site.Site.{Site as Place};
ghost use Rattle.source_reading.specs.Read.{HasSites};
ghost use Rattle.graph_entry.specs.Specifier.{text_of};
ghost use Rattle.graph_builder.specs.Graph.{texts};
ghost use Rattle.graph_vendor.specs.Names.{modules_of, renamed, names_in};
ghost use Rattle.graph_vendor.specs.Kept.{first_taken as taken, IsFirstLost};
ghost use Rattle.graph_vendor.specs.Plan as spec;
ghost use Rattle.graph_vendor.specs.Plan.{IsPlanned, IsMade};
ghost use Rattle.graph_vendor.specs.Files.{AreOwn, IsNamed, IsTold};

use crate::files::files_of;
use crate::kept::{first_lost, first_taken, renamed};
use crate::names::{NewName, names_of};
use crate::refused::first_refused;
use base::Items;
use graph_builder::ModuleGraph;
use graph_entry::{Entry, ModuleAnalyzer};
use graph_tables::specifier_table::Numbered;
use std::alloc::{AllocError, Global};
use url::Url;
use vendor_files::VendorFile;

/// A graph's modules as files of a folder.
#[derive(Drop)]
pub struct VendorPlan {
    /// The new names of the graph's roots, in their order.
    pub roots: Items<Url>,
    /// One for each module, in the order of their old specifiers' bytes.
    pub files: Items<VendorFile>,
    /// The specifiers that aren't part of the graph's sources, by their bytes.
    pub externals: Items<Url>,
}

/// Why a graph can't be vendored.
#[derive(Clone, Copy, Debug, PartialEq)]
pub enum VendorCause {
    /// Places outside the graph import from it.
    ReferrerImport,
    /// The specifier is a `data:` URL.
    DataName,
    /// The entry is an error.
    EntryError,
    /// The source's edges aren't those of its text.
    OtherAnalyser,
    /// An edge of the module has no target.
    RefusedEdge,
    /// An edge of the module is in a comment.
    ReferenceComment,
    /// An edge of the module is in WebAssembly.
    WasmImport,
    /// The module's new name is the specifier of an entry.
    NameTaken,
    /// The module's new name is no URL or none that a loader is asked for, has another media type, or leads elsewhere by
    /// one of its new literals.
    NameNotKept,
}

/// Why there is no plan.
#[derive(Drop)]
pub enum VendorError {
    /// The first cause, with the specifier that has it.
    Refused(VendorCause, Url),
    OutOfMemory,
}

/// What becomes of a graph.
#[derive(Drop)]
pub enum Planned {
    Made(VendorPlan),
    Unplanned(VendorCause, Url),
}

/// The modules of the graph as files of the folder `base`, or the first cause for which there is no plan.
pub fn plan_vendor<M: ModuleAnalyzer>(
    alloc: Global,
    analyzer: &M,
    graph: &ModuleGraph,
    base: &Url,
) -> Result<VendorPlan, VendorError>
    // It reads sources as the parser does.
    requires { (s : List ℕ) (media : Media) (text : List ℕ) (sites : List Place)
        → M.reads analyzer.now s media text (Ok sites) → HasSites media text sites }
    ensures { IsPlanned (M.reads analyzer.now) graph.now base.now result }
{
    match outcome_of(alloc, analyzer, graph, base) {
        Ok(Planned::Made(plan)) => Ok(plan),
        Ok(Planned::Unplanned(cause, specifier)) => Err(VendorError::Refused(cause, specifier)),
        Err(_) => Err(VendorError::OutOfMemory),
    }
}

fn outcome_of<M: ModuleAnalyzer>(
    alloc: Global,
    analyzer: &M,
    graph: &ModuleGraph,
    base: &Url,
) -> Result<Planned, AllocError>
    requires { (s : List ℕ) (media : Media) (text : List ℕ) (sites : List Place)
        → M.reads analyzer.now s media text (Ok sites) → HasSites media text sites }
    ensures { IfOk result (IsTold (M.reads analyzer.now) graph.now (names_in base.now graph.now.entries)) }
{
    match graph.referrer_imports().first() {
        Some(first) => Ok(Planned::Unplanned(VendorCause::ReferrerImport, first.0.clone()?)),
        None => passed(alloc, analyzer, graph, base),
    }
}

// What becomes of a graph from which no place outside imports.
fn passed<M: ModuleAnalyzer>(
    alloc: Global,
    analyzer: &M,
    graph: &ModuleGraph,
    base: &Url,
) -> Result<Planned, AllocError>
    requires parser { (s : List ℕ) (media : Media) (text : List ℕ) (sites : List Place)
        → M.reads analyzer.now s media text (Ok sites) → HasSites media text sites }
    requires alone { graph.now.imports ≡ [] }
    ensures { IfOk result (IsTold (M.reads analyzer.now) graph.now (names_in base.now graph.now.entries)) }
{
    match first_refused(alloc, analyzer, graph)? {
        Some((cause, specifier)) => Ok(Planned::Unplanned(cause, specifier)),
        None => named(alloc, graph, base),
    }
}

// What becomes of a graph of which nothing is refused.
#[tactic(auto, using(crate::proofs::ApartLemmas::names_apart))]
fn named(alloc: Global, graph: &ModuleGraph, base: &Url) -> Result<Planned, AllocError>
    requires { AreOwn graph.now.entries }
    ensures { IfOk result (IsNamed graph.now (names_in base.now graph.now.entries)) }
{
    let names = names_of(alloc, graph, base)?;
    named_so(alloc, graph, &names)
}

fn named_so(
    alloc: Global,
    graph: &ModuleGraph,
    names: &Numbered<NewName>,
) -> Result<Planned, AllocError>
    requires own { AreOwn graph.now.entries }
    requires apart { IsDistinct bytes_eq (spec.targets_of (spec.files_of graph.now.entries names.now (modules_of graph.now.entries))) }
    ensures { IfOk result (IsNamed graph.now names.now) }
{
    match first_taken(graph, names)? {
        Some(specifier) => Ok(Planned::Unplanned(VendorCause::NameTaken, specifier)),
        None => free_so(alloc, graph, names),
    }
}

fn free_so(
    alloc: Global,
    graph: &ModuleGraph,
    names: &Numbered<NewName>,
) -> Result<Planned, AllocError>
    requires own { AreOwn graph.now.entries }
    requires apart { IsDistinct bytes_eq (spec.targets_of (spec.files_of graph.now.entries names.now (modules_of graph.now.entries))) }
    requires free { taken graph.now.entries names.now graph.now.entries ≡ None }
    ensures { IfOk result (IsNamed graph.now names.now) }
{
    match first_lost(alloc, graph, names)? {
        Some(specifier) => Ok(Planned::Unplanned(VendorCause::NameNotKept, specifier)),
        None => Ok(Planned::Made(plan_by(alloc, graph, names)?)),
    }
}

fn plan_by(
    alloc: Global,
    graph: &ModuleGraph,
    names: &Numbered<NewName>,
) -> Result<VendorPlan, AllocError>
    requires own { AreOwn graph.now.entries }
    requires apart { IsDistinct bytes_eq (spec.targets_of (spec.files_of graph.now.entries names.now (modules_of graph.now.entries))) }
    requires free { taken graph.now.entries names.now graph.now.entries ≡ None }
    requires kept { IsFirstLost graph.now.entries names.now graph.now.entries None }
    ensures { IfOk result (IsMade graph.now names.now) }
{
    Ok(VendorPlan {
        roots: roots_of(alloc, graph, names)?,
        files: files_of(alloc, graph, names)?,
        externals: externals_of(alloc, graph)?,
    })
}

// The new names of the roots.
fn roots_of(
    alloc: Global,
    graph: &ModuleGraph,
    names: &Numbered<NewName>,
) -> Result<Items<Url>, AllocError>
    ensures { IfOk result (λ roots. texts roots
        ≡ filter_map (λ r. renamed graph.now.entries names.now (text_of r)) graph.now.roots) }
{
    let mut roots = Items::new(alloc);
    for root in graph.roots() {
        if let Some(url) = renamed(graph, names, root) {
            roots.push(url.clone()?)?;
        }
    }
    Ok(roots)
}

// The specifiers that aren't part of the graph's sources.
fn externals_of(alloc: Global, graph: &ModuleGraph) -> Result<Items<Url>, AllocError>
    ensures { IfOk result (λ urls. urls ≡ filter_map spec.external graph.now.entries) }
{
    let mut urls = Items::new(alloc);
    for (specifier, entry) in graph.entries()? {
        if let Entry::External = entry {
            urls.push(specifier.clone()?)?;
        }
    }
    Ok(urls)
}
