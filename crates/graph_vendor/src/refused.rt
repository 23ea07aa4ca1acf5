//! What can't be vendored among the entries of a graph.
ghost use Rattle.std.specs.Prelude.{◌≡◌, ◌↔◌, true, codes, IfOk};
ghost use Rattle.graph_entry.specs.Specifier.{text_of};
ghost use Rattle.graph_entry.specs.Resolution.{has_scheme};
ghost use Rattle.graph_vendor.specs.Refused.{IsFirstRefused, HasCause, OfSource};

use crate::edges::{are_of_sites, edges_cause};
use crate::plan::VendorCause;
use graph_builder::ModuleGraph;
use graph_entry::{AnalyzeFault, Entry, JsModule, Module, ModuleAnalyzer};
use std::alloc::{AllocError, Global};
use url::Url;

/// The first entry that can't be vendored, and why.
pub fn first_refused<M: ModuleAnalyzer>(
    alloc: Global,
    analyzer: &M,
    graph: &ModuleGraph,
) -> Result<Option<(VendorCause, Url)>, AllocError>
    ensures { IfOk result (IsFirstRefused (M.reads analyzer.now) graph.now.entries) }
{
    for (specifier, entry) in graph.entries()? {
        if let Some(cause) = cause_of(alloc, analyzer, specifier, entry)? {
            return Ok(Some((cause, specifier.clone()?)));
        }
    }
    Ok(None)
}

// Why an entry can't be vendored, if it can't.
fn cause_of<M: ModuleAnalyzer>(
    alloc: Global,
    analyzer: &M,
    specifier: &Url,
    entry: &Entry,
) -> Result<Option<VendorCause>, AllocError>
    ensures { IfOk result
        (HasCause (M.reads analyzer.now) (has_scheme (codes "data") specifier.now) (text_of specifier.now) entry.now) }
{
    if specifier.scheme() == "data" {
        return Ok(Some(VendorCause::DataName));
    }
    match entry {
        Entry::Module(Module::Js(module)) => source_cause(alloc, analyzer, specifier, module),
        Entry::Module(Module::Wasm(module)) => Ok(edges_cause(module.dependencies.as_slice())),
        Entry::Error(_) => Ok(Some(VendorCause::EntryError)),
        Entry::Module(Module::Json(_)) | Entry::Redirect(_) | Entry::Package(_) | Entry::External =>
            Ok(None),
    }
}

// Why a source can't be vendored, if it can't.
fn source_cause<M: ModuleAnalyzer>(
    alloc: Global,
    analyzer: &M,
    specifier: &Url,
    held: &JsModule,
) -> Result<Option<VendorCause>, AllocError>
    ensures { IfOk result (OfSource (M.reads analyzer.now) (text_of specifier.now) held.now) }
{
    match analyzer.analyze(alloc, specifier, &held.text, held.media_type) {
        Ok(info) => {
            if are_of_sites(held.dependencies.as_slice(), info.sites.as_slice()) {
                Ok(edges_cause(held.dependencies.as_slice()))
            } else {
                Ok(Some(VendorCause::OtherAnalyser))
            }
        }
        Err(AnalyzeFault::Parse(_)) => Ok(Some(VendorCause::OtherAnalyser)),
        Err(AnalyzeFault::OutOfMemory) => Err(AllocError),
    }
}
