//! Modules of WebAssembly.
ghost use Rattle.std.specs.Prelude.{◌≡◌, None, map, IfOk};
ghost use Rattle.url.specs.Parser.{parse_url};
ghost use Rattle.wasm_dep_analyzer.specs.Imports.{imported};
ghost use Rattle.graph_entry.specs.Specifier.{text_of};
ghost use Rattle.graph_entry.specs.Wasm.{wasm_resolves, wasm_dependency, OfWasm};
ghost use Rattle.graph_entry.specs.Steps.{GivesEdges, read_of};

use crate::entry::{Dependency, Entry, Module, ModuleError, WasmModule};
use crate::kind_resolver::KindResolver;
use crate::resolution::{ReadAgain, resolve_from};
use base::{Items, SharedBytes, Text};
use es_site::{Attribute, DependencyKind};
use std::alloc::{AllocError, Global};
use url::Url;
use wasm_dep_analyzer::{Import, ParseError, ParseOptions, WasmDeps};

/// The module that the bytes are, or why they are none. The base is the specifier, read again.
pub fn analyse_wasm<R: KindResolver>(
    alloc: Global,
    resolver: &R,
    specifier: &Url,
    base: &ReadAgain<'_>,
    bytes: SharedBytes,
) -> Result<Entry, AllocError>
    requires again { read_of base.now ≡ parse_url None (text_of specifier.now) }
    ensures { IfOk result (OfWasm (wasm_resolves (R.resolving_by_kind resolver.now)) (text_of specifier.now) bytes) }
{
    match read_edges(alloc, resolver, specifier, base, bytes.as_slice())? {
        Ok(dependencies) => Ok(Entry::Module(Module::Wasm(WasmModule {
            bytes,
            dependencies,
        }))),
        Err(error) => Ok(Entry::Error(ModuleError::WasmParse(error))),
    }
}

// The edges of a module, or its first fault.
fn read_edges<R: KindResolver>(
    alloc: Global,
    resolver: &R,
    specifier: &Url,
    base: &ReadAgain<'_>,
    bytes: &[u8],
) -> Result<Result<Items<Dependency>, ParseError>, AllocError>
    requires again { read_of base.now ≡ parse_url None (text_of specifier.now) }
    ensures { IfOk result (GivesEdges (wasm_resolves (R.resolving_by_kind resolver.now)) (text_of specifier.now) bytes.now) }
{
    match WasmDeps::parse(alloc, bytes, ParseOptions { skip_types: true }) {
        Ok(deps) => Ok(Ok(edges_of(alloc, resolver, specifier, base, &deps.imports)?)),
        Err(ParseError::OutOfMemory) => Err(AllocError),
        Err(error) => Ok(Err(error)),
    }
}

fn edges_of<R: KindResolver>(
    alloc: Global,
    resolver: &R,
    specifier: &Url,
    base: &ReadAgain<'_>,
    imports: &[Import<'_>],
) -> Result<Items<Dependency>, AllocError>
    requires again { read_of base.now ≡ parse_url None (text_of specifier.now) }
    ensures { IfOk result (λ edges. edges
        ≡ map (wasm_dependency (wasm_resolves (R.resolving_by_kind resolver.now)) (text_of specifier.now)) (map imported imports.now)) }
{
    let mut edges = Items::from_vec(Vec::with_capacity(alloc, imports.len())?);
    for import in imports {
        edges.push(edge_of(alloc, resolver, specifier, base, import)?)?;
    }
    Ok(edges)
}

fn edge_of<R: KindResolver>(
    alloc: Global,
    resolver: &R,
    specifier: &Url,
    base: &ReadAgain<'_>,
    import: &Import<'_>,
) -> Result<Dependency, AllocError>
    requires again { read_of base.now ≡ parse_url None (text_of specifier.now) }
    ensures { IfOk result (λ edge. edge ≡ wasm_dependency (wasm_resolves (R.resolving_by_kind resolver.now)) (text_of specifier.now) (imported import.now)) }
{
    Ok(Dependency {
        kind: DependencyKind::Wasm,
        type_only: false,
        range: Some(import.module_range),
        text: Text::from_str(alloc, import.module)?,
        attribute: Attribute::Absent,
        resolution: resolve_from(alloc, resolver, DependencyKind::Wasm, base, import.module)?,
    })
}
