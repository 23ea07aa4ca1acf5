//! An entry of a graph, and its edges, as records and texts.
ghost use Rattle.std.specs.Prelude.{◌≡◌, ◌+◌, ◌++◌, length, vec_len, IfOk, OnOk};
ghost use Rattle.graph_entry.specs.Specifier.{text_of};
ghost use Rattle.graph_session.specs.Records as spec;

use base::Range;
use es_site::{Attribute, DependencyKind};
use graph_builder::ModuleGraph;
use graph_entry::{Dependency, Entry, Module, ModuleError, ResolutionError};
use media_type::MediaType;
use std::alloc::{AllocError, Global};
use url::Url;

/// Where there is no number.
pub const NONE: usize = usize::MAX;
/// The number of no media type.
pub const NO_MEDIA_TYPE: u32 = 21;

/// What a graph has for a specifier. Places in texts count bytes from 0, and an end is the byte after.
#[repr(C)]
#[derive(Clone, Copy)]
pub struct EntryRecord {
    pub state: u32,
    /// Of a module, and of what is refused for it.
    pub media_type: u32,
    /// Why there is no module, or 0, and the byte of the text where the fault is.
    pub fault: u32,
    pub place: usize,
    /// How many bytes the module has.
    pub size: usize,
    /// The specifier, and where it redirects to, among the texts.
    pub specifier_end: usize,
    pub target_end: usize,
    /// The number of the entry that it redirects to.
    pub target: usize,
    /// How many edges it has, and how many bytes all texts.
    pub edges: usize,
    pub text_bytes: usize,
}

/// An edge of an entry.
#[repr(C)]
#[derive(Clone, Copy)]
pub struct EdgeRecord {
    pub kind: u32,
    pub type_only: bool,
    /// Where it is in the text of its module.
    pub start: usize,
    pub end: usize,
    /// Its value among the texts, then the text of its attribute, and then its target.
    pub value_start: usize,
    pub value_end: usize,
    pub attribute: u32,
    pub attribute_end: usize,
    pub target_end: usize,
    /// The number of its target's entry.
    pub target: usize,
    /// Why it has no target, or 0.
    pub fault: u32,
}

/// An entry with its edges and its texts: the specifier, where it redirects to, and the texts of each edge.
#[derive(Drop)]
pub struct LaidEntry {
    pub entry: EntryRecord,
    pub edges: Vec<EdgeRecord>,
    pub texts: Vec<u8>,
}

/// The records and texts of an entry.
#[tactic(auto, unfolding(graph_entry::specs::Specifier::text_of))]
pub fn lay_entry(
    alloc: Global,
    graph: &ModuleGraph,
    specifier: &Url,
    entry: &Entry,
) -> Result<LaidEntry, AllocError>
    ensures { IfOk result (spec.IsLaid graph.now.numbered specifier.now entry.now) }
{
    let mut texts = Vec::new(alloc);
    texts.extend_from_slice(specifier.as_str().as_bytes())?;
    let specifier_end = texts.len();
    texts.extend_from_slice(redirect_text(entry).as_bytes())?;
    let target_end = texts.len();
    let edges = lay_edges(alloc, graph, edges_of(entry), &mut texts)?;
    Ok(LaidEntry {
        entry: EntryRecord {
            specifier_end,
            target_end,
            edges: edges.len(),
            text_bytes: texts.len(),
            ..entry_record(graph, entry)
        },
        edges,
        texts,
    })
}

// The record of an entry before its edges and texts are known.
fn entry_record(graph: &ModuleGraph, entry: &Entry) -> EntryRecord
    ensures place { spec.IsPlace entry.now result.place }
    ensures is { result ≡ spec.entry_record graph.now.numbered entry.now result.place }
{
    EntryRecord {
        state: state_number(entry),
        media_type: media_number(entry),
        fault: fault_number(entry),
        place: fault_place(entry),
        size: size_of(entry),
        specifier_end: 0,
        target_end: 0,
        target: redirect_number(graph, entry),
        edges: 0,
        text_bytes: 0,
    }
}

fn lay_edges(
    alloc: Global,
    graph: &ModuleGraph,
    found: &[Dependency],
    texts: &mut Vec<u8>,
) -> Result<Vec<EdgeRecord>, AllocError>
    ensures records { IfOk result (λ edges. edges.items ≡ spec.edge_records graph.now.numbered (vec_len texts.old) found.now) }
    ensures counted { IfOk result (λ edges. vec_len edges ≡ length found.now) }
    ensures texts { OnOk result (texts.new.items ≡ texts.old.items ++ spec.all_edge_texts found.now) }
    ensures filled { OnOk result (vec_len texts.new ≡ vec_len texts.old + length (spec.all_edge_texts found.now)) }
{
    let mut edges = Vec::new(alloc);
    for edge in found {
        let laid = lay_edge(graph, edge, texts)?;
        edges.push(laid)?;
    }
    Ok(edges)
}

// Puts the texts of an edge after the others, and returns its record.
fn lay_edge(
    graph: &ModuleGraph,
    edge: &Dependency,
    texts: &mut Vec<u8>,
) -> Result<EdgeRecord, AllocError>
    ensures record_is { IfOk result (λ r. r ≡ spec.edge_record graph.now.numbered (vec_len texts.old) edge.now) }
    ensures texts { OnOk result (texts.new.items ≡ texts.old.items ++ spec.edge_texts edge.now) }
    ensures filled { OnOk result (vec_len texts.new ≡ vec_len texts.old + length (spec.edge_texts edge.now)) }
{
    let value_start = texts.len();
    texts.extend_from_slice(edge.text.as_str().as_bytes())?;
    let value_end = texts.len();
    texts.extend_from_slice(attribute_text(&edge.attribute).as_bytes())?;
    let attribute_end = texts.len();
    texts.extend_from_slice(target_text(edge).as_bytes())?;
    Ok(EdgeRecord {
        kind: kind_number(edge.kind),
        type_only: edge.type_only,
        start: range_of(edge).start,
        end: range_of(edge).end,
        value_start,
        value_end,
        attribute: attribute_number(&edge.attribute),
        attribute_end,
        target_end: texts.len(),
        target: target_number(graph, edge),
        fault: edge_fault(edge),
    })
}

fn range_of(edge: &Dependency) -> Range
    ensures { result ≡ spec.range_of edge.now }
{
    match edge.range {
        Some(range) => range,
        None => Range { start: 0, end: 0 },
    }
}

#[tactic(auto, unfolding(graph_entry::specs::Specifier::text_of))]
fn target_text(edge: &Dependency) -> &str
    ensures { result.now ≡ spec.target_text edge.now }
{
    match &edge.resolution {
        Ok(target) => target.as_str(),
        Err(_) => "",
    }
}

fn target_number(graph: &ModuleGraph, edge: &Dependency) -> usize
    ensures { result ≡ spec.target_number graph.now.numbered edge.now }
{
    match &edge.resolution {
        Ok(target) => number_of(graph, target),
        Err(_) => NONE,
    }
}

// The number of a specifier's entry, or `NONE`.
fn number_of(graph: &ModuleGraph, specifier: &Url) -> usize
    ensures { result ≡ spec.number_or_none graph.now.numbered specifier.now }
{
    match graph.number(specifier) {
        Some(number) => number,
        None => NONE,
    }
}

fn edge_fault(edge: &Dependency) -> u32
    ensures { result ≡ spec.edge_fault edge.now }
{
    match &edge.resolution {
        Ok(_) => 0,
        Err(ResolutionError::ImportPrefixMissing { .. }) => 1,
        Err(ResolutionError::InvalidUrl(_)) => 2,
        Err(ResolutionError::InvalidDowngrade) => 3,
        Err(ResolutionError::InvalidLocalImport) => 4,
        Err(ResolutionError::InvalidTypeAssertion) => 5,
        Err(ResolutionError::InvalidSourcePhase) => 6,
        Err(ResolutionError::Refused(_)) => 7,
    }
}

fn attribute_number(attribute: &Attribute) -> u32
    ensures { result ≡ spec.attribute_number attribute.now }
{
    match attribute {
        Attribute::Absent => 0,
        Attribute::Unknown => 1,
        Attribute::Named(_) => 2,
    }
}

fn attribute_text(attribute: &Attribute) -> &str
    ensures { result.now ≡ spec.attribute_text attribute.now }
{
    match attribute {
        Attribute::Named(text) => text.as_str(),
        _ => "",
    }
}

fn kind_number(kind: DependencyKind) -> u32
    ensures { result ≡ spec.kind_number kind }
{
    match kind {
        DependencyKind::Import => 0,
        DependencyKind::Export => 1,
        DependencyKind::ImportEquals => 2,
        DependencyKind::Dynamic => 3,
        DependencyKind::ReferencePath => 4,
        DependencyKind::ReferenceTypes => 5,
        DependencyKind::Wasm => 6,
        DependencyKind::Referrer => 7,
        DependencyKind::ImportSource => 8,
        DependencyKind::ImportDefer => 9,
        DependencyKind::DynamicSource => 10,
        DependencyKind::DynamicDefer => 11,
        DependencyKind::Require => 12,
        DependencyKind::RequireResolve => 13,
        DependencyKind::TypeImport => 14,
        DependencyKind::Worker => 15,
        DependencyKind::Address => 16,
    }
}

// ---- entries

fn edges_of(entry: &Entry) -> &[Dependency]
    ensures { result.now ≡ spec.edges_of entry.now }
{
    match entry {
        Entry::Module(Module::Js(module)) => module.dependencies.as_slice(),
        Entry::Module(Module::Wasm(module)) => module.dependencies.as_slice(),
        Entry::Module(Module::Json(_))
        | Entry::Redirect(_)
        | Entry::Package(_)
        | Entry::External
        | Entry::Error(_) => &[],
    }
}

fn state_number(entry: &Entry) -> u32
    ensures { result ≡ spec.state_number entry.now }
{
    match entry {
        Entry::Module(_) => 0,
        Entry::Redirect(_) => 1,
        Entry::Package(_) => 2,
        Entry::External => 3,
        Entry::Error(_) => 4,
    }
}

fn media_number(entry: &Entry) -> u32
    ensures { result ≡ spec.media_number entry.now }
{
    match entry {
        Entry::Module(Module::Js(module)) => number_of_type(module.media_type),
        Entry::Module(Module::Json(_)) => 11,
        Entry::Module(Module::Wasm(_)) => 12,
        Entry::Error(ModuleError::UnsupportedMediaType(media_type)) => number_of_type(*media_type),
        _ => NO_MEDIA_TYPE,
    }
}

fn number_of_type(media_type: MediaType) -> u32
    ensures { result ≡ spec.number_of_type media_type }
{
    match media_type {
        MediaType::Dts => 0,
        MediaType::Dmts => 1,
        MediaType::Dcts => 2,
        MediaType::TypeScript => 3,
        MediaType::Mts => 4,
        MediaType::Cts => 5,
        MediaType::Tsx => 6,
        MediaType::JavaScript => 7,
        MediaType::Mjs => 8,
        MediaType::Cjs => 9,
        MediaType::Jsx => 10,
        MediaType::Json => 11,
        MediaType::Wasm => 12,
        MediaType::Jsonc => 13,
        MediaType::Json5 => 14,
        MediaType::Css => 15,
        MediaType::Html => 16,
        MediaType::Markdown => 17,
        MediaType::Sql => 18,
        MediaType::SourceMap => 19,
        MediaType::Unknown => 20,
    }
}

fn size_of(entry: &Entry) -> usize
    ensures { result ≡ spec.size_of entry.now }
{
    match entry {
        Entry::Module(Module::Js(module)) => module.text.len(),
        Entry::Module(Module::Json(module)) => module.text.len(),
        Entry::Module(Module::Wasm(module)) => module.bytes.len(),
        _ => 0,
    }
}

#[tactic(auto, unfolding(graph_entry::specs::Specifier::text_of))]
fn redirect_text(entry: &Entry) -> &str
    ensures { result.now ≡ spec.redirect_text entry.now }
{
    match entry {
        Entry::Redirect(target) => target.as_str(),
        Entry::Error(ModuleError::TooManyRedirects(target)) => target.as_str(),
        _ => "",
    }
}

fn redirect_number(graph: &ModuleGraph, entry: &Entry) -> usize
    ensures { result ≡ spec.redirect_number graph.now.numbered entry.now }
{
    match entry {
        Entry::Redirect(target) => number_of(graph, target),
        Entry::Error(ModuleError::TooManyRedirects(target)) => number_of(graph, target),
        _ => NONE,
    }
}

fn fault_number(entry: &Entry) -> u32
    ensures { result ≡ spec.fault_number entry.now }
{
    match entry {
        Entry::Error(error) => error_number(error),
        _ => 0,
    }
}

fn error_number(error: &ModuleError) -> u32
    ensures { result ≡ spec.error_number error.now }
{
    match error {
        ModuleError::Missing => 1,
        ModuleError::Loading => 2,
        ModuleError::TooManyRedirects(_) => 3,
        ModuleError::UnsupportedMediaType(_) => 4,
        ModuleError::Decode => 5,
        ModuleError::Parse(_) => 6,
        ModuleError::WasmParse(_) => 7,
        ModuleError::DataUrl(_) => 8,
        ModuleError::PackageReference => 9,
        ModuleError::OutOfMemory => 10,
    }
}

// Where a text is faulty; of a fault among its tokens any place is allowed.
fn fault_place(entry: &Entry) -> usize
    ensures { spec.IsPlace entry.now result }
{
    match entry {
        Entry::Error(ModuleError::Parse(kept)) => kept.diagnostic().range().start,
        _ => 0,
    }
}
