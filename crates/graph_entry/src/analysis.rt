//! What one answer of a loader makes of one specifier.
ghost use Rattle.std.specs.Prelude.{◌≡◌, None, Some, codes, map, IfOk};
ghost use Rattle.url.specs.Parser.{parse_url};
ghost use Rattle.graph_entry.specs.Specifier.{text_of};
ghost use Rattle.media_type.specs.Specifiers.{by_header};
ghost use Rattle.parse_diagnostic.specs.Diagnosis.{told};
ghost use Rattle.graph_entry.specs.Headers.{header_value};
ghost use Rattle.graph_entry.specs.Resolution.{resolve_by_kind};
ghost use Rattle.graph_entry.specs.Steps.{IsReadAgain, read_of};
ghost use Rattle.graph_entry.specs.Ways.{kind_ways_by};
ghost use Rattle.graph_entry.specs.Analysed as spec;
ghost use Rattle.graph_entry.specs.Analysed.{AnalysedBy, OfContent, OfBytes, OfText};

use crate::analyzer::{AnalyzeFault, ModuleAnalyzer};
use crate::answer::LoadAnswer;
use crate::entry::{Dependency, Entry, JsModule, Module, ModuleError};
use crate::headers::Headers;
use crate::json::{analyse_json, no_text};
use crate::kind_resolver::KindResolver;
use crate::resolution::{ReadAgain, read_again, resolve_from};
use crate::wasm::analyse_wasm;
use base::{Items, SharedBytes};
use es_site::Site;
use media_type::{MediaType, ModuleKind};
use parse_diagnostic::{KeptDiagnostic, ParseDiagnostic};
use source_text::SourceText;
use std::alloc::{AllocError, Global};
use url::Url;

/// The entry of the specifier, where a loader gave this answer for it, by a resolver and an analyser.
#[tactic(auto, unfolding(crate::specs::Analysed::AnalysedBy))]
pub fn analyse_by<R: KindResolver, M: ModuleAnalyzer>(
    alloc: Global,
    resolver: &R,
    analyzer: &M,
    specifier: &Url,
    answer: LoadAnswer,
) -> Result<Entry, AllocError>
    ensures { IfOk result (λ made. AnalysedBy (kind_ways_by (R.resolving_by_kind resolver.now) (M.reads analyzer.now))
        (text_of specifier.now) (Some answer) made) }
{
    match answer {
        LoadAnswer::Content { headers, bytes } => {
            analyse_content(alloc, resolver, analyzer, specifier, &headers, bytes)
        }
        LoadAnswer::Redirect(target) => Ok(Entry::Redirect(target)),
        LoadAnswer::External => Ok(Entry::External),
        LoadAnswer::Absent => Ok(Entry::Error(ModuleError::Missing)),
        LoadAnswer::Failed => Ok(Entry::Error(ModuleError::Loading)),
    }
}

/// The entry of content, whatever the specifier's scheme.
pub fn analyse_content<R: KindResolver, M: ModuleAnalyzer>(
    alloc: Global,
    resolver: &R,
    analyzer: &M,
    specifier: &Url,
    headers: &Headers,
    bytes: SharedBytes,
) -> Result<Entry, AllocError>
    ensures { IfOk result (OfContent (kind_ways_by (R.resolving_by_kind resolver.now) (M.reads analyzer.now))
        (text_of specifier.now) (spec.media_type_at (text_of specifier.now) headers.now) bytes) }
{
    let base = read_again(alloc, specifier)?;
    let media_type = media_type_by(alloc, &base, headers)?;
    analyse_as(
        alloc, resolver, analyzer, specifier, &base, media_type, bytes,
    )
}

// The media type of content with these headers, at a specifier that was read again.
fn media_type_by(
    alloc: Global,
    base: &ReadAgain<'_>,
    headers: &Headers,
) -> Result<MediaType, AllocError>
    ensures { IfOk result (λ m. m ≡ by_header
        (spec.media_type_read (read_of base.now)) (header_value (codes "content-type") headers.now)) }
{
    let by_path = media_type_read(alloc, base)?;
    match headers.content_type() {
        Some(header) => by_path.with_content_type(alloc, header),
        None => Ok(by_path),
    }
}

/// The entry of content of this media type. The base is the specifier, read again.
pub fn analyse_as<R: KindResolver, M: ModuleAnalyzer>(
    alloc: Global,
    resolver: &R,
    analyzer: &M,
    specifier: &Url,
    base: &ReadAgain<'_>,
    media_type: MediaType,
    bytes: SharedBytes,
) -> Result<Entry, AllocError>
    requires again { read_of base.now ≡ parse_url None (text_of specifier.now) }
    ensures { IfOk result (OfContent (kind_ways_by (R.resolving_by_kind resolver.now) (M.reads analyzer.now))
        (text_of specifier.now) media_type bytes) }
{
    match media_type.kind() {
        None => Ok(unsupported(media_type)),
        Some(ModuleKind::Source) => {
            let source = Source {
                specifier,
                base,
                media_type,
            };
            analyse_bytes(alloc, resolver, analyzer, source, bytes)
        }
        Some(ModuleKind::Json) => Ok(analyse_json(bytes)),
        Some(ModuleKind::Wasm) => analyse_wasm(alloc, resolver, specifier, base, bytes),
    }
}

fn unsupported(media_type: MediaType) -> Entry
    ensures { result ≡ spec.unsupported media_type }
{
    Entry::Error(ModuleError::UnsupportedMediaType(media_type))
}

// The media type of a specifier that was read again.
fn media_type_read(alloc: Global, base: &ReadAgain<'_>) -> Result<MediaType, AllocError>
    ensures { IfOk result (λ m. m ≡ spec.media_type_read (read_of base.now)) }
{
    match base.url() {
        Ok(url) => MediaType::from_specifier(alloc, url),
        Err(_) => Ok(MediaType::Unknown),
    }
}

// Where a source is and how it is read.
#[derive(Clone, Copy)]
struct Source<'a> {
    specifier: &'a Url,
    // The specifier, read again.
    base: &'a ReadAgain<'a>,
    media_type: MediaType,
}

fn analyse_bytes<R: KindResolver, M: ModuleAnalyzer>(
    alloc: Global,
    resolver: &R,
    analyzer: &M,
    source: Source<'_>,
    bytes: SharedBytes,
) -> Result<Entry, AllocError>
    requires { IsReadAgain source }
    ensures { IfOk result (OfBytes (kind_ways_by (R.resolving_by_kind resolver.now) (M.reads analyzer.now))
        (text_of source.entry.specifier.now) source.entry.media_type bytes) }
{
    match SourceText::from_utf8(bytes) {
        Ok(text) => analyse_text(alloc, resolver, analyzer, source, text.without_mark()),
        Err(_) => Ok(no_text()),
    }
}

fn analyse_text<R: KindResolver, M: ModuleAnalyzer>(
    alloc: Global,
    resolver: &R,
    analyzer: &M,
    source: Source<'_>,
    text: SourceText,
) -> Result<Entry, AllocError>
    requires { IsReadAgain source }
    ensures { IfOk result (OfText (kind_ways_by (R.resolving_by_kind resolver.now) (M.reads analyzer.now))
        (text_of source.entry.specifier.now) source.entry.media_type text) }
{
    match analyzer.analyze(alloc, source.specifier, &text, source.media_type) {
        Ok(info) => {
            let module = module_of(alloc, resolver, source, text, info.sites)?;
            Ok(Entry::Module(Module::Js(module)))
        }
        Err(AnalyzeFault::Parse(diagnostic)) => Ok(unparsed(diagnostic)),
        Err(AnalyzeFault::OutOfMemory) => Err(AllocError),
    }
}

fn unparsed(diagnostic: ParseDiagnostic) -> Entry
    ensures { result ≡ Entry.Error (ModuleError.Parse (told diagnostic)) }
{
    Entry::Error(ModuleError::Parse(KeptDiagnostic::new(diagnostic)))
}

fn module_of<R: KindResolver>(
    alloc: Global,
    resolver: &R,
    source: Source<'_>,
    text: SourceText,
    sites: Items<Site>,
) -> Result<JsModule, AllocError>
    requires { IsReadAgain source }
    ensures { IfOk result (λ made. made ≡ spec.js_module (resolve_by_kind (R.resolving_by_kind resolver.now))
        (text_of source.entry.specifier.now) source.entry.media_type text sites) }
{
    let dependencies = dependencies_of(alloc, resolver, source, sites)?;
    Ok(JsModule {
        media_type: source.media_type,
        text,
        dependencies,
    })
}

/// The module of the sites of a source at a specifier.
pub fn module_at<R: KindResolver>(
    alloc: Global,
    resolver: &R,
    specifier: &Url,
    media_type: MediaType,
    text: SourceText,
    sites: Items<Site>,
) -> Result<JsModule, AllocError>
    ensures { IfOk result (λ made. made ≡ spec.js_module (resolve_by_kind (R.resolving_by_kind resolver.now))
        (text_of specifier.now) media_type text sites) }
{
    let base = read_again(alloc, specifier)?;
    let source = Source {
        specifier,
        base: &base,
        media_type,
    };
    module_of(alloc, resolver, source, text, sites)
}

fn dependencies_of<R: KindResolver>(
    alloc: Global,
    resolver: &R,
    source: Source<'_>,
    sites: Items<Site>,
) -> Result<Items<Dependency>, AllocError>
    requires { IsReadAgain source }
    ensures { IfOk result (λ edges. edges ≡ map (spec.dependency_of (resolve_by_kind (R.resolving_by_kind resolver.now))
        (text_of source.entry.specifier.now)) sites) }
{
    let mut edges = Items::from_vec(Vec::with_capacity(alloc, sites.len())?);
    for site in sites.into_vec() {
        edges.push(dependency_of(alloc, resolver, source, site)?)?;
    }
    Ok(edges)
}

fn dependency_of<R: KindResolver>(
    alloc: Global,
    resolver: &R,
    source: Source<'_>,
    site: Site,
) -> Result<Dependency, AllocError>
    requires { IsReadAgain source }
    ensures { IfOk result (λ edge. edge ≡ spec.dependency_of (resolve_by_kind (R.resolving_by_kind resolver.now))
        (text_of source.entry.specifier.now) site) }
{
    let resolution = resolve_from(alloc, resolver, site.kind, source.base, site.value.as_str())?;
    Ok(Dependency {
        kind: site.kind,
        type_only: site.type_only,
        range: Some(site.range),
        text: site.value,
        attribute: site.attribute,
        resolution,
    })
}
