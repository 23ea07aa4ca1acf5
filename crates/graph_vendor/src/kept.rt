//! Whether the new names of modules serve.
ghost use Rattle.std.specs.Prelude.{◌≡◌, ◌↔◌, ◌++◌, true, [], None, Ok, codes, bytes_eq, IfOk, option_map};
ghost use Rattle.std.specs.Option.{option_copied};
ghost use Rattle.std.specs.Result.{result_ok};
ghost use Rattle.url.specs.Parser.{parse_url};
ghost use Rattle.graph_entry.specs.Specifier.{text_of};
ghost use Rattle.graph_entry.specs.Analysed.{media_type_at};
ghost use Rattle.graph_builder.specs.Rules.{edges_of};
ghost use Rattle.graph_vendor.specs.Names as spec;
ghost use Rattle.graph_vendor.specs.Kept.{IsKept, Serves, ServesAt, IsFirstLost};
ghost use Rattle.graph_vendor.specs.Kept as kept;

use crate::names::{NewName, media_of, name_at, target_at};
use base::Text;
use graph_builder::ModuleGraph;
use graph_entry::{Dependency, Entry, MediaType, Module, is_loadable, resolve};
use graph_tables::specifier_table::Numbered;
use std::alloc::{AllocError, Global};
use url::{ParseError, Url};

/// The first module whose new name is the specifier of an entry.
pub fn first_taken(
    graph: &ModuleGraph,
    names: &Numbered<NewName>,
) -> Result<Option<Url>, AllocError>
    ensures { IfOk result (λ found. found ≡ kept.first_taken graph.now.entries names.now graph.now.entries) }
{
    for (specifier, entry) in graph.entries()? {
        if !is_free(graph, names, specifier, entry) {
            return Ok(Some(specifier.clone()?));
        }
    }
    Ok(None)
}

fn is_free(graph: &ModuleGraph, names: &Numbered<NewName>, specifier: &Url, entry: &Entry) -> bool
    ensures { result ≡ kept.is_free graph.now.entries names.now (text_of specifier.now) entry.now }
{
    match entry {
        Entry::Module(_) => is_free_at(graph, target_at(names, specifier)),
        _ => true,
    }
}

fn is_free_at(graph: &ModuleGraph, target: Option<&Url>) -> bool
    ensures { result ≡ kept.is_free_at graph.now.entries (option_copied target.entry) }
{
    match target {
        Some(target) => graph.entry(target).is_none(),
        None => true,
    }
}

/// The first module whose new name doesn't serve.
pub fn first_lost(
    alloc: Global,
    graph: &ModuleGraph,
    names: &Numbered<NewName>,
) -> Result<Option<Url>, AllocError>
    ensures { IfOk result (IsFirstLost graph.now.entries names.now graph.now.entries) }
{
    for (specifier, entry) in graph.entries()? {
        if !is_kept(alloc, graph, names, specifier, entry)? {
            return Ok(Some(specifier.clone()?));
        }
    }
    Ok(None)
}

fn is_kept(
    alloc: Global,
    graph: &ModuleGraph,
    names: &Numbered<NewName>,
    specifier: &Url,
    entry: &Entry,
) -> Result<bool, AllocError>
    ensures { IfOk result (λ yes. (yes ≡ true) ↔ IsKept graph.now.entries names.now (text_of specifier.now) entry.now) }
{
    match entry {
        Entry::Module(module) => serves_at(
            alloc,
            graph,
            names,
            module,
            target_at(names, specifier),
        ),
        _ => Ok(true),
    }
}

fn serves_at(
    alloc: Global,
    graph: &ModuleGraph,
    names: &Numbered<NewName>,
    held: &Module,
    target: Option<&Url>,
) -> Result<bool, AllocError>
    ensures { IfOk result (λ yes. (yes ≡ true)
        ↔ ServesAt graph.now.entries names.now held.now (option_copied target.entry)) }
{
    match target {
        Some(target) => serves(alloc, graph, names, held, target),
        None => Ok(false),
    }
}

fn serves(
    alloc: Global,
    graph: &ModuleGraph,
    names: &Numbered<NewName>,
    held: &Module,
    target: &Url,
) -> Result<bool, AllocError>
    ensures { IfOk result (λ yes. (yes ≡ true) ↔ Serves graph.now.entries names.now held.now target.now) }
{
    if !is_loadable(target) {
        return Ok(false);
    }
    if told_media(alloc, target)? != media_of(held) {
        return Ok(false);
    }
    keep_edges(alloc, graph, names, target, edges(held))
}

// The media type of content without headers at a specifier, which is read again.
fn told_media(alloc: Global, specifier: &Url) -> Result<MediaType, AllocError>
    ensures { IfOk result (λ media. media ≡ media_type_at (text_of specifier.now) []) }
{
    match read(alloc, specifier.as_str())? {
        Some(again) => MediaType::from_specifier(alloc, &again),
        None => Ok(MediaType::Unknown),
    }
}

// The URL that a text is read as, if it is one.
fn read(alloc: Global, text: &str) -> Result<Option<Url>, AllocError>
    ensures { IfOk result (λ url. url ≡ result_ok (parse_url None text.now)) }
{
    match Url::parse(alloc, text) {
        Ok(url) => Ok(Some(url)),
        Err(ParseError::OutOfMemory | ParseError::Overflow) => Err(AllocError),
        Err(_) => Ok(None),
    }
}

fn keep_edges(
    alloc: Global,
    graph: &ModuleGraph,
    names: &Numbered<NewName>,
    at: &Url,
    edges: &[Dependency],
) -> Result<bool, AllocError>
    ensures { IfOk result (λ yes. yes ≡ kept.keep_edges graph.now.entries names.now (text_of at.now) edges.now) }
{
    for edge in edges {
        if !keeps_edge(alloc, graph, names, at, edge)? {
            return Ok(false);
        }
    }
    Ok(true)
}

fn keeps_edge(
    alloc: Global,
    graph: &ModuleGraph,
    names: &Numbered<NewName>,
    at: &Url,
    edge: &Dependency,
) -> Result<bool, AllocError>
    ensures { IfOk result (λ yes. yes
        ≡ kept.keeps_edge graph.now.entries names.now (text_of at.now) edge.now.resolution) }
{
    match &edge.resolution {
        Ok(to) => leads_there(alloc, graph, names, at, to),
        Err(_) => Ok(true),
    }
}

fn leads_there(
    alloc: Global,
    graph: &ModuleGraph,
    names: &Numbered<NewName>,
    at: &Url,
    to: &Url,
) -> Result<bool, AllocError>
    ensures { IfOk result (λ yes. yes
        ≡ kept.leads_there graph.now.entries names.now (text_of at.now) (text_of to.now)) }
{
    let text = literal_for(alloc, graph, names, to)?;
    match resolve(alloc, text.as_str(), at)? {
        Ok(there) => Ok(is_renamed(graph, names, to, &there)),
        Err(_) => Ok(false),
    }
}

fn is_renamed(graph: &ModuleGraph, names: &Numbered<NewName>, to: &Url, there: &Url) -> bool
    ensures { result ≡ kept.leads_by (Ok there.now) (spec.renamed graph.now.entries names.now (text_of to.now)) }
{
    match renamed(graph, names, to) {
        Some(url) => is_same(url, there),
        None => false,
    }
}

#[tactic(auto, unfolding(graph_entry::specs::Specifier::text_of))]
fn is_same(a: &Url, b: &Url) -> bool
    ensures { result ≡ bytes_eq (text_of a.now) (text_of b.now) }
{
    a.as_str() == b.as_str()
}

/// The new name of a specifier, where it has one.
pub fn renamed<'a>(
    graph: &'a ModuleGraph,
    names: &'a Numbered<NewName>,
    specifier: &'a Url,
) -> Option<&'a Url>
    ensures { option_map text_of (option_copied result)
        ≡ spec.renamed graph.now.entries names.now (text_of specifier.now) }
{
    let there = graph.resolve(specifier);
    match name_at(names, there) {
        Some(name) => name.target.as_ref(),
        None => Some(there),
    }
}

/// What replaces a literal that resolves to a specifier.
#[tactic(auto, unfolding(graph_entry::specs::Specifier::text_of))]
pub fn literal_for(
    alloc: Global,
    graph: &ModuleGraph,
    names: &Numbered<NewName>,
    to: &Url,
) -> Result<Text, AllocError>
    ensures { IfOk result (λ text. text ≡ spec.literal graph.now.entries names.now (text_of to.now)) }
{
    let there = graph.resolve(to);
    match name_at(names, there) {
        Some(name) => beside(alloc, name.file_name.as_str()),
        None => Text::from_str(alloc, there.as_str()),
    }
}

// The file in the same folder.
fn beside(alloc: Global, file_name: &str) -> Result<Text, AllocError>
    ensures { IfOk result (λ text. text ≡ codes "./" ++ file_name.now) }
{
    let mut text = String::from_str(alloc, "./")?;
    text.push_str(file_name)?;
    Ok(Text::from_string(text))
}

/// The edges of a module.
pub fn edges(held: &Module) -> &[Dependency]
    ensures { result.now ≡ edges_of held.now }
{
    match held {
        Module::Js(module) => module.dependencies.as_slice(),
        Module::Wasm(module) => module.dependencies.as_slice(),
        Module::Json(_) => &[],
    }
}
