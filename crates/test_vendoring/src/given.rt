//! The graph of a row.

use crate::blind::Blind;
use base::{Items, SharedBytes, Text};
use deno_graph::{
    BuildOptions, GraphBuild, GraphKind, Headers, LoadAnswer, MemoryLoader, ModuleGraph,
    ReferrerImports,
};
use std::alloc::{AllocError, Global};
use test_rows::Row;
use url::Url;

/// The graph of a row's roots and modules, if its specifiers are URLs. After the folder come the roots, separated by blanks,
/// a place outside that imports the first of them or nothing, and for each module its specifier, a word for its answer and
/// a text: that of `text`, the target of `redirect`, nothing of `external`.
pub fn graph_of(alloc: Global, row: &Row) -> Result<Option<ModuleGraph>, AllocError> {
    let Some(roots) = urls(alloc, row.at(2))? else {
        return Ok(None);
    };
    let Some(modules) = modules(alloc, row)? else {
        return Ok(None);
    };
    let Some(imports) = imports(alloc, row)? else {
        return Ok(None);
    };
    let options = BuildOptions {
        kind: GraphKind::All,
        limit: 1000,
        skip_dynamic_deps: false,
        imports,
    };
    let loader = MemoryLoader::new(alloc, modules, Items::new(alloc))?;
    match GraphBuild::new(alloc, roots, options, loader) {
        Ok(build) => built(row.at(0), build),
        Err(_) => Err(AllocError),
    }
}

// The graph, by the parser or, where the row's call is `blind`, by what finds no edges.
fn built(call: &str, build: GraphBuild<MemoryLoader>) -> Result<Option<ModuleGraph>, AllocError> {
    if call == "blind" {
        let mut blind = build.with_analyzer(Blind)?;
        return Ok(blind.poll().ok());
    }
    let mut build = build;
    Ok(build.poll().ok())
}

/// The URL of a text, if it is one.
pub fn url(alloc: Global, text: &str) -> Option<Url> {
    Url::parse(alloc, text).ok()
}

fn urls(alloc: Global, texts: &str) -> Result<Option<Items<Url>>, AllocError> {
    let mut urls = Items::new(alloc);
    for text in texts.split(' ') {
        match url(alloc, text) {
            Some(url) => urls.push(url)?,
            None => return Ok(None),
        }
    }
    Ok(Some(urls))
}

fn imports(alloc: Global, row: &Row) -> Result<Option<Items<ReferrerImports>>, AllocError> {
    let mut places = Items::new(alloc);
    if row.at(3).is_empty() {
        return Ok(Some(places));
    }
    match url(alloc, row.at(3)) {
        Some(referrer) => {
            let mut imports = Items::new(alloc);
            imports.push(Text::from_str(alloc, row.at(2))?)?;
            places.push(ReferrerImports { referrer, imports })?;
            Ok(Some(places))
        }
        None => Ok(None),
    }
}

fn modules(alloc: Global, row: &Row) -> Result<Option<Items<(Url, LoadAnswer)>>, AllocError> {
    let mut modules = Items::new(alloc);
    let mut at = 5usize;
    for _ in 0..row.number(4) {
        let Some(specifier) = url(alloc, row.at(at)) else {
            return Ok(None);
        };
        let text = row.at(at.saturating_add(2));
        let Some(answer) = answer(alloc, row.at(at.saturating_add(1)), text)? else {
            return Ok(None);
        };
        modules.push((specifier, answer))?;
        at = at.saturating_add(3);
    }
    Ok(Some(modules))
}

fn answer(alloc: Global, word: &str, text: &str) -> Result<Option<LoadAnswer>, AllocError> {
    match word {
        "text" => Ok(Some(LoadAnswer::Content {
            headers: Headers::new(alloc),
            bytes: SharedBytes::from_slice(alloc, text.as_bytes())?,
        })),
        "redirect" => Ok(url(alloc, text).map(LoadAnswer::Redirect)),
        "external" => Ok(Some(LoadAnswer::External)),
        _ => Ok(None),
    }
}
