//! The graph of a row.

use base::{Items, SharedBytes, Text};
use deno_graph::{
    BuildOptions, GraphBuild, GraphKind, Headers, LoadAnswer, MemoryLoader, ModuleGraph,
    ReferrerImports,
};
use graph_builder::Following;
use std::alloc::{AllocError, Global};
use test_rows::Row;
use url::Url;

/// The graph of a row: after the call come the kind, the roots, what a place outside imports, and the modules, each list separated
/// by blanks. Names are of one letter. A module is its name and a text: `a:b?c!d` imports `b`, and `c` by `import()`, and from `d`
/// types alone; `a=b` redirects.
pub fn graph_of(alloc: Global, row: &Row) -> Result<Option<ModuleGraph>, AllocError> {
    let mut modules = Items::new(alloc);
    for word in row.at(4).split(' ') {
        if let Some(module) = module(alloc, word)? {
            modules.push(module)?;
        }
    }
    let Some(roots) = urls(alloc, row.at(2))? else {
        return Ok(None);
    };
    let Some(imports) = imports(alloc, row.at(3))? else {
        return Ok(None);
    };
    let following = following(row);
    let options = BuildOptions {
        kind: following.kind,
        limit: 1000,
        skip_dynamic_deps: following.skip_dynamic_deps,
        imports,
    };
    let loader = MemoryLoader::new(alloc, modules, Items::new(alloc))?;
    match GraphBuild::new(alloc, roots, options, loader) {
        Ok(mut build) => Ok(build.poll().ok()),
        Err(_) => Err(AllocError),
    }
}

/// Which edges a row's graph follows.
pub fn following(row: &Row) -> Following {
    let kind = match row.at(1) {
        "code" | "still" => GraphKind::CodeOnly,
        _ => GraphKind::All,
    };
    Following {
        kind,
        skip_dynamic_deps: row.at(1) == "still",
        json_without_attribute: false,
    }
}

/// The specifier of a name.
pub fn named(alloc: Global, name: &str) -> Result<Option<Url>, AllocError> {
    let text = format!(in alloc; "file:///{name}.ts")?;
    Ok(Url::parse(alloc, text.as_str()).ok())
}

fn urls(alloc: Global, names: &str) -> Result<Option<Items<Url>>, AllocError> {
    let mut urls = Items::new(alloc);
    for name in names.split(' ') {
        if !name.is_empty() {
            match named(alloc, name)? {
                Some(url) => urls.push(url)?,
                None => return Ok(None),
            }
        }
    }
    Ok(Some(urls))
}

fn imports(alloc: Global, names: &str) -> Result<Option<Items<ReferrerImports>>, AllocError> {
    let mut places = Items::new(alloc);
    let mut imports = Items::new(alloc);
    for name in names.split(' ') {
        if !name.is_empty() {
            let text = format!(in alloc; "./{name}.ts")?;
            imports.push(Text::from_str(alloc, text.as_str())?)?;
        }
    }
    match Url::parse(alloc, "file:///deno.json") {
        Ok(referrer) => {
            places.push(ReferrerImports { referrer, imports })?;
            Ok(Some(places))
        }
        Err(_) => Ok(None),
    }
}

fn module(alloc: Global, word: &str) -> Result<Option<(Url, LoadAnswer)>, AllocError> {
    let (name, answer) = match (word.split_once(':'), word.split_once('=')) {
        (Some((name, edges)), _) => (name, Some(content(alloc, edges)?)),
        (None, Some((name, target))) => (name, named(alloc, target)?.map(LoadAnswer::Redirect)),
        (None, None) => (word, None),
    };
    match (named(alloc, name)?, answer) {
        (Some(url), Some(answer)) => Ok(Some((url, answer))),
        _ => Ok(None),
    }
}

fn content(alloc: Global, edges: &str) -> Result<LoadAnswer, AllocError> {
    let mut text = String::new(alloc);
    let mut mark = ' ';
    for c in edges.chars() {
        if c == '?' || c == '!' {
            mark = c;
        } else {
            let line = match mark {
                '?' => format!(in alloc; "import(\"./{c}.ts\");\n")?,
                '!' => format!(in alloc; "import type {{}} from \"./{c}.ts\";\n")?,
                _ => format!(in alloc; "import \"./{c}.ts\";\n")?,
            };
            text.push_str(line.as_str())?;
            mark = ' ';
        }
    }
    Ok(LoadAnswer::Content {
        headers: Headers::new(alloc),
        bytes: SharedBytes::from_slice(alloc, text.as_str().as_bytes())?,
    })
}
