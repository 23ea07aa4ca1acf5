//! Modules of what is at hand, without a loader.
ghost use Rattle.std.specs.Prelude.{◌≡◌, IfOk, option_map};
ghost use Rattle.graph_entry.specs.Specifier.{text_of};
ghost use Rattle.graph_entry.specs.Headers.{headers_of, headers_or_none};
ghost use Rattle.specifier_resolver.specs.Resolver.{resolving_or};
ghost use Rattle.graph_entry.specs.Ways.{ways_by};
ghost use Rattle.graph_entry.specs.Analysed.{OfContent, IsParsed, media_type_at};

use crate::analysis::analyse_content;
use crate::analyzer::ModuleAnalyzer;
use crate::entry::{Entry, Module, ModuleError};
use crate::headers::Headers;
use base::SharedBytes;
use specifier_resolver::{DefaultResolver, Resolver};
use std::alloc::{AllocError, Global};
use std::collections::BTreeMap;
use url::Url;

/// Content at a specifier, and how it is read. Without a resolver of the caller's, `DefaultResolver` resolves.
pub struct ParseModuleOptions<'a, R: Resolver, M: ModuleAnalyzer> {
    pub specifier: Url,
    pub maybe_headers: Option<BTreeMap<String, String>>,
    pub content: SharedBytes,
    pub maybe_resolver: Option<&'a R>,
    pub module_analyzer: &'a M,
}

/// The module of content, whatever the specifier's scheme: what a loader's answer of it makes.
pub fn parse_module<R: Resolver, M: ModuleAnalyzer>(
    alloc: Global,
    options: ParseModuleOptions<'_, R, M>,
) -> Result<Module, ModuleError>
    ensures { IsParsed (OfContent
        (ways_by (resolving_or (λ r. R.resolving r.now) options.entry.maybe_resolver) (M.reads options.entry.module_analyzer.now))
        (text_of options.entry.specifier)
        (media_type_at (text_of options.entry.specifier) (headers_or_none (option_map (λ m. headers_of m.entries) options.entry.maybe_headers)))
        options.entry.content) result }
{
    let ParseModuleOptions {
        specifier,
        maybe_headers,
        content,
        maybe_resolver,
        module_analyzer,
    } = options;
    let Ok(headers) = headers_in(alloc, maybe_headers) else {
        return Err(ModuleError::OutOfMemory);
    };
    match maybe_resolver {
        Some(resolver) => parse_by(
            alloc,
            resolver,
            module_analyzer,
            &specifier,
            &headers,
            content,
        ),
        None => parse_by(
            alloc,
            &DefaultResolver,
            module_analyzer,
            &specifier,
            &headers,
            content,
        ),
    }
}

fn headers_in(alloc: Global, given: Option<BTreeMap<String, String>>) -> Result<Headers, AllocError>
    ensures { IfOk result (λ h. h ≡ headers_or_none (option_map (λ m. headers_of m.entries) given)) }
{
    match given {
        Some(map) => Headers::from_map(alloc, map),
        None => Ok(Headers::new(alloc)),
    }
}

fn parse_by<R: Resolver, M: ModuleAnalyzer>(
    alloc: Global,
    resolver: &R,
    analyzer: &M,
    specifier: &Url,
    headers: &Headers,
    content: SharedBytes,
) -> Result<Module, ModuleError>
    ensures { IsParsed (OfContent (ways_by (R.resolving resolver.now) (M.reads analyzer.now))
        (text_of specifier.now) (media_type_at (text_of specifier.now) headers.now) content) result }
{
    match analyse_content(alloc, resolver, analyzer, specifier, headers, content) {
        Ok(Entry::Module(module)) => Ok(module),
        Ok(Entry::Error(error)) => Err(error),
        // Content makes modules and errors alone.
        Ok(Entry::Redirect(_) | Entry::Package(_) | Entry::External) => unreachable!(),
        Err(_) => Err(ModuleError::OutOfMemory),
    }
}
