//! Modules of sources that were parsed.
ghost use Rattle.std.specs.Prelude.{◌≡◌, IfOk};
ghost use Rattle.deno_ast.specs.Parsed.{parsed_sites};
ghost use Rattle.graph_entry.specs.Specifier.{text_of};
ghost use Rattle.specifier_resolver.specs.Resolver.{resolving_or};
ghost use Rattle.graph_entry.specs.Resolution.{resolve_by, of_any_kind};
ghost use Rattle.graph_entry.specs.Analysed as spec;

use deno_ast::ParsedSource;
use graph_entry::{DefaultResolver, JsModule, ModuleInfo, Resolver, module_at};
use std::alloc::{AllocError, Global};
use url::Url;

/// What a source that was parsed names.
pub fn module_info(alloc: Global, parsed: &ParsedSource) -> Result<ModuleInfo, AllocError>
    ensures { IfOk result (λ info. info.sites ≡ parsed_sites parsed.now) }
{
    let sites = parsed.sites(alloc)?;
    Ok(ModuleInfo { sites })
}

/// A source that was parsed, at a specifier.
pub struct ParseModuleFromAstOptions<'a, R: Resolver> {
    pub specifier: Url,
    pub parsed_source: &'a ParsedSource,
    pub maybe_resolver: Option<&'a R>,
}

/// The module of a source that was parsed: its text, and one edge for each of its sites, in order.
pub fn parse_module_from_ast<R: Resolver>(
    alloc: Global,
    options: ParseModuleFromAstOptions<'_, R>,
) -> Result<JsModule, AllocError>
    ensures { IfOk result (λ m. m ≡ spec.js_module
        (of_any_kind (resolve_by (resolving_or (λ r. R.resolving r.now) options.entry.maybe_resolver))) (text_of options.entry.specifier)
        options.entry.parsed_source.now.media_type options.entry.parsed_source.now.text (parsed_sites options.entry.parsed_source.now)) }
{
    let ParseModuleFromAstOptions {
        specifier,
        parsed_source,
        maybe_resolver,
    } = options;
    let info = module_info(alloc, parsed_source)?;
    let media_type = parsed_source.media_type();
    let text = parsed_source.text().copy()?;
    match maybe_resolver {
        Some(resolver) => module_at(alloc, resolver, &specifier, media_type, text, info.sites),
        None => module_at(
            alloc,
            &DefaultResolver,
            &specifier,
            media_type,
            text,
            info.sites,
        ),
    }
}
