//! Modules without a loader, and a caller's own resolver and analyser.

ghost use Rattle.std.specs.Prelude.{◌≡◌, Err, Ok, []};
ghost use Rattle.specifier_resolver.specs.declared.resolver.ResolveFault.TheVariants as fault;

use crate::lines::line_of;
use base::{Items, Range, SharedBytes, Text};
use deno_ast::{ParseParams, SourceText, parse_program};
use deno_graph::analyzer::ParserModuleAnalyzer;
use graph_ast::{ParseModuleFromAstOptions, module_info, parse_module_from_ast};
use graph_entry::{
    AnalyzeFault, DefaultResolver, Entry, MediaType, Module, ModuleAnalyzer, ModuleInfo,
    ParseModuleOptions, ResolveFault, Resolver, parse_module,
};
use std::alloc::{AllocError, Global};
use std::process::Abort;
use url::Url;

/// Resolves nothing.
#[derive(Drop)]
struct Nowhere;

impl Resolver for Nowhere {
    ghost resolving = { λ _ text referrer. Err (fault.Refused text) };

    fn resolve(&self, alloc: Global, specifier: &str, referrer: &Url) -> Result<Url, ResolveFault> {
        let _ = referrer;
        match Text::from_str(alloc, specifier) {
            Ok(text) => Err(ResolveFault::Refused(text)),
            Err(_) => Err(ResolveFault::OutOfMemory),
        }
    }
}

/// Finds no sites.
#[derive(Drop)]
struct Blind;

impl ModuleAnalyzer for Blind {
    ghost use Rattle.std.proofs.Common.{◌∙◌, sym};

    ghost reads = { λ _ s media text sites. sites ≡ Ok [] };

    fn analyze(
        &self,
        alloc: Global,
        specifier: &Url,
        text: &SourceText,
        media_type: MediaType,
    ) -> Result<ModuleInfo, AnalyzeFault> {
        let _ = specifier;
        let _ = text;
        let _ = media_type;
        Ok(ModuleInfo {
            sites: Items::new(alloc),
        })
    }

    ghost once = { λ _ s media text a b is so. is ∙ sym so };
}

// The module of a text at a specifier, without headers, as a line.
fn parsed<R: Resolver, M: ModuleAnalyzer>(
    rt: &impl Abort,
    alloc: Global,
    specifier: &str,
    resolver: Option<&R>,
    analyzer: &M,
) -> String {
    let options = ParseModuleOptions {
        specifier: Url::parse(alloc, specifier).expect(rt, "a URL"),
        maybe_headers: None,
        content: SharedBytes::from_slice(alloc, b"import \"./b.ts\";").expect(rt, "memory"),
        maybe_resolver: resolver,
        module_analyzer: analyzer,
    };
    let entry = match parse_module(alloc, options) {
        Ok(module) => Entry::Module(module),
        Err(error) => Entry::Error(error),
    };
    line_of(alloc, &entry).expect(rt, "memory")
}

#[test]
fn modules_by_callers(rt: HostRuntime) {
    let alloc = rt.alloc();
    let none: Option<&DefaultResolver> = None;
    let line = parsed(&rt, alloc, "file:///a.ts", none, &ParserModuleAnalyzer);
    assert_eq!(rt;
        line.as_str(),
        "TypeScript 16; import 7-15 ./b.ts -> file:///b.ts"
    );
    let line = parsed(
        &rt,
        alloc,
        "file:///a.ts",
        Some(&Nowhere),
        &ParserModuleAnalyzer,
    );
    assert_eq!(rt;
        line.as_str(),
        "TypeScript 16; import 7-15 ./b.ts ! Refused"
    );
    let line = parsed(&rt, alloc, "file:///a.ts", none, &Blind);
    assert_eq!(rt; line.as_str(), "TypeScript 16");
    // The path of a `data:` URL gives no media type.
    let line = parsed(&rt, alloc, "data:,import/x.ts", none, &ParserModuleAnalyzer);
    assert_eq!(rt; line.as_str(), "UnsupportedMediaType");
}

// The sites of a source, each by its range and its text.
fn sites_in(alloc: Global, info: &ModuleInfo) -> Result<String, AllocError> {
    let mut line = String::new(alloc);
    for site in info.sites.as_slice() {
        let Range { start, end } = site.range;
        let shown = format!(in alloc; "{start}-{end} {};", site.value.as_str())?;
        line.push_str(shown.as_str())?;
    }
    Ok(line)
}

#[test]
fn parts_of_one_module(rt: HostRuntime) {
    let alloc = rt.alloc();
    let media_type = MediaType::TypeScript;
    let specifier = Url::parse(alloc, "file:///a.ts").expect(&rt, "a URL");
    let text = SourceText::from_str(alloc, "import \"./b.ts\";").expect(&rt, "memory");
    let analysed = ParserModuleAnalyzer.analyze(alloc, &specifier, &text, media_type);
    let info = analysed.expect(&rt, "a source");
    let line = sites_in(alloc, &info).expect(&rt, "memory");
    assert_eq!(rt; line.as_str(), "7-15 ./b.ts;");
    let target = DefaultResolver.resolve(alloc, "./b.ts", &specifier);
    assert_eq!(rt; target.expect(&rt, "a target").as_str(), "file:///b.ts");
    let params = ParseParams {
        specifier: specifier.clone().expect(&rt, "memory"),
        text,
        media_type,
        capture_tokens: false,
        scope_analysis: false,
        maybe_syntax: None,
    };
    let parsed = parse_program(alloc, params).expect(&rt, "a source");
    let info = module_info(alloc, &parsed);
    let line = sites_in(alloc, &info.expect(&rt, "memory")).expect(&rt, "memory");
    assert_eq!(rt; line.as_str(), "7-15 ./b.ts;");
    let none: Option<&DefaultResolver> = None;
    let options = ParseModuleFromAstOptions {
        specifier,
        parsed_source: &parsed,
        maybe_resolver: none,
    };
    let module = parse_module_from_ast(alloc, options).expect(&rt, "memory");
    let line = line_of(alloc, &Entry::Module(Module::Js(module))).expect(&rt, "memory");
    assert_eq!(rt;
        line.as_str(),
        "TypeScript 16; import 7-15 ./b.ts -> file:///b.ts"
    );
}
