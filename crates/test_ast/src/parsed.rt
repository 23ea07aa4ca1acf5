//! Parsed sources: their sites, their modes and their faults.
ghost use Rattle.std.specs.Prelude.{◌≡◌, true, false, IfOk};

use deno_ast::{
    Attribute, MediaType, ModuleSpecifier, ParseFault, ParseParams, ParsedSource, Site, SourceText,
    Syntax, parse_module, parse_module_with_post_process, parse_program,
    parse_program_with_post_process, parse_script, parse_script_with_post_process, read_sites,
};
use std::alloc::{AllocError, Global};

/// A media type, a text, and how it is read: as a script or as a module, with its sites, or its fault.
const ROWS: &[(MediaType, &str, &str)] = &[
    (
        MediaType::JavaScript,
        "import \"./b.ts\";",
        "module 7-15 ./b.ts -",
    ),
    (
        MediaType::TypeScript,
        "\u{feff}import \"./b.ts\";",
        "module 7-15 ./b.ts -",
    ),
    (
        MediaType::JavaScript,
        "import(\"./b.ts\", { with: { type: \"json\" } });",
        "script 7-15 ./b.ts json",
    ),
    (
        MediaType::JavaScript,
        "import(\"./a.ts\", o);",
        "script 7-15 ./a.ts ?",
    ),
    (MediaType::JavaScript, "import(x);", "script"),
    (MediaType::JavaScript, "import(\"./a\" + x);", "script"),
    (MediaType::Cjs, "with (a) b;", "script"),
    (MediaType::Mjs, "with (a) b;", "SyntaxError: Syntax"),
    (MediaType::Cjs, "import \"a\";", "SyntaxError: Syntax"),
    (MediaType::Mjs, "a;", "module"),
    (MediaType::Cts, "a;", "module"),
    (MediaType::JavaScript, "a;", "script"),
    // A script alone has `with`, and an initial value in the head of a `for` with `in`.
    (
        MediaType::JavaScript,
        "with (a) import(\"./b.ts\");",
        "script 16-24 ./b.ts -",
    ),
    (MediaType::JavaScript, "for (var a = 1 in b) ;", "script"),
    // A module alone has `await` outside async functions, `import.meta`, imports and exports.
    (MediaType::JavaScript, "await a;", "module"),
    (MediaType::JavaScript, "import.meta;", "module"),
    (MediaType::JavaScript, "a; export { a };", "module"),
    (
        MediaType::JavaScript,
        "a; { b } export * from \"./c.ts\";",
        "module 23-31 ./c.ts -",
    ),
    (MediaType::TypeScript, "export as namespace A;", "module"),
    // Nothing has both.
    (
        MediaType::JavaScript,
        "with (a) b; await c;",
        "SyntaxError: Syntax",
    ),
    (
        MediaType::JavaScript,
        "with (a) b; export { c };",
        "SyntaxError: Syntax",
    ),
    // These words are the names of properties, or are in a namespace.
    (MediaType::JavaScript, "a.export\n{ }", "script"),
    (
        MediaType::JavaScript,
        "a.import\n\"b\"; with (c) d;",
        "script",
    ),
    (MediaType::JavaScript, "a.export\n{ } await b;", "module"),
    (
        MediaType::TypeScript,
        "namespace A { export const a = 1; }",
        "script",
    ),
    (
        MediaType::TypeScript,
        "/// <reference types=\"./t.d.ts\" />",
        "script 21-31 ./t.d.ts ?",
    ),
    (
        MediaType::JavaScript,
        "/// <reference types=\"./t.d.ts\" />",
        "script",
    ),
    (
        MediaType::Mts,
        "/// <reference path=\"a\" />\nimport \"b\";",
        "module 20-23 a ?|34-37 b -",
    ),
    (
        MediaType::JavaScript,
        "a \"b",
        "SyntaxError: UnterminatedString",
    ),
];

/// What is to be parsed, and how.
pub fn params(
    alloc: Global,
    media_type: MediaType,
    text: &str,
    maybe_syntax: Option<Syntax>,
) -> Result<ParseParams, AllocError>
    ensures unscoped { IfOk result (λ p. p.scope_analysis ≡ false) }
    ensures capturing { IfOk result (λ p. p.capture_tokens ≡ true) }
{
    Ok(ParseParams {
        specifier: specifier(alloc)?,
        text: SourceText::from_str(alloc, text)?,
        media_type,
        capture_tokens: true,
        scope_analysis: false,
        maybe_syntax,
    })
}

fn specifier(alloc: Global) -> Result<ModuleSpecifier, AllocError> {
    match ModuleSpecifier::parse(alloc, "file:///a.ts") {
        Ok(specifier) => Ok(specifier),
        Err(_) => Err(AllocError),
    }
}

fn add_site(alloc: Global, line: &mut String, site: &Site) -> Result<(), AllocError> {
    let attribute = match &site.attribute {
        Attribute::Absent => "-",
        Attribute::Named(text) => text.as_str(),
        Attribute::Unknown => "?",
    };
    let (start, end) = (site.range.start, site.range.end);
    let told = format!(in alloc; "{start}-{end} {} {attribute}", site.value)?;
    line.push_str(told.as_str())
}

fn line_with(alloc: Global, front: &str, sites: &[Site]) -> Result<String, AllocError> {
    let mut line = String::from_str(alloc, front)?;
    for (number, site) in sites.iter().enumerate() {
        line.push_str(if number == 0 { " " } else { "|" })?;
        add_site(alloc, &mut line, site)?;
    }
    Ok(line)
}

// The mode of a source and its sites.
fn line_of(alloc: Global, parsed: &ParsedSource) -> Result<String, AllocError> {
    let mode = if parsed.is_script() {
        "script"
    } else {
        "module"
    };
    line_with(alloc, mode, parsed.sites(alloc)?.as_slice())
}

fn first_line(text: &str) -> &str {
    match text.split_once('\n') {
        Some((first, _)) => first,
        None => text,
    }
}

fn fault_line(alloc: Global, fault: &ParseFault) -> Result<String, AllocError> {
    let shown = format!(in alloc; "{fault}")?;
    String::from_str(alloc, first_line(shown.as_str()))
}

// The same, or what the first line of the fault displays.
fn told(alloc: Global, parsed: Result<ParsedSource, ParseFault>) -> Result<String, AllocError> {
    match parsed {
        Ok(parsed) => line_of(alloc, &parsed),
        Err(fault) => fault_line(alloc, &fault),
    }
}

#[test]
fn sources(rt: HostRuntime) {
    for (media_type, text, want) in ROWS.iter() {
        let params = params(rt.alloc(), *media_type, text, None).expect(&rt, "memory");
        let got = told(rt.alloc(), parse_program(rt.alloc(), params)).expect(&rt, "memory");
        assert_eq!(rt; got.as_str(), *want);
    }
}

/// A call that parses.
#[derive(Clone, Copy, Debug)]
enum Call {
    Program,
    Module,
    Script,
    ProgramWith,
    ModuleWith,
    ScriptWith,
}

/// A call, and what it makes of a module.
const BY_CALL: &[(Call, &str)] = &[
    (Call::Program, "module 7-15 ./b.ts -"),
    (Call::Module, "module 7-15 ./b.ts -"),
    (Call::Script, "SyntaxError: Syntax"),
    (Call::ProgramWith, "module 7-15 ./b.ts -"),
    (Call::ModuleWith, "module 7-15 ./b.ts -"),
    (Call::ScriptWith, "SyntaxError: Syntax"),
];

fn parsed_by(alloc: Global, call: Call, params: ParseParams) -> Result<ParsedSource, ParseFault>
    requires { params.scope_analysis ≡ false }
{
    match call {
        Call::Program => parse_program(alloc, params),
        Call::Module => parse_module(alloc, params),
        Call::Script => parse_script(alloc, params),
        Call::ProgramWith => parse_program_with_post_process(alloc, params, |program| program),
        Call::ModuleWith => parse_module_with_post_process(alloc, params, |module| module),
        Call::ScriptWith => parse_script_with_post_process(alloc, params, |script| script),
    }
}

#[test]
fn calls(rt: HostRuntime) {
    let alloc = rt.alloc();
    let (media_type, syntax) = (MediaType::TypeScript, Some(Syntax::Es));
    for (call, want) in BY_CALL.iter() {
        let params = params(alloc, media_type, "import \"./b.ts\";", syntax).expect(&rt, "memory");
        let got = told(alloc, parsed_by(alloc, *call, params)).expect(&rt, "memory");
        assert_eq!(rt; got.as_str(), *want, "{call:?}");
    }
}

// How many tokens a source keeps that was to keep them.
fn count_of(alloc: Global, params: ParseParams) -> Result<usize, ParseFault>
    requires unscoped { params.scope_analysis ≡ false }
    requires capturing { params.capture_tokens ≡ true }
{
    match parse_program(alloc, params) {
        Ok(parsed) => Ok(parsed.tokens().len()),
        Err(fault) => Err(fault),
    }
}

#[test]
fn tokens_are_kept(rt: HostRuntime) {
    let params = params(rt.alloc(), MediaType::TypeScript, "let a = 1;", None);
    let count = count_of(rt.alloc(), params.expect(&rt, "memory")).expect(&rt, "a program");
    assert_eq!(rt; count, 5);
}

/// A media type, a text, and its sites, or its fault.
const SITES: &[(MediaType, &str, &str)] = &[
    (
        MediaType::JavaScript,
        "import \"./b.ts\";",
        "sites 7-15 ./b.ts -",
    ),
    (
        MediaType::Mts,
        "/// <reference path=\"a\" />\nimport \"b\";",
        "sites 20-23 a ?|34-37 b -",
    ),
    (MediaType::JavaScript, "a;", "sites"),
    (MediaType::Cjs, "import \"a\";", "SyntaxError: Syntax"),
    (
        MediaType::JavaScript,
        "a \"b",
        "SyntaxError: UnterminatedString",
    ),
];

fn told_sites(alloc: Global, media_type: MediaType, text: &str) -> Result<String, AllocError> {
    let specifier = specifier(alloc)?;
    let text = SourceText::from_str(alloc, text)?;
    match read_sites(alloc, &specifier, &text, media_type) {
        Ok(sites) => line_with(alloc, "sites", sites.as_slice()),
        Err(fault) => fault_line(alloc, &fault),
    }
}

#[test]
fn sites_alone(rt: HostRuntime) {
    for (media_type, text, want) in SITES.iter() {
        let got = told_sites(rt.alloc(), *media_type, text).expect(&rt, "memory");
        assert_eq!(rt; got.as_str(), *want);
    }
}
