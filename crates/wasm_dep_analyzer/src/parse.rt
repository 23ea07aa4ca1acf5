//! A module from its bytes (WebAssembly Core, "Modules").

ghost use Rattle.std.specs.Prelude.{◌≡◌, List, [], Result, Ok, IfOk, map, unwrap_or, if◌then◌else◌};
ghost use Rattle.std.specs.List.{AllByRecursion};
ghost use Rattle.std.specs.Option.{option_copied};
ghost use Rattle.wasm_dep_analyzer.specs.declared.error.ParseError.{ParseError};
ghost use Rattle.wasm_dep_analyzer.specs.Reading.{Gives, GivesInRoom};
ghost use Rattle.wasm_dep_analyzer.specs.Imports.{imported};
ghost use Rattle.wasm_dep_analyzer.specs.Sections.{Section};
ghost use Rattle.wasm_dep_analyzer.specs.Module.{Deps, version_at, header_at, no_tables, tables_from, typed, deps_of, ReadsModule, IsOutcome, CutsName, exported, seen};
ghost use Rattle.wasm_dep_analyzer.specs.Steps.{found_imports, found_exports, shown_tables, IsFoundIn};

use crate::deps::{Export, Import, ParseOptions, WasmDeps};
use crate::error::ParseError;
use crate::exports::Exports;
use crate::sections::{Found, find};
use crate::tables::{Tables, read_tables, typed_exports, unread_tables};
use std::alloc::{AllocError, Global};

/// What a module begins with.
const MAGIC: [u8; 4] = *b"\0asm";

/// The bytes after the version, which is 1.
fn read_version(input: &[u8]) -> Result<&[u8], ParseError>
    ensures { Gives (λ body. body.now) result (version_at input.now) }
{
    if input.len() < 4 {
        return Err(ParseError::UnexpectedEof);
    }
    let (front, body) = input.split_at(4);
    let version = u32::from_le_bytes([front[0], front[1], front[2], front[3]]);
    if version != 1 {
        return Err(ParseError::UnsupportedVersion(version));
    }
    Ok(body)
}

/// The bytes after the header.
#[tactic(auto, unfolding(crate::specs::Module::header_at))]
fn read_header(input: &[u8]) -> Result<&[u8], ParseError>
    ensures { Gives (λ body. body.now) result (header_at input.now) }
{
    if input.len() < 4 {
        return Err(ParseError::NotWasm);
    }
    let (front, rest) = input.split_at(4);
    if front != MAGIC.as_slice() {
        return Err(ParseError::NotWasm);
    }
    read_version(rest)
}

fn imports_or_none<'a>(alloc: Global, imports: Option<Vec<Import<'a>>>) -> Vec<Import<'a>>
    ensures { map imported result.items ≡ unwrap_or (found_imports imports.entry) [] }
{
    match imports {
        Some(imports) => imports,
        None => Vec::new(alloc),
    }
}

fn bytes_or_none<'a>(bytes: Option<&'a [u8]>) -> &'a [u8]
    ensures { result.now ≡ unwrap_or (option_copied bytes.entry) [] }
{
    match bytes {
        Some(bytes) => bytes,
        None => &[],
    }
}

fn tables_for<'a>(
    alloc: Global,
    skip_types: bool,
    imports: &[Import<'a>],
    types: Option<&'a [u8]>,
    functions: Option<&'a [u8]>,
    globals: Option<&'a [u8]>,
) -> Result<Tables, AllocError>
    ensures { IfOk result (λ made. shown_tables made
        ≡ (if skip_types then no_tables else tables_from (map imported imports.now) (unwrap_or (option_copied functions.entry) [])
        (unwrap_or (option_copied types.entry) []) (unwrap_or (option_copied globals.entry) []))) }
{
    if skip_types {
        return Ok(unread_tables());
    }
    let functions = bytes_or_none(functions);
    let types = bytes_or_none(types);
    let globals = bytes_or_none(globals);
    read_tables(alloc, imports, functions, types, globals)
}

fn exports_for<'a>(
    alloc: Global,
    tables: &Tables,
    exports: Option<Exports<'a>>,
) -> Result<Vec<Export<'a>>, AllocError>
    ensures { IfOk result (λ made. map exported made.items
        ≡ map (typed (shown_tables tables.now)) (unwrap_or (found_exports exports.entry) [])) }
{
    match exports {
        None => Ok(Vec::new(alloc)),
        Some(exports) => typed_exports(alloc, tables, &exports.items),
    }
}

/// The imports and exports that were found, the exports with their types.
fn typed_deps<'a>(
    alloc: Global,
    found: Found<'a>,
    skip_types: bool,
) -> Result<WasmDeps<'a>, AllocError>
    ensures { IfOk result (λ deps. (ss : List Section) → IsFoundIn found.entry ss → deps_of skip_types ss ≡ Ok (seen deps)) }
{
    let Found {
        imports,
        exports,
        types,
        functions,
        globals,
    } = found;
    let imports = imports_or_none(alloc, imports);
    let tables = tables_for(alloc, skip_types, &imports, types, functions, globals)?;
    let exports = exports_for(alloc, &tables, exports)?;
    Ok(WasmDeps { imports, exports })
}

/// The outcome of reading a module.
fn read_module<'a>(
    alloc: Global,
    input: &'a [u8],
    skip_types: bool,
) -> Result<WasmDeps<'a>, ParseError>
    ensures { IsOutcome skip_types input.now result }
{
    let body = read_header(input)?;
    let found = find(alloc, input.len(), body, skip_types)?;
    match typed_deps(alloc, found, skip_types) {
        Ok(deps) => Ok(deps),
        Err(_) => Err(ParseError::OutOfMemory),
    }
}

impl<'a> WasmDeps<'a> {
    /// What a module imports and exports. Sections with nothing wanted in them are skipped by their length, and
    /// nothing is read after the last section that is wanted. A fault in the type, function or global section
    /// is in the results of the exports that it concerns, and does not fail the call.
    pub fn parse(
        alloc: Global,
        input: &'a [u8],
        options: ParseOptions,
    ) -> Result<WasmDeps<'a>, ParseError>
        // What is answered is the outcome of reading the module.
        ensures read { IsOutcome options.skip_types input.now result }
        // The outcome of reading the module is answered, unless memory runs out.
        ensures only { (outcome : Result Deps ParseError) → ReadsModule options.skip_types input.now outcome
            → GivesInRoom seen result outcome }
        // Each range cuts the name of the import's module.
        ensures cuts { IfOk result (λ deps. AllByRecursion (CutsName input.now) (seen deps).imports) }
    {
        read_module(alloc, input, options.skip_types)
    }
}
