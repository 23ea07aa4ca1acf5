//! Sections, and what is found in them (WebAssembly Core, "Modules" and "Sections").

ghost use Rattle.std.specs.Prelude.{◌≡◌, ◌-◌, ◌++◌, ◌∷◌, [], List, length, Ok};
ghost use Rattle.std.specs.Option.{option_copied};
ghost use Rattle.wasm_dep_analyzer.specs.Reading.{Gives, GivesInRoom};
ghost use Rattle.wasm_dep_analyzer.specs.Sections.{Section, section_at, payload_in, imports_in, exports_in, have_all};
ghost use Rattle.wasm_dep_analyzer.specs.Steps.{section, found_imports, found_exports, IsFoundIn, FindsIn, FindsAll};

use crate::deps::Import;
use crate::error::ParseError;
use crate::exports::{Exports, export_section};
use crate::imports::import_section;
use crate::values::{read_bytes, read_u8, read_u32};
use std::alloc::Global;

const TYPES: u8 = 1;

const IMPORTS: u8 = 2;

const FUNCTIONS: u8 = 3;

const GLOBALS: u8 = 6;

const EXPORTS: u8 = 7;

/// A section, with the place in the module where its payload ends.
#[derive(Clone, Copy)]
pub struct Piece<'a> {
    pub kind: u8,
    pub payload: &'a [u8],
    pub end: usize,
}

/// What was found in the sections so far, of each kind the first.
#[derive(Drop)]
pub struct Found<'a> {
    pub imports: Option<Vec<Import<'a>>>,
    pub exports: Option<Exports<'a>>,
    pub types: Option<&'a [u8]>,
    pub functions: Option<&'a [u8]>,
    pub globals: Option<&'a [u8]>,
}

#[tactic(auto, unfolding(crate::specs::Sections::section_at))]
fn read_section<'a>(total: usize, input: &'a [u8]) -> Result<(Piece<'a>, &'a [u8]), ParseError>
    ensures { Gives (λ read. (section read.0, read.1.now)) result (section_at total input.now) }
{
    let (kind, rest) = read_u8(input)?;
    let (count, rest) = read_u32(rest)?;
    let (payload, rest) = read_bytes(count, rest)?;
    let end = total.saturating_sub(rest.len());
    Ok((Piece { kind, payload, end }, rest))
}

fn imports_with<'a>(
    alloc: Global,
    imports: Option<Vec<Import<'a>>>,
    piece: &Piece<'a>,
) -> Result<Option<Vec<Import<'a>>>, ParseError>
    ensures { (ss : List Section) → imports_in ss ≡ Ok (found_imports imports.entry)
        → GivesInRoom found_imports result (imports_in (ss ++ section piece.now ∷ [])) }
{
    if imports.is_some() {
        return Ok(imports);
    }
    if piece.kind != IMPORTS {
        return Ok(imports);
    }
    let found = import_section(alloc, piece.end, piece.payload)?;
    Ok(Some(found))
}

fn exports_with<'a>(
    alloc: Global,
    exports: Option<Exports<'a>>,
    piece: &Piece<'a>,
) -> Result<Option<Exports<'a>>, ParseError>
    ensures { (ss : List Section) → exports_in ss ≡ Ok (found_exports exports.entry)
        → GivesInRoom found_exports result (exports_in (ss ++ section piece.now ∷ [])) }
{
    if exports.is_some() {
        return Ok(exports);
    }
    if piece.kind != EXPORTS {
        return Ok(exports);
    }
    let found = export_section(alloc, piece.payload)?;
    Ok(Some(found))
}

fn payload_with<'a>(kind: u8, payload: Option<&'a [u8]>, piece: &Piece<'a>) -> Option<&'a [u8]>
    ensures { (ss : List Section) → option_copied payload.entry ≡ payload_in kind ss
        → option_copied result ≡ payload_in kind (ss ++ section piece.now ∷ []) }
{
    if payload.is_some() {
        return payload;
    }
    if piece.kind != kind {
        return payload;
    }
    Some(piece.payload)
}

/// What is found with one more section.
fn found_with<'a>(
    alloc: Global,
    found: Found<'a>,
    piece: &Piece<'a>,
) -> Result<Found<'a>, ParseError>
    ensures { (ss : List Section) → IsFoundIn found.entry ss → FindsIn result (ss ++ section piece.now ∷ []) }
{
    let Found {
        imports,
        exports,
        types,
        functions,
        globals,
    } = found;
    let imports = imports_with(alloc, imports, piece)?;
    let exports = exports_with(alloc, exports, piece)?;
    let types = payload_with(TYPES, types, piece);
    let functions = payload_with(FUNCTIONS, functions, piece);
    let globals = payload_with(GLOBALS, globals, piece);
    Ok(Found {
        imports,
        exports,
        types,
        functions,
        globals,
    })
}

/// Whether all that is wanted was found.
fn has_all(found: &Found, skip_types: bool) -> bool
    ensures { (ss : List Section) → IsFoundIn found.now ss → result ≡ have_all skip_types ss }
{
    if found.imports.is_none() {
        return false;
    }
    match &found.exports {
        None => false,
        Some(exports) => {
            let has_functions = found.types.is_some() && found.functions.is_some();
            skip_types
                || ((has_functions || !exports.functions)
                    && (found.globals.is_some() || !exports.globals))
        }
    }
}

/// What is found in the sections of a body, up to where all that is wanted is found.
pub fn find<'a>(
    alloc: Global,
    total: usize,
    body: &'a [u8],
    skip_types: bool,
) -> Result<Found<'a>, ParseError>
    ensures { FindsAll skip_types total body.now result }
{
    let mut found = Found {
        imports: None,
        exports: None,
        types: None,
        functions: None,
        globals: None,
    };
    let mut rest = body;
    'pieces: loop {
        if rest.is_empty() {
            return Ok(found);
        }
        if has_all(&found, skip_types) {
            return Ok(found);
        }
        let (piece, after) = read_section(total, rest)?;
        found = found_with(alloc, found, &piece)?;
        rest = after;
    }
}
