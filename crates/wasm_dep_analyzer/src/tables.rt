//! The types of exports, looked up by their numbers.

ghost use Rattle.std.specs.Prelude.{◌≡◌, ◌≢◌, map, IfOk, IfErr, Err};
ghost use Rattle.std.specs.List.{flat_map};
ghost use Rattle.wasm_dep_analyzer.specs.declared.error.ParseError.TheVariants.{OutOfMemory};
ghost use Rattle.wasm_dep_analyzer.specs.Reading.{GivesInRoom};
ghost use Rattle.wasm_dep_analyzer.specs.Imports.{imported};
ghost use Rattle.wasm_dep_analyzer.specs.Exports.{listed};
ghost use Rattle.wasm_dep_analyzer.specs.Module.{function_number, global_import, functions_of, globals_of, function_type, global_type, type_of, typed, tables_from, no_tables, exported};
ghost use Rattle.wasm_dep_analyzer.specs.Steps.{shown_tables};

use crate::deps::{Export, ExportType, Import};
use crate::error::ParseError;
use crate::exports::{ExportItem, ExportKind};
use crate::own_sections::{function_section, global_section, type_section};
use crate::types::{FunctionSignature, GlobalType, ImportType};
use std::alloc::{AllocError, Global};

/// What exports are looked up in: type numbers of functions, types, and types of globals.
#[derive(Drop)]
pub struct Tables {
    pub functions: Result<Vec<u32>, ParseError>,
    pub types: Result<Vec<FunctionSignature>, ParseError>,
    pub globals: Result<Vec<GlobalType>, ParseError>,
}

/// The type numbers of the imported functions.
fn imported_functions(alloc: Global, imports: &[Import]) -> Result<Vec<u32>, AllocError>
    ensures { IfOk result (λ numbers. numbers.items ≡ flat_map function_number (map imported imports.now)) }
{
    let mut numbers = Vec::new(alloc);
    for import in imports {
        if let ImportType::Function(number) = import.import_type {
            numbers.push(number)?;
        }
    }
    Ok(numbers)
}

/// The types of the imported globals.
fn imported_globals(alloc: Global, imports: &[Import]) -> Result<Vec<GlobalType>, AllocError>
    ensures { IfOk result (λ globals. globals.items ≡ flat_map global_import (map imported imports.now)) }
{
    let mut globals = Vec::new(alloc);
    for import in imports {
        if let ImportType::Global(global) = import.import_type {
            globals.push(global)?;
        }
    }
    Ok(globals)
}

/// The type numbers of all functions, imported ones first.
#[tactic(auto, unfolding(crate::specs::Module::functions_of))]
pub fn all_functions(
    alloc: Global,
    imports: &[Import],
    payload: &[u8],
) -> Result<Vec<u32>, ParseError>
    ensures { GivesInRoom (λ numbers. numbers.items) result (functions_of (map imported imports.now) payload.now) }
{
    let own = function_section(alloc, payload)?;
    let mut all = imported_functions(alloc, imports)?;
    all.extend_from_slice(&own)?;
    Ok(all)
}

/// The types of all globals, imported ones first.
#[tactic(auto, unfolding(crate::specs::Module::globals_of))]
pub fn all_globals(
    alloc: Global,
    imports: &[Import],
    payload: &[u8],
) -> Result<Vec<GlobalType>, ParseError>
    ensures { GivesInRoom (λ globals. globals.items) result (globals_of (map imported imports.now) payload.now) }
{
    let own = global_section(alloc, payload)?;
    let mut all = imported_globals(alloc, imports)?;
    all.extend_from_slice(&own)?;
    Ok(all)
}

/// The result as it is, unless memory ran out.
fn kept<T: Drop>(read: Result<T, ParseError>) -> Result<Result<T, ParseError>, AllocError>
    ensures { IfOk result (λ kept. (kept ≡ read) × (kept ≢ Err OutOfMemory)) }
{
    match read {
        Err(ParseError::OutOfMemory) => Err(AllocError),
        read => Ok(read),
    }
}

/// The tables of a module, each with its own fault.
pub fn read_tables(
    alloc: Global,
    imports: &[Import],
    functions: &[u8],
    types: &[u8],
    globals: &[u8],
) -> Result<Tables, AllocError>
    ensures { IfOk result (λ read. shown_tables read
        ≡ tables_from (map imported imports.now) functions.now types.now globals.now) }
{
    let functions = kept(all_functions(alloc, imports, functions))?;
    let types = kept(type_section(alloc, types))?;
    let globals = kept(all_globals(alloc, imports, globals))?;
    Ok(Tables {
        functions,
        types,
        globals,
    })
}

/// The tables where types are skipped.
pub fn unread_tables() -> Tables
    ensures { shown_tables result ≡ no_tables }
{
    Tables {
        functions: Err(ParseError::UnresolvedExportType),
        types: Err(ParseError::UnresolvedExportType),
        globals: Err(ParseError::UnresolvedExportType),
    }
}

/// The type of the function with this number, or why it is not there.
#[tactic(auto, unfolding(crate::specs::Module::function_type))]
fn function_type(
    tables: &Tables,
    index: u32,
) -> Result<Result<FunctionSignature, ParseError>, AllocError>
    ensures { IfOk result (λ found. found ≡ function_type (shown_tables tables.now) index) }
{
    let functions = match &tables.functions {
        Ok(functions) => functions,
        Err(fault) => return Ok(Err(*fault)),
    };
    let types = match &tables.types {
        Ok(types) => types,
        Err(fault) => return Ok(Err(*fault)),
    };
    let Some(number) = functions.get(index as usize) else {
        return Ok(Err(ParseError::UnresolvedExportType));
    };
    let Some(signature) = types.get(*number as usize) else {
        return Ok(Err(ParseError::UnresolvedExportType));
    };
    let signature = signature.copy()?;
    Ok(Ok(signature))
}

/// The type of the global with this number, or why it is not there.
#[tactic(auto, unfolding(crate::specs::Module::global_type))]
fn global_type(tables: &Tables, index: u32) -> Result<GlobalType, ParseError>
    ensures { result ≡ global_type (shown_tables tables.now) index }
{
    match &tables.globals {
        Err(fault) => Err(*fault),
        Ok(globals) => match globals.get(index as usize) {
            None => Err(ParseError::UnresolvedExportType),
            Some(global) => Ok(*global),
        },
    }
}

fn export_type(tables: &Tables, kind: ExportKind, index: u32) -> Result<ExportType, AllocError>
    ensures { IfOk result (λ found. found ≡ type_of (shown_tables tables.now) kind index) }
{
    match kind {
        ExportKind::Function => {
            let signature = function_type(tables, index)?;
            Ok(ExportType::Function(signature))
        }
        ExportKind::Table => Ok(ExportType::Table),
        ExportKind::Memory => Ok(ExportType::Memory),
        ExportKind::Global => Ok(ExportType::Global(global_type(tables, index))),
        ExportKind::Tag => Ok(ExportType::Tag),
        ExportKind::Unknown => Ok(ExportType::Unknown),
    }
}

/// The exports with their types.
pub fn typed_exports<'a>(
    alloc: Global,
    tables: &Tables,
    items: &[ExportItem<'a>],
) -> Result<Vec<Export<'a>>, AllocError>
    ensures { IfOk result (λ exports. map exported exports.items
        ≡ map (typed (shown_tables tables.now)) (map listed items.now)) }
{
    let mut exports = Vec::new(alloc);
    for item in items {
        let export_type = export_type(tables, item.kind, item.index)?;
        exports.push(Export {
            name: item.name,
            index: item.index,
            export_type,
        })?;
    }
    Ok(exports)
}
