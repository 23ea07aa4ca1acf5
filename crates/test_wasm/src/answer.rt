//! What each call answers, as a text.

use std::alloc::{AllocError, Global};
use test_rows::Row;
use wasm_dep_analyzer::{
    Export, ExportType, FunctionSignature, Import, ParseError, ParseOptions, WasmDeps,
};

/// What the call of a row answers of its bytes.
pub fn answer(alloc: Global, row: &Row) -> Result<String, AllocError> {
    match row.call() {
        "module" => module(alloc, row, false),
        "module without types" => module(alloc, row, true),
        "displayed" => match error_of(row.at(1), row.number(2)) {
            Some(error) => format!(in alloc; "{error}"),
            None => String::from_str(alloc, "no such error"),
        },
        _ => String::from_str(alloc, "no such call"),
    }
}

/// The imports and exports of a module, or its first fault.
fn module(alloc: Global, row: &Row, skip_types: bool) -> Result<String, AllocError> {
    let bytes = row.bytes(alloc, 1)?;
    let options = ParseOptions { skip_types };
    match WasmDeps::parse(alloc, bytes.as_slice(), options) {
        Ok(deps) => told(alloc, deps.imports.as_slice(), deps.exports.as_slice()),
        Err(ParseError::OutOfMemory) => Err(AllocError),
        Err(error) => format!(in alloc; "{error:?}"),
    }
}

fn told(alloc: Global, imports: &[Import], exports: &[Export]) -> Result<String, AllocError> {
    let mut out = String::new(alloc);
    for import in imports {
        let (module, name, range) = (import.module, import.name, import.module_range);
        let (start, end, kind) = (range.start, range.end, import.import_type);
        out.push_str(format!(in alloc;
            "import {module:?} {name:?} {start}-{end} {kind:?}; "
        )?.as_str())?;
    }
    for export in exports {
        let kind = told_export(alloc, &export.export_type)?;
        out.push_str(format!(in alloc; "export {:?} {kind}; ", export.name)?.as_str())?;
    }
    Ok(out)
}

/// The kind of an export, or why it isn't known.
fn told_export(alloc: Global, kind: &ExportType) -> Result<String, AllocError> {
    match kind {
        ExportType::Function(Ok(signature)) => told_signature(alloc, signature),
        ExportType::Function(Err(error)) => format!(in alloc; "function, {error:?}"),
        ExportType::Global(Ok(global)) => format!(in alloc; "{global:?}"),
        ExportType::Global(Err(error)) => format!(in alloc; "global, {error:?}"),
        _ => String::from_str(alloc, "of another kind"),
    }
}

/// Parameters and results, and whether a copy has others.
fn told_signature(alloc: Global, signature: &FunctionSignature) -> Result<String, AllocError> {
    let copy = signature.copy()?;
    let same = if copy == *signature {
        ""
    } else {
        ", its copy isn't"
    };
    let (params, returns) = (signature.params.as_slice(), signature.returns.as_slice());
    format!(in alloc; "function {params:?} {returns:?}{same}")
}

/// The error of a name, with a number where it holds one.
fn error_of(name: &str, number: usize) -> Option<ParseError> {
    let byte = (number % 256) as u8;
    match name {
        "OutOfMemory" => Some(ParseError::OutOfMemory),
        "NotWasm" => Some(ParseError::NotWasm),
        "UnsupportedVersion" => Some(ParseError::UnsupportedVersion((number % 256) as u32)),
        "UnexpectedEof" => Some(ParseError::UnexpectedEof),
        "IntegerOverflow" => Some(ParseError::IntegerOverflow),
        "InvalidUtf8" => Some(ParseError::InvalidUtf8(number)),
        "UnknownImportType" => Some(ParseError::UnknownImportType(byte)),
        "UnknownElementType" => Some(ParseError::UnknownElementType(byte)),
        "InvalidMutabilityFlag" => Some(ParseError::InvalidMutabilityFlag(byte)),
        "UnknownTagKind" => Some(ParseError::UnknownTagKind(byte)),
        "InvalidTypeIndicator" => Some(ParseError::InvalidTypeIndicator(byte)),
        "UnresolvedExportType" => Some(ParseError::UnresolvedExportType),
        _ => None,
    }
}
