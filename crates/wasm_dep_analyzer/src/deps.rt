use crate::error::ParseError;
use crate::types::{FunctionSignature, GlobalType, ImportType};
use base::Range;

/// Whether types are left unread. By default they are read.
#[derive(Clone, Copy, Debug, Default)]
pub struct ParseOptions {
    /// Skips the types of exported functions and globals.
    pub skip_types: bool,
}

/// What a module imports and exports, each in the order of the bytes. Names are borrowed from them.
#[derive(Debug, Drop, PartialEq, Eq)]
pub struct WasmDeps<'a> {
    pub imports: Vec<Import<'a>>,
    pub exports: Vec<Export<'a>>,
}

/// One import of a module.
#[derive(Debug, Drop, PartialEq, Eq)]
pub struct Import<'a> {
    pub name: &'a str,
    pub module: &'a str,
    /// Where the bytes of the module's name are in the input.
    pub module_range: Range,
    pub import_type: ImportType,
}

/// One export of a module. Its index counts the module's items of its kind, imported ones first.
#[derive(Debug, Drop, PartialEq, Eq)]
pub struct Export<'a> {
    pub name: &'a str,
    pub index: u32,
    pub export_type: ExportType,
}

/// What is exported. The type of a function or a global is there where it was found.
#[derive(Debug, Drop, PartialEq, Eq)]
pub enum ExportType {
    Function(Result<FunctionSignature, ParseError>),
    Table,
    Memory,
    Global(Result<GlobalType, ParseError>),
    Tag,
    Unknown,
}
