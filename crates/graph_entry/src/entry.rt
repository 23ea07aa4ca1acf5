//! What a graph holds for a specifier.
ghost use Rattle.std.specs.Prelude.{◌≡◌};
ghost use Rattle.graph_entry.specs.Entry.{name_of_error};

use crate::resolution::ResolutionError;
use base::{Items, Range, SharedBytes, Text};
use data_specifier::DataError;
use es_site::{Attribute, DependencyKind};
use media_type::MediaType;
use package_ref::PackageRef;
use parse_diagnostic::KeptDiagnostic;
use source_text::SourceText;
use std::fmt;
use url::Url;
use wasm_dep_analyzer::ParseError;

/// What a graph holds for a specifier.
#[derive(Debug, Drop)]
pub enum Entry {
    /// The module is at another specifier.
    Redirect(Url),
    Module(Module),
    /// A package of a registry.
    Package(PackageRef),
    /// The module isn't part of the graph's sources.
    External,
    Error(ModuleError),
}

/// A module that was loaded.
#[derive(Debug, Drop)]
pub enum Module {
    Js(JsModule),
    Json(JsonModule),
    Wasm(WasmModule),
}

/// A module of JavaScript or TypeScript.
#[derive(Debug, Drop)]
pub struct JsModule {
    pub media_type: MediaType,
    /// The source without a byte order mark: a view of the content. Places count from its start.
    pub text: SourceText,
    /// One for each place where the source names another module, in the order of the text.
    pub dependencies: Items<Dependency>,
}

/// A module of JSON. Its text isn't read further, and need not be JSON.
#[derive(Debug, Drop)]
pub struct JsonModule {
    /// The content without a byte order mark: a view of it.
    pub text: SourceText,
}

/// A module of WebAssembly.
#[derive(Debug, Drop)]
pub struct WasmModule {
    /// The content. Places count from its start.
    pub bytes: SharedBytes,
    /// One for each import, in the order of the bytes.
    pub dependencies: Items<Dependency>,
}

/// One reference from a module to a specifier.
#[derive(Debug, Drop)]
pub struct Dependency {
    pub kind: DependencyKind,
    pub type_only: bool,
    /// Of a source the string literal in the module's text, with its quotes. Of a WebAssembly module the name in
    /// its bytes. `None` for what is in no module.
    pub range: Option<Range>,
    /// The literal's value, or the name.
    pub text: Text,
    pub attribute: Attribute,
    /// The target, or why there is none.
    pub resolution: Result<Url, ResolutionError>,
}

/// Why a specifier has no module.
#[derive(Debug, Drop)]
pub enum ModuleError {
    /// There is no such module.
    Missing,
    /// The loader could not tell.
    Loading,
    /// The answers redirect more often than redirects are followed, or for ever: first to this specifier. Never what one
    /// answer means.
    TooManyRedirects(Url),
    /// Content of this media type is no module.
    UnsupportedMediaType(MediaType),
    /// The bytes of a source or of JSON are no text.
    Decode,
    /// The source is no module.
    Parse(KeptDiagnostic),
    /// The bytes are no WebAssembly module. Never that memory ran out.
    WasmParse(ParseError),
    /// The `data:` URL holds nothing. Never that memory ran out.
    DataUrl(DataError),
    /// The `npm:` or `jsr:` specifier names no package.
    PackageReference,
    /// Memory ran out. Never the error of an entry.
    OutOfMemory,
}

impl ModuleError {
    /// The variant's name, as reports write it.
    pub fn name(&self) -> &'static str
        ensures { result.now ≡ name_of_error self.now }
    {
        match self {
            ModuleError::Missing => "Missing",
            ModuleError::Loading => "Loading",
            ModuleError::TooManyRedirects(_) => "TooManyRedirects",
            ModuleError::UnsupportedMediaType(_) => "UnsupportedMediaType",
            ModuleError::Decode => "Decode",
            ModuleError::Parse(_) => "Parse",
            ModuleError::WasmParse(_) => "WasmParse",
            ModuleError::DataUrl(_) => "DataUrl",
            ModuleError::PackageReference => "PackageReference",
            ModuleError::OutOfMemory => "OutOfMemory",
        }
    }
}

impl fmt::Display for ModuleError {
    fn fmt<W: fmt::Write>(&self, f: &mut fmt::Formatter<W>) -> fmt::Result {
        match self {
            ModuleError::OutOfMemory => f.write_str("out of memory"),
            _ => f.write_str(self.name()),
        }
    }
}
