//! The graph of the modules that are reached from some roots.
//!
//! - `GraphBuild::poll`: the graph of the roots and the loader's answers, or why there is none yet (`IsGraph`, reached, the
//!   causes: the definitions are those of `graph_builder`).
//! - What `graph_builder` has is handed on: `Loader`, `MemoryLoader`, `UnloggedLoader`, `ModuleGraph`,
//!   `CustomBuild`.
//!
//! `OutOfMemory` is the one answer that no clause ties to a cause.
#![tactic(auto)]

pub mod analyzer;
mod build;
mod ways;

pub use crate::analyzer::ParserModuleAnalyzer;
pub use build::GraphBuild;
pub use file_url::{SpecifierError, resolve_import};
pub use graph_builder::{
    Arrival, BuildError, BuildOptions, CustomBuild, Entries, Loader, LoaderPoll, MemoryLoader,
    ModuleGraph, UnloggedLoader,
};
pub use graph_entry::{
    AnalyzeFault, Attribute, DataError, DefaultResolver, Dependency, DependencyKind, Entry,
    GraphKind, Headers, JsModule, JsonModule, KeptDiagnostic, KindResolver, LoadAnswer, MediaType,
    Module, ModuleAnalyzer, ModuleError, ModuleInfo, ModuleKind, PackageKind, PackageRef,
    ParseDiagnostic, ParseModuleOptions, ReferrerImports, ResolutionError, ResolveFault, Resolver,
    SyntaxErrorKind, WasmModule, parse_module,
};
