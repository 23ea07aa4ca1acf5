//! What one loader answer makes of one specifier: the layer below the graph's builder.
//!
//! - `analyse_by(resolver, analyzer, specifier, answer)`: the entry that the answer makes (`AnalysedBy`,
//!   `specs/Analysed.antt`): a module with its text or bytes and its edges, or why there is none. Sound and complete, unless memory
//!   runs out.
//! - `analyse_unasked_by(resolver, analyzer, specifier)`: the same where no loader is asked for the specifier: what a
//!   `data:` URL holds, or the package of an `npm:` or `jsr:` specifier.
//! - `resolve(text, referrer)`: what a specifier in a source resolves to (`resolve`, `specs/Resolution.antt`).
//! - `KindResolver`: a resolver that hears the kind of the edge too. Each `Resolver` is one (`resolve_by_kind`, the same file).
//! - `referred(places)`, `starts_of(roots, places)`: the edges of what places outside a graph import, and where reach
//!   starts by them (`specs/Referrer.antt`).
//! - `is_loadable(specifier)`: whether a loader is asked for it (`loadable`, `specs/Specifier.antt`).
//! - `Entry`, `LoadAnswer` and their parts are plain data in contracts.
//!
//! A specifier is its text. One answer makes at most one entry of it (`analysed_once`, `proofs/Theorems.antt`), whose
//! edges cut their literals or names from the module (`analysed_cuts`), and whose faults are never that memory ran out
//! (`analysed_faults`). `docs/RESOLUTION.md` describes the rules. What reads a source is a `ModuleAnalyzer`: the parser is
//! one (`deno_graph::analyzer`), on which this crate doesn't depend.
//! Not promised: the range of a `Syntax` fault, what `Display` and `Debug` write, and when memory runs out.
#![tactic(auto)]

mod analysis;
mod analyzer;
mod answer;
mod entry;
mod headers;
mod json;
mod kind;
mod kind_resolver;
mod parse;
mod referrer;
mod resolution;
mod specifier;
mod unasked;
mod wasm;

pub use crate::analysis::{analyse_by, module_at};
pub use crate::analyzer::{AnalyzeFault, ModuleAnalyzer, ModuleInfo};
pub use crate::answer::LoadAnswer;
pub use crate::entry::{Dependency, Entry, JsModule, JsonModule, Module, ModuleError, WasmModule};
pub use crate::headers::Headers;
pub use crate::kind::GraphKind;
pub use crate::kind_resolver::KindResolver;
pub use crate::parse::{ParseModuleOptions, parse_module};
pub use crate::referrer::{ReferrerImports, referred, referred_by, starts_by, starts_of};
pub use crate::resolution::{ResolutionError, Resolved, resolve, resolve_by, resolve_by_kind};
pub use crate::specifier::is_loadable;
pub use crate::unasked::analyse_unasked_by;
pub use data_specifier::DataError;
pub use es_site::{Attribute, DependencyKind};
pub use media_type::{MediaType, ModuleKind};
pub use package_ref::{PackageKind, PackageRef};
pub use parse_diagnostic::{KeptDiagnostic, ParseDiagnostic, SyntaxErrorKind};
pub use specifier_resolver::{DefaultResolver, ResolveFault, Resolver};
