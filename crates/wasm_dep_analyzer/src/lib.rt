//! The imports and exports of a WebAssembly module, from its bytes (WebAssembly Core, "Binary Format").
//!
//! - `WasmDeps::parse(input, options)`: what the module imports and exports, or the first fault (`ReadsModule`,
//!   `specs/Module.antt`). Both ways; besides, only memory may run out. `module_range` cuts an import's module name from
//!   the input.
//! - `FunctionSignature::copy`: an equal signature.
//!
//! A module has at most one outcome (`one_outcome`, `proofs/Theorems.antt`). Places are bytes of the input, from 0.
//! Not promised: what `Debug` writes, and when memory runs out.
#![tactic(auto)]

mod deps;
mod error;
mod exports;
mod imports;
mod own_sections;
mod parse;
mod sections;
mod tables;
mod types;
mod values;

pub use base::{Items, Range};
pub use deps::{Export, ExportType, Import, ParseOptions, WasmDeps};
pub use error::ParseError;
pub use types::{
    FunctionSignature, GlobalType, ImportType, Limits, MemoryType, TableType, TagType, ValueType,
};
