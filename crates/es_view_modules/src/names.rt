//! Typed views of what imports and exports name: which form a node has, with its parts as cursors.
//!
//! - `Clause`, `clause_at`: what an import binds.
//! - `Names`, `names_at`: names that an import binds.
//! - `ImportName`, `import_specifier_at`: names in the braces of an import.
//! - `ExportName`, `export_specifier_at`: names in the braces of an export.
//! - `Attributes`, `attributes_at`: import attributes.

mod attributes;
mod clause;
mod export_specifier;
mod import_specifier;
mod names;

pub use attributes::{Attributes, attributes_at};
pub use clause::{Clause, clause_at};
pub use export_specifier::{ExportName, export_specifier_at};
pub use import_specifier::{ImportName, import_specifier_at};
pub use names::{Names, names_at};
