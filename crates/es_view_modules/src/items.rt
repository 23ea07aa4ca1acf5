//! Typed views of programs, imports and exports: which form a node has, with its parts as cursors.
//!
//! - `Program`, `program_at`: programs.
//! - `Import`, `import_at`: imports.
//! - `Export`, `export_at`: exports.

mod export;
mod import;
mod program;

pub use export::{Export, export_at};
pub use import::{Import, import_at};
pub use program::{Program, program_at};
