//! The printed text of a program that owns its text.
//!
//! - `print(program)`: without comments. `emit_module`, `emit_script`: with the comments before the items, unless these are
//!   left out (`IsPrinted`, `specs/Printed.antt`).
//! - `EmitOptions`, `EmittedSourceText`: how a program is printed, and what comes of it. No source map is made.
#![tactic(auto)]

mod emit;
mod options;

pub use crate::emit::{emit_module, emit_script, print};
pub use crate::options::{EmitOptions, EmittedSourceText, SourceMapOption};
