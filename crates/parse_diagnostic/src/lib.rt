//! Why a text is no program: the specifier, the fault, and its place.
//!
//! - `ParseDiagnostic`: contracts see it as a `Diagnosis` (`specs/Diagnosis.antt`): specifier, kind, range, and the line and the
//!   column of the range's start. Two are the same by specifier, kind and range (`same`).
//!   It displays `SyntaxError: `, the kind, and on a second line `    at specifier:line:column`.
//! - `KeptDiagnostic`: one that stands for the meaning of a text, in which the range of a `Syntax` fault is left free (`told`).
//! - `ParseDiagnosticsError`: several, which it displays with a blank line between them.
//! - `ParseFault`: a diagnostic, or that memory ran out.
//!
//! Not promised: what `Display` and `Debug` write.
#![tactic(auto)]

mod diagnostic;
mod kind;

pub use crate::diagnostic::{KeptDiagnostic, ParseDiagnostic, ParseDiagnosticsError, ParseFault};
pub use crate::kind::SyntaxErrorKind;
pub use es_lexer::LexicalKind;
pub use source_text::LineAndColumnDisplay;
