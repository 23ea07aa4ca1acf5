//! The declarations of a program: what a `.d.ts` of it says, by the rules of `dts_rules`, and what couldn't be determined.
//!
//! - `FastCheckDtsTransformer::transform(program, numbers)`: the declarations (`declared`, `dts_rules`), and the diagnostics.
//! - `declare(program, numbers, ranges, unresolved, made)`: the same without a specifier.
//! - `ModulePublicRanges::of(program)`: the bodies of overloads, which declarations leave out (`overloads`, `dts_rules`).
//! - `print_declarations`, `emit_declarations`: the printed text of declarations (`printed`, `es_changed_printer`).
//! - `FastCheckDtsDiagnostic`: what couldn't be determined, and where.
#![tactic(auto)]

mod declarations;
mod declaring;
mod diagnostics;
mod drafts;
mod public_ranges;
mod transformer;

pub use crate::declarations::{Declarations, emit_declarations, print_declarations};
pub use crate::declaring::{Declared, declare};
pub use crate::diagnostics::{FastCheckDiagnosticRange, FastCheckDtsDiagnostic};
pub use crate::public_ranges::ModulePublicRanges;
pub use crate::transformer::FastCheckDtsTransformer;
pub use dts_rules::{Found, FoundKind};
