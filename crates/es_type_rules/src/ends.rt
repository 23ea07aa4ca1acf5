//! The reader of the types of TypeScript (`es_grammar::types`): from tokens into a row of entries, or how far one reaches.
//!
//! - `part_end(alloc, part, tokens, at, room)`: the number after the one part that begins at a place, with at most
//!   `room` nodes on a path (`Reaches`, `specs/ends/Derived.antt`), or none. Sound and complete; allocates nothing.
//! - `type_parameters_end(alloc, tokens, at)`, `type_arguments_end(alloc, tokens, at)`: the same of these parts.
//! - `is_type_arguments(alloc, tokens, at, in_extends)`: whether type arguments can be read after an expression
//!   (`OpensArguments`).
//! - `angles_of(alloc, tokens)`: where type arguments and type parameters end at each `<`, each token read by the innermost one
//!   before it (`AreRight`, of `es_lookahead`).
//! - `read_row`: writes the one tree of a row from a place on (`row_at`, of `es_rules`).
//! - `OfTypes`: the rule of a row of types in the table of programs.
//!
//! Not promised: which token `Syntax` names, and when memory runs out.

mod embedded;
mod kept;
mod rows;
mod types;

pub use embedded::OfTypes;
pub use kept::angles_of;
pub use rows::{ProductionOf, read_row};
pub use types::{TypePart, is_type_arguments, part_end, type_arguments_end, type_parameters_end};
