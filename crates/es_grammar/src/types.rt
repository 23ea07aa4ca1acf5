//! The types of TypeScript, which hold no expression and so are a table of their own. They are written in the language of
//! `grammar_theory` (`specs/Productions.antt` there).
//!
//! - `specs/types/TypeTable.antt`: the table of types; its areas are `specs/types/Types.antt`, `Members.antt`,
//!   `Parameters.antt` and `TypeNames.antt`.
//! - `specs/types/Modules.antt`: imports and exports of names, by the language.
//! - `specs/types/Expressions.antt`, `Functions.antt`, `Classes.antt`, `Statements.antt`, `Items.antt`: the predicates of
//!   programs that no type is part of.
//! - `proofs/types_lemmas/Theorems.antt`: keys of tokens have at most one tree as a type, and no test that only chooses bars
//!   a reading.
//!
//! `docs/GRAMMAR.md` describes the rows in prose.

mod rows;

pub use crate::rows::Context;
pub use rows::TypeRow;
