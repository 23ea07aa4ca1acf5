//! The grammar of programs in both languages as one table, of which the language is a parameter: definitions and their
//! laws. It is written in the language of `grammar_theory` (`specs/Productions.antt` there).
//!
//! - `specs/Table.antt`: the rule of each row; its areas are in `specs/Items.antt`, `Declarations.antt`,
//!   `Statements.antt`, `Functions.antt`, `Classes.antt` and `Expressions.antt`.
//! - `specs/Embedding.antt`: the table of types (`es_grammar::types`) inside this one.
//! - `proofs/Theorems.antt`: keys of tokens have at most one tree, and no test that only chooses bars a reading.
//!
//! `docs/GRAMMAR.md` describes the rows in prose.
#![tactic(auto)]

pub mod cst;
mod rows;
pub mod types;

pub use crate::types::TypeRow;
pub use rows::{Context, NodeKind, Row};
