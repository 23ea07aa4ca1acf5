//! The reader of each row of the table of programs in both languages (`es_grammar`).
//!
//! - `read_row`: writes the one tree of a row from a place on, in the language of the input, or answers `Syntax` where there
//!   is none (`row_at`, of `es_rules`). A row of types is read by the rule of the table of types (`es_type_rules::ends`).
//! - `Ring`: rows that are read by a function, with at most `room` on a path.

mod rows;

pub use rows::{ProductionOf, Ring, read_row};
