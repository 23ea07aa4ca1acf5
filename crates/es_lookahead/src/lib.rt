//! The predicates of the grammar of programs, over the tokens of a text.
//!
//! - `Tokens`: the tokens of a text, with what is seen at a place, and a method for each test of the next token and each
//!   predicate of the table of `es_grammar::types`.
//! - `Kinds`, `Lookahead`, `Predicate`: tests and predicates named by a value; `is_kind`, `sees_ahead`, `holds` ask them.
//!
//! Each answers what its definition in `es_grammar::types` says of the keys of the tokens. None asks anything of the place.
#![tactic(auto)]

mod classes;
mod ends;
mod expressions;
mod functions;
mod holds;
mod kinds;
mod looks;
mod modules;
mod named;
mod statements;
mod tokens;
mod words;

pub use ends::{Angle, End, end_in};
pub use holds::is_of;
pub use looks::Seen;
pub use named::{Kinds, Lookahead, Predicate};
pub use tokens::Tokens;
