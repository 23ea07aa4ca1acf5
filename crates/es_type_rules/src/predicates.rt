//! The predicates of the grammar of types, over the tokens of a text.
//!
//! - `Kinds`, `Lookahead`, `Predicate`: tests and predicates named by a value. By `IsOfKinds`, `Sees` and `Holds` (`es_rules`)
//!   each says of the tokens at a place what its definition in `es_grammar::types` says of their keys. None asks anything of the
//!   place.

mod asked;
mod kinds;
mod looks;
mod named;
mod names;
mod types;

pub use named::{Kinds, Lookahead, Predicate};
