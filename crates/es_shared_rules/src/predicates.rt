//! The predicates of the grammar of programs in both languages, over the tokens of a text: those that the plain grammar
//! (`es_lookahead`) doesn't have.
//!
//! - `Kinds`, `Lookahead`, `Predicate`: tests and predicates named by a value, the plain ones among them, as the reader of the tables
//!   asks them (`IsOfKinds`, `Sees`, `Holds` of `es_rules`); `holds` asks a predicate of tokens alone.
//! - `opens_operator`, and `opens_arithmetic`, `opens_comparing`, `opens_bitwise`, `opens_logical`: whether a token that may
//!   follow an operand is there, by its kind alone (`specs/predicates/Operators.antt`).
//!
//! Each answers what its definition in `es_grammar` says of the keys of the tokens. None asks anything of the place.

mod arguments;
mod arrows;
mod asked;
mod classes;
mod declarations;
mod expressions;
mod kinds;
mod looks;
mod named;
mod operators;

pub use asked::holds;
pub use named::{Kinds, Lookahead, Predicate};
pub use operators::{
    opens_arithmetic, opens_bitwise, opens_comparing, opens_logical, opens_operator,
};
