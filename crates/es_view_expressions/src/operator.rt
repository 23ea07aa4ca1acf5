//! Typed views of operators: which operator a node is, with its operands in place.
//!
//! - `Operator`, `operator_at`: unary, binary and assignment operators, conditionals, `await`, `yield`, sequences.
//! - `Chain`, `chain_at`; `Turn`, `turn_at`: chains of left-associative operators, and what follows an operand.

mod lean;
mod operator;

pub use lean::{Chain, Turn, chain_at, turn_at};
pub use operator::{Operator, operator_at};
