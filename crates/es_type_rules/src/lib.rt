//! Rows of the types' table (`es_grammar::types`): types, elements of tuples and results of functions.
#![tactic(auto)]

pub mod ends;
pub mod members;
mod operators;
pub mod predicates;
mod primary;
mod results;

pub use operators::{
    AnyType, ArrayTypes, ConditionalType, ConstructorType, FunctionType, IntersectionType,
    OperandType, UnionType,
};
pub use primary::{MembersType, PrimaryType};
pub use results::{Element, ResultType};
