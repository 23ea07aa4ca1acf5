//! Typed views of types of TypeScript: which form a node has, with its parts as cursors.
//!
//! - `SimpleType`, `simple_at`: words, literals, templates and names.
//! - `CompoundType`, `compound_at`: types that hold types.
//! - `FunctionType`, `function_at`: types of functions, and type predicates as results.
//! - `Element`, `element_at`: elements of tuples.

mod compound;
mod element;
mod function;
mod simple;

pub use compound::{CompoundType, compound_at};
pub use element::{Element, element_at};
pub use function::{FunctionType, function_at};
pub use simple::{SimpleType, simple_at};
