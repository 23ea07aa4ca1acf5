//! Typed views of functions and classes: which of them a node is, and what is in it.
//!
//! - `Function`, `function_at`: functions, arrows and classes as expressions.
//! - `FunctionHead`, `plain_function`, `typed_function`: the name, the parameters and the body of a function.
//! - `ClassHead`, `plain_class`, `typed_class`: the name, what is extended, and the members of a class.

mod class;
mod function;
mod head;

pub use class::{ClassHead, plain_class, typed_class};
pub use function::{Function, function_at};
pub use head::{FunctionHead, plain_function, typed_function};
