//! Rows of the types' table (`es_grammar::types`): names, arguments, parameters, patterns, and members of types in braces.

mod members;
mod names;
mod parameters;
mod patterns;

pub use members::{Key, Member};
pub use names::{
    Arguments, EntityOf, ImportType, OpenedFunction, OpenedParameters, ReferenceOf, TypeParameters,
};
pub use parameters::{ListBefore, MarkIn, Parameter, Parameters, ParametersIn, TypeIn};
pub use patterns::{Pattern, PatternElement, PatternKey, PatternProperty};
