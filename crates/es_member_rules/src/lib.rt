//! Rows of the table of programs (`es_grammar`): parameters, keys, properties, members of classes.
#![tactic(auto)]

mod classes;
mod parameters;
mod patterns;
mod properties;

pub use classes::{Member, StaticIn, ValueIn};
pub use parameters::{Parameter, Parameters, Signature};
pub use patterns::PatternProperty;
pub use properties::{Key, MethodIn, PlainKey, Property};
