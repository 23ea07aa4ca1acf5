//! Typed views of names of types, their arguments and their parameters.
//!
//! - `Reference`, `reference_at`: a name of a type, with arguments or without.
//! - `TypeArguments`, `arguments_at`: arguments.
//! - `TypeParams`, `type_params_at`: parameters.
//! - `Entity`, `entity_at`: names with dots.

mod arguments;
mod entity;
mod reference;
mod type_params;

pub use arguments::{TypeArguments, arguments_at};
pub use entity::{Entity, entity_at};
pub use reference::{Reference, reference_at};
pub use type_params::{TypeParams, type_params_at};
