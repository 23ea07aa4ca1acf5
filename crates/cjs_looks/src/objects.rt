//! What the analysis of CommonJS asks of functions and of properties of objects, by the views of a row of entries.
//!
//! - `returned_by`: the expression that a function only returns (`returned_by`, `cjs_facts`'s `specs/objects/Looks.antt`).
//! - `property_at`: what a property is (`IsProperty`, `specs/objects/Properties.antt`).
//! - `returns_harmless`: whether a function only returns what is harmless.

mod properties;
mod returned;

pub use properties::{Property, property_at, returns_harmless};
pub use returned::returned_by;
