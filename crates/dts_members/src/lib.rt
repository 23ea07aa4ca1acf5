//! Members of classes, and classes, as declarations have them, written into a draft.
//!
//! - `class`: a class with the members that its declaration has.
//! - `RangeSet`, `is_listed`: the ranges of the bodies of overloads, and whether a range is one of them.
#![tactic(auto)]

mod classes;
mod heads;
mod members;
mod methods;
mod overloads;
mod typed_methods;

pub use classes::class;
pub use overloads::{RangeSet, is_listed};
