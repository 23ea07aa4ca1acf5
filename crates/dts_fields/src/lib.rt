//! Fields of classes as declarations have them, written into a draft.
//!
//! - `plain_field`, `typed_field`: fields of JavaScript and of TypeScript.
#![tactic(auto)]

mod fields;
mod modifiers;

pub use fields::{plain_field, typed_field};
