//! What declarations of a program are made from, and the types of names, written into a draft.
//!
//! - `Env`: the text, its tokens, the numbers of its names, and what the module knows of them.
//! - `name_type`: `typeof` a name, or the type of a name that nothing declares.
//! - `array_name`, `class_name`: a name as an array, and as a class without type parameters.
#![tactic(auto)]

mod env;
mod names;

pub use env::Env;
pub use names::{array_name, class_name, is_unresolved, name_type};
