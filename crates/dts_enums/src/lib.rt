//! Enums as declarations have them: with the values that they may have.
#![tactic(auto)]

mod copies;
mod enums;
mod numbers;
mod posts;
mod tokens;
mod values;

pub use copies::{keep_others, keep_part, keep_parts};
pub use enums::enum_declaration;
pub use values::starts_enum;
