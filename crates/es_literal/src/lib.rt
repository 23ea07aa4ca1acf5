//! String literals with their escapes (ECMA-262, "String Literals"): where one ends, what it stands for, and the literal
//! of a text.
#![tactic(auto)]

pub mod literal_text;
mod quotes;
pub mod spelling;
mod string;
mod value;

pub use quotes::quote;
pub use string::{StringEnd, string_from};
pub use value::{LiteralValue, literal_value};
