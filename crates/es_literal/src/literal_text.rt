//! What a string literal stands for, at once where it has no escape (ECMA-262, "String Literals").
//!
//! - `literal_text(alloc, literal)`: the text that the literal stands for (`value_of` of `es_literal`).
//!
//! Between equal quotes, bytes that are neither `"`, `\` nor the end of a line stand for themselves: such a text is copied
//! once. Any other is read by `literal_value` of `es_literal`. Memory is the only cause of an `Err`.

mod bare;
mod text;

pub use crate::literal_text::text::literal_text;
