//! Characters past ASCII by their bytes (ECMA-262, "White Space", "Line Terminators", "Names and Keywords"): the blanks,
//! the line ends U+2028 and U+2029, and those that words may have, which are all others; escapes of characters in
//! words.
#![tactic(auto)]

mod escape;
mod wide;

pub use escape::{escaped_part, escaped_start};
pub use wide::{wide_blank, wide_line, wide_size};
