//! Where numbers, the text of templates and regular expressions end (ECMA-262, "Numeric Literals", "Template Literal
//! Lexical Components", "Regular Expression Literals").
//!
//! Each call is given the bytes of the text from a place on, and that place. What it answers is a function of the text
//! (`specs/`); `proofs/` shows that it is the end of the spelling at that place, and of no other.

mod line;
mod number;
mod regexp;
mod template;

pub use line::begins_line_end;
pub use number::{NumberEnd, Radix, number_from};
pub use regexp::regexp_from;
pub use template::{TemplateEnd, template_from};
