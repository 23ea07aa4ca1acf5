//! The types of literals, written into a draft: their own, or those of all values of their kind.
#![tactic(auto)]

mod literals;
mod numbers;

pub use literals::{regexp_type, str_type, template_type, word_type};
pub use numbers::{minus_type, number_type};
