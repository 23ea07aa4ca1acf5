//! Declarations in the making: a changed row, the diagnostics, and how many names were made.
//!
//! - `Draft`: the three, and whether memory ran out. Each call writes one thing; one that fails is remembered, and from then on
//!   nothing is said of the draft.
//! - `is_kind`: whether a token is of a kind.
#![tactic(auto)]

mod draft;
mod parts;
mod tokens;

pub use draft::Draft;
pub use tokens::is_kind;
