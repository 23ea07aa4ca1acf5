//! Variables as declarations have them, written into a draft.
#![tactic(auto)]

mod declarators;
mod lists;
mod names;
mod types;

pub use lists::variables;
