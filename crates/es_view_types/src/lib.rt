//! Typed views of types, their names and their members, one level at a time.
#![tactic(auto)]

pub mod members;
pub mod names;
pub mod types;
