//! Typed views of the items of modules and of the names in them, one level at a time.
#![tactic(auto)]

pub mod items;
pub mod names;
