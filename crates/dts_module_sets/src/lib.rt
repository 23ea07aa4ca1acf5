//! What a module knows of its own names, from all its items.
#![tactic(auto)]

mod items;

pub use items::module_sets;
