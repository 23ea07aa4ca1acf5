//! What a program declares, in the order of the walk, straight from its tree in a row of entries.

mod plan;
mod program;
mod rules;
mod source;

pub use program::program_events;
