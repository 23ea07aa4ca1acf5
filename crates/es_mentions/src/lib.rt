//! What a program mentions that a graph of its modules doesn't show: names of the host that aren't allowed, imports of no
//! literal, `import.meta` and `with`.
//!
//! - `mentions`: all of them, in the order of the text, for a set of allowed names (`mentions`, `specs/Mentions.antt`).
//! - `Mention`, `Reason`: where one is, and why it is listed.
#![tactic(auto)]

mod free;
mod gone;
mod kinds;
mod listed;
mod merge;
mod nodes;
mod program;
mod source;

pub use listed::{Mention, Reason};
pub use program::mentions;
