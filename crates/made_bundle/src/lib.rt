//! Bundles made by number, to measure with: a tree of modules that all import the first one back.
//!
//! - `make_bundle(n)`: the JSON text of the bundle of `n` modules, byte for byte (`made_text`, `specs/Made.antt`).
#![tactic(auto)]

mod made;

pub use made::{MOST_MODULES, make_bundle};
