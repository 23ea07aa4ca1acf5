//! Keys of properties of objects as keys of types, written into a draft.
#![tactic(auto)]

mod chains;
mod keys;
mod posts;

pub use keys::type_key;
