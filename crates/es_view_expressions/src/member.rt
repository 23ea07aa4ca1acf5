//! Typed views of properties of objects and their keys: which form a node has, with its parts in place.
//!
//! - `Key`, `key_at`: keys of properties and members.
//! - `Prop`, `prop_at`: properties of objects.

mod key;
mod prop;

pub use key::{Key, key_at};
pub use prop::{Prop, prop_at};
