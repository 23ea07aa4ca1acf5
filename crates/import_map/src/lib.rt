//! Import maps (HTML, "Import maps"): where specifiers lead by a map of the caller's.
//!
//! - `ImportMap::from_value`: exactly the import map that a JSON value says, or the pointer to the first thing that is no
//!   object (`map_of`, `specs/ImportMap.antt`).
//! - `ImportMap` is a `Resolver`: the longest match decides, scopes before `imports` (`map_resolve`).
//!
//! Running out of memory is the one answer without a cause.
#![tactic(auto)]

mod follow;
mod fronts;
pub mod json_reading;
mod map;
mod names;
mod read;
mod table;

pub use map::{ImportMap, ImportMapError};
