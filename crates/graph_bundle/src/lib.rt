//! Bundles: the roots, options and modules of which a graph is built, in JSON.
//!
//! - `read_bundle`: exactly the bundle that the bytes say, or the pointer to the first thing for which they say none
//!   (`IsJson`, `bundle_of`, `specs/Bundle.antt`).
//! - `take_bundle`: the same of bytes that are given back as soon as they are read.
//! - `read_chosen`, `take_chosen`: the same of a bundle with choices, whose object may have a further key (`chosen_of`).
//! - `chosen_in`, `chosen_with`, `ChosenKeys`, `Keys`, `Part`, `required`, `optional`, `only`, `fault_of`: what reads it,
//!   for objects that say more.
//! - `Bundle`: its roots, what is built of them, its modules with their answers, the order in which they come,
//!   and its import map.
//!
//! Running out of memory is the one answer without a cause.
#![tactic(auto)]

mod arrival;
mod bundle;
mod chosen;
mod mapped;
mod members;
mod module;
mod modules;
mod options;
mod part;

pub use bundle::{Bundle, BundleFault, fault_of, read_bundle, take_bundle};
pub use chosen::{ChosenBundle, ChosenKeys, chosen_in, chosen_with, read_chosen, take_chosen};
pub use members::{Keys, only, optional, required};
pub use part::Part;
