//! What a program declares, how each name is bound, and what encloses it: definitions.

mod kinds;
mod steps;

pub use kinds::{BindingKind, Id, ScopeKind, Var};
pub use steps::{Act, Event, Visit, Way};
