//! Rules on modules and on edges, and what they forbid.
//!
//! - `matches(pattern, text)`: a `*` of the pattern stands for any text, each other byte for itself (`matches`,
//!   `specs/Pattern.antt`).
//! - `fits`, `edge_fits`: whether a rule fits a module, an edge (`specs/Rules.antt`).
//! - `module_breach`, `edge_breach`: the first rule of `forbidden` that fits, or that `allowed` is there and no rule of
//!   it fits (`specs/Breach.antt`).
//! - `entry_breach`: the same of an entry by all rules, and the first rule of `required` that asks for an edge that it lacks.
//! - `first_breach`: the first of a list that breaks a rule, by its place.
//!
//! What a rule sees is a plain record: no graph is read here. Nothing allocates, and no call fails.
#![tactic(auto)]

mod breach;
mod fitting;
mod pattern;
mod rule;
mod seen;

pub use breach::{edge_breach, entry_breach, first_breach, module_breach};
pub use fitting::{edge_fits, fits};
pub use pattern::matches;
pub use rule::{
    Breach, EdgeRule, EdgeRules, Finding, ModuleRule, ModuleRules, Policy, RequiredRule,
};
pub use seen::{Seen, SeenEdge, SeenEntry, SeenModule};
