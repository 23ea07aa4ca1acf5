//! Rules, and what they find.
use base::{Items, Text};

/// What a rule asks of a module. What is `None` isn't asked; an empty list of patterns is asked and matched by nothing.
#[derive(Debug, Drop)]
pub struct ModuleRule {
    /// Patterns of the specifier, one of which matches.
    pub path: Option<Items<Text>>,
    /// Patterns of the specifier, none of which matches.
    pub path_not: Items<Text>,
    pub scheme: Option<Items<Text>>,
    pub host: Option<Items<Text>>,
    pub package_name: Option<Items<Text>>,
}

/// What a rule asks of an edge.
#[derive(Debug, Drop)]
pub struct EdgeRule {
    pub from: ModuleRule,
    pub to: Option<ModuleRule>,
    /// Patterns of the specifier as the module has it.
    pub text: Option<Items<Text>>,
    pub kind: Option<Items<Text>>,
    pub type_only: Option<bool>,
    pub dynamic: Option<bool>,
    /// Whether the edge has a target.
    pub resolved: Option<bool>,
}

#[derive(Debug, Drop)]
pub struct ModuleRules {
    pub forbidden: Items<ModuleRule>,
    /// `None`: what isn't forbidden is allowed.
    pub allowed: Option<Items<ModuleRule>>,
}

#[derive(Debug, Drop)]
pub struct EdgeRules {
    pub forbidden: Items<EdgeRule>,
    /// `None`: what isn't forbidden is allowed.
    pub allowed: Option<Items<EdgeRule>>,
}

/// What a rule requires: a module that `edge.from` fits has an edge that `edge` fits.
#[derive(Debug, Drop)]
pub struct RequiredRule {
    pub edge: EdgeRule,
}

#[derive(Debug, Drop)]
pub struct Policy {
    pub modules: ModuleRules,
    pub edges: EdgeRules,
    pub required: Items<RequiredRule>,
}

/// Why a rule is broken.
#[derive(Clone, Copy, Debug, PartialEq, Eq)]
pub enum Breach {
    /// The rule of `forbidden` with this number, counted from 0, is the first that fits.
    Forbidden(usize),
    /// No rule of `allowed` fits.
    NotAllowed,
    /// The rule of `required` with this number, counted from 0, is the first that asks for an edge that the module lacks.
    Lacking(usize),
}

/// The first of a list that is forbidden.
#[derive(Clone, Copy, Debug, PartialEq, Eq)]
pub struct Finding {
    /// Its place, counted from 0.
    pub at: usize,
    pub breach: Breach,
}
