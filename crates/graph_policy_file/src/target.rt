//! Conditions on a target, and on the edge itself.
ghost use Rattle.std.specs.Prelude.{◌≡◌, IfOk, not, option_map};
ghost use Rattle.serde_json.specs.View.{view, members_view};
ghost use Rattle.graph_policy_file.specs.PolicyFile as spec;

use crate::asked::{Said, asked};
use crate::condition::{ModuleKeys, condition};
use base::{Items, Text};
use graph_bundle::{Keys, only};
use graph_policy::ModuleRule;
use import_map::json_reading::Reading;
use serde_json::{Map, Value};
use std::alloc::{AllocError, Global};

/// What a rule asks of an edge beside its module.
#[derive(Drop)]
pub struct Target {
    pub to: Option<ModuleRule>,
    pub text: Option<Items<Text>>,
    pub kind: Option<Items<Text>>,
    pub type_only: Option<bool>,
    pub dynamic: Option<bool>,
    /// Whether the edge has a target.
    pub resolved: Option<bool>,
}

/// A target of which nothing is asked.
pub fn no_target() -> Target
    ensures { result ≡ spec.no_target }
{
    Target {
        to: None,
        text: None,
        kind: None,
        type_only: None,
        dynamic: None,
        resolved: None,
    }
}

impl Said for Target {
    ghost says = { spec.target_of };

    fn read(alloc: Global, value: &Value) -> Result<Reading<Target>, AllocError> {
        match value.as_object() {
            Some(members) => target_with(alloc, value, members),
            None => Ok(Err(Text::new(alloc))),
        }
    }
}

fn target_with(
    alloc: Global,
    value: &Value,
    members: &Map<String, Value>,
) -> Result<Reading<Target>, AllocError>
    ensures { IfOk result (λ r. r ≡ spec.target_from (view value.now) (members_view members.now.entries)) }
{
    let rule = match condition(alloc, value)? {
        Ok(rule) => rule,
        Err(at) => return Ok(Err(at)),
    };
    let text = match asked(alloc, value, "text")? {
        Ok(text) => text,
        Err(at) => return Ok(Err(at)),
    };
    let kind = match asked(alloc, value, "kind")? {
        Ok(kind) => kind,
        Err(at) => return Ok(Err(at)),
    };
    let type_only = match asked(alloc, value, "typeOnly")? {
        Ok(type_only) => type_only,
        Err(at) => return Ok(Err(at)),
    };
    let dynamic = match asked(alloc, value, "dynamic")? {
        Ok(dynamic) => dynamic,
        Err(at) => return Ok(Err(at)),
    };
    let unresolved = match asked(alloc, value, "couldNotResolve")? {
        Ok(unresolved) => unresolved,
        Err(at) => return Ok(Err(at)),
    };
    match only::<TargetKeys>(alloc, members)? {
        Ok(()) => Ok(Ok(Target {
            to: if_asked(asks_of_module(value), rule),
            text,
            kind,
            type_only,
            dynamic,
            resolved: contrary(unresolved),
        })),
        Err(at) => Ok(Err(at)),
    }
}

/// The rule, where something is asked.
fn if_asked(asks: bool, rule: ModuleRule) -> Option<ModuleRule>
    ensures { result ≡ spec.if_asked asks rule }
{
    if asks { Some(rule) } else { None }
}

/// Whether one of the keys of a condition on a module is there.
fn asks_of_module(value: &Value) -> bool
    ensures { result ≡ spec.asks_of_module (view value.now) }
{
    value.get("path").is_some()
        || value.get("pathNot").is_some()
        || value.get("scheme").is_some()
        || value.get("host").is_some()
        || value.get("package").is_some()
}

fn contrary(flag: Option<bool>) -> Option<bool>
    ensures { result ≡ option_map not flag }
{
    match flag {
        Some(flag) => Some(!flag),
        None => None,
    }
}

/// The keys of a target.
struct TargetKeys;

impl Keys for TargetKeys {
    ghost knows = { spec.knows_target };

    fn knows(key: &str) -> bool {
        ModuleKeys::knows(key)
            || key == "text"
            || key == "kind"
            || key == "typeOnly"
            || key == "dynamic"
            || key == "couldNotResolve"
    }
}
