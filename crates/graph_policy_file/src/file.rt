//! The whole: rules on modules, rules on edges, and edges that are required.
ghost use Rattle.std.specs.Prelude.{◌≡◌, IfOk};
ghost use Rattle.serde_json.specs.View.{view, members_view};
ghost use Rattle.import_map.specs.json_reading.Reading as reading;
ghost use Rattle.graph_policy_file.specs.PolicyFile as spec;

use crate::asked::{Said, asked, given};
use base::{Items, Text};
use graph_bundle::{Keys, only};
use graph_policy::{EdgeRules, ModuleRules, Policy};
use import_map::json_reading::{Reading, pointer, under};
use serde_json::{Map, Value};
use std::alloc::{AllocError, Global};

/// The rules that a value says.
pub fn policy_in(alloc: Global, value: &Value) -> Result<Reading<Policy>, AllocError>
    ensures { IfOk result (λ r. r ≡ spec.policy_of (view value.now)) }
{
    match value.as_object() {
        Some(members) => policy_with(alloc, value, members),
        None => Ok(Err(Text::new(alloc))),
    }
}

/// The rules at a key, which must be there. The key has neither `~` nor `/`.
pub fn policy_at(alloc: Global, value: &Value, key: &str) -> Result<Reading<Policy>, AllocError>
    ensures { IfOk result (λ r. r ≡ reading.required spec.policy_of key.now (view value.now)) }
{
    match value.get(key) {
        Some(part) => {
            let reading = policy_in(alloc, part)?;
            under(alloc, key, reading)
        }
        None => Ok(Err(pointer(alloc, key, "")?)),
    }
}

fn policy_with(
    alloc: Global,
    value: &Value,
    members: &Map<String, Value>,
) -> Result<Reading<Policy>, AllocError>
    ensures { IfOk result (λ r. r ≡ spec.policy_from (view value.now) (members_view members.now.entries)) }
{
    let modules = match given(alloc, value, "modules", no_rules(alloc))? {
        Ok(modules) => modules,
        Err(at) => return Ok(Err(at)),
    };
    let forbidden = match given(alloc, value, "forbidden", Items::new(alloc))? {
        Ok(forbidden) => forbidden,
        Err(at) => return Ok(Err(at)),
    };
    let allowed = match asked(alloc, value, "allowed")? {
        Ok(allowed) => allowed,
        Err(at) => return Ok(Err(at)),
    };
    let required = match given(alloc, value, "required", Items::new(alloc))? {
        Ok(required) => required,
        Err(at) => return Ok(Err(at)),
    };
    match only::<PolicyKeys>(alloc, members)? {
        Ok(()) => Ok(Ok(Policy {
            modules,
            edges: EdgeRules { forbidden, allowed },
            required,
        })),
        Err(at) => Ok(Err(at)),
    }
}

impl Said for ModuleRules {
    ghost says = { spec.module_rules_of };

    fn read(alloc: Global, value: &Value) -> Result<Reading<ModuleRules>, AllocError> {
        match value.as_object() {
            Some(members) => module_rules_with(alloc, value, members),
            None => Ok(Err(Text::new(alloc))),
        }
    }
}

fn module_rules_with(
    alloc: Global,
    value: &Value,
    members: &Map<String, Value>,
) -> Result<Reading<ModuleRules>, AllocError>
    ensures { IfOk result (λ r. r ≡ spec.module_rules_from (view value.now) (members_view members.now.entries)) }
{
    let forbidden = match given(alloc, value, "forbidden", Items::new(alloc))? {
        Ok(forbidden) => forbidden,
        Err(at) => return Ok(Err(at)),
    };
    let allowed = match asked(alloc, value, "allowed")? {
        Ok(allowed) => allowed,
        Err(at) => return Ok(Err(at)),
    };
    match only::<ModuleRulesKeys>(alloc, members)? {
        Ok(()) => Ok(Ok(ModuleRules { forbidden, allowed })),
        Err(at) => Ok(Err(at)),
    }
}

/// No rules: everything is allowed.
fn no_rules(alloc: Global) -> ModuleRules
    ensures { result ≡ spec.no_rules }
{
    ModuleRules {
        forbidden: Items::new(alloc),
        allowed: None,
    }
}

/// The keys of the rules on modules.
struct ModuleRulesKeys;

impl Keys for ModuleRulesKeys {
    ghost knows = { spec.knows_module_rules };

    fn knows(key: &str) -> bool {
        key == "forbidden" || key == "allowed"
    }
}

/// The keys of the whole.
struct PolicyKeys;

impl Keys for PolicyKeys {
    ghost knows = { spec.knows_policy };

    fn knows(key: &str) -> bool {
        key == "modules" || key == "forbidden" || key == "allowed" || key == "required"
    }
}
