//! Conditions on a module.
ghost use Rattle.std.specs.Prelude.{◌≡◌, IfOk};
ghost use Rattle.serde_json.specs.View.{view, members_view};
ghost use Rattle.graph_policy_file.specs.PolicyFile as spec;

use crate::asked::{Said, asked, given};
use base::{Items, Text};
use graph_bundle::{Keys, only};
use graph_policy::ModuleRule;
use import_map::json_reading::Reading;
use serde_json::{Map, Value};
use std::alloc::{AllocError, Global};

impl Said for ModuleRule {
    ghost says = { spec.module_of };

    fn read(alloc: Global, value: &Value) -> Result<Reading<ModuleRule>, AllocError> {
        match value.as_object() {
            Some(members) => module_with(alloc, value, members),
            None => Ok(Err(Text::new(alloc))),
        }
    }
}

fn module_with(
    alloc: Global,
    value: &Value,
    members: &Map<String, Value>,
) -> Result<Reading<ModuleRule>, AllocError>
    ensures { IfOk result (λ r. r ≡ spec.module_from (view value.now) (members_view members.now.entries)) }
{
    let rule = match condition(alloc, value)? {
        Ok(rule) => rule,
        Err(at) => return Ok(Err(at)),
    };
    match only::<ModuleKeys>(alloc, members)? {
        Ok(()) => Ok(Ok(rule)),
        Err(at) => Ok(Err(at)),
    }
}

/// What an object asks of a module; keys that ask something else aren't looked at.
pub fn condition(alloc: Global, value: &Value) -> Result<Reading<ModuleRule>, AllocError>
    ensures { IfOk result (λ r. r ≡ spec.condition (view value.now)) }
{
    let path = match asked(alloc, value, "path")? {
        Ok(path) => path,
        Err(at) => return Ok(Err(at)),
    };
    let path_not = match given(alloc, value, "pathNot", Items::new(alloc))? {
        Ok(path_not) => path_not,
        Err(at) => return Ok(Err(at)),
    };
    let scheme = match asked(alloc, value, "scheme")? {
        Ok(scheme) => scheme,
        Err(at) => return Ok(Err(at)),
    };
    let host = match asked(alloc, value, "host")? {
        Ok(host) => host,
        Err(at) => return Ok(Err(at)),
    };
    match asked(alloc, value, "package")? {
        Ok(package_name) => Ok(Ok(ModuleRule {
            path,
            path_not,
            scheme,
            host,
            package_name,
        })),
        Err(at) => Ok(Err(at)),
    }
}

/// A rule that asks nothing.
pub fn no_condition(alloc: Global) -> ModuleRule
    ensures { result ≡ spec.no_condition }
{
    ModuleRule {
        path: None,
        path_not: Items::new(alloc),
        scheme: None,
        host: None,
        package_name: None,
    }
}

/// The keys of a condition on a module.
pub struct ModuleKeys;

impl Keys for ModuleKeys {
    ghost knows = { spec.knows_module };

    fn knows(key: &str) -> bool {
        key == "path" || key == "pathNot" || key == "scheme" || key == "host" || key == "package"
    }
}
