//! Rules on modules and on edges, and rules that require an edge.
ghost use Rattle.std.specs.Prelude.{◌≡◌, IfOk};
ghost use Rattle.serde_json.specs.View.{view, members_view};
ghost use Rattle.import_map.specs.json_reading.Reading.{each_of};
ghost use Rattle.graph_policy_file.specs.PolicyFile as spec;

use crate::asked::{Said, given};
use crate::condition::no_condition;
use crate::lists::{Rule, rules_in};
use crate::target::{Target, no_target};
use base::{Items, Text};
use graph_bundle::{Keys, only, optional};
use graph_policy::{EdgeRule, ModuleRule, RequiredRule};
use import_map::json_reading::Reading;
use serde_json::{Map, Value};
use std::alloc::{AllocError, Global};

impl Rule for ModuleRule {
    ghost says = { spec.module_rule_of };

    fn read(alloc: Global, value: &Value) -> Result<Reading<ModuleRule>, AllocError> {
        match value.as_object() {
            Some(members) => module_rule_with(alloc, value, members),
            None => Ok(Err(Text::new(alloc))),
        }
    }
}

fn module_rule_with(
    alloc: Global,
    value: &Value,
    members: &Map<String, Value>,
) -> Result<Reading<ModuleRule>, AllocError>
    ensures { IfOk result (λ r. r ≡ spec.module_rule_from (view value.now) (members_view members.now.entries)) }
{
    match remarks(alloc, value)? {
        Ok(()) => {}
        Err(at) => return Ok(Err(at)),
    }
    let rule = match given(alloc, value, "module", no_condition(alloc))? {
        Ok(rule) => rule,
        Err(at) => return Ok(Err(at)),
    };
    match only::<ModuleRuleKeys>(alloc, members)? {
        Ok(()) => Ok(Ok(rule)),
        Err(at) => Ok(Err(at)),
    }
}

impl Rule for EdgeRule {
    ghost says = { spec.edge_rule_of };

    fn read(alloc: Global, value: &Value) -> Result<Reading<EdgeRule>, AllocError> {
        match value.as_object() {
            Some(members) => edge_rule_with(alloc, value, members),
            None => Ok(Err(Text::new(alloc))),
        }
    }
}

fn edge_rule_with(
    alloc: Global,
    value: &Value,
    members: &Map<String, Value>,
) -> Result<Reading<EdgeRule>, AllocError>
    ensures { IfOk result (λ r. r ≡ spec.edge_rule_from (view value.now) (members_view members.now.entries)) }
{
    match remarks(alloc, value)? {
        Ok(()) => {}
        Err(at) => return Ok(Err(at)),
    }
    let from = match given(alloc, value, "from", no_condition(alloc))? {
        Ok(from) => from,
        Err(at) => return Ok(Err(at)),
    };
    let target = match given(alloc, value, "to", no_target())? {
        Ok(target) => target,
        Err(at) => return Ok(Err(at)),
    };
    match only::<EdgeRuleKeys>(alloc, members)? {
        Ok(()) => Ok(Ok(edge_rule(from, target))),
        Err(at) => Ok(Err(at)),
    }
}

fn edge_rule(from: ModuleRule, target: Target) -> EdgeRule
    ensures { result ≡ spec.edge_rule from target }
{
    EdgeRule {
        from,
        to: target.to,
        text: target.text,
        kind: target.kind,
        type_only: target.type_only,
        dynamic: target.dynamic,
        resolved: target.resolved,
    }
}

impl Rule for RequiredRule {
    ghost says = { spec.required_rule_of };

    fn read(alloc: Global, value: &Value) -> Result<Reading<RequiredRule>, AllocError> {
        match value.as_object() {
            Some(members) => required_rule_with(alloc, value, members),
            None => Ok(Err(Text::new(alloc))),
        }
    }
}

fn required_rule_with(
    alloc: Global,
    value: &Value,
    members: &Map<String, Value>,
) -> Result<Reading<RequiredRule>, AllocError>
    ensures { IfOk result (λ r. r ≡ spec.required_rule_from (view value.now) (members_view members.now.entries)) }
{
    match remarks(alloc, value)? {
        Ok(()) => {}
        Err(at) => return Ok(Err(at)),
    }
    let module = match given(alloc, value, "module", no_condition(alloc))? {
        Ok(module) => module,
        Err(at) => return Ok(Err(at)),
    };
    let target = match given(alloc, value, "to", no_target())? {
        Ok(target) => target,
        Err(at) => return Ok(Err(at)),
    };
    match only::<RequiredRuleKeys>(alloc, members)? {
        Ok(()) => Ok(Ok(RequiredRule {
            edge: edge_rule(module, target),
        })),
        Err(at) => Ok(Err(at)),
    }
}

/// A rule's name and comment are texts, where they are there.
fn remarks(alloc: Global, value: &Value) -> Result<Reading<()>, AllocError>
    ensures { IfOk result (λ r. r ≡ spec.remarks (view value.now)) }
{
    match optional(alloc, value, "name", Text::new(alloc))? {
        Ok(_) => {}
        Err(at) => return Ok(Err(at)),
    }
    match optional(alloc, value, "comment", Text::new(alloc))? {
        Ok(_) => Ok(Ok(())),
        Err(at) => Ok(Err(at)),
    }
}

/// Lists of rules on modules.
impl Said for Items<ModuleRule> {
    ghost says = { each_of spec.module_rule_of };

    fn read(alloc: Global, value: &Value) -> Result<Reading<Items<ModuleRule>>, AllocError> {
        rules_in(alloc, value)
    }
}

/// Lists of rules on edges.
impl Said for Items<EdgeRule> {
    ghost says = { each_of spec.edge_rule_of };

    fn read(alloc: Global, value: &Value) -> Result<Reading<Items<EdgeRule>>, AllocError> {
        rules_in(alloc, value)
    }
}

/// Lists of rules that require an edge.
impl Said for Items<RequiredRule> {
    ghost says = { each_of spec.required_rule_of };

    fn read(alloc: Global, value: &Value) -> Result<Reading<Items<RequiredRule>>, AllocError> {
        rules_in(alloc, value)
    }
}

/// The keys of a rule on modules.
struct ModuleRuleKeys;

impl Keys for ModuleRuleKeys {
    ghost knows = { spec.knows_module_rule };

    fn knows(key: &str) -> bool {
        key == "name" || key == "comment" || key == "module"
    }
}

/// The keys of a rule on edges.
struct EdgeRuleKeys;

impl Keys for EdgeRuleKeys {
    ghost knows = { spec.knows_edge_rule };

    fn knows(key: &str) -> bool {
        key == "name" || key == "comment" || key == "from" || key == "to"
    }
}

/// The keys of a rule that requires an edge.
struct RequiredRuleKeys;

impl Keys for RequiredRuleKeys {
    ghost knows = { spec.knows_required_rule };

    fn knows(key: &str) -> bool {
        key == "name" || key == "comment" || key == "module" || key == "to"
    }
}
