//! What an input says, by the form that asks for it.
ghost use Rattle.std.specs.Prelude.{◌≡◌, ℕ, List, IfOk, Err, Ok};
ghost use Rattle.serde_json.specs.Data.{Data};
ghost use Rattle.serde_json.specs.View.{view, members_view};
ghost use Rattle.graph_bundle.specs.Bundle.{IsJson};
ghost use Rattle.joravelsu_run.specs.Asked as spec;
ghost use Rattle.joravelsu_run.specs.Steps.{IsFree};

use crate::without::without_at;
use crate::words::Form;
use base::Text;
use forms_build::{FormsBundle, FormsKeys, forms_in, forms_with};
use graph_builder::Following;
use graph_bundle::{BundleFault, Keys, fault_of, required};
use graph_policy::Policy;
use graph_policy_file::policy_at;
use graph_why::Without;
use import_map::json_reading::Reading;
use serde_json::{Map, Value};
use std::alloc::{AllocError, Global};
use url::Url;

/// What is answered about a graph.
#[derive(Drop)]
pub enum Telling {
    /// Its report.
    Report,
    /// The order of its modules, or a cycle of them.
    Order,
    /// The groups of its modules that import each other.
    Groups,
    /// What is wrong with the texts of its modules.
    Faults,
    /// A shortest way of edges that are followed so to a specifier, and what only this leads to.
    Way(Following, Url),
    /// What is gone without this, where edges are followed so.
    Gone(Following, Without),
    /// What these rules say of it.
    Verdict(Policy),
    /// The declarations of its modules.
    Declarations,
}

/// What an input says: a bundle with choices, and what is answered about its graph.
#[derive(Drop)]
pub struct Asked {
    pub forms: FormsBundle,
    pub telling: Telling,
}

/// What the bytes say for a form. They are given back as soon as they are read, before the texts of the modules are made.
pub fn take_asked(alloc: Global, bytes: Vec<u8>, form: Form) -> Result<Asked, BundleFault>
    ensures asked { IfOk result (λ asked. (value : Data) × IsJson bytes.items value × (spec.asked_of form value ≡ Ok asked)) }
    ensures unforced { IfOk result IsFree }
    ensures not_json { result ≡ Err BundleFault.NotJson → (value : Data) → ¬ IsJson bytes.items value }
    ensures pointer { (at : List ℕ) → result ≡ Err (BundleFault.Pointer at) →
        (value : Data) × IsJson bytes.items value × (spec.asked_of form value ≡ Err at) }
{
    let read = Value::from_slice(alloc, bytes.as_slice());
    drop(bytes);
    match read {
        Ok(value) => asked_or_fault(alloc, &value, form),
        Err(error) => Err(fault_of(&error)),
    }
}

fn asked_or_fault(alloc: Global, value: &Value, form: Form) -> Result<Asked, BundleFault>
    ensures asked { IfOk result (λ asked. spec.asked_of form (view value.now) ≡ Ok asked) }
    ensures not_json { ¬ (result ≡ Err BundleFault.NotJson) }
    ensures pointer { (at : List ℕ) → result ≡ Err (BundleFault.Pointer at) → spec.asked_of form (view value.now) ≡ Err at }
{
    match asked_in(alloc, value, form) {
        Ok(Ok(asked)) => Ok(asked),
        Ok(Err(at)) => Err(BundleFault::Pointer(at)),
        Err(_) => Err(BundleFault::OutOfMemory),
    }
}

fn asked_in(alloc: Global, value: &Value, form: Form) -> Result<Reading<Asked>, AllocError>
    ensures { IfOk result (λ r. r ≡ spec.asked_of form (view value.now)) }
{
    match form {
        Form::Build => plain_in(alloc, value, Telling::Report),
        Form::Order => plain_in(alloc, value, Telling::Order),
        Form::Groups => plain_in(alloc, value, Telling::Groups),
        Form::Faults => plain_in(alloc, value, Telling::Faults),
        Form::Why => way_in(alloc, value),
        Form::Gone => gone_in(alloc, value),
        Form::Policy => ruled_in(alloc, value),
        Form::Declarations => plain_in(alloc, value, Telling::Declarations),
    }
}

/// A bundle with choices alone, with what is answered about its graph.
fn plain_in(alloc: Global, value: &Value, telling: Telling) -> Result<Reading<Asked>, AllocError>
    ensures { IfOk result (λ r. r ≡ spec.plain_of telling (view value.now)) }
{
    match forms_in(alloc, value)? {
        Ok(forms) => Ok(Ok(Asked { forms, telling })),
        Err(at) => Ok(Err(at)),
    }
}

/// A bundle with choices, and a specifier of its graph.
#[tactic(auto, unfolding(crate::specs::Asked::way_of))]
fn way_in(alloc: Global, value: &Value) -> Result<Reading<Asked>, AllocError>
    ensures { IfOk result (λ r. r ≡ spec.way_of (view value.now)) }
{
    match value.as_object() {
        Some(members) => way_with(alloc, value, members),
        None => Ok(Err(Text::new(alloc))),
    }
}

fn way_with(
    alloc: Global,
    value: &Value,
    members: &Map<String, Value>,
) -> Result<Reading<Asked>, AllocError>
    ensures { IfOk result (λ r. r ≡ spec.way_from (view value.now) (members_view members.now.entries)) }
{
    let to = match required(alloc, value, "why")? {
        Ok(to) => to,
        Err(at) => return Ok(Err(at)),
    };
    match forms_with::<WayKeys>(alloc, value, members)? {
        Ok(forms) => {
            let following = following_in(&forms);
            Ok(Ok(Asked {
                forms,
                telling: Telling::Way(following, to),
            }))
        }
        Err(at) => Ok(Err(at)),
    }
}

/// A bundle with choices, and what is left out of its graph.
#[tactic(auto, unfolding(crate::specs::Asked::gone_of))]
fn gone_in(alloc: Global, value: &Value) -> Result<Reading<Asked>, AllocError>
    ensures { IfOk result (λ r. r ≡ spec.gone_of (view value.now)) }
{
    match value.as_object() {
        Some(members) => gone_with(alloc, value, members),
        None => Ok(Err(Text::new(alloc))),
    }
}

fn gone_with(
    alloc: Global,
    value: &Value,
    members: &Map<String, Value>,
) -> Result<Reading<Asked>, AllocError>
    ensures { IfOk result (λ r. r ≡ spec.gone_from (view value.now) (members_view members.now.entries)) }
{
    let without = match without_at(alloc, value)? {
        Ok(without) => without,
        Err(at) => return Ok(Err(at)),
    };
    match forms_with::<GoneKeys>(alloc, value, members)? {
        Ok(forms) => {
            let following = following_in(&forms);
            Ok(Ok(Asked {
                forms,
                telling: Telling::Gone(following, without),
            }))
        }
        Err(at) => Ok(Err(at)),
    }
}

/// Which edges are followed, and whether an import without an attribute may be of JSON.
fn following_in(forms: &FormsBundle) -> Following
    ensures { result ≡ spec.following_in forms.now }
{
    Following {
        kind: forms.chosen.bundle.options.kind,
        skip_dynamic_deps: forms.chosen.bundle.options.skip_dynamic_deps,
        json_without_attribute: forms.chosen.json_without_attribute,
    }
}

/// A bundle with choices, and rules on its graph.
#[tactic(auto, unfolding(crate::specs::Asked::ruled_of))]
fn ruled_in(alloc: Global, value: &Value) -> Result<Reading<Asked>, AllocError>
    ensures { IfOk result (λ r. r ≡ spec.ruled_of (view value.now)) }
{
    match value.as_object() {
        Some(members) => ruled_with(alloc, value, members),
        None => Ok(Err(Text::new(alloc))),
    }
}

fn ruled_with(
    alloc: Global,
    value: &Value,
    members: &Map<String, Value>,
) -> Result<Reading<Asked>, AllocError>
    ensures { IfOk result (λ r. r ≡ spec.ruled_from (view value.now) (members_view members.now.entries)) }
{
    let policy = match policy_at(alloc, value, "policy")? {
        Ok(policy) => policy,
        Err(at) => return Ok(Err(at)),
    };
    match forms_with::<RuledKeys>(alloc, value, members)? {
        Ok(forms) => Ok(Ok(Asked {
            forms,
            telling: Telling::Verdict(policy),
        })),
        Err(at) => Ok(Err(at)),
    }
}

/// The keys of a bundle with choices and a specifier.
struct WayKeys;

impl Keys for WayKeys {
    ghost knows = { spec.knows_way };

    fn knows(key: &str) -> bool {
        FormsKeys::knows(key) || key == "why"
    }
}

/// The keys of a bundle with choices and what is left out.
struct GoneKeys;

impl Keys for GoneKeys {
    ghost knows = { spec.knows_gone };

    fn knows(key: &str) -> bool {
        FormsKeys::knows(key) || key == "without"
    }
}

/// The keys of a bundle with choices and rules.
struct RuledKeys;

impl Keys for RuledKeys {
    ghost knows = { spec.knows_ruled };

    fn knows(key: &str) -> bool {
        FormsKeys::knows(key) || key == "policy"
    }
}
