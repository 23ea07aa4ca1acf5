//! Bundles with choices, and with more: which further forms count, whether all forms are read, and where `require` leads.
ghost use Rattle.std.specs.Prelude.{◌≡◌, ℕ, List, IfOk, Err, Ok};
ghost use Rattle.serde_json.specs.Data.{Data};
ghost use Rattle.serde_json.specs.View.{view, members_view};
ghost use Rattle.graph_bundle.specs.Bundle.{IsJson};
ghost use Rattle.graph_run.specs.Steps.{IsUnforced};
ghost use Rattle.forms_build.specs.Bundle.{forms_of, forms_from_by};
ghost use Rattle.forms_build.specs.Bundle as spec;

use base::Text;
use forms_analyzer::Forms;
use graph_bundle::{
    BundleFault, ChosenBundle, ChosenKeys, Keys, Part, chosen_with, fault_of, optional,
};
use import_map::ImportMap;
use import_map::json_reading::{Reading, pointer};
use serde_json::{Map, Value};
use std::alloc::{AllocError, Global};

/// A bundle with choices.
#[derive(Drop)]
pub struct FormsBundle {
    pub chosen: ChosenBundle,
    /// The further forms that are edges too.
    pub forms: Forms,
    /// Forms are read too that a media type's own language leaves out.
    pub all_forms: bool,
    /// Edges of `require` are resolved by this in place of the bundle's import map.
    pub require_map: Option<ImportMap>,
}

/// The bundle that the bytes say, which are given back as soon as they are read, before the texts of the modules are made.
pub fn take_forms(alloc: Global, bytes: Vec<u8>) -> Result<FormsBundle, BundleFault>
    ensures bundle { IfOk result (λ b. (value : Data) × IsJson bytes.items value × (forms_of value ≡ Ok b)) }
    ensures unforced { IfOk result (λ b. IsUnforced b.chosen.bundle) }
    ensures not_json { result ≡ Err BundleFault.NotJson → (value : Data) → ¬ IsJson bytes.items value }
    ensures pointer { (at : List ℕ) → result ≡ Err (BundleFault.Pointer at) →
        (value : Data) × IsJson bytes.items value × (forms_of value ≡ Err at) }
{
    forms_taken(alloc, bytes)
}

fn forms_taken(alloc: Global, bytes: Vec<u8>) -> Result<FormsBundle, BundleFault>
    ensures bundle { IfOk result (λ b. (value : Data) × IsJson bytes.items value × (forms_of value ≡ Ok b)) }
    ensures not_json { result ≡ Err BundleFault.NotJson → (value : Data) → ¬ IsJson bytes.items value }
    ensures pointer { (at : List ℕ) → result ≡ Err (BundleFault.Pointer at) →
        (value : Data) × IsJson bytes.items value × (forms_of value ≡ Err at) }
{
    let read = Value::from_slice(alloc, bytes.as_slice());
    drop(bytes);
    match read {
        Ok(value) => forms_or_fault(alloc, &value),
        Err(error) => Err(fault_of(&error)),
    }
}

fn forms_or_fault(alloc: Global, value: &Value) -> Result<FormsBundle, BundleFault>
    ensures bundle { IfOk result (λ b. forms_of (view value.now) ≡ Ok b) }
    ensures not_json { ¬ (result ≡ Err BundleFault.NotJson) }
    ensures pointer { (at : List ℕ) → result ≡ Err (BundleFault.Pointer at) → forms_of (view value.now) ≡ Err at }
{
    match forms_in(alloc, value) {
        Ok(Ok(forms)) => Ok(forms),
        Ok(Err(at)) => Err(BundleFault::Pointer(at)),
        Err(_) => Err(BundleFault::OutOfMemory),
    }
}

/// The bundle that a value says.
#[tactic(auto, unfolding(crate::specs::Bundle::forms_of))]
pub fn forms_in(alloc: Global, value: &Value) -> Result<Reading<FormsBundle>, AllocError>
    ensures { IfOk result (λ b. b ≡ forms_of (view value.now)) }
{
    match value.as_object() {
        Some(members) => forms_with::<FormsKeys>(alloc, value, members),
        None => Ok(Err(Text::new(alloc))),
    }
}

/// The bundle that an object with these members says, which has no key but `K`'s.
pub fn forms_with<K: Keys>(
    alloc: Global,
    value: &Value,
    members: &Map<String, Value>,
) -> Result<Reading<FormsBundle>, AllocError>
    ensures { IfOk result (λ b. b ≡ forms_from_by K.knows (view value.now) (members_view members.now.entries)) }
{
    let forms = match choices(alloc, value)? {
        Ok(forms) => forms,
        Err(at) => return Ok(Err(at)),
    };
    let all_forms = match optional(alloc, value, "allForms", false)? {
        Ok(all_forms) => all_forms,
        Err(at) => return Ok(Err(at)),
    };
    let require_map = match require_map_at(alloc, value)? {
        Ok(require_map) => require_map,
        Err(at) => return Ok(Err(at)),
    };
    match chosen_with::<K>(alloc, value, members)? {
        Ok(chosen) => Ok(Ok(FormsBundle {
            chosen,
            forms,
            all_forms,
            require_map,
        })),
        Err(at) => Ok(Err(at)),
    }
}

/// The import map of the edges of `require`, if the bundle has one.
fn require_map_at(alloc: Global, value: &Value) -> Result<Reading<Option<ImportMap>>, AllocError>
    ensures { IfOk result (λ r. r ≡ spec.require_map_of (view value.now)) }
{
    match value.get("requireMap") {
        Some(part) => match ImportMap::read(alloc, part)? {
            Ok(map) => Ok(Ok(Some(map))),
            Err(at) => Ok(Err(pointer(alloc, "requireMap", at.as_str())?)),
        },
        None => Ok(Ok(None)),
    }
}

/// The forms that an object chooses.
fn choices(alloc: Global, value: &Value) -> Result<Reading<Forms>, AllocError>
    ensures { IfOk result (λ b. b ≡ spec.choices_of (view value.now)) }
{
    let commonjs = match optional(alloc, value, "commonJs", false)? {
        Ok(commonjs) => commonjs,
        Err(at) => return Ok(Err(at)),
    };
    let type_imports = match optional(alloc, value, "typeImports", false)? {
        Ok(type_imports) => type_imports,
        Err(at) => return Ok(Err(at)),
    };
    let workers = match optional(alloc, value, "workers", false)? {
        Ok(workers) => workers,
        Err(at) => return Ok(Err(at)),
    };
    match optional(alloc, value, "addresses", false)? {
        Ok(addresses) => Ok(Ok(Forms {
            commonjs,
            type_imports,
            workers,
            addresses,
        })),
        Err(at) => Ok(Err(at)),
    }
}

/// The keys of such a bundle.
pub struct FormsKeys;

impl Keys for FormsKeys {
    ghost knows = { spec.knows_forms };

    fn knows(key: &str) -> bool {
        ChosenKeys::knows(key) || is_form(key) || key == "allForms" || key == "requireMap"
    }
}

fn is_form(key: &str) -> bool
    ensures { result ≡ spec.is_form key.now }
{
    key == "commonJs" || key == "typeImports" || key == "workers" || key == "addresses"
}
