//! Bundles with choices: a bundle whose object may have a further key.
ghost use Rattle.std.specs.Prelude.{◌≡◌, ℕ, List, IfOk, Err, Ok};
ghost use Rattle.serde_json.specs.Data.{Data};
ghost use Rattle.serde_json.specs.View.{view, members_view};
ghost use Rattle.graph_bundle.specs.Bundle.{IsJson, chosen_of, chosen_from_by};
ghost use Rattle.graph_bundle.specs.Bundle as spec;

use crate::bundle::{Bundle, BundleFault, BundleKeys, bundle_with, fault_of};
use crate::members::{Keys, optional};
use base::Text;
use import_map::json_reading::Reading;
use serde_json::{Map, Value};
use std::alloc::{AllocError, Global};

/// A bundle, and what is chosen beside it.
#[derive(Drop)]
pub struct ChosenBundle {
    pub bundle: Bundle,
    /// An import without an attribute may be of JSON.
    pub json_without_attribute: bool,
}

/// The bundle with its choices that the bytes say.
pub fn read_chosen(alloc: Global, bytes: &[u8]) -> Result<ChosenBundle, BundleFault>
    ensures bundle { IfOk result (λ b. (value : Data) × IsJson bytes.now value × (chosen_of value ≡ Ok b)) }
    ensures not_json { result ≡ Err BundleFault.NotJson → (value : Data) → ¬ IsJson bytes.now value }
    ensures pointer { (at : List ℕ) → result ≡ Err (BundleFault.Pointer at) →
        (value : Data) × IsJson bytes.now value × (chosen_of value ≡ Err at) }
{
    match Value::from_slice(alloc, bytes) {
        Ok(value) => chosen_or_fault(alloc, &value),
        Err(error) => Err(fault_of(&error)),
    }
}

/// The same of bytes that are given back as soon as they are read, before the texts of the modules are made.
pub fn take_chosen(alloc: Global, bytes: Vec<u8>) -> Result<ChosenBundle, BundleFault>
    ensures bundle { IfOk result (λ b. (value : Data) × IsJson bytes.items value × (chosen_of value ≡ Ok b)) }
    ensures not_json { result ≡ Err BundleFault.NotJson → (value : Data) → ¬ IsJson bytes.items value }
    ensures pointer { (at : List ℕ) → result ≡ Err (BundleFault.Pointer at) →
        (value : Data) × IsJson bytes.items value × (chosen_of value ≡ Err at) }
{
    let read = Value::from_slice(alloc, bytes.as_slice());
    drop(bytes);
    match read {
        Ok(value) => chosen_or_fault(alloc, &value),
        Err(error) => Err(fault_of(&error)),
    }
}

fn chosen_or_fault(alloc: Global, value: &Value) -> Result<ChosenBundle, BundleFault>
    ensures bundle { IfOk result (λ b. chosen_of (view value.now) ≡ Ok b) }
    ensures not_json { ¬ (result ≡ Err BundleFault.NotJson) }
    ensures pointer { (at : List ℕ) → result ≡ Err (BundleFault.Pointer at) → chosen_of (view value.now) ≡ Err at }
{
    match chosen_in(alloc, value) {
        Ok(Ok(chosen)) => Ok(chosen),
        Ok(Err(at)) => Err(BundleFault::Pointer(at)),
        Err(_) => Err(BundleFault::OutOfMemory),
    }
}

/// The bundle with its choices that a value says.
#[tactic(auto, unfolding(crate::specs::Bundle::chosen_of))]
pub fn chosen_in(alloc: Global, value: &Value) -> Result<Reading<ChosenBundle>, AllocError>
    ensures { IfOk result (λ b. b ≡ chosen_of (view value.now)) }
{
    match value.as_object() {
        Some(members) => chosen_with::<ChosenKeys>(alloc, value, members),
        None => Ok(Err(Text::new(alloc))),
    }
}

/// The bundle with its choices that an object with these members says, which has no key but `K`'s.
pub fn chosen_with<K: Keys>(
    alloc: Global,
    value: &Value,
    members: &Map<String, Value>,
) -> Result<Reading<ChosenBundle>, AllocError>
    ensures { IfOk result (λ b. b ≡ chosen_from_by K.knows (view value.now) (members_view members.now.entries)) }
{
    let json_without_attribute = match optional(alloc, value, "jsonWithoutAttribute", false)? {
        Ok(allowed) => allowed,
        Err(at) => return Ok(Err(at)),
    };
    match bundle_with::<K>(alloc, value, members)? {
        Ok(bundle) => Ok(Ok(ChosenBundle {
            bundle,
            json_without_attribute,
        })),
        Err(at) => Ok(Err(at)),
    }
}

/// The keys of a bundle with choices.
pub struct ChosenKeys;

impl Keys for ChosenKeys {
    ghost knows = { spec.knows_chosen };

    fn knows(key: &str) -> bool {
        BundleKeys::knows(key) || key == "jsonWithoutAttribute"
    }
}
