//! The program's input: roots, options and modules in JSON.
ghost use Rattle.std.specs.Prelude.{◌≡◌, ℕ, List, IfOk, Err, Ok};
ghost use Rattle.serde_json.specs.Data.{Data};
ghost use Rattle.serde_json.specs.Errors.{IsMemory};
ghost use Rattle.serde_json.specs.View.{view, members_view};
ghost use Rattle.graph_bundle.specs.Bundle.{IsJson, bundle_of, bundle_from_by};
ghost use Rattle.graph_bundle.specs.Bundle as spec;

use crate::mapped::import_map_at;
use crate::members::{Keys, only, optional, required};
use crate::modules::modules_at;
use crate::options::options_in;
use base::{Items, Text};
use graph_builder::{Arrival, BuildOptions};
use graph_entry::LoadAnswer;
use graph_tables::specifier_table::Numbered;
use import_map::ImportMap;
use import_map::json_reading::Reading;
use serde_json::{Map, Value};
use std::alloc::{AllocError, Global};
use url::Url;

/// What to build a graph of.
#[derive(Drop)]
pub struct Bundle {
    pub roots: Items<Url>,
    pub options: BuildOptions,
    /// The modules, each with its specifier and its number.
    pub modules: Numbered<LoadAnswer>,
    /// The order in which the modules come; after it, the order in which they are asked for.
    pub arrival: Items<Arrival>,
    /// What resolves specifiers, in the place of the URL Standard alone.
    pub import_map: Option<ImportMap>,
}

/// Why bytes are no bundle.
#[derive(Debug, Drop)]
pub enum BundleFault {
    /// They are no JSON text.
    NotJson,
    /// The JSON pointer to the first thing for which the value is no bundle.
    Pointer(Text),
    /// Memory ran out.
    OutOfMemory,
}

/// The bundle that the bytes say.
pub fn read_bundle(alloc: Global, bytes: &[u8]) -> Result<Bundle, BundleFault>
    ensures bundle { IfOk result (λ b. (value : Data) × IsJson bytes.now value × (bundle_of value ≡ Ok b)) }
    ensures not_json { result ≡ Err BundleFault.NotJson → (value : Data) → ¬ IsJson bytes.now value }
    ensures pointer { (at : List ℕ) → result ≡ Err (BundleFault.Pointer at) →
        (value : Data) × IsJson bytes.now value × (bundle_of value ≡ Err at) }
{
    match Value::from_slice(alloc, bytes) {
        Ok(value) => bundle_or_fault(alloc, &value),
        Err(error) => Err(fault_of(&error)),
    }
}

/// The same of bytes that are given back as soon as they are read, before the texts of the modules are made.
pub fn take_bundle(alloc: Global, bytes: Vec<u8>) -> Result<Bundle, BundleFault>
    ensures bundle { IfOk result (λ b. (value : Data) × IsJson bytes.items value × (bundle_of value ≡ Ok b)) }
    ensures not_json { result ≡ Err BundleFault.NotJson → (value : Data) → ¬ IsJson bytes.items value }
    ensures pointer { (at : List ℕ) → result ≡ Err (BundleFault.Pointer at) →
        (value : Data) × IsJson bytes.items value × (bundle_of value ≡ Err at) }
{
    let read = Value::from_slice(alloc, bytes.as_slice());
    drop(bytes);
    match read {
        Ok(value) => bundle_or_fault(alloc, &value),
        Err(error) => Err(fault_of(&error)),
    }
}

/// Why a text was not read.
pub fn fault_of(error: &serde_json::Error) -> BundleFault
    ensures not_json { result ≡ BundleFault.NotJson → ¬ IsMemory error.now }
    ensures no_pointer { (at : List ℕ) → ¬ (result ≡ BundleFault.Pointer at) }
{
    if error.is_memory() {
        BundleFault::OutOfMemory
    } else {
        BundleFault::NotJson
    }
}

fn bundle_or_fault(alloc: Global, value: &Value) -> Result<Bundle, BundleFault>
    ensures bundle { IfOk result (λ b. bundle_of (view value.now) ≡ Ok b) }
    ensures not_json { ¬ (result ≡ Err BundleFault.NotJson) }
    ensures pointer { (at : List ℕ) → result ≡ Err (BundleFault.Pointer at) → bundle_of (view value.now) ≡ Err at }
{
    match bundle_in(alloc, value) {
        Ok(Ok(bundle)) => Ok(bundle),
        Ok(Err(at)) => Err(BundleFault::Pointer(at)),
        Err(_) => Err(BundleFault::OutOfMemory),
    }
}

/// The bundle that a value says.
#[tactic(auto, unfolding(crate::specs::Bundle::bundle_of))]
fn bundle_in(alloc: Global, value: &Value) -> Result<Reading<Bundle>, AllocError>
    ensures { IfOk result (λ b. b ≡ bundle_of (view value.now)) }
{
    match value.as_object() {
        Some(members) => bundle_with::<BundleKeys>(alloc, value, members),
        None => Ok(Err(Text::new(alloc))),
    }
}

/// The bundle that an object with these members says, which has no key but `K`'s.
pub fn bundle_with<K: Keys>(
    alloc: Global,
    value: &Value,
    members: &Map<String, Value>,
) -> Result<Reading<Bundle>, AllocError>
    ensures { IfOk result (λ b. b ≡ bundle_from_by K.knows (view value.now) (members_view members.now.entries)) }
{
    let roots = match required(alloc, value, "roots")? {
        Ok(roots) => roots,
        Err(at) => return Ok(Err(at)),
    };
    let options = match options_in(alloc, value)? {
        Ok(options) => options,
        Err(at) => return Ok(Err(at)),
    };
    let modules = match modules_at(alloc, value)? {
        Ok(modules) => modules,
        Err(at) => return Ok(Err(at)),
    };
    let arrival = match optional(alloc, value, "arrival", Items::new(alloc))? {
        Ok(arrival) => arrival,
        Err(at) => return Ok(Err(at)),
    };
    let import_map = match import_map_at(alloc, value)? {
        Ok(import_map) => import_map,
        Err(at) => return Ok(Err(at)),
    };
    match only::<K>(alloc, members)? {
        Ok(()) => Ok(Ok(Bundle {
            roots,
            options,
            modules,
            arrival,
            import_map,
        })),
        Err(at) => Ok(Err(at)),
    }
}

/// The keys of a bundle.
pub struct BundleKeys;

impl Keys for BundleKeys {
    ghost knows = { spec.knows_bundle };

    fn knows(key: &str) -> bool {
        key == "roots"
            || key == "kind"
            || key == "limit"
            || key == "skipDynamicDeps"
            || key == "imports"
            || key == "modules"
            || key == "arrival"
            || key == "importMap"
    }
}
