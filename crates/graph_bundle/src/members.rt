//! The members of objects.
ghost use Rattle.std.specs.Prelude.{◌≡◌, List, ℕ, Bool, IfOk, string_bytes};
ghost use Rattle.serde_json.specs.View.{view, members_view};
ghost use Rattle.import_map.specs.json_reading.Reading as spec;

use crate::part::Part;
use import_map::json_reading::{Reading, escaped, pointer, under};
use serde_json::{Map, Value};
use std::alloc::{AllocError, Global};

/// The part at a key, which must be there. The key has neither `~` nor `/`.
pub fn required<P: Part>(alloc: Global, value: &Value, key: &str) -> Result<Reading<P>, AllocError>
    ensures { IfOk result (λ r. r ≡ spec.required P.says key.now (view value.now)) }
{
    match value.get(key) {
        Some(part) => {
            let reading = P::read(alloc, part)?;
            under(alloc, key, reading)
        }
        None => Ok(Err(pointer(alloc, key, "")?)),
    }
}

/// The part at a key, or the default where nothing is there. The key has neither `~` nor `/`.
pub fn optional<P: Part>(
    alloc: Global,
    value: &Value,
    key: &str,
    default: P,
) -> Result<Reading<P>, AllocError>
    ensures { IfOk result (λ r. r ≡ spec.optional P.says default key.now (view value.now)) }
{
    match value.get(key) {
        Some(part) => {
            let reading = P::read(alloc, part)?;
            under(alloc, key, reading)
        }
        None => Ok(Ok(default)),
    }
}

/// The keys that objects of some kind may have.
pub trait Keys {
    ghost knows: { List ℕ → Bool };

    fn knows(key: &str) -> bool
        ensures { result ≡ knows key.now };
}

/// That an object has no other keys. The first that is another is at fault.
pub fn only<K: Keys>(alloc: Global, members: &Map<String, Value>) -> Result<Reading<()>, AllocError>
    ensures { IfOk result (λ r. r ≡ spec.only K.knows (members_view members.now.entries)) }
{
    for (name, _) in members.iter() {
        if !K::knows(name.as_str()) {
            let part = escaped(alloc, name.as_str())?;
            return Ok(Err(pointer(alloc, part.as_str(), "")?));
        }
    }
    Ok(Ok(()))
}
