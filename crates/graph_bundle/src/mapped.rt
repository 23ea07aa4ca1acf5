//! The import map of a bundle.
ghost use Rattle.std.specs.Prelude.{◌≡◌, None, codes, IfOk};
ghost use Rattle.serde_json.specs.View.{view, members_view};
ghost use Rattle.import_map.specs.json_reading.Reading as reading;
ghost use Rattle.import_map.specs.ImportMap.{map_of};
ghost use Rattle.graph_bundle.specs.Bundle as spec;

use crate::members::{Keys, only, required};
use crate::part::Part;
use base::Text;
use import_map::json_reading::{Reading, pointer, under};
use import_map::{ImportMap, ImportMapError};
use serde_json::{Map, Value};
use std::alloc::{AllocError, Global};
use url::Url;

/// The import map of a bundle, if it has one.
pub fn import_map_at(alloc: Global, value: &Value) -> Result<Reading<Option<ImportMap>>, AllocError>
    ensures { IfOk result (λ r. r ≡ reading.optional spec.some_import_map None (codes "importMap") (view value.now)) }
{
    match value.get("importMap") {
        Some(part) => match ImportMap::read(alloc, part)? {
            Ok(map) => Ok(Ok(Some(map))),
            Err(at) => Ok(Err(pointer(alloc, "importMap", at.as_str())?)),
        },
        None => Ok(Ok(None)),
    }
}

impl Part for ImportMap {
    ghost says = { spec.import_map_of };

    fn read(alloc: Global, value: &Value) -> Result<Reading<ImportMap>, AllocError> {
        match value.as_object() {
            Some(members) => map_with(alloc, value, members),
            None => Ok(Err(Text::new(alloc))),
        }
    }
}

/// The import map that an object with these members says: its base, and what it maps.
fn map_with(
    alloc: Global,
    value: &Value,
    members: &Map<String, Value>,
) -> Result<Reading<ImportMap>, AllocError>
    ensures { IfOk result (λ r. r ≡ spec.import_map_from (view value.now) (members_view members.now.entries)) }
{
    let base: Url = match required(alloc, value, "base")? {
        Ok(base) => base,
        Err(at) => return Ok(Err(at)),
    };
    let map = match map_at(alloc, value, &base)? {
        Ok(map) => map,
        Err(at) => return Ok(Err(at)),
    };
    match only::<MapKeys>(alloc, members)? {
        Ok(()) => Ok(Ok(map)),
        Err(at) => Ok(Err(at)),
    }
}

/// What is at `map`, with its relative URLs read at the base.
fn map_at(alloc: Global, value: &Value, base: &Url) -> Result<Reading<ImportMap>, AllocError>
    ensures { IfOk result (λ r. r ≡ reading.required (map_of base.now) (codes "map") (view value.now)) }
{
    match value.get("map") {
        Some(map) => {
            let reading = map_in(alloc, map, base)?;
            under(alloc, "map", reading)
        }
        None => Ok(Err(pointer(alloc, "map", "")?)),
    }
}

fn map_in(alloc: Global, value: &Value, base: &Url) -> Result<Reading<ImportMap>, AllocError>
    ensures { IfOk result (λ r. r ≡ map_of base.now (view value.now)) }
{
    match ImportMap::from_value(alloc, value, base) {
        Ok(map) => Ok(Ok(map)),
        Err(ImportMapError::NotObject(at)) => Ok(Err(at)),
        Err(ImportMapError::OutOfMemory) => Err(AllocError),
    }
}

/// The keys of an import map with its base.
struct MapKeys;

impl Keys for MapKeys {
    ghost knows = { spec.knows_import_map };

    fn knows(key: &str) -> bool {
        key == "base" || key == "map"
    }
}
