//! What the calls of `import_map` answer for a row.

use import_map::{ImportMap, ImportMapError};
use serde_json::Value;
use specifier_resolver::{ResolveFault, Resolver};
use std::alloc::{AllocError, Global};
use test_rows::Row;
use url::Url;

/// What the row's specifier resolves to by its map, or why it doesn't resolve.
pub fn answer(alloc: Global, row: &Row) -> Result<String, AllocError> {
    let Ok(base) = Url::parse(alloc, row.at(2)) else {
        return String::from_str(alloc, "the base is no URL");
    };
    let Ok(value) = Value::from_slice(alloc, row.at(1).as_bytes()) else {
        return String::from_str(alloc, "the map is no JSON");
    };
    match ImportMap::from_value(alloc, &value, &base) {
        Ok(map) => led(alloc, row, &map),
        Err(ImportMapError::NotObject(at)) => format!(in alloc; "no object at {at}"),
        Err(ImportMapError::OutOfMemory) => Err(AllocError),
    }
}

fn led(alloc: Global, row: &Row, map: &ImportMap) -> Result<String, AllocError> {
    let Ok(referrer) = Url::parse(alloc, row.at(4)) else {
        return String::from_str(alloc, "the referrer is no URL");
    };
    match map.resolve(alloc, row.at(3), &referrer) {
        Ok(url) => String::from_str(alloc, url.as_str()),
        Err(fault) => told(alloc, &fault),
    }
}

fn told(alloc: Global, fault: &ResolveFault) -> Result<String, AllocError> {
    match fault {
        ResolveFault::Specifier(error) => format!(in alloc; "{error}"),
        ResolveFault::Refused(why) => format!(in alloc; "refused: {why}"),
        ResolveFault::OutOfMemory => Err(AllocError),
    }
}
