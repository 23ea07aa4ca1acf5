//! What to build: the kind of the graph, its limit, what it skips, and what places outside import.
ghost use Rattle.std.specs.Prelude.{◌≡◌, ℕ, List, IfOk};
ghost use Rattle.serde_json.specs.View.{view, members_view};
ghost use Rattle.graph_bundle.specs.Bundle as spec;

use crate::members::{Keys, only, optional, required};
use crate::part::Part;
use base::{Items, Text};
use graph_builder::BuildOptions;
use graph_entry::{GraphKind, ReferrerImports};
use import_map::json_reading::{Reading, said, under};
use serde_json::{Map, Value};
use std::alloc::{AllocError, Global};

/// How many specifiers the graph of a bundle may have, if the bundle doesn't say.
const DEFAULT_LIMIT: usize = 10_000;
/// The most that a bundle can say.
const HIGHEST_LIMIT: u64 = 1_000_000;

/// The options that a bundle says.
pub fn options_in(alloc: Global, value: &Value) -> Result<Reading<BuildOptions>, AllocError>
    ensures { IfOk result (λ r. r ≡ spec.options_of (view value.now)) }
{
    let kind = match optional(alloc, value, "kind", GraphKind::All)? {
        Ok(kind) => kind,
        Err(at) => return Ok(Err(at)),
    };
    let limit = match limit_at(alloc, value)? {
        Ok(limit) => limit,
        Err(at) => return Ok(Err(at)),
    };
    let skip_dynamic_deps = match optional(alloc, value, "skipDynamicDeps", false)? {
        Ok(skips) => skips,
        Err(at) => return Ok(Err(at)),
    };
    match optional(alloc, value, "imports", Items::new(alloc))? {
        Ok(imports) => Ok(Ok(BuildOptions {
            kind,
            limit,
            skip_dynamic_deps,
            imports,
        })),
        Err(at) => Ok(Err(at)),
    }
}

impl Part for GraphKind {
    ghost says = { spec.kind_of };

    fn read(alloc: Global, value: &Value) -> Result<Reading<GraphKind>, AllocError> {
        match value.as_str() {
            Some(word) => Ok(said(alloc, kind_named(word))),
            None => Ok(Err(Text::new(alloc))),
        }
    }
}

/// The kind of graph that a word names.
fn kind_named(word: &str) -> Option<GraphKind>
    ensures { result ≡ spec.kind_named word.now }
{
    if word == "all" {
        Some(GraphKind::All)
    } else if word == "code" {
        Some(GraphKind::CodeOnly)
    } else if word == "types" {
        Some(GraphKind::TypesOnly)
    } else {
        None
    }
}

fn limit_at(alloc: Global, value: &Value) -> Result<Reading<usize>, AllocError>
    ensures { IfOk result (λ r. r ≡ spec.limit_at (view value.now)) }
{
    match value.get("limit") {
        Some(number) => under(alloc, "limit", said(alloc, limit_in(number))),
        None => Ok(Ok(DEFAULT_LIMIT)),
    }
}

/// The limit that a value says: a whole number within the bounds.
fn limit_in(value: &Value) -> Option<usize>
    ensures { result ≡ spec.limit_in (view value.now) }
{
    let number = value.as_u64()?;
    if number < 1 || number > HIGHEST_LIMIT {
        return None;
    }
    Some(number as usize)
}

impl Part for ReferrerImports {
    ghost says = { spec.place_of };

    fn read(alloc: Global, value: &Value) -> Result<Reading<ReferrerImports>, AllocError> {
        match value.as_object() {
            Some(members) => place_with(alloc, value, members),
            None => Ok(Err(Text::new(alloc))),
        }
    }
}

/// What an object with these members says that a place outside imports.
fn place_with(
    alloc: Global,
    value: &Value,
    members: &Map<String, Value>,
) -> Result<Reading<ReferrerImports>, AllocError>
    ensures { IfOk result (λ r. r ≡ spec.place_from (view value.now) (members_view members.now.entries)) }
{
    let referrer = match required(alloc, value, "referrer")? {
        Ok(referrer) => referrer,
        Err(at) => return Ok(Err(at)),
    };
    let imports = match required(alloc, value, "imports")? {
        Ok(imports) => imports,
        Err(at) => return Ok(Err(at)),
    };
    match only::<PlaceKeys>(alloc, members)? {
        Ok(()) => Ok(Ok(ReferrerImports { referrer, imports })),
        Err(at) => Ok(Err(at)),
    }
}

/// The keys of a place outside that imports.
struct PlaceKeys;

impl Keys for PlaceKeys {
    ghost knows = { spec.knows_place };

    fn knows(key: &str) -> bool {
        key == "referrer" || key == "imports"
    }
}
