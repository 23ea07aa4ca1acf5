//! What is left out of a graph, as an input says it.
ghost use Rattle.std.specs.Prelude.{◌≡◌, codes, IfOk, option_and_then};
ghost use Rattle.serde_json.specs.Find.{as_number, as_u64};
ghost use Rattle.serde_json.specs.View.{view, members_view};
ghost use Rattle.import_map.specs.json_reading.Reading as reading;
ghost use Rattle.joravelsu_run.specs.Without as spec;

use base::Text;
use graph_bundle::{Keys, Part, only, required};
use graph_why::Without;
use import_map::json_reading::{Reading, pointer, said, under};
use serde_json::{Map, Value};
use std::alloc::{AllocError, Global};
use url::Url;

/// What is left out, at the key `without`, which must be there.
pub fn without_at(alloc: Global, value: &Value) -> Result<Reading<Without>, AllocError>
    ensures { IfOk result (λ r. r ≡ reading.required spec.without_of (codes "without") (view value.now)) }
{
    match value.get("without") {
        Some(part) => {
            let reading = without_in(alloc, part)?;
            under(alloc, "without", reading)
        }
        None => Ok(Err(pointer(alloc, "without", "")?)),
    }
}

fn without_in(alloc: Global, value: &Value) -> Result<Reading<Without>, AllocError>
    ensures { IfOk result (λ r. r ≡ spec.without_of (view value.now)) }
{
    match value.as_str() {
        Some(_) => entry_in(alloc, value),
        None => edge_in(alloc, value),
    }
}

fn entry_in(alloc: Global, value: &Value) -> Result<Reading<Without>, AllocError>
    ensures { IfOk result (λ r. r ≡ spec.entry_of (view value.now)) }
{
    match <Url as Part>::read(alloc, value)? {
        Ok(url) => Ok(Ok(Without::Entry(url))),
        Err(at) => Ok(Err(at)),
    }
}

fn edge_in(alloc: Global, value: &Value) -> Result<Reading<Without>, AllocError>
    ensures { IfOk result (λ r. r ≡ spec.edge_of (view value.now)) }
{
    match value.as_object() {
        Some(members) => edge_with(alloc, value, members),
        None => Ok(Err(Text::new(alloc))),
    }
}

fn edge_with(
    alloc: Global,
    value: &Value,
    members: &Map<String, Value>,
) -> Result<Reading<Without>, AllocError>
    ensures { IfOk result (λ r. r ≡ spec.edge_from (view value.now) (members_view members.now.entries)) }
{
    let from = match required(alloc, value, "from")? {
        Ok(from) => from,
        Err(at) => return Ok(Err(at)),
    };
    let number = match number_at(alloc, value)? {
        Ok(number) => number,
        Err(at) => return Ok(Err(at)),
    };
    match only::<EdgeKeys>(alloc, members)? {
        Ok(()) => Ok(Ok(Without::Edge(from, number))),
        Err(at) => Ok(Err(at)),
    }
}

fn number_at(alloc: Global, value: &Value) -> Result<Reading<usize>, AllocError>
    ensures { IfOk result (λ r. r ≡ reading.required spec.number_of (codes "edge") (view value.now)) }
{
    match value.get("edge") {
        Some(part) => under(alloc, "edge", said(alloc, number_in(part))),
        None => Ok(Err(pointer(alloc, "edge", "")?)),
    }
}

fn number_in(value: &Value) -> Option<usize>
    ensures { result ≡ option_and_then as_u64 (as_number (view value.now)) }
{
    match value.as_u64() {
        Some(number) => Some(number as usize),
        None => None,
    }
}

/// The keys of what names an edge.
struct EdgeKeys;

impl Keys for EdgeKeys {
    ghost knows = { spec.knows_edge };

    fn knows(key: &str) -> bool {
        key == "from" || key == "edge"
    }
}
