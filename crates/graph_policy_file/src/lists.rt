//! Lists of rules.
ghost use Rattle.std.specs.Prelude.{◌≡◌, List, ℕ, Result, map, decimal, IfOk};
ghost use Rattle.serde_json.specs.Data.{Data};
ghost use Rattle.serde_json.specs.View.{view};
ghost use Rattle.import_map.specs.json_reading.Reading as reading;

use base::{Items, Text};
use import_map::json_reading::{Reading, under_number};
use serde_json::Value;
use std::alloc::{AllocError, Global};

/// A rule of a list.
pub trait Rule: Sized + Drop {
    /// what a value says
    ghost says: { Data → Result Self (List ℕ) };

    fn read(alloc: Global, value: &Value) -> Result<Reading<Self>, AllocError>
        ensures { IfOk result (λ r. r ≡ says (view value.now)) };
}

/// The rules that the items of an array say.
pub fn rules_in<R: Rule>(alloc: Global, value: &Value) -> Result<Reading<Items<R>>, AllocError>
    ensures { IfOk result (λ r. r ≡ reading.each_of R.says (view value.now)) }
{
    match value.as_array() {
        Some(values) => each(alloc, values.as_slice()),
        None => Ok(Err(Text::new(alloc))),
    }
}

// What the values of a list say, in their order.
fn each<R: Rule>(alloc: Global, values: &[Value]) -> Result<Reading<Items<R>>, AllocError>
    ensures { IfOk result (λ r. r ≡ reading.each_from R.says 0 (map view values.now)) }
{
    let mut rules = Items::new(alloc);
    for value in values {
        match item(alloc, rules.len(), value)? {
            Ok(rule) => rules.push(rule)?,
            Err(at) => return Ok(Err(at)),
        }
    }
    Ok(Ok(rules))
}

// What the value at a place of a list says.
fn item<R: Rule>(alloc: Global, place: usize, value: &Value) -> Result<Reading<R>, AllocError>
    ensures { IfOk result (λ r. r ≡ reading.under (decimal place) (R.says (view value.now))) }
{
    let reading = R::read(alloc, value)?;
    under_number(alloc, place, reading)
}
