//! Types that a JSON value can say.
ghost use Rattle.std.specs.Prelude.{◌≡◌, List, ℕ, Result, None, map, decimal, IfOk, option_and_then};
ghost use Rattle.serde_json.specs.Data.{Data};
ghost use Rattle.serde_json.specs.View.{view};
ghost use Rattle.url.specs.Parser.{parse_url};
ghost use Rattle.import_map.specs.json_reading.Reading as spec;

use base::{Items, Text};
use import_map::json_reading::{Reading, said, under_number};
use serde_json::Value;
use std::alloc::{AllocError, Global};
use url::{ParseError, Url};

/// A type that a JSON value can say.
pub trait Part: Sized + Drop {
    /// what a value says
    ghost says: { Data → Result Self (List ℕ) };

    fn read(alloc: Global, value: &Value) -> Result<Reading<Self>, AllocError>
        ensures { IfOk result (λ r. r ≡ says (view value.now)) };
}

impl Part for bool {
    ghost says = { spec.bool_of };

    fn read(alloc: Global, value: &Value) -> Result<Reading<bool>, AllocError> {
        Ok(said(alloc, value.as_bool()))
    }
}

impl Part for Text {
    ghost says = { spec.text_of };

    fn read(alloc: Global, value: &Value) -> Result<Reading<Text>, AllocError> {
        match value.as_str() {
            Some(text) => Ok(Ok(Text::from_str(alloc, text)?)),
            None => Ok(Err(Text::new(alloc))),
        }
    }
}

impl Part for Url {
    ghost says = { spec.url_of };

    fn read(alloc: Global, value: &Value) -> Result<Reading<Url>, AllocError> {
        match value.as_str() {
            Some(text) => url_of_text(alloc, text),
            None => Ok(Err(Text::new(alloc))),
        }
    }
}

fn url_of_text(alloc: Global, text: &str) -> Result<Reading<Url>, AllocError>
    ensures { IfOk result (λ r. r ≡ spec.or_here (parse_url None text.now)) }
{
    match Url::parse(alloc, text) {
        Ok(url) => Ok(Ok(url)),
        Err(ParseError::OutOfMemory | ParseError::Overflow) => Err(AllocError),
        Err(_) => Ok(Err(Text::new(alloc))),
    }
}

impl<P: Part> Part for Items<P> {
    ghost says = { spec.each_of P.says };

    fn read(alloc: Global, value: &Value) -> Result<Reading<Items<P>>, AllocError> {
        match value.as_array() {
            Some(values) => each(alloc, values.as_slice()),
            None => Ok(Err(Text::new(alloc))),
        }
    }
}

// What the values of a list say, in their order.
fn each<P: Part>(alloc: Global, values: &[Value]) -> Result<Reading<Items<P>>, AllocError>
    ensures { IfOk result (λ r. r ≡ spec.each_from P.says 0 (map view values.now)) }
{
    let mut parts = Items::new(alloc);
    for value in values {
        match item(alloc, parts.len(), value)? {
            Ok(part) => parts.push(part)?,
            Err(at) => return Ok(Err(at)),
        }
    }
    Ok(Ok(parts))
}

// What the value at a place of a list says.
fn item<P: Part>(alloc: Global, place: usize, value: &Value) -> Result<Reading<P>, AllocError>
    ensures { IfOk result (λ r. r ≡ spec.under (decimal place) (P.says (view value.now))) }
{
    let reading = P::read(alloc, value)?;
    under_number(alloc, place, reading)
}
