//! Readings: what a value says, or the pointer to what is at fault.
ghost use Rattle.std.specs.Prelude.{◌≡◌, IfOk, decimal};
ghost use Rattle.import_map.specs.json_reading.Reading as spec;

use base::Text;
use std::alloc::{AllocError, Global};

/// What a JSON value says, or the pointer (RFC 6901) from this value to the first thing that keeps it from saying so.
pub type Reading<T> = Result<T, Text>;

/// What is there, or that the value itself is at fault.
pub fn said<T: Drop>(alloc: Global, there: Option<T>) -> Reading<T>
    ensures { result ≡ spec.said there }
{
    match there {
        Some(value) => Ok(value),
        None => Err(Text::new(alloc)),
    }
}

/// The reading of the value at a place of a list. Only a fault needs the place's number.
pub fn under_number<T: Drop>(
    alloc: Global,
    place: usize,
    reading: Reading<T>,
) -> Result<Reading<T>, AllocError>
    ensures { IfOk result (λ r. r ≡ spec.under (decimal place) reading) }
{
    match reading {
        Ok(value) => Ok(Ok(value)),
        Err(rest) => {
            let number = format!(in alloc; "{place}")?;
            Ok(Err(pointer(alloc, number.as_str(), rest.as_str())?))
        }
    }
}

/// The reading of the value at a part of a pointer.
pub fn under<T: Drop>(
    alloc: Global,
    part: &str,
    reading: Reading<T>,
) -> Result<Reading<T>, AllocError>
    ensures { IfOk result (λ r. r ≡ spec.under part.now reading) }
{
    match reading {
        Ok(value) => Ok(Ok(value)),
        Err(rest) => Ok(Err(pointer(alloc, part, rest.as_str())?)),
    }
}

/// The pointer of a part, followed by the rest.
pub fn pointer(alloc: Global, part: &str, rest: &str) -> Result<Text, AllocError>
    ensures { IfOk result (λ p. p ≡ spec.pointer part.now rest.now) }
{
    let mut text = String::new(alloc);
    text.push_str("/")?;
    text.push_str(part)?;
    text.push_str(rest)?;
    Ok(Text::from_string(text))
}
