//! What records tell.
ghost use Rattle.std.specs.Prelude.{◌≡◌, IfOk, IfNone, IfSome};
ghost use Rattle.specifier_edits.specs.records.Records.{HasValue, value_of, IsTold};

use std::alloc::{AllocError, Global};
use std::str;

/// A new specifier for a site. Offsets are in bytes of a buffer, and an end is exclusive.
#[repr(C)]
#[derive(Clone, Copy)]
pub struct SourceChange {
    /// The site's number, from 0, in the order of the text.
    pub site: usize,
    /// The new specifier in the buffer of values.
    pub value_start: usize,
    pub value_end: usize,
}

/// What records tell.
#[derive(Drop)]
pub enum Told {
    /// A number and a specifier each.
    Changes(Vec<(usize, String)>),
    /// The first whose specifier isn't in the buffer, or is no UTF-8.
    Lost(usize),
}

/// The changes that the records tell.
pub fn changes_of(
    alloc: Global,
    records: &[SourceChange],
    values: &[u8],
) -> Result<Told, AllocError>
    ensures { IfOk result (IsTold values.now records.now) }
{
    let mut changes = Vec::new(alloc);
    for (at, it) in records.iter().enumerate() {
        let Some(specifier) = value_in(values, *it) else {
            return Ok(Told::Lost(at));
        };
        changes.push((it.site, String::from_str(alloc, specifier)?))?;
    }
    Ok(Told::Changes(changes))
}

fn value_in(values: &[u8], it: SourceChange) -> Option<&str>
    ensures value { IfSome result (λ text. HasValue values.now it × (text.now ≡ value_of values.now it)) }
    ensures none { IfNone result (¬ HasValue values.now it) }
{
    if it.value_start > it.value_end || it.value_end > values.len() {
        return None;
    }
    match str::from_utf8(&values[it.value_start..it.value_end]) {
        Ok(text) => Some(text),
        Err(_) => None,
    }
}
