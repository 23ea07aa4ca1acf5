//! Keys as parts of pointers.
ghost use Rattle.std.specs.Prelude.{◌≡◌, ◌++◌, IfOk, OnOk, chars, encode_utf8_all, string_bytes};
ghost use Rattle.import_map.specs.json_reading.Reading as spec;

use std::alloc::{AllocError, Global};

/// The part of a pointer for a key.
pub fn escaped(alloc: Global, key: &str) -> Result<String, AllocError>
    ensures { IfOk result (λ part. string_bytes part ≡ spec.escaped key.now) }
{
    let mut part = String::new(alloc);
    for c in key.chars() {
        push_escaped(&mut part, c)?;
    }
    Ok(part)
}

#[tactic(auto, unfolding(crate::specs::json_reading::Reading::escaped_char))]
fn push_escaped(part: &mut String, c: char) -> Result<(), AllocError>
    ensures { OnOk result (string_bytes part.new ≡ string_bytes part.old ++ encode_utf8_all (spec.escaped_char c)) }
{
    match c {
        '~' => part.push_str("~0"),
        '/' => part.push_str("~1"),
        _ => part.push(c),
    }
}
