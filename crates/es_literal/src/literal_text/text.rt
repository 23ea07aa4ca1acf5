//! The text of a literal.
ghost use Rattle.std.specs.Prelude.{◌≡◌, IfOk};
ghost use Rattle.es_literal.specs.Values.{value_of};

use crate::literal_text::bare::as_written;
use crate::literal_value;
use base::Text;
use std::alloc::{AllocError, Global};

/// The text that a string literal stands for, quotes included (ECMA-262, "String Literals", Static Semantics: SV). Of any
/// other text it is that of what is between the first and the last character, by the same rules.
pub fn literal_text(alloc: Global, literal: &str) -> Result<Text, AllocError>
    ensures { IfOk result (λ text. text ≡ value_of literal.now) }
{
    if let Some(text) = as_written('"', literal) {
        return Text::from_str(alloc, text);
    }
    match as_written('\'', literal) {
        Some(text) => Text::from_str(alloc, text),
        None => by_units(alloc, literal),
    }
}

/// The same by the literal's code units.
fn by_units(alloc: Global, literal: &str) -> Result<Text, AllocError>
    ensures { IfOk result (λ text. text ≡ value_of literal.now) }
{
    let value = literal_value(alloc, literal)?;
    Ok(value.text)
}
