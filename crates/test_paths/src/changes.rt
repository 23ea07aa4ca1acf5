//! Changes of a text, and texts as views of bytes.

use base::SharedBytes;
use source_text::SourceText;
use source_text::text_changes::{TextChange, TextChangeError, apply_text_changes};
use std::alloc::{AllocError, Global};
use test_rows::Row;

/// The changes of a row: after its text how many there are, then a start, an end and a text for each.
fn changes_of(alloc: Global, row: &Row) -> Result<Vec<TextChange>, AllocError> {
    let mut changes = Vec::new(alloc);
    let mut at = 3usize;
    for _ in 0..row.number(2) {
        let new = String::from_str(alloc, row.at(at.saturating_add(2)))?;
        let change = TextChange::new(row.number(at), row.number(at.saturating_add(1)), new);
        changes.push(change)?;
        at = at.saturating_add(3);
    }
    Ok(changes)
}

/// The changed text, or what the error displays and the number of the faulty change.
pub fn changed(alloc: Global, row: &Row) -> Result<String, AllocError> {
    let changes = changes_of(alloc, row)?;
    match apply_text_changes(alloc, row.at(1), changes) {
        Ok(text) => Ok(text),
        Err(error) => told(alloc, &error),
    }
}

fn told(alloc: Global, error: &TextChangeError) -> Result<String, AllocError> {
    match error {
        TextChangeError::Reversed(number) => format!(in alloc; "{error} {number}"),
        TextChangeError::Overlapping(number) => format!(in alloc; "{error} {number}"),
        TextChangeError::MidCharacter(number) => format!(in alloc; "{error} {number}"),
        TextChangeError::OutOfMemory => Err(AllocError),
    }
}

pub fn copy_of_a_change(alloc: Global) -> Result<String, AllocError> {
    let change = TextChange::new(0, 1, String::from_str(alloc, "y")?);
    let copy = change.copy()?;
    format!(in alloc; "same {}", copy == change)
}

/// The text of the bytes, less one byte order mark.
pub fn text_of(alloc: Global, bytes: &[u8]) -> Result<String, AllocError> {
    let bytes = SharedBytes::from_slice(alloc, bytes)?;
    match SourceText::from_utf8(bytes) {
        Ok(text) => String::from_str(alloc, text.without_mark().copy()?.as_str()),
        Err(_) => String::from_str(alloc, "no text"),
    }
}

/// How many bytes the text has, and how many without its byte order mark.
pub fn lengths(alloc: Global, text: &str) -> Result<String, AllocError> {
    let text = SourceText::from_string(String::from_str(alloc, text)?)?;
    format!(in alloc; "{} {}", text.len(), text.without_mark().len())
}
