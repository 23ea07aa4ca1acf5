//! Lines and columns of places.

use source_text::{SourceText, SourceTextInfo};
use std::alloc::{AllocError, Global};

fn info(alloc: Global, text: &str) -> Result<SourceTextInfo, AllocError> {
    SourceTextInfo::new(alloc, SourceText::from_str(alloc, text)?)
}

/// Line and column of a place, as people count them.
pub fn place(alloc: Global, text: &str, place: usize) -> Result<String, AllocError> {
    let info = info(alloc, text)?;
    if !info.text_str().is_char_boundary(place) {
        return String::from_str(alloc, "no place");
    }
    let shown = info.line_and_column_display(place);
    format!(in alloc; "{} {}", shown.line_number, shown.column_number)
}

/// The text of the line of a place.
pub fn line_of(alloc: Global, text: &str, place: usize) -> Result<String, AllocError> {
    let info = info(alloc, text)?;
    if place > info.text_str().len() {
        return String::from_str(alloc, "no place");
    }
    String::from_str(alloc, info.line_text(info.line_index(place)))
}

/// Where the line of a place ends.
pub fn line_end(alloc: Global, text: &str, place: usize) -> Result<String, AllocError> {
    let info = info(alloc, text)?;
    if place > info.text_str().len() {
        return String::from_str(alloc, "no place");
    }
    format!(in alloc; "{}", info.line_end(info.line_index(place)))
}
