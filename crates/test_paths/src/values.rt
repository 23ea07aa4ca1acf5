//! Texts and lists: each public call once, on its happy path.

use base::{Boxed, Items, Range, SharedBytes, SharedText, Text};
use std::alloc::{AllocError, Global};

/// What the calls of a name answer.
pub fn value(alloc: Global, call: &str, text: &str) -> Result<String, AllocError> {
    match call {
        "text" => told_text(alloc, text),
        "list" => list(alloc),
        "copy of a list" => copy_of_a_list(alloc),
        "shared" => shared(alloc, text),
        "shared bytes" => shared_bytes(alloc, text.as_bytes()),
        "boxed" => boxed(alloc),
        _ => String::from_str(alloc, "no such call"),
    }
}

/// A text and its copy.
fn told_text(alloc: Global, text: &str) -> Result<String, AllocError> {
    let made = Text::from_str(alloc, text)?;
    let copy = made.copy()?;
    let new = Text::new(alloc);
    let (same, len, is_empty) = (copy == made, copy.len(), copy.is_empty());
    let shown = format!(in alloc; "{made}")?;
    let back = Text::from_string(made.into_string());
    let order = back.cmp(&copy);
    let other = new.cmp(&copy);
    format!(in alloc; "{shown} same {same} bytes {len} empty {is_empty} {order:?} {other:?}")
}

/// The list 1, 2, 3, whose second item is set to 7 and whose first to 9.
fn list(alloc: Global) -> Result<String, AllocError> {
    let mut items = Items::new(alloc);
    for n in 1..4u8 {
        items.push(n)?;
    }
    if items.len() > 1 {
        items.set(1, 7);
    }
    if let Some(first) = items.get_mut(0) {
        *first = 9;
    }
    let told = format!(in alloc;
        "{} {:?} {:?} {:?}",
        items.len(),
        items.as_slice(),
        items.get(1),
        items.get(3)
    )?;
    let last = items.pop();
    format!(in alloc; "{told} {last:?} {}", items.len())
}

/// A copy of the list 1, and that list with 4 after it.
fn copy_of_a_list(alloc: Global) -> Result<String, AllocError> {
    let mut items = Items::new(alloc);
    items.push(1u8)?;
    let copy = items.copy()?;
    let first = copy == items;
    items.push(4)?;
    let second = copy == items;
    let again = Items::from_vec(items.into_vec());
    format!(in alloc; "{first} {second} empty {}", again.is_empty())
}

fn shared(alloc: Global, text: &str) -> Result<String, AllocError> {
    let text = SharedText::from_str(alloc, text)?;
    let copy = text.copy()?;
    format!(in alloc; "{} {}", copy.as_str(), text.len())
}

fn shared_bytes(alloc: Global, bytes: &[u8]) -> Result<String, AllocError> {
    let bytes = SharedBytes::from_slice(alloc, bytes)?;
    let copy = bytes.copy()?;
    format!(in alloc; "{:?} {}", copy.as_slice(), bytes.len())
}

fn boxed(alloc: Global) -> Result<String, AllocError> {
    let boxed = Boxed::new(alloc, Range { start: 1, end: 3 })?;
    let end = boxed.get().end;
    let range = boxed.into_inner();
    format!(in alloc; "{end} {}-{}", range.start, range.end)
}
