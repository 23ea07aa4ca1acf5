//! Whether two texts have the same tree but for positions, and for the `;` or `,` after members of types.

use es_syntax::{Entry, What};
use es_token::{Token, TokenKind};
use std::alloc::{AllocError, Global};

/// A text, its tokens and its tree.
#[derive(Clone, Copy)]
pub struct Read<'a> {
    pub text: &'a str,
    pub tokens: &'a [Token],
    pub entries: &'a [Entry],
}

/// An entry: what it is, the spelling of its token where it is one, and how many entries its parts take.
#[derive(Clone, Copy)]
struct Part<'a> {
    what: What,
    spelled: Option<&'a str>,
    size: u32,
}

/// The number of the first part that differs; none where the trees are the same.
pub fn difference(
    alloc: Global,
    one: &Read<'_>,
    other: &Read<'_>,
) -> Result<Option<usize>, AllocError> {
    let parts = parts_in(alloc, one)?;
    let others = parts_in(alloc, other)?;
    if parts.len() != others.len() {
        return Ok(Some(parts.len().min(others.len())));
    }
    for (number, pair) in parts.iter().zip(others.iter()).enumerate() {
        if !is_same(pair.0, pair.1) {
            return Ok(Some(number));
        }
    }
    Ok(None)
}

fn is_same(a: &Part<'_>, b: &Part<'_>) -> bool {
    if a.size != b.size {
        return false;
    }
    match (a.what, b.what) {
        (What::Leaf, What::Leaf) => a.spelled == b.spelled,
        (What::Node(x), What::Node(y)) => x == y,
        (What::Role(x), What::Role(y)) => x == y,
        (What::Parts, What::Parts) => true,
        (What::Lean(x), What::Lean(y)) => x == y,
        _ => false,
    }
}

/// What is in the row, in its order, without the tokens after members.
fn parts_in<'a>(alloc: Global, read: &Read<'a>) -> Result<Vec<Part<'a>>, AllocError> {
    let passed = passed_before(alloc, read)?;
    let mut parts = Vec::new(alloc);
    for (number, entry) in read.entries.iter().enumerate() {
        let here = count_at(passed.as_slice(), number + 1);
        if here == count_at(passed.as_slice(), number) {
            let inside = count_at(passed.as_slice(), number + 1 + entry.size as usize);
            parts.push(Part {
                what: entry.what,
                spelled: spelled(read, entry),
                size: entry.size.saturating_sub(inside.saturating_sub(here)),
            })?;
        }
    }
    Ok(parts)
}

fn count_at(passed: &[u32], at: usize) -> u32 {
    match passed.get(at) {
        Some(count) => *count,
        None => 0,
    }
}

/// How many tokens after members precede each entry, and the row's end.
fn passed_before(alloc: Global, read: &Read<'_>) -> Result<Vec<u32>, AllocError> {
    let mut passed = Vec::new(alloc);
    let mut count: u32 = 0;
    passed.push(count)?;
    for entry in read.entries {
        if is_separator(read, entry) {
            count = count.saturating_add(1);
        }
        passed.push(count)?;
    }
    Ok(passed)
}

fn is_separator(read: &Read<'_>, entry: &Entry) -> bool {
    match (entry.what, read.tokens.get(entry.from as usize)) {
        (What::Leaf, Some(token)) => {
            token.kind() == TokenKind::Semicolon || token.kind() == TokenKind::Comma
        }
        _ => false,
    }
}

fn spelled<'a>(read: &Read<'a>, entry: &Entry) -> Option<&'a str> {
    let range = read.tokens.get(entry.from as usize)?.range();
    if range.start <= range.end
        && read.text.is_char_boundary(range.start)
        && read.text.is_char_boundary(range.end)
    {
        return Some(&read.text[range.start..range.end]);
    }
    None
}
