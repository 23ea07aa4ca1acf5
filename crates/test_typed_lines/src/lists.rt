//! Where the nodes of all short lists that have a tree are, a line each.

use crate::line::module_line;
use std::alloc::{AllocError, Global};

/// The lines of the lists of one to four pieces that have a tree between two parts of a text, and how many lists there are. The
/// parts and the pieces are separated by tabs, the parts first.
pub fn lines_of(alloc: Global, words: &str) -> Result<String, AllocError> {
    let mut parts = words.split('\t');
    let front = parts.next().unwrap_or("");
    let back = parts.next().unwrap_or("");
    let pieces: Vec<&str> = parts.collect(alloc)?;
    let mut lines = String::new(alloc);
    let mut all: usize = 0;
    let mut count: usize = 1;
    for length in 1..5 {
        count = count.saturating_mul(pieces.len());
        push_lists(
            alloc,
            &mut lines,
            front,
            back,
            pieces.as_slice(),
            length,
            count,
        )?;
        all = all.saturating_add(count);
    }
    lines.push_str(format!(in alloc; "{all} lists")?.as_str())?;
    Ok(lines)
}

/// Pushes the lines of the lists of this length.
fn push_lists(
    alloc: Global,
    lines: &mut String,
    front: &str,
    back: &str,
    pieces: &[&str],
    length: usize,
    count: usize,
) -> Result<(), AllocError> {
    for number in 0..count {
        let list = list_of(alloc, pieces, length, number)?;
        let text = format!(in alloc; "{front}{}{back}", list.as_str())?;
        if let Some(line) = module_line(alloc, text.as_str())? {
            lines.push_str(format!(in alloc;
                "{:?}: {}\n",
                list.as_str(),
                line.as_str()
            )?.as_str())?;
        }
    }
    Ok(())
}

/// The list whose pieces are the digits of the number, the lowest first, each after a blank.
fn list_of(
    alloc: Global,
    pieces: &[&str],
    length: usize,
    number: usize,
) -> Result<String, AllocError> {
    let width = pieces.len();
    let mut list = String::new(alloc);
    let mut rest = number;
    for _ in 0..length {
        if 0 < width {
            list.push_str(" ")?;
            list.push_str(pieces.get(rest % width).copied().unwrap_or(""))?;
            rest /= width;
        }
    }
    Ok(list)
}
