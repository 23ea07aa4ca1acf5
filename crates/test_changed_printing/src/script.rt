//! Steps that write a changed row: words with blanks between.
//!
//! - `kN`: the entry of this number in the program's row is kept, with its parts.
//! - `(`, and `)CHANGE` or `)CHANGE,FROM,TO`: what is between them are the parts; `)=N`: of an entry of the program's row.
//! - `gN`: the text goes on with this token. `dFROM,TO`: these tokens are dropped. `tN`: a token. `a`: an absent part. `wNAME`: a keyword type.
//! - `+FORM,FROM,TO`: a form without parts.

use crate::names::{change_of, form_of, word_of};
use es_changed::{Change, ChangedWriter};
use es_syntax::{Entry, Item, Siblings};
use std::alloc::{AllocError, Global};

/// Writes a row; the answer is the first step that isn't one.
pub fn write_row(
    alloc: Global,
    out: &mut ChangedWriter,
    script: &str,
    entries: &[Entry],
) -> Result<Option<String>, AllocError> {
    let mut open = Vec::new(alloc);
    for step in script.split(' ') {
        if !step.is_empty() && !do_step(out, &mut open, step, entries)? {
            return Ok(Some(String::from_str(alloc, step)?));
        }
    }
    Ok(None)
}

fn do_step(
    out: &mut ChangedWriter,
    open: &mut Vec<usize>,
    step: &str,
    entries: &[Entry],
) -> Result<bool, AllocError> {
    if step == "(" {
        open.push(out.open()?)?;
        return Ok(true);
    }
    if step == "a" {
        out.absent()?;
        return Ok(true);
    }
    if let Some(rest) = step.strip_prefix(")") {
        return close(out, open, rest, entries);
    }
    if let Some(rest) = step.strip_prefix("+") {
        return bare(out, rest);
    }
    if let Some(rest) = step.strip_prefix("d") {
        let mut words = rest.split(',');
        let from = number_of(words.next());
        let to = number_of(words.next());
        out.dropped(from, to)?;
        return Ok(true);
    }
    if let Some(name) = step.strip_prefix("w") {
        return match word_of(name) {
            Some(word) => {
                out.word(word)?;
                Ok(true)
            }
            None => Ok(false),
        };
    }
    numbered(out, step, entries)
}

fn numbered(out: &mut ChangedWriter, step: &str, entries: &[Entry]) -> Result<bool, AllocError> {
    let number = match step.get(1..) {
        Some(rest) => match rest.parse::<u32>() {
            Ok(number) => number,
            Err(_) => return Ok(false),
        },
        None => return Ok(false),
    };
    if step.starts_with('g') {
        out.gone(number)?;
        return Ok(true);
    }
    if step.starts_with('t') {
        out.token(number)?;
        return Ok(true);
    }
    match item_at(entries, number as usize) {
        Some(item) => {
            out.keep(&item)?;
            Ok(true)
        }
        None => Ok(false),
    }
}

fn item_at(entries: &[Entry], number: usize) -> Option<Item<'_>> {
    let siblings = Siblings {
        entries: entries.get(number..)?,
    };
    let (item, _) = siblings.split()?;
    Some(item)
}

/// A name, and two numbers after it, or 0.
fn parts_of(rest: &str) -> (&str, u32, u32) {
    let mut words = rest.split(',');
    let name = match words.next() {
        Some(name) => name,
        None => "",
    };
    let from = number_of(words.next());
    let to = number_of(words.next());
    (name, from, to)
}

fn number_of(word: Option<&str>) -> u32 {
    match word {
        Some(word) => match word.parse::<u32>() {
            Ok(number) => number,
            Err(_) => 0,
        },
        None => 0,
    }
}

fn bare(out: &mut ChangedWriter, rest: &str) -> Result<bool, AllocError> {
    let (name, from, to) = parts_of(rest);
    match form_of(name) {
        Some(form) => {
            out.bare(form, from, to)?;
            Ok(true)
        }
        None => Ok(false),
    }
}

fn close(
    out: &mut ChangedWriter,
    open: &mut Vec<usize>,
    rest: &str,
    entries: &[Entry],
) -> Result<bool, AllocError> {
    let at = match open.pop() {
        Some(at) => at,
        None => return Ok(false),
    };
    if let Some(number) = rest.strip_prefix("=") {
        return match entries.get(number_of(Some(number)) as usize) {
            Some(entry) => {
                out.close(at, Change::Old(entry.what), entry.from, entry.to)?;
                Ok(true)
            }
            None => Ok(false),
        };
    }
    let (name, from, to) = parts_of(rest);
    match change_of(name) {
        Some(change) => {
            out.close(at, change, from, to)?;
            Ok(true)
        }
        None => Ok(false),
    }
}
