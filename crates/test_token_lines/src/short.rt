//! All texts of at most five parts over an alphabet of eight.

use crate::line::line_of;
use std::alloc::{AllocError, Global};

/// Brackets and templates; slashes, words and what precedes them; numbers.
pub const ALPHABETS: [[&str; 8]; 3] = [
    ["(", ")", "[", "]", "{", "}", "`", "${"],
    ["/", "*", "!", "a", "if", "\n", "(", ")"],
    ["0", "1", "_", ".", "e", "n", "x", "+"],
];

const MOST_PARTS: u32 = 5;

const PARTS: u32 = 8;

const ROW: u32 = 512;

/// A line for each row of 512 texts of as many parts: how many parts, the number of the row, and the sum of their lines.
pub fn sums_of(alloc: Global, alphabet: &[&str; 8]) -> Result<String, AllocError> {
    let mut out = String::new(alloc);
    for parts in 0..=MOST_PARTS {
        push_rows(alloc, &mut out, alphabet, parts)?;
    }
    Ok(out)
}

fn push_rows(
    alloc: Global,
    out: &mut String,
    alphabet: &[&str; 8],
    parts: u32,
) -> Result<(), AllocError> {
    let texts = PARTS.saturating_pow(parts);
    for row in 0..texts.div_ceil(ROW) {
        let first = row.saturating_mul(ROW);
        let sum = sum_of(
            alloc,
            alphabet,
            parts,
            first,
            texts.min(first.saturating_add(ROW)),
        )?;
        out.push_str(format!(in alloc; "{parts} {row} {sum}\n")?.as_str())?;
    }
    Ok(())
}

/// The sum of the lines of the texts of these numbers (FNV-1a of 64 bits).
fn sum_of(
    alloc: Global,
    alphabet: &[&str; 8],
    parts: u32,
    first: u32,
    end: u32,
) -> Result<u64, AllocError> {
    let mut sum = 0xCBF29CE484222325;
    for number in first..end {
        let text = text_of(alloc, alphabet, parts, number)?;
        let line = line_of(alloc, text.as_str())?;
        sum = with_line(sum, line.as_bytes());
    }
    Ok(sum)
}

fn with_line(sum: u64, line: &[u8]) -> u64 {
    let mut sum = sum;
    for byte in line {
        sum = (sum ^ *byte as u64).wrapping_mul(0x100000001B3);
    }
    (sum ^ 10).wrapping_mul(0x100000001B3)
}

/// The text of so many parts whose number has them for its digits, the lowest first.
fn text_of(
    alloc: Global,
    alphabet: &[&str; 8],
    parts: u32,
    number: u32,
) -> Result<String, AllocError> {
    let mut text = String::new(alloc);
    let mut left = number;
    for _ in 0..parts {
        let part = alphabet.get((left % PARTS) as usize);
        text.push_str(part.copied().unwrap_or(""))?;
        left /= PARTS;
    }
    Ok(text)
}
