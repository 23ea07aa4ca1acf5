//! A line of a file of rows.

use std::alloc::{AllocError, Global};

/// The fields of a line, separated by tabs: the first names the call, the last is what is wanted.
#[derive(Drop)]
pub struct Row {
    fields: Vec<String>,
}

/// What was read of an escape.
#[derive(Clone, Copy)]
enum Escape {
    None,
    Begun,
    Code(u32),
}

impl Row {
    /// The row of a line. In a field `\n`, `\r` and `\t` stand for those characters, `\u{1F600}` for one by its number in
    /// hexadecimal digits, and `\` before any other character for that character.
    pub fn of(alloc: Global, line: &str) -> Result<Row, AllocError> {
        let mut fields = Vec::new(alloc);
        for field in line.split('\t') {
            fields.push(unescaped(alloc, field)?)?;
        }
        Ok(Row { fields })
    }

    /// The field of that number, from 0; an empty text where there is none.
    pub fn at(&self, number: usize) -> &str {
        match self.fields.get(number) {
            Some(field) => field.as_str(),
            None => "",
        }
    }

    /// The name of the call.
    pub fn call(&self) -> &str {
        self.at(0)
    }

    /// What is wanted.
    pub fn wanted(&self) -> &str {
        match self.fields.last() {
            Some(field) => field.as_str(),
            None => "",
        }
    }

    /// The bytes that the field of that number, from 0, has as pairs of hexadecimal digits. Other characters are
    /// skipped.
    pub fn bytes(&self, alloc: Global, number: usize) -> Result<Vec<u8>, AllocError> {
        let mut bytes = Vec::new(alloc);
        let mut high: Option<u32> = None;
        for c in self.at(number).chars() {
            if let Some(digit) = c.to_digit(16) {
                high = match high {
                    Some(high) => {
                        bytes.push((with_digit(high, digit) % 256) as u8)?;
                        None
                    }
                    None => Some(digit),
                };
            }
        }
        Ok(bytes)
    }

    /// The number in the field of that number, from 0; 0 where it holds none.
    pub fn number(&self, number: usize) -> usize {
        self.at(number).parse::<usize>().unwrap_or(0)
    }
}

fn unescaped(alloc: Global, field: &str) -> Result<String, AllocError> {
    let mut out = String::new(alloc);
    let mut escape = Escape::None;
    for c in field.chars() {
        escape = match (escape, c) {
            (Escape::None, '\\') => Escape::Begun,
            (Escape::Begun, 'u') => Escape::Code(0),
            (Escape::Code(code), '{') => Escape::Code(code),
            (Escape::Code(code), digit) if digit != '}' => {
                Escape::Code(with_digit(code, digit.to_digit(16).unwrap_or(0)))
            }
            (escape, c) => {
                out.push(character(escape, c))?;
                Escape::None
            }
        };
    }
    Ok(out)
}

fn with_digit(code: u32, digit: u32) -> u32 {
    code.wrapping_mul(16).wrapping_add(digit)
}

/// The character that an escape denotes, by its last one.
fn character(escape: Escape, last: char) -> char {
    match (escape, last) {
        (Escape::Begun, 'n') => '\n',
        (Escape::Begun, 'r') => '\r',
        (Escape::Begun, 't') => '\t',
        (Escape::Code(code), _) => char::from_u32(code).unwrap_or('\u{fffd}'),
        (_, last) => last,
    }
}
