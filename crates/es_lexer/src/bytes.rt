ghost use Rattle.std.specs.Prelude.{◌≡◌, ◌≤◌, length};
ghost use Rattle.std.specs.Bool.{OnTrue};
ghost use Rattle.es_lexer.specs.Bytes.{begins_backslash, begins_escape, begins_name, ends_plainly, first_of, is_blank, is_letter, is_part, is_start, joins, part_unit, word_unit};

use es_unicode::{escaped_part, escaped_start, wide_size};

/// What a byte begins, where a token, a comment or a gap is to be read.
#[derive(Clone, Copy)]
pub enum First {
    Blank,
    LineEnd,
    /// A word.
    Start,
    /// A string literal.
    Quote,
    /// A comment, where `/` or `*` follows, else a punctuator or a regular expression.
    Slash,
    /// A template.
    Backtick,
    /// A closing brace, or what continues after `${`.
    Brace,
    /// A private name.
    Hash,
    /// A number.
    Digit,
    /// A number, where a digit follows, else a punctuator.
    Dot,
    /// A word.
    Backslash,
    /// A character past ASCII.
    Wide,
    /// A punctuator, or nothing.
    Other,
}

#[tactic(auto, unfolding(crate::specs::Bytes::first_of))]
pub fn first_of(b: u8) -> First
    ensures { result ≡ first_of b }
{
    match b {
        b'\t' | 0x0B | 0x0C | b' ' => First::Blank,
        b'\n' | b'\r' => First::LineEnd,
        b'a'..=b'z' | b'A'..=b'Z' | b'$' | b'_' => First::Start,
        b'"' | b'\'' => First::Quote,
        b'/' => First::Slash,
        b'`' => First::Backtick,
        b'}' => First::Brace,
        b'#' => First::Hash,
        b'0'..=b'9' => First::Digit,
        b'.' => First::Dot,
        b'\\' => First::Backslash,
        0x80..=0xFF => First::Wide,
        _ => First::Other,
    }
}

pub fn is_blank(b: u8) -> bool
    ensures { result ≡ is_blank b }
{
    matches!(b, b'\t' | 0x0B | 0x0C | b' ')
}

/// 1 for the bytes of ASCII that a name may have: letters, digits, `$` and `_`.
const PARTS: [u8; 256] = [
    0, 0, 0, 0, 0, 0, 0, 0, 0, 0, 0, 0, 0, 0, 0, 0, 0, 0, 0, 0, 0, 0, 0, 0, 0, 0, 0, 0, 0, 0, 0, 0,
    0, 0, 0, 0, 1, 0, 0, 0, 0, 0, 0, 0, 0, 0, 0, 0, 1, 1, 1, 1, 1, 1, 1, 1, 1, 1, 0, 0, 0, 0, 0, 0,
    0, 1, 1, 1, 1, 1, 1, 1, 1, 1, 1, 1, 1, 1, 1, 1, 1, 1, 1, 1, 1, 1, 1, 1, 1, 1, 1, 0, 0, 0, 0, 1,
    0, 1, 1, 1, 1, 1, 1, 1, 1, 1, 1, 1, 1, 1, 1, 1, 1, 1, 1, 1, 1, 1, 1, 1, 1, 1, 1, 0, 0, 0, 0, 0,
    0, 0, 0, 0, 0, 0, 0, 0, 0, 0, 0, 0, 0, 0, 0, 0, 0, 0, 0, 0, 0, 0, 0, 0, 0, 0, 0, 0, 0, 0, 0, 0,
    0, 0, 0, 0, 0, 0, 0, 0, 0, 0, 0, 0, 0, 0, 0, 0, 0, 0, 0, 0, 0, 0, 0, 0, 0, 0, 0, 0, 0, 0, 0, 0,
    0, 0, 0, 0, 0, 0, 0, 0, 0, 0, 0, 0, 0, 0, 0, 0, 0, 0, 0, 0, 0, 0, 0, 0, 0, 0, 0, 0, 0, 0, 0, 0,
    0, 0, 0, 0, 0, 0, 0, 0, 0, 0, 0, 0, 0, 0, 0, 0, 0, 0, 0, 0, 0, 0, 0, 0, 0, 0, 0, 0, 0, 0, 0, 0,
];

#[tactic(auto, using(crate::proofs::TableLemmas::part_told))]
pub fn is_part(b: u8) -> bool
    ensures { result ≡ is_part b }
{
    PARTS[b as usize] == 1
}

/// 1 for the bytes of ASCII that begin a word: letters, `$` and `_`.
const LETTERS: [u8; 256] = [
    0, 0, 0, 0, 0, 0, 0, 0, 0, 0, 0, 0, 0, 0, 0, 0, 0, 0, 0, 0, 0, 0, 0, 0, 0, 0, 0, 0, 0, 0, 0, 0,
    0, 0, 0, 0, 1, 0, 0, 0, 0, 0, 0, 0, 0, 0, 0, 0, 0, 0, 0, 0, 0, 0, 0, 0, 0, 0, 0, 0, 0, 0, 0, 0,
    0, 1, 1, 1, 1, 1, 1, 1, 1, 1, 1, 1, 1, 1, 1, 1, 1, 1, 1, 1, 1, 1, 1, 1, 1, 1, 1, 0, 0, 0, 0, 1,
    0, 1, 1, 1, 1, 1, 1, 1, 1, 1, 1, 1, 1, 1, 1, 1, 1, 1, 1, 1, 1, 1, 1, 1, 1, 1, 1, 0, 0, 0, 0, 0,
    0, 0, 0, 0, 0, 0, 0, 0, 0, 0, 0, 0, 0, 0, 0, 0, 0, 0, 0, 0, 0, 0, 0, 0, 0, 0, 0, 0, 0, 0, 0, 0,
    0, 0, 0, 0, 0, 0, 0, 0, 0, 0, 0, 0, 0, 0, 0, 0, 0, 0, 0, 0, 0, 0, 0, 0, 0, 0, 0, 0, 0, 0, 0, 0,
    0, 0, 0, 0, 0, 0, 0, 0, 0, 0, 0, 0, 0, 0, 0, 0, 0, 0, 0, 0, 0, 0, 0, 0, 0, 0, 0, 0, 0, 0, 0, 0,
    0, 0, 0, 0, 0, 0, 0, 0, 0, 0, 0, 0, 0, 0, 0, 0, 0, 0, 0, 0, 0, 0, 0, 0, 0, 0, 0, 0, 0, 0, 0, 0,
];

/// Whether this byte begins a word, by a table of its own instead of the table of all classes.
#[tactic(auto, using(crate::proofs::TableLemmas::letter_told))]
pub fn is_letter(b: u8) -> bool
    ensures { result ≡ is_letter (first_of b) }
{
    LETTERS[b as usize] == 1
}

/// The size of the character of a name that comes next, 0 where none does.
#[tactic(auto, unfolding(crate::specs::Bytes::part_unit))]
pub fn part_unit(text: &[u8]) -> usize
    ensures value { result ≡ part_unit text.now }
    ensures within { result ≤ length text.now }
{
    match text {
        [] => 0,
        [b, ..] => {
            if is_part(*b) {
                1
            } else if *b < 0x80 {
                0
            } else {
                wide_size(text)
            }
        }
    }
}

/// The size of the part of a name that comes next, a character or an escape of one, 0 where none does.
#[tactic(auto, unfolding(crate::specs::Bytes::word_unit))]
pub fn word_unit(text: &[u8]) -> usize
    ensures value { result ≡ word_unit text.now }
    ensures within { result ≤ length text.now }
{
    match text {
        [] => 0,
        [b, ..] => {
            if is_part(*b) {
                1
            } else if *b == b'\\' {
                escaped_part(text)
            } else if *b < 0x80 {
                0
            } else {
                wide_size(text)
            }
        }
    }
}

/// Whether an ASCII byte comes next that is no part of a name and begins none, or nothing.
#[inline(always)]
#[tactic(auto, unfolding(crate::specs::Bytes::word_unit, crate::specs::Bytes::part_unit, crate::specs::Bytes::ends_plainly))]
pub fn ends_word(text: &[u8]) -> bool
    ensures value { result ≡ ends_plainly text.now }
    ensures none { OnTrue result (word_unit text.now ≡ 0) }
{
    match text {
        [] => true,
        [b, ..] => {
            if is_part(*b) {
                false
            } else if *b == b'\\' {
                false
            } else if *b < 0x80 {
                true
            } else {
                false
            }
        }
    }
}

/// Whether what comes next isn't allowed directly after a number.
#[tactic(auto, unfolding(crate::specs::Bytes::joins))]
pub fn joins(text: &[u8]) -> bool
    ensures { result ≡ joins text.now }
{
    part_unit(text) != 0 || begins_backslash(text)
}

#[tactic(auto, unfolding(crate::specs::Bytes::begins_backslash))]
pub fn begins_backslash(text: &[u8]) -> bool
    ensures { result ≡ begins_backslash text.now }
{
    match text {
        [b, ..] => *b == b'\\',
        [] => false,
    }
}

/// Whether `\u` comes next.
#[tactic(auto, unfolding(crate::specs::Bytes::begins_escape))]
pub fn begins_escape(text: &[u8]) -> bool
    ensures { result ≡ begins_escape text.now }
{
    match text {
        [a, b, ..] => *a == b'\\' && *b == b'u',
        _ => false,
    }
}

/// Whether the start of a name comes next.
#[tactic(auto, unfolding(crate::specs::Bytes::begins_name))]
pub fn begins_name(text: &[u8]) -> bool
    ensures { result ≡ begins_name text.now }
{
    match text {
        [] => false,
        [b, ..] => is_start(*b) || (wide_size(text) != 0 || escaped_start(text) != 0),
    }
}

fn is_start(b: u8) -> bool
    ensures { result ≡ is_start b }
{
    matches!(b, b'a'..=b'z' | b'A'..=b'Z' | b'$' | b'_')
}
