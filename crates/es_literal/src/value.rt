ghost use Rattle.std.specs.Prelude.{◌≡◌, ◌≤◌, ◌<◌, ◌++◌, ◌-◌, drop, length, false, true, IfOk, OnOk, IfSome, MatchOption, encode_utf8_all};
ghost use Rattle.std.specs.Char.Utf16.{utf16_lossy_chars, has_unpaired_surrogate};
ghost use Rattle.std.specs.Char.Escape.{encode_utf16};
ghost use Rattle.es_literal.specs.Strings.{digit, is_hex};
ghost use Rattle.es_literal.specs.Values.{hex, two_number, four_number, bounded, braced_number, unicode_number, is_octal, octal_pair, octal_number, return_len, is_line_end, single_code, escape_of, unit_of, code_units, units_of, inner, value_units, value_of, is_lone};

use base::Text;
use std::alloc::{AllocError, Global};

/// The text that a string literal stands for.
#[derive(Debug, Drop, PartialEq, Eq)]
pub struct LiteralValue {
    pub text: Text,
    /// Whether the literal has a surrogate without its partner, for which `text` has U+FFFD.
    pub lone: bool,
}

/// The value of a string literal, quotes included (ECMA-262, "String Literals", Static Semantics: SV). Of any other text
/// it is that of what is between the first and the last character, by the same rules.
#[tactic(auto, unfolding(crate::specs::Values::value_of, crate::specs::Values::is_lone))]
pub fn literal_value(alloc: Global, literal: &str) -> Result<LiteralValue, AllocError>
    ensures text { IfOk result (λ value. value.text ≡ value_of literal.now) }
    ensures lone { IfOk result (λ value. value.lone ≡ is_lone literal.now) }
{
    let units = value_units(alloc, literal)?;
    read_units(alloc, units.as_slice())
}

/// The code units of a literal.
#[tactic(auto, unfolding(crate::specs::Values::value_units))]
fn value_units(alloc: Global, literal: &str) -> Result<Vec<u16>, AllocError>
    ensures { IfOk result (λ units. units.items ≡ value_units literal.now) }
{
    let chars: Vec<char> = literal.chars().collect(alloc)?;
    let units = units_of(alloc, inner(chars.as_slice()))?;
    Ok(units)
}

/// The text that code units spell.
fn read_units(alloc: Global, units: &[u16]) -> Result<LiteralValue, AllocError>
    ensures text { IfOk result (λ value. value.text ≡ encode_utf8_all (utf16_lossy_chars units.now)) }
    ensures lone { IfOk result (λ value. value.lone ≡ has_unpaired_surrogate units.now) }
{
    match String::from_utf16(alloc, units)? {
        Ok(text) => Ok(LiteralValue {
            text: Text::from_string(text),
            lone: false,
        }),
        Err(_) => Ok(LiteralValue {
            text: Text::from_string(String::from_utf16_lossy(alloc, units)?),
            lone: true,
        }),
    }
}

/// The characters between the first and the last.
#[tactic(auto, unfolding(crate::specs::Values::inner))]
fn inner(chars: &[char]) -> &[char]
    ensures { result.now ≡ inner chars.now }
{
    match chars {
        [_, rest @ .., _] => rest,
        _ => &[],
    }
}

/// The code units that the characters stand for.
#[tactic(auto, unfolding(crate::specs::Values::units_of))]
fn units_of(alloc: Global, chars: &[char]) -> Result<Vec<u16>, AllocError>
    ensures { IfOk result (λ units. units.items ≡ units_of 0 chars.now) }
{
    let mut units = Vec::new(alloc);
    let mut rest = chars;
    while let [c, after @ ..] = rest {
        let (code, len) = unit_of(*c, after);
        push_code(&mut units, code)?;
        rest = skip(after, len);
    }
    Ok(units)
}

fn skip(text: &[char], len: usize) -> &[char]
    ensures value { result.now ≡ drop len text.now }
    ensures within { length result.now ≤ length text.now }
{
    if len <= text.len() { &text[len..] } else { &[] }
}

/// Writes the one or two code units of a code point.
fn push_code(units: &mut Vec<u16>, code: Option<u32>) -> Result<(), AllocError>
    requires { IfSome code (λ n. n ≤ 0x10FFFF) }
    ensures { OnOk result (units.new.items ≡ units.old.items ++ code_units code) }
{
    match code {
        None => Ok(()),
        Some(code) => {
            if code < 0x10000 {
                units.push(code as u16)?;
                return Ok(());
            }
            let over = code - 0x10000;
            units.push((0xD800 + over / 0x400) as u16)?;
            units.push((0xDC00 + over % 0x400) as u16)?;
            Ok(())
        }
    }
}

/// What is at the front, and how many characters after the first belong to it.
#[tactic(auto, unfolding(crate::specs::Values::unit_of))]
fn unit_of(c: char, after: &[char]) -> (Option<u32>, usize)
    ensures code { result.0 ≡ (unit_of c after.now).0 }
    ensures len { result.1 ≡ (unit_of c after.now).1 }
    ensures small { IfSome result.0 (λ n. n ≤ 0x10FFFF) }
{
    if c == '\\' {
        escape_of(after)
    } else {
        (Some(c as u32), 0)
    }
}

#[tactic(auto, unfolding(crate::specs::Values::escape_of))]
fn escape_of(text: &[char]) -> (Option<u32>, usize)
    ensures code { result.0 ≡ (escape_of text.now).0 }
    ensures len { result.1 ≡ (escape_of text.now).1 }
    ensures small { IfSome result.0 (λ n. n ≤ 0x10FFFF) }
{
    match text {
        [] => (None, 0),
        ['x', rest @ ..] => (Some(two_number(rest)), 3),
        ['u', rest @ ..] => {
            let (code, len) = unicode_number(rest);
            (Some(code), len)
        }
        ['\r', rest @ ..] => (None, return_len(rest)),
        [c, rest @ ..] => {
            if is_octal(*c) {
                let (code, len) = octal_number(*c as u32 - 48, rest);
                (Some(code), len)
            } else if is_line_end(*c) {
                (None, 1)
            } else {
                (Some(single_code(*c)), 1)
            }
        }
    }
}

#[tactic(auto, unfolding(crate::specs::Values::two_number))]
fn two_number(text: &[char]) -> u32
    ensures value { result ≡ two_number text.now }
    ensures small { result ≤ 0x10FFFF }
{
    match text {
        [c, d, ..] => hex(*c) * 16 + hex(*d),
        _ => 0,
    }
}

#[tactic(auto, unfolding(crate::specs::Values::four_number))]
fn four_number(text: &[char]) -> u32
    ensures value { result ≡ four_number text.now }
    ensures small { result ≤ 0x10FFFF }
{
    match text {
        [c, d, e, f, ..] => ((hex(*c) * 16 + hex(*d)) * 16 + hex(*e)) * 16 + hex(*f),
        _ => 0,
    }
}

#[tactic(auto, unfolding(crate::specs::Values::unicode_number))]
fn unicode_number(text: &[char]) -> (u32, usize)
    ensures code { result.0 ≡ (unicode_number text.now).0 }
    ensures len { result.1 ≡ (unicode_number text.now).1 }
    ensures small { result.0 ≤ 0x10FFFF }
{
    match text {
        [] => (0, 5),
        ['{', rest @ ..] => braced_number(rest),
        _ => (four_number(text), 5),
    }
}

/// The number of `\u{H..}`, whose `{` precedes the text.
#[tactic(auto, unfolding(crate::specs::Values::braced_number))]
fn braced_number(text: &[char]) -> (u32, usize)
    ensures code { result.0 ≡ (braced_number 2 0 text.now).0 }
    ensures len { result.1 ≡ (braced_number 2 0 text.now).1 }
    ensures small { result.0 ≤ 0x10FFFF }
{
    let mut len = 2;
    let mut value = 0;
    let mut rest = text;
    while let [c, after @ ..] = rest {
        if *c == '}' {
            return (value, len + 1);
        }
        value = bounded(value * 16 + hex(*c));
        len += 1;
        rest = after;
    }
    (value, len)
}

#[tactic(auto, unfolding(crate::specs::Values::bounded))]
fn bounded(n: u32) -> u32
    ensures value { result ≡ bounded n }
    ensures small { result ≤ 0x10FFFF }
{
    if 0x10FFFF < n { 0x10FFFF } else { n }
}

/// What a hexadecimal digit is worth.
#[tactic(auto, unfolding(crate::specs::Values::hex, crate::specs::Strings::is_hex, crate::specs::Strings::digit))]
fn hex(c: char) -> u32
    ensures value { result ≡ hex c }
    ensures small { result < 16 }
{
    match c.to_digit(16) {
        Some(value) => value,
        None => 0,
    }
}

/// The number of an octal escape, whose first digit has this value.
#[tactic(auto, unfolding(crate::specs::Values::octal_number))]
fn octal_number(value: u32, text: &[char]) -> (u32, usize)
    requires { value < 8 }
    ensures code { result.0 ≡ (octal_number value text.now).0 }
    ensures len { result.1 ≡ (octal_number value text.now).1 }
    ensures small { result.0 ≤ 0x10FFFF }
{
    match text {
        [] => (value, 1),
        [c, rest @ ..] => {
            if is_octal(*c) {
                octal_pair(value * 8 + (*c as u32 - 48), rest)
            } else {
                (value, 1)
            }
        }
    }
}

#[tactic(auto, unfolding(crate::specs::Values::octal_pair))]
fn octal_pair(value: u32, text: &[char]) -> (u32, usize)
    requires { value < 64 }
    ensures code { result.0 ≡ (octal_pair value text.now).0 }
    ensures len { result.1 ≡ (octal_pair value text.now).1 }
    ensures small { result.0 ≤ 0x10FFFF }
{
    match text {
        [] => (value, 2),
        [c, ..] => {
            if value < 32 && is_octal(*c) {
                (value * 8 + (*c as u32 - 48), 3)
            } else {
                (value, 2)
            }
        }
    }
}

#[tactic(auto, unfolding(crate::specs::Values::is_octal))]
fn is_octal(c: char) -> bool
    ensures value { result ≡ is_octal c }
    ensures range { result ≡ true → (48 ≤ c) × (c ≤ 55) }
{
    '0' <= c && c <= '7'
}

/// How many characters end a line that a carriage return ends.
#[tactic(auto, unfolding(crate::specs::Values::return_len))]
fn return_len(text: &[char]) -> usize
    ensures { result ≡ return_len text.now }
{
    match text {
        ['\n', ..] => 2,
        _ => 1,
    }
}

/// A line end but a carriage return.
#[tactic(auto, unfolding(crate::specs::Values::is_line_end))]
fn is_line_end(c: char) -> bool
    ensures { result ≡ is_line_end c }
{
    c == '\n' || c == '\u{2028}' || c == '\u{2029}'
}

/// What a character after `\` stands for that begins no longer escape.
#[tactic(auto, unfolding(crate::specs::Values::single_code))]
fn single_code(c: char) -> u32
    ensures value { result ≡ single_code c }
    ensures small { result ≤ 0x10FFFF }
{
    match c {
        'b' => 8,
        't' => 9,
        'n' => 10,
        'v' => 11,
        'f' => 12,
        'r' => 13,
        _ => c as u32,
    }
}
