//! The body of a `data:` URL: its escapes, and forgiving base64.
ghost use Rattle.std.specs.Prelude.{◌≡◌, ◌<◌, ◌==◌, position, IfOk};
ghost use Rattle.percent_encoding.specs.Percent.{percent_decode};
ghost use Rattle.data_specifier.specs.Data as spec;
ghost use Rattle.data_specifier.specs.Data.{Gives, or_no_base64};
ghost use Rattle.data_specifier.specs.Blanks as blanks;
ghost use Rattle.data_specifier.specs.Forgiving as forgiving;

use crate::error::DataError;
use base::Items;
use base64::DecodeAllocError;
use base64::engine::general_purpose::STANDARD_NO_PAD;
use percent_encoding::percent_decode_str;
use std::alloc::{AllocError, Global};

const ALPHABET: &[u8] = b"ABCDEFGHIJKLMNOPQRSTUVWXYZabcdefghijklmnopqrstuvwxyz0123456789+/";

/// The bytes of a body, in base64 or not.
pub fn body_of(alloc: Global, encoded: &str, is_base64: bool) -> Result<Items<u8>, DataError>
    ensures { Gives result (spec.body_of is_base64 encoded.now) }
{
    let bytes = unescaped(alloc, encoded)?;
    if is_base64 {
        forgiving_base64(alloc, bytes)
    } else {
        Ok(Items::from_vec(bytes))
    }
}

fn unescaped(alloc: Global, encoded: &str) -> Result<Vec<u8>, AllocError>
    ensures { IfOk result (λ bytes. bytes.items ≡ percent_decode encoded.now) }
{
    let mut bytes = Vec::new(alloc);
    percent_decode_str(encoded).append_to(&mut bytes)?;
    Ok(bytes)
}

// The bytes of a text, if it is forgiving base64.
#[tactic(auto, unfolding(crate::specs::Forgiving::forgiving_base64, crate::specs::Forgiving::digits_of))]
fn forgiving_base64(alloc: Global, text: Vec<u8>) -> Result<Items<u8>, DataError>
    ensures { Gives result (or_no_base64 (forgiving.forgiving_base64 text.items)) }
{
    let digits = masked(without_padding(without_blanks(text)));
    match STANDARD_NO_PAD.decode(alloc, digits.as_slice()) {
        Ok(bytes) => Ok(Items::from_vec(bytes)),
        Err(DecodeAllocError::DecodeError(_)) => Err(DataError::Base64),
        Err(DecodeAllocError::OutOfMemory) => Err(DataError::OutOfMemory),
    }
}

fn without_blanks(mut text: Vec<u8>) -> Vec<u8>
    ensures { result.items ≡ blanks.without_blanks text.items }
{
    text.retain(|b| !b.is_ascii_whitespace());
    text
}

// Padding is allowed at the end where the length is a multiple of four.
#[tactic(auto, unfolding(crate::specs::Forgiving::without_padding))]
fn without_padding(mut digits: Vec<u8>) -> Vec<u8>
    ensures { result.items ≡ forgiving.without_padding digits.items }
{
    let len = digits.len();
    if len % 4 != 0 {
        return digits;
    }
    if digits.ends_with(b"==") {
        digits.truncate(len - 2);
    } else if digits.ends_with(b"=") {
        digits.truncate(len - 1);
    }
    digits
}

// Makes the spare bits of the last digit 0.
#[tactic(auto, unfolding(crate::specs::Forgiving::masked))]
fn masked(mut digits: Vec<u8>) -> Vec<u8>
    ensures { result.items ≡ forgiving.masked digits.items }
{
    let len = digits.len();
    if len > 0 {
        digits[len - 1] = masked_digit(ALPHABET, spare(len), digits[len - 1]);
    }
    digits
}

// One more than the greatest number in the spare bits of the last of so many digits.
fn spare(len: usize) -> usize
    ensures { result ≡ forgiving.spare len }
{
    match len % 4 {
        2 => 16,
        3 => 4,
        _ => 1,
    }
}

// A digit with its spare bits 0; what is no digit stays.
fn masked_digit(alphabet: &[u8], step: usize, digit: u8) -> u8
    requires { 0 < step }
    ensures { result ≡ forgiving.masked_digit alphabet.now step digit }
{
    match value_of(alphabet, digit) {
        Some(value) => alphabet[value / step * step],
        None => digit,
    }
}

fn value_of(alphabet: &[u8], digit: u8) -> Option<usize>
    ensures { result ≡ position (λ d. d == digit) alphabet.now }
{
    alphabet.iter().position(|d| *d == digit)
}
