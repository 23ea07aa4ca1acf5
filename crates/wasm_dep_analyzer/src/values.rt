//! Bytes, numbers, names and lists of items at the front of the bytes (WebAssembly Core, "Values" and "Vectors").

ghost use Rattle.std.specs.Prelude.{◌≡◌, ◌<◌, ◌*◌, ◌^◌, ◌≤◌, ℕ, List, [], ◌∷◌, ◌++◌, IfOk, length};
ghost use Rattle.wasm_dep_analyzer.specs.Reading.{Read, Gives, GivesInRoom};
ghost use Rattle.wasm_dep_analyzer.specs.Values.{u8_at, number_at, u32_at, bytes_at, utf8_text, name_at, items_at};

use crate::error::ParseError;
use std::alloc::Global;

/// The first byte.
pub fn read_u8(input: &[u8]) -> Result<(u8, &[u8]), ParseError>
    ensures fits { IfOk result (λ read. read.0 < 256) }
    ensures value { Gives (λ read. (read.0, read.1.now)) result (u8_at input.now) }
{
    match input {
        [] => Err(ParseError::UnexpectedEof),
        [byte, rest @ ..] => Ok((*byte, rest)),
    }
}

/// A number after whose first byte at most `more` bytes may follow.
fn read_number(more: u8, input: &[u8]) -> Result<(u32, &[u8]), ParseError>
    requires { more ≤ 4 }
    ensures value { Gives (λ read. (read.0, read.1.now)) result (number_at more input.now) }
    ensures fits { IfOk result (λ read. read.0 < 16 * 128 ^ more) }
{
    let (byte, rest) = read_u8(input)?;
    if more == 0 {
        return if byte < 16 {
            Ok((u32::from(byte), rest))
        } else {
            Err(ParseError::IntegerOverflow)
        };
    }
    if byte < 128 {
        return Ok((u32::from(byte), rest));
    }
    let (high, rest) = read_number(more - 1, rest)?;
    Ok((u32::from(byte) - 128 + 128 * high, rest))
}

/// A number of 32 bits.
pub fn read_u32(input: &[u8]) -> Result<(u32, &[u8]), ParseError>
    ensures fits { IfOk result (λ read. read.0 < 2 ^ 32) }
    ensures value { Gives (λ read. (read.0, read.1.now)) result (u32_at input.now) }
{
    read_number(4, input)
}

/// The first `count` bytes.
pub fn read_bytes(count: u32, input: &[u8]) -> Result<(&[u8], &[u8]), ParseError>
    ensures { Gives (λ read. (read.0.now, read.1.now)) result (bytes_at count input.now) }
{
    let count = count as usize;
    if input.len() < count {
        return Err(ParseError::UnexpectedEof);
    }
    Ok(input.split_at(count))
}

fn text(bytes: &[u8]) -> Result<&str, ParseError>
    ensures { Gives (λ text. text.now) result (utf8_text bytes.now) }
{
    match str::from_utf8(bytes) {
        Ok(text) => Ok(text),
        Err(fault) => Err(ParseError::InvalidUtf8(fault.valid_up_to())),
    }
}

/// A length and a text of so many bytes.
#[tactic(auto, unfolding(crate::specs::Values::name_at))]
pub fn read_name(input: &[u8]) -> Result<(&str, &[u8]), ParseError>
    ensures { Gives (λ read. (read.0.now, read.1.now)) result (name_at input.now) }
{
    let (count, rest) = read_u32(input)?;
    let (bytes, rest) = read_bytes(count, rest)?;
    let name = text(bytes)?;
    Ok((name, rest))
}

/// What reads one item at the front of the bytes.
pub trait ReadItem<'a> {
    type Item;

    // An item, and a list of items, as contracts see them.
    ghost Shown: { Type 0 };

    ghost show: { Self.Item → Shown };

    ghost show_all: { List Self.Item → List Shown };

    ghost shows_more: { (items : List Self.Item) (last : Self.Item) → show_all (items ++ last ∷ []) ≡ show_all items ++ show last ∷ [] };

    // What reading one item gives.
    ghost item: { Self → List ℕ → Read Shown };

    fn read(&self, input: &'a [u8]) -> Result<(Self::Item, &'a [u8]), ParseError>
        ensures { GivesInRoom (λ read. (show read.0, read.1.now)) result (item self.now input.now) };

    ghost shows_none: { show_all [] ≡ [] };
}

/// `count` items, one after the other. Memory grows by what was read, and not by the count.
pub fn read_items<'a, R: ReadItem<'a>>(
    alloc: Global,
    reader: &R,
    count: u32,
    input: &'a [u8],
) -> Result<(Vec<R::Item>, &'a [u8]), ParseError>
where
    R::Item: Drop,
    ensures { GivesInRoom (λ read. (R.show_all read.0.items, read.1.now)) result (items_at (R.item reader.now) count input.now) }
{
    let mut items = Vec::new(alloc);
    let mut rest = input;
    for _ in 0..count {
        let (item, after) = reader.read(rest)?;
        items.push(item)?;
        rest = after;
    }
    Ok((items, rest))
}
