ghost use Rattle.std.specs.Prelude.{◌<◌, length, IfOk};
ghost use Rattle.monch.specs.core_parsers.Outcome.{IsSuffix};

use crate::shown::{counted_values, shown};
use monch::{
    Combinator, ParseError, ParseResult, ch, delimited, from_fn, many_till, many_till_fold, many0,
    many0_count, many1, maybe, next_char, one_of, preceded, separated_count, separated_fold,
    separated_list, tag, whitespace,
};
use std::alloc::{AllocError, Global};

/// A hexadecimal digit: a plain function, which says what `from_fn` and a repetition want of it.
fn hex_digit<'a>(input: &'a str) -> ParseResult<'a, char>
    ensures suffix { IfOk result (λ p. IsSuffix p.0.now input.now) }
    ensures shorter { IfOk result (λ p. length p.0.now < length input.now) }
{
    let (rest, digit) = next_char(input)?;
    if digit.is_ascii_hexdigit() {
        Ok((rest, digit))
    } else {
        ParseError::backtrace()
    }
}

/// What a list leaves, and how many values it has.
pub fn listed(alloc: Global, name: &str, text: &str) -> Result<String, AllocError> {
    match name {
        "a till b" => counted_values(alloc, many_till(alloc, ch('a'), ch('b')).parse(text)),
        "any a" => counted_values(alloc, many0(alloc, ch('a')).parse(text)),
        "any €" => counted_values(alloc, many0(alloc, ch('€')).parse(text)),
        "some a" => counted_values(alloc, many1(alloc, ch('a')).parse(text)),
        "a between commas" => {
            counted_values(alloc, separated_list(alloc, tag("a"), ch(',')).parse(text))
        }
        "some of abc" => counted_values(alloc, many1(alloc, one_of("abc")).parse(text)),
        name => listed_by_functions(alloc, name, text),
    }
}

fn listed_by_functions(alloc: Global, name: &str, text: &str) -> Result<String, AllocError> {
    match name {
        "some digits" => counted_values(alloc, many1(alloc, from_fn(hex_digit)).parse(text)),
        "any whitespace" => {
            let list = many0(alloc, from_fn(|input| whitespace(input)));
            counted_values(alloc, list.parse(text))
        }
        "numbers behind -" => {
            let digits = many1(alloc, one_of("0123456789"));
            counted_values(alloc, many0(alloc, preceded(ch('-'), digits)).parse(text))
        }
        "digits and commas" => {
            let one = delimited(maybe(ch(' ')), from_fn(hex_digit), maybe(ch(',')));
            counted_values(alloc, many1(alloc, one).parse(text))
        }
        _ => String::from_str(alloc, "no such list"),
    }
}

/// What a count leaves, and the count.
pub fn counted(alloc: Global, name: &str, text: &str) -> Result<String, AllocError> {
    match name {
        "a" => shown(alloc, many0_count(ch('a')).parse(text)),
        "a between commas" => shown(alloc, separated_count(tag("a"), ch(',')).parse(text)),
        _ => String::from_str(alloc, "no such count"),
    }
}

/// What a fold leaves, and its number: of each 1 that is read twice the number before, and one.
pub fn folded(alloc: Global, name: &str, text: &str) -> Result<String, AllocError> {
    let number = |number: u64, _digit: char| number.saturating_mul(2).saturating_add(1);
    match name {
        "1 till ." => shown(
            alloc,
            many_till_fold(ch('1'), ch('.'), 0u64, number).parse(text),
        ),
        "1 between -" => shown(
            alloc,
            separated_fold(ch('1'), ch('-'), 0u64, number).parse(text),
        ),
        _ => String::from_str(alloc, "no such fold"),
    }
}
