//! Parsers by name, each maker at a concrete type.

use crate::shown::shown;
use monch::{
    Combinator, assert, assert_exists, ch, check_not, delimited, if_not_empty, if_true, map, maybe,
    next_char, one_of, or, or3, or4, or5, or6, or7, pair, preceded, skip_while, skip_while_byte,
    skip_whitespace, substring, tag, tag_owned, take_while, take_while_byte, terminated,
    whitespace, with_error_context, with_failure_input,
};
use std::alloc::{AllocError, Global};

/// Characters and tags.
pub fn part(alloc: Global, name: &str, text: &str) -> Result<String, AllocError> {
    match name {
        "a" => shown(alloc, ch('a').parse(text)),
        "ß" => shown(alloc, ch('ß').parse(text)),
        "one of €😀" => shown(alloc, one_of("€😀").parse(text)),
        "tag €a" => shown(alloc, tag("€a").parse(text)),
        "owned ab" => {
            let owned = tag_owned(String::from_str(alloc, "ab")?);
            shown(alloc, owned.parse(text))
        }
        "next" => shown(alloc, next_char(text)),
        _ => String::from_str(alloc, "no such parser"),
    }
}

/// The longest front of some characters.
pub fn front(alloc: Global, name: &str, text: &str) -> Result<String, AllocError> {
    match name {
        "a and ß" => shown(
            alloc,
            take_while(|c: char| c == 'a' || c == 'ß').parse(text),
        ),
        "€ skipped" => shown(alloc, skip_while(|c: char| c == '€').parse(text)),
        "digits" => shown(
            alloc,
            take_while_byte(|b: u8| b'0' <= b && b <= b'9').parse(text),
        ),
        "spaces skipped" => shown(alloc, skip_while_byte(|b: u8| b == b' ').parse(text)),
        "whitespace" => shown(alloc, whitespace(text)),
        "whitespace skipped" => shown(alloc, skip_whitespace(text)),
        _ => String::from_str(alloc, "no such parser"),
    }
}

/// Parts in turn.
pub fn pair_of(alloc: Global, name: &str, text: &str) -> Result<String, AllocError> {
    match name {
        "a and bc" => shown(alloc, pair(ch('a'), tag("bc")).parse(text)),
        "b behind a" => shown(alloc, preceded(ch('a'), ch('b')).parse(text)),
        "a before b" => shown(alloc, terminated(ch('a'), ch('b')).parse(text)),
        "quoted" => {
            let quoted = delimited(ch('"'), take_while(|c: char| c != '"'), ch('"'));
            shown(alloc, quoted.parse(text))
        }
        "text of € and a" => shown(alloc, substring(pair(ch('€'), ch('a'))).parse(text)),
        "maybe a" => shown(alloc, maybe(ch('a')).parse(text)),
        "length of ab" => shown(alloc, map(tag("ab"), |t: &str| t.len()).parse(text)),
        "nested" => {
            let whole = substring(pair(ch('a'), maybe(tag("bc"))));
            shown(alloc, pair(whole, map(ch('ß'), |_| 3u8)).parse(text))
        }
        _ => String::from_str(alloc, "no such parser"),
    }
}

/// Parsers on a condition, and what they fail with.
pub fn condition(alloc: Global, name: &str, text: &str) -> Result<String, AllocError> {
    match name {
        "some a" => shown(
            alloc,
            if_not_empty(take_while(|c: char| c == 'a')).parse(text),
        ),
        "ß or a, not a" => shown(
            alloc,
            if_true(one_of("ßa"), |c: &char| *c != 'a').parse(text),
        ),
        "no a" => shown(alloc, check_not(ch('a')).parse(text)),
        "a or m" => shown(alloc, assert_exists(alloc, tag("a"), "m").parse(text)),
        "a or m in n" => {
            let wanted = assert_exists(alloc, tag("a"), "m");
            shown(alloc, with_error_context(alloc, wanted, "n").parse(text))
        }
        "a or m in n at €" => {
            let wanted = with_error_context(alloc, assert_exists(alloc, tag("a"), "m"), "n");
            shown(alloc, with_failure_input("€", wanted).parse(text))
        }
        "no success" => shown(
            alloc,
            assert(alloc, tag("a"), |r| r.is_err(), "too long").parse(text),
        ),
        "a or m, or n" => {
            let wanted = assert_exists(alloc, tag("a"), "m");
            shown(alloc, assert(alloc, wanted, |r| r.is_ok(), "n").parse(text))
        }
        _ => String::from_str(alloc, "no such parser"),
    }
}

/// The first of several that reads.
pub fn alternative(alloc: Global, name: &str, text: &str) -> Result<String, AllocError> {
    match name {
        "a or ab" => shown(alloc, or(tag("a"), tag("ab")).parse(text)),
        "three" => shown(alloc, or3(tag("1"), tag("2"), tag("3")).parse(text)),
        "four" => shown(
            alloc,
            or4(tag("1"), tag("2"), tag("3"), tag("4")).parse(text),
        ),
        "five" => {
            let five = or5(tag("1"), tag("2"), tag("3"), tag("4"), tag("5"));
            shown(alloc, five.parse(text))
        }
        "six" => {
            let six = or6(tag("1"), tag("2"), tag("3"), tag("4"), tag("5"), tag("6"));
            shown(alloc, six.parse(text))
        }
        "seven" => {
            let (one, two, three, four) = (tag("1"), tag("2"), tag("3"), tag("4"));
            let seven = or7(one, two, three, four, tag("5"), tag("6"), tag("7"));
            shown(alloc, seven.parse(text))
        }
        "a failure or b" => {
            let fails = assert_exists(alloc, ch('a'), "m");
            shown(alloc, or(fails, ch('b')).parse(text))
        }
        _ => String::from_str(alloc, "no such parser"),
    }
}
