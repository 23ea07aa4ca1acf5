ghost use Rattle.std.specs.Prelude.{◌≡◌, ◌+◌, ◌<◌, ◌≤◌, ◌^◌, length, IfSome};
ghost use Rattle.es_literal.specs.spelling.RegExps.{pair_size, class_unit, class_stop, class_size, body_unit, body_stop, body_end};

use crate::spelling::line::begins_line_end;

/// The offset after the body of a regular expression and its `/`, if there is one. The text starts at `first`, after the
/// `/` that begins it.
#[tactic(auto, unfolding(crate::specs::spelling::RegExps::body_end))]
pub fn regexp_from(first: usize, text: &[u8]) -> Option<usize>
    requires { first + length text.now < 2 ^ 64 }
    ensures value { result ≡ body_end first text.now }
    ensures within { IfSome result (λ end. (first ≤ end) × (end ≤ first + length text.now)) }
{
    let mut at = first;
    let mut rest = text;
    loop {
        let size = body_unit(rest);
        if size == 0 {
            break;
        }
        rest = &rest[size..];
        at += size;
    }
    body_stop(at, rest)
}

#[tactic(auto, unfolding(crate::specs::spelling::RegExps::body_stop))]
fn body_stop(at: usize, text: &[u8]) -> Option<usize>
    requires { at + length text.now < 2 ^ 64 }
    ensures value { result ≡ body_stop at text.now }
    ensures within { IfSome result (λ end. (at ≤ end) × (end ≤ at + length text.now)) }
{
    match text {
        [b'/', ..] => Some(at + 1),
        _ => None,
    }
}

/// The size of what goes on in a body, 0 where nothing does.
#[tactic(auto, unfolding(crate::specs::spelling::RegExps::body_unit))]
fn body_unit(text: &[u8]) -> usize
    requires { length text.now < 2 ^ 64 }
    ensures value { result ≡ body_unit text.now }
    ensures within { result ≤ length text.now }
{
    match text {
        [] => 0,
        [b, rest @ ..] => {
            if *b == b'/' || begins_line_end(text) {
                0
            } else if *b == b'\\' {
                pair_size(rest)
            } else if *b == b'[' {
                class_size(rest)
            } else {
                1
            }
        }
    }
}

/// The size of a class, whose `[` precedes the text, 0 where no `]` ends it.
#[tactic(auto, unfolding(crate::specs::spelling::RegExps::class_size))]
fn class_size(text: &[u8]) -> usize
    requires { 1 + length text.now < 2 ^ 64 }
    ensures value { result ≡ class_size text.now }
    ensures within { result ≤ length text.now + 1 }
{
    let mut at = 1;
    let mut rest = text;
    loop {
        let size = class_unit(rest);
        if size == 0 {
            break;
        }
        rest = &rest[size..];
        at += size;
    }
    class_stop(at, rest)
}

#[tactic(auto, unfolding(crate::specs::spelling::RegExps::class_stop))]
fn class_stop(size: usize, text: &[u8]) -> usize
    requires { size + length text.now < 2 ^ 64 }
    ensures value { result ≡ class_stop size text.now }
    ensures within { result ≤ size + length text.now }
{
    match text {
        [b']', ..] => size + 1,
        _ => 0,
    }
}

/// The size of what goes on in a class, 0 where nothing does.
#[tactic(auto, unfolding(crate::specs::spelling::RegExps::class_unit))]
fn class_unit(text: &[u8]) -> usize
    ensures value { result ≡ class_unit text.now }
    ensures within { result ≤ length text.now }
{
    match text {
        [] => 0,
        [b, rest @ ..] => {
            if *b == b']' || begins_line_end(text) {
                0
            } else if *b == b'\\' {
                pair_size(rest)
            } else {
                1
            }
        }
    }
}

/// The size of a `\`, which precedes the text, and the byte after it.
#[tactic(auto, unfolding(crate::specs::spelling::RegExps::pair_size))]
fn pair_size(text: &[u8]) -> usize
    ensures value { result ≡ pair_size text.now }
    ensures within { result ≤ length text.now + 1 }
{
    if text.is_empty() || begins_line_end(text) {
        0
    } else {
        2
    }
}
