ghost use Rattle.std.specs.Prelude.{◌≡◌, ◌+◌, ◌<◌, ◌≤◌, ◌^◌, false, true, length, MatchOption};
ghost use Rattle.es_literal.specs.Strings.{digit, is_hex, is_plain, two_size, four_size, point_size, braced_size, unicode_size, return_size, escape_size, string_unit, escape_stop, string_stop, body_end, string_end, begins_quote, IsStringEnd};

/// Where a string literal ends.
#[derive(Clone, Copy, Debug, PartialEq, Eq)]
pub enum StringEnd {
    /// Its closing quote ends at this place.
    Closes(usize),
    /// The `\` at this place begins no escape, before the literal is found to be unfinished.
    InvalidEscape(usize),
    /// The text or the line ends first.
    Unclosed,
}

/// The end of the string literal at the front of a text that starts at `start`. The text begins with the quote.
pub fn string_from(start: usize, text: &[u8]) -> StringEnd
    requires { start + length text.now < 2 ^ 64 }
    ensures value { result ≡ string_end start text.now }
    ensures found { begins_quote text.now ≡ true → IsStringEnd start text.now result }
{
    string_at(start, text)
}

#[tactic(auto, unfolding(crate::specs::Strings::string_end))]
fn string_at(start: usize, text: &[u8]) -> StringEnd
    requires { start + length text.now < 2 ^ 64 }
    ensures { result ≡ string_end start text.now }
{
    match text {
        [] => StringEnd::Unclosed,
        [quote, rest @ ..] => body_from(*quote, start + 1, rest),
    }
}

#[tactic(auto, unfolding(crate::specs::Strings::body_end))]
fn body_from(quote: u8, first: usize, text: &[u8]) -> StringEnd
    requires { first + length text.now < 2 ^ 64 }
    ensures { result ≡ body_end quote first text.now }
{
    let mut at = first;
    let mut rest = text;
    loop {
        let size = string_unit(quote, rest);
        if size == 0 {
            break;
        }
        rest = &rest[size..];
        at += size;
    }
    string_stop(quote, at, rest)
}

#[tactic(auto, unfolding(crate::specs::Strings::string_stop, crate::specs::Strings::escape_stop))]
fn string_stop(quote: u8, at: usize, text: &[u8]) -> StringEnd
    requires { at + length text.now < 2 ^ 64 }
    ensures { result ≡ string_stop quote at text.now }
{
    match text {
        [] => StringEnd::Unclosed,
        [b, rest @ ..] => {
            if *b == quote {
                StringEnd::Closes(at + 1)
            } else if *b == b'\\' && !rest.is_empty() {
                StringEnd::InvalidEscape(at)
            } else {
                StringEnd::Unclosed
            }
        }
    }
}

/// The size of what goes on in a literal, 0 where nothing does.
#[tactic(auto, unfolding(crate::specs::Strings::string_unit))]
fn string_unit(quote: u8, text: &[u8]) -> usize
    ensures value { result ≡ string_unit quote text.now }
    ensures within { result ≤ length text.now }
{
    match text {
        [] => 0,
        [b'\\', rest @ ..] => escape_size(rest),
        [b, ..] => { if is_plain(quote, *b) { 1 } else { 0 } }
    }
}

#[tactic(auto, unfolding(crate::specs::Strings::is_plain))]
fn is_plain(quote: u8, b: u8) -> bool
    ensures { result ≡ is_plain quote b }
{
    !(b == quote || b == b'\\' || b == b'\n' || b == b'\r')
}

/// The size of an escape, whose `\` precedes the text.
#[tactic(auto, unfolding(crate::specs::Strings::escape_size))]
fn escape_size(text: &[u8]) -> usize
    ensures value { result ≡ escape_size text.now }
    ensures within { result ≤ length text.now + 1 }
{
    match text {
        [] => 0,
        [b'x', rest @ ..] => two_size(rest),
        [b'u', rest @ ..] => unicode_size(rest),
        [b'\r', rest @ ..] => return_size(rest),
        [_, ..] => 2,
    }
}

#[tactic(auto, unfolding(crate::specs::Strings::return_size))]
fn return_size(text: &[u8]) -> usize
    ensures value { result ≡ return_size text.now }
    ensures within { result ≤ length text.now + 2 }
{
    match text {
        [b'\n', ..] => 3,
        _ => 2,
    }
}

#[tactic(auto, unfolding(crate::specs::Strings::two_size))]
fn two_size(text: &[u8]) -> usize
    ensures value { result ≡ two_size text.now }
    ensures within { result ≤ length text.now + 2 }
{
    match text {
        [c, d, ..] => { if is_hex(*c) && is_hex(*d) { 4 } else { 0 } }
        _ => 0,
    }
}

#[tactic(auto, unfolding(crate::specs::Strings::unicode_size))]
fn unicode_size(text: &[u8]) -> usize
    ensures value { result ≡ unicode_size text.now }
    ensures within { result ≤ length text.now + 2 }
{
    match text {
        [] => 0,
        [b'{', rest @ ..] => braced_size(rest),
        _ => four_size(text),
    }
}

#[tactic(auto, unfolding(crate::specs::Strings::four_size))]
fn four_size(text: &[u8]) -> usize
    ensures value { result ≡ four_size text.now }
    ensures within { result ≤ length text.now + 2 }
{
    match text {
        [c, d, e, f, ..] => {
            if is_hex(*c) && is_hex(*d) && (is_hex(*e) && is_hex(*f)) {
                6
            } else {
                0
            }
        }
        _ => 0,
    }
}

#[tactic(auto, unfolding(crate::specs::Strings::braced_size))]
fn braced_size(text: &[u8]) -> usize
    ensures value { result ≡ braced_size text.now }
    ensures within { result ≤ length text.now + 3 }
{
    match text {
        [] => 0,
        [b, rest @ ..] => match hex_value(*b) {
            Some(value) => point_size(value, rest),
            None => 0,
        },
    }
}

/// The size of `\u{H..}`, whose first digit precedes the text.
#[tactic(auto, unfolding(crate::specs::Strings::point_size))]
fn point_size(first: u32, text: &[u8]) -> usize
    requires { first < 16 }
    ensures value { result ≡ point_size 4 first text.now }
    ensures within { result ≤ length text.now + 4 }
{
    let mut size = 4;
    let mut value = first;
    let mut rest = text;
    while let [b, after @ ..] = rest {
        if *b == b'}' {
            return size + 1;
        }
        let Some(digit) = hex_value(*b) else {
            return 0;
        };
        value = value * 16 + digit;
        if value > 0x10FFFF {
            return 0;
        }
        size += 1;
        rest = after;
    }
    0
}

#[tactic(auto, unfolding(crate::specs::Strings::is_hex, crate::specs::Strings::digit))]
fn is_hex(b: u8) -> bool
    ensures { result ≡ is_hex b }
{
    (b as char).is_digit(16)
}

/// What a hexadecimal digit is worth.
#[tactic(auto, unfolding(crate::specs::Strings::is_hex, crate::specs::Strings::digit))]
fn hex_value(b: u8) -> Option<u32>
    ensures { MatchOption result (is_hex b ≡ false) (λ value. (is_hex b ≡ true) × (value ≡ digit b) × (value < 16)) }
{
    (b as char).to_digit(16)
}
