ghost use Rattle.std.specs.Prelude.{◌≡◌, ◌+◌, ◌<◌, ◌≤◌, ◌^◌, length};
ghost use Rattle.es_literal.specs.spelling.Numbers.{is_digit, radix_of, begins_digit, digit_unit, digits_rest, decimals_rest, places_rest, fraction_rest, power_rest, signed_rest, exponent_rest, after_digits, after_whole, after_letter, after_zero, after_number, number_end};

/// What a number's digits count by.
#[derive(Clone, Copy)]
pub enum Radix {
    Binary,
    Octal,
    Decimal,
    Hexadecimal,
}

/// Where a number ends.
#[derive(Clone, Copy)]
pub struct NumberEnd {
    /// Whether it is a BigInt.
    pub big: bool,
    pub end: usize,
}

/// The number at the front of the text, which starts at `at`.
#[tactic(auto, unfolding(crate::specs::spelling::Numbers::number_end))]
pub fn number_from(at: usize, text: &[u8]) -> NumberEnd
    requires { at + length text.now < 2 ^ 64 }
    ensures value { result ≡ number_end at text.now }
    ensures from { at ≤ result.end }
    ensures within { result.end ≤ at + length text.now }
{
    match text {
        [] => NumberEnd {
            big: false,
            end: at,
        },
        [b, rest @ ..] => {
            let (big, back) = after_number(*b, rest);
            NumberEnd {
                big,
                end: at + (text.len() - back.len()),
            }
        }
    }
}

#[tactic(auto, unfolding(crate::specs::spelling::Numbers::after_number))]
fn after_number(b: u8, rest: &[u8]) -> (bool, &[u8])
    ensures big { result.0 ≡ (after_number b rest.now).0 }
    ensures back { result.1.now ≡ (after_number b rest.now).1 }
    ensures within { length result.1.now ≤ length rest.now }
{
    match b {
        b'.' => (false, exponent_rest(places_rest(rest))),
        b'0' => after_zero(rest),
        _ => after_whole(digits_rest(Radix::Decimal, rest)),
    }
}

/// After a number that begins with `0`.
#[tactic(auto, unfolding(crate::specs::spelling::Numbers::after_zero))]
fn after_zero(text: &[u8]) -> (bool, &[u8])
    ensures big { result.0 ≡ (after_zero text.now).0 }
    ensures back { result.1.now ≡ (after_zero text.now).1 }
    ensures within { length result.1.now ≤ length text.now }
{
    match text {
        [] => (false, text),
        [b, rest @ ..] => {
            if is_digit(Radix::Decimal, *b) {
                (false, decimals_rest(rest))
            } else {
                after_letter(radix_of(*b), text, rest)
            }
        }
    }
}

/// After the digits of a radix, where `rest` begins with one, or after the whole part `0`.
#[tactic(auto, unfolding(crate::specs::spelling::Numbers::after_letter))]
fn after_letter<'a>(radix: Option<Radix>, text: &'a [u8], rest: &'a [u8]) -> (bool, &'a [u8])
    requires { length rest.now ≤ length text.now }
    ensures big { result.0 ≡ (after_letter radix text.now rest.now).0 }
    ensures back { result.1.now ≡ (after_letter radix text.now rest.now).1 }
    ensures within { length result.1.now ≤ length text.now }
{
    match (radix, rest) {
        (Some(radix), [d, more @ ..]) => {
            if is_digit(radix, *d) {
                after_digits(digits_rest(radix, more))
            } else {
                after_whole(text)
            }
        }
        _ => after_whole(text),
    }
}

#[tactic(auto, unfolding(crate::specs::spelling::Numbers::after_digits))]
fn after_digits(text: &[u8]) -> (bool, &[u8])
    ensures big { result.0 ≡ (after_digits text.now).0 }
    ensures back { result.1.now ≡ (after_digits text.now).1 }
    ensures within { length result.1.now ≤ length text.now }
{
    match text {
        [b'n', rest @ ..] => (true, rest),
        _ => (false, text),
    }
}

/// After the whole part of a decimal number.
#[tactic(auto, unfolding(crate::specs::spelling::Numbers::after_whole))]
fn after_whole(text: &[u8]) -> (bool, &[u8])
    ensures big { result.0 ≡ (after_whole text.now).0 }
    ensures back { result.1.now ≡ (after_whole text.now).1 }
    ensures within { length result.1.now ≤ length text.now }
{
    match text {
        [] => (false, text),
        [b'n', rest @ ..] => (true, rest),
        _ => (false, exponent_rest(fraction_rest(text))),
    }
}

/// The text after an optional exponent.
#[tactic(auto, unfolding(crate::specs::spelling::Numbers::exponent_rest))]
fn exponent_rest(text: &[u8]) -> &[u8]
    ensures value { result.now ≡ exponent_rest text.now }
    ensures within { length result.now ≤ length text.now }
{
    match text {
        [b'e', rest @ ..] => signed_rest(text, rest),
        [b'E', rest @ ..] => signed_rest(text, rest),
        _ => text,
    }
}

#[tactic(auto, unfolding(crate::specs::spelling::Numbers::signed_rest))]
fn signed_rest<'a>(text: &'a [u8], rest: &'a [u8]) -> &'a [u8]
    requires { length rest.now ≤ length text.now }
    ensures value { result.now ≡ signed_rest text.now rest.now }
    ensures within { length result.now ≤ length text.now }
{
    match rest {
        [b'+', more @ ..] => power_rest(text, more),
        [b'-', more @ ..] => power_rest(text, more),
        [] => text,
        _ => power_rest(text, rest),
    }
}

#[tactic(auto, unfolding(crate::specs::spelling::Numbers::power_rest))]
fn power_rest<'a>(text: &'a [u8], rest: &'a [u8]) -> &'a [u8]
    requires { length rest.now ≤ length text.now }
    ensures value { result.now ≡ power_rest text.now rest.now }
    ensures within { length result.now ≤ length text.now }
{
    match rest {
        [] => text,
        [d, more @ ..] => {
            if is_digit(Radix::Decimal, *d) {
                digits_rest(Radix::Decimal, more)
            } else {
                text
            }
        }
    }
}

/// The text after an optional point and places.
#[tactic(auto, unfolding(crate::specs::spelling::Numbers::fraction_rest))]
fn fraction_rest(text: &[u8]) -> &[u8]
    ensures value { result.now ≡ fraction_rest text.now }
    ensures within { length result.now ≤ length text.now }
{
    match text {
        [b'.', rest @ ..] => places_rest(rest),
        _ => text,
    }
}

/// The text after optional decimal digits.
#[tactic(auto, unfolding(crate::specs::spelling::Numbers::places_rest))]
fn places_rest(text: &[u8]) -> &[u8]
    ensures value { result.now ≡ places_rest text.now }
    ensures within { length result.now ≤ length text.now }
{
    match text {
        [] => text,
        [d, rest @ ..] => {
            if is_digit(Radix::Decimal, *d) {
                digits_rest(Radix::Decimal, rest)
            } else {
                text
            }
        }
    }
}

/// The text after decimal digits without `_`.
#[tactic(auto, unfolding(crate::specs::spelling::Numbers::decimals_rest))]
fn decimals_rest(text: &[u8]) -> &[u8]
    ensures value { result.now ≡ decimals_rest text.now }
    ensures within { length result.now ≤ length text.now }
{
    let mut rest = text;
    while let [b, after @ ..] = rest {
        if !is_digit(Radix::Decimal, *b) {
            break;
        }
        rest = after;
    }
    rest
}

/// The text after digits in a row, each after one `_` or none.
#[tactic(auto, unfolding(crate::specs::spelling::Numbers::digits_rest))]
fn digits_rest(radix: Radix, text: &[u8]) -> &[u8]
    ensures value { result.now ≡ digits_rest radix text.now }
    ensures within { length result.now ≤ length text.now }
{
    let mut rest = text;
    loop {
        let size = digit_unit(radix, rest);
        if size == 0 {
            break;
        }
        rest = &rest[size..];
    }
    rest
}

#[tactic(auto, unfolding(crate::specs::spelling::Numbers::digit_unit, crate::specs::spelling::Numbers::begins_digit))]
fn digit_unit(radix: Radix, text: &[u8]) -> usize
    ensures value { result ≡ digit_unit radix text.now }
    ensures within { result ≤ length text.now }
{
    match text {
        [] => 0,
        [b] => { if is_digit(radix, *b) { 1 } else { 0 } }
        [b, c, ..] => {
            if is_digit(radix, *b) {
                1
            } else if *b == b'_' && is_digit(radix, *c) {
                2
            } else {
                0
            }
        }
    }
}

#[tactic(auto, unfolding(crate::specs::spelling::Numbers::is_digit))]
fn is_digit(radix: Radix, b: u8) -> bool
    ensures { result ≡ is_digit radix b }
{
    match radix {
        Radix::Binary => b == b'0' || b == b'1',
        Radix::Octal => b.is_ascii_digit() && !(b == b'8' || b == b'9'),
        Radix::Decimal => b.is_ascii_digit(),
        Radix::Hexadecimal => b.is_ascii_hexdigit(),
    }
}

/// The radix that a letter after `0` stands for.
#[tactic(auto, unfolding(crate::specs::spelling::Numbers::radix_of))]
fn radix_of(b: u8) -> Option<Radix>
    ensures { result ≡ radix_of b }
{
    match b {
        b'x' => Some(Radix::Hexadecimal),
        b'X' => Some(Radix::Hexadecimal),
        b'o' => Some(Radix::Octal),
        b'O' => Some(Radix::Octal),
        b'b' => Some(Radix::Binary),
        b'B' => Some(Radix::Binary),
        _ => None,
    }
}
