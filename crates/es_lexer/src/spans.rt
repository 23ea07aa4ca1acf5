ghost use Rattle.std.specs.Prelude.{◌≡◌, ◌+◌, ◌≤◌, ◌<◌, ◌^◌, length};
ghost use Rattle.es_literal.specs.Strings.{body_end, string_end};
ghost use Rattle.es_literal.specs.spelling.Numbers.{number_end};
ghost use Rattle.es_lexer.specs.Spans.{plain_stop};

use crate::bytes::is_part;
use es_literal::spelling::{NumberEnd, number_from};
use es_literal::{StringEnd, string_from};

/// The end of the string literal at the front of a text that starts at `start`, by a fast path where it has no `\`.
#[tactic(auto, unfolding(es_literal::specs::Strings::string_end))]
pub fn string_end_from(start: usize, text: &[u8]) -> StringEnd
    requires { start + length text.now < 2 ^ 64 }
    ensures { result ≡ string_end start text.now }
{
    match text {
        [] => StringEnd::Unclosed,
        [quote, body @ ..] => body_from(*quote, start, text, body),
    }
}

/// The same for a literal with this quote and what follows the quote.
#[tactic(auto, unfolding(es_literal::specs::Strings::body_end, es_literal::specs::Strings::string_unit, es_literal::specs::Strings::string_stop, es_literal::specs::Strings::is_plain, es_literal::specs::spelling::Units::units_end, es_literal::specs::spelling::Units::units_rest))]
fn body_from(quote: u8, start: usize, whole: &[u8], body: &[u8]) -> StringEnd
    requires room { start + length whole.now < 2 ^ 64 }
    requires within { length body.now < length whole.now }
    requires same { string_end start whole.now ≡ body_end quote (start + 1) body.now }
    ensures { result ≡ string_end start whole.now }
{
    let mut at = start + 1;
    let mut rest = body;
    while let [b, after @ ..] = rest {
        if *b == b'\\' {
            return string_from(start, whole);
        }
        if *b == quote {
            return StringEnd::Closes(at + 1);
        }
        if *b == b'\n' || *b == b'\r' {
            break;
        }
        rest = after;
        at += 1;
    }
    StringEnd::Unclosed
}

/// The number at the front of a text that starts at `start`, by a fast path for decimal digits alone.
pub fn number_end_from(start: usize, text: &[u8]) -> NumberEnd
    requires { start + length text.now < 2 ^ 64 }
    ensures value { result ≡ number_end start text.now }
    ensures from { start ≤ result.end }
    ensures within { result.end ≤ start + length text.now }
{
    match text {
        [] => number_from(start, text),
        [b, digits @ ..] => {
            if *b == b'.' || *b == b'0' {
                return number_from(start, text);
            }
            match stop_from(start + 1, digits) {
                Some(end) => NumberEnd { big: false, end },
                None => number_from(start, text),
            }
        }
    }
}

/// The offset after decimal digits, where nothing follows with which a number may continue.
#[tactic(auto, unfolding(crate::specs::Spans::plain_stop))]
fn stop_from(first: usize, text: &[u8]) -> Option<usize>
    requires { first + length text.now < 2 ^ 64 }
    ensures { result ≡ plain_stop first text.now }
{
    let mut at = first;
    let mut rest = text;
    while let [b, after @ ..] = rest {
        if !b.is_ascii_digit() {
            return if *b == b'.' || is_part(*b) {
                None
            } else {
                Some(at)
            };
        }
        rest = after;
        at += 1;
    }
    Some(at)
}
