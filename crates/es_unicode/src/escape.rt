ghost use Rattle.std.specs.Prelude.{◌≡◌, ◌≤◌, ◌<◌, ◌+◌, false, true, length, IfSome};
ghost use Rattle.std.specs.Char.{is_ascii_alphabetic};
ghost use Rattle.es_unicode.specs.Escapes.{is_hex, hex, four_code, four_escape, point_escape, braced_escape, unicode_escape, escape_at, is_gap, is_surrogate, is_name_start, is_name_part, size_if, escaped_start, escaped_part};

/// An escape of a character.
#[derive(Clone, Copy)]
pub struct Escape {
    /// The character's number.
    pub code: u32,
    /// Its bytes, with the `\`.
    pub size: usize,
}

/// The size of the escape at the front of the text, of a character that may begin a word; 0 where there is none.
#[tactic(auto, unfolding(crate::specs::Escapes::escaped_start, crate::specs::Escapes::size_if))]
pub fn escaped_start(text: &[u8]) -> usize
    ensures value { result ≡ escaped_start text.now }
    ensures within { result ≤ length text.now }
{
    match escape_at(text) {
        None => 0,
        Some(escape) => {
            if is_name_start(escape.code) {
                escape.size
            } else {
                0
            }
        }
    }
}

/// The size of the escape at the front of the text, of a character that may continue a word; 0 where there is none.
#[tactic(auto, unfolding(crate::specs::Escapes::escaped_part, crate::specs::Escapes::size_if))]
pub fn escaped_part(text: &[u8]) -> usize
    ensures value { result ≡ escaped_part text.now }
    ensures within { result ≤ length text.now }
{
    match escape_at(text) {
        None => 0,
        Some(escape) => {
            if is_name_part(escape.code) {
                escape.size
            } else {
                0
            }
        }
    }
}

#[tactic(auto, unfolding(crate::specs::Escapes::is_name_part))]
fn is_name_part(c: u32) -> bool
    ensures { result ≡ is_name_part c }
{
    is_name_start(c) || 0x30 <= c && c <= 0x39
}

/// A letter, `$`, `_`, or a character past ASCII that is neither a blank nor a line end.
#[tactic(auto, unfolding(crate::specs::Escapes::is_name_start))]
fn is_name_start(c: u32) -> bool
    ensures { result ≡ is_name_start c }
{
    is_letter(c) || (c == 0x24 || (c == 0x5F || 0x80 <= c && !(is_gap(c) || is_surrogate(c))))
}

fn is_letter(c: u32) -> bool
    ensures { result ≡ is_ascii_alphabetic c }
{
    0x61 <= c && c <= 0x7A || 0x41 <= c && c <= 0x5A
}

#[tactic(auto, unfolding(crate::specs::Escapes::is_gap))]
fn is_gap(c: u32) -> bool
    ensures { result ≡ is_gap c }
{
    c == 0xA0
        || (c == 0x1680
            || (0x2000 <= c && c <= 0x200A
                || (c == 0x2028
                    || (c == 0x2029
                        || (c == 0x202F || (c == 0x205F || (c == 0x3000 || c == 0xFEFF)))))))
}

#[tactic(auto, unfolding(crate::specs::Escapes::is_surrogate))]
fn is_surrogate(c: u32) -> bool
    ensures { result ≡ is_surrogate c }
{
    0xD800 <= c && c <= 0xDFFF
}

/// The escape at the front of the text.
#[tactic(auto, unfolding(crate::specs::Escapes::escape_at))]
fn escape_at(text: &[u8]) -> Option<Escape>
    ensures value { result ≡ escape_at text.now }
    ensures within { IfSome result (λ escape. escape.size ≤ length text.now) }
{
    match text {
        [a, b, rest @ ..] => {
            if *a == b'\\' && *b == b'u' {
                unicode_escape(rest)
            } else {
                None
            }
        }
        _ => None,
    }
}

/// The escape whose `\u` precedes the text.
#[tactic(auto, unfolding(crate::specs::Escapes::unicode_escape))]
fn unicode_escape(text: &[u8]) -> Option<Escape>
    ensures value { result ≡ unicode_escape text.now }
    ensures within { IfSome result (λ escape. escape.size ≤ length text.now + 2) }
{
    match text {
        [] => None,
        [b'{', rest @ ..] => braced_escape(rest),
        _ => four_escape(text),
    }
}

#[tactic(auto, unfolding(crate::specs::Escapes::four_escape, crate::specs::Escapes::four_code))]
fn four_escape(text: &[u8]) -> Option<Escape>
    ensures value { result ≡ four_escape text.now }
    ensures within { IfSome result (λ escape. escape.size ≤ length text.now + 2) }
{
    match text {
        [c, d, e, f, ..] => {
            if is_hex(*c) && is_hex(*d) && (is_hex(*e) && is_hex(*f)) {
                Some(Escape {
                    code: ((hex(*c) * 16 + hex(*d)) * 16 + hex(*e)) * 16 + hex(*f),
                    size: 6,
                })
            } else {
                None
            }
        }
        _ => None,
    }
}

#[tactic(auto, unfolding(crate::specs::Escapes::braced_escape))]
fn braced_escape(text: &[u8]) -> Option<Escape>
    ensures value { result ≡ braced_escape text.now }
    ensures within { IfSome result (λ escape. escape.size ≤ length text.now + 3) }
{
    match text {
        [] => None,
        [b, rest @ ..] => {
            if is_hex(*b) {
                point_escape(hex(*b), rest)
            } else {
                None
            }
        }
    }
}

/// `\u{H..}`, whose first digit precedes the text.
#[tactic(auto, unfolding(crate::specs::Escapes::point_escape))]
fn point_escape(first: u32, text: &[u8]) -> Option<Escape>
    requires { first < 16 }
    ensures value { result ≡ point_escape 4 first text.now }
    ensures within { IfSome result (λ escape. escape.size ≤ length text.now + 4) }
{
    let mut size = 4;
    let mut value = first;
    let mut rest = text;
    while let [b, after @ ..] = rest {
        if *b == b'}' {
            return Some(Escape {
                code: value,
                size: size + 1,
            });
        }
        if !is_hex(*b) {
            return None;
        }
        value = value * 16 + hex(*b);
        if value > 0x10FFFF {
            return None;
        }
        size += 1;
        rest = after;
    }
    None
}

#[tactic(auto, unfolding(crate::specs::Escapes::is_hex))]
fn is_hex(b: u8) -> bool
    ensures { result ≡ is_hex b }
{
    (b as char).is_digit(16)
}

/// What a hexadecimal digit is worth.
#[tactic(auto, unfolding(crate::specs::Escapes::hex, crate::specs::Escapes::is_hex))]
fn hex(b: u8) -> u32
    ensures value { result ≡ hex b }
    ensures small { result < 16 }
{
    match (b as char).to_digit(16) {
        Some(value) => value,
        None => 0,
    }
}
