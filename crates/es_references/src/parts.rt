//! Parts of the text of a comment.
ghost use Rattle.std.specs.Prelude.{◌≡◌, ◌==◌, nat_eq};
ghost use Rattle.std.specs.List.{starts_with, prefix_len, list_any};
ghost use Rattle.std.specs.Option.{option_copied, option_map};
ghost use Rattle.es_references.specs.References as spec;

fn is_blank(b: u8) -> bool
    ensures { result ≡ spec.is_blank b }
{
    b == b' ' || b == b'\t'
}

// How many blanks and tabs the text begins with.
fn blanks(text: &str) -> usize
    ensures { result ≡ prefix_len spec.is_blank text.now }
{
    let bytes = text.as_bytes();
    bytes.iter().take_while(|b| is_blank(**b)).count()
}

/// The text after its leading blanks and tabs.
pub fn behind_blanks(text: &str) -> &str
    ensures { result.now ≡ spec.behind_blanks text.now }
{
    let count = blanks(text);
    if count == 0 {
        return text;
    }
    &text[count..]
}

/// The same, if there is at least one.
pub fn behind_gap(text: &str) -> Option<&str>
    ensures { option_copied result ≡ spec.behind_gap text.now }
{
    if 0 < blanks(text) {
        Some(behind_blanks(text))
    } else {
        None
    }
}

pub fn begins(text: &str, front: &str) -> bool
    ensures { result ≡ starts_with nat_eq text.now front.now }
{
    text.starts_with(front)
}

/// The text after this prefix, if it begins with it.
pub fn behind<'a>(front: &str, text: &'a str) -> Option<&'a str>
    ensures { option_copied result ≡ spec.behind front.now text.now }
{
    text.strip_prefix(front)
}

/// Whether the text holds `/>`.
pub fn has_end(text: &str) -> bool
    ensures { result ≡ spec.has_end text.now }
{
    let mut rest = text.as_bytes();
    while let Some((_, tail)) = rest.split_first() {
        if rest.starts_with(b"/>") {
            return true;
        }
        rest = tail;
    }
    false
}

/// A value, and the text after its closing quote.
pub fn quoted(text: &str) -> Option<(&str, &str)>
    ensures { option_map (λ q. (q.0.now, q.1.now)) result ≡ spec.quoted text.now }
{
    if let Some(rest) = text.strip_prefix('"') {
        return closed_double(rest);
    }
    match text.strip_prefix('\'') {
        Some(rest) => closed_single(rest),
        None => None,
    }
}

// Up to the first `"`, if no `'` precedes it.
fn closed_double(text: &str) -> Option<(&str, &str)>
    ensures { option_map (λ q. (q.0.now, q.1.now)) result ≡ spec.closed_by 34 39 text.now }
{
    match text.split_once('"') {
        Some((value, behind)) => without(b'\'', value, behind),
        None => None,
    }
}

// Up to the first `'`, if no `"` precedes it.
fn closed_single(text: &str) -> Option<(&str, &str)>
    ensures { option_map (λ q. (q.0.now, q.1.now)) result ≡ spec.closed_by 39 34 text.now }
{
    match text.split_once('\'') {
        Some((value, behind)) => without(b'"', value, behind),
        None => None,
    }
}

// The value and the text after it, if the value is without this byte.
fn without<'a>(other: u8, value: &'a str, behind: &'a str) -> Option<(&'a str, &'a str)>
    ensures { option_map (λ q. (q.0.now, q.1.now)) result ≡ spec.without other value.now behind.now }
{
    if has_byte(value, other) {
        None
    } else {
        Some((value, behind))
    }
}

fn has_byte(text: &str, byte: u8) -> bool
    ensures { result ≡ list_any (λ b. b == byte) text.now }
{
    text.as_bytes().iter().any(|b| *b == byte)
}
