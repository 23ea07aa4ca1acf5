//! The essence of a MIME type, and the blanks at the ends of a text (RFC 9110, "Content-Type"; Infra Standard, "ASCII
//! whitespace").
//!
//! - `essence_of(mime)`: the type and subtype of a MIME type, without its parameters (`essence_of`,
//!   `specs/mime_essence/Essence.antt`).
//! - `trim_blanks(text)`, `trim_blanks_end(text)`: the text less the blanks at both ends, and at its end
//!   (`specs/mime_essence/Blanks.antt`).
//!
//! Each answer is a slice of the text that is given. No call allocates.

ghost use Rattle.std.specs.Prelude.{◌≡◌, ◌==◌};
ghost use Rattle.std.specs.List.{before_first};
ghost use Rattle.media_type.specs.mime_essence.Blanks as blanks;
ghost use Rattle.media_type.specs.mime_essence.Essence as essence;

/// The MIME type up to its first `;`, which its parameters follow, less the blanks at both ends. Its letters
/// stay as they are.
pub fn essence_of(mime: &str) -> &str
    ensures { result.now ≡ essence.essence_of mime.now }
{
    trim_blanks(before_parameters(mime))
}

fn before_parameters(mime: &str) -> &str
    ensures { result.now ≡ before_first (λ b. b == 59) mime.now }
{
    match mime.split_once(';') {
        Some((essence, _)) => essence,
        None => mime,
    }
}

/// The text less the blanks at both ends.
pub fn trim_blanks(text: &str) -> &str
    ensures { result.now ≡ blanks.trim_blanks text.now }
{
    text.trim_ascii()
}

/// The text less the blanks at its end.
pub fn trim_blanks_end(text: &[u8]) -> &[u8]
    ensures { result.now ≡ blanks.trim_blanks_end text.now }
{
    text.trim_ascii_end()
}
