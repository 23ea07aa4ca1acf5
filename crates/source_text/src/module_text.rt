//! The text of a module: without one byte order mark at its front (Encoding Standard, "UTF-8 decode").
//!
//! - `without_mark(text)`, `strip_bom(text)`: the text less one mark (`without_mark`, `specs/module_text/ModuleText.antt`).
//!
//! No call allocates.

ghost use Rattle.std.specs.Prelude.{◌≡◌, string_bytes};
ghost use Rattle.lexical_path.specs.Specifiers.{begins};
ghost use Rattle.source_text.specs.module_text.ModuleText as texts;

/// The text less one byte order mark at the front.
pub fn without_mark(text: &str) -> &str
    ensures { result.now ≡ texts.without_mark text.now }
{
    match text.strip_prefix("\u{feff}") {
        Some(rest) => rest,
        None => text,
    }
}

/// Whether the text begins with a byte order mark.
pub fn has_mark(text: &str) -> bool
    ensures { result ≡ begins text.now texts.mark }
{
    text.starts_with("\u{feff}")
}

/// The same text in the memory that it has.
pub fn strip_bom(text: String) -> String
    ensures { string_bytes result ≡ texts.without_mark (string_bytes text) }
{
    let mut text = text;
    match text.as_str().strip_prefix("\u{feff}") {
        Some(_) => {
            text.remove(0);
            text
        }
        None => text,
    }
}
