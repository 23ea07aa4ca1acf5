//! The text of bytes.
ghost use Rattle.std.specs.Prelude.{IfOk};
ghost use Rattle.std.specs.Result.{IfErr};
ghost use Rattle.graph_c.specs.Text.{IsText, IsNoText};

use source_text::module_text::without_mark;
use std::str;

/// The most bytes of a source that is read: 16 MiB.
pub const TEXT_LIMIT: usize = 16_777_216;

/// Why bytes are no text that is read.
#[derive(Clone, Copy)]
pub enum NoText {
    TooLong,
    /// They are no UTF-8 from this byte on, counted from the first, a byte order mark too.
    NoUtf8(usize),
}

/// The text of bytes, less one byte order mark at the front.
pub fn text_of(bytes: &[u8]) -> Result<&str, NoText>
    ensures read { IfOk result (λ text. IsText bytes.now text.now) }
    ensures refused { IfErr result (IsNoText bytes.now) }
{
    if bytes.len() > TEXT_LIMIT {
        return Err(NoText::TooLong);
    }
    match str::from_utf8(bytes) {
        Ok(text) => Ok(without_mark(text)),
        Err(error) => Err(NoText::NoUtf8(error.valid_up_to())),
    }
}
