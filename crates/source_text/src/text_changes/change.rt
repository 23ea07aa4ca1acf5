ghost use Rattle.std.specs.Prelude.{◌≡◌, IfOk, string_bytes};

use base::{Range, Text};
use std::alloc::{AllocError, Global};

/// The text that comes in the place of a range of the source.
#[derive(Debug, PartialEq, Eq, Drop)]
pub struct TextChange {
    /// Bytes of the source, from 0. Where start and end are one, the new text is put in.
    pub range: Range,
    pub new_text: Text,
}

impl TextChange {
    pub fn new(start: usize, end: usize, new_text: String) -> TextChange
        ensures start { result.range.start ≡ start }
        ensures end { result.range.end ≡ end }
        ensures new_text { result.new_text ≡ string_bytes new_text }
    {
        TextChange {
            range: Range { start, end },
            new_text: Text::from_string(new_text),
        }
    }

    /// An equal change.
    pub fn copy(&self) -> Result<TextChange, AllocError>
        ensures { IfOk result (λ change. change ≡ self.now) }
    {
        Ok(TextChange {
            range: self.range,
            new_text: self.new_text.copy()?,
        })
    }
}
