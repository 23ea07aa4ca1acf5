//! Modules of JSON.
ghost use Rattle.std.specs.Prelude.{◌≡◌};
ghost use Rattle.graph_entry.specs.Json.{no_utf8, OfJson};

use crate::entry::{Entry, JsonModule, Module, ModuleError};
use base::SharedBytes;
use source_text::SourceText;

/// The module of a text of JSON, or that the bytes are no text.
pub fn analyse_json(bytes: SharedBytes) -> Entry
    ensures { OfJson bytes result }
{
    match SourceText::from_utf8(bytes) {
        Ok(text) => Entry::Module(Module::Json(JsonModule {
            text: text.without_mark(),
        })),
        Err(_) => no_text(),
    }
}

/// Bytes that were to be a text are none.
pub fn no_text() -> Entry
    ensures { result ≡ no_utf8 }
{
    Entry::Error(ModuleError::Decode)
}
