//! JSON strings.
ghost use Rattle.std.specs.Prelude.{◌≡◌, ◌∷◌, [], true, OnOk};
ghost use Rattle.json.specs.Print.{quoted, escape, escape_byte};
ghost use Rattle.graph_report.specs.Adds.{Adds, between_quotes};

use serde_json::Value;
use std::alloc::{AllocError, Global};

/// Adds the text as a JSON string.
pub fn add_quoted(alloc: Global, out: &mut String, text: &str) -> Result<(), AllocError>
    ensures { OnOk result (Adds out.old out.new (quoted text.now)) }
{
    if is_plain(text.as_bytes()) {
        add_between_quotes(out, text)
    } else {
        add_escaped(alloc, out, text)
    }
}

/// Whether no byte of the text is escaped.
fn is_plain(bytes: &[u8]) -> bool
    ensures { result ≡ true → escape bytes.now ≡ bytes.now }
{
    for byte in bytes {
        if !is_plain_byte(*byte) {
            return false;
        }
    }
    true
}

/// Whether the byte stands for itself in a string.
#[tactic(auto, unfolding(json::specs::Print::escape_byte))]
fn is_plain_byte(byte: u8) -> bool
    ensures { result ≡ true → escape_byte byte ≡ byte ∷ [] }
{
    byte >= b' ' && byte != b'"' && byte != b'\\'
}

fn add_between_quotes(out: &mut String, text: &str) -> Result<(), AllocError>
    ensures { OnOk result (Adds out.old out.new (between_quotes text.now)) }
{
    out.push_str("\"")?;
    out.push_str(text)?;
    out.push_str("\"")
}

fn add_escaped(alloc: Global, out: &mut String, text: &str) -> Result<(), AllocError>
    ensures { OnOk result (Adds out.old out.new (quoted text.now)) }
{
    let value = Value::String(String::from_str(alloc, text)?);
    let quoted = value.to_string(alloc)?;
    out.push_str(quoted.as_str())
}
