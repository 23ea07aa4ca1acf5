//! The front of a `data:` URL: its media type, and whether its body is base64.
ghost use Rattle.std.specs.Prelude.{◌≡◌, codes, IfOk};
ghost use Rattle.std.specs.Str.{str_eq_ignore_ascii_case};
ghost use Rattle.data_specifier.specs.Front as spec;

use base::Text;
use media_type::mime_essence::{essence_of, trim_blanks_end};
use std::alloc::{AllocError, Global};

/// The front ends with `;`, any blanks and `base64` in any case.
#[tactic(auto, unfolding(crate::specs::Front::is_base64))]
pub fn is_base64(front: &str) -> bool
    ensures { result ≡ spec.is_base64 front.now }
{
    let front = front.as_bytes();
    let (before, word) = front.split_at(front.len().saturating_sub(6));
    is_base64_word(word) && trim_blanks_end(before).ends_with(b";")
}

fn is_base64_word(word: &[u8]) -> bool
    ensures { result ≡ str_eq_ignore_ascii_case word.now (codes "base64") }
{
    word.eq_ignore_ascii_case(b"base64")
}

/// The media type that the front gives, in lower case.
#[tactic(auto, unfolding(crate::specs::Front::mime_of))]
pub fn mime_of(alloc: Global, front: &str) -> Result<Text, AllocError>
    ensures { IfOk result (λ mime. mime ≡ spec.mime_of front.now) }
{
    let essence = essence_of(front);
    if has_subtype(essence) {
        Ok(Text::from_string(essence.to_ascii_lowercase(alloc)?))
    } else {
        Text::from_str(alloc, "text/plain")
    }
}

// Whether a type and a subtype surround the first `/`.
fn has_subtype(essence: &str) -> bool
    ensures { result ≡ spec.has_subtype essence.now }
{
    match essence.split_once('/') {
        Some((kind, subtype)) => !kind.is_empty() && !subtype.is_empty(),
        None => false,
    }
}
