//! What a `data:` URL holds.
ghost use Rattle.std.specs.Prelude.{◌≡◌, ◌==◌, codes};
ghost use Rattle.std.specs.List.{before_first, after_first};
ghost use Rattle.url.specs.Parts.{serialize};
ghost use Rattle.data_specifier.specs.Data as spec;
ghost use Rattle.data_specifier.specs.Data.{data_of, Gives};

use crate::body::body_of;
use crate::data_module::DataModule;
use crate::error::DataError;
use crate::front::{is_base64, mime_of};
use media_type::mime_essence::trim_blanks;
use std::alloc::Global;
use url::Url;

/// What the URL holds, if its scheme is `data`: the media type and the bytes (Fetch Standard, "`data:` URL processor").
/// The fragment plays no part.
///
/// - `NoComma`: no comma is after the scheme and before the fragment.
/// - `Base64`: the text before the comma ends in `;base64`, and the bytes are no forgiving base64.
pub fn parse_data(alloc: Global, url: &Url) -> Result<DataModule, DataError>
    requires { url.now.scheme ≡ codes "data" }
    ensures { Gives result (data_of (serialize url.now)) }
{
    parse_data_text(alloc, url.as_str())
}

/// The same of the URL's text, for callers that know its scheme by the text.
#[tactic(auto, unfolding(crate::specs::Data::data_of))]
pub fn parse_data_text(alloc: Global, text: &str) -> Result<DataModule, DataError>
    ensures { Gives result (data_of text.now) }
{
    match content_of(text).split_once(',') {
        Some((front, encoded)) => module_of(alloc, trim_blanks(front), encoded),
        None => Err(DataError::NoComma),
    }
}

// The text after the scheme, less the fragment.
fn content_of(text: &str) -> &str
    ensures { result.now ≡ spec.content_of text.now }
{
    before_fragment(behind_scheme(text))
}

fn behind_scheme(text: &str) -> &str
    ensures { result.now ≡ after_first (λ b. b == 58) text.now }
{
    match text.split_once(':') {
        Some((_, content)) => content,
        None => "",
    }
}

fn before_fragment(text: &str) -> &str
    ensures { result.now ≡ before_first (λ b. b == 35) text.now }
{
    match text.split_once('#') {
        Some((content, _)) => content,
        None => text,
    }
}

// Made of the front less the blanks at its ends, and the body.
fn module_of(alloc: Global, front: &str, encoded: &str) -> Result<DataModule, DataError>
    ensures { Gives result (spec.module_of front.now encoded.now) }
{
    let body = body_of(alloc, encoded, is_base64(front))?;
    Ok(DataModule {
        mime: mime_of(alloc, front)?,
        body,
    })
}
