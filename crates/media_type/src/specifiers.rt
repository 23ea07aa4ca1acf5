//! Media types by a specifier and by headers.
ghost use Rattle.std.specs.Prelude.{◌≡◌, IfOk};
ghost use Rattle.std.specs.Option.{option_copied, option_map};
ghost use Rattle.media_type.specs.Specifiers as spec;

use crate::media_type::MediaType;
use std::alloc::{AllocError, Global};
use std::collections::BTreeMap;
use url::Url;

impl MediaType {
    /// The media type that a specifier gives: the path of a `data:` URL gives `Unknown`.
    pub fn from_specifier(alloc: Global, specifier: &Url) -> Result<MediaType, AllocError>
        ensures { IfOk result (λ m. m ≡ spec.of_specifier specifier.now) }
    {
        if specifier.scheme() == "data" {
            return Ok(MediaType::Unknown);
        }
        MediaType::of_path(alloc, specifier.path())
    }

    /// The media type of content at a specifier with these headers, whose names are in lower case: what `content-type`
    /// says, over what the specifier gives.
    pub fn from_specifier_and_headers(
        alloc: Global,
        specifier: &Url,
        maybe_headers: Option<&BTreeMap<String, String>>,
    ) -> Result<MediaType, AllocError>
        ensures { IfOk result (λ m. m ≡ spec.by_header (spec.of_specifier specifier.now)
            (spec.content_type_told (option_map (λ h. spec.texts_of h.now.entries) maybe_headers.entry))) }
    {
        let by_path = MediaType::from_specifier(alloc, specifier)?;
        match content_type_told(maybe_headers) {
            Some(header) => by_path.with_content_type(alloc, header),
            None => Ok(by_path),
        }
    }
}

fn content_type_told(maybe_headers: Option<&BTreeMap<String, String>>) -> Option<&str>
    ensures { option_copied result
        ≡ spec.content_type_told (option_map (λ h. spec.texts_of h.now.entries) maybe_headers.entry) }
{
    content_type_in(maybe_headers?)
}

fn content_type_in(headers: &BTreeMap<String, String>) -> Option<&str>
    ensures { option_copied result ≡ spec.content_type_in (spec.texts_of headers.now.entries) }
{
    match headers.get("content-type") {
        Some(value) => Some(value.as_str()),
        None => None,
    }
}
