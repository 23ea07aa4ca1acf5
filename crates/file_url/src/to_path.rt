//! The parent of a URL, and the path of a file URL.
ghost use Rattle.std.specs.Prelude.{◌≡◌, IfOk, string_bytes};
ghost use Rattle.std.specs.Cow.{cow_str_bytes};
ghost use Rattle.lexical_path.specs.Paths.{texts};
ghost use Rattle.file_url.specs.ToPath as spec;

use crate::errors::UrlToFilePathError;
use lexical_path::{parts, path_of};
use percent_encoding::{DecodeError, percent_decode_str};
use std::alloc::{AllocError, Global};
use std::borrow::CowStr;
use url::Url;

/// The URL with its path up to the last segment that isn't empty, and a `/` after it; the URL itself where all
/// segments are empty. A path that can't be a base and has no more than one part becomes `%2F`.
#[tactic(auto, unfolding(crate::specs::ToPath::url_parent))]
pub fn url_parent(alloc: Global, url: &Url) -> Result<Url, AllocError>
    ensures { IfOk result (λ parent. parent ≡ spec.url_parent url.now) }
{
    let segments = parts(alloc, url.path(), '/')?;
    if all_empty(segments.as_slice()) {
        return url.clone();
    }
    let path = parent_path(alloc, segments)?;
    with_path(url, path.as_str())
}

fn all_empty(segments: &[&str]) -> bool
    ensures { result ≡ spec.all_empty (texts segments.now) }
{
    segments.iter().all(|segment| segment.is_empty())
}

// Only memory, or a URL near 4 GB, bars a new path.
fn with_path(url: &Url, path: &str) -> Result<Url, AllocError>
    ensures { IfOk result (λ new. new ≡ spec.set_path url.now path.now) }
{
    let mut new = url.clone()?;
    match new.set_path(path) {
        Ok(()) => Ok(new),
        Err(_) => Err(AllocError),
    }
}

fn parent_path(alloc: Global, segments: Vec<&str>) -> Result<String, AllocError>
    ensures { IfOk result (λ s. string_bytes s ≡ spec.parent_path (texts segments.entry.items)) }
{
    let mut segments = segments;
    if ends_empty(segments.as_slice()) {
        segments.pop();
    }
    segments.pop();
    let mut path = path_of(alloc, false, segments.as_slice())?;
    path.push_str("/")?;
    Ok(path)
}

fn ends_empty(segments: &[&str]) -> bool
    ensures { result ≡ spec.ends_empty (texts segments.now) }
{
    match segments.last() {
        Some(last) => last.is_empty(),
        None => false,
    }
}

/// The path of a file URL: its percent-decoded path, with a `/` after a letter and `:` or `|` at the end.
///
/// `Url` exactly where the scheme isn't `file`, there is a host, or the decoded path is no UTF-8.
pub fn url_to_file_path(alloc: Global, url: &Url) -> Result<String, UrlToFilePathError>
    ensures { spec.IsPathOf url.now result }
{
    if url.scheme() != "file" || url.has_host() {
        return Err(kept(url));
    }
    match percent_decode_str(url.path()).decode_utf8(alloc) {
        Ok(path) => Ok(with_drive_slash(alloc, path)?),
        Err(DecodeError::Utf8(_)) => Err(kept(url)),
        Err(DecodeError::OutOfMemory) => Err(UrlToFilePathError::OutOfMemory),
    }
}

fn kept(url: &Url) -> UrlToFilePathError
    ensures { spec.KeepsUrl url.now result }
{
    match url.clone() {
        Ok(url) => UrlToFilePathError::Url(url),
        Err(_) => UrlToFilePathError::OutOfMemory,
    }
}

fn with_drive_slash(alloc: Global, path: CowStr<'_>) -> Result<String, AllocError>
    ensures { IfOk result (λ s. string_bytes s ≡ spec.with_drive_slash (cow_str_bytes path.entry)) }
{
    let mut path = path.into_owned(alloc)?;
    if ends_with_drive(path.as_bytes()) {
        path.push_str("/")?;
    }
    Ok(path)
}

fn ends_with_drive(path: &[u8]) -> bool
    ensures { result ≡ spec.ends_with_drive path.now }
{
    match path {
        [.., letter, mark] => letter.is_ascii_alphabetic() && (*mark == b':' || *mark == b'|'),
        _ => false,
    }
}
