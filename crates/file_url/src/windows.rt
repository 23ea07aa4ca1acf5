//! Paths with backslashes and file URLs with hosts, as programs on Windows write them.
ghost use Rattle.std.specs.Prelude.{◌≡◌, ◌≤◌, [], ◌++◌, if◌then◌else◌, true, false, IfOk, OnOk, MatchOption, codes, drop, length, map, slice_index, string_bytes};
ghost use Rattle.std.specs.List.{flat_map, list_all, list_any, prefix_len};
ghost use Rattle.lexical_path.specs.Paths.{texts, path_of};
ghost use Rattle.lexical_path.specs.Specifiers.{begins};
ghost use Rattle.file_url.specs.declared.errors.PathToUrlError.TheVariants.{OutOfMemory};
ghost use Rattle.file_url.specs.Expected.{IsExpected};
ghost use Rattle.file_url.specs.WindowsPaths as spec;

use crate::errors::PathToUrlError;
use crate::from_path::plain_parts;
use crate::text::file_url;
use base::Text;
use lexical_path::{begins, parts};
use percent_encoding::percent_decode_str;
use std::alloc::{AllocError, Global};
use url::{ParseError, Url};

/// The URL of a file's path, which may be one of Windows: with a backslash, `\\HOST\` or `\\?\UNC\HOST\` at its front
/// gives the host, and `\\?\` is taken off.
///
/// `Path` of the path exactly where it has no backslash and a component is `.` or `..`.
pub fn url_from_file_path_wasm(alloc: Global, path: &str) -> Result<Url, PathToUrlError>
    ensures { IsExpected OutOfMemory result (spec.wasm_url_of_path false path.now) }
{
    url_from_path_wasm(alloc, path, false)
}

/// The URL of a folder's path, which ends with `/`; else as `url_from_file_path_wasm`.
pub fn url_from_directory_path_wasm(alloc: Global, path: &str) -> Result<Url, PathToUrlError>
    ensures { IsExpected OutOfMemory result (spec.wasm_url_of_path true path.now) }
{
    url_from_path_wasm(alloc, path, true)
}

#[tactic(auto, unfolding(crate::specs::WindowsPaths::wasm_url_of_path))]
fn url_from_path_wasm(alloc: Global, path: &str, folder: bool) -> Result<Url, PathToUrlError>
    ensures { IsExpected OutOfMemory result (spec.wasm_url_of_path folder path.now) }
{
    if has_backslash(path.as_bytes()) {
        backslash_url(alloc, path, folder)
    } else {
        slash_url(alloc, path, folder)
    }
}

fn has_backslash(path: &[u8]) -> bool
    ensures { result ≡ list_any spec.is_backslash path.now }
{
    path.iter().any(|b| *b == b'\\')
}

// ---- a path without backslash

fn slash_url(alloc: Global, path: &str, folder: bool) -> Result<Url, PathToUrlError>
    ensures { IsExpected OutOfMemory result (spec.slash_url folder path.now) }
{
    if has_dot_component(path) {
        let path = Text::from_str(alloc, path)?;
        return Err(PathToUrlError::Path(path));
    }
    let names = plain_parts(alloc, path)?;
    file_url(alloc, "", folder, names.as_slice())
}

fn has_dot_component(path: &str) -> bool
    ensures { result ≡ spec.has_dot_component path.now }
{
    path == "." || begins(path, "./") || has_parent_dir(path)
}

fn has_parent_dir(path: &str) -> bool
    ensures { result ≡ spec.has_parent_dir path.now }
{
    path.split('/').any(|part| part == "..")
}

// ---- a path with backslashes

fn backslash_url(alloc: Global, path: &str, folder: bool) -> Result<Url, PathToUrlError>
    ensures { IsExpected OutOfMemory result (spec.backslash_url folder (spec.first_step path.now)) }
{
    let (host, rest) = first_step(alloc, path)?;
    let names = backslash_parts(alloc, rest)?;
    file_url(alloc, host, folder, names.as_slice())
}

// The host, and what is left of the path.
fn first_step(alloc: Global, path: &str) -> Result<(&str, &str), AllocError>
    ensures { IfOk result (λ step. spec.IsStep step (spec.first_step path.now)) }
{
    if let Some(next) = after_front(path, "\\\\?\\UNC\\") {
        return host_before(alloc, next, path);
    }
    if let Some(next) = after_front(path, "\\\\?\\") {
        return Ok(("", next));
    }
    match after_front(path, "\\\\") {
        Some(next) => host_before(alloc, next, path),
        None => Ok(("", path)),
    }
}

fn after_front<'a>(text: &'a str, front: &str) -> Option<&'a str>
    ensures { MatchOption result (begins text.now front.now ≡ false)
        (λ rest. (begins text.now front.now ≡ true) × (rest.now ≡ drop (length front.now) text.now)) }
{
    text.strip_prefix(front)
}

// The host before the first backslash and what follows it, where there is one; else no host and the other text.
fn host_before<'a>(
    alloc: Global,
    text: &'a str,
    other: &'a str,
) -> Result<(&'a str, &'a str), AllocError>
    ensures { IfOk result (λ step. spec.IsStep step (spec.host_before text.now other.now)) }
{
    match text.split_once('\\') {
        Some((host, rest)) => {
            if is_host(alloc, host)? {
                Ok((host, rest))
            } else {
                Ok(("", other))
            }
        }
        None => Ok(("", other)),
    }
}

#[tactic(auto, unfolding(crate::specs::WindowsPaths::is_host))]
fn is_host(alloc: Global, text: &str) -> Result<bool, AllocError>
    ensures { IfOk result (λ b. b ≡ spec.is_host text.now) }
{
    if text.is_empty() || !has_host_bytes(text.as_bytes()) {
        return Ok(false);
    }
    is_read(alloc, root_text(alloc, text)?.as_str())
}

fn has_host_bytes(text: &[u8]) -> bool
    ensures { result ≡ list_all spec.is_host_byte text.now }
{
    text.iter().all(|b| b.is_ascii_alphanumeric() || matches!(*b, b'-' | b'.' | b'_' | b'$'))
}

fn root_text(alloc: Global, host: &str) -> Result<String, AllocError>
    ensures { IfOk result (λ s. string_bytes s ≡ spec.root_text host.now) }
{
    let mut text = String::from_str(alloc, "file://")?;
    text.push_str(host)?;
    text.push_str("/")?;
    Ok(text)
}

// Whether a URL is read from the text.
fn is_read(alloc: Global, text: &str) -> Result<bool, AllocError>
    ensures { IfOk result (λ b. b ≡ spec.is_read text.now) }
{
    match Url::parse(alloc, text) {
        Ok(_) => Ok(true),
        Err(ParseError::OutOfMemory | ParseError::Overflow) => Err(AllocError),
        Err(_) => Ok(false),
    }
}

fn backslash_parts(alloc: Global, path: &str) -> Result<Vec<&str>, AllocError>
    ensures { IfOk result (λ v. texts v.items ≡ spec.backslash_parts path.now) }
{
    path.split('\\')
        .filter(|part| !(*part == "." || *part == ".."))
        .skip_while(|part| part.is_empty())
        .collect(alloc)
}

// ---- the path of a URL

/// The path that a file URL is for a program on Windows: with a host `\\HOST` and a backslash before each segment,
/// else the segments after any empty ones at the front with `/` between them, and one before them all unless the
/// first segment is a letter and `:`. Escapes are decoded, with U+FFFD where the bytes are no UTF-8.
pub fn url_to_file_path_wasm(alloc: Global, url: &Url) -> Result<String, AllocError>
    requires { slice_index url.now.path 0 ≡ 47 }
    ensures { IfOk result (λ s. string_bytes s ≡ spec.wasm_path_of_url url.now) }
{
    let segments = parts(alloc, below_root(url.path()), '/')?;
    match url.host_str() {
        Some(host) => share_path(alloc, host, segments.as_slice()),
        None => local_path(alloc, segments.as_slice()),
    }
}

fn below_root(path: &str) -> &str
    requires { slice_index path.now 0 ≡ 47 }
    ensures { result.now ≡ drop 1 path.now }
{
    match path.strip_prefix('/') {
        Some(rest) => rest,
        None => path,
    }
}

fn share_path(alloc: Global, host: &str, segments: &[&str]) -> Result<String, AllocError>
    ensures { IfOk result (λ s. string_bytes s ≡ spec.share_path host.now (texts segments.now)) }
{
    let mut path = String::from_str(alloc, "\\\\")?;
    path.push_str(host)?;
    push_share_parts(alloc, &mut path, segments)?;
    Ok(path)
}

fn push_share_parts(alloc: Global, path: &mut String, segments: &[&str]) -> Result<(), AllocError>
    ensures { OnOk result (string_bytes path.new
        ≡ string_bytes path.old ++ flat_map spec.share_part (texts segments.now)) }
{
    for segment in segments {
        push_share_part(alloc, path, segment)?;
    }
    Ok(())
}

fn push_share_part(alloc: Global, path: &mut String, segment: &str) -> Result<(), AllocError>
    ensures { OnOk result (string_bytes path.new ≡ string_bytes path.old ++ spec.share_part segment.now) }
{
    path.push_str("\\")?;
    push_decoded(alloc, path, segment)
}

fn push_decoded(alloc: Global, path: &mut String, segment: &str) -> Result<(), AllocError>
    ensures { OnOk result (string_bytes path.new ≡ string_bytes path.old ++ spec.decoded segment.now) }
{
    let decoded = percent_decode_str(segment).decode_utf8_lossy(alloc)?;
    path.push_str(decoded.as_str())
}

fn local_path(alloc: Global, segments: &[&str]) -> Result<String, AllocError>
    ensures { IfOk result (λ s. string_bytes s ≡ spec.local_path (texts segments.now)) }
{
    let absolute = !starts_with_drive(segments);
    decoded_path(alloc, absolute, without_empty_front(segments))
}

fn starts_with_drive(segments: &[&str]) -> bool
    ensures { result ≡ spec.starts_with_drive (texts segments.now) }
{
    match segments {
        [first, ..] => is_drive(first.as_bytes()),
        [] => false,
    }
}

fn is_drive(segment: &[u8]) -> bool
    ensures { result ≡ spec.is_drive segment.now }
{
    match segment {
        [letter, colon] => letter.is_ascii_alphabetic() && *colon == b':',
        _ => false,
    }
}

fn without_empty_front<'a, 'b>(segments: &'a [&'b str]) -> &'a [&'b str]
    ensures { texts result.now ≡ spec.without_empty_front (texts segments.now) }
{
    &segments[empty_front(segments)..]
}

// How many empty segments are at the front.
fn empty_front(segments: &[&str]) -> usize
    ensures value { result ≡ prefix_len (λ segment. spec.is_empty_part segment.now) segments.now }
    ensures within { result ≤ length segments.now }
{
    segments
        .iter()
        .take_while(|segment| segment.is_empty())
        .count()
}

fn decoded_path(alloc: Global, absolute: bool, segments: &[&str]) -> Result<String, AllocError>
    ensures { IfOk result (λ s. string_bytes s ≡ path_of absolute (map spec.decoded (texts segments.now))) }
{
    let mut path = String::new(alloc);
    if absolute {
        path.push('/')?;
    }
    for (i, segment) in segments.iter().enumerate() {
        push_segment(alloc, &mut path, i == 0, segment)?;
    }
    Ok(path)
}

// Puts one more decoded segment at the end.
fn push_segment(
    alloc: Global,
    path: &mut String,
    first: bool,
    segment: &str,
) -> Result<(), AllocError>
    ensures { OnOk result (string_bytes path.new
        ≡ string_bytes path.old ++ (if first then [] else codes "/") ++ spec.decoded segment.now) }
{
    if !first {
        path.push('/')?;
    }
    push_decoded(alloc, path, segment)
}
