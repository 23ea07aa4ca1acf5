//! The URL of a path.
ghost use Rattle.std.specs.Prelude.{◌≡◌, true, false, IfOk, IfErr};
ghost use Rattle.std.specs.Cow.{cow_str_bytes};
ghost use Rattle.lexical_path.specs.Paths.{texts, joined_path};
ghost use Rattle.file_url.specs.declared.errors.PathToUrlError.TheVariants as to_url;
ghost use Rattle.file_url.specs.declared.errors.ResolveUrlOrPathError.TheVariants as resolve;
ghost use Rattle.file_url.specs.Expected.{IsExpected};
ghost use Rattle.file_url.specs.FileUrls as spec;

use crate::errors::{PathToUrlError, ResolveUrlOrPathError};
use crate::text::file_url;
use base::Text;
use lexical_path::{join_path, normalize_path, specifier_has_uri_scheme};
use std::alloc::{AllocError, Global};
use std::borrow::CowStr;
use url::{ParseError, Url};

/// The URL of a file's path: of the normalized path, whose names are percent-encoded.
///
/// `Path` of the normalized path exactly where that doesn't begin with `/`.
pub fn url_from_file_path(alloc: Global, path: &str) -> Result<Url, PathToUrlError>
    ensures { IsExpected to_url.OutOfMemory result (spec.url_of_path false path.now) }
{
    url_from_path(alloc, path, false)
}

/// The URL of a folder's path, which ends with `/`; else as `url_from_file_path`.
pub fn url_from_directory_path(alloc: Global, path: &str) -> Result<Url, PathToUrlError>
    ensures { IsExpected to_url.OutOfMemory result (spec.url_of_path true path.now) }
{
    url_from_path(alloc, path, true)
}

fn url_from_path(alloc: Global, path: &str, folder: bool) -> Result<Url, PathToUrlError>
    ensures { IsExpected to_url.OutOfMemory result (spec.url_of_path folder path.now) }
{
    let normal = normalize_path(alloc, CowStr::Borrowed(path))?;
    url_from_normal(alloc, normal.as_str(), folder)
}

fn url_from_normal(alloc: Global, path: &str, folder: bool) -> Result<Url, PathToUrlError>
    ensures { IsExpected to_url.OutOfMemory result (spec.url_of_normal folder path.now) }
{
    if !path.starts_with('/') {
        let path = Text::from_str(alloc, path)?;
        return Err(PathToUrlError::Path(path));
    }
    let names = plain_parts(alloc, path)?;
    file_url(alloc, "", folder, names.as_slice())
}

/// The parts of a path that are neither empty nor `.`.
pub fn plain_parts(alloc: Global, path: &str) -> Result<Vec<&str>, AllocError>
    ensures { IfOk result (λ v. texts v.items ≡ spec.plain_parts path.now) }
{
    path.split('/')
        .filter(|part| !part.is_empty() && *part != ".")
        .collect(alloc)
}

/// Like `url_from_file_path`, of a path as seen from the current folder.
pub fn resolve_path(alloc: Global, path_str: &str, current_dir: &str) -> Result<Url, PathToUrlError>
    ensures { IsExpected to_url.OutOfMemory result (spec.url_of_path false (joined_path current_dir.now path_str.now)) }
{
    let path = join_path(alloc, current_dir, path_str)?;
    url_from_file_path(alloc, path.as_str())
}

/// The URL that the specifier is, where it begins with a scheme, and else that of the path that it is.
///
/// `UrlParse` is the URL Standard's refusal, `PathToUrl` that of `resolve_path`; neither ever says that memory ran out.
pub fn resolve_url_or_path(
    alloc: Global,
    specifier: &str,
    current_dir: &str,
) -> Result<Url, ResolveUrlOrPathError>
    ensures value { IsExpected resolve.OutOfMemory result (spec.url_or_path specifier.now current_dir.now) }
    ensures reason { IfErr result spec.KeepsReason }
{
    if specifier_has_uri_scheme(specifier) {
        match Url::parse(alloc, specifier) {
            Ok(url) => Ok(url),
            Err(error) => Err(url_refusal(error)),
        }
    } else {
        match resolve_path(alloc, specifier, current_dir) {
            Ok(url) => Ok(url),
            Err(error) => Err(path_refusal(error)),
        }
    }
}

fn url_refusal(error: ParseError) -> ResolveUrlOrPathError
    ensures { result ≡ spec.url_refusal error }
{
    match error {
        ParseError::OutOfMemory | ParseError::Overflow => ResolveUrlOrPathError::OutOfMemory,
        _ => ResolveUrlOrPathError::UrlParse(error),
    }
}

fn path_refusal(error: PathToUrlError) -> ResolveUrlOrPathError
    ensures { result ≡ spec.path_refusal error }
{
    match error {
        PathToUrlError::OutOfMemory => ResolveUrlOrPathError::OutOfMemory,
        PathToUrlError::Path(path) => ResolveUrlOrPathError::PathToUrl(PathToUrlError::Path(path)),
    }
}
