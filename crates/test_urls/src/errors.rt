//! Copies of errors, and what memory that ran out displays.

use file_url::{
    PathToUrlError, ResolveUrlOrPathError, SpecifierError, UrlToFilePathError, resolve_import,
    resolve_url_or_path,
};
use std::alloc::{AllocError, Global};
use url::Url;

/// What the call of a name answers.
pub fn of_error(alloc: Global, call: &str) -> Result<String, AllocError> {
    match call {
        "copy of an import's error" => copy_of_an_import(alloc),
        "copy of a path's error" => copy_of_a_path(alloc),
        "no memory" => format!(in alloc;
            "{}, {}, {}, {}",
            SpecifierError::OutOfMemory,
            PathToUrlError::OutOfMemory,
            UrlToFilePathError::OutOfMemory,
            ResolveUrlOrPathError::OutOfMemory
        ),
        _ => String::from_str(alloc, "no such call"),
    }
}

fn copy_of_an_import(alloc: Global) -> Result<String, AllocError> {
    let Ok(referrer) = Url::parse(alloc, "file:///a") else {
        return String::from_str(alloc, "no URL");
    };
    match resolve_import(alloc, "foo", &referrer) {
        Ok(_) => String::from_str(alloc, "a URL"),
        Err(error) => {
            let copy = error.copy()?;
            let (same, other) = (copy == error, error == SpecifierError::OutOfMemory);
            format!(in alloc; "same {same}, no memory {other}")
        }
    }
}

fn copy_of_a_path(alloc: Global) -> Result<String, AllocError> {
    match resolve_url_or_path(alloc, "a", "") {
        Err(ResolveUrlOrPathError::PathToUrl(error)) => {
            let copy = error.copy()?;
            let (same, other) = (copy == error, error == PathToUrlError::OutOfMemory);
            let whole = ResolveUrlOrPathError::PathToUrl(error);
            let copies = whole.copy()? == whole;
            format!(in alloc; "same {same}, no memory {other}, whole {copies}")
        }
        _ => String::from_str(alloc, "a URL"),
    }
}
