//! What each call answers, as a text.

use crate::errors::of_error;
use crate::media::media;
use file_url::{
    resolve_import, resolve_import_from, resolve_path, resolve_url_or_path,
    url_from_directory_path, url_from_directory_path_wasm, url_from_file_path,
    url_from_file_path_wasm, url_parent, url_to_file_path, url_to_file_path_wasm,
};
use std::alloc::{AllocError, Global};
use std::fmt;
use test_rows::Row;
use url::Url;

/// What the call of a row answers of its texts: a path or the text of a URL, or what the error displays.
pub fn answer(alloc: Global, row: &Row) -> Result<String, AllocError> {
    let (text, other) = (row.at(1), row.at(2));
    match row.call() {
        "import" => import(alloc, text, other),
        "import from" => shown(
            alloc,
            resolve_import_from(alloc, text, &Url::parse(alloc, other)),
        ),
        "file" => shown(alloc, url_from_file_path(alloc, text)),
        "folder" => shown(alloc, url_from_directory_path(alloc, text)),
        "wasm file" => shown(alloc, url_from_file_path_wasm(alloc, text)),
        "wasm folder" => shown(alloc, url_from_directory_path_wasm(alloc, text)),
        "resolve path" => shown(alloc, resolve_path(alloc, text, other)),
        "url or path" => shown(alloc, resolve_url_or_path(alloc, text, other)),
        "parent" | "path" | "wasm path" => of_text(alloc, row.call(), text),
        call if call.starts_with("media ") => media(alloc, row),
        call => of_error(alloc, call),
    }
}

fn shown<E: fmt::Display + Drop>(alloc: Global, got: Result<Url, E>) -> Result<String, AllocError> {
    match got {
        Ok(url) => Ok(url.into()),
        Err(error) => format!(in alloc; "{error}"),
    }
}

fn import(alloc: Global, text: &str, referrer: &str) -> Result<String, AllocError> {
    match Url::parse(alloc, referrer) {
        Ok(referrer) => shown(alloc, resolve_import(alloc, text, &referrer)),
        Err(_) => String::from_str(alloc, "no URL"),
    }
}

fn of_text(alloc: Global, call: &str, text: &str) -> Result<String, AllocError> {
    match Url::parse(alloc, text) {
        Ok(url) => of_url(alloc, call, &url),
        Err(_) => String::from_str(alloc, "no URL"),
    }
}

fn of_url(alloc: Global, call: &str, url: &Url) -> Result<String, AllocError> {
    match call {
        "parent" => shown(alloc, url_parent(alloc, url)),
        "wasm path" => wasm_path_of(alloc, url),
        _ => match url_to_file_path(alloc, url) {
            Ok(path) => Ok(path),
            Err(error) => format!(in alloc; "{error}"),
        },
    }
}

fn wasm_path_of(alloc: Global, url: &Url) -> Result<String, AllocError> {
    if url.path().as_bytes().first() != Some(&b'/') {
        return Ok(String::new(alloc));
    }
    url_to_file_path_wasm(alloc, url)
}
