//! What each call answers, as a text.

use crate::changes::{changed, copy_of_a_change, lengths, text_of};
use crate::places::{line_end, line_of, place};
use crate::values::value;
use data_specifier::{DataError, parse_data};
use lexical_path::{
    begins, file_name, has_dots, has_relative_prefix, is_relative_specifier, join_path,
    normalize_path, parent, parts, path_in, path_of, specifier_has_uri_scheme, strip_unc_prefix,
};
use source_text::text_changes::TextChangeError;
use std::alloc::{AllocError, Global};
use std::borrow::CowStr;
use test_rows::Row;
use url::Url;

/// What the call of a row answers of its texts.
pub fn answer(alloc: Global, row: &Row) -> Result<String, AllocError> {
    let (text, other) = (row.at(1), row.at(2));
    match row.call() {
        "normal" => Ok(normalize_path(alloc, CowStr::Borrowed(text))?.into_owned(alloc)?),
        "joined" => join_path(alloc, text, other),
        "seen from" => path_in(alloc, text, other),
        "name" => String::from_str(alloc, file_name(text).unwrap_or("-")),
        "parent" => String::from_str(alloc, parent(text).unwrap_or("-")),
        "parts" => format!(in alloc; "{:?}", parts(alloc, text, ',')?.as_slice()),
        "path of two" => path_of(alloc, true, &[text, other]),
        "without prefix" => Ok(strip_unc_prefix(String::from_str(alloc, text)?)),
        "data" => data(alloc, text),
        "no memory" => format!(in alloc; "{}", DataError::OutOfMemory),
        call => match test(call, text, other) {
            Some(answer) => format!(in alloc; "{answer}"),
            None => of_text(alloc, row),
        },
    }
}

/// The calls of changes, of places, and of texts and lists.
fn of_text(alloc: Global, row: &Row) -> Result<String, AllocError> {
    let text = row.at(1);
    match row.call() {
        "changed" => changed(alloc, row),
        "no memory for changes" => format!(in alloc; "{}", TextChangeError::OutOfMemory),
        "copy of a change" => copy_of_a_change(alloc),
        "place" => place(alloc, text, row.number(2)),
        "line" => line_of(alloc, text, row.number(2)),
        "line end" => line_end(alloc, text, row.number(2)),
        "bytes" => text_of(alloc, row.bytes(alloc, 1)?.as_slice()),
        "length" => lengths(alloc, text),
        call => value(alloc, call, text),
    }
}

/// What a test of texts answers.
fn test(call: &str, text: &str, other: &str) -> Option<bool> {
    match call {
        "relative" => Some(is_relative_specifier(text)),
        "prefix" => Some(has_relative_prefix(text)),
        "scheme" => Some(specifier_has_uri_scheme(text)),
        "dots" => Some(has_dots(text)),
        "begins" => Some(begins(text, other)),
        _ => None,
    }
}

/// Media type and bytes of a copy of what the URL holds, or what the error displays. One of another scheme holds nothing.
fn data(alloc: Global, text: &str) -> Result<String, AllocError> {
    match Url::parse(alloc, text) {
        Ok(url) => data_of(alloc, &url),
        Err(_) => String::from_str(alloc, "no URL"),
    }
}

fn data_of(alloc: Global, url: &Url) -> Result<String, AllocError> {
    if url.scheme() != "data" {
        return String::from_str(alloc, "NoComma");
    }
    match parse_data(alloc, url) {
        Ok(held) => {
            let copy = held.copy()?;
            format!(in alloc; "{} {:?}", copy.mime, copy.body.as_slice())
        }
        Err(DataError::OutOfMemory) => Err(AllocError),
        Err(error) => format!(in alloc; "{error}"),
    }
}
