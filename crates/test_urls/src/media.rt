//! Media types.

use media_type::MediaType;
use std::alloc::{AllocError, Global};
use std::collections::BTreeMap;
use test_rows::Row;
use url::Url;

/// What the call of a row answers of its texts: the name of a media type, or what is reported of one.
pub fn media(alloc: Global, row: &Row) -> Result<String, AllocError> {
    let (text, other) = (row.at(1), row.at(2));
    match row.call() {
        "media path" => String::from_str(alloc, MediaType::of_path(alloc, text)?.name()),
        "media header" => {
            let by_path = MediaType::of_path(alloc, text)?;
            String::from_str(alloc, by_path.with_content_type(alloc, other)?.name())
        }
        "media specifier" => specifier(alloc, text, None),
        "media specifier and header" => specifier(alloc, text, Some(other)),
        "media kind" => kind(alloc, text),
        _ => String::from_str(alloc, "no such call"),
    }
}

/// The media type of a specifier, and of its content's header where it has one.
fn specifier(alloc: Global, text: &str, header: Option<&str>) -> Result<String, AllocError> {
    let Ok(url) = Url::parse(alloc, text) else {
        return String::from_str(alloc, "no URL");
    };
    let headers = headers(alloc, header)?;
    let told = MediaType::from_specifier_and_headers(alloc, &url, Some(&headers))?;
    match header {
        Some(_) => String::from_str(alloc, told.name()),
        None => {
            let alone = MediaType::from_specifier(alloc, &url)?;
            format!(in alloc; "{} {}", told.name(), alone.name())
        }
    }
}

fn headers(
    alloc: Global,
    content_type: Option<&str>,
) -> Result<BTreeMap<String, String>, AllocError> {
    let mut headers = BTreeMap::new(alloc);
    if let Some(content_type) = content_type {
        let name = String::from_str(alloc, "content-type")?;
        let value = String::from_str(alloc, content_type)?;
        let inserted: Result<_, _> = headers.insert(name, value);
        match inserted {
            Ok(_) => {}
            Err(_) => return Err(AllocError),
        }
    }
    Ok(headers)
}

/// How modules of the media type of a path are read, whether they are typed, and whether they are JavaScript.
fn kind(alloc: Global, path: &str) -> Result<String, AllocError> {
    let it = MediaType::of_path(alloc, path)?;
    format!(in alloc;
        "{:?} typed {} javascript {}",
        it.kind(),
        it.is_typed(),
        it.is_javascript()
    )
}
