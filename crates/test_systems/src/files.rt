//! Files that go where their URLs say, over a system in memory.

use base::{Items, Text};
use deno_path_util::{InMemorySys, url_to_file_path};
use std::alloc::{AllocError, Global};
use test_rows::Row;
use url::Url;
use vendor_files::{VendorFile, VendorWriteError, write_files};

/// What the write of a row's files answers, then what their paths hold and how many calls were made. After the numbers of the
/// calls that fail come how many files there are, and of each its URL and its text. The folder `/v` is there, and in it
/// the file `m1.ts`, which holds `old`.
pub fn files(alloc: Global, row: &Row) -> Result<String, AllocError> {
    let Some(files) = files_of(alloc, row)? else {
        return String::from_str(alloc, "no URL");
    };
    let mut sys = system(alloc, row.at(1))?;
    let result = write_files(alloc, &mut sys, files.as_slice(), 438);
    let mut told = said(alloc, &result)?;
    for file in files.as_slice() {
        told.push_str(held(alloc, &sys, &file.target)?.as_str())?;
    }
    told.push_str(format!(in alloc; "; {} calls", sys.log().len())?.as_str())?;
    Ok(told)
}

fn files_of(alloc: Global, row: &Row) -> Result<Option<Items<VendorFile>>, AllocError> {
    let mut files = Items::new(alloc);
    let mut at = 3usize;
    for _ in 0..row.number(2) {
        let (Ok(source), Ok(target)) = (
            Url::parse(alloc, "file:///source"),
            Url::parse(alloc, row.at(at)),
        ) else {
            return Ok(None);
        };
        let bytes = row.at(at.saturating_add(1)).as_bytes().to_vec(alloc)?;
        files.push(VendorFile {
            source,
            target,
            bytes: Items::from_vec(bytes),
        })?;
        at = at.saturating_add(2);
    }
    Ok(Some(files))
}

fn system(alloc: Global, failing: &str) -> Result<InMemorySys, AllocError> {
    let mut numbers = Items::new(alloc);
    for word in failing.split_whitespace() {
        if let Ok(number) = word.parse::<u64>() {
            numbers.push(number)?;
        }
    }
    let mut files = Items::new(alloc);
    let old = Items::from_vec(b"old".to_vec(alloc)?);
    files.push((Text::from_str(alloc, "/v/m1.ts")?, old))?;
    let mut random = Items::new(alloc);
    random.push(0x3D)?;
    InMemorySys::new(
        alloc,
        files,
        Items::new(alloc),
        Text::from_str(alloc, "/")?,
        random,
        numbers,
    )
}

fn said(alloc: Global, outcome: &Result<(), VendorWriteError>) -> Result<String, AllocError> {
    match outcome {
        Ok(()) => String::from_str(alloc, "written"),
        Err(VendorWriteError::Path(url)) => format!(in alloc; "Path {}", url.as_str()),
        Err(VendorWriteError::System(url, error)) => {
            format!(in alloc; "System {} {:?}", url.as_str(), error.kind)
        }
        Err(VendorWriteError::OutOfMemory) => String::from_str(alloc, "OutOfMemory"),
    }
}

fn held(alloc: Global, sys: &InMemorySys, url: &Url) -> Result<String, AllocError> {
    let Ok(path) = url_to_file_path(alloc, url) else {
        return String::from_str(alloc, "; no path");
    };
    match sys.file(path.as_str()) {
        Some(bytes) => format!(in alloc; "; {path} {}", str::from_utf8(bytes).unwrap_or("bytes")),
        None => format!(in alloc; "; {path} none"),
    }
}
