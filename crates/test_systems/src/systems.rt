//! Each call of a system in memory, by what it answers and by its entry in the log; real paths.

use base::{Items, Text};
use deno_path_util::canonicalize_path_maybe_not_exists;
use std::alloc::{AllocError, Global};
use sys_traits::{
    AtomicWriteFileWithRetriesSys, FsCanonicalize, InMemorySys, SysCall, SysError, SysFile,
};

fn bytes(alloc: Global, bytes: &[u8]) -> Result<Items<u8>, AllocError> {
    Ok(Items::from_vec(bytes.to_vec(alloc)?))
}

// Files that hold the text `old`, and another one of a path that is given before.
fn files(alloc: Global) -> Result<Items<(Text, Items<u8>)>, AllocError> {
    let mut files = Items::new(alloc);
    for (path, content) in [
        ("f", "old"),
        ("/g/h/k", "old"),
        ("/g", "old"),
        ("../d/f", "new"),
    ] {
        files.push((
            Text::from_str(alloc, path)?,
            bytes(alloc, content.as_bytes())?,
        ))?;
    }
    Ok(files)
}

// A system in the folder `/d`, with the files `/d/f` and `/g/h/k`, and the folder `/d/e/e2`.
fn system(alloc: Global, failing: &[u64]) -> Result<InMemorySys, AllocError> {
    let mut folders = Items::new(alloc);
    folders.push(Text::from_str(alloc, "e/./e2")?)?;
    InMemorySys::new(
        alloc,
        files(alloc)?,
        folders,
        Text::from_str(alloc, "d")?,
        bytes(alloc, &[7, 255])?,
        Items::from_vec(failing.to_vec(alloc)?),
    )
}

// What a call of a file answers.
fn asked<S: AtomicWriteFileWithRetriesSys + FsCanonicalize>(
    alloc: Global,
    sys: &mut S,
    call: &str,
    path: &str,
    more: &str,
) -> Result<(), SysError> {
    match call {
        "open" => sys.fs_open(path, 438).map(|_| ()),
        "write" => match Text::from_str(alloc, path) {
            Ok(path) => sys.fs_write_all(SysFile { id: 0, path }, more.as_bytes()),
            Err(_) => Err(SysError::out_of_memory(alloc)),
        },
        "remove" => sys.fs_remove_file(path),
        "rename" => sys.fs_rename(path, more),
        "make" => sys.fs_create_dir_all(path),
        "sleep" => match sys.thread_sleep_ms(9) {
            Ok(()) => Ok(()),
            Err(_) => Err(SysError::out_of_memory(alloc)),
        },
        "random" => sys.sys_random_u8().map(|_| ()),
        "exists" => sys.fs_exists(path).map(|_| ()),
        _ => sys.fs_canonicalize(path).map(|_| ()),
    }
}

fn said(alloc: Global, outcome: &Result<(), SysError>) -> Result<String, AllocError> {
    match outcome {
        Ok(()) => String::from_str(alloc, "ok"),
        Err(error) => format!(in alloc; "{error}"),
    }
}

// The files that a call left.
fn left(alloc: Global, call: &SysCall) -> Result<String, AllocError> {
    let mut left = String::new(alloc);
    for (path, bytes) in call.files.as_map() {
        left.push_str(" ")?;
        left.push_str(path.as_str())?;
        left.push_str("=")?;
        push_bytes(&mut left, bytes.as_slice())?;
    }
    Ok(left)
}

fn push_bytes(text: &mut String, bytes: &[u8]) -> Result<(), AllocError> {
    for byte in bytes {
        text.push(char::from(*byte))?;
    }
    Ok(())
}

// The log's entry: the call, its second path, its number, and the files that it left.
fn entry(alloc: Global, call: &SysCall) -> Result<String, AllocError> {
    let to = match &call.to {
        Some(to) => to.as_str(),
        None => "-",
    };
    let left = left(alloc, call)?;
    format!(in alloc;
        "{:?} {} {} {}{}",
        call.kind, call.path, to, call.number, left
    )
}

// Makes a call, and reports its answer and its entry; of `file` what the path holds.
fn turn(alloc: Global, sys: &mut InMemorySys, line: &str) -> Result<String, AllocError> {
    let mut words = line.split_whitespace();
    let call = words.next().unwrap_or("");
    let path = words.next().unwrap_or("");
    let more = words.next().unwrap_or("");
    if call == "file" {
        return held(alloc, sys.file(path));
    }
    let outcome = asked(alloc, sys, call, path, more);
    let answer = said(alloc, &outcome)?;
    match sys.log().last() {
        Some(call) => {
            let entry = entry(alloc, call)?;
            format!(in alloc; "{answer}: {entry}")
        }
        None => Ok(answer),
    }
}

fn held(alloc: Global, content: Option<&[u8]>) -> Result<String, AllocError> {
    match content {
        Some(bytes) => {
            let mut text = String::from_str(alloc, "holds ")?;
            push_bytes(&mut text, bytes)?;
            Ok(text)
        }
        None => String::from_str(alloc, "no file"),
    }
}

/// What the last of some calls, separated by `;`, answers.
pub fn turns(alloc: Global, fails: bool, calls: &str) -> Result<String, AllocError> {
    let mut sys = system(alloc, if fails { &[1, 3] } else { &[] })?;
    let mut last = String::new(alloc);
    for line in calls.split(';') {
        last = turn(alloc, &mut sys, line)?;
    }
    Ok(last)
}

/// The real path in the folder `/a/b`, where the folder `/a/b/c` is there, or the refusal.
pub fn real_path(alloc: Global, path: &str, failing: u64) -> Result<String, AllocError> {
    let mut folders = Items::new(alloc);
    folders.push(Text::from_str(alloc, "/a/b/c")?)?;
    let mut numbers = Items::new(alloc);
    numbers.push(failing)?;
    let (none, folder, random) = (
        Items::new(alloc),
        Text::from_str(alloc, "/a/b")?,
        Items::new(alloc),
    );
    let mut sys = InMemorySys::new(alloc, none, folders, folder, random, numbers)?;
    match canonicalize_path_maybe_not_exists(alloc, &mut sys, path) {
        Ok(real) => Ok(real),
        Err(error) => format!(in alloc; "{:?}: {}", error.kind, error),
    }
}
