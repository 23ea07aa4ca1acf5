//! Atomic writes over a system in memory, read from its log.

use base::{Items, Text};
use deno_path_util::{
    AtomicWriteFileWithRetriesSys, InMemorySys, SysCall, SysError, atomic_write_file,
    atomic_write_file_with_retries, file_name, get_atomic_path,
};
use std::alloc::{AllocError, Global};

/// The calls that sleep between six tries.
const SLEEPS: [usize; 5] = [8, 17, 26, 35, 44];

fn bytes(alloc: Global, bytes: &[u8]) -> Result<Items<u8>, AllocError> {
    Ok(Items::from_vec(bytes.to_vec(alloc)?))
}

// The file `/z`, which holds `other`, and where `old` isn't empty, `/a/b/c`.
fn files(alloc: Global, old: &str) -> Result<Items<(Text, Items<u8>)>, AllocError> {
    let mut files = Items::new(alloc);
    for (path, content) in [("/a/b/c", old), ("/z", "other")] {
        if !content.is_empty() {
            files.push((
                Text::from_str(alloc, path)?,
                bytes(alloc, content.as_bytes())?,
            ))?;
        }
    }
    Ok(files)
}

// A system with these files and the random byte 3D.
fn system(alloc: Global, old: &str, failing: &[u64]) -> Result<InMemorySys, AllocError> {
    InMemorySys::new(
        alloc,
        files(alloc, old)?,
        Items::new(alloc),
        Text::from_str(alloc, "/")?,
        bytes(alloc, &[0x3D])?,
        Items::from_vec(failing.to_vec(alloc)?),
    )
}

fn reads(call: &SysCall, path: &str, expected: &str) -> bool {
    match call.files.get(path) {
        Some(bytes) => bytes == expected.as_bytes(),
        None => expected.is_empty(),
    }
}

// After each call the path reads its old content or the new one, and no other file but the temporary one changed.
fn is_lawful(log: &[SysCall], old: &str) -> bool {
    for call in log {
        if !reads(call, "/z", "other") {
            return false;
        }
        if !reads(call, "/a/b/c", old) && !reads(call, "/a/b/c", "new") {
            return false;
        }
    }
    true
}

// At the end the path reads the new content after a success, and its old one after a refusal.
fn ends_well(log: &[SysCall], done: bool, old: &str) -> bool {
    match log.last() {
        Some(call) => reads(call, "/a/b/c", if done { "new" } else { old }),
        None => !done,
    }
}

fn said(alloc: Global, answer: &Result<(), SysError>) -> Result<String, AllocError> {
    match answer {
        Ok(()) => String::from_str(alloc, "ok"),
        Err(error) => format!(in alloc; "{:?}: {}", error.kind, error),
    }
}

// A call, where it is none for a random byte that was given.
fn line(alloc: Global, call: &SysCall) -> Result<String, AllocError> {
    if call.path.is_empty() && call.number == 0x3D {
        return Ok(String::new(alloc));
    }
    let end = if call.refusal.is_some() {
        " refused;"
    } else {
        ";"
    };
    format!(in alloc; "{:?} {} {}{}", call.kind, call.path, call.number, end)
}

fn calls(alloc: Global, log: &[SysCall]) -> Result<String, AllocError> {
    let mut lines = String::new(alloc);
    for call in log {
        lines.push_str(line(alloc, call)?.as_str())?;
    }
    Ok(lines)
}

fn written<S: AtomicWriteFileWithRetriesSys>(
    alloc: Global,
    sys: &mut S,
    retries: bool,
) -> Result<(), SysError> {
    if retries {
        atomic_write_file_with_retries(alloc, sys, "/a/b/c", b"new", 438)
    } else {
        atomic_write_file(alloc, sys, "/a/b/c", b"new", 438)
    }
}

/// The temporary path of a path, where the drawn bytes are 3D.
pub fn temporary(alloc: Global, path: &str) -> Result<String, AllocError> {
    if file_name(path).is_none() {
        return String::from_str(alloc, "no name");
    }
    let mut sys = system(alloc, "", &[])?;
    match get_atomic_path(alloc, &mut sys, path) {
        Ok(temporary) => Ok(temporary),
        Err(error) => format!(in alloc; "{error}"),
    }
}

/// What a write of `/a/b/c` answers where that file holds `old`, or isn't there, and one call fails; then whether each
/// state is lawful, and the calls.
pub fn write(alloc: Global, old: &str, failing: u64) -> Result<String, AllocError> {
    let mut sys = system(alloc, old, &[failing])?;
    let result = written(alloc, &mut sys, false);
    let (answer, made) = (said(alloc, &result)?, calls(alloc, sys.log())?);
    format!(in alloc; "{answer}, lawful {}: {made}", is_lawful(sys.log(), old))
}

/// Whether the law holds of a write where two calls fail: in each state, and at the end.
pub fn law(alloc: Global, old: &str, first: u64, second: u64) -> Result<String, AllocError> {
    let mut sys = system(alloc, old, &[first, second])?;
    let done = written(alloc, &mut sys, false).is_ok();
    let (log, lawful) = (sys.log(), is_lawful(sys.log(), old));
    format!(in alloc; "lawful {lawful}, ends well {}", ends_well(log, done, old))
}

/// A write of which every rename fails: what it answers, how many calls it makes, how long it sleeps between the tries,
/// whether it is lawful, and whether it leaves a temporary file.
pub fn six_tries(alloc: Global) -> Result<String, AllocError> {
    let mut sys = system(alloc, "old", &[6, 15, 24, 33, 42, 51])?;
    let result = written(alloc, &mut sys, true);
    let answer = said(alloc, &result)?;
    let sleeps = sleeps(alloc, sys.log())?;
    let (log, lawful) = (sys.log(), is_lawful(sys.log(), "old"));
    let (ends, rest) = (
        ends_well(log, false, "old"),
        sys.file("/a/b/c.3d3d3d3d.tmp").is_some(),
    );
    format!(in alloc;
        "{answer}: {} calls, sleeps {sleeps}lawful {lawful}, ends well {ends}, left {rest}",
        log.len()
    )
}

fn sleeps(alloc: Global, log: &[SysCall]) -> Result<String, AllocError> {
    let mut told = String::new(alloc);
    for at in SLEEPS {
        if let Some(call) = log.get(at) {
            told.push_str(format!(in alloc; "{} ", call.number)?.as_str())?;
        }
    }
    Ok(told)
}
