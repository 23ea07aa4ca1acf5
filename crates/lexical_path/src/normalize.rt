//! Paths without `.` and `..`.
ghost use Rattle.std.specs.Prelude.{◌≡◌, nat_eq, [], ◌++◌, codes, if◌then◌else◌, IfOk, OnOk, string_bytes};
ghost use Rattle.std.specs.List.{ends_with};
ghost use Rattle.std.specs.Cow.{cow_str_bytes};
ghost use Rattle.lexical_path.specs.Paths.{texts};
ghost use Rattle.lexical_path.specs.Paths as spec;

use crate::splits::{has_dots, parts};
use std::alloc::{AllocError, Global};
use std::borrow::CowStr;

/// The path without `.` and `..` components, its names joined by `/`; each `..` takes the name before it away, and
/// never leads past the root or the path's start. A path that has none of these, and no `/` at its end, is answered
/// as it is.
pub fn normalize_path<'a>(alloc: Global, path: CowStr<'a>) -> Result<CowStr<'a>, AllocError>
    ensures value { IfOk result (λ normal. cow_str_bytes normal ≡ spec.normal_path (cow_str_bytes path.entry)) }
    // Normalized once more, the answer is itself.
    ensures again { IfOk result (λ normal. spec.normal_path (cow_str_bytes normal) ≡ cow_str_bytes normal) }
{
    let normal = normal(alloc, path)?;
    Ok(normal)
}

#[tactic(auto, unfolding(crate::specs::Paths::normal_path))]
fn normal<'a>(alloc: Global, path: CowStr<'a>) -> Result<CowStr<'a>, AllocError>
    ensures { IfOk result (λ normal. cow_str_bytes normal ≡ spec.normal_path (cow_str_bytes path.entry)) }
{
    if !needs_normalizing(path.as_str()) {
        return Ok(path);
    }
    let normal = normalized(alloc, path.as_str())?;
    Ok(CowStr::Owned(normal))
}

fn needs_normalizing(path: &str) -> bool
    ensures { result ≡ spec.needs_normalizing path.now }
{
    ends(path, "/") || ends(path, "\\.") || has_dots(path)
}

fn ends(path: &str, back: &str) -> bool
    ensures { result ≡ ends_with nat_eq path.now back.now }
{
    path.ends_with(back)
}

fn normalized(alloc: Global, path: &str) -> Result<String, AllocError>
    ensures { IfOk result (λ s. string_bytes s ≡ spec.path_of (spec.is_absolute path.now) (spec.names_of path.now)) }
{
    let names = names(alloc, path)?;
    path_of(alloc, path.starts_with('/'), names.as_slice())
}

// The names that are left of the path.
fn names(alloc: Global, path: &str) -> Result<Vec<&str>, AllocError>
    ensures { IfOk result (λ v. texts v.items ≡ spec.names_of path.now) }
{
    let parts = parts(alloc, path, '/')?;
    let mut names = Vec::new(alloc);
    for part in &parts {
        take_part(&mut names, part)?;
    }
    Ok(names)
}

// The names after one more part.
fn take_part<'a>(names: &mut Vec<&'a str>, part: &'a str) -> Result<(), AllocError>
    ensures { OnOk result (texts names.new.items ≡ spec.after_part (texts names.old.items) part.now) }
{
    if part.is_empty() || part == "." {
        return Ok(());
    }
    if part == ".." {
        names.pop();
        return Ok(());
    }
    names.push(part)?;
    Ok(())
}

/// The names with `/` between them, and one before them all if asked for.
pub fn path_of(alloc: Global, absolute: bool, names: &[&str]) -> Result<String, AllocError>
    ensures { IfOk result (λ s. string_bytes s ≡ spec.path_of absolute (texts names.now)) }
{
    let mut path = String::new(alloc);
    if absolute {
        path.push('/')?;
    }
    for (i, name) in names.iter().enumerate() {
        push_name(&mut path, i == 0, name)?;
    }
    Ok(path)
}

// Puts one more name at the end.
fn push_name(path: &mut String, first: bool, name: &str) -> Result<(), AllocError>
    ensures { OnOk result (string_bytes path.new
        ≡ string_bytes path.old ++ (if first then [] else codes "/") ++ name.now) }
{
    if !first {
        path.push('/')?;
    }
    path.push_str(name)
}
