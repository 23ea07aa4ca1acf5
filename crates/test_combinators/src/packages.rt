//! References to packages.

use package_ref::{PackageError, PackageKind, parse_package_ref};
use std::alloc::{AllocError, Global};
use url::Url;

/// The package of a URL, or what the error displays.
pub fn package(alloc: Global, text: &str) -> Result<String, AllocError> {
    if text == "no memory" {
        return format!(in alloc; "{}", PackageError::OutOfMemory);
    }
    match Url::parse(alloc, text) {
        Ok(url) => package_of(alloc, &url),
        Err(_) => String::from_str(alloc, "no URL"),
    }
}

/// Kind, name, requirement and path of the package, where its copy is equal to it.
fn package_of(alloc: Global, url: &Url) -> Result<String, AllocError> {
    match parse_package_ref(alloc, url) {
        Ok(found) => {
            let copy = found.copy()?;
            let other = if copy == found { "" } else { "another " };
            let kind = match copy.kind {
                PackageKind::Npm => "npm",
                PackageKind::Jsr => "jsr",
            };
            let requirement = copy.requirement.as_ref().map_or("-", |t| t.as_str());
            let sub_path = copy.sub_path.as_ref().map_or("-", |t| t.as_str());
            format!(in alloc; "{other}{kind} {} {requirement} {sub_path}", copy.name)
        }
        Err(PackageError::OutOfMemory) => Err(AllocError),
        Err(error) => format!(in alloc; "{error}"),
    }
}
