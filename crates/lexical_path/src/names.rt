//! The parts of one path, and a path below a folder.
ghost use Rattle.std.specs.Prelude.{◌≡◌, IfOk, string_bytes};
ghost use Rattle.std.specs.Option.{option_copied};
ghost use Rattle.lexical_path.specs.Paths as spec;

use crate::normalize::normalize_path;
use std::alloc::{AllocError, Global};
use std::borrow::CowStr;
use std::path::Path;

/// The path as seen from a folder: an absolute one stands for itself, and any other follows the folder and a `/`,
/// unless the folder is empty or ends with one.
pub fn join_path(alloc: Global, folder: &str, path: &str) -> Result<String, AllocError>
    ensures { IfOk result (λ s. string_bytes s ≡ spec.joined_path folder.now path.now) }
{
    let joined = Path::new(folder).join(alloc, path)?;
    Ok(joined.into_string())
}

/// The normalized path as seen from a folder.
pub fn path_in(alloc: Global, folder: &str, path: &str) -> Result<String, AllocError>
    ensures { IfOk result (λ s. string_bytes s ≡ spec.path_in folder.now path.now) }
{
    let joined = join_path(alloc, folder, path)?;
    normalize_path(alloc, CowStr::Owned(joined))?.into_owned(alloc)
}

/// The last component, unless there is none or it is `/`, `.` or `..`.
pub fn file_name(path: &str) -> Option<&str>
    ensures { option_copied result ≡ spec.file_name path.now }
{
    Path::new(path).file_name()
}

/// What precedes the last component. The root and the empty path have none.
pub fn parent(path: &str) -> Option<&str>
    ensures { option_copied result ≡ spec.parent path.now }
{
    match Path::new(path).parent() {
        Some(parent) => Some(parent.as_str()),
        None => None,
    }
}

/// The path itself: only paths of Windows have such a prefix.
pub fn strip_unc_prefix(path: String) -> String
    ensures { result ≡ path }
{
    path
}
