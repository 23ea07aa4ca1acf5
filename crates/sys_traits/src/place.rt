//! What is at a path of a system in memory, and which calls that refuses.
ghost use Rattle.std.specs.Prelude.{◌≡◌, ◌==◌, slice_index, IfOk, string_bytes};
ghost use Rattle.std.specs.List.{list_any};
ghost use Rattle.sys_traits.specs.Paths as paths;
ghost use Rattle.sys_traits.specs.Memory as spec;

use crate::error::SysErrorKind;
use crate::shared_files::SharedFiles;
use base::Text;
use lexical_path::{parent, path_in};
use std::alloc::{AllocError, Global};

/// What is at a path.
#[derive(Clone, Copy, Debug, PartialEq, Eq)]
pub enum Place {
    File,
    Folder,
    /// Nothing, in a folder that is there.
    Free,
    /// Nothing, and the folder isn't there either.
    Missing,
    /// A file is where the path needs a folder.
    Blocked,
}

/// What a call needs at its path.
#[derive(Clone, Copy, Debug, PartialEq, Eq)]
pub enum Need {
    File,
    /// A file, or a folder where one can be.
    Room,
    /// A folder, or nothing.
    FolderRoom,
    /// A file or a folder.
    Anything,
    /// No file where the path needs a folder.
    Way,
}

/// Why a call that needs this is refused at such a place, if it is.
pub fn refusal_at(need: Need, place: Place) -> Option<SysErrorKind>
    ensures { result ≡ spec.refusal_at need place }
{
    let (absent, file, folder) = match need {
        Need::File => (true, false, true),
        Need::Room => (place == Place::Missing, false, true),
        Need::FolderRoom => (false, true, false),
        Need::Anything => (true, false, false),
        Need::Way => (false, false, false),
    };
    match place {
        Place::Blocked => Some(SysErrorKind::Failed),
        Place::File => file.then_some(SysErrorKind::Failed),
        Place::Folder => folder.then_some(SysErrorKind::Failed),
        Place::Free | Place::Missing => absent.then_some(SysErrorKind::NotFound),
    }
}

/// The place of a path, as seen from the current folder.
#[tactic(auto, unfolding(crate::specs::Paths::spot))]
pub fn spot_in(alloc: Global, folder: &str, path: &str) -> Result<String, AllocError>
    ensures { IfOk result (λ s. string_bytes s ≡ paths.spot folder.now path.now) }
{
    path_in(alloc, folder, path)
}

/// What is at this normalized path.
pub fn place_of(files: &SharedFiles, made: &[Text], path: &str) -> Place
    ensures { result ≡ spec.place_of files.now made.now path.now }
{
    if is_blocked(files, path) {
        Place::Blocked
    } else if is_folder(made, path) {
        Place::Folder
    } else if files.get(path).is_some() {
        Place::File
    } else if is_folder(made, parent_of(path)) {
        Place::Free
    } else {
        Place::Missing
    }
}

/// Whether a file or folder is there.
pub fn is_there(place: Place) -> bool
    ensures { result ≡ spec.is_there place }
{
    match place {
        Place::File | Place::Folder => true,
        Place::Free | Place::Missing | Place::Blocked => false,
    }
}

/// Whether a folder is there: the root, one that was made, or one above it.
pub fn is_folder(made: &[Text], path: &str) -> bool
    ensures { result ≡ spec.is_folder made.now path.now }
{
    path == "/" || has_at_or_below(made, path)
}

/// The folder that a path is in.
pub fn parent_of(path: &str) -> &str
    ensures { result.now ≡ paths.parent_of path.now }
{
    match parent(path) {
        Some(folder) => folder,
        None => "/",
    }
}

// Whether a file is at a prefix of the path that ends before a `/`.
fn is_blocked(files: &SharedFiles, path: &str) -> bool
    ensures { result ≡ spec.is_blocked files.now path.now }
{
    for (end, byte) in path.as_bytes().iter().enumerate() {
        if *byte == b'/' && files.get(&path[..end]).is_some() {
            return true;
        }
    }
    false
}

fn has_at_or_below(made: &[Text], path: &str) -> bool
    ensures { result ≡ list_any (paths.is_at_or_below path.now) made.now }
{
    made.iter()
        .any(|folder| is_at_or_below(path, folder.as_str()))
}

fn is_at_or_below(folder: &str, path: &str) -> bool
    ensures { result ≡ paths.is_at_or_below folder.now path.now }
{
    path == folder || is_below(folder, path)
}

fn is_below(folder: &str, path: &str) -> bool
    ensures { result ≡ paths.is_below folder.now path.now }
{
    path.as_bytes().starts_with(folder.as_bytes()) && has_slash_at(path, folder.len())
}

fn has_slash_at(path: &str, at: usize) -> bool
    ensures { result ≡ slice_index path.now at == 47 }
{
    match path.as_bytes().get(at) {
        Some(byte) => *byte == b'/',
        None => false,
    }
}
