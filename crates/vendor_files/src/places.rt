//! The paths that files go to.
ghost use Rattle.std.specs.Prelude.{◌≡◌, nat_eq, IfOk, string_bytes};
ghost use Rattle.std.specs.List.{ends_with};
ghost use Rattle.std.specs.Option.{option_copied};
ghost use Rattle.lexical_path.specs.Paths.{normal_path};
ghost use Rattle.vendor_files.specs.Places.{ArePlaced};
ghost use Rattle.vendor_files.specs.Places as spec;

use crate::file::VendorFile;
use base::Text;
use deno_path_util::{UrlToFilePathError, file_name, normalize_path, url_to_file_path};
use indexmap::IndexSet;
use std::alloc::{AllocError, Global};
use std::borrow::CowStr;
use url::Url;

/// Where files go.
#[derive(Drop)]
pub enum Placed {
    /// Their paths, in their order.
    At(IndexSet<Text>),
    /// The new name of the first that can't go where it says.
    Unfit(Url),
}

/// Where the files go.
pub fn places_of(alloc: Global, files: &[VendorFile]) -> Result<Placed, AllocError>
    ensures { IfOk result (ArePlaced files.now) }
{
    let mut paths = IndexSet::new(alloc);
    for file in files {
        let fits = place_next(alloc, &mut paths, &file.target)?;
        if !fits {
            return Ok(Placed::Unfit(file.target.clone()?));
        }
    }
    Ok(Placed::At(paths))
}

// Puts the path of a URL after these, and returns whether a file can go there.
fn place_next(alloc: Global, paths: &mut IndexSet<Text>, url: &Url) -> Result<bool, AllocError>
    ensures { IfOk result (λ yes. spec.IsNext paths.old.keys url.now yes paths.new.keys) }
{
    match fit_path(alloc, url)? {
        Some(path) => Ok(paths.insert(path)?),
        None => Ok(false),
    }
}

// The path that a file with this URL may go to, if no other goes there.
#[tactic(auto, unfolding(crate::specs::Places::fit_path))]
fn fit_path(alloc: Global, url: &Url) -> Result<Option<Text>, AllocError>
    ensures { IfOk result (λ path. path ≡ spec.fit_path url.now) }
{
    match path_at(alloc, url)? {
        Some(path) => {
            if is_lasting(path.as_str()) {
                Ok(Some(path))
            } else {
                Ok(None)
            }
        }
        None => Ok(None),
    }
}

// Whether the path begins at the root and has a file name, which no temporary file has.
#[tactic(auto, unfolding(crate::specs::Places::is_lasting))]
fn is_lasting(path: &str) -> bool
    ensures { result ≡ spec.is_lasting path.now }
{
    path.starts_with('/') && is_lasting_name(file_name(path))
}

fn is_lasting_name(name: Option<&str>) -> bool
    ensures { result ≡ spec.is_lasting_name (option_copied name.entry) }
{
    match name {
        Some(name) => !ends(name, ".tmp"),
        None => false,
    }
}

fn ends(text: &str, back: &str) -> bool
    ensures { result ≡ ends_with nat_eq text.now back.now }
{
    text.ends_with(back)
}

// The path of a `file:` URL, normalized.
fn path_at(alloc: Global, url: &Url) -> Result<Option<Text>, AllocError>
    ensures { IfOk result (λ path. path ≡ spec.path_at url.now) }
{
    match url_to_file_path(alloc, url) {
        Ok(path) => Ok(Some(normalized(alloc, path)?)),
        Err(UrlToFilePathError::Url(_)) => Ok(None),
        Err(UrlToFilePathError::OutOfMemory) => Err(AllocError),
    }
}

fn normalized(alloc: Global, path: String) -> Result<Text, AllocError>
    ensures { IfOk result (λ text. text ≡ normal_path (string_bytes path)) }
{
    let normal = normalize_path(alloc, CowStr::Owned(path))?;
    Ok(Text::from_string(normal.into_owned(alloc)?))
}
