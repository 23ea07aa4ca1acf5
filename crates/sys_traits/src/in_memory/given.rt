//! What a new system in memory is given.
ghost use Rattle.std.specs.Prelude.{◌≡◌, ◌++◌, map, not, filter, IfOk, OnOk};
ghost use Rattle.sys_traits.specs.Paths.{spot, parent_of, is_at_or_below};
ghost use Rattle.sys_traits.specs.Memory as spec;

use crate::file_map::{FileBytes, FileMap};
use crate::place::{parent_of, spot_in};
use base::{Items, Text};
use std::alloc::{AllocError, Global};

// The path, with a `/` in front where it has none.
pub fn rooted(alloc: Global, path: Text) -> Result<Text, AllocError>
    ensures { IfOk result (λ t. t ≡ spec.rooted path) }
{
    if path.as_str().starts_with('/') {
        return Ok(path);
    }
    let mut rooted = String::from_str(alloc, "/")?;
    rooted.push_str(path.as_str())?;
    Ok(Text::from_string(rooted))
}

// The folders that are given, and those that the files are in.
pub fn folders(
    alloc: Global,
    folder: &str,
    files: &[(Text, Items<u8>)],
    folders: &[Text],
) -> Result<Items<Text>, AllocError>
    ensures { IfOk result (λ made. made ≡ spec.given_folders folder.now files.now folders.now) }
{
    let mut made = Items::new(alloc);
    push_folders(&mut made, folder, folders)?;
    push_parents(&mut made, folder, files)?;
    Ok(made)
}

fn push_folders(made: &mut Items<Text>, folder: &str, folders: &[Text]) -> Result<(), AllocError>
    ensures { OnOk result (made.new ≡ made.old ++ map (λ path. spot folder.now path) folders.now) }
{
    let alloc = made.allocator();
    for path in folders {
        let spot = spot_in(alloc, folder, path.as_str())?;
        made.push(Text::from_string(spot))?;
    }
    Ok(())
}

fn push_parents(
    made: &mut Items<Text>,
    folder: &str,
    files: &[(Text, Items<u8>)],
) -> Result<(), AllocError>
    ensures { OnOk result
        (made.new ≡ made.old ++ map (λ file. parent_of (spot folder.now file.0)) files.now) }
{
    let alloc = made.allocator();
    for file in files {
        let parent = parent_in(alloc, folder, file.0.as_str())?;
        made.push(parent)?;
    }
    Ok(())
}

// The folder that the path is in, as seen from a folder.
fn parent_in(alloc: Global, folder: &str, path: &str) -> Result<Text, AllocError>
    ensures { IfOk result (λ t. t ≡ parent_of (spot folder.now path.now)) }
{
    let spot = spot_in(alloc, folder, path)?;
    Text::from_str(alloc, parent_of(spot.as_str()))
}

// The files that are kept: not those where a folder is.
pub fn files(
    alloc: Global,
    folder: &str,
    made: &[Text],
    files: &[(Text, Items<u8>)],
) -> Result<FileMap, AllocError>
    ensures { IfOk result (λ kept. kept ≡ spec.given_files folder.now made.now files.now) }
{
    let mut kept = placed(alloc, folder, files)?;
    drop(kept.take("/"));
    for path in made {
        take_at_or_above(&mut kept, path.as_str());
    }
    Ok(kept)
}

// The files at their places, from the last to the first, so that the first with a path stays.
fn placed(alloc: Global, folder: &str, files: &[(Text, Items<u8>)]) -> Result<FileMap, AllocError>
    ensures { IfOk result (λ placed. placed ≡ spec.placed_files folder.now files.now) }
{
    let mut placed = FileMap::new(alloc);
    let mut at = files.len();
    while 0 < at {
        at -= 1;
        let spot = spot_in(alloc, folder, files[at].0.as_str())?;
        placed.put(spot, FileBytes::new(alloc, files[at].1.as_slice())?)?;
    }
    Ok(placed)
}

// Removes the files at the folder or above it.
fn take_at_or_above(files: &mut FileMap, folder: &str)
    ensures { files.new ≡ filter (λ file. not (is_at_or_below file.0 folder.now)) files.old }
{
    for (end, byte) in folder.as_bytes().iter().enumerate() {
        if *byte == b'/' {
            drop(files.take(&folder[..end]));
        }
    }
    drop(files.take(folder));
}
