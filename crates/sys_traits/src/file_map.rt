//! Files in memory by their paths.
ghost use Rattle.std.specs.Prelude.{◌≡◌, [], IfOk, OnOk, is_some, option_map, string_bytes};
ghost use Rattle.std.specs.Option.{option_copied};
ghost use Rattle.sys_traits.specs.Files.{file_at};
ghost use Rattle.sys_traits.specs.Files.{files_of};
ghost use Rattle.sys_traits.specs.Files as spec;

use base::Items;
use std::alloc::{AllocError, Global};
use std::collections::BTreeMap;
use std::fmt;
use std::marker::Model;
use std::sync::Arc;

/// The bytes of a file. They do not change, and clones share them.
#[derive(Drop)]
pub struct FileBytes {
    inner: Arc<Items<u8>>,
}

impl Model for FileBytes {
    ghost use Rattle.std.specs.Prelude.{ℕ, List};
    ghost use Rattle.std.specs.Arc.{arc_value};

    ghost Value = { List ℕ };

    ghost view = { λ b. arc_value b.inner };
}

impl FileBytes {
    pub fn new(alloc: Global, bytes: &[u8]) -> Result<FileBytes, AllocError>
        ensures { IfOk result (λ new. new ≡ bytes.now) }
    {
        let copy = Items::from_vec(bytes.to_vec(alloc)?);
        match Arc::new(alloc, copy) {
            Ok(inner) => Ok(FileBytes { inner }),
            Err(_) => Err(AllocError),
        }
    }

    pub fn as_slice(&self) -> &[u8]
        ensures { result.now ≡ self.now }
    {
        let bytes: &Items<u8> = &self.inner;
        bytes.as_slice()
    }
}

impl Clone for FileBytes {
    ghost is_clone = { λ b c. c ≡ b };

    fn clone(&self) -> Result<FileBytes, AllocError> {
        Ok(FileBytes {
            inner: Arc::try_clone(&self.inner)?,
        })
    }
}

impl fmt::Debug for FileBytes {
    fn fmt<W: fmt::Write>(&self, f: &mut fmt::Formatter<W>) -> fmt::Result {
        fmt::Debug::fmt(&self.as_slice(), f)
    }
}

/// Files by their normalized paths.
#[derive(Debug, Drop)]
pub struct FileMap {
    entries: BTreeMap<String, FileBytes>,
}

impl Model for FileMap {
    ghost use Rattle.sys_traits.specs.Files.{Files};
    ghost use Rattle.sys_traits.specs.Files.{files_of};

    ghost Value = { Files };

    ghost view = { λ m. files_of m.entries.entries };
}

impl FileMap {
    pub fn new(alloc: Global) -> FileMap
        ensures { result ≡ [] }
    {
        FileMap {
            entries: BTreeMap::new(alloc),
        }
    }

    pub fn as_map(&self) -> &BTreeMap<String, FileBytes>
        ensures { files_of result.now.entries ≡ self.now }
    {
        &self.entries
    }

    /// The bytes of the file at this path.
    pub fn get(&self, path: &str) -> Option<&[u8]>
        ensures { option_copied result ≡ file_at self.now path.now }
    {
        match self.entries.get(path) {
            Some(bytes) => Some(bytes.as_slice()),
            None => None,
        }
    }

    /// A map of the same files, which shares their bytes.
    pub fn copy(&self) -> Result<FileMap, AllocError>
        ensures { IfOk result (λ copy. copy ≡ self.now) }
    {
        Ok(FileMap {
            entries: self.entries.clone()?,
        })
    }

    /// Puts these bytes at the path.
    pub fn put(&mut self, path: String, bytes: FileBytes) -> Result<(), AllocError>
        ensures { OnOk result (self.new ≡ spec.with_file self.old (string_bytes path) bytes) }
    {
        drop(self.entries.insert(path, bytes)?);
        Ok(())
    }

    /// Takes the file of the path away.
    pub fn take(&mut self, path: &str) -> Option<FileBytes>
        ensures bytes { result ≡ file_at self.old path.now }
        ensures files { self.new ≡ spec.without_file self.old path.now }
    {
        // The count is not needed, but gives the proof the fact that the paths ascend.
        let _count = self.entries.len();
        self.entries.remove(path)
    }
}
