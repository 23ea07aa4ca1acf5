//! Files that the entries of a log share.
ghost use Rattle.std.specs.Prelude.{◌≡◌, IfOk};
ghost use Rattle.std.specs.Option.{option_copied};
ghost use Rattle.sys_traits.specs.Files.{file_at};
ghost use Rattle.sys_traits.specs.Files.{files_of};

use crate::file_map::{FileBytes, FileMap};
use std::alloc::{AllocError, Global};
use std::collections::BTreeMap;
use std::fmt;
use std::marker::Model;
use std::sync::Arc;

/// Files by their normalized paths. They do not change, and copies share them.
#[derive(Drop)]
pub struct SharedFiles {
    inner: Arc<FileMap>,
}

impl Model for SharedFiles {
    ghost use Rattle.std.specs.Arc.{arc_value};
    ghost use Rattle.sys_traits.specs.Files.{Files};

    ghost Value = { Files };

    ghost view = { λ f. arc_value f.inner };
}

impl SharedFiles {
    pub fn new(alloc: Global, files: FileMap) -> Result<SharedFiles, AllocError>
        ensures { IfOk result (λ shared. shared ≡ files) }
    {
        match Arc::new(alloc, files) {
            Ok(inner) => Ok(SharedFiles { inner }),
            Err(_) => Err(AllocError),
        }
    }

    /// Each path with the bytes of its file.
    pub fn as_map(&self) -> &BTreeMap<String, FileBytes>
        ensures { files_of result.now.entries ≡ self.now }
    {
        let files: &FileMap = &self.inner;
        files.as_map()
    }

    /// The bytes of the file at this path.
    pub fn get(&self, path: &str) -> Option<&[u8]>
        ensures { option_copied result ≡ file_at self.now path.now }
    {
        let files: &FileMap = &self.inner;
        files.get(path)
    }

    /// One more reference to the same files.
    pub fn copy(&self) -> Result<SharedFiles, AllocError>
        ensures { IfOk result (λ copy. copy ≡ self.now) }
    {
        Ok(SharedFiles {
            inner: Arc::try_clone(&self.inner)?,
        })
    }

    /// A map of the same files, to be changed.
    pub fn to_map(&self) -> Result<FileMap, AllocError>
        ensures { IfOk result (λ map. map ≡ self.now) }
    {
        let files: &FileMap = &self.inner;
        files.copy()
    }
}

impl fmt::Debug for SharedFiles {
    fn fmt<W: fmt::Write>(&self, f: &mut fmt::Formatter<W>) -> fmt::Result {
        fmt::Debug::fmt(self.as_map(), f)
    }
}
