//! A file of a plan, and why files aren't written.
use base::Items;
use sys_traits::SysError;
use url::Url;

/// A module as a file of the folder.
#[derive(Drop)]
pub struct VendorFile {
    /// Its specifier in the graph.
    pub source: Url,
    /// Its new one.
    pub target: Url,
    pub bytes: Items<u8>,
}

/// Why the files aren't all written.
#[derive(Drop)]
pub enum VendorWriteError {
    /// The new name of the first file that can't go where its name says: it is no `file:` URL of a path, its path has no
    /// file name or ends with `.tmp`, or a file before it has the same path. Nothing is written.
    Path(Url),
    /// The new name of a file that the system refused six times, and its last refusal. Those before it are written.
    System(Url, SysError),
    /// Memory ran out. The files in front are written, up to some file, and the others are as they were.
    OutOfMemory,
}
