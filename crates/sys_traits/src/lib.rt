//! What a program asks of the system it runs on: files, random bytes and sleep, as traits.
#![tactic(auto)]

mod call;
mod error;
mod file;
mod file_map;
mod in_memory;
mod place;
mod shared_files;
mod traits;

pub use call::{SysCall, SysCallKind};
pub use error::{SysError, SysErrorKind};
pub use file::SysFile;
pub use file_map::FileBytes;
pub use in_memory::InMemorySys;
pub use shared_files::SharedFiles;
pub use traits::{
    AtomicWriteFileSys, AtomicWriteFileWithRetriesSys, FsCanonicalize, FsCreateDirAll, FsMetadata,
    FsOpen, FsRemoveFile, FsRename, SysState, SystemRandom, ThreadSleep,
};
