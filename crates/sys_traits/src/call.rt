//! The calls that a system's log holds.
use crate::error::SysErrorKind;
use crate::shared_files::SharedFiles;
use base::Text;

/// Which call it was.
#[derive(Clone, Copy, Debug, PartialEq, Eq)]
pub enum SysCallKind {
    Canonicalize,
    CreateDirAll,
    Exists,
    Open,
    WriteAll,
    Remove,
    Rename,
    Random,
    Sleep,
}

/// One call of a system, as it was asked and answered.
#[derive(Debug, Drop)]
pub struct SysCall {
    pub kind: SysCallKind,
    /// The path as given; of a write that of the open file; empty for random bytes and sleep.
    pub path: Text,
    /// A rename's second path, or the path that a canonicalizing call answered.
    pub to: Option<Text>,
    /// An opening's mode, a random byte, a sleep's milliseconds, or 1 where an existence call answered true; else 0.
    pub number: u64,
    /// Why the call was refused, if it was.
    pub refusal: Option<SysErrorKind>,
    /// The files that the call left, each with its normalized path.
    pub files: SharedFiles,
}
