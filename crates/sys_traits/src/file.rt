//! An open file.
use base::Text;

/// An open file of a system. Its path is the one that it was opened by.
#[derive(Debug, Drop)]
pub struct SysFile {
    pub id: u64,
    pub path: Text,
}
