//! Specifiers, paths and files: the items of `lexical_path`, `file_url` and `sys_traits` by one name, and files that
//! are replaced in one step.
//!
//! - `atomic_write_file(sys, path, bytes, mode)`: at no moment does the path read anything but its old content or the
//!   bytes, and no other file changes but the temporary one (`WriteLaw`, `specs/WriteLaw.antt`). Which calls it makes, in
//!   order, and which refusal is answered: `IsWrite`, `specs/Course.antt`.
//! - `atomic_write_file_with_retries(sys, path, bytes, mode)`: the same over six tries (`IsTried`, `specs/Tries.antt`).
//! - `get_atomic_path(sys, path)`: the temporary path (`atomic_path`, `specs/Atomic.antt`).
//! - `canonicalize_path_maybe_not_exists(sys, path)`: the real path of what is there, followed by the names that aren't
//!   (`IsClimbed`, `specs/Climb.antt`).
//! - Paths as texts: `normalize_path`, `join_path`, `path_in`, `file_name`, `parent`, `strip_unc_prefix` (`lexical_path`).
//! - Paths and URLs: `url_from_file_path`, `url_to_file_path` and the like, `resolve_import`, `resolve_url_or_path`
//!   (`file_url`); `is_relative_specifier`, `specifier_has_uri_scheme` (`lexical_path`).
//! - The calls of a system as traits, and `InMemorySys`, a system in memory (`sys_traits`).
//!
//! The law and the calls are stated over what the system reports of its files and its log; of one that reports nothing,
//! only the causes of refusals are promised. `OutOfMemory` is the one answer that no clause ties to a cause.
#![tactic(auto)]

mod atomic;
mod canonical;
mod error;
mod pass;
mod retries;
mod temporary;

pub use crate::atomic::atomic_write_file;
pub use crate::canonical::canonicalize_path_maybe_not_exists;
pub use crate::retries::atomic_write_file_with_retries;
pub use crate::temporary::get_atomic_path;
pub use file_url::{
    PathToUrlError, ResolveUrlOrPathError, SpecifierError, UrlToFilePathError, resolve_import,
    resolve_import_from, resolve_path, resolve_url_or_path, url_from_directory_path,
    url_from_directory_path_wasm, url_from_file_path, url_from_file_path_wasm, url_parent,
    url_to_file_path, url_to_file_path_wasm,
};
pub use lexical_path::{
    file_name, has_relative_prefix, is_relative_specifier, join_path, normalize_path, parent,
    path_in, specifier_has_uri_scheme, strip_unc_prefix,
};
pub use sys_traits::{
    AtomicWriteFileSys, AtomicWriteFileWithRetriesSys, FsCanonicalize, FsCreateDirAll, FsMetadata,
    FsOpen, FsRemoveFile, FsRename, InMemorySys, SysCall, SysCallKind, SysError, SysErrorKind,
    SysFile, SysState, SystemRandom, ThreadSleep,
};
