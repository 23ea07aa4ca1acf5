//! Paths as texts: nothing here asks a file system.
//!
//! - `normalize_path(path)`: the path without `.` and `..` (`normal_path`, `specs/Paths.antt`). The answer's own
//!   answer is itself (`normal_path_again`, `proofs/Theorems.antt`).
//! - `join_path(folder, path)`, `path_in(folder, path)`: the path as seen from a folder, as it is and normalized
//!   (`joined_path`, `path_in`).
//! - `file_name(path)`, `parent(path)`: the last component and what precedes it (`file_name`, `parent`).
//! - `strip_unc_prefix(path)`: the path.
//! - `is_relative_specifier(text)`, `specifier_has_uri_scheme(text)`, `has_relative_prefix(text)`: tests of the front
//!   of a specifier (`specs/Specifiers.antt`).
//!
//! Paths are UTF-8, their parts are separated by `/`, and there are no drive letters. Not promised: when memory runs out.
#![tactic(auto)]

mod names;
mod normalize;
mod specifiers;
mod splits;

pub use crate::names::{file_name, join_path, parent, path_in, strip_unc_prefix};
pub use crate::normalize::{normalize_path, path_of};
pub use crate::specifiers::{
    begins, has_relative_prefix, is_relative_specifier, specifier_has_uri_scheme,
};
pub use crate::splits::{has_dots, parts};
