//! File URLs and paths, and the URL that a specifier leads to (URL Standard; HTML, "resolve a module specifier").
//!
//! - `resolve_import(specifier, referrer)`: the URL of an import, or why there is none (`import_of`,
//!   `specs/Imports.antt`); `resolve_import_from` from a referrer whose own reading may have been refused.
//! - `url_from_file_path(path)`, `url_from_directory_path(path)`, `resolve_path(path, folder)`: the URL of a path
//!   (`url_of_path`, `specs/FileUrls.antt`); `resolve_url_or_path(specifier, folder)` of a URL or a path (`url_or_path`).
//! - `url_to_file_path(url)`, `url_parent(url)`: the path of a URL, and its parent (`specs/ToPath.antt`).
//! - The forms in `_wasm`: the same for paths that may have backslashes (`specs/WindowsPaths.antt`).
//!
//! Both ways; besides, only memory may run out, and `OutOfMemory` is a variant of its own, never inside another one. The
//! text of a file URL is never refused (`file_text_is_read`, `proofs/Theorems.antt`).
//! Not promised: what `Debug` writes, and when memory runs out.
#![tactic(auto)]

pub mod canonical_url;
mod errors;
mod from_path;
mod imports;
mod sets;
mod text;
mod to_path;
mod windows;

pub use crate::errors::{
    PathToUrlError, ResolveUrlOrPathError, SpecifierError, UrlToFilePathError,
};
pub use crate::from_path::{
    resolve_path, resolve_url_or_path, url_from_directory_path, url_from_file_path,
};
pub use crate::imports::{resolve_import, resolve_import_from};
pub use crate::to_path::{url_parent, url_to_file_path};
pub use crate::windows::{
    url_from_directory_path_wasm, url_from_file_path_wasm, url_to_file_path_wasm,
};
