//! Media types of modules, by the path of a specifier and by the header `content-type`.
//!
//! - `MediaType::of_path(path)`: the media type of the first ending that the path has (`media_type_of`,
//!   `specs/Endings.antt`).
//! - `MediaType::with_content_type(self, header)`: the media type of content with this header, where its path gives
//!   `self` (`with_content_type`, `specs/ContentTypes.antt`).
//! - `MediaType::from_specifier(url)`, `from_specifier_and_headers(url, headers)`: the same of a URL, and of content with
//!   these headers (`of_specifier`, `by_header`, `specs/Specifiers.antt`).
//! - `MediaType::kind`: how a module is read (`kind_of`, `specs/MediaType.antt`); `is_typed`, `is_javascript`, `name`.
//!
//! Memory is the only cause of an `Err`.
#![tactic(auto)]

mod content_types;
mod endings;
mod media_type;
pub mod mime_essence;
mod specifiers;

pub use crate::media_type::{MediaType, ModuleKind};
