//! What a `data:` URL holds (Fetch Standard, "`data:` URL processor").
//!
//! - `parse_data(url)`: the media type and the bytes that the URL's text gives (`data_of`, `specs/Data.antt`), or why it
//!   gives none: exactly these, unless memory runs out. The escapes are read by `percent_encoding`, base64 by the strict
//!   engine of `base64`; the rules around them are here (`forgiving_base64`, `specs/Forgiving.antt`).
//! - `DataModule::copy`: an equal value.
//!
//! Laws are in `proofs/Theorems.antt`. Not promised: what `Display` and `Debug` write, and when memory runs out.
#![tactic(auto)]

mod body;
mod data_module;
mod error;
mod front;
mod parse;

pub use crate::data_module::DataModule;
pub use crate::error::DataError;
pub use crate::parse::{parse_data, parse_data_text};
