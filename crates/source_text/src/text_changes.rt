//! Changes of a text: each replaces a range of the source by a new text.
//!
//! - `apply_text_changes(source, changes)`: the source between the changes and the new texts, the changes taken by
//!   start, then by end, equal ranges in the order given (`IsChanged`, `specs/text_changes/Changes.antt`); or the first of them
//!   that is faulty, with its number in that order (`IsRefused`). Of no changes it is the source.
//! - `TextChange::copy(change)`: an equal change.
//!
//! Places are bytes of the source, from 0; a range is cut at the source's end. One pass over the source and the
//! changes, once these are sorted. Not promised: when memory runs out, and what `Debug` writes.

mod apply;
mod change;
mod error;

pub use crate::text_changes::apply::apply_text_changes;
pub use crate::text_changes::change::TextChange;
pub use crate::text_changes::error::TextChangeError;
