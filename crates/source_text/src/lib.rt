//! The text of a source, and its lines and columns.
//!
//! - `SourceText`: a text that shares its bytes with its copies and with whoever gave them: `from_utf8(bytes)` checks
//!   them in place, and `without_mark` leaves one byte order mark out of the view. No call copies the text but
//!   `from_str`.
//! - `SourceTextInfo::line_index(pos)`: the line of a place: the number of line ends before it (`line_index`,
//!   `specs/Lines.antt`).
//! - `line_start(line)`, `line_end(line)`, `line_text(line)`: where a line starts and ends, and the text between
//!   (`IsStart`, `IsEnd`, `IsLineText`).
//! - `range_text(range)`: the text of a range.
//! - `line_and_column_display(pos)`: line and column as people count them (`IsDisplay`).
//!
//! Places are bytes of the text, from 0. Lines count from 0, but from 1 in a `LineAndColumnDisplay`, whose columns
//! count characters from 1. A line ends with U+000A, and a U+000D right before that is no part of the line's text.
//! Each look-up of a line is a binary search. Not promised: when memory runs out, and what `Debug` writes.
#![tactic(auto)]

mod display;
mod info;
pub mod module_text;
mod starts;
mod text;
pub mod text_changes;

pub use crate::display::LineAndColumnDisplay;
pub use crate::info::SourceTextInfo;
pub use crate::text::SourceText;
