//! The words that the program is started with.
//!
//! - `form_of`: the form of the program that they are (`IsForm`, `specs/words/Words.antt`).

mod words;

pub use words::{BATCH, Form, MOST_BATCH, MOST_MODULES, form_of};
