//! Types of the text, written into a draft: as they stand, or as those of frozen values.
#![tactic(auto)]

mod arrays;
mod kept;
mod members;

pub use kept::kept_type;
