//! The files of a plan, written to a system one after the other.
//!
//! - `write_files(sys, files, mode)`: each file goes where its URL says, by an atomic write with retries, once all of them
//!   can go there. Which files have their bytes then, and that the others are as they were: `IsWritten`,
//!   `specs/Written.antt`; or the first file that can't go where its URL says: `first_unfit`, `specs/Places.antt`.
//!
//! The states are given by what the system reports of its files and its log; one that reports nothing is promised the causes
//! of refusals alone. Not promised: when memory runs out.
#![tactic(auto)]

mod file;
mod places;
mod write;

pub use crate::file::{VendorFile, VendorWriteError};
pub use crate::write::write_files;
