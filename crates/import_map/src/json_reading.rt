//! What a JSON value says, or the pointer to the first thing that keeps it from saying it (RFC 6901).
//!
//! - `Reading`: what a value says, or the pointer to what is at fault (`specs/json_reading/Reading.antt`).
//! - `under`, `under_number`, `pointer`, `escaped`: pointers, part by part.
//!
//! Running out of memory is the one answer without a cause.

mod escape;
mod reading;

pub use escape::escaped;
pub use reading::{Reading, pointer, said, under, under_number};
