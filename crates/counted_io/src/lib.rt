//! Bytes that come from a source and go to a sink, whose failures are counted.
//!
//! - `Source`, `Sink`: what gives and takes bytes, counting its failures by `Faults`.
//! - `read_all`, `write_all`: a source whole, a text whole (`specs/Transfer.antt`).
//! - `MemorySource`, `MemorySink`: in memory (`specs/Memory.antt`).
//!
//! Running out of memory is the one answer without a cause.
#![tactic(auto)]

mod faults;
mod memory;
mod sink;
mod source;
mod transfer;

pub use faults::Faults;
pub use memory::{MemorySink, MemorySource};
pub use sink::Sink;
pub use source::{Failed, Source};
pub use transfer::{INPUT_LIMIT, ReadError, read_all, write_all};
