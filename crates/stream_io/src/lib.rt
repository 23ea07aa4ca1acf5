//! std's readers and writers as the sources and sinks of `counted_io`: the trusted edge of the programs.
//!
//! - `ReadSource`: a reader as a source. Each error of the reader is a fault, except an interrupt, after which the call is made
//!   again.
//! - `WriteSink`: a writer as a sink, flushed after each write; the same of its errors.
#![tactic(auto)]

mod adapters;
#[cfg(test)]
mod tests;

pub use crate::adapters::{ReadSource, WriteSink};
