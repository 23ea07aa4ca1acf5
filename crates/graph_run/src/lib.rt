//! A whole run: from the bytes of a JSON bundle to the bytes of its graph's report.
//!
//! - `run`: by its arguments, reads a bundle and writes the report of its graph, or writes a made bundle or the counts of its
//!   graph, and answers a `Status` (`Wrote`, `specs/Run.antt`).
//! - `due_for`: what is due for the bytes of an input: a status, and the report or the line of a refusal (`IsDue`). It starts
//!   no thread; `run` has the analyses of a batch run in threads.
//! - `read_once`, `build_batched`, `due_for_fault`: its steps, for what reports something else of a graph, such as `vendor_run`.
//! - `new_build`, `poll_batches`: a builder of a bundle's graph, and polling it to its end, for what changes the builder first.
//! - `report`, `summary`: the text of a graph, its counts: those of `graph_report`.
//! - `read_all`, `write_all`, `Source`, `Sink` and those in memory: what gives and takes bytes, that of `counted_io`.
//!
//! Running out of memory is the one answer without a cause.
#![tactic(auto)]

mod batches;
mod program;
mod resolver;
mod status;
mod verdict;
pub mod words;

pub use batches::{build_batched, poll_batches, read_once};
pub use counted_io::{
    Failed, Faults, INPUT_LIMIT, MemorySink, MemorySource, ReadError, Sink, Source, read_all,
    write_all,
};
pub use graph_report::{report, summary};
pub use program::run;
pub use resolver::BundleResolver;
pub use status::Status;
pub use verdict::{BundleBuild, Due, due_for, due_for_fault, is_not_yet, new_build, refusal};
