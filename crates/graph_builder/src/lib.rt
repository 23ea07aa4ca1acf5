//! The builder of a graph, over any loader and any ways of reading an answer and of following edges.
//!
//! - `trait Ways`: what an answer means, which edges are followed, and where specifiers lead. `Own` has a caller's own
//!   resolver and analyser.
//! - `CustomBuild::poll`: the graph of the roots and the loader's answers by a caller's own resolver and analyser, or why there
//!   is none yet (`IsGraph`, `specs/Graph.antt`; reached, `specs/Reach.antt`; the causes, `specs/Builder.antt`). `Inner` is the
//!   same over any `Ways`.
//! - `CustomBuild::poll_batched`: the same, where so many answers are taken before any of them is analysed, by halves in
//!   threads of their own (`specs/Batch.antt`).
//! - `Loader`: what a loader's calls do to its data (`specs/Loader.antt`). `MemoryLoader` is one that has its
//!   modules in memory (`specs/Memory.antt`), `UnloggedLoader` the same without a list of what it
//!   was asked and answered.
//! - `ModuleGraph::{roots, referrer_imports, entry, entries}`: look into the graph.
//!
//! It depends on no reader of the grammar: `deno_graph` has the builder whose sources the parser reads.
//! `OutOfMemory` is the one answer that no clause ties to a cause.
#![tactic(auto)]

mod batched;
mod by_number;
mod custom;
mod entries;
mod error;
mod finish;
mod following;
mod graph;
mod inner;
mod links;
mod loader;
mod memory_loader;
mod options;
mod own;
mod progress;
mod reached;
mod reaching;
mod settle;
mod slot;
mod unlogged_loader;
mod ways;

pub use custom::CustomBuild;
pub use entries::Entries;
pub use error::BuildError;
pub use following::Following;
pub use graph::ModuleGraph;
pub use inner::{Inner, Parts};
pub use loader::{Loader, LoaderPoll};
pub use memory_loader::{Arrival, MemoryLoader};
pub use options::BuildOptions;
pub use own::Own;
pub use unlogged_loader::UnloggedLoader;
pub use ways::Ways;
