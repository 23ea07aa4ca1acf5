//! A history that only proofs read.

mod log;

pub use log::GhostLog;
