//! Tables that a graph is built with: values by specifiers, open requests, and a log that proofs alone see.
#![tactic(auto)]

pub mod ghost_log;
pub mod pending_requests;
pub mod specifier_table;
