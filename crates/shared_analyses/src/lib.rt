//! The analyses of a loader's answers, each made where it is first asked for and shared by all threads.
#![tactic(auto)]

mod kept;
mod same;
mod same_url;
mod shared;

pub use shared::{AnalysisNote, SharedAnalyses, SharedEntry};
