//! What contracts see of a reached specifier.
use graph_entry::Entry;

/// What is known of a reached specifier, as contracts see it.
#[derive(Drop)]
pub enum Slot {
    /// It waits on the worklist.
    Queued,
    /// The loader was asked for it.
    Asked,
    /// Its entry is there.
    Done(Entry),
}
