//! The text with the specifiers that records tell.
ghost use Rattle.std.specs.Prelude.{◌≡◌, IfOk};
ghost use Rattle.specifier_edits.specs.Sites.{AreSites};
ghost use Rattle.specifier_edits.specs.records.Records.{IsRewritten, IsDone};

use crate::records::records::{SourceChange, Told, changes_of};
use crate::{ChangeFault, first_fault, rewrite_sites};
use es_site::Site;
use std::alloc::{AllocError, Global};

/// What becomes of a text by records.
#[derive(Drop)]
pub enum Rewritten {
    /// The new text.
    Made(String),
    /// The first record whose specifier isn't in the buffer of values, or is no UTF-8.
    NoValue(usize),
    /// The first change that can't be made, and why.
    Faulty(usize, ChangeFault),
}

/// The text with other specifiers at these of its sites.
pub fn rewrite_by_records(
    alloc: Global,
    text: &str,
    sites: &[Site],
    records: &[SourceChange],
    values: &[u8],
) -> Result<Rewritten, AllocError>
    // They are the sites of the text, as it was read.
    requires { AreSites text.now sites.now }
    ensures { IfOk result (IsRewritten text.now sites.now records.now values.now) }
{
    match changes_of(alloc, records, values)? {
        Told::Changes(changes) => by_changes(alloc, text, sites, changes.as_slice()),
        Told::Lost(at) => Ok(Rewritten::NoValue(at)),
    }
}

fn by_changes(
    alloc: Global,
    text: &str,
    sites: &[Site],
    changes: &[(usize, String)],
) -> Result<Rewritten, AllocError>
    requires { AreSites text.now sites.now }
    ensures { IfOk result (IsDone text.now sites.now changes.now) }
{
    match first_fault(sites, changes) {
        Some((at, fault)) => Ok(Rewritten::Faulty(at, fault)),
        None => Ok(Rewritten::Made(rewrite_sites(alloc, text, sites, changes)?)),
    }
}
