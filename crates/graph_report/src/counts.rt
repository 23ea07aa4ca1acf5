//! How much a graph has: its entries, edges and faults.
ghost use Rattle.std.specs.Prelude.{◌≡◌, ◌+◌, length, count_by, IfOk, string_bytes};
ghost use Rattle.std.specs.List.{sum_by};
ghost use Rattle.graph_report.specs.Summary.{summary_of, counts_line, edge_count, fault_count, entry_faults, own_faults, is_refused};

use crate::reports::{add_number, edges};
use graph_builder::ModuleGraph;
use graph_entry::{Dependency, Entry};
use std::alloc::{AllocError, Global};

#[derive(Drop)]
struct Counts {
    entries: usize,
    edges: usize,
    faults: usize,
}

/// The line of a graph's entries, edges and faults.
pub fn summary(alloc: Global, graph: &ModuleGraph) -> Result<String, AllocError>
    ensures { IfOk result (λ text. string_bytes text ≡ summary_of graph.now) }
{
    let counts = counts_of(graph)?;
    line_of(alloc, &counts)
}

#[tactic(auto, unfolding(crate::specs::Summary::counts_line))]
fn line_of(alloc: Global, counts: &Counts) -> Result<String, AllocError>
    ensures { IfOk result (λ text. string_bytes text ≡ counts_line counts.now.entries counts.now.edges counts.now.faults) }
{
    let mut text = String::from_str(alloc, "entries ")?;
    add_number(&mut text, counts.entries)?;
    text.push_str(" edges ")?;
    add_number(&mut text, counts.edges)?;
    text.push_str(" faults ")?;
    add_number(&mut text, counts.faults)?;
    text.push_str("\n")?;
    Ok(text)
}

// More than can be counted is out of memory.
#[tactic(auto, using(crate::proofs::SummaryLemmas::counted_more))]
fn counts_of(graph: &ModuleGraph) -> Result<Counts, AllocError>
    ensures entries { IfOk result (λ counts. counts.entries ≡ length graph.now.entries) }
    ensures edge_total { IfOk result (λ counts. counts.edges ≡ sum_by edge_count graph.now.entries) }
    ensures faults { IfOk result (λ counts. counts.faults ≡ sum_by fault_count graph.now.entries) }
{
    let mut entries = 0;
    let mut edge_total = 0;
    let mut faults = 0;
    for (specifier, entry) in graph.entries()? {
        // The counts are of entries with their specifiers.
        let _ = specifier;
        entries = sum(entries, 1)?;
        edge_total = sum(edge_total, edges(entry).len())?;
        let own = faults_of(entry)?;
        faults = sum(faults, own)?;
    }
    Ok(Counts {
        entries,
        edges: edge_total,
        faults,
    })
}

/// More than can be counted is out of memory.
pub fn sum(a: usize, b: usize) -> Result<usize, AllocError>
    ensures { IfOk result (λ n. n ≡ a + b) }
{
    a.checked_add(b).ok_or(AllocError)
}

// One for an error, and one for each edge that doesn't resolve.
fn faults_of(entry: &Entry) -> Result<usize, AllocError>
    ensures { IfOk result (λ n. n ≡ entry_faults entry.now) }
{
    sum(own_faults(entry), refused(edges(entry)))
}

fn own_faults(entry: &Entry) -> usize
    ensures { result ≡ own_faults entry.now }
{
    match entry {
        Entry::Error(_) => 1,
        Entry::Redirect(_) | Entry::Module(_) | Entry::Package(_) | Entry::External => 0,
    }
}

fn refused(edges: &[Dependency]) -> usize
    ensures { result ≡ count_by is_refused edges.now }
{
    let mut count = 0;
    for edge in edges {
        if edge.resolution.is_err() {
            count += 1;
        }
    }
    count
}
