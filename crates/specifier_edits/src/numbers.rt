//! Whether numbers are those of literals, or which is the first that isn't.
ghost use Rattle.std.specs.Prelude.{◌≡◌, ◌<◌, true, false, not, slice_get, length, IfNone, MatchOption};
ghost use Rattle.specifier_edits.specs.Sites.{is_reference};
ghost use Rattle.specifier_edits.specs.Edits.{NamesLiterals};
ghost use Rattle.specifier_edits.specs.Faults.{IsFirstFault};
ghost use Rattle.specifier_edits.specs.Faults as faults;
ghost use Rattle.specifier_edits.specs.Edits as spec;

use es_site::{DependencyKind, Site};

/// Whether the numbers ascend strictly, and each is that of a literal among the sites.
#[tactic(auto, using(crate::proofs::NumberLemmas::names, crate::proofs::NumberLemmas::none_named))]
pub fn name_literals(sites: &[Site], changes: &[(usize, String)]) -> bool
    ensures yes { result ≡ true → NamesLiterals sites.now 0 changes.now }
    ensures no { result ≡ false → ¬ NamesLiterals sites.now 0 changes.now }
{
    ascend(sites, changes)
}

#[tactic(auto, using(std::proofs::lemmas::List::at_drop_more))]
fn ascend(sites: &[Site], changes: &[(usize, String)]) -> bool
    ensures { result ≡ spec.name_literals sites.now 0 changes.now }
{
    let mut from = 0;
    for (number, _) in changes {
        if !is_named(sites, from, *number) {
            return false;
        }
        from = *number + 1;
    }
    true
}

fn is_named(sites: &[Site], from: usize, number: usize) -> bool
    ensures value { result ≡ spec.is_named (slice_get sites.now number) from number }
    ensures within { result ≡ true → number < length sites.now }
{
    match sites.get(number) {
        Some(site) => is_literal(site.kind) && from <= number,
        None => false,
    }
}

fn is_literal(kind: DependencyKind) -> bool
    ensures { result ≡ not (is_reference kind) }
{
    match kind {
        DependencyKind::ReferencePath | DependencyKind::ReferenceTypes => false,
        _ => true,
    }
}

/// Why a change can't be made.
#[derive(Clone, Copy, PartialEq, Debug)]
pub enum ChangeFault {
    /// No site has this number.
    NoSite,
    /// The site is in a comment, so it is no literal.
    NoLiteral,
    /// The number isn't above that of the change before.
    NoOrder,
}

/// The first change that can't be made, by its place among the changes, from 0, and why.
pub fn first_fault(sites: &[Site], changes: &[(usize, String)]) -> Option<(usize, ChangeFault)>
    ensures { MatchOption result (NamesLiterals sites.now 0 changes.now)
        (λ found. IsFirstFault sites.now 0 changes.now found.0 found.1) }
{
    search(sites, changes)
}

#[tactic(auto, using(std::proofs::lemmas::List::at_drop_more))]
fn search(sites: &[Site], changes: &[(usize, String)]) -> Option<(usize, ChangeFault)>
    ensures { result ≡ faults.first_fault sites.now 0 0 changes.now }
{
    let mut from = 0;
    for (at, change) in changes.iter().enumerate() {
        if let Some(fault) = fault_at(sites, from, change.0) {
            return Some((at, fault));
        }
        from = change.0 + 1;
    }
    None
}

fn fault_at(sites: &[Site], from: usize, number: usize) -> Option<ChangeFault>
    ensures value { result ≡ faults.fault_at (slice_get sites.now number) from number }
    ensures within { IfNone result (number < length sites.now) }
{
    match sites.get(number) {
        None => Some(ChangeFault::NoSite),
        Some(site) => literal_fault(site.kind, from, number),
    }
}

fn literal_fault(kind: DependencyKind, from: usize, number: usize) -> Option<ChangeFault>
    ensures { result ≡ faults.literal_fault (is_reference kind) from number }
{
    if !is_literal(kind) {
        Some(ChangeFault::NoLiteral)
    } else if number < from {
        Some(ChangeFault::NoOrder)
    } else {
        None
    }
}
