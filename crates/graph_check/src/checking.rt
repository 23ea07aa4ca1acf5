//! The check of a graph.
ghost use Rattle.std.specs.Prelude.{◌≡◌, ◌∷◌, [], ◌+◌, map, IfOk};
ghost use Rattle.std.specs.List.{flat_map};
ghost use Rattle.graph_policy.specs.Breach as rules;
ghost use Rattle.graph_check.specs.Check.{kept, look_from, look_of, look_on, thing_of};
ghost use Rattle.graph_check.specs.SeenGraph.{edge, held, things_in, outside_things, entry_things, entry_seen, seen_of};

use crate::seen::{edge_seen, edges_seen, module_in, module_seen};
use base::Items;
use graph_builder::ModuleGraph;
use graph_entry::{Dependency, Entry};
use graph_policy::{Breach, Policy, SeenEntry, edge_breach, entry_breach, module_breach};
use graph_report::edges;
use std::alloc::{AllocError, Global};
use url::Url;

/// A thing of a graph that rules look at.
#[derive(Clone, Copy)]
pub enum Thing<'a> {
    /// An entry, with its specifier.
    Entry(&'a Url, &'a Entry),
    /// An edge, with the specifier of its module, or of the place outside that imports.
    Edge(&'a Url, &'a Dependency),
}

/// The first thing that breaks a rule.
#[derive(Clone, Copy)]
pub struct Found<'a> {
    /// So many things before it break none.
    pub at: usize,
    pub breach: Breach,
    pub thing: Thing<'a>,
}

/// What rules say of a graph.
#[derive(Clone, Copy)]
pub enum Verdict<'a> {
    /// So many entries and edges were looked at, and none breaks a rule.
    Kept(usize),
    Broken(Found<'a>),
}

/// The first entry or edge that breaks a rule, in the report's order: the edges of places outside, then each entry and its edges.
/// More than can be counted is out of memory.
#[tactic(auto, unfolding(crate::specs::SeenGraph::things_in), using(crate::proofs::CheckLemmas::look_joined))]
pub fn check<'a>(
    alloc: Global,
    policy: &Policy,
    graph: &'a ModuleGraph,
) -> Result<Verdict<'a>, AllocError>
    ensures { IfOk result (λ verdict. look_of verdict ≡ look_from policy.now graph.now 0 (things_in graph.now)) }
{
    let outside = outside_checked(alloc, policy, graph, graph.referrer_imports())?;
    entries_checked(alloc, policy, graph, outside)
}

// What places outside import.
fn outside_checked<'a>(
    alloc: Global,
    policy: &Policy,
    graph: &'a ModuleGraph,
    places: &'a [(Url, Items<Dependency>)],
) -> Result<Verdict<'a>, AllocError>
    ensures { IfOk result (λ verdict. look_of verdict
        ≡ look_from policy.now graph.now 0 (flat_map outside_things places.now)) }
{
    let mut verdict = Verdict::Kept(0);
    for place in places {
        verdict = edges_checked(alloc, policy, graph, &place.0, place.1.as_slice(), verdict)?;
    }
    Ok(verdict)
}

// The entries and their edges, behind what was looked at before.
#[tactic(auto, using(crate::proofs::CheckLemmas::entries_more))]
fn entries_checked<'a>(
    alloc: Global,
    policy: &Policy,
    graph: &'a ModuleGraph,
    before: Verdict<'a>,
) -> Result<Verdict<'a>, AllocError>
    ensures { IfOk result (λ verdict. look_of verdict
        ≡ look_on policy.now graph.now (look_of before.entry) (flat_map entry_things graph.now.entries)) }
{
    let mut verdict = before;
    for (specifier, entry) in graph.entries()? {
        verdict = entry_checked(alloc, policy, graph, specifier, entry, verdict)?;
    }
    Ok(verdict)
}

// An entry and its edges.
fn entry_checked<'a>(
    alloc: Global,
    policy: &Policy,
    graph: &'a ModuleGraph,
    specifier: &'a Url,
    entry: &'a Entry,
    before: Verdict<'a>,
) -> Result<Verdict<'a>, AllocError>
    ensures { IfOk result (λ verdict. look_of verdict
        ≡ look_on policy.now graph.now (look_of before.entry) (entry_things (specifier.now, entry.now))) }
{
    let own = checked(alloc, policy, graph, Thing::Entry(specifier, entry), before)?;
    edges_checked(alloc, policy, graph, specifier, edges(entry), own)
}

// The edges of one module.
fn edges_checked<'a>(
    alloc: Global,
    policy: &Policy,
    graph: &'a ModuleGraph,
    from: &'a Url,
    edges: &'a [Dependency],
    before: Verdict<'a>,
) -> Result<Verdict<'a>, AllocError>
    ensures { IfOk result (λ verdict. look_of verdict
        ≡ look_on policy.now graph.now (look_of before.entry) (map (edge from.now) edges.now)) }
{
    let mut verdict = before;
    for dependency in edges {
        verdict = checked(alloc, policy, graph, Thing::Edge(from, dependency), verdict)?;
    }
    Ok(verdict)
}

// One more thing, behind what was looked at before.
fn checked<'a>(
    alloc: Global,
    policy: &Policy,
    graph: &ModuleGraph,
    thing: Thing<'a>,
    before: Verdict<'a>,
) -> Result<Verdict<'a>, AllocError>
    ensures { IfOk result (λ verdict. look_of verdict
        ≡ look_on policy.now graph.now (look_of before.entry) (thing_of thing.entry ∷ [])) }
{
    match before {
        Verdict::Kept(count) => first_checked(alloc, policy, graph, thing, count),
        Verdict::Broken(_) => Ok(before),
    }
}

fn first_checked<'a>(
    alloc: Global,
    policy: &Policy,
    graph: &ModuleGraph,
    thing: Thing<'a>,
    at: usize,
) -> Result<Verdict<'a>, AllocError>
    ensures { IfOk result (λ verdict. look_of verdict ≡ look_from policy.now graph.now at (thing_of thing.entry ∷ [])) }
{
    match breach_in(alloc, policy, graph, thing)? {
        Some(breach) => Ok(Verdict::Broken(Found { at, breach, thing })),
        None => Ok(Verdict::Kept(one_more(at)?)),
    }
}

fn one_more(count: usize) -> Result<usize, AllocError>
    ensures { IfOk result (λ n. n ≡ count + 1) }
{
    count.checked_add(1).ok_or(AllocError)
}

fn breach_in(
    alloc: Global,
    policy: &Policy,
    graph: &ModuleGraph,
    thing: Thing<'_>,
) -> Result<Option<Breach>, AllocError>
    ensures { IfOk result (λ breach. breach ≡ rules.breach_of policy.now (seen_of graph.now (thing_of thing.entry))) }
{
    match thing {
        Thing::Entry(specifier, entry) => breach_of_entry(alloc, policy, graph, specifier, entry),
        Thing::Edge(from, dependency) => {
            let seen = edge_seen(graph, module_in(graph, from), dependency);
            Ok(edge_breach(&policy.edges, &seen))
        }
    }
}

#[tactic(auto, unfolding(graph_policy::specs::Breach::entry_breach), using(crate::proofs::CheckLemmas::nothing_lacking))]
fn breach_of_entry<'a>(
    alloc: Global,
    policy: &Policy,
    graph: &'a ModuleGraph,
    specifier: &'a Url,
    entry: &'a Entry,
) -> Result<Option<Breach>, AllocError>
    ensures { IfOk result (λ breach. breach ≡ rules.entry_breach policy.now (entry_seen graph.now specifier.now entry.now)) }
{
    let own = module_seen(specifier, Some(entry));
    // Where nothing is required, no edge is looked at here.
    if policy.required.is_empty() {
        return Ok(module_breach(&policy.modules, &own));
    }
    match entry {
        Entry::Module(_) => {
            let all = edges_seen(alloc, graph, specifier, edges(entry))?;
            let seen = SeenEntry {
                own,
                edges: Some(all.as_slice()),
            };
            Ok(entry_breach(policy, &seen))
        }
        Entry::Redirect(_) | Entry::Package(_) | Entry::External | Entry::Error(_) => {
            Ok(entry_breach(policy, &SeenEntry { own, edges: None }))
        }
    }
}
