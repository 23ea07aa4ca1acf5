//! What breaks rules.
ghost use Rattle.std.specs.Prelude.{◌≡◌, map, option_map};
ghost use Rattle.std.specs.List.{list_any};
ghost use Rattle.graph_policy.specs.Rules as asked;
ghost use Rattle.graph_policy.specs.Breach as spec;
ghost use Rattle.std.specs.Option.{option_copied};
ghost use Rattle.graph_policy.specs.Seen.{module_texts, edge_texts, entry_texts, seen_texts};

use crate::fitting::{edge_fits, fits};
use crate::rule::{
    Breach, EdgeRule, EdgeRules, Finding, ModuleRule, ModuleRules, Policy, RequiredRule,
};
use crate::seen::{Seen, SeenEdge, SeenEntry, SeenModule};

/// Why the module is forbidden; `None` if it isn't.
#[tactic(auto, unfolding(crate::specs::Breach::module_breach))]
pub fn module_breach(rules: &ModuleRules, seen: &SeenModule<'_>) -> Option<Breach>
    ensures { result ≡ spec.module_breach rules.now (module_texts seen.now) }
{
    if let Some(at) = first_fitting(rules.forbidden.as_slice(), seen) {
        return Some(Breach::Forbidden(at));
    }
    match &rules.allowed {
        Some(allowed) => unless(one_fits(allowed.as_slice(), seen)),
        None => None,
    }
}

/// Why the edge is forbidden; `None` if it isn't.
#[tactic(auto, unfolding(crate::specs::Breach::edge_breach))]
pub fn edge_breach(rules: &EdgeRules, edge: &SeenEdge<'_>) -> Option<Breach>
    ensures { result ≡ spec.edge_breach rules.now (edge_texts edge.now) }
{
    if let Some(at) = first_edge_fitting(rules.forbidden.as_slice(), edge) {
        return Some(Breach::Forbidden(at));
    }
    match &rules.allowed {
        Some(allowed) => unless(one_edge_fits(allowed.as_slice(), edge)),
        None => None,
    }
}

/// Why the entry is forbidden, or which edge it lacks that a rule requires; `None` if nothing is broken.
#[tactic(auto, unfolding(crate::specs::Breach::entry_breach))]
pub fn entry_breach(policy: &Policy, seen: &SeenEntry<'_>) -> Option<Breach>
    ensures { result ≡ spec.entry_breach policy.now (entry_texts seen.now) }
{
    if let Some(breach) = module_breach(&policy.modules, &seen.own) {
        return Some(breach);
    }
    match first_lacking(policy.required.as_slice(), seen) {
        Some(at) => Some(Breach::Lacking(at)),
        None => None,
    }
}

/// The first of the list that is forbidden or lacks something, and why.
pub fn first_breach(policy: &Policy, seen: &[Seen<'_>]) -> Option<Finding>
    ensures { result ≡ spec.first_breach policy.now 0 (map seen_texts seen.now) }
{
    let mut at = 0;
    for one in seen {
        if let Some(breach) = breach_of(policy, one) {
            return Some(Finding { at, breach });
        }
        at += 1;
    }
    None
}

fn breach_of(policy: &Policy, seen: &Seen<'_>) -> Option<Breach>
    ensures { result ≡ spec.breach_of policy.now (seen_texts seen.now) }
{
    match seen {
        Seen::Entry(entry) => entry_breach(policy, entry),
        Seen::Edge(edge) => edge_breach(&policy.edges, edge),
    }
}

fn unless(allowed: bool) -> Option<Breach>
    ensures { result ≡ spec.unless allowed }
{
    if allowed {
        None
    } else {
        Some(Breach::NotAllowed)
    }
}

fn first_fitting(rules: &[ModuleRule], seen: &SeenModule<'_>) -> Option<usize>
    ensures { result ≡ spec.first_place (λ r. asked.fits r (module_texts seen.now)) 0 rules.now }
{
    let mut at = 0;
    for rule in rules {
        if fits(rule, seen) {
            return Some(at);
        }
        at += 1;
    }
    None
}

fn one_fits(rules: &[ModuleRule], seen: &SeenModule<'_>) -> bool
    ensures { result ≡ list_any (λ r. asked.fits r (module_texts seen.now)) rules.now }
{
    for rule in rules {
        if fits(rule, seen) {
            return true;
        }
    }
    false
}

fn first_edge_fitting(rules: &[EdgeRule], edge: &SeenEdge<'_>) -> Option<usize>
    ensures { result ≡ spec.first_place (λ r. asked.edge_fits r (edge_texts edge.now)) 0 rules.now }
{
    let mut at = 0;
    for rule in rules {
        if edge_fits(rule, edge) {
            return Some(at);
        }
        at += 1;
    }
    None
}

fn one_edge_fits(rules: &[EdgeRule], edge: &SeenEdge<'_>) -> bool
    ensures { result ≡ list_any (λ r. asked.edge_fits r (edge_texts edge.now)) rules.now }
{
    for rule in rules {
        if edge_fits(rule, edge) {
            return true;
        }
    }
    false
}

fn first_lacking(rules: &[RequiredRule], seen: &SeenEntry<'_>) -> Option<usize>
    ensures { result ≡ spec.first_place (λ r. spec.lacks r (entry_texts seen.now)) 0 rules.now }
{
    let mut at = 0;
    for rule in rules {
        if lacks(rule, seen) {
            return Some(at);
        }
        at += 1;
    }
    None
}

fn lacks(rule: &RequiredRule, seen: &SeenEntry<'_>) -> bool
    ensures { result ≡ spec.lacks rule.now (entry_texts seen.now) }
{
    fits(&rule.edge.from, &seen.own) && has_none(&rule.edge, seen.edges)
}

fn has_none(rule: &EdgeRule, edges: Option<&[SeenEdge<'_>]>) -> bool
    ensures { result ≡ spec.has_none rule.now (option_map (map edge_texts) (option_copied edges.entry)) }
{
    match edges {
        Some(edges) => !fits_one(rule, edges),
        None => false,
    }
}

fn fits_one(rule: &EdgeRule, edges: &[SeenEdge<'_>]) -> bool
    ensures { result ≡ list_any (λ d. asked.edge_fits rule.now d) (map edge_texts edges.now) }
{
    for edge in edges {
        if edge_fits(rule, edge) {
            return true;
        }
    }
    false
}
