//! Whether a rule fits.
ghost use Rattle.std.specs.Prelude.{◌≡◌, option_map, is_some};
ghost use Rattle.std.specs.Option.{option_copied};
ghost use Rattle.graph_policy.specs.Rules as spec;
ghost use Rattle.graph_policy.specs.Seen.{module_texts, edge_texts};

use crate::pattern::one_matches;
use crate::rule::{EdgeRule, ModuleRule};
use crate::seen::{SeenEdge, SeenModule};
use base::{Items, Text};

/// Whether the rule fits the module: each thing that it asks is so.
#[tactic(auto, unfolding(crate::specs::Rules::fits))]
pub fn fits(rule: &ModuleRule, seen: &SeenModule<'_>) -> bool
    ensures { result ≡ spec.fits rule.now (module_texts seen.now) }
{
    passes(&rule.path, seen.specifier)
        && !one_matches(rule.path_not.as_slice(), seen.specifier)
        && passes(&rule.scheme, seen.scheme)
        && part_passes(&rule.host, seen.host)
        && part_passes(&rule.package_name, seen.package_name)
}

/// Whether the rule fits the edge: each thing that it asks is so.
#[tactic(auto, unfolding(crate::specs::Rules::edge_fits))]
pub fn edge_fits(rule: &EdgeRule, edge: &SeenEdge<'_>) -> bool
    ensures { result ≡ spec.edge_fits rule.now (edge_texts edge.now) }
{
    fits(&rule.from, &edge.from)
        && target_passes(&rule.to, &edge.to)
        && passes(&rule.text, edge.text)
        && passes(&rule.kind, edge.kind)
        && flag_passes(rule.type_only, edge.type_only)
        && flag_passes(rule.dynamic, edge.dynamic)
        && flag_passes(rule.resolved, is_there(&edge.to))
}

fn passes(patterns: &Option<Items<Text>>, text: &str) -> bool
    ensures { result ≡ spec.passes patterns.now text.now }
{
    match patterns {
        Some(patterns) => one_matches(patterns.as_slice(), text),
        None => true,
    }
}

fn part_passes(patterns: &Option<Items<Text>>, part: Option<&str>) -> bool
    ensures { result ≡ spec.part_passes patterns.now (option_copied part.entry) }
{
    match patterns {
        Some(patterns) => match part {
            Some(part) => one_matches(patterns.as_slice(), part),
            None => false,
        },
        None => true,
    }
}

fn target_passes(rule: &Option<ModuleRule>, target: &Option<SeenModule<'_>>) -> bool
    ensures { result ≡ spec.target_passes rule.now (option_map module_texts target.now) }
{
    match rule {
        Some(rule) => match target {
            Some(target) => fits(rule, target),
            None => false,
        },
        None => true,
    }
}

fn flag_passes(wanted: Option<bool>, flag: bool) -> bool
    ensures { result ≡ spec.flag_passes wanted flag }
{
    match wanted {
        Some(true) => flag,
        Some(false) => !flag,
        None => true,
    }
}

fn is_there(target: &Option<SeenModule<'_>>) -> bool
    ensures { result ≡ is_some (option_map module_texts target.now) }
{
    match target {
        Some(_) => true,
        None => false,
    }
}
