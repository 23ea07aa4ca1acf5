//! What isn't sound in a row of entries.

ghost use Rattle.std.specs.Prelude.{◌≡◌, is_none};
ghost use Rattle.es_syntax.specs.Trees.{first_tree, trees};
ghost use Rattle.es_program_reader.specs.Sound.{first_simple, second_simple, may_hold, is_sound, are_sound};
ghost use Rattle.es_program_reader.specs.Rows.{trees_at, tree_at, target_sound, turns_sound, leant_sound};

use crate::parts::{first_part, parts_of_turn};
use crate::simple::is_simple;
use es_grammar::NodeKind;
use es_syntax::{Item, Siblings, What};

/// The first of these parts, if there is one, is a simple target.
fn first_simple(parts: Siblings<'_>) -> bool
    ensures { result ≡ first_simple (trees_at parts.entry) }
{
    match first_part(parts) {
        None => true,
        Some((first, _)) => is_simple(first),
    }
}

/// The second of these parts, if there is one, is a simple target.
fn second_simple(parts: Siblings<'_>) -> bool
    ensures { result ≡ second_simple (trees_at parts.entry) }
{
    match first_part(parts) {
        None => true,
        Some((_, rest)) => first_simple(rest),
    }
}

/// The parts of a node are those that its alternative may have.
#[inline(always)]
#[tactic(auto, unfolding(crate::specs::Sound::may_hold))]
pub fn may_hold(label: NodeKind, parts: Siblings<'_>) -> bool
    ensures { result ≡ may_hold label (trees_at parts.entry) }
{
    match label {
        NodeKind::Assignment => first_simple(parts),
        NodeKind::UpdatePostfix => first_simple(parts),
        NodeKind::UpdatePrefix => second_simple(parts),
        _ => true,
    }
}

/// The first token of a node.
fn first_token(node: Item<'_>) -> u32 {
    match node.place() {
        Some((from, _)) => from,
        None => node.from,
    }
}

/// The first token of the first node that isn't sound.
#[tactic(auto, using(crate::proofs::Equations::sound_leaf, crate::proofs::Equations::sound_node, crate::proofs::Equations::sound_role, crate::proofs::Equations::sound_parts, crate::proofs::RowLemmas::sound_leant))]
#[cycle(sound)]
fn unsound_at(item: Item<'_>) -> Option<u32>
    ensures { is_none result ≡ is_sound (tree_at item.entry) }
{
    match item.what {
        What::Leaf => None,
        What::Node(label) => {
            if !may_hold(label, item.parts) {
                return Some(item.from);
            }
            unsound_in(item.parts)
        }
        What::Role(_) => unsound_target(item.from, item.parts),
        What::Parts => unsound_in(item.parts),
        What::Lean(_) => unsound_leaning(item.parts),
    }
}

/// The same of the first of these parts, which has another role and must be a simple target.
#[tactic(auto, using(crate::proofs::Equations::simple_parts))]
#[cycle(sound)]
fn unsound_target(from: u32, parts: Siblings<'_>) -> Option<u32>
    ensures { is_none result ≡ target_sound (first_tree (trees_at parts.entry)) }
{
    match first_part(parts) {
        None => Some(from),
        Some((node, _)) => {
            if !is_simple(node) {
                return Some(first_token(node));
            }
            unsound_at(node)
        }
    }
}

/// The same of left-associative nodes over these parts.
#[cycle(sound)]
fn unsound_leaning(parts: Siblings<'_>) -> Option<u32>
    ensures { is_none result ≡ leant_sound (trees_at parts.entry) }
{
    match first_part(parts) {
        None => None,
        Some((first, turns)) => {
            if first_part(turns).is_none() {
                return None;
            }
            match unsound_at(first) {
                Some(token) => Some(token),
                None => unsound_turns(turns),
            }
        }
    }
}

/// The same of the parts of turns.
#[cycle(sound)]
fn unsound_turns(turns: Siblings<'_>) -> Option<u32>
    ensures { is_none result ≡ turns_sound (trees_at turns.entry) }
{
    let mut row = turns;
    while let Some((turn, rest)) = first_part(row) {
        if let Some(token) = unsound_in(parts_of_turn(turn)) {
            return Some(token);
        }
        row = rest;
    }
    None
}

/// The same of all these parts.
#[tactic(auto, using(crate::proofs::RowLemmas::are_none, crate::proofs::RowLemmas::are_some))]
#[cycle(sound)]
fn unsound_in(parts: Siblings<'_>) -> Option<u32>
    ensures { is_none result ≡ are_sound (trees_at parts.entry) }
{
    let mut row = parts;
    while let Some((item, rest)) = first_part(row) {
        if let Some(token) = unsound_at(item) {
            return Some(token);
        }
        row = rest;
    }
    None
}

/// The first token of the first node in which anything but a simple target is assigned to, or updated; none where each
/// node is sound.
#[tactic(auto, using(crate::proofs::RowLemmas::trees_kept))]
pub fn first_unsound(row: Siblings<'_>) -> Option<u32>
    ensures { is_none result ≡ are_sound (trees row.entry.entries.now) }
{
    unsound_in(row)
}
