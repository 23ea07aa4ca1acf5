//! Simple targets.

ghost use Rattle.std.specs.Prelude.{◌≡◌, ◌∷◌};
ghost use Rattle.es_grammar.specs.declared.rows.NodeKind.TheVariants as l;
ghost use Rattle.es_grammar.specs.declared.cst.tree.Cst.{Cst, out-Cst};
ghost use Rattle.es_program_reader.specs.Sound.{names_member, is_member, names_non_null, is_non_null, behind_part, first_in, behind_turns, ends_in_member, chain_ends, group_layer, second_asserted, is_assertion, asserted_target, first_is, inner_parts, simple_by, is_simple};
ghost use Rattle.es_program_reader.specs.Rows.{trees_at, tree_at, one_assertion, all_assert, leant_simple};

use crate::parts::{first_part, parts_of_turn};
use es_grammar::NodeKind;
use es_syntax::{Item, Lean, Siblings, What};

/// The alternative of `.a` or `[a]`.
fn names_member(label: NodeKind) -> bool
    ensures { result ≡ names_member label }
{
    match label {
        NodeKind::MemberPost => true,
        NodeKind::IndexPost => true,
        _ => false,
    }
}

/// `.a` or `[a]`.
#[tactic(auto, using(crate::proofs::Equations::member_leaf, crate::proofs::Equations::member_node, crate::proofs::Equations::member_role, crate::proofs::Equations::member_parts, crate::proofs::RowLemmas::member_leant))]
fn is_member(item: Item<'_>) -> bool
    ensures { result ≡ is_member (tree_at item.entry) }
{
    match item.what {
        What::Leaf => false,
        What::Node(label) => names_member(label),
        What::Role(_) => false,
        What::Parts => false,
        What::Lean(_) => false,
    }
}

/// The alternative of `!` after a part.
fn names_non_null(label: NodeKind) -> bool
    ensures { result ≡ names_non_null label }
{
    match label {
        NodeKind::NonNullPost => true,
        _ => false,
    }
}

/// `!` after a part.
#[tactic(auto, using(crate::proofs::Equations::non_null_leaf, crate::proofs::Equations::non_null_node, crate::proofs::Equations::non_null_role, crate::proofs::Equations::non_null_parts, crate::proofs::RowLemmas::non_null_leant))]
fn is_non_null(item: Item<'_>) -> bool
    ensures { result ≡ is_non_null (tree_at item.entry) }
{
    match item.what {
        What::Leaf => false,
        What::Node(label) => names_non_null(label),
        What::Role(_) => false,
        What::Parts => false,
        What::Lean(_) => false,
    }
}

/// What a further part of a chain leaves of the answer of the parts before it.
#[tactic(auto, unfolding(crate::specs::Sound::behind_part))]
fn behind_part(before: bool, part: Item<'_>) -> bool
    ensures { result ≡ behind_part before (tree_at part.entry) }
{
    if is_non_null(part) {
        return before;
    }
    is_member(part)
}

/// What a turn of a chain begins with.
#[tactic(auto, using(crate::proofs::RowLemmas::first_leaf, crate::proofs::RowLemmas::first_node, crate::proofs::RowLemmas::first_role, crate::proofs::RowLemmas::first_none, crate::proofs::RowLemmas::first_some, crate::proofs::RowLemmas::first_leant))]
fn first_of_turn<'a>(turn: Item<'a>) -> Item<'a>
    ensures { tree_at result ≡ first_in (tree_at turn.entry) (out-Cst (tree_at turn.entry)) }
{
    match turn.what {
        What::Leaf => turn,
        What::Node(_) => turn,
        What::Role(_) => turn,
        What::Parts => match first_part(turn.parts) {
            Some((first, _)) => first,
            None => turn,
        },
        What::Lean(_) => turn,
    }
}

/// What the turns of a chain leave of it.
fn behind_turns(before: bool, turns: Siblings<'_>) -> bool
    ensures { result ≡ behind_turns before (trees_at turns.entry) }
{
    let mut ends = before;
    let mut row = turns;
    while let Some((turn, rest)) = first_part(row) {
        ends = behind_part(ends, first_of_turn(turn));
        row = rest;
    }
    ends
}

/// A chain ends in `.a` or `[a]`, or in `!` after a simple target.
#[tactic(auto, unfolding(crate::specs::Sound::ends_in_member), using(crate::proofs::RowLemmas::turns_same))]
fn ends_in_member(before: bool, part: Item<'_>, more: Item<'_>) -> bool
    ensures { result ≡ ends_in_member before (tree_at part.entry) (tree_at more.entry) }
{
    behind_turns(behind_part(before, part), parts_of_turn(more))
}

/// The parts of a chain after its base end so.
fn rest_ends(before: bool, rest: Siblings<'_>) -> bool
    ensures { (base : Cst) → result ≡ chain_ends before (base ∷ trees_at rest.entry) }
{
    match first_part(rest) {
        None => false,
        Some((part, behind)) => match first_part(behind) {
            None => false,
            Some((more, _)) => ends_in_member(before, part, more),
        },
    }
}

/// The parts of a chain end so.
fn chain_ends(before: bool, parts: Siblings<'_>) -> bool
    ensures { result ≡ chain_ends before (trees_at parts.entry) }
{
    match first_part(parts) {
        None => false,
        Some((_, rest)) => rest_ends(before, rest),
    }
}

/// A group that is there.
#[tactic(auto, using(crate::proofs::RowLemmas::group_leaf, crate::proofs::RowLemmas::group_node, crate::proofs::RowLemmas::group_role, crate::proofs::RowLemmas::group_none, crate::proofs::RowLemmas::group_some, crate::proofs::RowLemmas::group_leant))]
fn is_group(group: Item<'_>) -> bool
    ensures { result ≡ group_layer (out-Cst (tree_at group.entry)) }
{
    match group.what {
        What::Leaf => false,
        What::Node(_) => false,
        What::Role(_) => false,
        What::Parts => match first_part(group.parts) {
            Some(_) => true,
            None => false,
        },
        What::Lean(_) => false,
    }
}

/// The second of these parts is such a group.
fn second_asserted(parts: Siblings<'_>) -> bool
    ensures { result ≡ second_asserted (trees_at parts.entry) }
{
    match first_part(parts) {
        None => false,
        Some((_, rest)) => match first_part(rest) {
            None => false,
            Some((group, _)) => is_group(group),
        },
    }
}

/// The parts of a turn are `as const`, or `as` or `satisfies` with a type.
#[tactic(auto, using(crate::proofs::Equations::assertion_leaf, crate::proofs::Equations::assertion_node, crate::proofs::Equations::assertion_role, crate::proofs::Equations::assertion_parts, crate::proofs::RowLemmas::assertion_leant))]
fn is_assertion(item: Item<'_>) -> bool
    ensures { result ≡ is_assertion (tree_at item.entry) }
{
    match item.what {
        What::Leaf => false,
        What::Node(_) => false,
        What::Role(_) => false,
        What::Parts => second_asserted(item.parts),
        What::Lean(_) => false,
    }
}

/// There is one part, and it is an assertion.
fn is_one_assertion(parts: Siblings<'_>) -> bool
    ensures { result ≡ one_assertion (trees_at parts.entry) }
{
    match first_part(parts) {
        None => false,
        Some((assertion, rest)) => match first_part(rest) {
            None => is_assertion(assertion),
            Some(_) => false,
        },
    }
}

/// Each turn of a left-associative chain is an assertion.
fn all_assert(turns: Siblings<'_>) -> bool
    ensures { result ≡ all_assert (trees_at turns.entry) }
{
    let mut row = turns;
    while let Some((turn, rest)) = first_part(row) {
        if !is_one_assertion(parts_of_turn(turn)) {
            return false;
        }
        row = rest;
    }
    true
}

/// A simple target followed by one assertion alone.
#[tactic(auto, using(crate::proofs::RowLemmas::turn_target))]
fn is_asserted_target(inner: bool, parts: Siblings<'_>) -> bool
    ensures { result ≡ asserted_target inner (trees_at parts.entry) }
{
    match first_part(parts) {
        None => false,
        Some((_, rest)) => is_one_assertion(rest) && inner,
    }
}

/// A simple target.
#[tactic(auto, using(crate::proofs::Equations::simple_leaf, crate::proofs::Equations::simple_node, crate::proofs::Equations::simple_role, crate::proofs::Equations::simple_parts, crate::proofs::RowLemmas::simple_binary, crate::proofs::RowLemmas::simple_typed))]
#[cycle(simple)]
pub fn is_simple(item: Item<'_>) -> bool
    ensures { result ≡ is_simple (tree_at item.entry) }
{
    match item.what {
        What::Leaf => false,
        What::Node(label) => is_simple_node(label, item.parts),
        What::Role(_) => false,
        What::Parts => false,
        What::Lean(Lean::Binary) => false,
        What::Lean(Lean::TypedBinary) => is_simple_leaning(item.parts),
    }
}

/// The first of these parts is a simple target.
#[cycle(simple)]
pub fn first_is_simple(parts: Siblings<'_>) -> bool
    ensures { result ≡ first_is is_simple (trees_at parts.entry) }
{
    match first_part(parts) {
        None => false,
        Some((first, _)) => is_simple(first),
    }
}

/// The part of an assertion that follows its type is a simple target.
#[cycle(simple)]
fn asserted_is_simple(parts: Siblings<'_>) -> bool
    ensures { result ≡ first_is is_simple (inner_parts l.TypeAssertion (trees_at parts.entry)) }
{
    match first_part(parts) {
        None => false,
        Some((_, rest)) => first_is_simple(rest),
    }
}

/// A node of these parts is a simple target.
#[cycle(simple)]
fn is_simple_node(label: NodeKind, parts: Siblings<'_>) -> bool
    ensures { result ≡ simple_by label (trees_at parts.entry) (first_is is_simple (inner_parts label (trees_at parts.entry))) }
{
    match label {
        NodeKind::Name => true,
        NodeKind::Parenthesized => first_is_simple(parts),
        NodeKind::Chain => chain_ends(first_is_simple(parts), parts),
        NodeKind::TypedBinary => is_asserted_target(first_is_simple(parts), parts),
        NodeKind::TypeAssertion => asserted_is_simple(parts),
        _ => false,
    }
}

/// A simple target, followed by turns that are assertions, at least one.
#[cycle(simple)]
fn is_simple_leaning(parts: Siblings<'_>) -> bool
    ensures { result ≡ leant_simple (trees_at parts.entry) }
{
    match first_part(parts) {
        None => false,
        Some((first, turns)) => match first_part(turns) {
            None => false,
            Some(_) => all_assert(turns) && is_simple(first),
        },
    }
}
