//! The ways of the walk.

ghost use Rattle.std.specs.Prelude.{◌≡◌, ◌+◌, ◌<◌, ◌≤◌, ℕ, List, drop, length, IfSome, MatchOption};
ghost use Rattle.es_token.specs.declared.token.Token.{Token as Tok};
ghost use Rattle.dts_overloads.specs.declared.ways.Mode.TheVariants as mode;
ghost use Rattle.dts_overloads.specs.Plan.{shapes};
ghost use Rattle.dts_overloads.specs.Met.{is_there, is_single, is_token, reaches, into, after_part, inward, onward, way_of, IsSpot};
ghost use Rattle.dts_overloads.specs.Own.{row_met, item_met};

use crate::shapes::{Group, Owner, Shape, shape_at};
use es_syntax::{Item, Siblings, What};
use es_walk::split_trees;

/// How the walk goes on over a part, or over parts in a row.
#[derive(Clone, Copy)]
pub enum Mode {
    /// Past it.
    Nothing,
    /// To the node.
    One,
    /// To the node, or over parts in a row.
    Loose(Group),
    /// Over the parts from this one on, counted from 0.
    Row(Owner, usize),
    /// Over turns.
    Each(Group),
}

/// Whether a node is reached.
pub fn reaches(mode: Mode) -> bool
    ensures { reaches (way_of mode) ≡ result }
{
    match mode {
        Mode::One => true,
        Mode::Loose(_) => true,
        Mode::Nothing => false,
        Mode::Row(_, _) => false,
        Mode::Each(_) => false,
    }
}

/// The parts of the item, where it is a group.
#[tactic(auto, using(crate::proofs::RowLemmas::group_parts, crate::proofs::RowLemmas::spot_leaf, crate::proofs::RowLemmas::spot_node, crate::proofs::RowLemmas::spot_role, crate::proofs::RowLemmas::spot_lean))]
pub fn group_of<'t>(item: &Item<'t>) -> Option<Siblings<'t>>
    ensures met { (x : List ℕ) (ts : List Tok) → MatchOption result (IsSpot (item_met x ts item.now)) (λ row. item_met x ts item.now ≡ row_met x ts row.entries.now) }
    ensures below { IfSome result (λ row. length row.entries.now ≤ length item.now.parts.entries.now) }
{
    match item.what {
        What::Parts => Some(item.parts),
        What::Leaf => None,
        What::Node(_) => None,
        What::Role(_) => None,
        What::Lean(_) => None,
    }
}

#[tactic(auto, using(crate::proofs::RowLemmas::there_some, crate::proofs::RowLemmas::there_none))]
fn has_part(row: &Siblings<'_>) -> bool
    ensures { (x : List ℕ) (ts : List Tok) → is_there (row_met x ts row.now.entries.now) ≡ result }
{
    match split_trees(row) {
        Some(_) => true,
        None => false,
    }
}

#[tactic(auto, using(crate::proofs::RowLemmas::single_none, crate::proofs::RowLemmas::single_one, crate::proofs::RowLemmas::single_more))]
fn has_one_part(row: &Siblings<'_>) -> bool
    ensures { (x : List ℕ) (ts : List Tok) → is_single (row_met x ts row.now.entries.now) ≡ result }
{
    match split_trees(row) {
        None => false,
        Some((_, others)) => match split_trees(&others) {
            None => true,
            Some(_) => false,
        },
    }
}

/// Whether the item is a group with a part.
#[tactic(auto, using(crate::proofs::RowLemmas::there_group, crate::proofs::RowLemmas::there_spot))]
fn is_there(item: &Item<'_>) -> bool
    ensures { (x : List ℕ) (ts : List Tok) → is_there (item_met x ts item.now) ≡ result }
{
    match group_of(item) {
        Some(row) => has_part(&row),
        None => false,
    }
}

/// Whether the item is a group of one part.
#[tactic(auto, using(crate::proofs::RowLemmas::single_group, crate::proofs::RowLemmas::single_spot))]
fn is_single(item: &Item<'_>) -> bool
    ensures { (x : List ℕ) (ts : List Tok) → is_single (item_met x ts item.now) ≡ result }
{
    match group_of(item) {
        Some(row) => has_one_part(&row),
        None => false,
    }
}

/// Whether the item is a token.
#[tactic(auto, using(crate::proofs::RowLemmas::token_leaf, crate::proofs::RowLemmas::token_node, crate::proofs::RowLemmas::token_role, crate::proofs::RowLemmas::token_parts, crate::proofs::RowLemmas::token_lean))]
fn is_token(item: &Item<'_>) -> bool
    ensures { (x : List ℕ) (ts : List Tok) → is_token (item_met x ts item.now) ≡ result }
{
    match item.what {
        What::Leaf => true,
        What::Node(_) => false,
        What::Role(_) => false,
        What::Parts => false,
        What::Lean(_) => false,
    }
}

/// Into a part of this shape.
fn into(shape: Shape, item: &Item<'_>) -> Mode
    ensures { (x : List ℕ) (ts : List Tok) → into shape (item_met x ts item.now) ≡ way_of result }
{
    match shape {
        Shape::Skip => Mode::Nothing,
        Shape::Node => Mode::One,
        Shape::In(group) => Mode::Row(Owner::Group(group), 0),
        Shape::Each(group) => Mode::Each(group),
        Shape::Rest(group) => Mode::Row(Owner::Group(group), 0),
        Shape::Or(_) => Mode::Row(Owner::Group(Group::First), 0),
        Shape::Ended(single, others) => {
            if is_single(item) {
                return Mode::Row(Owner::Group(single), 0);
            }
            Mode::Row(Owner::Group(others), 0)
        }
        Shape::Loose(group) => Mode::Loose(group),
        Shape::Word => Mode::Nothing,
    }
}

/// On to the parts after the part of this shape, which stands at a place.
fn after_part(shape: Shape, owner: Owner, at: usize, item: &Item<'_>) -> Mode
    requires { at < 32 }
    ensures { (x : List ℕ) (ts : List Tok) → after_part shape (drop (at + 1) (shapes owner)) (item_met x ts item.now) ≡ way_of result }
{
    match shape {
        Shape::Or(group) => {
            if is_there(item) {
                return Mode::Row(Owner::Group(group), 0);
            }
            Mode::Row(owner, at + 1)
        }
        Shape::Rest(group) => Mode::Each(group),
        Shape::Word => {
            if is_token(item) {
                return Mode::Nothing;
            }
            Mode::Row(owner, at + 1)
        }
        Shape::Skip => Mode::Row(owner, at + 1),
        Shape::Node => Mode::Row(owner, at + 1),
        Shape::In(_) => Mode::Row(owner, at + 1),
        Shape::Each(_) => Mode::Row(owner, at + 1),
        Shape::Ended(_, _) => Mode::Row(owner, at + 1),
        Shape::Loose(_) => Mode::Row(owner, at + 1),
    }
}

/// Into the part at a place, and on to those after it.
#[tactic(auto, using(crate::proofs::RowLemmas::inward_row, crate::proofs::RowLemmas::onward_row, crate::proofs::RowLemmas::inward_end, crate::proofs::RowLemmas::onward_end))]
fn row_ways(owner: Owner, at: usize, item: &Item<'_>) -> (Mode, Mode)
    ensures inward { (x : List ℕ) (ts : List Tok) → inward (way_of (mode.Row owner at)) (item_met x ts item.now) ≡ way_of result.0 }
    ensures onward { (x : List ℕ) (ts : List Tok) → onward (way_of (mode.Row owner at)) (item_met x ts item.now) ≡ way_of result.1 }
{
    match shape_at(owner, at) {
        Some(shape) => (into(shape, item), after_part(shape, owner, at, item)),
        None => (Mode::Nothing, Mode::Nothing),
    }
}

/// Into a part, and on to those after it.
#[tactic(auto, using(crate::proofs::RowLemmas::inward_loose, crate::proofs::RowLemmas::onward_loose))]
pub fn ways(mode: Mode, item: &Item<'_>) -> (Mode, Mode)
    ensures inward { (x : List ℕ) (ts : List Tok) → inward (way_of mode) (item_met x ts item.now) ≡ way_of result.0 }
    ensures onward { (x : List ℕ) (ts : List Tok) → onward (way_of mode) (item_met x ts item.now) ≡ way_of result.1 }
{
    match mode {
        Mode::Row(owner, at) => row_ways(owner, at, item),
        Mode::Loose(group) => row_ways(Owner::Group(group), 0, item),
        Mode::Each(group) => (Mode::Row(Owner::Group(group), 0), mode),
        Mode::One => (Mode::Nothing, Mode::Nothing),
        Mode::Nothing => (Mode::Nothing, Mode::Nothing),
    }
}
