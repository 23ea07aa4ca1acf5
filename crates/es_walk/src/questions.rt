//! What an analysis may ask of the parts of a node. The answers are about trees; `proofs/LookLemmas.antt` has what they are
//! by the rules of an analysis (`number_asked`, `own_asked`, `one_asked`, `two_asked`, `node_asked`).

ghost use Rattle.std.specs.Prelude.{◌≡◌};
ghost use Rattle.es_syntax.specs.Trees.{trees};
ghost use Rattle.es_walk.specs.Rows.{tree_at, group_there, follow_trees, number_of};
ghost use Rattle.es_walk.specs.Looks.{number_there, own_number_of, own_number_there, has_one, has_two, plain_node, node_of, node_there, node_trees};
ghost use Rattle.es_walk.specs.Part.{is_plain};

use crate::rows::{follow, group_in, split_trees};
use crate::step::Path;
use es_grammar::NodeKind;
use es_syntax::{Item, Siblings, What};

/// The token that the item is, by its number.
#[tactic(auto, using(crate::proofs::RowLemmas::number_leaf, crate::proofs::RowLemmas::number_node, crate::proofs::RowLemmas::number_role, crate::proofs::RowLemmas::number_parts, crate::proofs::RowLemmas::number_lean))]
fn number(item: &Item<'_>) -> Option<u32>
    ensures { number_of (tree_at item.now) ≡ result }
{
    match item.what {
        What::Leaf => Some(item.from),
        What::Node(_) => None,
        What::Role(_) => None,
        What::Parts => None,
        What::Lean(_) => None,
    }
}

/// The token at a place, by its number.
#[tactic(auto, using(crate::proofs::LookLemmas::number_some, crate::proofs::LookLemmas::number_none))]
pub fn number_at(parts: &Siblings<'_>, path: Path) -> Option<u32>
    ensures { number_there (follow_trees (trees parts.now.entries.now) path) ≡ result }
{
    match follow(parts, path) {
        Some(item) => number(&item),
        None => None,
    }
}

/// The token that the item is, or the first one in it if it is a group, by its number.
#[tactic(auto, using(crate::proofs::LookLemmas::own_leaf, crate::proofs::LookLemmas::own_node, crate::proofs::LookLemmas::own_role, crate::proofs::LookLemmas::own_parts, crate::proofs::LookLemmas::own_lean))]
fn own(item: &Item<'_>) -> Option<u32>
    ensures { own_number_of (tree_at item.now) ≡ result }
{
    match item.what {
        What::Leaf => Some(item.from),
        What::Node(_) => None,
        What::Role(_) => None,
        What::Parts => number_at(&item.parts, Path::At(0)),
        What::Lean(_) => None,
    }
}

/// The token at a place, or the first one of the group there, by its number.
#[tactic(auto, using(crate::proofs::LookLemmas::own_some, crate::proofs::LookLemmas::own_none))]
pub fn own_at(parts: &Siblings<'_>, path: Path) -> Option<u32>
    ensures { own_number_there (follow_trees (trees parts.now.entries.now) path) ≡ result }
{
    match follow(parts, path) {
        Some(item) => own(&item),
        None => None,
    }
}

/// The parts of the group at a place; none where no group is there.
#[tactic(auto, using(crate::proofs::RowLemmas::group_none))]
fn group<'t>(parts: &Siblings<'t>, path: Path) -> Siblings<'t>
    ensures { trees result.entries.now ≡ group_there (follow_trees (trees parts.now.entries.now) path) }
{
    match follow(parts, path) {
        Some(item) => group_in(&item),
        None => Siblings { entries: &[] },
    }
}

fn has_one(row: &Siblings<'_>) -> bool
    ensures { has_one (trees row.now.entries.now) ≡ result }
{
    match split_trees(row) {
        Some(_) => true,
        None => false,
    }
}

fn has_two(row: &Siblings<'_>) -> bool
    ensures { has_two (trees row.now.entries.now) ≡ result }
{
    match split_trees(row) {
        None => false,
        Some((_, others)) => match split_trees(&others) {
            Some(_) => true,
            None => false,
        },
    }
}

/// Whether the group at a place has a part.
pub fn has_parts(parts: &Siblings<'_>, path: Path) -> bool
    ensures { has_one (group_there (follow_trees (trees parts.now.entries.now) path)) ≡ result }
{
    has_one(&group(parts, path))
}

/// Whether the group at a place has more than one part.
pub fn has_second(parts: &Siblings<'_>, path: Path) -> bool
    ensures { has_two (group_there (follow_trees (trees parts.now.entries.now) path)) ≡ result }
{
    has_two(&group(parts, path))
}

fn is_plain(label: NodeKind) -> bool
    ensures { is_plain label ≡ result }
{
    match label {
        NodeKind::Binary | NodeKind::TypedBinary | NodeKind::Target => false,
        _ => true,
    }
}

fn plain<'t>(label: NodeKind, parts: &Siblings<'t>) -> Option<(NodeKind, Siblings<'t>)>
    ensures { node_trees result ≡ plain_node label (trees parts.now.entries.now) }
{
    if is_plain(label) {
        return Some((label, *parts));
    }
    None
}

/// The alternative and the parts of the item, if it is a node.
#[tactic(auto, using(crate::proofs::LookLemmas::node_leaf, crate::proofs::LookLemmas::node_node, crate::proofs::LookLemmas::node_role, crate::proofs::LookLemmas::node_group, crate::proofs::LookLemmas::node_lean))]
fn node<'t>(item: &Item<'t>) -> Option<(NodeKind, Siblings<'t>)>
    ensures { node_of (tree_at item.now) ≡ node_trees result }
{
    match item.what {
        What::Node(label) => plain(label, &item.parts),
        What::Leaf => None,
        What::Role(_) => None,
        What::Parts => None,
        What::Lean(_) => None,
    }
}

/// The alternative and the parts of the node at a place; none for a chain and for a node in another role.
#[tactic(auto, using(crate::proofs::LookLemmas::node_some, crate::proofs::LookLemmas::node_none))]
pub fn node_at<'t>(parts: &Siblings<'t>, path: Path) -> Option<(NodeKind, Siblings<'t>)>
    ensures { node_there (follow_trees (trees parts.now.entries.now) path) ≡ node_trees result }
{
    match follow(parts, path) {
        Some(item) => node(&item),
        None => None,
    }
}
