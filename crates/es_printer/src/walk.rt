//! The walk of a tree to its pieces. It goes down by the nodes, and over lists and chains of operators by loops.

ghost use Rattle.std.specs.Prelude.{◌≡◌, OnOk, IfOk};
ghost use Rattle.es_syntax.specs.Held.{label_of};
ghost use Rattle.es_syntax.specs.Trees.{first_tree, trees_in};
ghost use Rattle.es_printer.specs.Sheet.{node, shown};
ghost use Rattle.es_printer.specs.Laid.{Grows};
ghost use Rattle.es_printer.specs.Rows.{kept, tree_at, last_of, all, turned, leant, leaning};

use crate::draft::Draft;
use crate::piece::Source;
use crate::rows::{is_bare, split, turn};
use crate::sheet::{before, behind, up_to};
use crate::style::{Style, style_of};
use es_grammar::NodeKind;
use es_syntax::{Item, Lean, Siblings, What};
use std::alloc::AllocError;

/// The alternative of left-associative nodes.
fn label_of(lean: Lean) -> NodeKind
    ensures { result ≡ label_of lean }
{
    match lean {
        Lean::Binary => NodeKind::Binary,
        Lean::TypedBinary => NodeKind::TypedBinary,
    }
}

/// What is printed of an item, in a node of this style.
#[inline(always)]
#[cycle(walk)]
#[tactic(auto, using(crate::proofs::WalkLemmas::walk_leaf, crate::proofs::WalkLemmas::walk_node, crate::proofs::WalkLemmas::walk_role, crate::proofs::WalkLemmas::walk_parts, crate::proofs::WalkLemmas::walk_lean))]
pub fn walk(
    out: &mut Draft<'_>,
    source: &Source<'_>,
    here: Style,
    item: Item<'_>,
) -> Result<(), AllocError>
    ensures { OnOk result (Grows source.now (shown source.now.tokens.now (tree_at item.entry) here) out.old out.new) }
{
    match item.what {
        What::Leaf => Ok(()),
        What::Node(label) => node(out, source, here, label, item),
        What::Role(_) => first(out, source, here, item.parts),
        What::Parts => some(out, source, here, item.parts),
        What::Lean(lean) => leaning(out, source, here, lean, item.from, item.parts),
    }
}

/// A node, by its alternative.
#[inline(always)]
#[cycle(walk)]
#[tactic(auto, using(crate::proofs::LaidLemmas::node_grows))]
fn node(
    out: &mut Draft<'_>,
    source: &Source<'_>,
    here: Style,
    label: NodeKind,
    item: Item<'_>,
) -> Result<(), AllocError>
    ensures { OnOk result (Grows source.now (node source.now.tokens.now label item.entry.from item.entry.to (all source.now.tokens.now (trees_in (kept item.entry.parts.entries.now))) here) out.old out.new) }
{
    let own = style_of(label);
    up_to(out, source, here, item.from)?;
    before(out, source, here, own, item.from)?;
    some(out, source, own, item.parts)?;
    up_to(out, source, own, item.to)?;
    behind(out, source, here, label, item.to)
}

/// The first part.
#[cycle(walk)]
#[tactic(auto, using(crate::proofs::WalkLemmas::first_none, crate::proofs::WalkLemmas::first_some))]
pub fn first(
    out: &mut Draft<'_>,
    source: &Source<'_>,
    here: Style,
    parts: Siblings<'_>,
) -> Result<(), AllocError>
    ensures { OnOk result (Grows source.now (shown source.now.tokens.now (first_tree (trees_in (kept parts.entry.entries.now))) here) out.old out.new) }
{
    match split(&parts) {
        Some((part, _)) => walk(out, source, here, part),
        None => Ok(()),
    }
}

/// All parts, one after the other.
#[cycle(walk)]
#[tactic(auto, using(crate::proofs::WalkLemmas::all_none, crate::proofs::WalkLemmas::all_more))]
fn all(
    out: &mut Draft<'_>,
    source: &Source<'_>,
    own: Style,
    parts: Siblings<'_>,
) -> Result<(), AllocError>
    ensures { OnOk result (Grows source.now (all source.now.tokens.now (trees_in (kept parts.entry.entries.now)) own) out.old out.new) }
{
    let mut row = parts;
    while let Some((part, rest)) = split(&row) {
        walk(out, source, own, part)?;
        row = rest;
    }
    Ok(())
}

/// The same, with no call where nothing is printed of them.
#[cycle(walk)]
#[inline(always)]
#[tactic(auto, using(crate::proofs::WalkLemmas::all_bare))]
fn some(
    out: &mut Draft<'_>,
    source: &Source<'_>,
    own: Style,
    parts: Siblings<'_>,
) -> Result<(), AllocError>
    ensures { OnOk result (Grows source.now (all source.now.tokens.now (trees_in (kept parts.entry.entries.now)) own) out.old out.new) }
{
    if is_bare(parts) {
        return Ok(());
    }
    all(out, source, own, parts)
}

/// A first operand and turns, one at least: fewer parts are no node.
#[cycle(walk)]
#[tactic(auto, using(crate::proofs::WalkLemmas::leaning_none, crate::proofs::WalkLemmas::leaning_one, crate::proofs::WalkLemmas::leaning_more))]
fn leaning(
    out: &mut Draft<'_>,
    source: &Source<'_>,
    here: Style,
    lean: Lean,
    from: u32,
    parts: Siblings<'_>,
) -> Result<(), AllocError>
    ensures { OnOk result (Grows source.now (leaning source.now.tokens.now lean from (kept parts.entry.entries.now) here) out.old out.new) }
{
    match split(&parts) {
        None => Ok(()),
        Some((operand, turns)) => match split(&turns) {
            None => Ok(()),
            Some(_) => leaned(out, source, here, lean, from, operand, turns),
        },
    }
}

/// The first operand, and its turns.
#[cycle(walk)]
#[tactic(auto, using(crate::proofs::LaidLemmas::leant_grows))]
fn leaned(
    out: &mut Draft<'_>,
    source: &Source<'_>,
    here: Style,
    lean: Lean,
    from: u32,
    operand: Item<'_>,
    turns: Siblings<'_>,
) -> Result<(), AllocError>
    ensures { OnOk result (Grows source.now (leant source.now.tokens.now lean from (tree_at operand.entry) (kept turns.entry.entries.now) here) out.old out.new) }
{
    up_to(out, source, here, from)?;
    before(out, source, here, Style::Operator, from)?;
    walk(out, source, Style::Operator, operand)?;
    let to = turned(out, source, turns, from)?;
    behind(out, source, here, label_of(lean), to)
}

/// Operators with their operands; returns the number of the token after the last one.
#[cycle(walk)]
#[tactic(auto, using(crate::proofs::WalkLemmas::turned_none, crate::proofs::WalkLemmas::turned_more, crate::proofs::WalkLemmas::last_none, crate::proofs::WalkLemmas::last_more))]
fn turned(
    out: &mut Draft<'_>,
    source: &Source<'_>,
    turns: Siblings<'_>,
    from: u32,
) -> Result<u32, AllocError>
    ensures shown { OnOk result (Grows source.now (turned source.now.tokens.now (kept turns.entry.entries.now)) out.old out.new) }
    ensures to { IfOk result (λ to. to ≡ last_of from (kept turns.entry.entries.now)) }
{
    let mut row = turns;
    let mut to = from;
    while let Some((operand, rest)) = split(&row) {
        all(out, source, Style::Operator, turn(&operand))?;
        up_to(out, source, Style::Operator, operand.to)?;
        to = operand.to;
        row = rest;
    }
    Ok(to)
}
