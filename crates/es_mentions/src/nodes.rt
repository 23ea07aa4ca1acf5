//! The nodes of a tree, in the order of the text: a loop, with what is left at each level on a stack.

ghost use Rattle.std.specs.Prelude.{◌≡◌, ◌+◌, ◌*◌, ◌≤◌, ◌<◌, ◌++◌, length, option_to_list, IfOk, OnOk};
ghost use Rattle.es_syntax.specs.Trees.{first_tree, trees};
ghost use Rattle.es_walk.specs.Rows.{tree_at, group_of};
ghost use Rattle.es_walk.specs.Left.{cost};
ghost use Rattle.es_mentions.specs.Nodes.{node_now};
ghost use Rattle.es_mentions.specs.Kinds.{event_of};
ghost use Rattle.es_mentions.specs.Left.{events_in, events_of_turns, events_of_lean, events_of, todo_events, node_events, frame_events, ahead, frame_weight, weight};

use crate::listed::Event;
use crate::source::Source;
use base::Items;
use es_grammar::NodeKind;
use es_syntax::{Item, Siblings, What};
use es_walk::split_trees;
use std::alloc::{AllocError, Global};

/// A node: its alternative, its first token, the token after its last one, and its parts.
#[derive(Clone, Copy)]
pub struct NodeAt<'t> {
    pub label: NodeKind,
    pub from: u32,
    pub to: u32,
    pub parts: Siblings<'t>,
}

/// What is still to be done over parts in a row.
#[derive(Clone, Copy)]
pub enum Todo {
    /// All nodes.
    Rest,
    /// Those of the first part alone.
    First,
    /// Those of the parts of each turn.
    Turns,
}

/// What is left at one level.
#[derive(Clone, Copy)]
pub struct Frame<'t> {
    pub parts: Siblings<'t>,
    pub todo: Todo,
}

/// What the nodes of the first tree of a row are.
pub fn events(
    source: &Source<'_>,
    alloc: Global,
    row: &Siblings<'_>,
) -> Result<Items<Event>, AllocError>
    ensures { IfOk result (λ found. found ≡ events_in source.now.text.now source.now.tokens.now source.now.script source.now.strict (first_tree (trees row.now.entries.now))) }
{
    let mut out = Items::new(alloc);
    let mut stack = Items::new(alloc);
    put(source, &mut stack, row, Todo::First)?;
    while let Some(frame) = stack.pop() {
        advance(source, &mut out, &mut stack, frame)?;
    }
    Ok(out)
}

#[tactic(auto, using(crate::proofs::LeftLemmas::ahead_more, crate::proofs::LeftLemmas::weight_more))]
fn put<'t>(
    _source: &Source<'_>,
    stack: &mut Items<Frame<'t>>,
    parts: &Siblings<'t>,
    todo: Todo,
) -> Result<(), AllocError>
    ensures marks { OnOk result (ahead _source.now.text.now _source.now.tokens.now _source.now.script _source.now.strict stack.new ≡ todo_events _source.now.text.now _source.now.tokens.now _source.now.script _source.now.strict todo (trees parts.now.entries.now) ++ ahead _source.now.text.now _source.now.tokens.now _source.now.script _source.now.strict stack.old) }
    ensures less { OnOk result (weight stack.new ≡ weight stack.old + 2 * cost (length parts.now.entries.now)) }
{
    stack.push(Frame {
        parts: *parts,
        todo,
    })
}

/// One step of what is left at a level.
fn advance<'t>(
    source: &Source<'_>,
    out: &mut Items<Event>,
    stack: &mut Items<Frame<'t>>,
    frame: Frame<'t>,
) -> Result<(), AllocError>
    ensures marks { OnOk result (out.new ++ ahead source.now.text.now source.now.tokens.now source.now.script source.now.strict stack.new ≡ out.old ++ (frame_events source.now.text.now source.now.tokens.now source.now.script source.now.strict frame.entry ++ ahead source.now.text.now source.now.tokens.now source.now.script source.now.strict stack.old)) }
    ensures less { OnOk result (weight stack.new < weight stack.old + frame_weight frame.entry) }
{
    let Frame { parts, todo } = frame;
    match todo {
        Todo::Rest => take_rest(source, out, stack, &parts),
        Todo::First => take_first(source, out, stack, &parts),
        Todo::Turns => take_turn(source, stack, &parts),
    }
}

/// The first part; those after it are left.
#[tactic(auto, using(crate::proofs::LeftLemmas::rest_none, crate::proofs::LeftLemmas::rest_some))]
fn take_rest<'t>(
    source: &Source<'_>,
    out: &mut Items<Event>,
    stack: &mut Items<Frame<'t>>,
    parts: &Siblings<'t>,
) -> Result<(), AllocError>
    ensures marks { OnOk result (out.new ++ ahead source.now.text.now source.now.tokens.now source.now.script source.now.strict stack.new ≡ out.old ++ (events_of source.now.text.now source.now.tokens.now source.now.script source.now.strict (trees parts.now.entries.now) ++ ahead source.now.text.now source.now.tokens.now source.now.script source.now.strict stack.old)) }
    ensures less { OnOk result (weight stack.new < weight stack.old + 2 * cost (length parts.now.entries.now)) }
{
    match split_trees(parts) {
        None => Ok(()),
        Some((item, others)) => {
            put(source, stack, &others, Todo::Rest)?;
            enter(source, out, stack, &item)
        }
    }
}

#[tactic(auto, using(crate::proofs::NodeLemmas::first_none, crate::proofs::NodeLemmas::first_some))]
fn take_first<'t>(
    source: &Source<'_>,
    out: &mut Items<Event>,
    stack: &mut Items<Frame<'t>>,
    parts: &Siblings<'t>,
) -> Result<(), AllocError>
    ensures marks { OnOk result (out.new ++ ahead source.now.text.now source.now.tokens.now source.now.script source.now.strict stack.new ≡ out.old ++ (events_in source.now.text.now source.now.tokens.now source.now.script source.now.strict (first_tree (trees parts.now.entries.now)) ++ ahead source.now.text.now source.now.tokens.now source.now.script source.now.strict stack.old)) }
    ensures less { OnOk result (weight stack.new < weight stack.old + 2 * cost (length parts.now.entries.now)) }
{
    match split_trees(parts) {
        None => Ok(()),
        Some((item, _)) => enter(source, out, stack, &item),
    }
}

/// The first turn; those after it are left.
#[tactic(auto, using(crate::proofs::LeftLemmas::turns_none, crate::proofs::LeftLemmas::turns_some))]
fn take_turn<'t>(
    source: &Source<'_>,
    stack: &mut Items<Frame<'t>>,
    parts: &Siblings<'t>,
) -> Result<(), AllocError>
    ensures marks { OnOk result (ahead source.now.text.now source.now.tokens.now source.now.script source.now.strict stack.new ≡ events_of_turns source.now.text.now source.now.tokens.now source.now.script source.now.strict (trees parts.now.entries.now) ++ ahead source.now.text.now source.now.tokens.now source.now.script source.now.strict stack.old) }
    ensures less { OnOk result (weight stack.new < weight stack.old + 2 * cost (length parts.now.entries.now)) }
{
    match split_trees(parts) {
        None => Ok(()),
        Some((item, others)) => {
            put(source, stack, &others, Todo::Turns)?;
            put(source, stack, &inside(&item), Todo::Rest)
        }
    }
}

/// The parts of the item, where it is a group.
#[tactic(auto, using(es_walk::proofs::RowLemmas::group_leaf, es_walk::proofs::RowLemmas::group_node, es_walk::proofs::RowLemmas::group_role, es_walk::proofs::RowLemmas::group_parts, es_walk::proofs::RowLemmas::group_lean))]
fn inside<'t>(item: &Item<'t>) -> Siblings<'t>
    ensures trees { trees result.entries.now ≡ group_of (tree_at item.now) }
    ensures below { length result.entries.now ≤ length item.now.parts.entries.now }
{
    match item.what {
        What::Parts => item.parts,
        What::Leaf => Siblings { entries: &[] },
        What::Node(_) => Siblings { entries: &[] },
        What::Role(_) => Siblings { entries: &[] },
        What::Lean(_) => Siblings { entries: &[] },
    }
}

#[tactic(auto, using(crate::proofs::NodeLemmas::events_leaf, crate::proofs::NodeLemmas::events_node, crate::proofs::NodeLemmas::events_role, crate::proofs::NodeLemmas::events_parts, crate::proofs::NodeLemmas::events_lean))]
fn enter<'t>(
    source: &Source<'_>,
    out: &mut Items<Event>,
    stack: &mut Items<Frame<'t>>,
    item: &Item<'t>,
) -> Result<(), AllocError>
    ensures marks { OnOk result (out.new ++ ahead source.now.text.now source.now.tokens.now source.now.script source.now.strict stack.new ≡ out.old ++ (events_in source.now.text.now source.now.tokens.now source.now.script source.now.strict (tree_at item.now) ++ ahead source.now.text.now source.now.tokens.now source.now.script source.now.strict stack.old)) }
    ensures less { OnOk result (weight stack.new ≤ weight stack.old + 5 * cost (length item.now.parts.entries.now)) }
{
    match item.what {
        What::Leaf => Ok(()),
        What::Node(label) => enter_node(
            source,
            out,
            stack,
            &NodeAt {
                label,
                from: item.from,
                to: item.to,
                parts: item.parts,
            },
        ),
        What::Role(_) => put(source, stack, &item.parts, Todo::First),
        What::Parts => put(source, stack, &item.parts, Todo::Rest),
        What::Lean(_) => enter_lean(source, stack, &item.parts),
    }
}

fn enter_node<'t>(
    source: &Source<'_>,
    out: &mut Items<Event>,
    stack: &mut Items<Frame<'t>>,
    node: &NodeAt<'t>,
) -> Result<(), AllocError>
    ensures marks { OnOk result (out.new ++ ahead source.now.text.now source.now.tokens.now source.now.script source.now.strict stack.new ≡ out.old ++ (node_events source.now.text.now source.now.tokens.now source.now.script source.now.strict (node_now node.now) ++ ahead source.now.text.now source.now.tokens.now source.now.script source.now.strict stack.old)) }
    ensures less { OnOk result (weight stack.new ≤ weight stack.old + 5 * cost (length node.now.parts.entries.now)) }
{
    meet(source, out, node)?;
    if source.is_closed(node) {
        return Ok(());
    }
    put(source, stack, &node.parts, Todo::Rest)
}

fn meet(source: &Source<'_>, out: &mut Items<Event>, node: &NodeAt<'_>) -> Result<(), AllocError>
    ensures { OnOk result (out.new ≡ out.old ++ option_to_list (event_of source.now.text.now source.now.tokens.now source.now.script source.now.strict (node_now node.now))) }
{
    match source.event(node) {
        Some(event) => out.push(event),
        None => Ok(()),
    }
}

/// Nodes that lean left: a first operand, and turns; fewer are no node.
#[tactic(auto, using(crate::proofs::LeftLemmas::lean_none, crate::proofs::LeftLemmas::lean_one, crate::proofs::LeftLemmas::lean_both))]
fn enter_lean<'t>(
    source: &Source<'_>,
    stack: &mut Items<Frame<'t>>,
    parts: &Siblings<'t>,
) -> Result<(), AllocError>
    ensures marks { OnOk result (ahead source.now.text.now source.now.tokens.now source.now.script source.now.strict stack.new ≡ events_of_lean source.now.text.now source.now.tokens.now source.now.script source.now.strict (trees parts.now.entries.now) ++ ahead source.now.text.now source.now.tokens.now source.now.script source.now.strict stack.old) }
    ensures less { OnOk result (weight stack.new ≤ weight stack.old + 5 * cost (length parts.now.entries.now)) }
{
    match split_trees(parts) {
        None => Ok(()),
        Some((_, turns)) => match split_trees(&turns) {
            None => Ok(()),
            Some(_) => {
                put(source, stack, &turns, Todo::Turns)?;
                put(source, stack, parts, Todo::First)
            }
        },
    }
}
