//! The walk: a loop, with what is left at each level on a stack.

ghost use Rattle.std.specs.Prelude.{◌≡◌, ◌+◌, ◌-◌, ◌*◌, ◌≤◌, ◌<◌, ◌++◌, length, drop, slice_get, OnOk, IfSome};
ghost use Rattle.es_syntax.specs.Trees.{first_tree, trees};
ghost use Rattle.es_walk.specs.Part.{part, as_group, follow};
ghost use Rattle.es_walk.specs.Walk.{found, all_in, each, led, stands, lean_of, most_turns, by_step, by_steps, leaning, own, walked};
ghost use Rattle.es_walk.specs.Rows.{parts_of, part_in, leaning_in};
ghost use Rattle.es_walk.specs.Left.{steps_of, todo_marks, frame_marks, ahead, cost, todo_weight, frame_weight, weight};

use crate::analysis::Walk;
use crate::looks::{first, inside, part_at};
use crate::rows::split_trees;
use crate::step::{Path, Step};
use base::Items;
use es_grammar::NodeKind;
use es_syntax::{Item, Lean, Siblings, What};
use std::alloc::{AllocError, Global};

/// Whose steps they are.
#[derive(Clone, Copy)]
pub enum Owner<T: Copy> {
    Node(NodeKind),
    Turn(T),
    Operand(Lean),
}

/// What is still to be done over parts in a row.
#[derive(Clone, Copy)]
pub enum Todo<T: Copy> {
    /// The steps from this one on. The first number is how deep further lists may nest.
    Steps(usize, Owner<T>, usize),
    /// All nodes.
    Rest,
    /// The first part alone.
    First,
    /// Steps for each turn.
    Turns(usize, Owner<T>),
}

/// What is left at one level.
#[derive(Clone, Copy)]
pub struct Frame<'t, H: Copy, T: Copy> {
    pub here: H,
    pub parts: Siblings<'t>,
    pub todo: Todo<T>,
}

/// Adds what is met in the node that `item` is. Out of memory is the only error.
pub fn walk<P: Walk>(
    by: &P,
    alloc: Global,
    out: &mut Items<P::Mark>,
    here: P::Here,
    item: &Item<'_>,
) -> Result<(), AllocError>
    ensures { OnOk result (out.new ≡ out.old ++ found (part_in (P.rules by.now) item.now) here) }
{
    let mut stack = Items::new(alloc);
    enter(by, &mut stack, here, item)?;
    while let Some(frame) = stack.pop() {
        advance(by, out, &mut stack, frame)?;
    }
    Ok(())
}

/// Adds what is met in the first tree of a row; nothing where there is none.
pub fn walk_first<P: Walk>(
    by: &P,
    alloc: Global,
    out: &mut Items<P::Mark>,
    here: P::Here,
    row: &Siblings<'_>,
) -> Result<(), AllocError>
    ensures { OnOk result (out.new ≡ out.old ++ walked (P.rules by.now) (first_tree (trees row.now.entries.now)) here) }
{
    match split_trees(row) {
        Some((item, _)) => walk(by, alloc, out, here, &item),
        None => Ok(()),
    }
}

#[tactic(auto, using(crate::proofs::LeftLemmas::ahead_more, crate::proofs::LeftLemmas::weight_more))]
fn put<'t, P: Walk>(
    by: &P,
    stack: &mut Items<Frame<'t, P::Here, P::Turn>>,
    here: P::Here,
    parts: &Siblings<'t>,
    todo: Todo<P::Turn>,
) -> Result<(), AllocError>
    ensures marks { OnOk result (ahead (P.rules by.now) stack.new ≡ todo_marks (P.rules by.now) todo here (parts_of (P.rules by.now) parts.now.entries.now) ++ ahead (P.rules by.now) stack.old) }
    ensures less { OnOk result (weight stack.new ≡ weight stack.old + todo_weight todo (length parts.now.entries.now)) }
{
    stack.push(Frame {
        here,
        parts: *parts,
        todo,
    })?;
    Ok(())
}

fn lean_of(label: NodeKind) -> Option<Lean>
    ensures { result ≡ lean_of label }
{
    match label {
        NodeKind::Binary => Some(Lean::Binary),
        NodeKind::TypedBinary => Some(Lean::TypedBinary),
        _ => None,
    }
}

fn stands<H: Copy>(there: Option<H>, here: H) -> H
    ensures { result ≡ stands there here }
{
    match there {
        Some(there) => there,
        None => here,
    }
}

/// A first operand, and what follows it.
fn enter_operands<'t, P: Walk>(
    by: &P,
    stack: &mut Items<Frame<'t, P::Here, P::Turn>>,
    here: P::Here,
    lean: Lean,
    parts: &Siblings<'t>,
) -> Result<(), AllocError>
    ensures marks { OnOk result (ahead (P.rules by.now) stack.new ≡ leaning (P.rules by.now) lean (parts_of (P.rules by.now) parts.now.entries.now) here ++ ahead (P.rules by.now) stack.old) }
    ensures less { OnOk result (weight stack.new ≤ weight stack.old + 200 * cost (length parts.now.entries.now)) }
{
    match first(by, parts) {
        None => Ok(()),
        Some((_, others)) => {
            put(
                by,
                stack,
                here,
                &others,
                Todo::Steps(3, Owner::Operand(lean), 0),
            )?;
            put(by, stack, here, parts, Todo::First)
        }
    }
}

/// A node.
fn enter_node<'t, P: Walk>(
    by: &P,
    stack: &mut Items<Frame<'t, P::Here, P::Turn>>,
    here: P::Here,
    label: NodeKind,
    parts: &Siblings<'t>,
) -> Result<(), AllocError>
    ensures marks { OnOk result (ahead (P.rules by.now) stack.new ≡ own (P.rules by.now) label (parts_of (P.rules by.now) parts.now.entries.now) here ++ ahead (P.rules by.now) stack.old) }
    ensures less { OnOk result (weight stack.new ≤ weight stack.old + 200 * cost (length parts.now.entries.now)) }
{
    match lean_of(label) {
        None => put(
            by,
            stack,
            here,
            parts,
            Todo::Steps(3, Owner::Node(label), 0),
        ),
        Some(lean) => enter_operands(by, stack, stands(by.operands(lean), here), lean, parts),
    }
}

/// A left-associative chain.
fn enter_lean<'t, P: Walk>(
    by: &P,
    stack: &mut Items<Frame<'t, P::Here, P::Turn>>,
    here: P::Here,
    lean: Lean,
    parts: &Siblings<'t>,
) -> Result<(), AllocError>
    ensures marks { OnOk result (ahead (P.rules by.now) stack.new ≡ leaning_in (P.rules by.now) lean (parts_of (P.rules by.now) parts.now.entries.now) here ++ ahead (P.rules by.now) stack.old) }
    ensures less { OnOk result (weight stack.new ≤ weight stack.old + 200 * cost (length parts.now.entries.now)) }
{
    match first(by, parts) {
        None => Ok(()),
        Some((_, turns)) => match first(by, &turns) {
            None => Ok(()),
            Some(_) => {
                let there = stands(by.operands(lean), here);
                put(
                    by,
                    stack,
                    there,
                    &turns,
                    Todo::Turns(3, Owner::Operand(lean)),
                )?;
                put(by, stack, there, parts, Todo::First)
            }
        },
    }
}

/// The item, where it is a node.
#[tactic(auto, using(crate::proofs::WalkLemmas::walk_leaf, crate::proofs::WalkLemmas::walk_node, crate::proofs::WalkLemmas::walk_role, crate::proofs::WalkLemmas::walk_parts, crate::proofs::WalkLemmas::walk_lean))]
fn enter<'t, P: Walk>(
    by: &P,
    stack: &mut Items<Frame<'t, P::Here, P::Turn>>,
    here: P::Here,
    item: &Item<'t>,
) -> Result<(), AllocError>
    ensures marks { OnOk result (ahead (P.rules by.now) stack.new ≡ found (part_in (P.rules by.now) item.now) here ++ ahead (P.rules by.now) stack.old) }
    ensures less { OnOk result (weight stack.new ≤ weight stack.old + 200 * cost (length item.now.parts.entries.now)) }
{
    match item.what {
        What::Leaf => Ok(()),
        What::Node(label) => enter_node(by, stack, here, label, &item.parts),
        What::Role(_) => put(by, stack, here, &item.parts, Todo::First),
        What::Parts => Ok(()),
        What::Lean(lean) => enter_lean(by, stack, here, lean, &item.parts),
    }
}

/// The item, or what is in it if it is a group.
#[tactic(auto, using(crate::proofs::WalkLemmas::all_leaf, crate::proofs::WalkLemmas::all_node, crate::proofs::WalkLemmas::all_role, crate::proofs::WalkLemmas::all_parts, crate::proofs::WalkLemmas::all_lean))]
fn enter_all<'t, P: Walk>(
    by: &P,
    stack: &mut Items<Frame<'t, P::Here, P::Turn>>,
    here: P::Here,
    item: &Item<'t>,
) -> Result<(), AllocError>
    ensures marks { OnOk result (ahead (P.rules by.now) stack.new ≡ all_in (part_in (P.rules by.now) item.now) here ++ ahead (P.rules by.now) stack.old) }
    ensures less { OnOk result (weight stack.new ≤ weight stack.old + 200 * cost (length item.now.parts.entries.now)) }
{
    match item.what {
        What::Leaf => Ok(()),
        What::Node(label) => enter_node(by, stack, here, label, &item.parts),
        What::Role(_) => put(by, stack, here, &item.parts, Todo::First),
        What::Parts => put(by, stack, here, &item.parts, Todo::Rest),
        What::Lean(lean) => enter_lean(by, stack, here, lean, &item.parts),
    }
}

/// The node at a place.
fn enter_at<'t, P: Walk>(
    by: &P,
    stack: &mut Items<Frame<'t, P::Here, P::Turn>>,
    here: Option<P::Here>,
    parts: &Siblings<'t>,
    path: Path,
) -> Result<(), AllocError>
    ensures marks { OnOk result (ahead (P.rules by.now) stack.new ≡ led here (found (follow (parts_of (P.rules by.now) parts.now.entries.now) path)) ++ ahead (P.rules by.now) stack.old) }
    ensures less { OnOk result (weight stack.new ≤ weight stack.old + 3 * cost (length parts.now.entries.now)) }
{
    match here {
        None => Ok(()),
        Some(here) => match part_at(by, parts, path) {
            None => Ok(()),
            Some(item) => enter(by, stack, here, &item),
        },
    }
}

/// All nodes of the part at a place.
fn enter_all_at<'t, P: Walk>(
    by: &P,
    stack: &mut Items<Frame<'t, P::Here, P::Turn>>,
    here: Option<P::Here>,
    parts: &Siblings<'t>,
    path: Path,
) -> Result<(), AllocError>
    ensures marks { OnOk result (ahead (P.rules by.now) stack.new ≡ led here (all_in (follow (parts_of (P.rules by.now) parts.now.entries.now) path)) ++ ahead (P.rules by.now) stack.old) }
    ensures less { OnOk result (weight stack.new ≤ weight stack.old + 3 * cost (length parts.now.entries.now)) }
{
    match here {
        None => Ok(()),
        Some(here) => match part_at(by, parts, path) {
            None => Ok(()),
            Some(item) => enter_all(by, stack, here, &item),
        },
    }
}

/// All nodes of the parts.
fn enter_rest<'t, P: Walk>(
    by: &P,
    stack: &mut Items<Frame<'t, P::Here, P::Turn>>,
    here: Option<P::Here>,
    parts: &Siblings<'t>,
) -> Result<(), AllocError>
    ensures marks { OnOk result (ahead (P.rules by.now) stack.new ≡ led here (all_in (parts_of (P.rules by.now) parts.now.entries.now)) ++ ahead (P.rules by.now) stack.old) }
    ensures less { OnOk result (weight stack.new ≤ weight stack.old + 3 * cost (length parts.now.entries.now)) }
{
    match here {
        None => Ok(()),
        Some(here) => put(by, stack, here, parts, Todo::Rest),
    }
}

/// Each turn of a list.
fn enter_turns<'t, P: Walk>(
    by: &P,
    stack: &mut Items<Frame<'t, P::Here, P::Turn>>,
    deep: usize,
    here: Option<P::Here>,
    parts: &Siblings<'t>,
    path: Path,
    turn: P::Turn,
) -> Result<(), AllocError>
    ensures marks { OnOk result (ahead (P.rules by.now) stack.new ≡ led here (λ there. each (by_steps (P.rules by.now) deep ((P.rules by.now).turn turn) there) (as_group (follow (parts_of (P.rules by.now) parts.now.entries.now) path))) ++ ahead (P.rules by.now) stack.old) }
    ensures less { OnOk result (weight stack.new ≤ weight stack.old + 3 * cost (length parts.now.entries.now)) }
{
    match here {
        None => Ok(()),
        Some(here) => match part_at(by, parts, path) {
            None => Ok(()),
            Some(item) => put(
                by,
                stack,
                here,
                &inside(by, &item),
                Todo::Turns(deep, Owner::Turn(turn)),
            ),
        },
    }
}

/// One step.
fn take_step<'t, P: Walk>(
    by: &P,
    out: &mut Items<P::Mark>,
    stack: &mut Items<Frame<'t, P::Here, P::Turn>>,
    deep: usize,
    here: P::Here,
    parts: &Siblings<'t>,
    step: Step<P::Way, P::Act, P::Turn>,
) -> Result<(), AllocError>
    ensures marks { OnOk result (out.new ++ ahead (P.rules by.now) stack.new ≡ out.old ++ (by_step (P.rules by.now) deep here (parts_of (P.rules by.now) parts.now.entries.now) step ++ ahead (P.rules by.now) stack.old)) }
    ensures less { OnOk result (weight stack.new ≤ weight stack.old + 3 * cost (length parts.now.entries.now)) }
{
    match step {
        Step::Act(act) => by.act(out, here, parts, act),
        Step::Rest(way) => enter_rest(by, stack, by.leads(here, parts, way), parts),
        Step::At(way, path) => enter_at(by, stack, by.leads(here, parts, way), parts, path),
        Step::All(way, path) => enter_all_at(by, stack, by.leads(here, parts, way), parts, path),
        Step::Turns(way, path, turn) => {
            if deep == 0 {
                return Ok(());
            }
            enter_turns(
                by,
                stack,
                deep - 1,
                by.leads(here, parts, way),
                parts,
                path,
                turn,
            )
        }
    }
}

/// The steps.
fn steps_of<P: Walk>(by: &P, owner: Owner<P::Turn>) -> &'static [Step<P::Way, P::Act, P::Turn>]
    ensures value { result.now ≡ steps_of (P.rules by.now) owner }
    ensures short { length result.now ≤ 32 }
{
    match owner {
        Owner::Node(label) => by.plan(label),
        Owner::Turn(turn) => by.turn(turn),
        Owner::Operand(lean) => by.operand(lean),
    }
}

/// One of the steps, where there are as many.
fn step_at<P: Walk>(
    by: &P,
    owner: Owner<P::Turn>,
    at: usize,
) -> Option<Step<P::Way, P::Act, P::Turn>>
    ensures value { result ≡ slice_get (steps_of (P.rules by.now) owner) at }
    ensures short { IfSome result (λ step. at < 32) }
{
    steps_of(by, owner).get(at).copied()
}

/// The first step, where there is one; the others are left.
fn take_steps<'t, P: Walk>(
    by: &P,
    out: &mut Items<P::Mark>,
    stack: &mut Items<Frame<'t, P::Here, P::Turn>>,
    deep: usize,
    here: P::Here,
    parts: &Siblings<'t>,
    owner: Owner<P::Turn>,
    at: usize,
) -> Result<(), AllocError>
    ensures marks { OnOk result (out.new ++ ahead (P.rules by.now) stack.new ≡ out.old ++ (by_steps (P.rules by.now) deep (drop at (steps_of (P.rules by.now) owner)) here (parts_of (P.rules by.now) parts.now.entries.now) ++ ahead (P.rules by.now) stack.old)) }
    ensures less { OnOk result (weight stack.new < weight stack.old + ((32 - at) * (4 * cost (length parts.now.entries.now)) + 1)) }
{
    match step_at(by, owner, at) {
        None => Ok(()),
        Some(step) => {
            put(by, stack, here, parts, Todo::Steps(deep, owner, at + 1))?;
            take_step(by, out, stack, deep, here, parts, step)
        }
    }
}

/// All nodes of the first part; those after it are left.
fn take_rest<'t, P: Walk>(
    by: &P,
    stack: &mut Items<Frame<'t, P::Here, P::Turn>>,
    here: P::Here,
    parts: &Siblings<'t>,
) -> Result<(), AllocError>
    ensures marks { OnOk result (ahead (P.rules by.now) stack.new ≡ all_in (parts_of (P.rules by.now) parts.now.entries.now) here ++ ahead (P.rules by.now) stack.old) }
    ensures less { OnOk result (weight stack.new < weight stack.old + 2 * cost (length parts.now.entries.now)) }
{
    match first(by, parts) {
        None => Ok(()),
        Some((item, others)) => {
            put(by, stack, here, &others, Todo::Rest)?;
            enter_all(by, stack, here, &item)
        }
    }
}

/// The first part.
fn take_first<'t, P: Walk>(
    by: &P,
    stack: &mut Items<Frame<'t, P::Here, P::Turn>>,
    here: P::Here,
    parts: &Siblings<'t>,
) -> Result<(), AllocError>
    ensures marks { OnOk result (ahead (P.rules by.now) stack.new ≡ found (part (parts_of (P.rules by.now) parts.now.entries.now) 0) here ++ ahead (P.rules by.now) stack.old) }
    ensures less { OnOk result (weight stack.new < weight stack.old + 2 * cost (length parts.now.entries.now)) }
{
    match first(by, parts) {
        None => Ok(()),
        Some((item, _)) => enter(by, stack, here, &item),
    }
}

/// The first turn; those after it are left.
fn take_turn<'t, P: Walk>(
    by: &P,
    stack: &mut Items<Frame<'t, P::Here, P::Turn>>,
    deep: usize,
    here: P::Here,
    parts: &Siblings<'t>,
    owner: Owner<P::Turn>,
) -> Result<(), AllocError>
    ensures marks { OnOk result (ahead (P.rules by.now) stack.new ≡ each (by_steps (P.rules by.now) deep (steps_of (P.rules by.now) owner) here) (parts_of (P.rules by.now) parts.now.entries.now) ++ ahead (P.rules by.now) stack.old) }
    ensures less { OnOk result (weight stack.new < weight stack.old + cost (length parts.now.entries.now)) }
{
    match first(by, parts) {
        None => Ok(()),
        Some((item, others)) => {
            put(by, stack, here, &others, Todo::Turns(deep, owner))?;
            put(
                by,
                stack,
                here,
                &inside(by, &item),
                Todo::Steps(deep, owner, 0),
            )
        }
    }
}

/// One step of what is left at a level.
fn advance<'t, P: Walk>(
    by: &P,
    out: &mut Items<P::Mark>,
    stack: &mut Items<Frame<'t, P::Here, P::Turn>>,
    frame: Frame<'t, P::Here, P::Turn>,
) -> Result<(), AllocError>
    ensures marks { OnOk result (out.new ++ ahead (P.rules by.now) stack.new ≡ out.old ++ (frame_marks (P.rules by.now) frame.entry ++ ahead (P.rules by.now) stack.old)) }
    ensures less { OnOk result (weight stack.new < weight stack.old + frame_weight frame.entry) }
{
    let Frame { here, parts, todo } = frame;
    match todo {
        Todo::Steps(deep, owner, at) => {
            take_steps(by, out, stack, deep, here, &parts, owner, at)
        }
        Todo::Rest => take_rest(by, stack, here, &parts),
        Todo::First => take_first(by, stack, here, &parts),
        Todo::Turns(deep, owner) => take_turn(by, stack, deep, here, &parts, owner),
    }
}
