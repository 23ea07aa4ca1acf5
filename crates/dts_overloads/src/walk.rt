//! The walk: a loop, with the parts that are left at each level on a stack.

ghost use Rattle.std.specs.Prelude.{◌≡◌, ◌+◌, ◌*◌, ◌≤◌, ◌<◌, ℕ, List, length, IfOk, IfSome, OnOk};
ghost use Rattle.es_token.specs.declared.token.Token.{Token as Tok};
ghost use Rattle.es_lowering.specs.Value.{part};
ghost use Rattle.es_syntax.specs.Held.{held};
ghost use Rattle.es_syntax.specs.Roles.{program_in};
ghost use Rattle.es_lexer.specs.Reads.{ReadsTokens};
ghost use Rattle.dts_overloads.specs.Overloads.{HasOverloads};
ghost use Rattle.dts_overloads.specs.Met.{both, one, met, way_of};
ghost use Rattle.dts_overloads.specs.Own.{own, row_met, item_met};
ghost use Rattle.dts_overloads.specs.Left.{operands_of, lean_told, Gives, Takes, frame_told, ahead, weight};

use crate::lists::{Act, act_of, add_own};
use crate::shapes::{Group, Owner};
use crate::ways::{Mode, group_of, reaches, ways};
use base::{Items, Range};
use es_grammar::NodeKind;
use es_syntax::{Item, Lean, Siblings, What};
use es_token::Token;
use es_walk::split_trees;
use std::alloc::{AllocError, Global};

/// Parts in a row that are left, and how the walk goes on over them.
#[derive(Clone, Copy)]
pub struct Frame<'t> {
    pub row: Siblings<'t>,
    pub mode: Mode,
}

#[tactic(auto, using(crate::proofs::WalkLemmas::ahead_more, crate::proofs::WalkLemmas::weight_more))]
fn put<'t>(stack: &mut Items<Frame<'t>>, row: &Siblings<'t>, mode: Mode) -> Result<(), AllocError>
    ensures told { OnOk result ((x : List ℕ) (ts : List Tok) → ahead x ts stack.new ≡ both (met (row_met x ts row.now.entries.now) (way_of mode)) (ahead x ts stack.old)) }
    ensures less { OnOk result (weight stack.new ≡ weight stack.old + (2 * length row.now.entries.now + 1)) }
{
    stack.push(Frame { row: *row, mode })?;
    Ok(())
}

/// A node: what it is itself, and before that is left what its parts are.
#[tactic(auto, using(crate::proofs::WalkLemmas::plain_takes, crate::proofs::WalkLemmas::own_takes))]
fn enter_node<'t>(
    alloc: Global,
    found: &mut Items<Range>,
    stack: &mut Items<Frame<'t>>,
    text: &str,
    tokens: &[Token],
    label: NodeKind,
    parts: &Siblings<'t>,
) -> Result<(), AllocError>
    requires { ReadsTokens text.now tokens.now }
    ensures takes { OnOk result (Takes (both (own label (held text.now tokens.now parts.now.entries.now) (row_met text.now tokens.now parts.now.entries.now)) (ahead text.now tokens.now stack.old)) (ahead text.now tokens.now stack.new) found.old found.new) }
    ensures less { OnOk result (weight stack.new ≤ weight stack.old + (2 * length parts.now.entries.now + 1)) }
{
    if let Some(act) = act_of(label) {
        add_own(alloc, found, text, tokens, act, parts)?;
    }
    put(stack, parts, Mode::Row(Owner::Node(label), 0))?;
    Ok(())
}

fn operands(lean: Lean) -> Group
    ensures { result ≡ operands_of lean }
{
    match lean {
        Lean::Binary => Group::Operands,
        Lean::TypedBinary => Group::TypedOperands,
    }
}

/// A chain of operators: a first operand, and turns; fewer are no node.
#[tactic(auto, using(crate::proofs::WalkLemmas::lean_none, crate::proofs::WalkLemmas::lean_one, crate::proofs::WalkLemmas::lean_more))]
fn enter_lean<'t>(
    stack: &mut Items<Frame<'t>>,
    lean: Lean,
    parts: &Siblings<'t>,
) -> Result<(), AllocError>
    ensures told { OnOk result ((x : List ℕ) (ts : List Tok) → ahead x ts stack.new ≡ both (lean_told lean (row_met x ts parts.now.entries.now)) (ahead x ts stack.old)) }
    ensures less { OnOk result (weight stack.new ≤ weight stack.old + (2 * length parts.now.entries.now + 1)) }
{
    match split_trees(parts) {
        None => Ok(()),
        Some((_, others)) => match split_trees(&others) {
            None => Ok(()),
            Some(_) => {
                put(stack, parts, Mode::Row(Owner::Group(operands(lean)), 0))?;
                Ok(())
            }
        },
    }
}

/// The node that the item is.
#[tactic(auto, using(crate::proofs::WalkLemmas::one_leaf, crate::proofs::WalkLemmas::one_node, crate::proofs::WalkLemmas::one_role, crate::proofs::WalkLemmas::one_parts, crate::proofs::WalkLemmas::one_lean))]
fn enter_one<'t>(
    alloc: Global,
    found: &mut Items<Range>,
    stack: &mut Items<Frame<'t>>,
    text: &str,
    tokens: &[Token],
    item: &Item<'t>,
) -> Result<(), AllocError>
    requires { ReadsTokens text.now tokens.now }
    ensures takes { OnOk result (Takes (both (met (item_met text.now tokens.now item.now) one) (ahead text.now tokens.now stack.old)) (ahead text.now tokens.now stack.new) found.old found.new) }
    ensures less { OnOk result (weight stack.new ≤ weight stack.old + (2 * length item.now.parts.entries.now + 1)) }
{
    match item.what {
        What::Leaf => Ok(()),
        What::Node(label) => {
            enter_node(alloc, found, stack, text, tokens, label, &item.parts)?;
            Ok(())
        }
        What::Role(_) => {
            put(stack, &item.parts, Mode::Row(Owner::Group(Group::First), 0))?;
            Ok(())
        }
        What::Parts => Ok(()),
        What::Lean(lean) => {
            enter_lean(stack, lean, &item.parts)?;
            Ok(())
        }
    }
}

/// The item, on this way.
#[tactic(auto, using(crate::proofs::WalkLemmas::group_takes, crate::proofs::WalkLemmas::spot_takes, crate::proofs::WalkLemmas::passed_takes))]
fn enter<'t>(
    alloc: Global,
    found: &mut Items<Range>,
    stack: &mut Items<Frame<'t>>,
    text: &str,
    tokens: &[Token],
    item: &Item<'t>,
    mode: Mode,
) -> Result<(), AllocError>
    requires { ReadsTokens text.now tokens.now }
    ensures takes { OnOk result (Takes (both (met (item_met text.now tokens.now item.now) (way_of mode)) (ahead text.now tokens.now stack.old)) (ahead text.now tokens.now stack.new) found.old found.new) }
    ensures less { OnOk result (weight stack.new ≤ weight stack.old + (2 * length item.now.parts.entries.now + 1)) }
{
    match group_of(item) {
        Some(row) => {
            put(stack, &row, mode)?;
            Ok(())
        }
        None => {
            if reaches(mode) {
                enter_one(alloc, found, stack, text, tokens, item)?;
                return Ok(());
            }
            Ok(())
        }
    }
}

/// The first part of those that are left at a level; the others are left.
#[tactic(auto, using(crate::proofs::WalkLemmas::none_takes, crate::proofs::WalkLemmas::some_takes))]
fn advance<'t>(
    alloc: Global,
    found: &mut Items<Range>,
    stack: &mut Items<Frame<'t>>,
    text: &str,
    tokens: &[Token],
    frame: Frame<'t>,
) -> Result<(), AllocError>
    requires { ReadsTokens text.now tokens.now }
    ensures takes { OnOk result (Takes (both (frame_told text.now tokens.now frame.entry) (ahead text.now tokens.now stack.old)) (ahead text.now tokens.now stack.new) found.old found.new) }
    ensures less { OnOk result (weight stack.new < weight stack.old + (2 * length frame.entry.row.entries.now + 1)) }
{
    let Frame { row, mode } = frame;
    match split_trees(&row) {
        None => Ok(()),
        Some((item, others)) => {
            let (inward, onward) = ways(mode, &item);
            put(stack, &others, onward)?;
            enter(alloc, found, stack, text, tokens, &item, inward)?;
            Ok(())
        }
    }
}

/// All that is left.
#[tactic(auto, using(crate::proofs::WalkLemmas::walk_start, crate::proofs::WalkLemmas::walk_next, crate::proofs::WalkLemmas::walk_done))]
fn walk_all<'t>(
    alloc: Global,
    found: &mut Items<Range>,
    stack: &mut Items<Frame<'t>>,
    text: &str,
    tokens: &[Token],
) -> Result<(), AllocError>
    requires { ReadsTokens text.now tokens.now }
    ensures { OnOk result (Gives (ahead text.now tokens.now stack.old) found.old found.new) }
{
    while let Some(frame) = stack.pop() {
        advance(alloc, found, stack, text, tokens, frame)?;
    }
    Ok(())
}

/// The range of each function, method or constructor with a body that directly follows one of its name without, of the
/// program that is first in a row. That of an exported function is the range of its item. Out of memory is the only error
/// of a program's row.
#[tactic(auto, using(crate::proofs::WalkLemmas::finds))]
pub fn overloads(
    alloc: Global,
    text: &str,
    tokens: &[Token],
    row: &Siblings<'_>,
) -> Result<Items<Range>, AllocError>
    requires { ReadsTokens text.now tokens.now }
    ensures { IfOk result (λ found. HasOverloads (program_in (part (held text.now tokens.now row.now.entries.now) 0)) found) }
{
    let mut found = Items::new(alloc);
    let mut stack = Items::new(alloc);
    put(&mut stack, row, Mode::Row(Owner::Group(Group::First), 0))?;
    walk_all(alloc, &mut found, &mut stack, text, tokens)?;
    Ok(found)
}
