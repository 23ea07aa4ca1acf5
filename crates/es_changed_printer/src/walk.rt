//! The walk of a changed row to its pieces. It goes down by the nodes, and over lists and chains of operators by loops.

ghost use Rattle.std.specs.Prelude.{◌≡◌, OnOk, IfOk};
ghost use Rattle.es_syntax.specs.Held.{label_of};
ghost use Rattle.es_printer.specs.Sheet.{node, up_to};
ghost use Rattle.es_printer.specs.Laid.{Grows};
ghost use Rattle.es_changed_printer.specs.declared.signs.Place.TheVariants as place;
ghost use Rattle.es_changed_printer.specs.Signs.{alternative};
ghost use Rattle.es_changed_printer.specs.Pieces.{parts, part_at, last_of, go_on, all, first, run, made_form, standing, form_by, turn, turned, leant, leaning};

use crate::form::{counted, is_part, open, push_ahead, shut};
use crate::rows::split;
use crate::signs::{Place, alternative, style_in, word_sign};
use es_changed::{Change, ChangedItem, ChangedSiblings, Form};
use es_grammar::NodeKind;
use es_printer::{Draft, Piece, Source, Style, before, behind, style_of, up_to};
use es_syntax::{Lean, What};
use std::alloc::AllocError;

/// The alternative of left-associative nodes.
fn label_of(lean: Lean) -> NodeKind
    ensures { result ≡ label_of lean }
{
    match lean {
        Lean::Binary => NodeKind::Binary,
        Lean::TypedBinary => NodeKind::TypedBinary,
    }
}

/// The text goes on with this token.
#[tactic(auto, using(crate::proofs::WalkLemmas::gone))]
fn go_on(out: &mut Draft<'_>, source: &Source<'_>, to: u32)
    ensures { Grows source.now (go_on to) out.old out.new }
{
    let _ = source;
    out.next = to;
}

/// The text up to the first of these tokens is printed, and goes on with the second.
#[tactic(auto, using(crate::proofs::WalkLemmas::dropped_grows))]
fn drop_tokens(
    out: &mut Draft<'_>,
    source: &Source<'_>,
    here: Style,
    from: u32,
    to: u32,
) -> Result<(), AllocError>
    ensures { OnOk result (Grows source.now (λ s. go_on to (up_to source.now.tokens.now here from s)) out.old out.new) }
{
    up_to(out, source, here, from)?;
    go_on(out, source, to);
    Ok(())
}

/// Nothing is printed.
#[tactic(auto, using(crate::proofs::WalkLemmas::leaf))]
fn nothing(out: &mut Draft<'_>, source: &Source<'_>) -> Result<(), AllocError>
    ensures { OnOk result (Grows source.now (λ s. s) out.old out.new) }
{
    let _ = out;
    let _ = source;
    Ok(())
}

/// What is printed of an item, in a node of this style.
#[cycle(walk)]
pub fn walk(
    out: &mut Draft<'_>,
    source: &Source<'_>,
    here: Style,
    item: ChangedItem<'_>,
) -> Result<(), AllocError>
    ensures { OnOk result (Grows source.now ((part_at source.now.tokens.now item.entry).shown here) out.old out.new) }
{
    match item.change {
        Change::Old(What::Leaf) => nothing(out, source),
        Change::Old(What::Node(label)) => node(out, source, here, label, item),
        Change::Old(What::Role(_)) => first(out, source, here, item.parts),
        Change::Old(What::Parts) => all(out, source, here, item.parts),
        Change::Old(What::Lean(lean)) => leaning(out, source, here, lean, item.from, item.parts),
        Change::Form(form) => form_node(out, source, here, form, item),
        Change::Word(word) => out.push(source, Piece::Made(word_sign(word))),
        Change::Gone => drop_tokens(out, source, here, item.from, item.to),
    }
}

/// A node, by its alternative.
#[cycle(walk)]
#[tactic(auto, using(crate::proofs::WalkLemmas::node_grows))]
fn node(
    out: &mut Draft<'_>,
    source: &Source<'_>,
    here: Style,
    label: NodeKind,
    item: ChangedItem<'_>,
) -> Result<(), AllocError>
    ensures { OnOk result (Grows source.now (node source.now.tokens.now label item.entry.from item.entry.to (all (parts source.now.tokens.now item.entry.parts.entries.now)) here) out.old out.new) }
{
    let own = style_of(label);
    up_to(out, source, here, item.from)?;
    before(out, source, here, own, item.from)?;
    all(out, source, own, item.parts)?;
    up_to(out, source, own, item.to)?;
    behind(out, source, here, label, item.to)
}

/// The first part.
#[cycle(walk)]
#[tactic(auto, using(crate::proofs::WalkLemmas::first_none, crate::proofs::WalkLemmas::first_some))]
pub fn first(
    out: &mut Draft<'_>,
    source: &Source<'_>,
    here: Style,
    row: ChangedSiblings<'_>,
) -> Result<(), AllocError>
    ensures { OnOk result (Grows source.now (first (parts source.now.tokens.now row.entry.entries.now) here) out.old out.new) }
{
    match split(&row) {
        Some((part, _)) => walk(out, source, here, part),
        None => Ok(()),
    }
}

/// All parts, one after the other.
#[cycle(walk)]
fn all(
    out: &mut Draft<'_>,
    source: &Source<'_>,
    own: Style,
    whole: ChangedSiblings<'_>,
) -> Result<(), AllocError>
    ensures { OnOk result (Grows source.now (all (parts source.now.tokens.now whole.entry.entries.now) own) out.old out.new) }
{
    let mut row = whole;
    while let Some((part, rest)) = split(&row) {
        walk(out, source, own, part)?;
        row = rest;
    }
    Ok(())
}

/// A form.
#[cycle(walk)]
fn form_node(
    out: &mut Draft<'_>,
    source: &Source<'_>,
    here: Style,
    form: Form,
    item: ChangedItem<'_>,
) -> Result<(), AllocError>
    ensures { OnOk result (Grows source.now (form_by source.now.tokens.now (alternative form) form item.entry.from item.entry.to (parts source.now.tokens.now item.entry.parts.entries.now) here) out.old out.new) }
{
    match alternative(form) {
        Some(label) => standing(out, source, here, label, form, item),
        None => made(out, source, here, form, item),
    }
}

/// A form that is in the text, with its tokens.
#[cycle(walk)]
#[tactic(auto, using(crate::proofs::WalkLemmas::standing_grows))]
fn standing(
    out: &mut Draft<'_>,
    source: &Source<'_>,
    here: Style,
    label: NodeKind,
    form: Form,
    item: ChangedItem<'_>,
) -> Result<(), AllocError>
    ensures { OnOk result (Grows source.now (standing source.now.tokens.now label form item.entry.from item.entry.to (parts source.now.tokens.now item.entry.parts.entries.now) here) out.old out.new) }
{
    let own = style_of(label);
    up_to(out, source, here, item.from)?;
    before(out, source, here, own, item.from)?;
    open(out, source, form, item.from)?;
    run(out, source, own, form, item.parts)?;
    up_to(out, source, own, item.to)?;
    shut(out, source, form)?;
    up_to(out, source, own, item.to)?;
    behind(out, source, here, label, item.to)
}

/// A form that no text has.
#[cycle(walk)]
#[tactic(auto, using(crate::proofs::WalkLemmas::made_grows))]
fn made(
    out: &mut Draft<'_>,
    source: &Source<'_>,
    here: Style,
    form: Form,
    item: ChangedItem<'_>,
) -> Result<(), AllocError>
    ensures { OnOk result (Grows source.now (made_form form item.entry.from (parts source.now.tokens.now item.entry.parts.entries.now) here) out.old out.new) }
{
    open(out, source, form, item.from)?;
    run(out, source, style_in(form, here), form, item.parts)?;
    shut(out, source, form)
}

/// The parts of a form, each after what is printed before it.
#[cycle(walk)]
fn run(
    out: &mut Draft<'_>,
    source: &Source<'_>,
    own: Style,
    form: Form,
    whole: ChangedSiblings<'_>,
) -> Result<(), AllocError>
    ensures { OnOk result (Grows source.now (run form place.First (parts source.now.tokens.now whole.entry.entries.now) own) out.old out.new) }
{
    let mut row = whole;
    let mut place = Place::First;
    while let Some((part, rest)) = split(&row) {
        let counts = is_part(part.change);
        push_ahead(out, source, form, place, counts)?;
        walk(out, source, own, part)?;
        place = counted(place, counts);
        row = rest;
    }
    Ok(())
}

/// A first operand and turns, one at least: fewer parts are no node.
#[cycle(walk)]
#[tactic(auto, using(crate::proofs::WalkLemmas::leaning_none, crate::proofs::WalkLemmas::leaning_one))]
fn leaning(
    out: &mut Draft<'_>,
    source: &Source<'_>,
    here: Style,
    lean: Lean,
    from: u32,
    row: ChangedSiblings<'_>,
) -> Result<(), AllocError>
    ensures { OnOk result (Grows source.now (leaning source.now.tokens.now lean from (parts source.now.tokens.now row.entry.entries.now) here) out.old out.new) }
{
    match split(&row) {
        None => Ok(()),
        Some((operand, turns)) => match split(&turns) {
            None => Ok(()),
            Some(_) => leaned(out, source, here, lean, from, operand, turns),
        },
    }
}

/// The first operand, and its turns.
#[cycle(walk)]
fn leaned(
    out: &mut Draft<'_>,
    source: &Source<'_>,
    here: Style,
    lean: Lean,
    from: u32,
    operand: ChangedItem<'_>,
    turns: ChangedSiblings<'_>,
) -> Result<(), AllocError>
    ensures { OnOk result (Grows source.now (leant source.now.tokens.now lean from (part_at source.now.tokens.now operand.entry) (parts source.now.tokens.now turns.entry.entries.now) here) out.old out.new) }
{
    up_to(out, source, here, from)?;
    before(out, source, here, Style::Operator, from)?;
    walk(out, source, Style::Operator, operand)?;
    let to = turned(out, source, turns, from)?;
    behind(out, source, here, label_of(lean), to)
}

/// The parts of a turn.
#[cycle(walk)]
#[tactic(auto, using(crate::proofs::WalkLemmas::leaf))]
fn turn(out: &mut Draft<'_>, source: &Source<'_>, item: ChangedItem<'_>) -> Result<(), AllocError>
    ensures { OnOk result (Grows source.now (turn (part_at source.now.tokens.now item.entry).is_group (part_at source.now.tokens.now item.entry).shown) out.old out.new) }
{
    match item.change {
        Change::Old(What::Parts) => all(out, source, Style::Operator, item.parts),
        Change::Old(What::Leaf) => Ok(()),
        Change::Old(What::Node(_)) => Ok(()),
        Change::Old(What::Role(_)) => Ok(()),
        Change::Old(What::Lean(_)) => Ok(()),
        Change::Form(_) => Ok(()),
        Change::Word(_) => Ok(()),
        Change::Gone => Ok(()),
    }
}

/// Operators with their operands; returns the number of the token after the last one.
#[cycle(walk)]
#[tactic(auto, using(crate::proofs::WalkLemmas::last_none))]
fn turned(
    out: &mut Draft<'_>,
    source: &Source<'_>,
    turns: ChangedSiblings<'_>,
    from: u32,
) -> Result<u32, AllocError>
    ensures shown { OnOk result (Grows source.now (turned source.now.tokens.now (parts source.now.tokens.now turns.entry.entries.now)) out.old out.new) }
    ensures to { IfOk result (λ to. to ≡ last_of from (parts source.now.tokens.now turns.entry.entries.now)) }
{
    let mut row = turns;
    let mut to = from;
    while let Some((operand, rest)) = split(&row) {
        turn(out, source, operand)?;
        up_to(out, source, Style::Operator, operand.to)?;
        to = operand.to;
        row = rest;
    }
    Ok(to)
}
