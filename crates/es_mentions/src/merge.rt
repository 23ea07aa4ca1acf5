//! Names and nodes in the order of the text.

ghost use Rattle.std.specs.Prelude.{◌≡◌, ◌++◌, nat_lt, option_to_list, IfOk, OnOk};
ghost use Rattle.es_mentions.specs.Mentions as spec;

use crate::listed::{Event, Mention};
use base::Items;
use std::alloc::{AllocError, Global};

fn add_listed(out: &mut Items<Mention>, event: Event) -> Result<(), AllocError>
    ensures { OnOk result (out.new ≡ out.old ++ option_to_list (spec.listed_in event)) }
{
    match event {
        Event::Listed(mention) => out.push(mention),
        Event::Gone(_, _) => Ok(()),
    }
}

/// What is listed of nodes.
#[tactic(auto, using(crate::proofs::ListLemmas::row_more, crate::proofs::ListLemmas::row_end))]
pub fn listed_nodes(alloc: Global, events: &[Event]) -> Result<Items<Mention>, AllocError>
    ensures { IfOk result (λ found. found ≡ spec.listed_nodes events.now) }
{
    let mut out = Items::new(alloc);
    let mut row = events;
    while let Some((event, rest)) = row.split_first() {
        add_listed(&mut out, *event)?;
        row = rest;
    }
    Ok(out)
}

fn is_early(mention: &Mention, at: usize) -> bool
    ensures { result ≡ nat_lt mention.now.range.start at }
{
    mention.range.start < at
}

/// Adds those at the front that start before this byte, and answers the others.
#[tactic(auto, using(crate::proofs::MergeLemmas::early_more, crate::proofs::MergeLemmas::early_stop, crate::proofs::MergeLemmas::early_end))]
fn take_early<'a>(
    out: &mut Items<Mention>,
    at: usize,
    others: &'a [Mention],
) -> Result<&'a [Mention], AllocError>
    ensures { IfOk result (λ left. (out.new ≡ out.old ++ spec.early at others.now) × (left.now ≡ spec.late at others.now)) }
{
    let mut row = others;
    while let Some((first, rest)) = row.split_first() {
        if !is_early(first, at) {
            return Ok(row);
        }
        out.push(*first)?;
        row = rest;
    }
    Ok(row)
}

fn add_all(out: &mut Items<Mention>, others: &[Mention]) -> Result<(), AllocError>
    ensures { OnOk result (out.new ≡ out.old ++ others.now) }
{
    for other in others {
        out.push(*other)?;
    }
    Ok(())
}

/// Each name, after the others that start before it; then what is left of them.
#[tactic(auto, using(crate::proofs::MergeLemmas::merged_more, crate::proofs::MergeLemmas::merged_end))]
pub fn merged(
    alloc: Global,
    names: &[Mention],
    others: &[Mention],
) -> Result<Items<Mention>, AllocError>
    ensures { IfOk result (λ found. found ≡ spec.merged names.now others.now) }
{
    let mut out = Items::new(alloc);
    let mut left = others;
    let mut row = names;
    while let Some((name, rest)) = row.split_first() {
        left = take_early(&mut out, name.range.start, left)?;
        out.push(*name)?;
        row = rest;
    }
    add_all(&mut out, left)?;
    Ok(out)
}
