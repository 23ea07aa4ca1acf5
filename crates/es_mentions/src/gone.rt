//! Tokens that leave no names at run time, and the names that are left.

ghost use Rattle.std.specs.Prelude.{◌≡◌, ◌+◌, ◌==◌, ◌<◌, ◌≤◌, ◌||◌, ◌&&◌, ◌++◌, ◌∷◌, [], ℕ, true, nat_le, length, filter, if◌then◌else◌, IfOk, OnOk};
ghost use Rattle.es_mentions.specs.Mentions.{is_gone_in, is_gone_token};
ghost use Rattle.es_mentions.specs.Bits.{bit_in, AreGone, lives_by};

use crate::listed::Event;
use base::Items;
use es_scopes::Mark;
use std::alloc::{AllocError, Global};

fn bit(bits: &[bool], at: usize) -> bool
    ensures { result ≡ bit_in bits.now at }
{
    match bits.get(at) {
        Some(bit) => *bit,
        None => false,
    }
}

/// At least as many.
#[tactic(auto, using(crate::proofs::GoneLemmas::bit_more))]
fn grow(bits: &mut Items<bool>, count: usize) -> Result<(), AllocError>
    ensures long { OnOk result (count ≤ length bits.new) }
    ensures same { OnOk result ((n : ℕ) → bit_in bits.new n ≡ bit_in bits.old n) }
{
    while bits.len() < count {
        bits.push(false)?;
    }
    Ok(())
}

#[tactic(auto, using(crate::proofs::GoneLemmas::bit_set))]
fn set(bits: &mut Items<bool>, at: usize)
    requires { at < length bits.old }
    ensures long { length bits.new ≡ length bits.old }
    ensures set { (n : ℕ) → bit_in bits.new n ≡ (if at == n then true else bit_in bits.old n) }
{
    bits.set(at, true);
}

/// These tokens too.
#[tactic(auto, using(crate::proofs::GoneLemmas::range_none, crate::proofs::GoneLemmas::range_more, crate::proofs::GoneLemmas::range_end, crate::proofs::GoneLemmas::range_empty))]
fn erase(bits: &mut Items<bool>, from: u32, last: u32) -> Result<(), AllocError>
    ensures { OnOk result ((n : ℕ) → bit_in bits.new n ≡ (bit_in bits.old n || (nat_le from n && nat_le n last))) }
{
    if last < from {
        return Ok(());
    }
    let (from, last) = (from as usize, last as usize);
    grow(bits, last + 1)?;
    let mut at = from;
    while at <= last {
        set(bits, at);
        at += 1;
    }
    Ok(())
}

fn erase_by(bits: &mut Items<bool>, event: Event) -> Result<(), AllocError>
    ensures { OnOk result ((n : ℕ) → bit_in bits.new n ≡ (bit_in bits.old n || is_gone_in event n)) }
{
    match event {
        Event::Gone(from, last) => erase(bits, from, last),
        Event::Listed(_) => Ok(()),
    }
}

/// Whether each token is gone, by its number.
#[tactic(auto, using(crate::proofs::GoneLemmas::gone_begin, crate::proofs::GoneLemmas::gone_more, crate::proofs::GoneLemmas::gone_end))]
pub fn gone_tokens(alloc: Global, events: &[Event]) -> Result<Items<bool>, AllocError>
    ensures { IfOk result (λ bits. AreGone bits events.now) }
{
    let mut bits = Items::new(alloc);
    let mut row = events;
    while let Some((event, rest)) = row.split_first() {
        erase_by(&mut bits, *event)?;
        row = rest;
    }
    Ok(bits)
}

fn lives(bits: &[bool], mark: Mark) -> bool
    ensures { result ≡ lives_by bits.now mark }
{
    match mark {
        Mark::Name(_, token) => !bit(bits, token as usize),
        Mark::Open(_) => true,
        Mark::Close => true,
    }
}

fn keep(out: &mut Items<Mark>, bits: &[bool], mark: Mark) -> Result<(), AllocError>
    ensures { OnOk result (out.new ≡ out.old ++ (if lives_by bits.now mark then mark ∷ [] else [])) }
{
    if lives(bits, mark) {
        return out.push(mark);
    }
    Ok(())
}

/// The scopes, and the names that aren't gone.
#[tactic(auto, using(crate::proofs::ListLemmas::keep_more, crate::proofs::ListLemmas::keep_end))]
pub fn living(alloc: Global, bits: &[bool], marks: &[Mark]) -> Result<Items<Mark>, AllocError>
    ensures { IfOk result (λ left. left ≡ filter (lives_by bits.now) marks.now) }
{
    let mut out = Items::new(alloc);
    let mut row = marks;
    while let Some((mark, rest)) = row.split_first() {
        keep(&mut out, bits, *mark)?;
        row = rest;
    }
    Ok(out)
}
