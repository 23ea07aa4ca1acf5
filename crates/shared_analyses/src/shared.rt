//! A slot for each answer, which is set once.
ghost use Rattle.std.specs.Prelude.{◌≡◌, ◌<◌, Some, None, length, slice_get, IfSome, IfOk, IsOkAnd};
ghost use Rattle.once_cell.specs.Once.{cell_name};
ghost use Rattle.graph_entry.specs.Specifier.{text_of};
ghost use Rattle.shared_analyses.specs.Shared.{IsOf};
ghost use Rattle.shared_analyses.specs.Answered.{IsRight, IsKeptAs, IsMade, IsPair, Learns, Tells};

use crate::kept::{Kept, keep};
use crate::same::is_same;
use base::Items;
use deno_graph::analyzer::analyse;
use graph_entry::{Entry, LoadAnswer};
use once_cell::race::{Note, OnceBox};
use std::alloc::{AllocError, Global};
use url::Url;

/// What is known of one slot. It is zero-sized.
#[derive(Drop)]
pub struct AnalysisNote {
    note: Note<Kept>,
}

/// The analyses of answers, which threads share by reference.
#[derive(Drop)]
pub struct SharedAnalyses {
    alloc: Global,
    answers: Items<(Url, LoadAnswer)>,
    slots: Items<OnceBox<Kept>>,
    ghost counted: { length slots ≡ length answers },
}

/// The entry of an answer.
#[derive(Drop)]
pub enum SharedEntry<'a> {
    /// That of the slot.
    Kept(&'a Entry),
    /// One that this call made, since the slot keeps another pair.
    Own(Entry),
}

impl SharedAnalyses {
    /// Nothing is analysed yet.
    pub fn new(
        alloc: Global,
        answers: Items<(Url, LoadAnswer)>,
    ) -> Result<SharedAnalyses, AllocError>
        ensures { IfOk result (λ s. s.answers ≡ answers) }
    {
        let slots = empty_slots(alloc, answers.len())?;
        Ok(SharedAnalyses {
            alloc,
            answers,
            slots,
        })
    }

    /// How many answers there are.
    pub fn len(&self) -> usize
        ensures { result ≡ length self.now.answers }
    {
        self.answers.len()
    }

    /// A note of a slot, which knows nothing.
    pub fn note(&self, i: usize) -> AnalysisNote
        requires { i < length self.now.answers }
        ensures cell { IfSome (slice_get self.now.slots i) (λ c. result.note.cell ≡ cell_name c) }
        ensures knows { result.note.known ≡ None }
    {
        AnalysisNote {
            note: self.slots.as_slice()[i].note(),
        }
    }

    /// The entry of the `i`-th answer.
    pub fn get_or_analyse<'a>(
        &'a self,
        i: usize,
        note: &mut AnalysisNote,
    ) -> Result<SharedEntry<'a>, AllocError>
        requires range { i < length self.now.answers }
        requires cell { IfSome (slice_get self.now.slots i) (λ c. note.old.note.cell ≡ cell_name c) }
        ensures cell { note.new.note.cell ≡ note.old.note.cell }
        // It is what the `i`-th answer means.
        ensures right { IfOk result (λ r. IfSome (slice_get self.now.answers i) (λ p. IsRight p r)) }
        // What a note knows stays, and it is answered again, without memory.
        ensures stays { IfSome note.old.note.known (λ k. note.new.note.known ≡ Some k) }
        ensures kept { IfSome note.old.note.known (λ k. IfSome (slice_get self.now.answers i)
            (λ p. IsPair k p → IsOkAnd result (IsKeptAs k.entry))) }
        // With an answer it knows what the slot keeps: the `i`-th pair where the slot's entry is answered, else another one.
        ensures learns { IfOk result (λ r. IfSome (slice_get self.now.answers i) (λ p. Learns p note.new.note.known r)) }
    {
        let alloc = self.alloc;
        let answers = self.answers.as_slice();
        let (specifier, answer) = &answers[i];
        match self.slots.as_slice()[i].get_or_try_init_as(
            move || keep(alloc, specifier, answer),
            &mut note.note,
        ) {
            Ok(kept) => return shown(alloc, kept, specifier, answer),
            Err(_) => return Err(AllocError),
        }
    }
}

// So many slots, which keep nothing yet.
fn empty_slots(alloc: Global, count: usize) -> Result<Items<OnceBox<Kept>>, AllocError>
    ensures { IfOk result (λ slots. length slots ≡ count) }
{
    let mut slots = Items::new(alloc);
    for _ in 0..count {
        slots.push(OnceBox::new(alloc))?;
    }
    Ok(slots)
}

// The slot's entry, where the slot keeps this pair.
#[tactic(auto, using(crate::proofs::KeptLemmas::kept_lemmas))]
fn shown<'a>(
    alloc: Global,
    kept: &'a Kept,
    specifier: &Url,
    answer: &LoadAnswer,
) -> Result<SharedEntry<'a>, AllocError>
    ensures right { IfOk result (IsRight (specifier.now, answer.now)) }
    ensures kept { IsPair kept.now (specifier.now, answer.now) → IsOkAnd result (IsKeptAs kept.now.entry) }
    ensures tells { IfOk result (Tells (specifier.now, answer.now) kept.now) }
{
    if kept.specifier != *specifier {
        return own(alloc, specifier, answer);
    }
    if !is_same(&kept.answer, answer) {
        return own(alloc, specifier, answer);
    }
    Ok(SharedEntry::Kept(&kept.entry))
}

// An entry that this call makes.
fn own<'a>(
    alloc: Global,
    specifier: &Url,
    answer: &LoadAnswer,
) -> Result<SharedEntry<'a>, AllocError>
    ensures right { IfOk result (IsRight (specifier.now, answer.now)) }
    ensures made { IfOk result IsMade }
{
    match answer.copy() {
        Ok(copy) => match analyse(alloc, specifier, copy) {
            Ok(entry) => return Ok(SharedEntry::Own(entry)),
            Err(_) => return Err(AllocError),
        },
        Err(_) => return Err(AllocError),
    }
}

// All of it crosses threads.
fn crosses<T: Send + Sync>(_: &T) {}

fn shared_crosses(analyses: &SharedAnalyses) {
    crosses(analyses);
}
