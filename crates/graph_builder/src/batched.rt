//! Batches: answers are taken in hand, analysed by halves in threads of their own, and become entries in their order. Where
//! a thread finds no memory, the caller analyses them alone.
ghost use Rattle.std.specs.Prelude.{◌≡◌, ◌≤◌, ◌<◌, true, [], length, IfOk, IfSome};
ghost use Rattle.std.specs.Thread.{IsSync};
ghost use Rattle.graph_builder.specs.Rules.{rules_by};
ghost use Rattle.graph_builder.specs.Graph.{texts};
ghost use Rattle.graph_builder.specs.Builder.{CameInTime};
ghost use Rattle.graph_builder.specs.Reaching.{todo_of};
ghost use Rattle.graph_builder.specs.Progress.{at, own_events, IsKeptAt, IsLive, GoesOnAt, OnlyAsks, Turns, Runs};
ghost use Rattle.graph_builder.specs.Batch.{Hand, IsTaking, AreMeant, TakesSome, FillsAll, Enters};

use crate::error::BuildError;
use crate::loader::{Loader, LoaderPoll};
use crate::progress::Progress;
use crate::reaching::GrowError;
use crate::ways::Ways;
use graph_entry::{Entry, LoadAnswer};
use std::alloc::{AllocError, Global};
use std::thread::{Threads, join};
use url::Url;

/// So often a batch is halved: four parts.
const HALVINGS: u32 = 2;

/// So many bytes a half has at least. A thread costs up to 230 microseconds, and this text some 2,500.
const LEAST_HALF: u64 = 131_072;

/// Answers in hand, and whether the loader had nothing to give after them.
#[derive(Drop)]
pub struct Taken {
    pub answers: Vec<(Url, LoadAnswer)>,
    pub waits: bool,
}

impl Progress {
    /// Asks for all that is reached and takes answers, so many at a time, until nothing is outstanding.
    pub fn run_batched<R: Threads + Sync, L: Loader, W: Ways + Sync>(
        &mut self,
        rt: &R,
        alloc: Global,
        ways: &W,
        loader: &mut L,
        batch: usize,
    ) -> Result<(), BuildError>
        requires live { IsLive (rules_by (W.means ways.now) (W.follows ways.now)) (at (L.seen loader.old) self.old) }
        requires size { 0 < batch }
        ensures runs { Runs (rules_by (W.means ways.now) (W.follows ways.now)) batch (at (L.seen loader.old) self.old) (at (L.seen loader.new) self.new) result }
        ensures in_time { CameInTime (rules_by (W.means ways.now) (W.follows ways.now)) (texts self.old.starts) (own_events (at (L.seen loader.new) self.new)) result }
        ensures kept { IsKeptAt (rules_by (W.means ways.now) (W.follows ways.now)) (at (L.seen loader.new) self.new) }
        ensures goes { GoesOnAt (at (L.seen loader.old) self.old) (at (L.seen loader.new) self.new) }
    {
        match self.begin(ways, loader) {
            Ok(()) => {}
            Err(GrowError::TooMany { seen }) => return Err(BuildError::TooManyModules { seen }),
            Err(GrowError::OutOfMemory) => return Err(BuildError::OutOfMemory),
        }
        'turns: loop {
            match self.turn_batched(rt, alloc, ways, loader, batch) {
                Ok(true) => {}
                Ok(false) => return Ok(()),
                Err(error) => return Err(error),
            }
        }
    }

    // Asks for all that is reached, and takes one batch. `false`: nothing is outstanding.
    fn turn_batched<R: Threads + Sync, L: Loader, W: Ways + Sync>(
        &mut self,
        rt: &R,
        alloc: Global,
        ways: &W,
        loader: &mut L,
        batch: usize,
    ) -> Result<bool, BuildError>
        requires live { IsLive (rules_by (W.means ways.now) (W.follows ways.now)) (at (L.seen loader.old) self.old) }
        requires begun { self.old.begun ≡ true }
        requires size { 0 < batch }
        ensures turns { Turns (rules_by (W.means ways.now) (W.follows ways.now)) batch (at (L.seen loader.old) self.old) (at (L.seen loader.new) self.new) result }
        ensures in_time { CameInTime (rules_by (W.means ways.now) (W.follows ways.now)) (texts self.old.starts) (own_events (at (L.seen loader.new) self.new)) result }
        ensures kept { IsKeptAt (rules_by (W.means ways.now) (W.follows ways.now)) (at (L.seen loader.new) self.new) }
        ensures goes { GoesOnAt (at (L.seen loader.old) self.old) (at (L.seen loader.new) self.new) }
    {
        match self.ask_all(alloc, ways, loader) {
            Ok(()) => {}
            Err(GrowError::TooMany { seen }) => return Err(BuildError::TooManyModules { seen }),
            Err(GrowError::OutOfMemory) => return Err(BuildError::OutOfMemory),
        }
        if self.taken == self.asked {
            return Ok(false);
        }
        self.poll_some(rt, alloc, ways, loader, batch)
    }

    // Takes one batch, and makes its entries.
    fn poll_some<R: Threads + Sync, L: Loader, W: Ways + Sync>(
        &mut self,
        rt: &R,
        alloc: Global,
        ways: &W,
        loader: &mut L,
        batch: usize,
    ) -> Result<bool, BuildError>
        requires live { IsLive (rules_by (W.means ways.now) (W.follows ways.now)) (at (L.seen loader.old) self.old) }
        requires begun { self.old.begun ≡ true }
        requires asked_all { todo_of self.old.reaching ≡ [] }
        requires open_yet { self.old.taken < self.old.asked }
        requires size { 0 < batch }
        ensures turns { Turns (rules_by (W.means ways.now) (W.follows ways.now)) batch (at (L.seen loader.old) self.old) (at (L.seen loader.new) self.new) result }
        ensures in_time { CameInTime (rules_by (W.means ways.now) (W.follows ways.now)) (texts self.old.starts) (own_events (at (L.seen loader.new) self.new)) result }
        ensures kept { IsKeptAt (rules_by (W.means ways.now) (W.follows ways.now)) (at (L.seen loader.new) self.new) }
        ensures goes { GoesOnAt (at (L.seen loader.old) self.old) (at (L.seen loader.new) self.new) }
    {
        let Taken { answers, waits } = match self.take_some(alloc, ways, loader, batch) {
            Ok(taken) => taken,
            Err(error) => return Err(error),
        };
        match analyse_all(rt, alloc, ways, answers) {
            Ok(made) => self.enter(alloc, ways, loader, made, waits),
            Err(_) => Err(BuildError::OutOfMemory),
        }
    }

    // Takes so many answers at most, while one is outstanding and the loader has one. What is followed is there for the
    // contract.
    fn take_some<L: Loader, W: Ways>(
        &mut self,
        alloc: Global,
        ways: &W,
        loader: &mut L,
        batch: usize,
    ) -> Result<Taken, BuildError>
        requires live { IsLive (rules_by (W.means ways.now) (W.follows ways.now)) (at (L.seen loader.old) self.old) }
        requires begun { self.old.begun ≡ true }
        requires asked_all { todo_of self.old.reaching ≡ [] }
        requires open_yet { self.old.taken < self.old.asked }
        requires size { 0 < batch }
        ensures takes { TakesSome (rules_by (W.means ways.now) (W.follows ways.now)) batch (at (L.seen loader.old) self.old) (at (L.seen loader.new) self.new) result }
        ensures in_time { CameInTime (rules_by (W.means ways.now) (W.follows ways.now)) (texts self.old.starts) (own_events (at (L.seen loader.new) self.new)) result }
        ensures kept { IsKeptAt (rules_by (W.means ways.now) (W.follows ways.now)) (at (L.seen loader.new) self.new) }
        ensures goes { GoesOnAt (at (L.seen loader.old) self.old) (at (L.seen loader.new) self.new) }
    {
        let _ = ways;
        let mut answers = Vec::new(alloc);
        'taking: loop {
            if answers.len() >= batch || self.taken == self.asked {
                return Ok(Taken {
                    answers,
                    waits: false,
                });
            }
            // The proof learns from it that one can be added to the lower count.
            let _asked = self.asked;
            match loader.poll() {
                Ok(LoaderPoll::Answer(specifier, answer)) => {
                    self.taken += 1;
                    if !self.reaching.take_in_hand(&specifier) {
                        return Err(BuildError::UnaskedAnswer(specifier));
                    }
                    match answers.push((specifier, answer)) {
                        Ok(()) => {}
                        Err(_) => return Err(BuildError::OutOfMemory),
                    }
                }
                Ok(LoaderPoll::Pending) => {
                    return Ok(Taken {
                        answers,
                        waits: true,
                    });
                }
                Err(_) => return Err(BuildError::OutOfMemory),
            }
        }
    }

    // The answers in hand have these entries. Where the loader waits, all that is reached is asked for.
    fn enter<L: Loader, W: Ways>(
        &mut self,
        alloc: Global,
        ways: &W,
        loader: &mut L,
        made: Vec<(Url, Entry)>,
        waits: bool,
    ) -> Result<bool, BuildError>
        requires held { (hand : Hand) × IsTaking (rules_by (W.means ways.now) (W.follows ways.now)) (at (L.seen loader.old) self.old) hand
            × AreMeant (W.means ways.now) hand made.items }
        ensures enters { Enters (rules_by (W.means ways.now) (W.follows ways.now)) waits (at (L.seen loader.old) self.old) (at (L.seen loader.new) self.new) result }
        ensures kept { IsKeptAt (rules_by (W.means ways.now) (W.follows ways.now)) (at (L.seen loader.new) self.new) }
        ensures asks { OnlyAsks (at (L.seen loader.old) self.old) (at (L.seen loader.new) self.new) }
    {
        match self.fill_all(ways, loader, made) {
            Ok(()) => {}
            Err(GrowError::TooMany { seen }) => return Err(BuildError::TooManyModules { seen }),
            Err(GrowError::OutOfMemory) => return Err(BuildError::OutOfMemory),
        }
        if !waits {
            return Ok(true);
        }
        match self.ask_all(alloc, ways, loader) {
            Ok(()) => Err(BuildError::NotYet),
            Err(GrowError::TooMany { seen }) => Err(BuildError::TooManyModules { seen }),
            Err(GrowError::OutOfMemory) => Err(BuildError::OutOfMemory),
        }
    }

    // The answers in hand have these entries: what the entries lead to is reached. The loader is there for the contract.
    fn fill_all<L: Loader, W: Ways>(
        &mut self,
        ways: &W,
        loader: &mut L,
        made: Vec<(Url, Entry)>,
    ) -> Result<(), GrowError>
        requires held { (hand : Hand) × IsTaking (rules_by (W.means ways.now) (W.follows ways.now)) (at (L.seen loader.old) self.old) hand
            × AreMeant (W.means ways.now) hand made.items }
        ensures fills { FillsAll (rules_by (W.means ways.now) (W.follows ways.now)) (at (L.seen loader.old) self.old) (at (L.seen loader.new) self.new) result }
        ensures kept { IsKeptAt (rules_by (W.means ways.now) (W.follows ways.now)) (at (L.seen loader.new) self.new) }
        ensures asks { OnlyAsks (at (L.seen loader.old) self.old) (at (L.seen loader.new) self.new) }
    {
        // The contract speaks of it.
        let _ = loader;
        for (url, entry) in made {
            match self.reaching.fill_in_hand(ways, &url, entry) {
                Ok(()) => {}
                Err(error) => return Err(error),
            }
        }
        Ok(())
    }
}

// The entries of answers, in their order: by halves, and where a half finds no memory by the caller alone.
fn analyse_all<R: Threads + Sync, W: Ways + Sync>(
    rt: &R,
    alloc: Global,
    ways: &W,
    answers: Vec<(Url, LoadAnswer)>,
) -> Result<Vec<(Url, Entry)>, AllocError>
    ensures { IfOk result (λ made. AreMeant (W.means ways.now) answers.items made.items) }
{
    if middle(answers.as_slice()).is_some() {
        match analyse_by_halves(rt, alloc, ways, HALVINGS, answers.as_slice()) {
            Ok(made) => return Ok(made),
            // The threads have ended, and what they held is free again.
            Err(_) => {}
        }
    }
    analyse_in_turn(alloc, ways, answers)
}

/// The entries of answers, in their order, one after another.
#[tactic(auto, using(std::proofs::lemmas::Slice::Zip::all_zipped_more))]
pub fn analyse_in_turn<W: Ways>(
    alloc: Global,
    ways: &W,
    answers: Vec<(Url, LoadAnswer)>,
) -> Result<Vec<(Url, Entry)>, AllocError>
    ensures { IfOk result (λ made. AreMeant (W.means ways.now) answers.items made.items) }
{
    let mut made = Vec::with_capacity(alloc, answers.len())?;
    for (url, answer) in answers {
        let entry = ways.analyse(alloc, &url, answer)?;
        made.push((url, entry))?;
    }
    Ok(made)
}

// The same of answers that stay: their bytes are shared.
#[tactic(auto, using(std::proofs::lemmas::Slice::Zip::all_zipped_more))]
fn analyse_shared<W: Ways>(
    alloc: Global,
    ways: &W,
    answers: &[(Url, LoadAnswer)],
) -> Result<Vec<(Url, Entry)>, AllocError>
    ensures { IfOk result (λ made. AreMeant (W.means ways.now) answers.now made.items) }
{
    let mut made = Vec::with_capacity(alloc, answers.len())?;
    for (url, answer) in answers {
        let entry = ways.analyse(alloc, url, answer.copy()?)?;
        made.push((url.clone()?, entry))?;
    }
    Ok(made)
}

/// The same, where each half of so many halvings has a thread of its own.
#[tactic(auto, using(crate::proofs::HandLemmas::zip_halves))]
pub fn analyse_by_halves<R: Threads + Sync, W: Ways + Sync>(
    rt: &R,
    alloc: Global,
    ways: &W,
    halvings: u32,
    answers: &[(Url, LoadAnswer)],
) -> Result<Vec<(Url, Entry)>, AllocError>
    ensures { IfOk result (λ made. AreMeant (W.means ways.now) answers.now made.items) }
{
    if halvings == 0 {
        return analyse_shared(alloc, ways, answers);
    }
    let Some(middle) = middle(answers) else {
        return analyse_shared(alloc, ways, answers);
    };
    let (front, rest) = answers.split_at(middle);
    let fewer = halvings - 1;
    let (first, second) = join(
        rt,
        move || -> Result<Vec<(Url, Entry)>, AllocError>
            requires { IsSync R.row × IsSync W.row }
            ensures { IfOk result (λ made. AreMeant (W.means ways.entry.now) front.entry.now made.items) }
        { analyse_by_halves(rt, alloc, ways, fewer, front) },
        move || -> Result<Vec<(Url, Entry)>, AllocError>
            requires { IsSync R.row × IsSync W.row }
            ensures { IfOk result (λ made. AreMeant (W.means ways.entry.now) rest.entry.now made.items) }
        { analyse_by_halves(rt, alloc, ways, fewer, rest) },
    );
    let mut made = first?;
    let mut more = second?;
    made.append(&mut more)?;
    Ok(made)
}

// Where answers are halved by their bytes, since these are what an analysis takes: the place that is nearest to the
// middle, if both halves have enough. Only speed hangs on it.
fn middle(answers: &[(Url, LoadAnswer)]) -> Option<usize>
    ensures { IfSome result (λ n. n ≤ length answers.now) }
{
    let place = nearest(answers, bytes_of(answers) / 2);
    let enough = bytes_of(&answers[..place]) >= LEAST_HALF
        && bytes_of(&answers[place..]) >= LEAST_HALF;
    if enough { Some(place) } else { None }
}

// How many answers of the front have so many bytes, or as near to it as can be.
fn nearest(answers: &[(Url, LoadAnswer)], sought: u64) -> usize
    ensures { result ≤ length answers.now }
{
    let mut bytes: u64 = 0;
    for (place, (_, answer)) in answers.iter().enumerate() {
        let more = bytes.saturating_add(size_of(answer));
        if more >= sought {
            let is_nearer = more.abs_diff(sought) <= bytes.abs_diff(sought);
            return if is_nearer { place + 1 } else { place };
        }
        bytes = more;
    }
    answers.len()
}

fn bytes_of(answers: &[(Url, LoadAnswer)]) -> u64 {
    let mut bytes: u64 = 0;
    for (_, answer) in answers {
        bytes = bytes.saturating_add(size_of(answer));
    }
    bytes
}

fn size_of(answer: &LoadAnswer) -> u64 {
    match answer {
        LoadAnswer::Content { bytes, .. } => bytes.len() as u64,
        LoadAnswer::Redirect(_) | LoadAnswer::External | LoadAnswer::Absent | LoadAnswer::Failed =>
            0,
    }
}
