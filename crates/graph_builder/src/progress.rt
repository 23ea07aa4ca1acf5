//! How far a builder is: what it asks for next, and the answers that it takes.
ghost use Rattle.std.specs.Prelude.{◌≡◌, ◌+◌, ◌≤◌, ◌<◌, ℕ, true, [], Some, slice_get};
ghost use Rattle.graph_entry.specs.Specifier.{loadable};
ghost use Rattle.graph_builder.specs.Rules.{rules_by};
ghost use Rattle.graph_builder.specs.Reach.{Specifier};
ghost use Rattle.graph_builder.specs.Graph.{texts};
ghost use Rattle.graph_builder.specs.ByText.{keys_at};
ghost use Rattle.graph_builder.specs.Builder.{CameInTime};
ghost use Rattle.graph_builder.specs.Reaching.{todo_of};
ghost use Rattle.graph_builder.specs.Progress.{at, own_events, IsKeptAt, IsLive, IsInHandAt, GoesOnAt, OnlyAsks, Begins, Deals, AsksNext, AsksAll, Turns, Runs};

use crate::error::BuildError;
use crate::loader::{Loader, LoaderPoll};
use crate::reaching::{GrowError, Reaching};
use crate::ways::Ways;
use base::Items;
use graph_entry::is_loadable;
use std::alloc::Global;
use url::Url;

/// Where reach starts, what is reached of them, and how often the loader was asked and answered.
#[derive(Drop)]
pub struct Progress {
    pub starts: Items<Url>,
    pub reaching: Reaching,
    pub asked: usize,
    pub taken: usize,
    /// The starts are reached.
    pub begun: bool,
}

impl Progress {
    /// Asks for all that is reached and takes answers until nothing is outstanding.
    pub fn run<L: Loader, W: Ways>(
        &mut self,
        alloc: Global,
        ways: &W,
        loader: &mut L,
    ) -> Result<(), BuildError>
        requires live { IsLive (rules_by (W.means ways.now) (W.follows ways.now)) (at (L.seen loader.old) self.old) }
        ensures runs { Runs (rules_by (W.means ways.now) (W.follows ways.now)) 1 (at (L.seen loader.old) self.old) (at (L.seen loader.new) self.new) result }
        ensures in_time { CameInTime (rules_by (W.means ways.now) (W.follows ways.now)) (texts self.old.starts) (own_events (at (L.seen loader.new) self.new)) result }
        ensures kept { IsKeptAt (rules_by (W.means ways.now) (W.follows ways.now)) (at (L.seen loader.new) self.new) }
        ensures goes { GoesOnAt (at (L.seen loader.old) self.old) (at (L.seen loader.new) self.new) }
    {
        match self.begin(ways, loader) {
            Ok(()) => {}
            Err(GrowError::TooMany { seen }) => return Err(BuildError::TooManyModules { seen }),
            Err(GrowError::OutOfMemory) => return Err(BuildError::OutOfMemory),
        }
        'turns: loop {
            match self.turn(alloc, ways, loader) {
                Ok(true) => {}
                Ok(false) => return Ok(()),
                Err(error) => return Err(error),
            }
        }
    }

    /// Reaches the starts, the first time. What is followed and the loader are there for the contract.
    pub fn begin<L: Loader, W: Ways>(&mut self, ways: &W, loader: &mut L) -> Result<(), GrowError>
        requires live { IsLive (rules_by (W.means ways.now) (W.follows ways.now)) (at (L.seen loader.old) self.old) }
        ensures begins { Begins (rules_by (W.means ways.now) (W.follows ways.now)) (at (L.seen loader.old) self.old) (at (L.seen loader.new) self.new) result }
        ensures kept { IsKeptAt (rules_by (W.means ways.now) (W.follows ways.now)) (at (L.seen loader.new) self.new) }
        ensures goes { GoesOnAt (at (L.seen loader.old) self.old) (at (L.seen loader.new) self.new) }
        ensures stays { loader.new ≡ loader.old }
        ensures counts { (self.new.asked ≡ self.old.asked) × (self.new.taken ≡ self.old.taken) }
    {
        // The contract speaks of them.
        let _ = ways;
        let _ = loader;
        if self.begun {
            return Ok(());
        }
        match self.reaching.reach_all(self.starts.as_slice()) {
            Ok(()) => {
                self.begun = true;
                Ok(())
            }
            Err(error) => Err(error),
        }
    }

    // Asks for all that is reached, and takes one answer. `false`: nothing is outstanding.
    fn turn<L: Loader, W: Ways>(
        &mut self,
        alloc: Global,
        ways: &W,
        loader: &mut L,
    ) -> Result<bool, BuildError>
        requires live { IsLive (rules_by (W.means ways.now) (W.follows ways.now)) (at (L.seen loader.old) self.old) }
        requires begun { self.old.begun ≡ true }
        ensures turns { Turns (rules_by (W.means ways.now) (W.follows ways.now)) 1 (at (L.seen loader.old) self.old) (at (L.seen loader.new) self.new) result }
        ensures in_time { CameInTime (rules_by (W.means ways.now) (W.follows ways.now)) (texts self.old.starts) (own_events (at (L.seen loader.new) self.new)) result }
        ensures kept { IsKeptAt (rules_by (W.means ways.now) (W.follows ways.now)) (at (L.seen loader.new) self.new) }
        ensures goes { GoesOnAt (at (L.seen loader.old) self.old) (at (L.seen loader.new) self.new) }
    {
        match self.ask_all(alloc, ways, loader) {
            Ok(()) => {}
            Err(GrowError::TooMany { seen }) => return Err(BuildError::TooManyModules { seen }),
            Err(GrowError::OutOfMemory) => return Err(BuildError::OutOfMemory),
        }
        if self.taken == self.asked {
            return Ok(false);
        }
        self.poll(alloc, ways, loader)
    }

    // Takes one answer.
    fn poll<L: Loader, W: Ways>(
        &mut self,
        alloc: Global,
        ways: &W,
        loader: &mut L,
    ) -> Result<bool, BuildError>
        requires live { IsLive (rules_by (W.means ways.now) (W.follows ways.now)) (at (L.seen loader.old) self.old) }
        requires begun { self.old.begun ≡ true }
        requires asked_all { todo_of self.old.reaching ≡ [] }
        requires open_yet { self.old.taken < self.old.asked }
        ensures turns { Turns (rules_by (W.means ways.now) (W.follows ways.now)) 1 (at (L.seen loader.old) self.old) (at (L.seen loader.new) self.new) result }
        ensures in_time { CameInTime (rules_by (W.means ways.now) (W.follows ways.now)) (texts self.old.starts) (own_events (at (L.seen loader.new) self.new)) result }
        ensures kept { IsKeptAt (rules_by (W.means ways.now) (W.follows ways.now)) (at (L.seen loader.new) self.new) }
        ensures goes { GoesOnAt (at (L.seen loader.old) self.old) (at (L.seen loader.new) self.new) }
    {
        // The proof learns from it that one can be added to the lower count.
        let _asked = self.asked;
        match loader.poll() {
            Ok(LoaderPoll::Answer(specifier, answer)) => {
                self.taken += 1;
                match self.reaching.take(alloc, ways, specifier, answer) {
                    Ok(()) => Ok(true),
                    Err(error) => Err(error),
                }
            }
            Ok(LoaderPoll::Pending) => Err(BuildError::NotYet),
            Err(_) => Err(BuildError::OutOfMemory),
        }
    }

    /// Empties the worklist.
    pub fn ask_all<L: Loader, W: Ways>(
        &mut self,
        alloc: Global,
        ways: &W,
        loader: &mut L,
    ) -> Result<(), GrowError>
        requires live { IsLive (rules_by (W.means ways.now) (W.follows ways.now)) (at (L.seen loader.old) self.old) }
        ensures all { AsksAll (rules_by (W.means ways.now) (W.follows ways.now)) (at (L.seen loader.old) self.old) (at (L.seen loader.new) self.new) result }
        ensures kept { IsKeptAt (rules_by (W.means ways.now) (W.follows ways.now)) (at (L.seen loader.new) self.new) }
        ensures asks { OnlyAsks (at (L.seen loader.old) self.old) (at (L.seen loader.new) self.new) }
    {
        'asking: loop {
            match self.ask_next(alloc, ways, loader) {
                Ok(true) => {}
                Ok(false) => return Ok(()),
                Err(error) => return Err(error),
            }
        }
    }

    // Deals with the next specifier of the worklist. `false`: there is none.
    fn ask_next<L: Loader, W: Ways>(
        &mut self,
        alloc: Global,
        ways: &W,
        loader: &mut L,
    ) -> Result<bool, GrowError>
        requires live { IsLive (rules_by (W.means ways.now) (W.follows ways.now)) (at (L.seen loader.old) self.old) }
        ensures next { AsksNext (rules_by (W.means ways.now) (W.follows ways.now)) (at (L.seen loader.old) self.old) (at (L.seen loader.new) self.new) result }
        ensures kept { IsKeptAt (rules_by (W.means ways.now) (W.follows ways.now)) (at (L.seen loader.new) self.new) }
        ensures asks { OnlyAsks (at (L.seen loader.old) self.old) (at (L.seen loader.new) self.new) }
    {
        let Some(number) = self.reaching.take_next() else {
            return Ok(false);
        };
        match self.deal(alloc, ways, loader, number) {
            Ok(()) => Ok(true),
            Err(error) => Err(error),
        }
    }

    // Asks for the specifier in hand, or gives it its entry where no loader is asked for it.
    fn deal<L: Loader, W: Ways>(
        &mut self,
        alloc: Global,
        ways: &W,
        loader: &mut L,
        number: usize,
    ) -> Result<(), GrowError>
        requires in_hand { IsInHandAt (rules_by (W.means ways.now) (W.follows ways.now)) (at (L.seen loader.old) self.old) number }
        ensures deals { Deals (rules_by (W.means ways.now) (W.follows ways.now)) (at (L.seen loader.old) self.old) (at (L.seen loader.new) self.new) result }
        ensures kept { IsKeptAt (rules_by (W.means ways.now) (W.follows ways.now)) (at (L.seen loader.new) self.new) }
        ensures asks { OnlyAsks (at (L.seen loader.old) self.old) (at (L.seen loader.new) self.new) }
    {
        if is_loadable(self.reaching.specifier(number)) {
            self.ask(ways, loader, number)
        } else {
            self.reaching.fill_unasked(alloc, ways, number)
        }
    }

    // Asks for the specifier in hand. What is followed is there for the contract.
    fn ask<L: Loader, W: Ways>(
        &mut self,
        ways: &W,
        loader: &mut L,
        number: usize,
    ) -> Result<(), GrowError>
        requires in_hand { IsInHandAt (rules_by (W.means ways.now) (W.follows ways.now)) (at (L.seen loader.old) self.old) number }
        requires loads { (s : Specifier) → slice_get (keys_at self.old.reaching.reached) number ≡ Some s → loadable s ≡ true }
        ensures deals { Deals (rules_by (W.means ways.now) (W.follows ways.now)) (at (L.seen loader.old) self.old) (at (L.seen loader.new) self.new) result }
        ensures kept { IsKeptAt (rules_by (W.means ways.now) (W.follows ways.now)) (at (L.seen loader.new) self.new) }
        ensures asks { OnlyAsks (at (L.seen loader.old) self.old) (at (L.seen loader.new) self.new) }
    {
        // The rules that the contract speaks of.
        let _ = ways;
        // The proof learns from it that one can be added to the count, which stays below it.
        let _limit = self.reaching.limit;
        match loader.start(self.reaching.specifier(number)) {
            Ok(()) => {}
            Err(_) => return Err(GrowError::OutOfMemory),
        }
        self.asked += 1;
        self.reaching.mark_asked(number);
        Ok(())
    }
}
