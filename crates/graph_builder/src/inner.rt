//! The inner part of a builder: asks a loader for all that is reached, and makes the graph of its answers.
ghost use Rattle.std.specs.Prelude.{◌≡◌, ◌≤◌, ◌<◌, ℕ, true, false, ◌↔◌, length, map, IfOk, IfErr, OnOk, Err};
ghost use Rattle.url.specs.Parts.{Parts as UrlParts};
ghost use Rattle.graph_entry.specs.Specifier.{text_of};
ghost use Rattle.graph_entry.specs.Referrer.{referred_by, starts_by};
ghost use Rattle.graph_builder.specs.Rules.{rules_by};
ghost use Rattle.graph_builder.specs.Reach.{answer_to};
ghost use Rattle.graph_builder.specs.Graph.{texts, different, IsGraph};
ghost use Rattle.graph_builder.specs.Builder.{starts, GoesOn, new_building_by, IsOrderly, IsAsking, IsAskedFor, EachAnswered, IsToldLog, HasHistory, IsNotYet, IsUnawaited, IsTooMany, IsComplete, IsCompleteBy, IsFairly, CameInTime};

use crate::error::BuildError;
use crate::finish::finish;
use crate::graph::ModuleGraph;
use crate::loader::Loader;
use crate::progress::Progress;
use crate::reaching::Reaching;
use crate::ways::Ways;
use base::Items;
use graph_entry::ReferrerImports;
use std::alloc::{AllocFailed, Global};
use std::marker::Model;
use std::thread::Threads;
use url::Url;

/// What a builder keeps.
#[derive(Drop)]
pub struct Inner<L: Loader + Drop, W: Ways + Drop> {
    pub alloc: Global,
    pub loader: L,
    pub following: W,
    pub roots: Items<Url>,
    pub imports: Items<ReferrerImports>,
    progress: Progress,
    finished: bool,
}

impl<L: Loader + Drop, W: Ways + Drop> Model for Inner<L, W> {
    ghost use Rattle.graph_builder.specs.Rules.{rules_by};
    ghost use Rattle.graph_builder.specs.Builder.{BuildingBy};
    ghost use Rattle.graph_builder.specs.Progress.{at};
    ghost use Rattle.graph_builder.specs.Inside.{IsInside, seen_of};

    ghost Value = { BuildingBy L W };

    ghost view = { λ b. seen_of b.loader b.following b.roots b.imports (at (L.seen b.loader) b.progress) b.finished };

    ghost invariant = { λ b. IsInside (rules_by (W.means b.following) (W.follows b.following)) (W.resolves b.following)
        b.roots b.imports (at (L.seen b.loader) b.progress) b.finished };
}

/// What a builder is made of.
#[derive(Drop)]
pub struct Parts<L: Drop, W: Drop> {
    pub alloc: Global,
    pub loader: L,
    pub following: W,
    pub roots: Items<Url>,
    pub imports: Items<ReferrerImports>,
    pub limit: usize,
}

impl<L: Loader + Drop, W: Ways + Drop> Inner<L, W> {
    /// Nothing is asked yet.
    pub fn new(
        alloc: Global,
        following: W,
        roots: Items<Url>,
        imports: Items<ReferrerImports>,
        limit: usize,
        loader: L,
    ) -> Result<Inner<L, W>, AllocFailed<L>>
        ensures built { IfOk result (λ b. b
            ≡ new_building_by following (W.resolves following) roots imports limit loader (L.seen loader)) }
        ensures returned { IfErr result (λ e. e.value ≡ loader) }
    {
        let Ok(starts) = following.starts(alloc, roots.as_slice(), imports.as_slice()) else {
            return Err(AllocFailed { value: loader });
        };
        Ok(Inner {
            alloc,
            loader,
            following,
            roots,
            imports,
            progress: Progress {
                starts,
                reaching: Reaching::new(alloc, limit),
                asked: 0,
                taken: 0,
                begun: false,
            },
            finished: false,
        })
    }

    /// The loader.
    pub fn loader(&self) -> &L
        ensures { result.now ≡ self.now.loader }
    {
        &self.loader
    }

    /// The parts that a builder is made of.
    pub fn into_parts(self) -> Parts<L, W>
        ensures loader { result.loader ≡ self.loader }
        ensures following { result.following ≡ self.following }
        ensures roots { result.roots ≡ self.roots }
        ensures imports { result.imports ≡ self.imports }
        ensures limit { result.limit ≡ self.limit }
    {
        let Inner {
            alloc,
            loader,
            following,
            roots,
            imports,
            progress,
            finished: _,
        } = self;
        Parts {
            alloc,
            loader,
            following,
            roots,
            imports,
            limit: progress.reaching.limit,
        }
    }

    pub fn poll(&mut self) -> Result<ModuleGraph, BuildError>
        ensures graph { IfOk result (λ g.
            IsGraph (rules_by (W.means self.old.following) (W.follows self.old.following)) (starts self.old) (answer_to self.new.log) g.entries) }
        ensures roots { IfOk result (λ g. g.roots ≡ self.old.roots) }
        ensures imports { IfOk result (λ g. g.imports ≡ map (referred_by (W.resolves self.old.following)) self.old.imports) }
        ensures starts { starts self.old ≡ starts_by (W.resolves self.old.following) self.old.roots self.old.imports }
        ensures orderly { OnOk result (IsOrderly (rules_by (W.means self.old.following) (W.follows self.old.following)) (starts self.old) self.new.log) }
        ensures asked { OnOk result
            (IsAskedFor (rules_by (W.means self.old.following) (W.follows self.old.following)) (starts self.old) self.new.asked self.new.log) }
        ensures answered { OnOk result (EachAnswered self.new.asked self.new.log) }
        ensures limit { IfOk result (λ g. length g.entries ≤ self.old.limit) }
        ensures firsts { IfOk result (λ g. GoesOn (different (texts self.old.roots)) (texts g.numbered)) }
        ensures pending { OnOk result (self.new.pending ≡ self.old.pending) }
        ensures not_yet { result ≡ Err BuildError.NotYet →
            IsNotYet (rules_by (W.means self.old.following) (W.follows self.old.following)) self.old self.new }
        ensures unasked { (s : UrlParts) → result ≡ Err (BuildError.UnaskedAnswer s) →
            IsUnawaited (rules_by (W.means self.old.following) (W.follows self.old.following)) 1 self.old self.new (text_of s) }
        ensures unasked_pending { (s : UrlParts) → result ≡ Err (BuildError.UnaskedAnswer s) →
            self.new.pending ≡ self.old.pending }
        ensures too_many { (seen : ℕ) → result ≡ Err (BuildError.TooManyModules seen) →
            IsTooMany (rules_by (W.means self.old.following) (W.follows self.old.following)) (starts self.old) self.new.log self.old.limit seen }
        ensures finished { (result ≡ Err BuildError.Finished) ↔ (self.old.finished ≡ true) }
        ensures complete { IsComplete (rules_by (W.means self.old.following) (W.follows self.old.following)) self.old self.new result }
        ensures fair { IsFairly (L.seen self.old.loader) self.old result }
        ensures in_time { CameInTime (rules_by (W.means self.old.following) (W.follows self.old.following)) (starts self.old) self.new.events result }
        ensures asking { IsAsking (rules_by (W.means self.old.following) (W.follows self.old.following)) (starts self.old) self.new.asked self.new.log }
        ensures told { IsToldLog ((L.seen self.new.loader).told) self.new.log }
        ensures telling { (L.seen self.new.loader).told ≡ (L.seen self.old.loader).told }
        ensures stays_fair { (L.seen self.old.loader).fair ≡ true → (L.seen self.new.loader).fair ≡ true }
        ensures history { HasHistory self.old self.new }
        ensures idle { self.old.finished ≡ true → self.new ≡ self.old }
        ensures later { (self.new.finished ≡ false) ↔ (result ≡ Err BuildError.NotYet) }
    {
        if self.finished {
            return Err(BuildError::Finished);
        }
        self.finished = true;
        match self
            .progress
            .run(self.alloc, &self.following, &mut self.loader)
        {
            Ok(()) => {
                match finish(
                    self.alloc,
                    &self.following,
                    self.roots.as_slice(),
                    self.imports.as_slice(),
                    &mut self.progress.reaching.reached,
                ) {
                    Ok(graph) => return Ok(graph),
                    Err(_) => return Err(BuildError::OutOfMemory),
                }
            }
            Err(BuildError::NotYet) => {
                self.finished = false;
                // The proof learns from it that no specifier has two numbers.
                let _count = self.progress.reaching.reached.count();
                Err(BuildError::NotYet)
            }
            Err(BuildError::TooManyModules { seen }) => Err(BuildError::TooManyModules { seen }),
            Err(BuildError::UnaskedAnswer(specifier)) => Err(BuildError::UnaskedAnswer(specifier)),
            Err(BuildError::OutOfMemory) => Err(BuildError::OutOfMemory),
            // A run of a builder that goes on never says so.
            Err(BuildError::Finished) => unreachable!(),
        }
    }
}

impl<L: Loader + Drop, W: Ways + Drop + Sync> Inner<L, W> {
    /// As `poll`, but so many answers are taken at a time, and analysed by halves in threads of their own.
    pub fn poll_batched<R: Threads + Sync>(
        &mut self,
        rt: &R,
        batch: usize,
    ) -> Result<ModuleGraph, BuildError>
        requires size { 0 < batch }
        ensures graph { IfOk result (λ g.
            IsGraph (rules_by (W.means self.old.following) (W.follows self.old.following)) (starts self.old) (answer_to self.new.log) g.entries) }
        ensures roots { IfOk result (λ g. g.roots ≡ self.old.roots) }
        ensures imports { IfOk result (λ g. g.imports ≡ map (referred_by (W.resolves self.old.following)) self.old.imports) }
        ensures starts { starts self.old ≡ starts_by (W.resolves self.old.following) self.old.roots self.old.imports }
        ensures orderly { OnOk result (IsOrderly (rules_by (W.means self.old.following) (W.follows self.old.following)) (starts self.old) self.new.log) }
        ensures asked { OnOk result
            (IsAskedFor (rules_by (W.means self.old.following) (W.follows self.old.following)) (starts self.old) self.new.asked self.new.log) }
        ensures answered { OnOk result (EachAnswered self.new.asked self.new.log) }
        ensures limit { IfOk result (λ g. length g.entries ≤ self.old.limit) }
        ensures firsts { IfOk result (λ g. GoesOn (different (texts self.old.roots)) (texts g.numbered)) }
        ensures pending { OnOk result (self.new.pending ≡ self.old.pending) }
        ensures not_yet { result ≡ Err BuildError.NotYet →
            IsNotYet (rules_by (W.means self.old.following) (W.follows self.old.following)) self.old self.new }
        ensures unasked { (s : UrlParts) → result ≡ Err (BuildError.UnaskedAnswer s) →
            IsUnawaited (rules_by (W.means self.old.following) (W.follows self.old.following)) batch self.old self.new (text_of s) }
        ensures unasked_pending { (s : UrlParts) → result ≡ Err (BuildError.UnaskedAnswer s) →
            self.new.pending ≡ self.old.pending }
        ensures too_many { (seen : ℕ) → result ≡ Err (BuildError.TooManyModules seen) →
            IsTooMany (rules_by (W.means self.old.following) (W.follows self.old.following)) (starts self.old) self.new.log self.old.limit seen }
        ensures finished { (result ≡ Err BuildError.Finished) ↔ (self.old.finished ≡ true) }
        ensures complete { IsCompleteBy (rules_by (W.means self.old.following) (W.follows self.old.following)) batch self.old self.new result }
        ensures fair { IsFairly (L.seen self.old.loader) self.old result }
        ensures in_time { CameInTime (rules_by (W.means self.old.following) (W.follows self.old.following)) (starts self.old) self.new.events result }
        ensures asking { IsAsking (rules_by (W.means self.old.following) (W.follows self.old.following)) (starts self.old) self.new.asked self.new.log }
        ensures told { IsToldLog ((L.seen self.new.loader).told) self.new.log }
        ensures telling { (L.seen self.new.loader).told ≡ (L.seen self.old.loader).told }
        ensures stays_fair { (L.seen self.old.loader).fair ≡ true → (L.seen self.new.loader).fair ≡ true }
        ensures history { HasHistory self.old self.new }
        ensures idle { self.old.finished ≡ true → self.new ≡ self.old }
        ensures later { (self.new.finished ≡ false) ↔ (result ≡ Err BuildError.NotYet) }
    {
        if self.finished {
            return Err(BuildError::Finished);
        }
        self.finished = true;
        match self
            .progress
            .run_batched(rt, self.alloc, &self.following, &mut self.loader, batch)
        {
            Ok(()) => {
                match finish(
                    self.alloc,
                    &self.following,
                    self.roots.as_slice(),
                    self.imports.as_slice(),
                    &mut self.progress.reaching.reached,
                ) {
                    Ok(graph) => return Ok(graph),
                    Err(_) => return Err(BuildError::OutOfMemory),
                }
            }
            Err(BuildError::NotYet) => {
                self.finished = false;
                // The proof learns from it that no specifier has two numbers.
                let _count = self.progress.reaching.reached.count();
                Err(BuildError::NotYet)
            }
            Err(BuildError::TooManyModules { seen }) => Err(BuildError::TooManyModules { seen }),
            Err(BuildError::UnaskedAnswer(specifier)) => Err(BuildError::UnaskedAnswer(specifier)),
            Err(BuildError::OutOfMemory) => Err(BuildError::OutOfMemory),
            // A run of a builder that goes on never says so.
            Err(BuildError::Finished) => unreachable!(),
        }
    }
}
