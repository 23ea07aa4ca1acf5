//! The builder: asks a loader for all that is reached, and makes the graph of its answers.
ghost use Rattle.std.specs.Prelude.{◌≡◌, ◌≤◌, ◌<◌, ℕ, true, false, ◌↔◌, length, map, IfOk, IfErr, OnOk, Err};
ghost use Rattle.url.specs.Parts.{Parts};
ghost use Rattle.graph_entry.specs.Specifier.{text_of};
ghost use Rattle.graph_entry.specs.Resolution.{resolve};
ghost use Rattle.graph_entry.specs.Referrer.{referrer_resolves, referred, starts_of};
ghost use Rattle.graph_builder.specs.Reach.{answer_to};
ghost use Rattle.graph_builder.specs.Graph.{texts, different, IsGraph, EachEdgeCuts};
ghost use Rattle.graph_builder.specs.Builder.{graph_rules, starts, GoesOn, new_building, new_building_by, IsOrderly, IsAsking, IsAskedFor, EachAnswered, IsToldLog, HasHistory, IsNotYet, IsUnawaited, IsTooMany, IsComplete, IsCompleteBy, IsFairly, CameInTime};

use crate::analyzer::ParserModuleAnalyzer;
use crate::ways::{DefaultWays, following_parts};
use base::Items;
use graph_builder::{BuildError, BuildOptions, CustomBuild, Following, Inner, Loader, ModuleGraph};
use graph_entry::{DefaultResolver, KindResolver, ModuleAnalyzer};
use std::alloc::{AllocError, AllocFailed, Global};
use std::thread::Threads;
use url::Url;

/// A graph under construction, over a loader. It keeps an inner part, which contracts see as plain data.
#[derive(Drop)]
pub struct GraphBuild<L: Loader + Drop> {
    inner: Inner<L, DefaultWays>,
}

impl<L: Loader + Drop> GraphBuild<L> {
    /// A builder of the graph of these roots. The loader's lists count from now on. Where memory runs out, the loader comes
    /// back as it was: it was asked nothing.
    pub fn new(
        alloc: Global,
        roots: Items<Url>,
        options: BuildOptions,
        loader: L,
    ) -> Result<GraphBuild<L>, AllocFailed<L>>
        ensures built { IfOk result (λ b. b.inner ≡ new_building roots options loader (L.seen loader)) }
        ensures returned { IfErr result (λ e. e.value ≡ loader) }
    {
        let BuildOptions {
            kind,
            limit,
            skip_dynamic_deps,
            imports,
        } = options;
        let ways = DefaultWays::new(Following {
            kind,
            skip_dynamic_deps,
            json_without_attribute: false,
        });
        let inner = Inner::new(alloc, ways, roots, imports, limit, loader)?;
        Ok(GraphBuild { inner })
    }

    /// The same builder with a resolver of the caller's, which may hear the kinds of edges. It starts again: the loader's lists
    /// count from now on.
    pub fn with_resolver<R: KindResolver + Drop>(
        self,
        resolver: R,
    ) -> Result<CustomBuild<L, R, ParserModuleAnalyzer>, AllocError>
        ensures { IfOk result (λ b. b.inner ≡ new_building_by
            (record { following = self.inner.following; resolver = resolver; analyzer = record {} })
            (referrer_resolves (R.resolving_by_kind resolver)) self.inner.roots self.inner.imports self.inner.limit
            self.inner.loader (L.seen self.inner.loader)) }
    {
        let GraphBuild { inner } = self;
        CustomBuild::from_parts(
            following_parts(inner.into_parts()),
            resolver,
            ParserModuleAnalyzer,
        )
    }

    /// The same builder with an analyser of the caller's. It starts again: the loader's lists count from now on.
    pub fn with_analyzer<M: ModuleAnalyzer + Drop>(
        self,
        analyzer: M,
    ) -> Result<CustomBuild<L, DefaultResolver, M>, AllocError>
        ensures { IfOk result (λ b. b.inner ≡ new_building_by
            (record { following = self.inner.following; resolver = record {}; analyzer = analyzer })
            resolve self.inner.roots self.inner.imports self.inner.limit self.inner.loader (L.seen self.inner.loader)) }
    {
        let GraphBuild { inner } = self;
        CustomBuild::from_parts(
            following_parts(inner.into_parts()),
            DefaultResolver,
            analyzer,
        )
    }

    /// Asks the loader for what is reached, takes its answers, and gives the graph once nothing is outstanding.
    /// After `NotYet` it may be polled again; after any other answer it is finished.
    pub fn poll(&mut self) -> Result<ModuleGraph, BuildError>
        // The graph is that of the roots and the answers.
        ensures graph { IfOk result (λ g.
            IsGraph (graph_rules self.old.inner) (starts self.old.inner) (answer_to self.new.inner.log) g.entries) }
        ensures cuts { IfOk result (λ g. EachEdgeCuts g.entries) }
        ensures roots { IfOk result (λ g. g.roots ≡ self.old.inner.roots) }
        ensures imports { IfOk result (λ g. g.imports ≡ map referred self.old.inner.imports) }
        // It starts at the roots and where the referrer imports lead.
        ensures starts { starts self.old.inner ≡ starts_of self.old.inner.roots self.old.inner.imports }
        // Each answer was awaited when it came; what was asked is what the graph needs, and is answered.
        ensures orderly { OnOk result (IsOrderly (graph_rules self.old.inner) (starts self.old.inner) self.new.inner.log) }
        ensures asked { OnOk result
            (IsAskedFor (graph_rules self.old.inner) (starts self.old.inner) self.new.inner.asked self.new.inner.log) }
        ensures answered { OnOk result (EachAnswered self.new.inner.asked self.new.inner.log) }
        ensures limit { IfOk result (λ g. length g.entries ≤ self.old.inner.limit) }
        // The different roots have the first numbers, in the order in which they first appear among the roots.
        ensures firsts { IfOk result (λ g. GoesOn (different (texts self.old.inner.roots)) (texts g.numbered)) }
        ensures pending { OnOk result (self.new.inner.pending ≡ self.old.inner.pending) }
        // Why there is no graph.
        ensures not_yet { result ≡ Err BuildError.NotYet →
            IsNotYet (graph_rules self.old.inner) self.old.inner self.new.inner }
        ensures unasked { (s : Parts) → result ≡ Err (BuildError.UnaskedAnswer s) →
            IsUnawaited (graph_rules self.old.inner) 1 self.old.inner self.new.inner (text_of s) }
        ensures unasked_pending { (s : Parts) → result ≡ Err (BuildError.UnaskedAnswer s) →
            self.new.inner.pending ≡ self.old.inner.pending }
        ensures too_many { (seen : ℕ) → result ≡ Err (BuildError.TooManyModules seen) →
            IsTooMany (graph_rules self.old.inner) (starts self.old.inner) self.new.inner.log self.old.inner.limit seen }
        ensures finished { (result ≡ Err BuildError.Finished) ↔ (self.old.inner.finished ≡ true) }
        // And when there is one, unless memory runs out.
        ensures complete { IsComplete (graph_rules self.old.inner) self.old.inner self.new.inner result }
        // No answer is unasked of a loader that answers open requests alone.
        ensures fair { IsFairly (L.seen self.old.inner.loader) self.old.inner result }
        // On every answer.
        ensures in_time { CameInTime (graph_rules self.old.inner) (starts self.old.inner) self.new.inner.events result }
        ensures asking { IsAsking (graph_rules self.old.inner) (starts self.old.inner) self.new.inner.asked self.new.inner.log }
        ensures told { IsToldLog ((L.seen self.new.inner.loader).told) self.new.inner.log }
        ensures telling { (L.seen self.new.inner.loader).told ≡ (L.seen self.old.inner.loader).told }
        ensures stays_fair { (L.seen self.old.inner.loader).fair ≡ true →
            (L.seen self.new.inner.loader).fair ≡ true }
        ensures history { HasHistory self.old.inner self.new.inner }
        ensures idle { self.old.inner.finished ≡ true → self.new ≡ self.old }
        ensures later { (self.new.inner.finished ≡ false) ↔ (result ≡ Err BuildError.NotYet) }
    {
        self.inner.poll()
    }

    /// As `poll`, but so many answers are taken at a time, and analysed by halves in threads of their own. An answer that
    /// leads to others leads there once its batch is analysed.
    pub fn poll_batched<R: Threads + Sync>(
        &mut self,
        rt: &R,
        batch: usize,
    ) -> Result<ModuleGraph, BuildError>
        requires size { 0 < batch }
        // The graph is that of the roots and the answers.
        ensures graph { IfOk result (λ g.
            IsGraph (graph_rules self.old.inner) (starts self.old.inner) (answer_to self.new.inner.log) g.entries) }
        ensures cuts { IfOk result (λ g. EachEdgeCuts g.entries) }
        ensures roots { IfOk result (λ g. g.roots ≡ self.old.inner.roots) }
        ensures imports { IfOk result (λ g. g.imports ≡ map referred self.old.inner.imports) }
        // It starts at the roots and where the referrer imports lead.
        ensures starts { starts self.old.inner ≡ starts_of self.old.inner.roots self.old.inner.imports }
        // Each answer was awaited when it came; what was asked is what the graph needs, and is answered.
        ensures orderly { OnOk result (IsOrderly (graph_rules self.old.inner) (starts self.old.inner) self.new.inner.log) }
        ensures asked { OnOk result
            (IsAskedFor (graph_rules self.old.inner) (starts self.old.inner) self.new.inner.asked self.new.inner.log) }
        ensures answered { OnOk result (EachAnswered self.new.inner.asked self.new.inner.log) }
        ensures limit { IfOk result (λ g. length g.entries ≤ self.old.inner.limit) }
        // The different roots have the first numbers, in the order in which they first appear among the roots.
        ensures firsts { IfOk result (λ g. GoesOn (different (texts self.old.inner.roots)) (texts g.numbered)) }
        ensures pending { OnOk result (self.new.inner.pending ≡ self.old.inner.pending) }
        // Why there is no graph.
        ensures not_yet { result ≡ Err BuildError.NotYet →
            IsNotYet (graph_rules self.old.inner) self.old.inner self.new.inner }
        ensures unasked { (s : Parts) → result ≡ Err (BuildError.UnaskedAnswer s) →
            IsUnawaited (graph_rules self.old.inner) batch self.old.inner self.new.inner (text_of s) }
        ensures unasked_pending { (s : Parts) → result ≡ Err (BuildError.UnaskedAnswer s) →
            self.new.inner.pending ≡ self.old.inner.pending }
        ensures too_many { (seen : ℕ) → result ≡ Err (BuildError.TooManyModules seen) →
            IsTooMany (graph_rules self.old.inner) (starts self.old.inner) self.new.inner.log self.old.inner.limit seen }
        ensures finished { (result ≡ Err BuildError.Finished) ↔ (self.old.inner.finished ≡ true) }
        // And when there is one, unless memory runs out.
        ensures complete { IsCompleteBy (graph_rules self.old.inner) batch self.old.inner self.new.inner result }
        // No answer is unasked of a loader that answers open requests alone.
        ensures fair { IsFairly (L.seen self.old.inner.loader) self.old.inner result }
        // On every answer.
        ensures in_time { CameInTime (graph_rules self.old.inner) (starts self.old.inner) self.new.inner.events result }
        ensures asking { IsAsking (graph_rules self.old.inner) (starts self.old.inner) self.new.inner.asked self.new.inner.log }
        ensures told { IsToldLog ((L.seen self.new.inner.loader).told) self.new.inner.log }
        ensures telling { (L.seen self.new.inner.loader).told ≡ (L.seen self.old.inner.loader).told }
        ensures stays_fair { (L.seen self.old.inner.loader).fair ≡ true →
            (L.seen self.new.inner.loader).fair ≡ true }
        ensures history { HasHistory self.old.inner self.new.inner }
        ensures idle { self.old.inner.finished ≡ true → self.new ≡ self.old }
        ensures later { (self.new.inner.finished ≡ false) ↔ (result ≡ Err BuildError.NotYet) }
    {
        self.inner.poll_batched(rt, batch)
    }

    /// The loader.
    pub fn loader(&self) -> &L
        ensures { result.now ≡ self.now.inner.loader }
    {
        self.inner.loader()
    }

    /// The loader, back from the builder.
    pub fn into_loader(self) -> L
        ensures { result ≡ self.inner.loader }
    {
        let GraphBuild { inner } = self;
        inner.into_parts().loader
    }
}
