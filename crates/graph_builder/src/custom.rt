//! The builder with a resolver or an analyser of the caller's.
ghost use Rattle.std.specs.Prelude.{◌≡◌, ◌≤◌, ◌<◌, ℕ, true, false, ◌↔◌, length, map, IfOk, OnOk, Err};
ghost use Rattle.url.specs.Parts.{Parts as UrlParts};
ghost use Rattle.graph_entry.specs.Specifier.{text_of};
ghost use Rattle.graph_entry.specs.Referrer.{referrer_resolves, referred_by, starts_by};
ghost use Rattle.graph_entry.specs.Reading.{CutsSites};
ghost use Rattle.graph_builder.specs.Own.{own_rules, own_resolves};
ghost use Rattle.graph_builder.specs.Reach.{answer_to};
ghost use Rattle.graph_builder.specs.Graph.{texts, different, IsGraph, EachEdgeCuts};
ghost use Rattle.graph_builder.specs.Builder.{json_allowed, starts, GoesOn, new_building_by, IsOrderly, IsAsking, IsAskedFor, EachAnswered, IsToldLog, HasHistory, IsNotYet, IsUnawaited, IsTooMany, IsComplete, IsCompleteBy, IsFairly, CameInTime};

use crate::error::BuildError;
use crate::following::Following;
use crate::graph::ModuleGraph;
use crate::inner::{Inner, Parts};
use crate::loader::Loader;
use crate::own::Own;
use graph_entry::{KindResolver, ModuleAnalyzer};
use std::alloc::AllocError;
use std::thread::Threads;

/// A graph under construction, whose specifiers a resolver of the caller's resolves, and whose sources an analyser of the
/// caller's reads.
#[derive(Drop)]
pub struct CustomBuild<L: Loader + Drop, R: KindResolver + Drop, M: ModuleAnalyzer + Drop> {
    inner: Inner<L, Own<R, M>>,
}

impl<L: Loader + Drop, R: KindResolver + Drop, M: ModuleAnalyzer + Drop> CustomBuild<L, R, M> {
    /// A builder of such parts.
    pub fn from_parts(
        parts: Parts<L, Following>,
        resolver: R,
        analyzer: M,
    ) -> Result<CustomBuild<L, R, M>, AllocError>
        ensures { IfOk result (λ b. b.inner ≡ new_building_by
            (record { following = parts.following; resolver = resolver; analyzer = analyzer })
            (referrer_resolves (R.resolving_by_kind resolver)) parts.roots parts.imports parts.limit parts.loader (L.seen parts.loader)) }
    {
        let Parts {
            alloc,
            loader,
            following,
            roots,
            imports,
            limit,
        } = parts;
        let own = Own {
            following,
            resolver,
            analyzer,
        };
        Ok(CustomBuild {
            inner: Inner::new(alloc, own, roots, imports, limit, loader)?,
        })
    }

    /// The same builder with another resolver, which may hear the kinds of edges. It starts again: the loader's lists count from now on.
    pub fn with_resolver<S: KindResolver + Drop>(
        self,
        resolver: S,
    ) -> Result<CustomBuild<L, S, M>, AllocError>
        ensures { IfOk result (λ b. b.inner ≡ new_building_by
            (record { following = self.inner.following.following; resolver = resolver; analyzer = self.inner.following.analyzer })
            (referrer_resolves (S.resolving_by_kind resolver)) self.inner.roots self.inner.imports self.inner.limit
            self.inner.loader (L.seen self.inner.loader)) }
    {
        let CustomBuild { inner } = self;
        let (parts, own) = taken_apart(inner.into_parts());
        CustomBuild::from_parts(parts, resolver, own.analyzer)
    }

    /// The same builder with another analyser. It starts again: the loader's lists count from now on.
    pub fn with_analyzer<N: ModuleAnalyzer + Drop>(
        self,
        analyzer: N,
    ) -> Result<CustomBuild<L, R, N>, AllocError>
        ensures { IfOk result (λ b. b.inner ≡ new_building_by
            (record { following = self.inner.following.following; resolver = self.inner.following.resolver; analyzer = analyzer })
            (referrer_resolves (R.resolving_by_kind self.inner.following.resolver)) self.inner.roots self.inner.imports self.inner.limit
            self.inner.loader (L.seen self.inner.loader)) }
    {
        let CustomBuild { inner } = self;
        let (parts, own) = taken_apart(inner.into_parts());
        CustomBuild::from_parts(parts, own.resolver, analyzer)
    }

    /// The same builder, where an import without an attribute may be of JSON, or may not. It starts again: the loader's lists
    /// count from now on.
    pub fn with_json_without_attribute(
        self,
        is_allowed: bool,
    ) -> Result<CustomBuild<L, R, M>, AllocError>
        ensures { IfOk result (λ b. b.inner ≡ new_building_by
            (record {
              following = json_allowed is_allowed self.inner.following.following;
              resolver = self.inner.following.resolver;
              analyzer = self.inner.following.analyzer;
            })
            (referrer_resolves (R.resolving_by_kind self.inner.following.resolver)) self.inner.roots self.inner.imports self.inner.limit
            self.inner.loader (L.seen self.inner.loader)) }
    {
        let CustomBuild { inner } = self;
        let (parts, own) = taken_apart(inner.into_parts());
        CustomBuild::from_parts(json_parts(parts, is_allowed), own.resolver, own.analyzer)
    }

    /// Asks the loader for what is reached, takes its answers, and gives the graph once nothing is outstanding.
    /// After `NotYet` it may be polled again; after any other answer it is finished.
    pub fn poll(&mut self) -> Result<ModuleGraph, BuildError>
        // The graph is that of the roots and the answers.
        ensures graph { IfOk result (λ g.
            IsGraph (own_rules R.resolving_by_kind M.reads self.old.inner.following) (starts self.old.inner) (answer_to self.new.inner.log) g.entries) }
        ensures cuts { CutsSites (M.reads self.old.inner.following.analyzer) → IfOk result (λ g. EachEdgeCuts g.entries) }
        ensures roots { IfOk result (λ g. g.roots ≡ self.old.inner.roots) }
        ensures imports { IfOk result (λ g. g.imports ≡ map (referred_by (own_resolves R.resolving_by_kind self.old.inner.following)) self.old.inner.imports) }
        // It starts at the roots and where the referrer imports lead.
        ensures starts { starts self.old.inner
            ≡ starts_by (own_resolves R.resolving_by_kind self.old.inner.following) self.old.inner.roots self.old.inner.imports }
        // Each answer was awaited when it came; what was asked is what the graph needs, and is answered.
        ensures orderly { OnOk result (IsOrderly (own_rules R.resolving_by_kind M.reads self.old.inner.following) (starts self.old.inner) self.new.inner.log) }
        ensures asked { OnOk result
            (IsAskedFor (own_rules R.resolving_by_kind M.reads self.old.inner.following) (starts self.old.inner) self.new.inner.asked self.new.inner.log) }
        ensures answered { OnOk result (EachAnswered self.new.inner.asked self.new.inner.log) }
        ensures limit { IfOk result (λ g. length g.entries ≤ self.old.inner.limit) }
        // The different roots have the first numbers, in the order in which they first appear among the roots.
        ensures firsts { IfOk result (λ g. GoesOn (different (texts self.old.inner.roots)) (texts g.numbered)) }
        ensures pending { OnOk result (self.new.inner.pending ≡ self.old.inner.pending) }
        // Why there is no graph.
        ensures not_yet { result ≡ Err BuildError.NotYet →
            IsNotYet (own_rules R.resolving_by_kind M.reads self.old.inner.following) self.old.inner self.new.inner }
        ensures unasked { (s : UrlParts) → result ≡ Err (BuildError.UnaskedAnswer s) →
            IsUnawaited (own_rules R.resolving_by_kind M.reads self.old.inner.following) 1 self.old.inner self.new.inner (text_of s) }
        ensures unasked_pending { (s : UrlParts) → result ≡ Err (BuildError.UnaskedAnswer s) →
            self.new.inner.pending ≡ self.old.inner.pending }
        ensures too_many { (seen : ℕ) → result ≡ Err (BuildError.TooManyModules seen) →
            IsTooMany (own_rules R.resolving_by_kind M.reads self.old.inner.following) (starts self.old.inner) self.new.inner.log self.old.inner.limit seen }
        ensures finished { (result ≡ Err BuildError.Finished) ↔ (self.old.inner.finished ≡ true) }
        // And when there is one, unless memory runs out.
        ensures complete { IsComplete (own_rules R.resolving_by_kind M.reads self.old.inner.following) self.old.inner self.new.inner result }
        // No answer is unasked of a loader that answers open requests alone.
        ensures fair { IsFairly (L.seen self.old.inner.loader) self.old.inner result }
        // On every answer.
        ensures in_time { CameInTime (own_rules R.resolving_by_kind M.reads self.old.inner.following) (starts self.old.inner) self.new.inner.events result }
        ensures asking { IsAsking (own_rules R.resolving_by_kind M.reads self.old.inner.following) (starts self.old.inner) self.new.inner.asked self.new.inner.log }
        ensures told { IsToldLog ((L.seen self.new.inner.loader).told) self.new.inner.log }
        ensures telling { (L.seen self.new.inner.loader).told ≡ (L.seen self.old.inner.loader).told }
        ensures stays_fair { (L.seen self.old.inner.loader).fair ≡ true →
            (L.seen self.new.inner.loader).fair ≡ true }
        ensures history { HasHistory self.old.inner self.new.inner }
        ensures idle { self.old.inner.finished ≡ true → self.new ≡ self.old }
        ensures later { (self.new.inner.finished ≡ false) ↔ (result ≡ Err BuildError.NotYet) }
    {
        self.inner.poll()
    }

    /// The loader.
    pub fn loader(&self) -> &L
        ensures { result.now ≡ self.now.inner.loader }
    {
        self.inner.loader()
    }

    /// The loader, back from the builder.
    pub fn into_loader(self) -> L
        ensures { result ≡ self.inner.loader }
    {
        let CustomBuild { inner } = self;
        inner.into_parts().loader
    }
}

impl<L: Loader + Drop, R: KindResolver + Drop + Sync, M: ModuleAnalyzer + Drop + Sync> CustomBuild<
    L,
    R,
    M,
> {
    /// As `poll`, but so many answers are taken at a time, and analysed by halves in threads of their own. An answer that
    /// leads to others leads there once its batch is analysed.
    pub fn poll_batched<T: Threads + Sync>(
        &mut self,
        rt: &T,
        batch: usize,
    ) -> Result<ModuleGraph, BuildError>
        requires size { 0 < batch }
        // The graph is that of the roots and the answers.
        ensures graph { IfOk result (λ g.
            IsGraph (own_rules R.resolving_by_kind M.reads self.old.inner.following) (starts self.old.inner) (answer_to self.new.inner.log) g.entries) }
        ensures cuts { CutsSites (M.reads self.old.inner.following.analyzer) → IfOk result (λ g. EachEdgeCuts g.entries) }
        ensures roots { IfOk result (λ g. g.roots ≡ self.old.inner.roots) }
        ensures imports { IfOk result (λ g. g.imports ≡ map (referred_by (own_resolves R.resolving_by_kind self.old.inner.following)) self.old.inner.imports) }
        // It starts at the roots and where the referrer imports lead.
        ensures starts { starts self.old.inner
            ≡ starts_by (own_resolves R.resolving_by_kind self.old.inner.following) self.old.inner.roots self.old.inner.imports }
        // Each answer was awaited when it came; what was asked is what the graph needs, and is answered.
        ensures orderly { OnOk result (IsOrderly (own_rules R.resolving_by_kind M.reads self.old.inner.following) (starts self.old.inner) self.new.inner.log) }
        ensures asked { OnOk result
            (IsAskedFor (own_rules R.resolving_by_kind M.reads self.old.inner.following) (starts self.old.inner) self.new.inner.asked self.new.inner.log) }
        ensures answered { OnOk result (EachAnswered self.new.inner.asked self.new.inner.log) }
        ensures limit { IfOk result (λ g. length g.entries ≤ self.old.inner.limit) }
        // The different roots have the first numbers, in the order in which they first appear among the roots.
        ensures firsts { IfOk result (λ g. GoesOn (different (texts self.old.inner.roots)) (texts g.numbered)) }
        ensures pending { OnOk result (self.new.inner.pending ≡ self.old.inner.pending) }
        // Why there is no graph.
        ensures not_yet { result ≡ Err BuildError.NotYet →
            IsNotYet (own_rules R.resolving_by_kind M.reads self.old.inner.following) self.old.inner self.new.inner }
        ensures unasked { (s : UrlParts) → result ≡ Err (BuildError.UnaskedAnswer s) →
            IsUnawaited (own_rules R.resolving_by_kind M.reads self.old.inner.following) batch self.old.inner self.new.inner (text_of s) }
        ensures unasked_pending { (s : UrlParts) → result ≡ Err (BuildError.UnaskedAnswer s) →
            self.new.inner.pending ≡ self.old.inner.pending }
        ensures too_many { (seen : ℕ) → result ≡ Err (BuildError.TooManyModules seen) →
            IsTooMany (own_rules R.resolving_by_kind M.reads self.old.inner.following) (starts self.old.inner) self.new.inner.log self.old.inner.limit seen }
        ensures finished { (result ≡ Err BuildError.Finished) ↔ (self.old.inner.finished ≡ true) }
        // And when there is one, unless memory runs out.
        ensures complete { IsCompleteBy (own_rules R.resolving_by_kind M.reads self.old.inner.following) batch self.old.inner self.new.inner result }
        // No answer is unasked of a loader that answers open requests alone.
        ensures fair { IsFairly (L.seen self.old.inner.loader) self.old.inner result }
        // On every answer.
        ensures in_time { CameInTime (own_rules R.resolving_by_kind M.reads self.old.inner.following) (starts self.old.inner) self.new.inner.events result }
        ensures asking { IsAsking (own_rules R.resolving_by_kind M.reads self.old.inner.following) (starts self.old.inner) self.new.inner.asked self.new.inner.log }
        ensures told { IsToldLog ((L.seen self.new.inner.loader).told) self.new.inner.log }
        ensures telling { (L.seen self.new.inner.loader).told ≡ (L.seen self.old.inner.loader).told }
        ensures stays_fair { (L.seen self.old.inner.loader).fair ≡ true →
            (L.seen self.new.inner.loader).fair ≡ true }
        ensures history { HasHistory self.old.inner self.new.inner }
        ensures idle { self.old.inner.finished ≡ true → self.new ≡ self.old }
        ensures later { (self.new.inner.finished ≡ false) ↔ (result ≡ Err BuildError.NotYet) }
    {
        self.inner.poll_batched(rt, batch)
    }
}

/// A builder's parts with its way of following edges alone, and what resolved and read beside them.
fn taken_apart<L: Loader + Drop, R: KindResolver + Drop, M: ModuleAnalyzer + Drop>(
    parts: Parts<L, Own<R, M>>,
) -> (Parts<L, Following>, Own<R, M>)
    ensures loader { result.0.loader ≡ parts.loader }
    ensures following { result.0.following ≡ parts.following.following }
    ensures roots { result.0.roots ≡ parts.roots }
    ensures imports { result.0.imports ≡ parts.imports }
    ensures limit { result.0.limit ≡ parts.limit }
    ensures own { result.1 ≡ parts.following }
{
    let Parts {
        alloc,
        loader,
        following: own,
        roots,
        imports,
        limit,
    } = parts;
    let following = own.following;
    let parts = Parts {
        alloc,
        loader,
        following,
        roots,
        imports,
        limit,
    };
    (parts, own)
}

/// A builder's parts, where an import without an attribute may be of JSON, or may not.
fn json_parts<L: Loader + Drop>(parts: Parts<L, Following>, is_allowed: bool) -> Parts<L, Following>
    ensures loader { result.loader ≡ parts.loader }
    ensures following { result.following ≡ json_allowed is_allowed parts.following }
    ensures roots { result.roots ≡ parts.roots }
    ensures imports { result.imports ≡ parts.imports }
    ensures limit { result.limit ≡ parts.limit }
{
    let Parts {
        alloc,
        loader,
        following,
        roots,
        imports,
        limit,
    } = parts;
    let Following {
        kind,
        skip_dynamic_deps,
        json_without_attribute: _,
    } = following;
    let following = Following {
        kind,
        skip_dynamic_deps,
        json_without_attribute: is_allowed,
    };
    Parts {
        alloc,
        loader,
        following,
        roots,
        imports,
        limit,
    }
}
