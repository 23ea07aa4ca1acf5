//! What a builder is over: what answers mean, which edges are followed, and where specifiers lead.
ghost use Rattle.std.specs.Prelude.{◌≡◌, Some, None, map, IfOk};
ghost use Rattle.graph_entry.specs.Specifier.{text_of};
ghost use Rattle.graph_entry.specs.Resolution.{Resolves};
ghost use Rattle.graph_entry.specs.Referrer as spec;
ghost use Rattle.graph_builder.specs.declared.following.Following.{Following as Followed};
ghost use Rattle.graph_builder.specs.Rules.{Means, rules_by};
ghost use Rattle.graph_builder.specs.Reach.{IsFunctional};

use crate::following::Following;
use base::Items;
use graph_entry::{Dependency, Entry, LoadAnswer, ReferrerImports};
use std::alloc::{AllocError, Global};
use url::Url;

/// What a builder is over.
pub trait Ways {
    /// Which entries an answer for a specifier can have.
    ghost means: { Self → Means };
    /// Which edges are followed.
    ghost follows: { Self → Followed };
    /// What a text that a referrer imports leads to from it.
    ghost resolves: { Self → Resolves };

    fn following(&self) -> Following
        ensures { result ≡ follows self.now };

    fn analyse(
        &self,
        alloc: Global,
        specifier: &Url,
        answer: LoadAnswer,
    ) -> Result<Entry, AllocError>
        ensures { IfOk result (λ made. means self.now (text_of specifier.now) (Some answer) made) };

    fn analyse_unasked(&self, alloc: Global, specifier: &Url) -> Result<Entry, AllocError>
        ensures { IfOk result (λ made. means self.now (text_of specifier.now) None made) };

    fn referred(
        &self,
        alloc: Global,
        places: &[ReferrerImports],
    ) -> Result<Items<(Url, Items<Dependency>)>, AllocError>
        ensures { IfOk result (λ made. made ≡ map (spec.referred_by (resolves self.now)) places.now) };

    fn starts(
        &self,
        alloc: Global,
        roots: &[Url],
        places: &[ReferrerImports],
    ) -> Result<Items<Url>, AllocError>
        ensures { IfOk result (λ starts. map text_of starts
            ≡ spec.starts_by (resolves self.now) roots.now places.now) };

    // An answer has at most one entry.
    ghost once: { (ways : Self) → IsFunctional (rules_by (means ways) (follows ways)) };
}
