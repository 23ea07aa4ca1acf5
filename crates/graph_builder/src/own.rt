//! A caller's own resolver and analyser.
ghost use Rattle.graph_entry.specs.Referrer.{referrer_resolves};
ghost use Rattle.graph_entry.specs.Ways.{kind_ways_by};
ghost use Rattle.graph_entry.specs.Analysed.{AnalysedBy};
ghost use Rattle.graph_entry.proofs.Theorems.{analysed_by_once};

use crate::following::Following;
use crate::ways::Ways;
use base::Items;
use graph_entry::{
    Dependency, Entry, KindResolver, LoadAnswer, ModuleAnalyzer, ReferrerImports, analyse_by,
    analyse_unasked_by, referred_by, starts_by,
};
use std::alloc::{AllocError, Global};
use url::Url;

/// Which edges are followed, what resolves and what reads sources.
#[derive(Drop)]
pub struct Own<R: KindResolver + Drop, M: ModuleAnalyzer + Drop> {
    pub following: Following,
    pub resolver: R,
    pub analyzer: M,
}

impl<R: KindResolver + Drop, M: ModuleAnalyzer + Drop> Ways for Own<R, M> {
    ghost means = { λ own. AnalysedBy (kind_ways_by (R.resolving_by_kind own.resolver) (M.reads own.analyzer)) };

    ghost follows = { λ own. own.following };

    ghost resolves = { λ own. referrer_resolves (R.resolving_by_kind own.resolver) };

    fn following(&self) -> Following {
        self.following
    }

    fn analyse(
        &self,
        alloc: Global,
        specifier: &Url,
        answer: LoadAnswer,
    ) -> Result<Entry, AllocError> {
        analyse_by(alloc, &self.resolver, &self.analyzer, specifier, answer)
    }

    fn analyse_unasked(&self, alloc: Global, specifier: &Url) -> Result<Entry, AllocError> {
        analyse_unasked_by(alloc, &self.resolver, &self.analyzer, specifier)
    }

    fn referred(
        &self,
        alloc: Global,
        places: &[ReferrerImports],
    ) -> Result<Items<(Url, Items<Dependency>)>, AllocError> {
        referred_by(alloc, &self.resolver, places)
    }

    fn starts(
        &self,
        alloc: Global,
        roots: &[Url],
        places: &[ReferrerImports],
    ) -> Result<Items<Url>, AllocError> {
        starts_by(alloc, &self.resolver, roots, places)
    }

    ghost once = { λ own.
        analysed_by_once (kind_ways_by (R.resolving_by_kind own.resolver) (M.reads own.analyzer)) (M.once own.analyzer) };
}
