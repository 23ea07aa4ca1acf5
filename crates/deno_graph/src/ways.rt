//! The ways of this project: specifiers lead where the URL Standard says, and the parser reads sources.
ghost use Rattle.std.specs.Prelude.{◌≡◌};
ghost use Rattle.graph_entry.specs.Resolution.{resolve};
ghost use Rattle.graph_entry.specs.Analysed.{Analysed};
ghost use Rattle.graph_entry.proofs.Theorems.{analysed_once};

use crate::analyzer::{analyse, analyse_unasked};
use base::Items;
use graph_builder::{Following, Loader, Parts, Ways};
use graph_entry::{Dependency, Entry, LoadAnswer, ReferrerImports, referred, starts_of};
use std::alloc::{AllocError, Global};
use std::marker::Model;
use url::Url;

/// Which edges are followed; contracts see no more of it.
#[derive(Drop)]
pub struct DefaultWays {
    following: Following,
}

impl Model for DefaultWays {
    ghost use Rattle.graph_builder.specs.declared.following.Following.{Following as Followed};

    ghost Value = { Followed };

    ghost view = { λ ways. ways.following };
}

impl DefaultWays {
    pub fn new(following: Following) -> DefaultWays
        ensures { result ≡ following }
    {
        DefaultWays { following }
    }

    pub fn into_following(self) -> Following
        ensures { result ≡ self }
    {
        self.following
    }
}

/// By the URL Standard and the parser.
impl Ways for DefaultWays {
    ghost means = { λ _. Analysed };

    ghost follows = { λ following. following };

    ghost resolves = { λ _. resolve };

    fn following(&self) -> Following {
        self.following
    }

    fn analyse(
        &self,
        alloc: Global,
        specifier: &Url,
        answer: LoadAnswer,
    ) -> Result<Entry, AllocError> {
        analyse(alloc, specifier, answer)
    }

    fn analyse_unasked(&self, alloc: Global, specifier: &Url) -> Result<Entry, AllocError> {
        analyse_unasked(alloc, specifier)
    }

    fn referred(
        &self,
        alloc: Global,
        places: &[ReferrerImports],
    ) -> Result<Items<(Url, Items<Dependency>)>, AllocError> {
        referred(alloc, places)
    }

    fn starts(
        &self,
        alloc: Global,
        roots: &[Url],
        places: &[ReferrerImports],
    ) -> Result<Items<Url>, AllocError> {
        starts_of(alloc, roots, places)
    }

    ghost once = { λ _. analysed_once };
}

/// A builder's parts with its way of following edges alone.
pub fn following_parts<L: Loader + Drop>(parts: Parts<L, DefaultWays>) -> Parts<L, Following>
    ensures loader { result.loader ≡ parts.loader }
    ensures following { result.following ≡ parts.following }
    ensures roots { result.roots ≡ parts.roots }
    ensures imports { result.imports ≡ parts.imports }
    ensures limit { result.limit ≡ parts.limit }
{
    let Parts {
        alloc,
        loader,
        following,
        roots,
        imports,
        limit,
    } = parts;
    Parts {
        alloc,
        loader,
        following: following.into_following(),
        roots,
        imports,
        limit,
    }
}
