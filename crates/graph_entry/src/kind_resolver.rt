//! Resolvers that hear the kind of an edge.
ghost use Rattle.specifier_resolver.specs.Resolver.{IsResolved};
ghost use Rattle.graph_entry.specs.Resolution.{KindResolving};

use es_site::DependencyKind;
use specifier_resolver::{ResolveFault, Resolver};
use std::alloc::Global;
use url::Url;

/// Resolves specifiers by the kind of the edge too: `require("a")` and `import("a")` may lead to two modules. Each
/// `Resolver` is one, for which the kind makes no difference.
pub trait KindResolver {
    /// What a text leads to from a referrer, for an edge of this kind.
    ghost resolving_by_kind: { Self → KindResolving };

    /// The meaning, or that memory ran out. A `Specifier` that holds it counts as that.
    fn resolve_by_kind(
        &self,
        alloc: Global,
        kind: DependencyKind,
        specifier: &str,
        referrer: &Url,
    ) -> Result<Url, ResolveFault>
        ensures resolved { IsResolved (resolving_by_kind self.now kind specifier.now referrer.now) result };
}

impl<R: Resolver> KindResolver for R {
    ghost resolving_by_kind = { λ r kind. R.resolving r };

    fn resolve_by_kind(
        &self,
        alloc: Global,
        _kind: DependencyKind,
        specifier: &str,
        referrer: &Url,
    ) -> Result<Url, ResolveFault> {
        self.resolve(alloc, specifier, referrer)
    }
}
