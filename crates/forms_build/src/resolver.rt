//! What resolves the specifiers of a bundle with choices.
ghost use Rattle.std.specs.Prelude.{◌≡◌};
ghost use Rattle.std.specs.Option.{option_copied};
ghost use Rattle.forms_build.specs.Resolver.{is_of_require, map_for, kind_resolving};

use deno_graph::{DefaultResolver, ResolveFault, Resolver};
use graph_entry::{DependencyKind, KindResolver};
use import_map::ImportMap;
use std::alloc::Global;
use url::Url;

/// Resolves edges of `require` by a map of their own, where there is one, and all others by the import map of a bundle, or as
/// the URL Standard does where it has none.
#[derive(Drop)]
pub struct FormsResolver {
    pub map: Option<ImportMap>,
    pub require_map: Option<ImportMap>,
}

impl FormsResolver {
    /// The map by which an edge of this kind is resolved.
    fn map_for(&self, kind: DependencyKind) -> Option<&ImportMap>
        ensures { option_copied result ≡ map_for kind self.now.map self.now.require_map }
    {
        match &self.require_map {
            Some(map) if is_of_require(kind) => Some(map),
            _ => self.map.as_ref(),
        }
    }
}

fn is_of_require(kind: DependencyKind) -> bool
    ensures { result ≡ is_of_require kind }
{
    matches!(
        kind,
        DependencyKind::Require | DependencyKind::RequireResolve
    )
}

impl KindResolver for FormsResolver {
    ghost resolving_by_kind = { kind_resolving };

    fn resolve_by_kind(
        &self,
        alloc: Global,
        kind: DependencyKind,
        specifier: &str,
        referrer: &Url,
    ) -> Result<Url, ResolveFault> {
        match self.map_for(kind) {
            Some(map) => map.resolve(alloc, specifier, referrer),
            None => DefaultResolver.resolve(alloc, specifier, referrer),
        }
    }
}
