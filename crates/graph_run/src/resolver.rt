//! What resolves a bundle's specifiers.
ghost use Rattle.specifier_resolver.specs.Resolver.{resolving_or};
ghost use Rattle.import_map.specs.ImportMap.{map_resolve};

use deno_graph::{DefaultResolver, ResolveFault, Resolver};
use import_map::ImportMap;
use std::alloc::Global;
use url::Url;

/// Resolves by the import map of a bundle, or as the URL Standard does where it has none.
#[derive(Drop)]
pub struct BundleResolver {
    pub map: Option<ImportMap>,
}

impl Resolver for BundleResolver {
    ghost resolving = { λ r. resolving_or map_resolve r.map };

    fn resolve(&self, alloc: Global, specifier: &str, referrer: &Url) -> Result<Url, ResolveFault> {
        match &self.map {
            Some(map) => map.resolve(alloc, specifier, referrer),
            None => DefaultResolver.resolve(alloc, specifier, referrer),
        }
    }
}
