//! What resolves specifiers by an import map.
ghost use Rattle.specifier_resolver.specs.Resolver.{resolving_or};
ghost use Rattle.import_map.specs.ImportMap.{map_resolve};

use import_map::ImportMap;
use specifier_resolver::{DefaultResolver, ResolveFault, Resolver};
use std::alloc::Global;
use url::Url;

/// Resolves by an import map, or as the URL Standard does where there is none.
#[derive(Drop)]
pub struct MapResolver {
    pub map: Option<ImportMap>,
}

impl Resolver for MapResolver {
    ghost resolving = { λ r. resolving_or map_resolve r.map };

    fn resolve(&self, alloc: Global, specifier: &str, referrer: &Url) -> Result<Url, ResolveFault> {
        match &self.map {
            Some(map) => map.resolve(alloc, specifier, referrer),
            None => DefaultResolver.resolve(alloc, specifier, referrer),
        }
    }
}
