//! What resolves specifiers: the URL Standard, or a caller's own.
ghost use Rattle.std.specs.Prelude.{List, ℕ};
ghost use Rattle.url.specs.Parts.{Parts};
ghost use Rattle.specifier_resolver.specs.Resolver.{Resolving, default_resolving, IsResolved};

use base::Text;
use file_url::{SpecifierError, resolve_import};
use std::alloc::Global;
use url::Url;

/// Why a resolver gives no target.
#[derive(Debug, Drop)]
pub enum ResolveFault {
    Specifier(SpecifierError),
    /// For a reason of the resolver's own.
    Refused(Text),
    OutOfMemory,
}

/// Resolves specifiers. What a referrer may not lead to is refused later, whatever resolves.
pub trait Resolver {
    /// What a text leads to from a referrer.
    ghost resolving: { Self → List ℕ → Parts → Resolving };

    /// The meaning, or that memory ran out. A `Specifier` that holds it counts as that.
    fn resolve(&self, alloc: Global, specifier: &str, referrer: &Url) -> Result<Url, ResolveFault>
        ensures resolved { IsResolved (resolving self.now specifier.now referrer.now) result };
}

/// Resolves as `resolve_import` does.
#[derive(Clone, Copy, Drop)]
pub struct DefaultResolver;

impl Resolver for DefaultResolver {
    ghost resolving = { λ _. default_resolving };

    #[tactic(auto, using(crate::proofs::FaultLemmas::default_fault))]
    fn resolve(&self, alloc: Global, specifier: &str, referrer: &Url) -> Result<Url, ResolveFault> {
        match resolve_import(alloc, specifier, referrer) {
            Ok(url) => Ok(url),
            Err(SpecifierError::OutOfMemory) => Err(ResolveFault::OutOfMemory),
            Err(error) => Err(ResolveFault::Specifier(error)),
        }
    }
}
