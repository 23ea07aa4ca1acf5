//! What a specifier in a source leads to.
ghost use Rattle.std.specs.Prelude.{◌≡◌, true, Ok, Err, IfErr};
ghost use Rattle.url.specs.Parts.{Parts};
ghost use Rattle.url.specs.Parser.{parse_url};
ghost use Rattle.lexical_path.specs.Specifiers.{has_relative_prefix};
ghost use Rattle.file_url.specs.Expected.{IsExpected};
ghost use Rattle.file_url.specs.declared.errors.SpecifierError.TheVariants.{OutOfMemory};
ghost use Rattle.file_url.specs.Imports as spec;

use crate::errors::SpecifierError;
use base::Text;
use lexical_path::has_relative_prefix;
use std::alloc::Global;
use url::{ParseError, Url};

/// The URL of an import at the referrer: the specifier itself where it is a URL, else joined to the referrer where it
/// begins with `/`, `./` or `../` (HTML, "resolve a module specifier", without an import map).
#[tactic(auto, unfolding(crate::specs::Imports::import_of), using(crate::proofs::ImportsLemmas::import_refused, crate::proofs::ImportsLemmas::refusal_keeps, crate::proofs::ImportsLemmas::joined, crate::proofs::ImportsLemmas::prefix_lacks))]
pub fn resolve_import(alloc: Global, specifier: &str, referrer: &Url) -> Result<Url, SpecifierError>
    ensures value { IsExpected OutOfMemory result (spec.import_of (Ok referrer.now) specifier.now) }
    ensures reason { IfErr result spec.KeepsReason }
{
    if has_relative_prefix(specifier) {
        return join(specifier, referrer);
    }
    match Url::parse(alloc, specifier) {
        Ok(url) => Ok(url),
        Err(ParseError::RelativeUrlWithoutBase) => Err(prefix_missing(alloc, specifier)),
        Err(error) => Err(refusal(error)),
    }
}

/// The same from a referrer that was read before, maybe to no URL: a relative specifier is then refused as the
/// referrer was.
pub fn resolve_import_from(
    alloc: Global,
    specifier: &str,
    referrer: &Result<Url, ParseError>,
) -> Result<Url, SpecifierError>
    ensures value { IsExpected OutOfMemory result (spec.import_of referrer.now specifier.now) }
    ensures reason { IfErr result spec.KeepsReason }
{
    match referrer {
        Ok(referrer) => resolve_import(alloc, specifier, referrer),
        Err(error) => refused_unless_absolute(alloc, specifier, *error),
    }
}

// A specifier that begins with `/`, `./` or `../` is no URL by itself, so that it isn't read as one first.
#[tactic(auto, using(crate::proofs::ImportsLemmas::joined, crate::proofs::ImportsLemmas::refusal_of_room, crate::proofs::ImportsLemmas::refusal_keeps))]
fn join(specifier: &str, referrer: &Url) -> Result<Url, SpecifierError>
    requires { has_relative_prefix specifier.now ≡ true }
    ensures value { IsExpected OutOfMemory result (spec.import_of (Ok referrer.now) specifier.now) }
    ensures reason { IfErr result spec.KeepsReason }
{
    match referrer.join(specifier) {
        Ok(url) => Ok(url),
        Err(error) => Err(refusal(error)),
    }
}

#[tactic(auto, unfolding(crate::specs::Imports::import_of), using(crate::proofs::ImportsLemmas::import_refused, crate::proofs::ImportsLemmas::refusal_keeps, crate::proofs::ImportsLemmas::joined, crate::proofs::ImportsLemmas::prefix_lacks))]
fn refused_unless_absolute(
    alloc: Global,
    specifier: &str,
    error: ParseError,
) -> Result<Url, SpecifierError>
    ensures value { IsExpected OutOfMemory result (spec.import_of (Err error) specifier.now) }
    ensures reason { IfErr result spec.KeepsReason }
{
    if has_relative_prefix(specifier) {
        return Err(refusal(error));
    }
    match Url::parse(alloc, specifier) {
        Ok(url) => Ok(url),
        Err(ParseError::RelativeUrlWithoutBase) => Err(prefix_missing(alloc, specifier)),
        Err(error) => Err(refusal(error)),
    }
}

fn prefix_missing(alloc: Global, specifier: &str) -> SpecifierError
    ensures { spec.IsPrefixMissing specifier.now result }
{
    match Text::from_str(alloc, specifier) {
        Ok(specifier) => SpecifierError::ImportPrefixMissing { specifier },
        Err(_) => SpecifierError::OutOfMemory,
    }
}

// A refusal of reading or joining; that memory ran out is a variant of its own, and a URL near 4 GB counts as that.
fn refusal(error: ParseError) -> SpecifierError
    ensures { result ≡ spec.refusal error }
{
    match error {
        ParseError::OutOfMemory | ParseError::Overflow => SpecifierError::OutOfMemory,
        _ => SpecifierError::InvalidUrl(error),
    }
}
