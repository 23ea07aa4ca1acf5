//! Import maps, and where specifiers lead by them.
ghost use Rattle.std.specs.Prelude.{◌≡◌, ◌∷◌, ℕ, List, Ok, Err, IfOk, option_and_then};
ghost use Rattle.std.specs.Option.{option_copied};
ghost use Rattle.serde_json.specs.View.{view};
ghost use Rattle.url.specs.Parts.{serialize};
ghost use Rattle.specifier_resolver.specs.Resolver.{IsResolved};
ghost use Rattle.import_map.specs.ImportMap as spec;
ghost use Rattle.import_map.specs.Order.{IsInOrder, AreInOrder};

use crate::follow::led_by;
use crate::json_reading::Reading;
use crate::names::{Names, names_of, reach};
use crate::read::{imports_at, scopes_at, url_like};
use crate::table::{Addresses, match_in, scoped_match};
use base::{Items, Text};
use serde_json::Value;
use specifier_resolver::{DefaultResolver, ResolveFault, Resolver};
use std::alloc::{AllocError, Global};
use std::marker::Model;
use thiserror::Error;
use url::Url;

/// An import map: addresses for keys of specifiers, and scopes of referrers with such addresses of their own.
#[derive(Drop)]
pub struct ImportMap {
    imports: Addresses,
    scopes: Items<(Text, Addresses)>,
    names: Names,
}

impl Model for ImportMap {
    ghost use Rattle.import_map.specs.ImportMap.{MapData};
    ghost use Rattle.import_map.specs.Names.{IsKept};

    ghost Value = { MapData };

    ghost view = { λ m. record { imports = m.imports; scopes = m.scopes } };

    ghost invariant = { λ m. IsKept (record { imports = m.imports; scopes = m.scopes }) m.names };
}

/// Why a value is no import map.
#[derive(Debug, Drop, PartialEq, Eq, Error)]
pub enum ImportMapError {
    /// The JSON pointer (RFC 6901) to the first thing that isn't an object: the value, its `imports`, its `scopes`, a scope.
    #[error("not an object: \"{0}\"")]
    NotObject(Text),
    #[error("out of memory")]
    OutOfMemory,
}

impl ImportMap {
    /// The import map that a JSON value says. Its relative URLs are read at the base.
    pub fn from_value(alloc: Global, value: &Value, base: &Url) -> Result<ImportMap, ImportMapError>
        ensures map { IfOk result (λ m. spec.map_of base.now (view value.now) ≡ Ok m) }
        ensures not_object { (at : List ℕ) → result ≡ Err (ImportMapError.NotObject at) →
            spec.map_of base.now (view value.now) ≡ Err at }
    {
        match map_in(alloc, value, base) {
            Ok(Ok(map)) => Ok(map),
            Ok(Err(at)) => Err(ImportMapError::NotObject(at)),
            Err(_) => Err(ImportMapError::OutOfMemory),
        }
    }
}

#[tactic(auto, unfolding(crate::specs::ImportMap::map_of))]
fn map_in(alloc: Global, value: &Value, base: &Url) -> Result<Reading<ImportMap>, AllocError>
    ensures { IfOk result (λ r. r ≡ spec.map_of base.now (view value.now)) }
{
    match value.as_object() {
        Some(_) => map_with(alloc, value, base),
        None => Ok(Err(Text::new(alloc))),
    }
}

// The import map that an object says.
fn map_with(alloc: Global, value: &Value, base: &Url) -> Result<Reading<ImportMap>, AllocError>
    ensures { IfOk result (λ r. r ≡ spec.map_from base.now (view value.now)) }
{
    let imports = match imports_at(alloc, base, value)? {
        Ok(imports) => imports,
        Err(at) => return Ok(Err(at)),
    };
    match scopes_at(alloc, base, value)? {
        Ok(scopes) => Ok(Ok(named(alloc, imports, scopes)?)),
        Err(at) => Ok(Err(at)),
    }
}

// The import map of these tables.
fn named(
    alloc: Global,
    imports: Addresses,
    scopes: Items<(Text, Addresses)>,
) -> Result<ImportMap, AllocError>
    requires imports { IsInOrder imports }
    requires scopes { AreInOrder scopes }
    ensures { IfOk result (λ m. m ≡ record { imports = imports; scopes = scopes }) }
{
    let names = names_of(alloc, scopes.as_slice())?;
    Ok(ImportMap {
        imports,
        scopes,
        names,
    })
}

impl ImportMap {
    // The match of the scope that decides on a text.
    #[tactic(auto, using(crate::proofs::NamesLemmas::scopes_within))]
    fn scoped_match_of(
        &self,
        text: &[u8],
        fronts: bool,
        referrer: &[u8],
    ) -> Option<&(Text, Option<Url>)>
        ensures { option_copied result ≡ spec.scoped_match fronts text.now referrer.now self.now.scopes }
    {
        let most = reach(self.names.as_slice(), text, fronts);
        scoped_match(self.scopes.as_slice(), text, fronts, referrer, most)
    }

    // The match that decides on a text.
    fn match_of(&self, text: &str, fronts: bool, referrer: &str) -> Option<&(Text, Option<Url>)>
        ensures { option_copied result ≡ spec.match_of self.now fronts text.now referrer.now }
    {
        let text = text.as_bytes();
        match self.scoped_match_of(text, fronts, referrer.as_bytes()) {
            Some(found) => Some(found),
            None => match_in(self.imports.as_slice(), text, fronts),
        }
    }

    // Where a specifier leads, by what it is read as.
    fn resolve_read(
        &self,
        alloc: Global,
        url: Option<&Url>,
        specifier: &str,
        referrer: &Url,
    ) -> Result<Url, ResolveFault>
        ensures { IsResolved (spec.resolve_read self.now (option_copied url.entry) specifier.now referrer.now) result }
    {
        let text = text_or(url, specifier);
        match self.match_of(text, has_fronts(url), referrer.as_str()) {
            Some(found) => led_by(alloc, text, found.0.as_str(), found.1.as_ref()),
            None => DefaultResolver.resolve(alloc, specifier, referrer),
        }
    }
}

fn text_or<'a>(url: Option<&'a Url>, specifier: &'a str) -> &'a str
    ensures { result.now ≡ spec.text_or (option_copied url.entry) specifier.now }
{
    match url {
        Some(url) => url.as_str(),
        None => specifier,
    }
}

// Whether fronts of what is read so count.
fn has_fronts(url: Option<&Url>) -> bool
    ensures { result ≡ spec.has_fronts (option_copied url.entry) }
{
    match url {
        Some(url) => url.is_special(),
        None => true,
    }
}

impl Resolver for ImportMap {
    ghost resolving = { spec.map_resolve };

    #[tactic(auto, unfolding(crate::specs::ImportMap::map_resolve))]
    fn resolve(&self, alloc: Global, specifier: &str, referrer: &Url) -> Result<Url, ResolveFault> {
        match url_like(alloc, referrer, specifier) {
            Ok(url) => self.resolve_read(alloc, url.as_ref(), specifier, referrer),
            Err(_) => Err(ResolveFault::OutOfMemory),
        }
    }
}
