//! What a specifier in a source leads to.
ghost use Rattle.std.specs.Prelude.{◌≡◌, IfOk, MatchResult, None, Ok, Err};
ghost use Rattle.url.specs.Parser.{parse_url, IsOutOfRoom};
ghost use Rattle.file_url.specs.Imports.{import_of};
ghost use Rattle.graph_entry.specs.Specifier.{text_of};
ghost use Rattle.graph_entry.specs.Resolution as spec;
ghost use Rattle.graph_entry.specs.Steps.{read_of};

use crate::kind_resolver::KindResolver;
use base::Text;
use es_site::DependencyKind;
use file_url::canonical_url::reads_as_itself;
use file_url::{SpecifierError, resolve_import_from};
use specifier_resolver::{DefaultResolver, ResolveFault, Resolver};
use std::alloc::{AllocError, Global};
use std::fmt;
use url::{ParseError, Url};

/// Why a specifier in a source has no target.
#[derive(Debug, Drop, PartialEq, Eq)]
pub enum ResolutionError {
    /// The text is no URL, and doesn't begin by `/`, `./` or `../`.
    ImportPrefixMissing { specifier: Text },
    /// It can't be read as a URL.
    InvalidUrl(ParseError),
    /// The referrer is https, and the target http.
    InvalidDowngrade,
    /// The referrer is http or https, and the target a file.
    InvalidLocalImport,
    /// The import attribute doesn't fit the module at the edge's end. Never what a text and a referrer lead to.
    InvalidTypeAssertion,
    /// The edge is of a source phase, and the module at its end isn't one of WebAssembly. Never what a text and a referrer
    /// lead to.
    InvalidSourcePhase,
    /// For a reason of a caller's own resolver.
    Refused(Text),
}

impl ResolutionError {
    pub fn copy(&self) -> Result<ResolutionError, AllocError>
        ensures { IfOk result (λ e. e ≡ self.now) }
    {
        Ok(match self {
            ResolutionError::ImportPrefixMissing { specifier } => {
                ResolutionError::ImportPrefixMissing {
                    specifier: specifier.copy()?,
                }
            }
            ResolutionError::InvalidUrl(error) => ResolutionError::InvalidUrl(*error),
            ResolutionError::InvalidDowngrade => ResolutionError::InvalidDowngrade,
            ResolutionError::InvalidLocalImport => ResolutionError::InvalidLocalImport,
            ResolutionError::InvalidTypeAssertion => ResolutionError::InvalidTypeAssertion,
            ResolutionError::InvalidSourcePhase => ResolutionError::InvalidSourcePhase,
            ResolutionError::Refused(why) => ResolutionError::Refused(why.copy()?),
        })
    }

    /// The variant's name, as reports write it.
    pub fn name(&self) -> &'static str
        ensures { result.now ≡ spec.name_of_error self.now }
    {
        match self {
            ResolutionError::ImportPrefixMissing { .. } => "ImportPrefixMissing",
            ResolutionError::InvalidUrl(_) => "InvalidUrl",
            ResolutionError::InvalidDowngrade => "InvalidDowngrade",
            ResolutionError::InvalidLocalImport => "InvalidLocalImport",
            ResolutionError::InvalidTypeAssertion => "InvalidTypeAssertion",
            ResolutionError::InvalidSourcePhase => "InvalidSourcePhase",
            ResolutionError::Refused(_) => "Refused",
        }
    }
}

impl fmt::Display for ResolutionError {
    fn fmt<W: fmt::Write>(&self, f: &mut fmt::Formatter<W>) -> fmt::Result {
        f.write_str(self.name())
    }
}

/// A target, or why there is none.
pub type Resolved = Result<Url, ResolutionError>;

/// What the text of a URL is read as, by itself.
#[derive(Drop)]
pub enum ReadAgain<'a> {
    /// This URL.
    Itself(&'a Url),
    /// Another one.
    Other(Url),
    /// A refusal; never that memory ran out.
    Refused(ParseError),
}

impl ReadAgain<'_> {
    /// The URL that was read.
    pub fn url(&self) -> Result<&Url, ParseError>
        ensures { MatchResult result (λ url. read_of self.now ≡ Ok url.now) (λ e. read_of self.now ≡ Err e) }
    {
        match self {
            ReadAgain::Itself(url) => Ok(url),
            ReadAgain::Other(url) => Ok(url),
            ReadAgain::Refused(error) => Err(*error),
        }
    }
}

/// What the text of a specifier leads to from the module at the referrer (HTML, "resolve a module specifier").
/// The inner `Err` says why there is no target, the outer one that memory ran out.
pub fn resolve(alloc: Global, text: &str, referrer: &Url) -> Result<Resolved, AllocError>
    ensures { IfOk result (λ r. r ≡ spec.resolve (text_of referrer.now) text.now) }
{
    resolve_by(alloc, &DefaultResolver, text, referrer)
}

/// The same, where a resolver of the caller's says what an import leads to.
pub fn resolve_by<R: Resolver>(
    alloc: Global,
    resolver: &R,
    text: &str,
    referrer: &Url,
) -> Result<Resolved, AllocError>
    ensures { IfOk result (λ r. r ≡ spec.resolve_by (R.resolving resolver.now) (text_of referrer.now) text.now) }
{
    resolve_by_kind(alloc, resolver, DependencyKind::Import, text, referrer)
}

/// The same for an edge of a kind, where a resolver of the caller's hears the kind.
pub fn resolve_by_kind<R: KindResolver>(
    alloc: Global,
    resolver: &R,
    kind: DependencyKind,
    text: &str,
    referrer: &Url,
) -> Result<Resolved, AllocError>
    ensures { IfOk result (λ r. r ≡ spec.resolve_by_kind (R.resolving_by_kind resolver.now) kind (text_of referrer.now) text.now) }
{
    let base = read_again(alloc, referrer)?;
    resolve_from(alloc, resolver, kind, &base, text)
}

/// What the specifier's own text is read as. It is read only where that isn't known to be the specifier itself.
#[tactic(auto, unfolding(crate::specs::Specifier::text_of))]
pub fn read_again<'a>(alloc: Global, specifier: &'a Url) -> Result<ReadAgain<'a>, AllocError>
    ensures { IfOk result (λ r. read_of r ≡ parse_url None (text_of specifier.now)) }
{
    if reads_as_itself(specifier) {
        return Ok(ReadAgain::Itself(specifier));
    }
    match Url::parse(alloc, specifier.as_str()) {
        Ok(url) => Ok(ReadAgain::Other(url)),
        Err(error) => Ok(ReadAgain::Refused(kept(error)?)),
    }
}

/// What a text leads to for an edge of a kind, from a referrer whose own text was read.
pub fn resolve_from<R: KindResolver>(
    alloc: Global,
    resolver: &R,
    kind: DependencyKind,
    base: &ReadAgain<'_>,
    text: &str,
) -> Result<Resolved, AllocError>
    ensures { IfOk result (λ r. r ≡ spec.resolved_by (R.resolving_by_kind resolver.now kind) (read_of base.now) text.now) }
{
    let resolved = target_by(alloc, resolver, kind, base, text)?;
    Ok(allowed_from(base, resolved))
}

// Where the referrer may lead to the target, the target.
fn allowed_from(base: &ReadAgain<'_>, resolved: Resolved) -> Resolved
    ensures { result ≡ spec.allowed_from (read_of base.now) resolved }
{
    match base.url() {
        Ok(referrer) => allowed(referrer, resolved?),
        Err(_) => resolved,
    }
}

fn allowed(referrer: &Url, target: Url) -> Resolved
    ensures { result ≡ spec.allowed referrer.now target }
{
    let secure = referrer.scheme() == "https";
    if secure && target.scheme() == "http" {
        return Err(ResolutionError::InvalidDowngrade);
    }
    if (referrer.scheme() == "http" || secure) && target.scheme() == "file" {
        return Err(ResolutionError::InvalidLocalImport);
    }
    Ok(target)
}

// The target of a text, whatever the referrer may lead to.
fn target_by<R: KindResolver>(
    alloc: Global,
    resolver: &R,
    kind: DependencyKind,
    base: &ReadAgain<'_>,
    text: &str,
) -> Result<Resolved, AllocError>
    ensures { IfOk result (λ r. r ≡ spec.target_by (R.resolving_by_kind resolver.now kind) (read_of base.now) text.now) }
{
    match base.url() {
        Ok(referrer) => target_from(alloc, resolver, kind, referrer, text),
        Err(error) => target_from_none(alloc, error, text),
    }
}

// The target that the resolver gives.
fn target_from<R: KindResolver>(
    alloc: Global,
    resolver: &R,
    kind: DependencyKind,
    referrer: &Url,
    text: &str,
) -> Result<Resolved, AllocError>
    ensures { IfOk result (λ r. r ≡ spec.kept_resolving (R.resolving_by_kind resolver.now kind text.now referrer.now)) }
{
    match resolver.resolve_by_kind(alloc, kind, text, referrer) {
        Ok(url) => Ok(Ok(url)),
        Err(ResolveFault::Specifier(SpecifierError::ImportPrefixMissing { specifier })) => {
            Ok(Err(ResolutionError::ImportPrefixMissing { specifier }))
        }
        Err(ResolveFault::Specifier(SpecifierError::InvalidUrl(error))) => {
            Ok(Err(ResolutionError::InvalidUrl(kept(error)?)))
        }
        Err(ResolveFault::Refused(why)) => Ok(Err(ResolutionError::Refused(why))),
        Err(ResolveFault::Specifier(SpecifierError::OutOfMemory) | ResolveFault::OutOfMemory) => {
            Err(AllocError)
        }
    }
}

// The target from a referrer that is no URL.
fn target_from_none(alloc: Global, error: ParseError, text: &str) -> Result<Resolved, AllocError>
    ensures { IfOk result (λ r. r ≡ spec.kept_of (import_of (Err error) text.now)) }
{
    match resolve_import_from(alloc, text, &Err(error)) {
        Ok(url) => Ok(Ok(url)),
        Err(SpecifierError::ImportPrefixMissing { specifier }) => {
            Ok(Err(ResolutionError::ImportPrefixMissing { specifier }))
        }
        Err(SpecifierError::InvalidUrl(error)) => Ok(Err(ResolutionError::InvalidUrl(error))),
        Err(SpecifierError::OutOfMemory) => Err(AllocError),
    }
}

// A refusal, unless memory ran out.
fn kept(error: ParseError) -> Result<ParseError, AllocError>
    ensures { IfOk result (λ e. (e ≡ error) × ¬ IsOutOfRoom error) }
{
    match error {
        ParseError::OutOfMemory | ParseError::Overflow => Err(AllocError),
        _ => Ok(error),
    }
}
