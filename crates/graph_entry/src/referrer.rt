//! What a place outside the graph imports: its edges, and where a graph's reach starts by them.
ghost use Rattle.std.specs.Prelude.{◌≡◌, map, IfOk, OnOk};
ghost use Rattle.std.specs.List.{flat_map};
ghost use Rattle.graph_entry.specs.Specifier.{text_of};
ghost use Rattle.graph_entry.specs.Referrer as spec;
ghost use Rattle.graph_entry.specs.Referrer.{referrer_resolves};

use crate::entry::Dependency;
use crate::kind_resolver::KindResolver;
use crate::resolution::resolve_by_kind;
use base::{Items, Text};
use es_site::{Attribute, DependencyKind};
use specifier_resolver::DefaultResolver;
use std::alloc::{AllocError, Global};
use url::Url;

/// Specifiers that a place outside the graph imports, as a configuration file does.
#[derive(Drop)]
pub struct ReferrerImports {
    pub referrer: Url,
    pub imports: Items<Text>,
}

impl ReferrerImports {
    /// The same imports of the same referrer.
    pub fn copy(&self, alloc: Global) -> Result<ReferrerImports, AllocError>
        ensures { IfOk result (λ copy. copy ≡ self.now) }
    {
        Ok(ReferrerImports {
            referrer: self.referrer.clone()?,
            imports: copy_texts(alloc, self.imports.as_slice())?,
        })
    }
}

fn copy_texts(alloc: Global, texts: &[Text]) -> Result<Items<Text>, AllocError>
    ensures { IfOk result (λ copy. copy ≡ texts.now) }
{
    let mut copy = Items::new(alloc);
    for text in texts {
        copy.push(text.copy()?)?;
    }
    Ok(copy)
}

/// Each referrer with the edges of what it imports.
pub fn referred(
    alloc: Global,
    places: &[ReferrerImports],
) -> Result<Items<(Url, Items<Dependency>)>, AllocError>
    ensures { IfOk result (λ made. made ≡ map spec.referred places.now) }
{
    referred_by(alloc, &DefaultResolver, places)
}

/// The same by a resolver of the caller's.
pub fn referred_by<R: KindResolver>(
    alloc: Global,
    resolver: &R,
    places: &[ReferrerImports],
) -> Result<Items<(Url, Items<Dependency>)>, AllocError>
    ensures { IfOk result (λ made. made
        ≡ map (spec.referred_by (referrer_resolves (R.resolving_by_kind resolver.now))) places.now) }
{
    let mut made = Items::new(alloc);
    for place in places {
        made.push(one_referred(alloc, resolver, place)?)?;
    }
    Ok(made)
}

fn one_referred<R: KindResolver>(
    alloc: Global,
    resolver: &R,
    place: &ReferrerImports,
) -> Result<(Url, Items<Dependency>), AllocError>
    ensures { IfOk result (λ made. made ≡ spec.referred_by (referrer_resolves (R.resolving_by_kind resolver.now)) place.now) }
{
    let edges = edges_of(alloc, resolver, &place.referrer, place.imports.as_slice())?;
    Ok((place.referrer.clone()?, edges))
}

/// Where the reach of a graph starts: at its roots, and where the edges of the referrers lead.
pub fn starts_of(
    alloc: Global,
    roots: &[Url],
    places: &[ReferrerImports],
) -> Result<Items<Url>, AllocError>
    ensures { IfOk result (λ starts. map text_of starts ≡ spec.starts_of roots.now places.now) }
{
    starts_by(alloc, &DefaultResolver, roots, places)
}

/// The same by a resolver of the caller's.
pub fn starts_by<R: KindResolver>(
    alloc: Global,
    resolver: &R,
    roots: &[Url],
    places: &[ReferrerImports],
) -> Result<Items<Url>, AllocError>
    ensures { IfOk result (λ starts. map text_of starts
        ≡ spec.starts_by (referrer_resolves (R.resolving_by_kind resolver.now)) roots.now places.now) }
{
    let mut starts = copies(alloc, roots)?;
    add_targets_of_all(alloc, resolver, &mut starts, places)?;
    Ok(starts)
}

fn copies(alloc: Global, urls: &[Url]) -> Result<Items<Url>, AllocError>
    ensures { IfOk result (λ copy. copy ≡ urls.now) }
{
    let mut copy = Items::new(alloc);
    for url in urls {
        copy.push(url.clone()?)?;
    }
    Ok(copy)
}

fn add_targets_of_all<R: KindResolver>(
    alloc: Global,
    resolver: &R,
    starts: &mut Items<Url>,
    places: &[ReferrerImports],
) -> Result<(), AllocError>
    ensures { OnOk result (spec.Adds starts.old starts.new (flat_map (spec.led_from (referrer_resolves (R.resolving_by_kind resolver.now))) places.now)) }
{
    for place in places {
        let edges = edges_of(alloc, resolver, &place.referrer, place.imports.as_slice())?;
        add_targets(starts, edges.as_slice())?;
    }
    Ok(())
}

fn add_targets(starts: &mut Items<Url>, edges: &[Dependency]) -> Result<(), AllocError>
    ensures { OnOk result (spec.Adds starts.old starts.new (flat_map spec.led_by edges.now)) }
{
    for edge in edges {
        add_target(starts, edge)?;
    }
    Ok(())
}

fn add_target(starts: &mut Items<Url>, edge: &Dependency) -> Result<(), AllocError>
    ensures { OnOk result (spec.Adds starts.old starts.new (spec.led_by edge.now)) }
{
    match &edge.resolution {
        Ok(target) => starts.push(target.clone()?),
        Err(_) => Ok(()),
    }
}

// The edges of the texts that a referrer imports, in their order.
fn edges_of<R: KindResolver>(
    alloc: Global,
    resolver: &R,
    referrer: &Url,
    texts: &[Text],
) -> Result<Items<Dependency>, AllocError>
    ensures { IfOk result (λ edges. edges
        ≡ map (spec.referrer_edge (referrer_resolves (R.resolving_by_kind resolver.now)) (text_of referrer.now)) texts.now) }
{
    let mut edges = Items::new(alloc);
    for text in texts {
        edges.push(edge_of(alloc, resolver, referrer, text)?)?;
    }
    Ok(edges)
}

fn edge_of<R: KindResolver>(
    alloc: Global,
    resolver: &R,
    referrer: &Url,
    text: &Text,
) -> Result<Dependency, AllocError>
    ensures { IfOk result (λ edge. edge
        ≡ spec.referrer_edge (referrer_resolves (R.resolving_by_kind resolver.now)) (text_of referrer.now) text.now) }
{
    let kind = DependencyKind::Referrer;
    Ok(Dependency {
        kind,
        type_only: false,
        range: None,
        text: text.copy()?,
        attribute: Attribute::Unknown,
        resolution: resolve_by_kind(alloc, resolver, kind, text.as_str(), referrer)?,
    })
}
