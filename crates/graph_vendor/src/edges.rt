//! Edges that can't be vendored, and edges that are those of sites.
ghost use Rattle.std.specs.Prelude.{◌≡◌, ◌↔◌, true, Some};
ghost use Rattle.graph_vendor.specs.Refused.{AreOfSites, IsSite};
ghost use Rattle.graph_vendor.specs.Refused as spec;

use crate::plan::VendorCause;
use base::Range;
use es_site::Site;
use graph_entry::{Dependency, DependencyKind};

/// Why an edge can't be vendored: the first one that can't.
pub fn edges_cause(edges: &[Dependency]) -> Option<VendorCause>
    ensures { result ≡ spec.edges_cause edges.now }
{
    for edge in edges {
        if let Some(cause) = edge_cause(edge) {
            return Some(cause);
        }
    }
    None
}

fn edge_cause(edge: &Dependency) -> Option<VendorCause>
    ensures { result ≡ spec.edge_cause edge.now.resolution edge.now.kind }
{
    match edge.resolution {
        Ok(_) => kind_cause(edge.kind),
        Err(_) => Some(VendorCause::RefusedEdge),
    }
}

fn kind_cause(kind: DependencyKind) -> Option<VendorCause>
    ensures { result ≡ spec.kind_cause kind }
{
    match kind {
        DependencyKind::ReferencePath | DependencyKind::ReferenceTypes => Some(
            VendorCause::ReferenceComment,
        ),
        DependencyKind::Wasm => Some(VendorCause::WasmImport),
        _ => None,
    }
}

/// Whether the edges are those of these sites, in their order.
pub fn are_of_sites(edges: &[Dependency], sites: &[Site]) -> bool
    ensures { (result ≡ true) ↔ AreOfSites edges.now sites.now }
{
    if edges.len() != sites.len() {
        return false;
    }
    for i in 0..edges.len() {
        if !is_site(&edges[i], &sites[i]) {
            return false;
        }
    }
    true
}

fn is_site(edge: &Dependency, site: &Site) -> bool
    ensures { (result ≡ true) ↔ IsSite edge.now site.now }
{
    edge.kind == site.kind
        && edge.type_only == site.type_only
        && is_range(edge.range, site.range)
        && edge.text == site.value
        && edge.attribute == site.attribute
}

fn is_range(range: Option<Range>, other: Range) -> bool
    ensures { (result ≡ true) ↔ (range ≡ Some other) }
{
    match range {
        Some(range) => range == other,
        None => false,
    }
}
