//! The sites of a source, in buffers of the caller's.
ghost use Rattle.std.specs.Prelude.{◌≡◌, ◌+◌, ◌++◌, ◌&&◌, nat_le, length, vec_len, IfOk, OnOk, OnErr};
ghost use Rattle.graph_c.specs.Answer.{AnswersSites, TellsFinding, found_in, kind_number, attribute_number, attribute_text, records_from, record_of, texts_of, values_of};
ghost use Rattle.graph_c.specs.Told.{fault_of, place_of, status_of};

use crate::finding::{Finding, finding_of};
use crate::room::put;
use crate::told::{NO_MEMORY, fault_of, place_of, status_of};
use es_site::{Attribute, DependencyKind, Site};
use std::alloc::{AllocError, Global};

/// A place where a source names another module. Offsets are in bytes from 0, and an end is exclusive.
#[repr(C)]
#[derive(Clone, Copy)]
pub struct SourceSite {
    pub kind: u32,
    pub type_only: bool,
    /// The literal in the text, with its quotes.
    pub start: usize,
    pub end: usize,
    /// Its value in the buffer for values.
    pub value_start: usize,
    pub value_end: usize,
    /// Whether it has an import attribute `type`, and that one's text in the buffer for values.
    pub attribute: u32,
    pub attribute_start: usize,
    pub attribute_end: usize,
}

/// What a call reports beside its buffers.
#[repr(C)]
#[derive(Clone, Copy)]
pub struct Answer {
    /// How many sites the source has, and how many bytes their values and attributes.
    pub sites: usize,
    pub value_bytes: usize,
    /// The kind of the lexical fault, or 0, and the byte of the text where a fault is.
    pub fault: u32,
    pub place: usize,
}

/// Writes the sites of the source into the buffers, and answers how that ended.
pub fn answer_sites(
    alloc: Global,
    text: &[u8],
    media_type: u32,
    sites: &mut [SourceSite],
    values: &mut [u8],
    answer: &mut Answer,
) -> u32
    ensures { AnswersSites media_type text.now sites.old sites.new values.old values.new answer.new result }
{
    let Ok(finding) = finding_of(alloc, media_type, text) else {
        return no_memory(answer);
    };
    match tell(alloc, &finding, sites, values, answer) {
        Ok(status) => status,
        Err(_) => no_memory(answer),
    }
}

fn no_memory(answer: &mut Answer) -> u32
    ensures status { result ≡ 5 }
    ensures told { answer.new ≡ record { sites = 0; value_bytes = 0; fault = 0; place = 0 } }
{
    *answer = Answer {
        sites: 0,
        value_bytes: 0,
        fault: 0,
        place: 0,
    };
    NO_MEMORY
}

fn tell(
    alloc: Global,
    finding: &Finding,
    sites: &mut [SourceSite],
    values: &mut [u8],
    answer: &mut Answer,
) -> Result<u32, AllocError>
    ensures told { IfOk result
        (TellsFinding finding.now sites.old sites.new values.old values.new answer.new) }
    ensures kept { OnErr result ((sites.new ≡ sites.old) × (values.new ≡ values.old)) }
{
    let laid = lay_out(alloc, found_in(finding))?;
    let needed_sites = laid.sites.len();
    let needed_values = laid.values.len();
    let fit = are_within(needed_sites, sites.len(), needed_values, values.len());
    *answer = Answer {
        sites: needed_sites,
        value_bytes: needed_values,
        fault: fault_of(finding),
        place: place_of(finding),
    };
    if fit {
        put(sites, laid.sites.as_slice());
        put(values, laid.values.as_slice());
    }
    Ok(status_of(finding, fit))
}

/// Whether two buffers with so much room hold so much.
pub fn are_within(sites: usize, sites_room: usize, values: usize, values_room: usize) -> bool
    ensures { result ≡ (nat_le sites sites_room && nat_le values values_room) }
{
    sites <= sites_room && values <= values_room
}

/// Records of sites, and their texts, one after the other.
#[derive(Drop)]
struct Laid {
    sites: Vec<SourceSite>,
    values: Vec<u8>,
}

fn lay_out(alloc: Global, found: &[Site]) -> Result<Laid, AllocError>
    ensures sites { IfOk result (λ laid. laid.sites.items ≡ records_from 0 found.now) }
    ensures values { IfOk result (λ laid. laid.values.items ≡ values_of found.now) }
    ensures counted { IfOk result (λ laid. vec_len laid.sites ≡ length found.now) }
    ensures filled { IfOk result (λ laid. vec_len laid.values ≡ length (values_of found.now)) }
{
    let mut sites = Vec::new(alloc);
    let mut values = Vec::new(alloc);
    for site in found {
        let start = values.len();
        let value_end = add_texts(&mut values, site)?;
        sites.push(record_of(site, start, value_end, values.len()))?;
    }
    Ok(Laid { sites, values })
}

// Puts the value and the attribute of a site after the others, and returns where the value ends.
fn add_texts(values: &mut Vec<u8>, site: &Site) -> Result<usize, AllocError>
    ensures texts { OnOk result (values.new.items ≡ values.old.items ++ texts_of site.now) }
    ensures counted { OnOk result (vec_len values.new ≡ vec_len values.old + length (texts_of site.now)) }
    ensures between { IfOk result (λ end. end ≡ vec_len values.old + length site.now.value) }
{
    values.extend_from_slice(site.value.as_str().as_bytes())?;
    let end = values.len();
    values.extend_from_slice(attribute_text(&site.attribute).as_bytes())?;
    Ok(end)
}

fn record_of(site: &Site, start: usize, value_end: usize, end: usize) -> SourceSite
    ensures { result ≡ record_of site.now start value_end end }
{
    SourceSite {
        kind: kind_number(site.kind),
        type_only: site.type_only,
        start: site.range.start,
        end: site.range.end,
        value_start: start,
        value_end,
        attribute: attribute_number(&site.attribute),
        attribute_start: value_end,
        attribute_end: end,
    }
}

fn attribute_number(attribute: &Attribute) -> u32
    ensures { result ≡ attribute_number attribute.now }
{
    match attribute {
        Attribute::Absent => 0,
        Attribute::Unknown => 1,
        Attribute::Named(_) => 2,
    }
}

fn attribute_text(attribute: &Attribute) -> &str
    ensures { result.now ≡ attribute_text attribute.now }
{
    match attribute {
        Attribute::Named(text) => text.as_str(),
        _ => "",
    }
}

fn found_in(finding: &Finding) -> &[Site]
    ensures { result.now ≡ found_in finding.now }
{
    match finding {
        Finding::Found(sites) => sites.as_slice(),
        _ => &[],
    }
}

fn kind_number(kind: DependencyKind) -> u32
    ensures { result ≡ kind_number kind }
{
    match kind {
        DependencyKind::Import => 0,
        DependencyKind::Export => 1,
        DependencyKind::ImportEquals => 2,
        DependencyKind::Dynamic => 3,
        DependencyKind::ReferencePath => 4,
        DependencyKind::ReferenceTypes => 5,
        DependencyKind::Wasm => 6,
        DependencyKind::Referrer => 7,
        DependencyKind::ImportSource => 8,
        DependencyKind::ImportDefer => 9,
        DependencyKind::DynamicSource => 10,
        DependencyKind::DynamicDefer => 11,
        DependencyKind::Require => 12,
        DependencyKind::RequireResolve => 13,
        DependencyKind::TypeImport => 14,
        DependencyKind::Worker => 15,
        DependencyKind::Address => 16,
    }
}
