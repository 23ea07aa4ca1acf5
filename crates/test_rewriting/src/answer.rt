//! What becomes of the source of a row.

use crate::parsed::of_parsed;
use media_type::MediaType;
use source_sites::read_sites;
use source_text::SourceText;
use specifier_edits::{ChangeFault, first_fault, name_literals, rewrite_sites};
use std::alloc::{AllocError, Global};
use test_rows::Row;
use url::Url;

/// The new text of a row, or where its sites are and what they name, or which change can't be made and why. After its
/// URL and its source comes how many changes there are, then for each the number of a site and its new specifier.
pub fn answer(alloc: Global, row: &Row) -> Result<String, AllocError> {
    match Url::parse(alloc, row.at(1)) {
        Ok(specifier) => answer_at(alloc, row, &specifier),
        Err(_) => String::from_str(alloc, "no URL"),
    }
}

fn answer_at(alloc: Global, row: &Row, specifier: &Url) -> Result<String, AllocError> {
    let media_type = MediaType::from_specifier(alloc, specifier)?;
    let text = SourceText::from_string(String::from_str(alloc, row.at(2))?)?;
    if row.call() == "parsed" {
        return of_parsed(alloc, row, specifier, media_type, text);
    }
    if row.call() == "fault" {
        return told_fault(alloc, row, specifier, media_type, &text);
    }
    let new = match rewritten(alloc, row, specifier, media_type, &text)? {
        Some(new) => new,
        None => return String::from_str(alloc, "none"),
    };
    match row.call() {
        "text" => Ok(new),
        _ => told_sites(alloc, specifier, media_type, new),
    }
}

/// The new text, where the source is a program and the numbers are those of literals.
#[tactic(auto, using(specifier_edits::proofs::Theorems::source_sites))]
fn rewritten(
    alloc: Global,
    row: &Row,
    specifier: &Url,
    media_type: MediaType,
    text: &SourceText,
) -> Result<Option<String>, AllocError> {
    let changes = changes_of(alloc, row)?;
    let sites = match read_sites(alloc, specifier, text, media_type) {
        Ok(sites) => sites,
        Err(_) => return Ok(None),
    };
    if !name_literals(sites.as_slice(), changes.as_slice()) {
        return Ok(None);
    }
    let new = rewrite_sites(alloc, text.as_str(), sites.as_slice(), changes.as_slice())?;
    Ok(Some(new))
}

/// The place of the first change that can't be made, and why.
fn told_fault(
    alloc: Global,
    row: &Row,
    specifier: &Url,
    media_type: MediaType,
    text: &SourceText,
) -> Result<String, AllocError> {
    let changes = changes_of(alloc, row)?;
    let sites = match read_sites(alloc, specifier, text, media_type) {
        Ok(sites) => sites,
        Err(_) => return String::from_str(alloc, "no program"),
    };
    match first_fault(sites.as_slice(), changes.as_slice()) {
        Some((at, fault)) => format!(in alloc; "{at} {}", word_of(fault)),
        None => String::from_str(alloc, "none"),
    }
}

fn word_of(fault: ChangeFault) -> &'static str {
    match fault {
        ChangeFault::NoSite => "NoSite",
        ChangeFault::NoLiteral => "NoLiteral",
        ChangeFault::NoOrder => "NoOrder",
    }
}

/// The changes of a row.
pub fn changes_of(alloc: Global, row: &Row) -> Result<Vec<(usize, String)>, AllocError> {
    let mut changes = Vec::new(alloc);
    let mut at = 4usize;
    for _ in 0..row.number(3) {
        let specifier = String::from_str(alloc, row.at(at.saturating_add(1)))?;
        changes.push((row.number(at), specifier))?;
        at = at.saturating_add(2);
    }
    Ok(changes)
}

/// The range and the value of each site of a text.
fn told_sites(
    alloc: Global,
    specifier: &Url,
    media_type: MediaType,
    text: String,
) -> Result<String, AllocError> {
    let text = SourceText::from_string(text)?;
    let sites = match read_sites(alloc, specifier, &text, media_type) {
        Ok(sites) => sites,
        Err(_) => return String::from_str(alloc, "no program"),
    };
    let mut told = String::new(alloc);
    for site in sites.as_slice() {
        let (start, end) = (site.range.start, site.range.end);
        let one = format!(in alloc; "{start}-{end} {};", site.value.as_str())?;
        told.push_str(one.as_str())?;
    }
    Ok(told)
}
