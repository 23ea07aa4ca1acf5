//! What becomes of the source of a row that is parsed.
ghost use Rattle.specifier_rewriting.specs.Own.{IsOwnTree};

use crate::answer::changes_of;
use deno_ast::{ParseParams, ParsedSource, parse_program};
use media_type::MediaType;
use source_text::SourceText;
use specifier_edits::name_literals;
use specifier_rewriting::rewrite_specifiers;
use std::alloc::{AllocError, Global};
use test_rows::Row;
use url::Url;

/// The new text of a row's source, where it is a program and the numbers are those of literals.
#[tactic(auto, using(specifier_rewriting::proofs::Theorems::parsed_own))]
pub fn of_parsed(
    alloc: Global,
    row: &Row,
    specifier: &Url,
    media_type: MediaType,
    text: SourceText,
) -> Result<String, AllocError> {
    let changes = changes_of(alloc, row)?;
    let params = ParseParams {
        specifier: specifier.clone()?,
        text,
        media_type,
        capture_tokens: false,
        scope_analysis: false,
        maybe_syntax: None,
    };
    match parse_program(alloc, params) {
        Ok(source) => rewritten(alloc, &source, changes.as_slice()),
        Err(_) => String::from_str(alloc, "no program"),
    }
}

fn rewritten(
    alloc: Global,
    source: &ParsedSource,
    changes: &[(usize, String)],
) -> Result<String, AllocError>
    requires { IsOwnTree source.now }
{
    let sites = source.sites(alloc)?;
    if !name_literals(sites.as_slice(), changes) {
        return String::from_str(alloc, "none");
    }
    rewrite_specifiers(alloc, source, changes)
}
