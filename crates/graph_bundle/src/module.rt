//! A module of a bundle: its specifier and its answer.
ghost use Rattle.std.specs.Prelude.{◌≡◌, ◌≤◌, [], IfOk, codes};
ghost use Rattle.serde_json.specs.View.{view, members_view};
ghost use Rattle.graph_entry.specs.Specifier.{text_of};
ghost use Rattle.graph_builder.specs.Reach.{has};
ghost use Rattle.graph_builder.specs.ByText.{keys_at};
ghost use Rattle.graph_bundle.specs.Bundle as spec;

use crate::members::{Keys, only, optional, required};
use crate::part::Part;
use base::{SharedBytes, Text};
use base64::DecodeAllocError;
use base64::engine::general_purpose::STANDARD;
use graph_entry::{Headers, LoadAnswer};
use graph_tables::specifier_table::Numbered;
use import_map::json_reading::{Reading, escaped, pointer, under};
use serde_json::{Map, Value};
use std::alloc::{AllocError, Global};
use url::Url;

/// The module that a value describes, after modules with these specifiers.
pub fn module_in(
    alloc: Global,
    seen: &Numbered<LoadAnswer>,
    value: &Value,
) -> Result<Reading<(Url, LoadAnswer)>, AllocError>
    ensures { IfOk result (λ r. r ≡ spec.module_after (keys_at seen.now) (view value.now)) }
{
    match value.as_object() {
        Some(members) => match new_specifier(alloc, seen, value)? {
            Ok(specifier) => module_with(alloc, specifier, value, members),
            Err(at) => Ok(Err(at)),
        },
        None => Ok(Err(Text::new(alloc))),
    }
}

/// The specifier, unless another module has it.
fn new_specifier(
    alloc: Global,
    seen: &Numbered<LoadAnswer>,
    value: &Value,
) -> Result<Reading<Url>, AllocError>
    ensures { IfOk result (λ r. r ≡ spec.new_specifier (keys_at seen.now) (view value.now)) }
{
    let specifier: Url = match required(alloc, value, "specifier")? {
        Ok(specifier) => specifier,
        Err(at) => return Ok(Err(at)),
    };
    if is_seen(seen, &specifier) {
        return Ok(Err(pointer(alloc, "specifier", "")?));
    }
    Ok(Ok(specifier))
}

/// Whether one of these specifiers is this.
#[tactic(auto, unfolding(graph_entry::specs::Specifier::text_of), using(crate::proofs::BundleLemmas::has_number))]
fn is_seen(seen: &Numbered<LoadAnswer>, specifier: &Url) -> bool
    ensures { result ≡ has (keys_at seen.now) (text_of specifier.now) }
{
    seen.number(specifier).is_some()
}

/// The module at a specifier.
fn module_with(
    alloc: Global,
    specifier: Url,
    value: &Value,
    members: &Map<String, Value>,
) -> Result<Reading<(Url, LoadAnswer)>, AllocError>
    ensures { IfOk result (λ r. r ≡ spec.module_from specifier (view value.now) (members_view members.now.entries)) }
{
    let headers = match optional(alloc, value, "headers", Headers::new(alloc))? {
        Ok(headers) => headers,
        Err(at) => return Ok(Err(at)),
    };
    let answer = match answer_in(alloc, headers, value)? {
        Ok(answer) => answer,
        Err(at) => return Ok(Err(at)),
    };
    match only::<ModuleKeys>(alloc, members)? {
        Ok(()) => Ok(Ok((specifier, answer))),
        Err(at) => Ok(Err(at)),
    }
}

/// The keys of a module.
struct ModuleKeys;

impl Keys for ModuleKeys {
    ghost knows = { spec.knows_module };

    fn knows(key: &str) -> bool {
        key == "specifier"
            || key == "headers"
            || key == "text"
            || key == "base64"
            || key == "redirect"
            || key == "external"
            || key == "fail"
    }
}

// ---- the answer

/// The one answer that a module has.
fn answer_in(
    alloc: Global,
    headers: Headers,
    value: &Value,
) -> Result<Reading<LoadAnswer>, AllocError>
    ensures { IfOk result (λ r. r ≡ spec.answer_of headers (view value.now)) }
{
    if count_answers(value) != 1 {
        return Ok(Err(Text::new(alloc)));
    }
    text_or_other(alloc, headers, value)
}

/// How many answers a module has.
fn count_answers(value: &Value) -> usize
    ensures { result ≡ spec.count_answers (view value.now) }
{
    count_at(value, "text")
        + count_at(value, "base64")
        + count_at(value, "redirect")
        + count_at(value, "external")
        + count_at(value, "fail")
}

fn count_at(value: &Value, key: &str) -> usize
    ensures count { result ≡ spec.count_at key.now (view value.now) }
    ensures few { result ≤ 1 }
{
    match value.get(key) {
        Some(_) => 1,
        None => 0,
    }
}

fn text_or_other(
    alloc: Global,
    headers: Headers,
    value: &Value,
) -> Result<Reading<LoadAnswer>, AllocError>
    ensures { IfOk result (λ r. r ≡ spec.text_or_other headers (view value.now)) }
{
    match value.get("text") {
        Some(text) => {
            let reading = text_in(alloc, headers, text)?;
            under(alloc, "text", reading)
        }
        None => code_or_other(alloc, headers, value),
    }
}

fn code_or_other(
    alloc: Global,
    headers: Headers,
    value: &Value,
) -> Result<Reading<LoadAnswer>, AllocError>
    ensures { IfOk result (λ r. r ≡ spec.code_or_other headers (view value.now)) }
{
    match value.get("base64") {
        Some(code) => {
            let reading = code_in(alloc, headers, code)?;
            under(alloc, "base64", reading)
        }
        None => redirect_or_other(alloc, value),
    }
}

fn redirect_or_other(alloc: Global, value: &Value) -> Result<Reading<LoadAnswer>, AllocError>
    ensures { IfOk result (λ r. r ≡ spec.redirect_or_other (view value.now)) }
{
    match value.get("redirect") {
        Some(target) => {
            let reading = redirect_in(alloc, target)?;
            under(alloc, "redirect", reading)
        }
        None => external_or_fail(alloc, value),
    }
}

fn external_or_fail(alloc: Global, value: &Value) -> Result<Reading<LoadAnswer>, AllocError>
    ensures { IfOk result (λ r. r ≡ spec.external_or_fail (view value.now)) }
{
    match value.get("external") {
        Some(yes) => {
            let reading = answer_if(alloc, LoadAnswer::External, yes);
            under(alloc, "external", reading)
        }
        None => match value.get("fail") {
            Some(yes) => {
                let reading = answer_if(alloc, LoadAnswer::Failed, yes);
                under(alloc, "fail", reading)
            }
            None => Ok(Err(pointer(alloc, "fail", "")?)),
        },
    }
}

/// The answer of content that a text is.
fn text_in(
    alloc: Global,
    headers: Headers,
    value: &Value,
) -> Result<Reading<LoadAnswer>, AllocError>
    ensures { IfOk result (λ r. r ≡ spec.text_answer headers (view value.now)) }
{
    match value.as_str() {
        Some(text) => Ok(Ok(LoadAnswer::Content {
            headers,
            bytes: SharedBytes::from_slice(alloc, text.as_bytes())?,
        })),
        None => Ok(Err(Text::new(alloc))),
    }
}

/// The answer of content whose encoding a text is.
fn code_in(
    alloc: Global,
    headers: Headers,
    value: &Value,
) -> Result<Reading<LoadAnswer>, AllocError>
    ensures { IfOk result (λ r. r ≡ spec.code_answer headers (view value.now)) }
{
    match value.as_str() {
        Some(code) => decoded(alloc, headers, code),
        None => Ok(Err(Text::new(alloc))),
    }
}

fn decoded(alloc: Global, headers: Headers, code: &str) -> Result<Reading<LoadAnswer>, AllocError>
    ensures { IfOk result (λ r. r ≡ spec.decoded headers code.now) }
{
    match STANDARD.decode(alloc, code.as_bytes()) {
        Ok(bytes) => Ok(Ok(LoadAnswer::Content {
            headers,
            bytes: SharedBytes::from_vec(bytes)?,
        })),
        Err(DecodeAllocError::DecodeError(_)) => Ok(Err(Text::new(alloc))),
        Err(DecodeAllocError::OutOfMemory) => Err(AllocError),
    }
}

fn redirect_in(alloc: Global, value: &Value) -> Result<Reading<LoadAnswer>, AllocError>
    ensures { IfOk result (λ r. r ≡ spec.redirect_answer (view value.now)) }
{
    match Url::read(alloc, value)? {
        Ok(target) => Ok(Ok(LoadAnswer::Redirect(target))),
        Err(at) => Ok(Err(at)),
    }
}

/// The answer, if the value is `true`.
fn answer_if(alloc: Global, answer: LoadAnswer, value: &Value) -> Reading<LoadAnswer>
    ensures { result ≡ spec.answer_if answer (view value.now) }
{
    match value.as_bool() {
        Some(true) => Ok(answer),
        Some(false) | None => Err(Text::new(alloc)),
    }
}

// ---- headers

impl Part for Headers {
    ghost says = { spec.headers_of };

    fn read(alloc: Global, value: &Value) -> Result<Reading<Headers>, AllocError> {
        match value.as_object() {
            Some(members) => each_header(alloc, members),
            None => Ok(Err(Text::new(alloc))),
        }
    }
}

fn each_header(alloc: Global, members: &Map<String, Value>) -> Result<Reading<Headers>, AllocError>
    ensures { IfOk result (λ r. r ≡ spec.headers_onto [] (members_view members.now.entries)) }
{
    let mut headers = Headers::new(alloc);
    for (name, value) in members.iter() {
        match header_in(alloc, name.as_str(), value)? {
            Ok(text) => headers.insert(alloc, name.as_str(), text.into_string())?,
            Err(at) => return Ok(Err(at)),
        }
    }
    Ok(Ok(headers))
}

fn header_in(alloc: Global, name: &str, value: &Value) -> Result<Reading<Text>, AllocError>
    ensures { IfOk result (λ r. r ≡ spec.header_in name.now (view value.now)) }
{
    let part = escaped(alloc, name)?;
    let reading = Text::read(alloc, value)?;
    under(alloc, part.as_str(), reading)
}
