//! The bundle of a plan's files.
ghost use Rattle.std.specs.Prelude.{◌≡◌, nat_eq, codes, IfOk, OnOk, string_bytes, decimal};
ghost use Rattle.std.specs.List.{flat_map, ends_with};
ghost use Rattle.std.specs.Option.{option_copied};
ghost use Rattle.graph_entry.specs.Specifier.{text_of};
ghost use Rattle.graph_report.specs.Adds.{Adds};
ghost use Rattle.vendor_report.specs.Plans as spec;

use crate::wanted::Wanted;
use base64::engine::general_purpose::STANDARD;
use graph_entry::GraphKind;
use graph_report::add_quoted;
use graph_vendor::{VendorFile, VendorPlan};
use std::alloc::{AllocError, Global};
use url::Url;

/// The bundle of the plan's files, with these options, as compact JSON and a line end.
#[tactic(auto, unfolding(crate::specs::Plans::plan_text))]
pub fn plan_text(alloc: Global, wanted: Wanted, plan: &VendorPlan) -> Result<String, AllocError>
    ensures { IfOk result (λ text. string_bytes text ≡ spec.plan_text wanted plan.now) }
{
    let mut out = String::new(alloc);
    add_front(alloc, &mut out, wanted)?;
    add_modules(
        alloc,
        &mut out,
        plan.files.as_slice(),
        plan.externals.as_slice(),
    )?;
    out.push_str("],\"roots\":[")?;
    add_roots(alloc, &mut out, plan.roots.as_slice())?;
    add_back(&mut out, wanted)?;
    Ok(out)
}

#[tactic(auto, unfolding(crate::specs::Plans::front))]
fn add_front(alloc: Global, out: &mut String, wanted: Wanted) -> Result<(), AllocError>
    ensures { OnOk result (Adds out.old out.new (spec.front wanted)) }
{
    out.push_str("{\"kind\":\"")?;
    out.push_str(kind_name(wanted.kind))?;
    out.push_str("\",\"limit\":")?;
    add_number(alloc, out, wanted.limit)?;
    out.push_str(",\"modules\":[")
}

fn kind_name(kind: GraphKind) -> &'static str
    ensures { result.now ≡ spec.kind_word kind }
{
    match kind {
        GraphKind::All => "all",
        GraphKind::CodeOnly => "code",
        GraphKind::TypesOnly => "types",
    }
}

fn add_number(alloc: Global, out: &mut String, number: usize) -> Result<(), AllocError>
    ensures { OnOk result (Adds out.old out.new (decimal number)) }
{
    let digits = format!(in alloc; "{number}")?;
    out.push_str(digits.as_str())
}

#[tactic(auto, unfolding(crate::specs::Plans::back))]
fn add_back(out: &mut String, wanted: Wanted) -> Result<(), AllocError>
    ensures { OnOk result (Adds out.old out.new (spec.back wanted)) }
{
    add_back_front(out)?;
    out.push_str(truth_name(wanted.skip_dynamic_deps))?;
    add_last(out)
}

fn truth_name(truth: bool) -> &'static str
    ensures { result.now ≡ spec.truth_word truth }
{
    if truth { "true" } else { "false" }
}

// ---- the modules: the files, and then what isn't part of the sources

fn add_modules(
    alloc: Global,
    out: &mut String,
    files: &[VendorFile],
    externals: &[Url],
) -> Result<(), AllocError>
    ensures { OnOk result (Adds out.old out.new (spec.modules_json files.now externals.now)) }
{
    match files.split_first() {
        Some((first, rest)) => {
            add_file(alloc, out, first)?;
            add_files(alloc, out, rest)?;
            add_externals(alloc, out, externals)
        }
        None => add_only_externals(alloc, out, externals),
    }
}

fn add_files(alloc: Global, out: &mut String, files: &[VendorFile]) -> Result<(), AllocError>
    ensures { OnOk result (Adds out.old out.new (flat_map spec.later_file files.now)) }
{
    for file in files {
        add_later_file(alloc, out, file)?;
    }
    Ok(())
}

#[tactic(auto, unfolding(crate::specs::Plans::later_file))]
fn add_later_file(alloc: Global, out: &mut String, file: &VendorFile) -> Result<(), AllocError>
    ensures { OnOk result (Adds out.old out.new (spec.later_file file.now)) }
{
    out.push_str(",")?;
    add_file(alloc, out, file)
}

#[tactic(auto, unfolding(crate::specs::Plans::file_json))]
fn add_file(alloc: Global, out: &mut String, file: &VendorFile) -> Result<(), AllocError>
    ensures { OnOk result (Adds out.old out.new (spec.file_json file.now)) }
{
    add_by(alloc, out, file, plain_text(file))
}

/// Adds a file as this text, or in base64 where there is none.
fn add_by(
    alloc: Global,
    out: &mut String,
    file: &VendorFile,
    text: Option<&str>,
) -> Result<(), AllocError>
    ensures { OnOk result (Adds out.old out.new (spec.file_by file.now (option_copied text.entry))) }
{
    match text {
        Some(text) => add_text(alloc, out, &file.target, text),
        None => add_coded(alloc, out, file),
    }
}

/// The text that the file's bytes are written as, if they are.
fn plain_text(file: &VendorFile) -> Option<&str>
    ensures { option_copied result ≡ spec.plain_text file.now }
{
    if is_wasm(file) {
        return None;
    }
    match str::from_utf8(file.bytes.as_slice()) {
        Ok(text) => Some(text),
        Err(_) => None,
    }
}

#[tactic(auto, unfolding(graph_entry::specs::Specifier::text_of))]
fn is_wasm(file: &VendorFile) -> bool
    ensures { result ≡ ends_with nat_eq (text_of file.now.target) (codes ".wasm") }
{
    ends(file.target.as_str(), ".wasm")
}

fn ends(text: &str, back: &str) -> bool
    ensures { result ≡ ends_with nat_eq text.now back.now }
{
    text.ends_with(back)
}

#[tactic(auto, unfolding(crate::specs::Plans::text_json, graph_entry::specs::Specifier::text_of))]
fn add_text(alloc: Global, out: &mut String, target: &Url, text: &str) -> Result<(), AllocError>
    ensures { OnOk result (Adds out.old out.new (spec.text_json target.now text.now)) }
{
    add_text_front(out)?;
    add_quoted(alloc, out, target.as_str())?;
    add_text_key(out)?;
    add_quoted(alloc, out, text)?;
    add_end(out)
}

#[tactic(auto, unfolding(crate::specs::Plans::coded_json, graph_entry::specs::Specifier::text_of))]
fn add_coded(alloc: Global, out: &mut String, file: &VendorFile) -> Result<(), AllocError>
    ensures { OnOk result (Adds out.old out.new (spec.coded_json file.now)) }
{
    let code = STANDARD.encode(alloc, file.bytes.as_slice())?;
    add_coded_front(out)?;
    add_quoted(alloc, out, code.as_str())?;
    add_coded_key(out)?;
    add_quoted(alloc, out, file.target.as_str())?;
    add_end(out)
}

fn add_only_externals(alloc: Global, out: &mut String, urls: &[Url]) -> Result<(), AllocError>
    ensures { OnOk result (Adds out.old out.new (spec.externals_json urls.now)) }
{
    match urls.split_first() {
        Some((first, rest)) => {
            add_external(alloc, out, first)?;
            add_externals(alloc, out, rest)
        }
        None => Ok(()),
    }
}

fn add_externals(alloc: Global, out: &mut String, urls: &[Url]) -> Result<(), AllocError>
    ensures { OnOk result (Adds out.old out.new (flat_map spec.later_external urls.now)) }
{
    for url in urls {
        add_later_external(alloc, out, url)?;
    }
    Ok(())
}

#[tactic(auto, unfolding(crate::specs::Plans::later_external))]
fn add_later_external(alloc: Global, out: &mut String, url: &Url) -> Result<(), AllocError>
    ensures { OnOk result (Adds out.old out.new (spec.later_external url.now)) }
{
    out.push_str(",")?;
    add_external(alloc, out, url)
}

#[tactic(auto, unfolding(crate::specs::Plans::external_json, graph_entry::specs::Specifier::text_of))]
fn add_external(alloc: Global, out: &mut String, url: &Url) -> Result<(), AllocError>
    ensures { OnOk result (Adds out.old out.new (spec.external_json url.now)) }
{
    add_external_front(out)?;
    add_quoted(alloc, out, url.as_str())?;
    add_end(out)
}

// ---- the roots

fn add_roots(alloc: Global, out: &mut String, roots: &[Url]) -> Result<(), AllocError>
    ensures { OnOk result (Adds out.old out.new (spec.roots_json roots.now)) }
{
    match roots.split_first() {
        Some((first, rest)) => {
            add_root(alloc, out, first)?;
            add_later_roots(alloc, out, rest)
        }
        None => Ok(()),
    }
}

fn add_later_roots(alloc: Global, out: &mut String, roots: &[Url]) -> Result<(), AllocError>
    ensures { OnOk result (Adds out.old out.new (flat_map spec.later_root roots.now)) }
{
    for root in roots {
        add_later_root(alloc, out, root)?;
    }
    Ok(())
}

#[tactic(auto, unfolding(crate::specs::Plans::later_root))]
fn add_later_root(alloc: Global, out: &mut String, root: &Url) -> Result<(), AllocError>
    ensures { OnOk result (Adds out.old out.new (spec.later_root root.now)) }
{
    out.push_str(",")?;
    add_root(alloc, out, root)
}

#[tactic(auto, unfolding(crate::specs::Plans::url_json, graph_entry::specs::Specifier::text_of))]
fn add_root(alloc: Global, out: &mut String, root: &Url) -> Result<(), AllocError>
    ensures { OnOk result (Adds out.old out.new (spec.url_json root.now)) }
{
    add_quoted(alloc, out, root.as_str())
}

// ---- what is in between

#[tactic(auto, unfolding(crate::specs::Plans::text_front))]
fn add_text_front(out: &mut String) -> Result<(), AllocError>
    ensures { OnOk result (Adds out.old out.new spec.text_front) }
{
    out.push_str("{\"specifier\":")
}

#[tactic(auto, unfolding(crate::specs::Plans::text_key))]
fn add_text_key(out: &mut String) -> Result<(), AllocError>
    ensures { OnOk result (Adds out.old out.new spec.text_key) }
{
    out.push_str(",\"text\":")
}

#[tactic(auto, unfolding(crate::specs::Plans::coded_front))]
fn add_coded_front(out: &mut String) -> Result<(), AllocError>
    ensures { OnOk result (Adds out.old out.new spec.coded_front) }
{
    out.push_str("{\"base64\":")
}

#[tactic(auto, unfolding(crate::specs::Plans::coded_key))]
fn add_coded_key(out: &mut String) -> Result<(), AllocError>
    ensures { OnOk result (Adds out.old out.new spec.coded_key) }
{
    out.push_str(",\"specifier\":")
}

#[tactic(auto, unfolding(crate::specs::Plans::external_front))]
fn add_external_front(out: &mut String) -> Result<(), AllocError>
    ensures { OnOk result (Adds out.old out.new spec.external_front) }
{
    out.push_str("{\"external\":true,\"specifier\":")
}

#[tactic(auto, unfolding(crate::specs::Plans::end))]
fn add_end(out: &mut String) -> Result<(), AllocError>
    ensures { OnOk result (Adds out.old out.new spec.end) }
{
    out.push_str("}")
}

#[tactic(auto, unfolding(crate::specs::Plans::back_front))]
fn add_back_front(out: &mut String) -> Result<(), AllocError>
    ensures { OnOk result (Adds out.old out.new spec.back_front) }
{
    out.push_str("],\"skipDynamicDeps\":")
}

#[tactic(auto, unfolding(crate::specs::Plans::last))]
fn add_last(out: &mut String) -> Result<(), AllocError>
    ensures { OnOk result (Adds out.old out.new spec.last) }
{
    out.push_str("}\n")
}
