//! The declarations of a graph's modules, as lines of text.
ghost use Rattle.std.specs.Prelude.{◌≡◌, IfOk, OnOk, string_bytes};
ghost use Rattle.std.specs.List.{flat_map};
ghost use Rattle.graph_report.specs.Adds.{Adds};
ghost use Rattle.joravelsu_run.specs.Declarations.{IsDeclarationsText, IsDeclaredText, IsEntryText, IsModuleText, declared_lines, found_line, kind_word, text_line, undeclared_line};
ghost use Rattle.joravelsu_run.specs.Steps.{AddsOne};

use deno_graph::ModuleGraph;
use graph_entry::{Entry, JsModule, Module};
use graph_report::{add_number, add_quoted};
use source_declarations::{Found, FoundKind, SourceDeclarations, text_declarations};
use std::alloc::{AllocError, Global};
use url::Url;

/// For each module of JavaScript or TypeScript a line with its declarations, and a line for each type that couldn't be determined,
/// in the report's order. Each line ends by a line feed.
pub fn declaration_lines(alloc: Global, graph: &ModuleGraph) -> Result<String, AllocError>
    ensures { IfOk result (λ text. IsDeclarationsText graph.now.entries (string_bytes text)) }
{
    let mut out = String::new(alloc);
    add_declarations(alloc, &mut out, graph)?;
    Ok(out)
}

fn add_declarations(alloc: Global, out: &mut String, graph: &ModuleGraph) -> Result<(), AllocError>
    ensures { OnOk result (AddsOne (IsDeclarationsText graph.now.entries) out.old out.new) }
{
    for (specifier, entry) in graph.entries()? {
        add_entry(alloc, out, specifier, entry)?;
    }
    Ok(())
}

fn add_entry(
    alloc: Global,
    out: &mut String,
    specifier: &Url,
    entry: &Entry,
) -> Result<(), AllocError>
    ensures { OnOk result (AddsOne (IsEntryText specifier.now entry.now) out.old out.new) }
{
    match entry {
        Entry::Module(it) => add_module(alloc, out, specifier, it),
        _ => Ok(()),
    }
}

fn add_module(
    alloc: Global,
    out: &mut String,
    specifier: &Url,
    it: &Module,
) -> Result<(), AllocError>
    ensures { OnOk result (AddsOne (IsModuleText specifier.now it.now) out.old out.new) }
{
    match it {
        Module::Js(source) => add_source(alloc, out, specifier, source),
        _ => Ok(()),
    }
}

fn add_source(
    alloc: Global,
    out: &mut String,
    specifier: &Url,
    source: &JsModule,
) -> Result<(), AllocError>
    ensures { OnOk result (AddsOne (IsDeclaredText specifier.now source.now) out.old out.new) }
{
    match text_declarations(alloc, source.media_type, &source.text, true)? {
        Some(it) => add_declared(alloc, out, specifier, &it),
        None => add_undeclared(out, specifier),
    }
}

#[tactic(auto, unfolding(crate::specs::Declarations::undeclared_line, graph_entry::specs::Specifier::text_of))]
fn add_undeclared(out: &mut String, specifier: &Url) -> Result<(), AllocError>
    ensures { OnOk result (Adds out.old out.new (undeclared_line specifier.now)) }
{
    out.push_str("declarations ")?;
    out.push_str(specifier.as_str())?;
    out.push_str(" -")?;
    out.push_str("\n")
}

#[tactic(auto, unfolding(crate::specs::Declarations::declared_lines))]
fn add_declared(
    alloc: Global,
    out: &mut String,
    specifier: &Url,
    it: &SourceDeclarations,
) -> Result<(), AllocError>
    ensures { OnOk result (Adds out.old out.new (declared_lines specifier.now it.now)) }
{
    add_text(alloc, out, specifier, it.text.as_str())?;
    add_all_found(out, it.found.as_slice())
}

#[tactic(auto, unfolding(crate::specs::Declarations::text_line, graph_entry::specs::Specifier::text_of))]
fn add_text(alloc: Global, out: &mut String, specifier: &Url, text: &str) -> Result<(), AllocError>
    ensures { OnOk result (Adds out.old out.new (text_line specifier.now text.now)) }
{
    out.push_str("declarations ")?;
    out.push_str(specifier.as_str())?;
    out.push_str(" ")?;
    add_quoted(alloc, out, text)?;
    out.push_str("\n")
}

fn add_all_found(out: &mut String, found: &[Found]) -> Result<(), AllocError>
    ensures { OnOk result (Adds out.old out.new (flat_map found_line found.now)) }
{
    for it in found {
        add_found(out, it)?;
    }
    Ok(())
}

#[tactic(auto, unfolding(crate::specs::Declarations::found_line))]
fn add_found(out: &mut String, it: &Found) -> Result<(), AllocError>
    ensures { OnOk result (Adds out.old out.new (found_line it.now)) }
{
    out.push_str("  ")?;
    out.push_str(kind_word(it.kind))?;
    out.push_str(" ")?;
    add_number(out, it.range.start)?;
    out.push_str("-")?;
    add_number(out, it.range.end)?;
    out.push_str("\n")
}

fn kind_word(kind: FoundKind) -> &'static str
    ensures { result.now ≡ kind_word kind }
{
    match kind {
        FoundKind::UnableToInferType => "UnableToInferType",
        FoundKind::UnableToInferTypeFallbackAny => "UnableToInferTypeFallbackAny",
        FoundKind::UnableToInferTypeFromProp => "UnableToInferTypeFromProp",
        FoundKind::UnableToInferTypeFromSpread => "UnableToInferTypeFromSpread",
        FoundKind::UnsupportedUsing => "UnsupportedUsing",
    }
}
