//! What is wrong with the texts of a graph's modules, as lines of text.
ghost use Rattle.std.specs.Prelude.{◌≡◌, IfOk, OnOk, string_bytes};
ghost use Rattle.std.specs.Option.{option_copied};
ghost use Rattle.graph_report.specs.Adds.{Adds};
ghost use Rattle.joravelsu_run.specs.Faults.{IsFaultsText, IsFaultText, fault_line};
ghost use Rattle.joravelsu_run.specs.Faults as spec;
ghost use Rattle.joravelsu_run.specs.Steps.{AddsOne};

use deno_graph::ModuleGraph;
use graph_entry::{Entry, ModuleError};
use graph_report::add_number;
use parse_diagnostic::{KeptDiagnostic, ParseDiagnostic};
use std::alloc::{AllocError, Global};
use url::Url;

/// A line for each module whose text is no program, in the report's order. Each line ends by a line feed.
pub fn fault_lines(alloc: Global, graph: &ModuleGraph) -> Result<String, AllocError>
    ensures { IfOk result (λ text. IsFaultsText graph.now.entries (string_bytes text)) }
{
    let mut out = String::new(alloc);
    add_faults(&mut out, graph)?;
    Ok(out)
}

fn add_faults(out: &mut String, graph: &ModuleGraph) -> Result<(), AllocError>
    ensures { OnOk result (AddsOne (IsFaultsText graph.now.entries) out.old out.new) }
{
    for (specifier, entry) in graph.entries()? {
        add_fault(out, specifier, fault_of(entry))?;
    }
    Ok(())
}

fn fault_of(entry: &Entry) -> Option<&KeptDiagnostic>
    ensures { option_copied result ≡ spec.fault_of entry.now }
{
    match entry {
        Entry::Error(ModuleError::Parse(kept)) => Some(kept),
        _ => None,
    }
}

fn add_fault(
    out: &mut String,
    specifier: &Url,
    fault: Option<&KeptDiagnostic>,
) -> Result<(), AllocError>
    ensures { OnOk result (AddsOne (IsFaultText specifier.now (option_copied fault.entry)) out.old out.new) }
{
    match fault {
        Some(kept) => add_line(out, specifier, kept.diagnostic()),
        None => Ok(()),
    }
}

#[tactic(auto, unfolding(crate::specs::Faults::fault_line, graph_entry::specs::Specifier::text_of))]
fn add_line(out: &mut String, specifier: &Url, fault: &ParseDiagnostic) -> Result<(), AllocError>
    ensures { OnOk result (Adds out.old out.new (fault_line specifier.now fault.now.kind fault.now.range.start)) }
{
    out.push_str("fault ")?;
    out.push_str(specifier.as_str())?;
    out.push_str(" ")?;
    out.push_str(fault.kind().name())?;
    out.push_str(" ")?;
    add_number(out, fault.range().start)?;
    out.push_str("\n")
}
