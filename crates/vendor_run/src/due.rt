//! What is due for an input whose modules become files of a folder.
ghost use Rattle.std.specs.Prelude.{◌≡◌, ◌≤◌, IfOk, length, string_bytes};
ghost use Rattle.counted_io.specs.Transfer.{input_limit};
ghost use Rattle.graph_run.specs.Run.{too_many_line};
ghost use Rattle.graph_run.specs.Steps.{IsEnd};
ghost use Rattle.vendor_report.specs.Plans as plans;
ghost use Rattle.vendor_run.specs.Due as spec;

use crate::readable::{first_unread, unread_line};
use deno_graph::{BuildError, ModuleGraph, ParserModuleAnalyzer};
use graph_bundle::Bundle;
use graph_run::{Due, Status, build_batched, due_for_fault, read_once};
use graph_vendor::{VendorError, VendorPlan, plan_vendor};
use std::alloc::{AllocError, Global};
use std::thread::Threads;
use url::Url;
use vendor_report::{Wanted, plan_text, refused_line, wanted_of};

/// So many answers a batch takes.
const BATCH: usize = 64;

/// The bundle of the plan's files, with the options of the bundle whose graph was planned, as compact JSON and a line end.
pub fn vendor_text(alloc: Global, bundle: &Bundle, plan: &VendorPlan) -> Result<String, AllocError>
    ensures { IfOk result (λ text. string_bytes text ≡ plans.plan_text (plans.wanted_of bundle.now.options) plan.now) }
{
    plan_text(alloc, wanted_of(&bundle.options), plan)
}

/// What is due for an input that is not too long. The input is given back once it is read, before the graph is made.
pub fn due_vendored<R: Threads + Sync>(
    rt: &R,
    alloc: Global,
    bytes: Vec<u8>,
    base: &Url,
) -> Result<Due, AllocError>
    requires { length bytes.items ≤ input_limit }
    ensures { IfOk result (λ due. spec.IsDue base.now bytes.items due.status (string_bytes due.text)) }
{
    match read_once(alloc, bytes) {
        Ok(bundle) => {
            let wanted = wanted_of(&bundle.options);
            let end = build_batched(rt, alloc, bundle, BATCH);
            due_for_end(alloc, end, wanted, base)
        }
        Err(fault) => due_for_fault(alloc, fault),
    }
}

/// What is due where the builder of a bundle with these options has ended.
fn due_for_end(
    alloc: Global,
    end: Result<ModuleGraph, BuildError>,
    wanted: Wanted,
    base: &Url,
) -> Result<Due, AllocError>
    requires { IsEnd end }
    ensures { IfOk result (λ due. spec.OfEnd base.now wanted end due.status (string_bytes due.text)) }
{
    match end {
        Ok(graph) => vendored(alloc, &graph, wanted, base),
        Err(BuildError::TooManyModules { seen }) => too_large(alloc, seen),
        Err(BuildError::OutOfMemory) => Err(AllocError),
        Err(BuildError::NotYet) => unreachable!(),
        Err(BuildError::UnaskedAnswer(_)) => unreachable!(),
        Err(BuildError::Finished) => unreachable!(),
    }
}

fn too_large(alloc: Global, seen: usize) -> Result<Due, AllocError>
    ensures { IfOk result (λ due. (due.status ≡ Status.BuildRefused) × (string_bytes due.text ≡ too_many_line seen)) }
{
    Ok(Due {
        status: Status::BuildRefused,
        text: format!(in alloc; "error TooManyModules {seen}\n")?,
    })
}

/// The bundle of the files of a graph's plan, or why there is no plan.
fn vendored(
    alloc: Global,
    graph: &ModuleGraph,
    wanted: Wanted,
    base: &Url,
) -> Result<Due, AllocError>
    ensures { IfOk result (λ due. spec.IsVendored base.now wanted graph.now due.status (string_bytes due.text)) }
{
    match plan_vendor(alloc, &ParserModuleAnalyzer, graph, base) {
        Ok(plan) => planned(alloc, wanted, &plan),
        Err(VendorError::Refused(cause, specifier)) => Ok(Due {
            status: Status::BuildRefused,
            text: refused_line(alloc, cause, &specifier)?,
        }),
        Err(VendorError::OutOfMemory) => Err(AllocError),
    }
}

/// The bundle of a plan's files, or the first of its specifiers that isn't what its own text is read as.
fn planned(alloc: Global, wanted: Wanted, plan: &VendorPlan) -> Result<Due, AllocError>
    ensures { IfOk result (λ due. spec.OfPlan wanted plan.now due.status (string_bytes due.text)) }
{
    match first_unread(plan) {
        Some(name) => Ok(Due {
            status: Status::BuildRefused,
            text: unread_line(alloc, name)?,
        }),
        None => Ok(Due {
            status: Status::Done,
            text: plan_text(alloc, wanted, plan)?,
        }),
    }
}
