//! What is due for an input.
ghost use Rattle.std.specs.Prelude.{◌≡◌, ◌≤◌, IfOk, length, string_bytes};
ghost use Rattle.counted_io.specs.Transfer.{input_limit};
ghost use Rattle.graph_run.specs.Run.{too_many_line};
ghost use Rattle.graph_run.specs.Steps.{IsEnd, IsVerdict};
ghost use Rattle.joravelsu_run.specs.Due.{IsDue, Tells};
ghost use Rattle.joravelsu_run.specs.Steps.{OfEnd};

use crate::asked::{Asked, Telling, take_asked};
use crate::declarations::declaration_lines;
use crate::faults::fault_lines;
use crate::groups::group_lines;
use crate::verdicts::verdict_due;
use crate::ways::{gone_lines, why_lines};
use crate::words::Form;
use deno_graph::{BuildError, ModuleGraph};
use forms_build::build_forms;
use graph_report::{order_lines, report};
use graph_run::{Due, Status, due_for_fault};
use std::alloc::{AllocError, Global};
use std::thread::Threads;

/// So many answers a batch takes.
const BATCH: usize = 64;

/// What is due for an input that is not too long. The input is given back once it is read, before the graph is made.
pub fn due_for<R: Threads + Sync>(
    rt: &R,
    alloc: Global,
    bytes: Vec<u8>,
    form: Form,
) -> Result<Due, AllocError>
    requires { length bytes.items ≤ input_limit }
    ensures due { IfOk result (λ due. IsDue form bytes.items due.status (string_bytes due.text)) }
    ensures verdict { IfOk result (λ due. IsVerdict due.status) }
{
    match take_asked(alloc, bytes, form) {
        Ok(asked) => {
            let Asked { forms, telling } = asked;
            due_for_end(alloc, build_forms(rt, alloc, forms, BATCH), &telling)
        }
        Err(fault) => due_for_fault(alloc, fault),
    }
}

/// What is due where the builder has ended.
fn due_for_end(
    alloc: Global,
    end: Result<ModuleGraph, BuildError>,
    telling: &Telling,
) -> Result<Due, AllocError>
    requires { IsEnd end }
    ensures due { IfOk result (λ due. OfEnd telling.now end due.status (string_bytes due.text)) }
    ensures verdict { IfOk result (λ due. IsVerdict due.status) }
{
    match end {
        Ok(graph) => told(alloc, &graph, telling),
        Err(BuildError::TooManyModules { seen }) => too_large(alloc, seen),
        Err(BuildError::OutOfMemory) => Err(AllocError),
        Err(BuildError::NotYet) => unreachable!(),
        Err(BuildError::UnaskedAnswer(_)) => unreachable!(),
        Err(BuildError::Finished) => unreachable!(),
    }
}

fn told(alloc: Global, graph: &ModuleGraph, telling: &Telling) -> Result<Due, AllocError>
    ensures due { IfOk result (λ due. Tells telling.now graph.now due.status (string_bytes due.text)) }
    ensures verdict { IfOk result (λ due. IsVerdict due.status) }
{
    match telling {
        Telling::Report => Ok(done(report(alloc, graph)?)),
        Telling::Order => Ok(done(order_lines(alloc, graph)?)),
        Telling::Groups => Ok(done(group_lines(alloc, graph)?)),
        Telling::Faults => Ok(done(fault_lines(alloc, graph)?)),
        Telling::Way(following, to) => Ok(done(why_lines(alloc, graph, *following, to)?)),
        Telling::Gone(following, without) => {
            Ok(done(gone_lines(alloc, graph, *following, without)?))
        }
        Telling::Verdict(policy) => verdict_due(alloc, policy, graph),
        Telling::Declarations => Ok(done(declaration_lines(alloc, graph)?)),
    }
}

fn done(text: String) -> Due
    ensures status { result.status ≡ Status.Done }
    ensures text { result.text ≡ text }
{
    Due {
        status: Status::Done,
        text,
    }
}

fn too_large(alloc: Global, seen: usize) -> Result<Due, AllocError>
    ensures { IfOk result (λ due. (due.status ≡ Status.BuildRefused) × (string_bytes due.text ≡ too_many_line seen)) }
{
    Ok(Due {
        status: Status::BuildRefused,
        text: format!(in alloc; "error TooManyModules {seen}\n")?,
    })
}
