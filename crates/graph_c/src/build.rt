//! The report of a bundle's graph, in a buffer of the caller's.
ghost use Rattle.std.specs.Prelude.{◌≡◌, IfOk, string_bytes};
ghost use Rattle.graph_run.specs.Run.{IsDue};
ghost use Rattle.graph_c.specs.Build.{Builds};

use crate::room::put;
use graph_run::{Due, INPUT_LIMIT, Status, due_for, refusal};
use std::alloc::{AllocError, Global};

/// Writes what is due for the bundle, and answers the status of that, or why nothing was written.
pub fn build_report(alloc: Global, bundle: &[u8], room: &mut [u8], needed: &mut usize) -> u32
    ensures { Builds bundle.now room.old room.new needed.new result }
{
    let Ok(due) = due_of(alloc, bundle) else {
        *needed = 0;
        return u32::from(Status::NoMemory.code());
    };
    let text = due.text.as_bytes();
    *needed = text.len();
    if text.len() > room.len() {
        return u32::from(Status::WriteFault.code());
    }
    put(room, text);
    u32::from(due.status.code())
}

fn due_of(alloc: Global, bundle: &[u8]) -> Result<Due, AllocError>
    ensures { IfOk result (λ due. IsDue bundle.now due.status (string_bytes due.text)) }
{
    if bundle.len() > INPUT_LIMIT {
        return refusal(alloc, "error InputTooLong\n");
    }
    due_for(alloc, bundle)
}
