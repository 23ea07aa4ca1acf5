//! A run, over a source and a sink.
ghost use Rattle.std.specs.Prelude.{◌≡◌, ◌+◌, IfSome, IfOk, IfErr, MatchResult, string_bytes};
ghost use Rattle.std.specs.Io.KnownBytes.{IsAtEnd};
ghost use Rattle.counted_io.specs.Transfer.{input_limit, ReadAtMost};
ghost use Rattle.graph_run.specs.Run.{ReadsCounted, WritesCounted, IsRefused, IsLargeInput, IsSmallInput};
ghost use Rattle.graph_run.specs.Steps.{IsVerdict, IsStop, IsWritten};
ghost use Rattle.vendor_run.specs.Due.{IsDueFor};
ghost use Rattle.vendor_run.specs.Run.{Wrote, Comes, IsOutcome};

use crate::due::due_vendored;
use graph_run::{Due, ReadError, Sink, Source, Status, read_all, refusal, write_all};
use std::alloc::Global;
use std::thread::Threads;
use url::Url;

/// Reads a bundle from the source and writes that of its modules as files of the folder `base`, or the line of a refusal.
/// The analyses of a batch of modules run in threads.
pub fn run_vendor<R: Threads + Sync, S: Source, K: Sink>(
    rt: &R,
    alloc: Global,
    base: &Url,
    source: &mut S,
    sink: &mut K,
) -> Status
    // What was written; with `Done` it is the bundle of the files, whole and nothing else.
    ensures written { Wrote base.now (S.left source.old) (K.taken sink.old) (K.taken sink.new) result }
    ensures ended { result ≡ Status.Done → IsAtEnd (S.left source.new) }
    ensures reads { ReadsCounted (S.faults source.old) (S.faults source.new) result }
    ensures writes { WritesCounted (K.faults sink.old) (K.faults sink.new) result }
    // Why there is none, and when there is one or no plan.
    ensures refused { IfSome (S.left source.old) (λ input. IsRefused input → Comes (λ s. s ≡ Status.BadInput)
        (S.faults source.old) (S.faults source.new) (K.faults sink.old) (K.faults sink.new) result) }
    ensures large { IfSome (S.left source.old) (λ input. IsLargeInput input → Comes (λ s. s ≡ Status.BuildRefused)
        (S.faults source.old) (S.faults source.new) (K.faults sink.old) (K.faults sink.new) result) }
    ensures complete { IfSome (S.left source.old) (λ input. IsSmallInput input → Comes IsOutcome
        (S.faults source.old) (S.faults source.new) (K.faults sink.old) (K.faults sink.new) result) }
    // Reading stops at the first byte too many.
    ensures stops { ReadAtMost (input_limit + 1) (S.left source.old) (S.left source.new) }
{
    match read_due(rt, alloc, source, base) {
        Ok(due) => finish(sink, due.status, due.text.as_str()),
        Err(status) => status,
    }
}

/// Reads the source, and finds what is due for its bytes.
fn read_due<R: Threads + Sync, S: Source>(
    rt: &R,
    alloc: Global,
    source: &mut S,
    base: &Url,
) -> Result<Due, Status>
    ensures due { IfOk result (λ due. IsDueFor base.now (S.left source.old) due.status (string_bytes due.text)) }
    ensures verdict { IfOk result (λ due. IsVerdict due.status) }
    ensures ended { IfOk result (λ due. due.status ≡ Status.Done → IsAtEnd (S.left source.new)) }
    ensures stopped { IfErr result IsStop }
    ensures stops { ReadAtMost (input_limit + 1) (S.left source.old) (S.left source.new) }
    ensures count { MatchResult result (λ _. S.faults source.new ≡ S.faults source.old)
        (ReadsCounted (S.faults source.old) (S.faults source.new)) }
{
    match read_all(alloc, source) {
        Ok(bytes) => due_vendored(rt, alloc, bytes, base).map_err(|_| Status::NoMemory),
        Err(ReadError::TooLong) => {
            refusal(alloc, "error InputTooLong\n").map_err(|_| Status::NoMemory)
        }
        Err(ReadError::Fault) => Err(Status::ReadFault),
        Err(ReadError::OutOfMemory) => Err(Status::NoMemory),
    }
}

/// Writes the text, and answers the status, or `WriteFault` where a write failed.
fn finish<K: Sink>(sink: &mut K, status: Status, text: &str) -> Status
    ensures { IsWritten status text.now (K.taken sink.old) (K.taken sink.new)
        (K.faults sink.old) (K.faults sink.new) result }
{
    match write_all(sink, text.as_bytes()) {
        Ok(()) => status,
        Err(_) => Status::WriteFault,
    }
}
