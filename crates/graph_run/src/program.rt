//! All that the program does, over a source and a sink.
ghost use Rattle.std.specs.Prelude.{◌≡◌, ◌+◌, ◌≤◌, ◌⊎◌, ◌↔◌, ℕ, true, false, map, IfSome, IfOk, IfErr, string_bytes, MatchResult};
ghost use Rattle.std.specs.Io.KnownBytes.{IsAtEnd};
ghost use Rattle.graph_run.specs.words.Words.{IsForm, IsReading, IsNoForm, IsWithin};
ghost use Rattle.graph_run.specs.declared.words.words.Form.TheVariants.{Build, Order, Make, Sum};
ghost use Rattle.made_bundle.specs.Made.{made_text};
ghost use Rattle.graph_run.specs.Run.{Wrote, ReadsCounted, WritesCounted, IsRefused, IsLargeInput, IsSmallInput, Always, IsDueOf, IsDueForm};
ghost use Rattle.graph_run.specs.Telling.{told_by};
ghost use Rattle.graph_run.specs.declared.verdict.Telling.TheVariants as telling;
ghost use Rattle.counted_io.specs.Transfer.{input_limit, ReadAtMost};
ghost use Rattle.graph_run.specs.Steps.{reads, IsVerdict, IsStop, IsWritten};

use crate::batches::due_batched;
use crate::status::Status;
use crate::verdict::{Due, Telling, refusal};
use crate::words::{BATCH, Form, form_of};
use counted_io::{INPUT_LIMIT, ReadError, Sink, Source, read_all, write_all};
use made_bundle::make_bundle;
use std::alloc::Global;
use std::thread::Threads;

/// Runs the program with the arguments after its name. With `build` it reads a bundle from the source
/// and writes the report of its graph, or the line of a refusal; with `order` the order of its modules, or a cycle of them.
/// With `make N` it writes the bundle of N modules, with `sum N` the counts of its graph. Other arguments get the usage line.
/// Modules are taken in batches of 64, or of as many as `build --batch N` says, and the analyses of a batch run in threads;
/// what is written is the same whatever the number.
pub fn run<R: Threads + Sync, S: Source, K: Sink>(
    rt: &R,
    alloc: Global,
    words: &[String],
    source: &mut S,
    sink: &mut K,
) -> Status
    // What was written; with `Done` it is the text that is due for the words and the input, whole and nothing else.
    ensures written { Wrote (map string_bytes words.now) (S.left source.old) (K.taken sink.old) (K.taken sink.new) result }
    ensures ended { IsReading (map string_bytes words.now) → result ≡ Status.Done → IsAtEnd (S.left source.new) }
    // Why there is no report.
    ensures usage { (result ≡ Status.Usage) ↔
        (IsNoForm (map string_bytes words.now) × (K.faults sink.new ≡ K.faults sink.old)) }
    ensures unread { ¬ IsReading (map string_bytes words.now) → source.new ≡ source.old }
    ensures reads { ReadsCounted (S.faults source.old) (S.faults source.new) result }
    ensures writes { WritesCounted (K.faults sink.old) (K.faults sink.new) result }
    ensures refused { IfSome (S.left source.old) (λ input. IsRefused input → Always (IsReading (map string_bytes words.now))
        (S.faults source.old) (S.faults source.new) (K.faults sink.old) (K.faults sink.new) result Status.BadInput) }
    ensures large { IfSome (S.left source.old) (λ input. IsLargeInput input → Always (IsReading (map string_bytes words.now))
        (S.faults source.old) (S.faults source.new) (K.faults sink.old) (K.faults sink.new) result Status.BuildRefused) }
    // And when there is one.
    ensures complete { IfSome (S.left source.old) (λ input. IsSmallInput input → Always (IsReading (map string_bytes words.now))
        (S.faults source.old) (S.faults source.new) (K.faults sink.old) (K.faults sink.new) result Status.Done) }
    ensures made { (n : ℕ) → Always (IsForm (Make n) (map string_bytes words.now))
        (S.faults source.old) (S.faults source.new) (K.faults sink.old) (K.faults sink.new) result Status.Done }
    ensures summed { (n : ℕ) → Always (IsForm (Sum n) (map string_bytes words.now))
        (S.faults source.old) (S.faults source.new) (K.faults sink.old) (K.faults sink.new) result Status.Done }
    // Reading stops at the first byte too many.
    ensures stops { ReadAtMost (input_limit + 1) (S.left source.old) (S.left source.new) }
{
    let Some(form) = form_of(words) else {
        return finish(
            sink,
            Status::Usage,
            "usage: graph_tool build [--batch N] | make N | sum N | vendor BASE | order\n",
        );
    };
    match find_due(rt, alloc, form, source) {
        Ok(due) => finish(sink, due.status, due.text.as_str()),
        Err(status) => status,
    }
}

/// Finds what is due for a form.
fn find_due<R: Threads + Sync, S: Source>(
    rt: &R,
    alloc: Global,
    form: Form,
    source: &mut S,
) -> Result<Due, Status>
    requires { IsWithin form }
    ensures due { IfOk result (λ due. IsDueForm form (S.left source.old) due.status (string_bytes due.text)) }
    ensures verdict { IfOk result (λ due. IsVerdict due.status) }
    ensures ended { reads form ≡ true → IfOk result (λ due. due.status ≡ Status.Done → IsAtEnd (S.left source.new)) }
    ensures unread { reads form ≡ false → source.new ≡ source.old }
    ensures stopped { IfErr result IsStop }
    ensures stops { ReadAtMost (input_limit + 1) (S.left source.old) (S.left source.new) }
    ensures count { MatchResult result (λ _. S.faults source.new ≡ S.faults source.old)
        (ReadsCounted (S.faults source.old) (S.faults source.new)) }
{
    match form {
        Form::Build { batch } => read_due(rt, alloc, source, Telling::Report, batch),
        Form::Order => read_due(rt, alloc, source, Telling::Order, BATCH),
        Form::Make(count) => made_due(alloc, count),
        Form::Sum(count) => summed_due(rt, alloc, count),
    }
}

/// The bundle of so many modules.
fn made_due(alloc: Global, count: u32) -> Result<Due, Status>
    requires { count ≤ 100000 }
    ensures due { IfOk result (λ due. (due.status ≡ Status.Done) × (string_bytes due.text ≡ made_text count)) }
    ensures stopped { IfErr result (λ status. status ≡ Status.NoMemory) }
{
    match make_bundle(alloc, count) {
        Ok(text) => Ok(Due {
            status: Status::Done,
            text,
        }),
        Err(_) => Err(Status::NoMemory),
    }
}

/// The counts of that bundle's graph.
fn summed_due<R: Threads + Sync>(rt: &R, alloc: Global, count: u32) -> Result<Due, Status>
    requires { count ≤ 100000 }
    ensures due { IfOk result (λ due. IsDueOf (told_by telling.Counts) (made_text count) due.status (string_bytes due.text)) }
    ensures verdict { IfOk result (λ due. IsVerdict due.status) }
    ensures stopped { IfErr result (λ status. status ≡ Status.NoMemory) }
{
    let Ok(text) = make_bundle(alloc, count) else {
        return Err(Status::NoMemory);
    };
    let bytes = text.into_bytes();
    if bytes.len() > INPUT_LIMIT {
        return refusal(alloc, "error InputTooLong\n").map_err(|_| Status::NoMemory);
    }
    due_batched(rt, alloc, bytes, Telling::Counts, BATCH).map_err(|_| Status::NoMemory)
}

/// Reads the source, and finds what is due for its bytes.
fn read_due<R: Threads + Sync, S: Source>(
    rt: &R,
    alloc: Global,
    source: &mut S,
    telling: Telling,
    batch: u32,
) -> Result<Due, Status>
    requires { 1 ≤ batch }
    ensures due { IfOk result (λ due. IfSome (S.left source.old)
        (λ input. IsDueOf (told_by telling) input due.status (string_bytes due.text))) }
    ensures verdict { IfOk result (λ due. IsVerdict due.status) }
    ensures ended { IfOk result (λ due. due.status ≡ Status.Done → IsAtEnd (S.left source.new)) }
    ensures stopped { IfErr result IsStop }
    ensures stops { ReadAtMost (input_limit + 1) (S.left source.old) (S.left source.new) }
    ensures count { MatchResult result (λ _. S.faults source.new ≡ S.faults source.old)
        (ReadsCounted (S.faults source.old) (S.faults source.new)) }
{
    match read_all(alloc, source) {
        Ok(bytes) => { due_batched(rt, alloc, bytes, telling, batch).map_err(|_| Status::NoMemory) }
        Err(ReadError::TooLong) => {
            refusal(alloc, "error InputTooLong\n").map_err(|_| Status::NoMemory)
        }
        Err(ReadError::Fault) => Err(Status::ReadFault),
        Err(ReadError::OutOfMemory) => Err(Status::NoMemory),
    }
}

/// Writes the text, and answers the status, or `WriteFault` where a write failed.
fn finish<K: Sink>(sink: &mut K, status: Status, text: &str) -> Status
    ensures { IsWritten status text.now (K.taken sink.old) (K.taken sink.new)
        (K.faults sink.old) (K.faults sink.new) result }
{
    match write_all(sink, text.as_bytes()) {
        Ok(()) => status,
        Err(_) => Status::WriteFault,
    }
}
