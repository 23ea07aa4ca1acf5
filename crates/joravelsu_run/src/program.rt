//! A run, over a source and a sink.
ghost use Rattle.std.specs.Prelude.{◌≡◌, ◌+◌, ◌↔◌, map, IfSome, IfOk, IfErr, MatchResult, string_bytes};
ghost use Rattle.std.specs.Io.KnownBytes.{IsAtEnd};
ghost use Rattle.counted_io.specs.Transfer.{input_limit, ReadAtMost};
ghost use Rattle.graph_run.specs.Run.{ReadsCounted, WritesCounted};
ghost use Rattle.graph_run.specs.Steps.{IsVerdict, IsStop, IsWritten};
ghost use Rattle.joravelsu_run.specs.Words.{IsForm, IsNoForm, IsReading};
ghost use Rattle.joravelsu_run.specs.Due.{IsDueForm, IsRefused, IsLargeInput, IsSmallInput, Ends};
ghost use Rattle.joravelsu_run.specs.Run.{Wrote, Comes};
ghost use Rattle.joravelsu_run.specs.Steps.{WroteForm};

use crate::due::due_for;
use crate::words::{Form, form_of};
use graph_run::{Due, ReadError, Sink, Source, Status, read_all, refusal, write_all};
use std::alloc::Global;
use std::thread::Threads;

/// Runs the program with the arguments after its name. With `build` it reads a bundle with choices from the source and writes
/// the report of its graph, or the line of a refusal; with `order` the order of its modules, or a cycle of them; with `groups`
/// their groups; with `why` a shortest way to the bundle's specifier; with `gone` what is gone without its entry or edge; with
/// `policy` the first thing that breaks one of its rules; with `declarations` those of its modules. Other arguments get the
/// usage line. The analyses of a batch of modules run in threads.
pub fn run<R: Threads + Sync, S: Source, K: Sink>(
    rt: &R,
    alloc: Global,
    words: &[String],
    source: &mut S,
    sink: &mut K,
) -> Status
    // What was written; with `Done` it is the text that is due for the words and the input, whole and nothing else.
    ensures written { Wrote (map string_bytes words.now) (S.left source.old) (K.taken sink.old) (K.taken sink.new) result }
    ensures ended { IsReading (map string_bytes words.now) → result ≡ Status.Done → IsAtEnd (S.left source.new) }
    // Why there is no report.
    ensures usage { (result ≡ Status.Usage) ↔
        (IsNoForm (map string_bytes words.now) × (K.faults sink.new ≡ K.faults sink.old)) }
    ensures unread { IsNoForm (map string_bytes words.now) → source.new ≡ source.old }
    ensures reads { ReadsCounted (S.faults source.old) (S.faults source.new) result }
    ensures writes { WritesCounted (K.faults sink.old) (K.faults sink.new) result }
    ensures refused { (form : Form) → IsForm form (map string_bytes words.now) → IfSome (S.left source.old) (λ input.
        IsRefused form input → Comes (S.faults source.old) (S.faults source.new) (K.faults sink.old) (K.faults sink.new)
        result (λ status. status ≡ Status.BadInput)) }
    ensures large { (form : Form) → IsForm form (map string_bytes words.now) → IfSome (S.left source.old) (λ input.
        IsLargeInput form input → Comes (S.faults source.old) (S.faults source.new) (K.faults sink.old) (K.faults sink.new)
        result (λ status. status ≡ Status.BuildRefused)) }
    // And when there is one.
    ensures complete { (form : Form) → IsForm form (map string_bytes words.now) → IfSome (S.left source.old) (λ input.
        IsSmallInput form input → Comes (S.faults source.old) (S.faults source.new) (K.faults sink.old) (K.faults sink.new)
        result (Ends form)) }
    // Reading stops at the first byte too many.
    ensures stops { ReadAtMost (input_limit + 1) (S.left source.old) (S.left source.new) }
{
    match form_of(words) {
        Some(form) => run_form(rt, alloc, form, source, sink),
        None => finish(
            sink,
            Status::Usage,
            "usage: joravelsu_tool build | order | groups | faults | why | gone | policy | declarations\n",
        ),
    }
}

/// Reads an input, and writes what a form has of it.
fn run_form<R: Threads + Sync, S: Source, K: Sink>(
    rt: &R,
    alloc: Global,
    form: Form,
    source: &mut S,
    sink: &mut K,
) -> Status
    ensures written { WroteForm form (S.left source.old) (K.taken sink.old) (K.taken sink.new) result }
    ensures ended { result ≡ Status.Done → IsAtEnd (S.left source.new) }
    ensures reads { ReadsCounted (S.faults source.old) (S.faults source.new) result }
    ensures writes { WritesCounted (K.faults sink.old) (K.faults sink.new) result }
    ensures refused { IfSome (S.left source.old) (λ input. IsRefused form input → Comes (S.faults source.old)
        (S.faults source.new) (K.faults sink.old) (K.faults sink.new) result (λ status. status ≡ Status.BadInput)) }
    ensures large { IfSome (S.left source.old) (λ input. IsLargeInput form input → Comes (S.faults source.old)
        (S.faults source.new) (K.faults sink.old) (K.faults sink.new) result (λ status. status ≡ Status.BuildRefused)) }
    ensures complete { IfSome (S.left source.old) (λ input. IsSmallInput form input → Comes (S.faults source.old)
        (S.faults source.new) (K.faults sink.old) (K.faults sink.new) result (Ends form)) }
    ensures stops { ReadAtMost (input_limit + 1) (S.left source.old) (S.left source.new) }
{
    match read_due(rt, alloc, source, form) {
        Ok(due) => finish(sink, due.status, due.text.as_str()),
        Err(status) => status,
    }
}

/// Reads the source, and finds what is due for its bytes.
fn read_due<R: Threads + Sync, S: Source>(
    rt: &R,
    alloc: Global,
    source: &mut S,
    form: Form,
) -> Result<Due, Status>
    ensures due { IfOk result (λ due. IsDueForm form (S.left source.old) due.status (string_bytes due.text)) }
    ensures verdict { IfOk result (λ due. IsVerdict due.status) }
    ensures ended { IfOk result (λ due. due.status ≡ Status.Done → IsAtEnd (S.left source.new)) }
    ensures stopped { IfErr result IsStop }
    ensures stops { ReadAtMost (input_limit + 1) (S.left source.old) (S.left source.new) }
    ensures count { MatchResult result (λ _. S.faults source.new ≡ S.faults source.old)
        (ReadsCounted (S.faults source.old) (S.faults source.new)) }
{
    match read_all(alloc, source) {
        Ok(bytes) => due_for(rt, alloc, bytes, form).map_err(|_| Status::NoMemory),
        Err(ReadError::TooLong) => {
            refusal(alloc, "error InputTooLong\n").map_err(|_| Status::NoMemory)
        }
        Err(ReadError::Fault) => Err(Status::ReadFault),
        Err(ReadError::OutOfMemory) => Err(Status::NoMemory),
    }
}

/// Writes the text, and answers the status, or `WriteFault` where a write failed.
fn finish<K: Sink>(sink: &mut K, status: Status, text: &str) -> Status
    ensures { IsWritten status text.now (K.taken sink.old) (K.taken sink.new)
        (K.faults sink.old) (K.faults sink.new) result }
{
    match write_all(sink, text.as_bytes()) {
        Ok(()) => status,
        Err(_) => Status::WriteFault,
    }
}
