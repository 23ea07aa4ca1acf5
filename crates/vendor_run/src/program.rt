//! All that the program does, by its arguments.
ghost use Rattle.std.specs.Prelude.{◌≡◌, ◌+◌, ◌⊎◌, ℕ, map, IfSome, string_bytes};
ghost use Rattle.std.specs.Io.KnownBytes.{IsAtEnd};
ghost use Rattle.url.specs.Parts.{Parts};
ghost use Rattle.counted_io.specs.Transfer.{input_limit, ReadAtMost};
ghost use Rattle.graph_run.specs.declared.words.words.Form.TheVariants.{Make, Sum};
ghost use Rattle.graph_run.specs.words.Words.{IsForm, IsReading as ReadsGraph};
ghost use Rattle.graph_run.specs.Run.{ReadsCounted, WritesCounted, IsRefused, IsLargeInput, IsSmallInput, Always};
ghost use Rattle.vendor_run.specs.Words.{IsVendor};
ghost use Rattle.vendor_run.specs.Run.{Comes, IsOutcome};
ghost use Rattle.vendor_run.specs.Program.{Wrote, IsNone, IsReading, AsksFolder};

use crate::run::run_vendor;
use crate::words::folder_of;
use graph_run::{Sink, Source, Status};
use std::alloc::Global;
use std::thread::Threads;

/// Runs the program with the arguments after its name. With `build` it reads a bundle from the source and writes the report of
/// its graph, or the line of a refusal; with `order` the order of its modules, or a cycle of them; with `vendor BASE` the
/// bundle of its modules as files of the folder BASE. With `make N` it writes the bundle of N modules, with `sum N` the
/// counts of its graph. Other arguments get the usage line. The analyses of a batch of modules run in threads.
pub fn run_program<R: Threads + Sync, S: Source, K: Sink>(
    rt: &R,
    alloc: Global,
    words: &[String],
    source: &mut S,
    sink: &mut K,
) -> Status
    // What was written; with `Done` it is the text that is due for the words and the input, whole and nothing else.
    ensures written { Wrote (map string_bytes words.now) (S.left source.old) (K.taken sink.old) (K.taken sink.new) result }
    ensures ended { IsReading (map string_bytes words.now) → result ≡ Status.Done → IsAtEnd (S.left source.new) }
    // The usage line comes exactly of words that are no form; memory may run out while a folder's URL is read.
    ensures usage { result ≡ Status.Usage → IsNone (map string_bytes words.now) × (K.faults sink.new ≡ K.faults sink.old) }
    ensures none { IsNone (map string_bytes words.now) → K.faults sink.new ≡ K.faults sink.old
        → (result ≡ Status.Usage) ⊎ ((result ≡ Status.NoMemory) × AsksFolder (map string_bytes words.now)) }
    ensures unread { ¬ IsReading (map string_bytes words.now) → source.new ≡ source.old }
    ensures reads { ReadsCounted (S.faults source.old) (S.faults source.new) result }
    ensures writes { WritesCounted (K.faults sink.old) (K.faults sink.new) result }
    // Why there is no text of a graph.
    ensures refused { IfSome (S.left source.old) (λ input. IsRefused input → Always (IsReading (map string_bytes words.now))
        (S.faults source.old) (S.faults source.new) (K.faults sink.old) (K.faults sink.new) result Status.BadInput) }
    ensures large { IfSome (S.left source.old) (λ input. IsLargeInput input → Always (IsReading (map string_bytes words.now))
        (S.faults source.old) (S.faults source.new) (K.faults sink.old) (K.faults sink.new) result Status.BuildRefused) }
    // And when there is one; of `vendor`, or no plan.
    ensures complete { IfSome (S.left source.old) (λ input. IsSmallInput input → Always (ReadsGraph (map string_bytes words.now))
        (S.faults source.old) (S.faults source.new) (K.faults sink.old) (K.faults sink.new) result Status.Done) }
    ensures vendored { IfSome (S.left source.old) (λ input. IsSmallInput input → (base : Parts)
        → IsVendor base (map string_bytes words.now) → Comes IsOutcome
        (S.faults source.old) (S.faults source.new) (K.faults sink.old) (K.faults sink.new) result) }
    ensures made { (n : ℕ) → Always (IsForm (Make n) (map string_bytes words.now))
        (S.faults source.old) (S.faults source.new) (K.faults sink.old) (K.faults sink.new) result Status.Done }
    ensures summed { (n : ℕ) → Always (IsForm (Sum n) (map string_bytes words.now))
        (S.faults source.old) (S.faults source.new) (K.faults sink.old) (K.faults sink.new) result Status.Done }
    // Reading stops at the first byte too many.
    ensures stops { ReadAtMost (input_limit + 1) (S.left source.old) (S.left source.new) }
{
    let Ok(folder) = folder_of(alloc, words) else {
        return Status::NoMemory;
    };
    match folder {
        Some(base) => run_vendor(rt, alloc, &base, source, sink),
        None => graph_run::run(rt, alloc, words, source, sink),
    }
}
