//! Two analyses of one batch run at the same time: each waits, for so many turns, until the other has begun. And a batch
//! whose threads run out of memory is analysed again.
ghost use Rattle.std.specs.Prelude.{◌≡◌, ◌<◌, []};

use base::{Items, SharedBytes};
use deno_graph::{
    AnalyzeFault, BuildError, BuildOptions, CustomBuild, DefaultResolver, GraphBuild, GraphKind,
    Headers, LoadAnswer, MediaType, MemoryLoader, ModuleAnalyzer, ModuleInfo,
};
use source_text::SourceText;
use std::alloc::Global;
use std::process::Abort;
use std::sync::atomic::{AtomicU64, Ordering};
use std::thread;
use url::Url;

/// So often an analysis looks whether another has begun.
const TURNS: u32 = 100_000;

/// Finds no sites, and only while another analysis runs.
#[derive(Drop)]
struct Gated {
    begun: AtomicU64,
}

impl ModuleAnalyzer for Gated {
    ghost use Rattle.std.specs.Prelude.{Ok};
    ghost use Rattle.std.proofs.Common.{◌∙◌, sym};

    ghost reads = { λ _ s media text sites. sites ≡ Ok [] };

    fn analyze(
        &self,
        alloc: Global,
        specifier: &Url,
        text: &SourceText,
        media_type: MediaType,
    ) -> Result<ModuleInfo, AnalyzeFault> {
        let _ = specifier;
        let _ = text;
        let _ = media_type;
        self.begun.fetch_add(1, Ordering::SeqCst);
        for _ in 0..TURNS {
            if self.begun.load(Ordering::SeqCst) >= 2 {
                return Ok(ModuleInfo {
                    sites: Items::new(alloc),
                });
            }
            thread::yield_now();
        }
        Err(AnalyzeFault::OutOfMemory)
    }

    ghost once = { λ _ s media text a b is so. is ∙ sym so };
}

/// Finds no sites, and runs out of memory so many times before.
#[derive(Drop)]
struct Refused {
    times: u64,
    begun: AtomicU64,
}

impl ModuleAnalyzer for Refused {
    ghost use Rattle.std.specs.Prelude.{Ok};
    ghost use Rattle.std.proofs.Common.{◌∙◌, sym};

    ghost reads = { λ _ s media text sites. sites ≡ Ok [] };

    fn analyze(
        &self,
        alloc: Global,
        specifier: &Url,
        text: &SourceText,
        media_type: MediaType,
    ) -> Result<ModuleInfo, AnalyzeFault> {
        let _ = specifier;
        let _ = text;
        let _ = media_type;
        if self.begun.fetch_add(1, Ordering::SeqCst) < self.times {
            return Err(AnalyzeFault::OutOfMemory);
        }
        Ok(ModuleInfo {
            sites: Items::new(alloc),
        })
    }

    ghost once = { λ _ s media text a b is so. is ∙ sym so };
}

const NAMES: &[&str] = &["file:///a.ts", "file:///b.ts"];

/// As many bytes as a half of a batch has at least.
const HALF: usize = 131_072;

// A builder of the graph of two modules, which both are roots, by an analyzer.
fn two_modules<A: ModuleAnalyzer + Drop>(
    rt: &impl Abort,
    alloc: Global,
    analyzer: A,
) -> CustomBuild<MemoryLoader, DefaultResolver, A> {
    let mut roots = Items::new(alloc);
    let mut modules = Items::new(alloc);
    for name in NAMES {
        let url = Url::parse(alloc, name).expect(rt, "a URL");
        roots
            .push(url.clone().expect(rt, "memory"))
            .expect(rt, "memory");
        let text = vec![in alloc; b' '; HALF].expect(rt, "memory");
        let answer = LoadAnswer::Content {
            headers: Headers::new(alloc),
            bytes: SharedBytes::from_vec(text).expect(rt, "memory"),
        };
        modules.push((url, answer)).expect(rt, "memory");
    }
    let options = BuildOptions {
        kind: GraphKind::All,
        limit: 9,
        skip_dynamic_deps: false,
        imports: Items::new(alloc),
    };
    let loader = MemoryLoader::new(alloc, modules, Items::new(alloc)).expect(rt, "memory");
    let Ok(build) = GraphBuild::new(alloc, roots, options, loader) else {
        panic!(rt; "memory");
    };
    build.with_analyzer(analyzer).expect(rt, "memory")
}

fn gate() -> Gated {
    Gated {
        begun: AtomicU64::new(0),
    }
}

#[test]
fn both_halves_run_at_once(rt: HostRuntime) {
    let mut build = two_modules(&rt, rt.alloc(), gate());
    let graph = build.poll_batched(&rt, 2);
    assert!(rt; graph.is_ok());
}

#[test]
fn batch_is_analysed_again_where_threads_run_out_of_memory(rt: HostRuntime) {
    // Each half once in its thread, and the first of the batch once more.
    for (times, is_built) in [(1, true), (2, true), (3, false)] {
        let refused = Refused {
            times,
            begun: AtomicU64::new(0),
        };
        let mut build = two_modules(&rt, rt.alloc(), refused);
        assert_eq!(rt; build.poll_batched(&rt, 2).is_ok(), is_built, "{times}");
    }
}

#[test]
fn one_after_another_does_not(rt: HostRuntime) {
    let mut build = two_modules(&rt, rt.alloc(), gate());
    let graph = build.poll();
    assert!(rt; matches!(graph, Err(BuildError::OutOfMemory)));
}
