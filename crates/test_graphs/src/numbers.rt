//! Numbers of a graph's specifiers, and how often answers are analysed.

use crate::graphs::{
    A, A_OF_B_OF_C, ALL, Given, arrivals, builder, modules, named, options, urls, word,
};
use deno_graph::{
    AnalyzeFault, BuildError, GraphBuild, LoadAnswer, MediaType, MemoryLoader, ModuleAnalyzer,
    ModuleInfo, ParserModuleAnalyzer,
};
use shared_analyses::{SharedAnalyses, SharedEntry};
use source_text::SourceText;
use std::alloc::Global;
use std::sync::atomic::{AtomicU64, Ordering};
use url::Url;

/// Analyses as the parser does, and counts how often.
#[derive(Drop)]
struct Counting<'a> {
    calls: &'a AtomicU64,
}

impl<'a> ModuleAnalyzer for Counting<'a> {
    ghost use Rattle.graph_entry.specs.Reading.{ReadsSource};
    ghost use Rattle.graph_entry.specs.ReadingLaws.{reads_once};

    ghost reads = { λ _. ReadsSource };

    fn analyze(
        &self,
        alloc: Global,
        specifier: &Url,
        text: &SourceText,
        media_type: MediaType,
    ) -> Result<ModuleInfo, AnalyzeFault> {
        self.calls.fetch_add(1, Ordering::SeqCst);
        ParserModuleAnalyzer.analyze(alloc, specifier, text, media_type)
    }

    ghost once = { λ _. reads_once };
}

#[test]
fn different_roots_have_the_first_numbers(rt: HostRuntime) {
    let alloc = rt.alloc();
    let given: Given = (ALL, 9, &["b.ts", "a.ts", "b.ts"], &[], &[], "");
    let graph = builder(&rt, alloc, &given).poll().expect(&rt, "a graph");
    let a = named(&rt, alloc, "a.ts");
    let b = named(&rt, alloc, "b.ts");
    assert!(rt; graph.number(&b) == Some(0));
    assert!(rt; graph.number(&a) == Some(1));
    assert!(rt; graph.number(&named(&rt, alloc, "c.ts")).is_none());
    let second = graph.numbered(1).expect(&rt, "a specifier");
    assert_eq!(rt; second.as_str(), "file:///a.ts");
    assert!(rt; graph.numbered(2).is_none());
}

#[test]
fn each_answer_is_analysed_once(rt: HostRuntime) {
    let alloc = rt.alloc();
    let calls = AtomicU64::new(0);
    let texts = [A_OF_B_OF_C[0], A_OF_B_OF_C[1], ("c.ts", "export {};")];
    let loader = MemoryLoader::new(
        alloc,
        modules(&rt, alloc, &texts, &[]),
        arrivals(&rt, alloc, "a-b-c"),
    );
    let roots = urls(&rt, alloc, A);
    let build = GraphBuild::new(
        alloc,
        roots,
        options(alloc, ALL, 9),
        loader.expect(&rt, "memory"),
    );
    let counting = Counting { calls: &calls };
    let mut build = build
        .expect(&rt, "memory")
        .with_analyzer(counting)
        .expect(&rt, "memory");
    for _ in 0..2 {
        assert!(rt; matches!(build.poll(), Err(BuildError::NotYet)));
    }
    let graph = build.poll().expect(&rt, "a graph");
    assert!(rt; graph.numbered(2).is_some() && graph.numbered(3).is_none());
    assert!(rt; calls.load(Ordering::SeqCst) == 3);
}

// Whether an entry is the slot's, and this one.
fn is_kept(entry: &SharedEntry<'_>, want: &str) -> bool {
    match entry {
        SharedEntry::Kept(entry) => word(entry) == want,
        SharedEntry::Own(_) => false,
    }
}

#[test]
fn shared_analyses_are_those_of_their_slots(rt: HostRuntime) {
    let alloc = rt.alloc();
    let mut answers = modules(&rt, alloc, &[("a.ts", "")], &[]);
    let absent = (named(&rt, alloc, "b.ts"), LoadAnswer::Absent);
    answers.push(absent).expect(&rt, "memory");
    let analyses = SharedAnalyses::new(alloc, answers).expect(&rt, "memory");
    if analyses.len() != 2 {
        panic!(rt; "two answers");
    }
    let mut note = analyses.note(1);
    let mut other = analyses.note(0);
    let first = analyses.get_or_analyse(1, &mut note).expect(&rt, "memory");
    assert!(rt; is_kept(&first, "Missing"));
    let again = analyses.get_or_analyse(1, &mut note).expect(&rt, "memory");
    assert!(rt; is_kept(&again, "Missing"));
    let front = analyses.get_or_analyse(0, &mut other).expect(&rt, "memory");
    assert!(rt; is_kept(&front, "Module"));
}
