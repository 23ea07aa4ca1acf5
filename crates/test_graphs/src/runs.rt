//! Runs of the program over sources and sinks in memory. What it writes of bundles are rows of examples/rows/bundles.rows.

ghost use Rattle.std.specs.Prelude.{◌<◌};

use graph_run::{MemorySink, MemorySource, run};
use std::alloc::{AllocError, Global};
use std::process::Abort;
use std::thread::Threads;

const ROW: &str =
    r#"{"roots":["file:///a.ts"],"modules":[{"specifier":"file:///a.ts","text":"import \"./b.ts\";"}]}"#;

const REPORT: &str =
    "0 root file:///a.ts\nfile:///a.ts module TypeScript 16\n  import 7-15 \"./b.ts\" - -> file:///b.ts\nfile:///b.ts error Missing\nentries 2\n";

const FIVE: &str = r#"{"roots":["file:///1.ts"],"modules":[
{"specifier":"file:///1.ts","text":"import './2.ts'; import './3.js';"},
{"specifier":"file:///2.ts","text":"import './4.mts'"},
{"specifier":"file:///3.js","text":"import '/5.mjs'"},
{"specifier":"file:///4.mts","text":""},
{"specifier":"file:///5.mjs","text":"import './1.ts'"}]}"#;

/// A redirect, a type-only import that leads to nothing, and a package.
const REALISTIC: &str = r#"{"roots":["https://x.test/main.ts"],"modules":[
{"specifier":"https://x.test/main.ts","text":"import { serve } from \"./deps.ts\";\nimport type { Conf } from \"./types.ts\";\nconst m = await import(\"npm:chalk@5\");\n"},
{"specifier":"https://x.test/deps.ts","redirect":"https://x.test/v1/deps.ts"},
{"specifier":"https://x.test/v1/deps.ts","text":"export const serve = 1;\n"}]}"#;

const REALISTIC_REPORT: &str = r#"0 root https://x.test/main.ts
https://x.test/deps.ts redirect https://x.test/v1/deps.ts
https://x.test/main.ts module TypeScript 114
  import 22-33 "./deps.ts" - -> https://x.test/deps.ts
  import-type 61-73 "./types.ts" - -> https://x.test/types.ts
  dynamic 98-111 "npm:chalk@5" - -> npm:chalk@5
https://x.test/types.ts error Missing
https://x.test/v1/deps.ts module TypeScript 24
npm:chalk@5 package npm "chalk" "5" -
entries 5
"#;

const MADE: &str =
    r#"0 {"limit":2,"modules":[{"specifier":"file:///m/0.ts","text":"import \"./1.ts\";\nexport const v0 = 0;\n"},{"specifier":"file:///m/1.ts","text":"import(\"./0.ts\");\nexport const v1 = 1;\n"}],"roots":["file:///m/0.ts"]}
"#;

const USAGE: &str =
    "64 usage: graph_tool build [--batch N] | make N | sum N | vendor BASE | order\n";

/// An argument, the one after it, and the status with what is written.
const FORMS: &[(&str, &str, &str)] = &[
    ("make", "2", MADE),
    ("make", "0", USAGE),
    ("make", "02", USAGE),
    ("make", "+2", USAGE),
    ("make", "", USAGE),
    ("make", "2 ", USAGE),
    ("make", "100001", USAGE),
    ("sum", "1", "0 entries 1 edges 0 faults 0\n"),
    ("sum", "2", "0 entries 2 edges 2 faults 0\n"),
    ("sum", "3", "0 entries 3 edges 4 faults 0\n"),
    ("sum", "100001", USAGE),
    ("sum", "99999999999999999999", USAGE),
    ("vendor", "file:///v", USAGE),
    ("vendor", "file:///v/#", USAGE),
    ("vendor", "2", USAGE),
    ("build", "2", USAGE),
    ("Make", "2", USAGE),
];

/// A number after `build --batch`, and the status with what is written.
const BATCHES: &[(&str, &str)] = &[
    ("1", REPORT),
    ("2", REPORT),
    ("64", REPORT),
    ("1000000", REPORT),
    ("0", USAGE),
    ("01", USAGE),
    ("+1", USAGE),
    ("", USAGE),
    ("1000001", USAGE),
];

/// A size of the input, the status with what is written, and how many bytes are left unread.
const SIZES: &[(usize, &str, usize)] = &[
    (16_777_216, "0 entries 0\n", 0),
    (16_777_300, "2 error InputTooLong\n", 83),
];

/// The status and what was written.
fn ended<R: Threads + Sync>(
    rt: &R,
    alloc: Global,
    words: &[&str],
    source: &mut MemorySource,
    sink: &mut MemorySink,
) -> Result<String, AllocError> {
    let mut given = Vec::new(alloc);
    for word in words {
        given.push(String::from_str(alloc, word)?)?;
    }
    let status = run(rt, alloc, given.as_slice(), source, sink).code();
    let text = std::str::from_utf8(sink.taken()).unwrap_or("no text");
    format!(in alloc; "{status} {text}")
}

/// The same for `build` over the input, in pieces of this size.
fn built<R: Abort + Threads + Sync>(rt: &R, alloc: Global, input: &str, piece: usize) -> String
    requires { 0 < piece }
{
    let bytes = input.as_bytes().to_vec(alloc).expect(rt, "memory");
    let mut source = MemorySource::new(bytes, piece, Vec::new(alloc));
    let mut sink = MemorySink::new(alloc, 4096, piece, Vec::new(alloc)).expect(rt, "memory");
    ended(rt, alloc, &["build"], &mut source, &mut sink).expect(rt, "memory")
}

/// The same where these reads and these writes fail.
fn failing<R: Abort + Threads + Sync>(
    rt: &R,
    alloc: Global,
    input: &str,
    piece: usize,
    reads: &[u64],
    writes: &[u64],
) -> String
    requires { 0 < piece }
{
    let bytes = input.as_bytes().to_vec(alloc).expect(rt, "memory");
    let reads = reads.to_vec(alloc).expect(rt, "memory");
    let writes = writes.to_vec(alloc).expect(rt, "memory");
    let mut source = MemorySource::new(bytes, piece, reads);
    let mut sink = MemorySink::new(alloc, 4096, piece, writes).expect(rt, "memory");
    ended(rt, alloc, &["build"], &mut source, &mut sink).expect(rt, "memory")
}

#[test]
fn runs_in_pieces(rt: HostRuntime) {
    let alloc = rt.alloc();
    assert_eq!(rt; built(&rt, alloc, ROW, 65_536).as_str(), REPORT);
    assert_eq!(rt; built(&rt, alloc, ROW, 1).as_str(), REPORT);
}

/// What a run with these words says where this much may be written, and how much of the input is left.
fn refused<R: Abort + Threads + Sync>(
    rt: &R,
    alloc: Global,
    words: &[&str],
    room: usize,
) -> (String, usize) {
    let bytes = ROW.as_bytes().to_vec(alloc).expect(rt, "memory");
    let mut source = MemorySource::new(bytes, 9, Vec::new(alloc));
    let mut sink = MemorySink::new(alloc, room, 9, Vec::new(alloc)).expect(rt, "memory");
    let got = ended(rt, alloc, words, &mut source, &mut sink).expect(rt, "memory");
    (got, source.left().len())
}

#[test]
fn runs_with_other_words_or_no_room(rt: HostRuntime) {
    let alloc = rt.alloc();
    let (got, left) = refused(&rt, alloc, &["build", "x"], 100);
    assert_eq!(rt; got.as_str(), USAGE);
    assert_eq!(rt; left, ROW.len());
    let (got, left) = refused(&rt, alloc, &["run", "x"], 5);
    assert_eq!(rt; got.as_str(), "4 usage");
    assert_eq!(rt; left, ROW.len());
}

#[test]
fn runs_of_forms_with_a_number(rt: HostRuntime) {
    let alloc = rt.alloc();
    for (word, number, want) in FORMS {
        let (got, left) = refused(&rt, alloc, &[*word, *number], 1000);
        assert_eq!(rt; got.as_str(), *want, "{word} {number}");
        assert_eq!(rt; left, ROW.len(), "{word} {number}");
    }
}

#[test]
fn runs_of_batches(rt: HostRuntime) {
    let alloc = rt.alloc();
    for (number, want) in BATCHES {
        let (got, left) = refused(&rt, alloc, &["build", "--batch", *number], 1000);
        assert_eq!(rt; got.as_str(), *want, "{number}");
        let unread = if *want == USAGE { ROW.len() } else { 0 };
        assert_eq!(rt; left, unread, "{number}");
    }
    let (got, _) = refused(&rt, alloc, &["build", "--batches", "2"], 1000);
    assert_eq!(rt; got.as_str(), USAGE);
    let (got, _) = refused(&rt, alloc, &["order", "--batch", "2"], 1000);
    assert_eq!(rt; got.as_str(), USAGE);
}

#[test]
fn runs_with_each_read_and_each_write_failing(rt: HostRuntime) {
    let alloc = rt.alloc();
    let whole = failing(&rt, alloc, FIVE, 64, &[], &[]);
    assert!(rt; whole.as_str().ends_with("entries 5\n"));
    for call in 0..32 {
        let got = failing(&rt, alloc, FIVE, 64, &[call], &[]);
        assert!(rt; got.as_str() == "3 " || got == whole, "read {call}");
        let got = failing(&rt, alloc, FIVE, 64, &[], &[call]);
        let taken = got.as_str().strip_prefix("4 ").unwrap_or("no fault");
        let due = whole.as_str().strip_prefix("0 ").unwrap_or("no report");
        assert!(rt; got == whole || due.starts_with(taken), "write {call}");
    }
}

#[test]
fn realistic_run_of_single_bytes_with_each_read_failing(rt: HostRuntime) {
    let alloc = rt.alloc();
    let whole = failing(&rt, alloc, REALISTIC, 1, &[], &[]);
    assert_eq!(rt; whole.as_str(), REALISTIC_REPORT);
    let bytes = REALISTIC.len() as u64;
    for call in 0..bytes {
        let got = failing(&rt, alloc, REALISTIC, 1, &[call], &[]);
        assert_eq!(rt; got.as_str(), "3 ", "read {call}");
    }
    let got = failing(&rt, alloc, REALISTIC, 1, &[bytes], &[]);
    assert_eq!(rt; got.as_str(), "3 ", "the read that finds the end");
}

#[test]
fn realistic_run_of_single_bytes_with_each_write_failing(rt: HostRuntime) {
    let alloc = rt.alloc();
    let got = failing(&rt, alloc, REALISTIC, 1, &[], &[1]);
    assert_eq!(rt; got.as_str(), "4 r");
    let due = REALISTIC_REPORT.strip_prefix("0 ").unwrap_or("no report");
    let bytes = due.len() as u64;
    for call in 0..bytes {
        let got = failing(&rt, alloc, REALISTIC, 1, &[], &[call]);
        let taken = got.as_str().strip_prefix("4 ").unwrap_or("no fault");
        assert!(rt;
            due.starts_with(taken) && taken.len() as u64 == call,
            "write {call}"
        );
    }
}

#[test]
fn runs_at_the_limit_of_sizes(rt: HostRuntime) {
    let alloc = rt.alloc();
    for (size, want, left) in SIZES {
        let mut bytes = r#"{"modules":[],"roots":[]}"#
            .as_bytes()
            .to_vec(alloc)
            .expect(&rt, "memory");
        bytes.resize(*size, b' ').expect(&rt, "memory");
        let mut source = MemorySource::new(bytes, 1_000_000, Vec::new(alloc));
        let mut sink = MemorySink::new(alloc, 100, 100, Vec::new(alloc)).expect(&rt, "memory");
        let got = ended(&rt, alloc, &["build"], &mut source, &mut sink).expect(&rt, "memory");
        assert_eq!(rt; got.as_str(), *want, "{size}");
        assert_eq!(rt; source.left().len(), *left, "{size}");
    }
}
