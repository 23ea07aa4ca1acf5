//! The entries of answers, and those of specifiers that no loader is asked for. Those of sources are rows of
//! examples/rows/entries.rows.

use crate::lines::line_of;
use base::SharedBytes;
use deno_graph::analyzer::{analyse, analyse_unasked};
use graph_entry::{Headers, LoadAnswer, ModuleError};
use std::alloc::Global;
use std::collections::BTreeMap;
use std::process::Abort;
use url::Url;

// A module with one import from `./a`.
const ONE_IMPORT: [u8; 19] = *b"\0asm\x01\0\0\0\x02\x09\x01\x03./a\x01f\0\0";

/// A specifier that no loader is asked for, and its entry.
const UNASKED: &[(&str, &str)] = &[
    ("npm:@scope/pkg@1.2/sub/x", "npm @scope/pkg 1.2 sub/x"),
    ("npm:chalk@", "PackageReference"),
    ("jsr:@a/b@^1?x", "jsr @a/b ^1 -"),
    (
        "data:application/typescript;base64,aW1wb3J0ICIuL2IudHMiOw==",
        "TypeScript 16; import 7-15 ./b.ts ! InvalidUrl",
    ),
    ("data:application/json,{}", "Json 2"),
    ("data:text/javascript,%FF", "Decode"),
    ("data:text/javascript", "DataUrl"),
    ("data:,x", "UnsupportedMediaType"),
];

/// A specifier, a content type, and the entry of no bytes.
const CONTENT_TYPES: &[(&str, &str, &str)] = &[
    (
        "file:///a",
        "text/javascript; charset=utf-8",
        "JavaScript 0",
    ),
    ("file:///a.mts", "application/typescript", "Mts 0"),
    ("file:///a.ts", "text/html", "UnsupportedMediaType"),
];

fn url(rt: &impl Abort, alloc: Global, text: &str) -> Url {
    Url::parse(alloc, text).expect(rt, "a URL")
}

// Content with these bytes, and where a name is given, a header.
fn content(rt: &impl Abort, alloc: Global, bytes: &[u8], name: &str, value: &str) -> LoadAnswer {
    LoadAnswer::Content {
        headers: headers(rt, alloc, name, value),
        bytes: SharedBytes::from_slice(alloc, bytes).expect(rt, "memory"),
    }
}

fn headers(rt: &impl Abort, alloc: Global, name: &str, value: &str) -> Headers {
    let mut map = BTreeMap::new(alloc);
    if !name.is_empty() {
        let name = String::from_str(alloc, name).expect(rt, "memory");
        let value = String::from_str(alloc, value).expect(rt, "memory");
        let before: Result<_, _> = map.insert(name, value);
        drop(before.expect(rt, "memory"));
    }
    Headers::from_map(alloc, map).expect(rt, "memory")
}

// The entry of an answer as a line.
fn answered(rt: &impl Abort, alloc: Global, specifier: &str, answer: LoadAnswer) -> String {
    let specifier = url(rt, alloc, specifier);
    let entry = analyse(alloc, &specifier, answer).expect(rt, "memory");
    line_of(alloc, &entry).expect(rt, "memory")
}

#[test]
fn entries_of_content(rt: HostRuntime) {
    let cases: [(&str, &[u8], &str); 20] = [
        (
            "file:///a.ts",
            b"\xEF\xBB\xBFimport \"./b.ts\";",
            "TypeScript 16; import 7-15 ./b.ts -> file:///b.ts",
        ),
        (
            "file:///a.js",
            b"/* import \"./x.ts\" */ import \"./b.ts\";",
            "JavaScript 38; import 29-37 ./b.ts -> file:///b.ts",
        ),
        (
            "file:///a.mts",
            b"import \"foo\";import '/b.ts'",
            "Mts 27; import 7-12 foo ! ImportPrefixMissing; import 20-27 /b.ts -> file:///b.ts",
        ),
        ("file:///a.ts", b"\xEF\xBB\xBF\xEF\xBB\xBF", "TypeScript 3"),
        (
            "file:///a.ts",
            b"const \x01;",
            "Parse InvalidChar 6-6; SyntaxError: InvalidChar\n    at file:///a.ts:1:7",
        ),
        (
            "file:///a.ts",
            b"\xEF\xBB\xBFimport \"a",
            "Parse UnterminatedString 7-7; SyntaxError: UnterminatedString\n    at file:///a.ts:1:8",
        ),
        (
            "file:///a.ts",
            b"; /*",
            "Parse UnterminatedComment 2-2; SyntaxError: UnterminatedComment\n    at file:///a.ts:1:3",
        ),
        (
            "file:///a.ts",
            b"import x;",
            "Parse Syntax 8-9; SyntaxError: Syntax\n    at file:///a.ts:1:9",
        ),
        (
            "file:///a.ts",
            b"import",
            "Parse Syntax 6-6; SyntaxError: Syntax\n    at file:///a.ts:1:7",
        ),
        ("file:///a.ts", b"\xFF", "Decode"),
        ("file:///a.json", b"\xFF", "Decode"),
        ("file:///a.d.ts", b"\xFF", "Decode"),
        ("file:///a.txt", b"", "UnsupportedMediaType"),
        ("file:///a.jsonc", b"{}", "UnsupportedMediaType"),
        (
            "file:///x/m.wasm",
            &ONE_IMPORT,
            "Wasm 19; other 12-15 ./a -> file:///x/a",
        ),
        (
            "blob:m.wasm",
            &ONE_IMPORT,
            "Wasm 19; other 12-15 ./a ! InvalidUrl",
        ),
        (
            "file:///m.wasm",
            &ONE_IMPORT[..18],
            "WasmParse unexpected end of file",
        ),
        (
            "file:///m.wasm",
            b"import \"a\"",
            "WasmParse not a Wasm module",
        ),
        ("file:///a.json", b"\xEF\xBB\xBFimport \"a\"", "Json 10"),
        ("file:///a.json", b"", "Json 0"),
    ];
    let alloc = rt.alloc();
    for (specifier, bytes, want) in cases {
        let answer = content(&rt, alloc, bytes, "", "");
        let line = answered(&rt, alloc, specifier, answer);
        assert_eq!(rt; line.as_str(), want, "{specifier} {bytes:?}");
    }
}

#[test]
fn entries_by_content_type(rt: HostRuntime) {
    let alloc = rt.alloc();
    for (specifier, content_type, want) in CONTENT_TYPES {
        for name in ["content-type", "Content-Type", "CONTENT-TYPE"] {
            let answer = content(&rt, alloc, b"", name, content_type);
            let line = answered(&rt, alloc, specifier, answer);
            assert_eq!(rt; line.as_str(), *want, "{specifier} {name}");
        }
    }
}

#[test]
fn entries_without_content(rt: HostRuntime) {
    let alloc = rt.alloc();
    for (specifier, want) in UNASKED {
        let specifier = url(&rt, alloc, specifier);
        let entry = analyse_unasked(alloc, &specifier).expect(&rt, "memory");
        let line = line_of(alloc, &entry).expect(&rt, "memory");
        assert_eq!(rt; line.as_str(), *want, "{specifier}");
    }
    for (answer, want) in [
        (LoadAnswer::Absent, "Missing"),
        (LoadAnswer::Failed, "Loading"),
        (LoadAnswer::External, "external"),
        (
            LoadAnswer::Redirect(url(&rt, alloc, "file:///b")),
            "redirect file:///b",
        ),
    ] {
        let copy = answer.copy().expect(&rt, "memory");
        let line = answered(&rt, alloc, "file:///a.ts", copy);
        assert_eq!(rt; line.as_str(), want);
    }
    let line = format!(in alloc; "{}", ModuleError::OutOfMemory).expect(&rt, "memory");
    assert_eq!(rt; line.as_str(), "out of memory");
}

#[test]
fn headers_by_name(rt: HostRuntime) {
    let alloc = rt.alloc();
    let mut given = headers(&rt, alloc, "Content-Type", "text/html");
    let value = String::from_str(alloc, "text/plain").expect(&rt, "memory");
    given
        .insert(alloc, "CONTENT-type", value)
        .expect(&rt, "memory");
    let copy = given.copy().expect(&rt, "memory");
    assert_eq!(rt; copy.as_map().len(), 1);
    assert_eq!(rt; copy.content_type(), Some("text/plain"));
}
