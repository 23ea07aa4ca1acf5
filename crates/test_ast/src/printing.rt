//! Printed texts of parsed sources.

use crate::parsed::params;
use deno_ast::{EmitOptions, MediaType, ParsedSource, SourceMapOption, emit, parse_program, print};
use std::alloc::{AllocError, Global};

/// A source, its printed text, and the same with the comments before its items.
const ROWS: &[(&str, &str, &str)] = &[
    ("const a=1;", "const a = 1;\n", "const a = 1;\n"),
    (
        "export*as y from\"./o.js\"",
        "export * as y from \"./o.js\";\n",
        "export * as y from \"./o.js\";\n",
    ),
    ("// 1\nt;/* 2 */", "t;\n", "// 1\nt;\n"),
    (
        "/*1*//*2*/a\n// 3\n{b/*4*/\n// 5\nc}",
        "a;\n{\n  b;\n  c;\n}\n",
        "/*1*/\n/*2*/\na;\n// 3\n{\n  b;\n  c;\n}\n",
    ),
    ("// 1", "", ""),
];

fn printed(alloc: Global, parsed: &ParsedSource) -> Result<String, AllocError> {
    let program = parsed.program()?;
    print(alloc, &program)
}

/// What is emitted, or that there is a source map.
fn emitted(
    alloc: Global,
    parsed: &ParsedSource,
    options: &EmitOptions,
) -> Result<String, AllocError> {
    let it = emit(alloc, parsed.program_ref(), parsed.comments(), options)?;
    let copy = it.copy()?;
    if copy.source_map.is_some() {
        return String::from_str(alloc, "a source map");
    }
    String::from_str(alloc, copy.text.as_str())
}

#[test]
fn programs_are_printed(rt: HostRuntime) {
    let alloc = rt.alloc();
    let with = EmitOptions::default();
    let without = EmitOptions {
        source_map: SourceMapOption::None,
        remove_comments: true,
    };
    for (text, plain, commented) in ROWS.iter() {
        let params = params(alloc, MediaType::JavaScript, text, None).expect(&rt, "memory");
        let parsed = parse_program(alloc, params).expect(&rt, "a program");
        let got = printed(alloc, &parsed).expect(&rt, "memory");
        assert_eq!(rt; got.as_str(), *plain);
        let got = emitted(alloc, &parsed, &with).expect(&rt, "memory");
        assert_eq!(rt; got.as_str(), *commented);
        let got = emitted(alloc, &parsed, &without).expect(&rt, "memory");
        assert_eq!(rt; got.as_str(), *plain);
    }
}
