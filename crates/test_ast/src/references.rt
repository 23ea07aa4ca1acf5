//! Reference comments.

use es_lexer::lex_tokens;
use es_references::references;
use es_site::{DependencyKind, Site};
use std::alloc::{AllocError, Global};

/// A text, and its reference comments, each as a line.
const ROWS: &[(&str, &str)] = &[
    (
        "/// <reference types=\"./t.d.ts\" />",
        "types 21-31 ./t.d.ts",
    ),
    ("/// <reference path='a' />", "path 20-23 a"),
    ("///<reference path=\"\"/>", "path 19-21 "),
    (
        "///\t <reference \t types \t=\t \"b\" no-default-lib=\"true\"\t/>",
        "types 28-31 b",
    ),
    (
        "/// <reference path=\"a\" />\n/// <reference path=\"b\" />\na;",
        "path 20-23 a|path 47-50 b",
    ),
    ("#!/a\n/// <reference path=\"a\" />", "path 25-28 a"),
    ("// <reference path=\"a\" />", ""),
    ("/* / <reference path=\"a\" /> */", ""),
    ("//// <reference path=\"a\" />", ""),
    ("/// <referencepath=\"a\" />", ""),
    ("/// <reference lib=\"a\" />", ""),
    ("/// <reference path=\"a' />", ""),
    ("/// <reference path=\"it's\" />", ""),
    ("/// <reference path=\"a\" / >", ""),
    ("/// < reference path=\"a\" />", ""),
    ("a;\n/// <reference path=\"a\" />", ""),
    ("/// <reference path=\"\u{e9}\" />", "path 20-24 \u{e9}"),
];

fn lines(alloc: Global, found: &[Site]) -> Result<String, AllocError> {
    let mut lines = String::new(alloc);
    for site in found {
        if !lines.is_empty() {
            lines.push_str("|")?;
        }
        let kind = match site.kind {
            DependencyKind::ReferencePath => "path",
            _ => "types",
        };
        let line = format!(in alloc;
            "{kind} {}-{} {}",
            site.range.start, site.range.end, site.value
        )?;
        lines.push_str(line.as_str())?;
    }
    Ok(lines)
}

#[test]
fn reference_comments(rt: HostRuntime) {
    for (text, want) in ROWS.iter() {
        let lexed = lex_tokens(rt.alloc(), text).expect(&rt, "tokens");
        let found = references(
            rt.alloc(),
            lexed.tokens.as_slice(),
            lexed.comments.as_slice(),
        );
        let found = found.expect(&rt, "memory");
        let got = lines(rt.alloc(), found.as_slice()).expect(&rt, "memory");
        assert_eq!(rt; got.as_str(), *want);
    }
}
