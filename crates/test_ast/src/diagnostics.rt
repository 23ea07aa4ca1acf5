//! What a diagnostic displays.

use base::Range;
use parse_diagnostic::{LexicalKind, ParseDiagnostic, ParseDiagnosticsError, SyntaxErrorKind};
use source_text::{SourceText, SourceTextInfo};
use std::alloc::Global;
use std::process::Abort;
use url::Url;

/// A text, a place in it, and the line and the column that are displayed.
const ROWS: &[(&str, usize, &str)] = &[
    ("", 0, "1:1"),
    ("a\n\tb", 3, "2:2"),
    ("\u{e9}\u{e9}b", 4, "1:3"),
    ("a\r\nb", 3, "2:1"),
    ("a\u{2028}b", 4, "1:3"),
];

fn fault(
    rt: &impl Abort,
    alloc: Global,
    text: &str,
    place: usize,
    kind: SyntaxErrorKind,
) -> ParseDiagnostic {
    let text = SourceText::from_str(alloc, text).expect(rt, "memory");
    let info = SourceTextInfo::new(alloc, text).expect(rt, "memory");
    let specifier = Url::parse(alloc, "file:///a.js").expect(rt, "a URL");
    let range = Range {
        start: place,
        end: place,
    };
    ParseDiagnostic::new(specifier, range, kind, &info)
}

#[test]
fn displays(rt: HostRuntime) {
    for (text, place, want) in ROWS.iter() {
        let kind = SyntaxErrorKind::Lexical(LexicalKind::InvalidChar);
        let fault = fault(&rt, rt.alloc(), text, *place, kind);
        let got = format!(in rt.alloc(); "{fault}").expect(&rt, "memory");
        let want = format!(in rt.alloc(); "SyntaxError: InvalidChar\n    at file:///a.js:{want}");
        assert_eq!(rt; got.as_str(), want.expect(&rt, "memory").as_str());
    }
}

#[test]
fn several(rt: HostRuntime) {
    let mut faults = Vec::new(rt.alloc());
    for place in 0..2 {
        let fault = fault(&rt, rt.alloc(), "a b", place, SyntaxErrorKind::Syntax);
        faults.push(fault).expect(&rt, "memory");
    }
    let error = ParseDiagnosticsError(faults);
    let got = format!(in rt.alloc(); "{error}").expect(&rt, "memory");
    let want =
        "SyntaxError: Syntax\n    at file:///a.js:1:1\n\nSyntaxError: Syntax\n    at file:///a.js:1:2";
    assert_eq!(rt; got.as_str(), want);
}

#[test]
fn compares(rt: HostRuntime) {
    let alloc = rt.alloc();
    let kind = SyntaxErrorKind::Lexical(LexicalKind::InvalidChar);
    let first = fault(&rt, alloc, "ab", 0, kind);
    let copy = first.copy().expect(&rt, "memory");
    assert!(rt; first == copy);
    let second = fault(&rt, alloc, "ab", 1, kind);
    assert!(rt; first != second);
    let stop = fault(&rt, alloc, "ab", 0, SyntaxErrorKind::Syntax);
    assert!(rt; first != stop);
    let later = fault(&rt, alloc, "ab", 1, SyntaxErrorKind::Syntax);
    assert!(rt; stop != later);
}
