//! The rules of resolution against examples of the standards.

use graph_entry::{is_loadable, resolve};
use url::Url;

/// A referrer, a text in its module, and the target or why there is none.
const TARGETS: &[(&str, &str, &str)] = &[
    ("file:///x/a.ts", "./b.ts", "file:///x/b.ts"),
    ("file:///x/a.ts", "../b.ts", "file:///b.ts"),
    ("file:///x/a.ts", "/b.ts", "file:///b.ts"),
    ("file:///x/a.ts", "//h/b.ts", "file://h/b.ts"),
    ("https://h/a.ts", "./b.ts?q#f", "https://h/b.ts?q#f"),
    ("file:///x/a.ts", "npm:x", "npm:x"),
    ("file:///x/a.ts", "foo", "ImportPrefixMissing"),
    ("file:///x/a.ts", "..", "ImportPrefixMissing"),
    ("file:///x/a.ts", "", "ImportPrefixMissing"),
    ("file:///x/a.ts", "?q", "ImportPrefixMissing"),
    ("file:///x/a.ts", "https://", "InvalidUrl"),
    ("blob:x", "./b.ts", "InvalidUrl"),
    ("https://h/a.ts", "http://h/b.ts", "InvalidDowngrade"),
    ("https://h/a.ts", "//h/b.ts", "https://h/b.ts"),
    ("https://h/a.ts", "file:///b.ts", "InvalidLocalImport"),
    ("http://h/a.ts", "file:///b.ts", "InvalidLocalImport"),
    ("file:///a.ts", "http://h/b.ts", "http://h/b.ts"),
    ("data:text/javascript,", "file:///b.ts", "file:///b.ts"),
];

/// A specifier, and whether a loader is asked for it.
const LOADABLE: &[(&str, bool)] = &[
    ("data:,x", false),
    ("NPM:x", false),
    ("jsr:@a/b", false),
    ("file:///npm:x", true),
    ("https://h/", true),
    ("node:fs", true),
];

#[test]
fn targets(rt: HostRuntime) {
    let alloc = rt.alloc();
    for (referrer, text, want) in TARGETS {
        let referrer = Url::parse(alloc, referrer).expect(&rt, "a URL");
        match resolve(alloc, text, &referrer).expect(&rt, "memory") {
            Ok(target) => assert_eq!(rt; target.as_str(), *want, "{text}"),
            Err(error) => {
                let shown = format!(in alloc; "{error}").expect(&rt, "memory");
                assert_eq!(rt; shown.as_str(), *want, "{text}");
            }
        }
    }
    for (specifier, want) in LOADABLE {
        let specifier = Url::parse(alloc, specifier).expect(&rt, "a URL");
        assert_eq!(rt; is_loadable(&specifier), *want, "{specifier}");
    }
}
