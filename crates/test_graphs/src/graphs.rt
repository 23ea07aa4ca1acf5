//! Graphs of small bundles.
ghost use Rattle.std.specs.Prelude.{◌≡◌, []};

use crate::endless::Endless;
use base::{Items, SharedBytes};
use deno_graph::{
    Arrival, BuildError, BuildOptions, Entry, GraphBuild, GraphKind, Headers, LoadAnswer, Loader,
    MemoryLoader, Module, ModuleGraph,
};
use graph_run::{Failed, report};
use std::alloc::{AllocError, Global};
use std::process::Abort;
use url::Url;

/// What a graph is built of: its kind and limit, its roots, the texts and the redirects of specifiers, and the forced
/// arrivals. Specifiers are names of files; `-` is an arrival of nothing, and any other letter that of a `.ts`.
pub type Given = (
    GraphKind,
    usize,
    &'static [&'static str],
    &'static [(&'static str, &'static str)],
    &'static [(&'static str, &'static str)],
    &'static str,
);

pub const A: &[&str] = &["a.ts"];

const A_OF_B: &[(&str, &str)] = &[("a.ts", "import './b.ts'")];

pub const A_OF_B_OF_C: &[(&str, &str)] = &[
    ("a.ts", "import './b.ts'"),
    ("b.ts", "import './c.ts'"),
];

pub const ALL: GraphKind = GraphKind::All;

/// What is given, and the answers of two polls with the number of requests.
const GRAPHS: &[(Given, &str)] = &[
    (
        (ALL, 9, A, A_OF_B, &[], ""),
        "1 a.ts Module b.ts Missing|finished|2",
    ),
    ((ALL, 0, &[], A_OF_B, &[], ""), "0|finished|0"),
    ((ALL, 2, A, A_OF_B_OF_C, &[], ""), "too many 3|finished|2"),
    (
        (ALL, 9, A, A_OF_B, &[], "-"),
        "not yet|1 a.ts Module b.ts Missing|2",
    ),
    (
        (ALL, 9, A, A_OF_B, &[], "ab"),
        "1 a.ts Module b.ts Missing|finished|2",
    ),
    ((ALL, 9, A, A_OF_B, &[], "z"), "unasked z.ts|finished|1"),
    ((ALL, 9, A, A_OF_B, &[], "aa"), "unasked a.ts|finished|2"),
    ((ALL, 9, A, A_OF_B, &[], "az"), "unasked z.ts|finished|2"),
    // Behind the last answer that is awaited nothing is polled.
    (
        (ALL, 9, A, A_OF_B, &[], "abz"),
        "1 a.ts Module b.ts Missing|finished|2",
    ),
    (
        (ALL, 9, A, &[], &[("a.ts", "a.ts")], ""),
        "1 a.ts TooManyRedirects|finished|1",
    ),
    (
        (ALL, 9, A, &[], &[("a.ts", "b.ts"), ("b.ts", "a.ts")], ""),
        "1 a.ts TooManyRedirects b.ts TooManyRedirects|finished|2",
    ),
    (
        (
            ALL,
            9,
            A,
            &[],
            &[("a.ts", "b.ts"), ("b.ts", "c.ts"), ("c.ts", "a.ts")],
            "",
        ),
        "1 a.ts TooManyRedirects b.ts TooManyRedirects c.ts TooManyRedirects|finished|3",
    ),
    (
        (
            ALL,
            9,
            A,
            &[("v/c.ts", "import '../d.ts'")],
            &[("a.ts", "v/c.ts"), ("d.ts", "v/c.ts")],
            "",
        ),
        "1 a.ts Redirect d.ts Redirect v/c.ts Module|finished|3",
    ),
    (
        (GraphKind::CodeOnly, 9, A, A_OF_B, &[], ""),
        "1 a.ts Module b.ts Missing|finished|2",
    ),
    (
        (GraphKind::TypesOnly, 9, A, A_OF_B, &[], ""),
        "1 a.ts Module b.ts Missing|finished|2",
    ),
    (
        (
            GraphKind::TypesOnly,
            9,
            &["a.js"],
            &[("a.js", "import './b.ts'")],
            &[],
            "",
        ),
        "1 a.js Module|finished|1",
    ),
];

const TWELVE: &[&str] = &[
    "a.ts", "b.ts", "c.ts", "d.ts", "e.ts", "f.ts", "g.ts", "h.ts", "i.ts", "j.ts", "k.ts", "l.ts",
];

const CHAIN: &[(&str, &str)] = &[
    ("a.ts", "b.ts"),
    ("b.ts", "c.ts"),
    ("c.ts", "d.ts"),
    ("d.ts", "e.ts"),
    ("e.ts", "f.ts"),
    ("f.ts", "g.ts"),
    ("g.ts", "h.ts"),
    ("h.ts", "i.ts"),
    ("i.ts", "j.ts"),
    ("j.ts", "k.ts"),
    ("k.ts", "l.ts"),
];

/// What a redirect from `b.ts` leads to, and the edge to it in the report.
const ATTRIBUTES: &[(&str, &str)] = &[
    ("b.ts", "-> file:///b.ts"),
    ("b.json", "! InvalidTypeAssertion"),
    ("b.txt", "-> file:///b.ts"),
    ("b.wasm", "-> file:///b.ts"),
];

pub fn named(rt: &impl Abort, alloc: Global, name: &str) -> Url {
    let text = format!(in alloc; "file:///{name}").expect(rt, "memory");
    Url::parse(alloc, text.as_str()).expect(rt, "a URL")
}

// The answers with these texts and redirects.
pub fn modules(
    rt: &impl Abort,
    alloc: Global,
    texts: &[(&str, &str)],
    redirects: &[(&str, &str)],
) -> Items<(Url, LoadAnswer)> {
    let mut modules = Items::new(alloc);
    for (name, text) in texts {
        let answer = LoadAnswer::Content {
            headers: Headers::new(alloc),
            bytes: SharedBytes::from_slice(alloc, text.as_bytes()).expect(rt, "memory"),
        };
        let module = (named(rt, alloc, name), answer);
        modules.push(module).expect(rt, "memory");
    }
    for (name, target) in redirects {
        let answer = LoadAnswer::Redirect(named(rt, alloc, target));
        let module = (named(rt, alloc, name), answer);
        modules.push(module).expect(rt, "memory");
    }
    modules
}

pub fn arrivals(rt: &impl Abort, alloc: Global, letters: &str) -> Items<Arrival> {
    let mut items = Items::new(alloc);
    for letter in letters.chars() {
        let item = match letter {
            '-' => Arrival::Pending,
            _ => {
                let name = format!(in alloc; "{letter}.ts").expect(rt, "memory");
                Arrival::Force(named(rt, alloc, name.as_str()))
            }
        };
        items.push(item).expect(rt, "memory");
    }
    items
}

pub fn urls(rt: &impl Abort, alloc: Global, names: &[&str]) -> Items<Url> {
    let mut urls = Items::new(alloc);
    for name in names {
        urls.push(named(rt, alloc, name)).expect(rt, "memory");
    }
    urls
}

pub fn options(alloc: Global, kind: GraphKind, limit: usize) -> BuildOptions
    ensures { result.imports ≡ [] }
{
    BuildOptions {
        kind,
        limit,
        skip_dynamic_deps: false,
        imports: Items::new(alloc),
    }
}

pub fn builder(rt: &impl Abort, alloc: Global, given: &Given) -> GraphBuild<MemoryLoader> {
    let (kind, limit, roots, texts, redirects, letters) = *given;
    let modules = modules(rt, alloc, texts, redirects);
    let loader = MemoryLoader::new(alloc, modules, arrivals(rt, alloc, letters));
    let roots = urls(rt, alloc, roots);
    let options = options(alloc, kind, limit);
    GraphBuild::new(alloc, roots, options, loader.expect(rt, "memory")).expect(rt, "memory")
}

// What a poll answers: the specifiers with what they are, or the error.
fn polled<L: Loader + Drop>(
    alloc: Global,
    build: &mut GraphBuild<L>,
) -> Result<String, AllocError> {
    match build.poll() {
        Ok(graph) => line_of(alloc, &graph),
        Err(BuildError::TooManyModules { seen }) => format!(in alloc; "too many {seen}"),
        Err(BuildError::UnaskedAnswer(url)) => format!(in alloc; "unasked {}", name_of(&url)),
        Err(BuildError::NotYet) => String::from_str(alloc, "not yet"),
        Err(BuildError::Finished) => String::from_str(alloc, "finished"),
        Err(BuildError::OutOfMemory) => Err(AllocError),
    }
}

fn name_of(url: &Url) -> &str {
    let text = url.as_str();
    text.strip_prefix("file:///").unwrap_or(text)
}

fn line_of(alloc: Global, graph: &ModuleGraph) -> Result<String, AllocError> {
    let mut line = format!(in alloc; "{}", graph.roots().len())?;
    for (specifier, entry) in graph.entries()? {
        line.push_str(" ")?;
        line.push_str(name_of(specifier))?;
        line.push_str(" ")?;
        line.push_str(word(entry))?;
    }
    Ok(line)
}

pub fn word(entry: &Entry) -> &'static str {
    match entry {
        Entry::Module(Module::Js(_)) => "Module",
        Entry::Module(Module::Json(_)) => "Json",
        Entry::Module(Module::Wasm(_)) => "Wasm",
        Entry::Error(error) => error.name(),
        Entry::Package(_) => "Package",
        Entry::Redirect(_) => "Redirect",
        Entry::External => "External",
    }
}

#[test]
fn graphs_of_the_roots(rt: HostRuntime) {
    let alloc = rt.alloc();
    for (given, want) in GRAPHS {
        let mut build = builder(&rt, alloc, given);
        let first = polled(alloc, &mut build).expect(&rt, "memory");
        let second = polled(alloc, &mut build).expect(&rt, "memory");
        let asked = build.loader().asked().len();
        let line = format!(in alloc; "{first}|{second}|{asked}").expect(&rt, "memory");
        assert_eq!(rt; line.as_str(), *want);
        assert!(rt; build.into_loader().log().len() <= asked);
    }
}

#[test]
fn endless_modules_end_at_the_limit(rt: HostRuntime) {
    let alloc = rt.alloc();
    let roots = urls(&rt, alloc, &["n/0.ts"]);
    let loader = Endless::new(alloc);
    let build = GraphBuild::new(alloc, roots, options(alloc, ALL, 5), loader);
    let mut build = build.expect(&rt, "memory");
    let first = polled(alloc, &mut build).expect(&rt, "memory");
    assert_eq!(rt; first.as_str(), "too many 6");
    assert_eq!(rt; build.loader().asked, 5);
    assert_eq!(rt; build.loader().polled, 5);
    let second = polled(alloc, &mut build).expect(&rt, "memory");
    assert_eq!(rt; second.as_str(), "finished");
    assert_eq!(rt; build.loader().asked, 5, "nothing is asked");
    assert_eq!(rt; build.loader().polled, 5, "nothing is polled");
}

#[test]
fn redirects_follow_ten_times(rt: HostRuntime) {
    let want = "12 a.ts TooManyRedirects b.ts Redirect c.ts Redirect d.ts Redirect e.ts Redirect \
f.ts Redirect g.ts Redirect h.ts Redirect i.ts Redirect j.ts Redirect k.ts Redirect l.ts Missing";
    let alloc = rt.alloc();
    for letters in ["abcdefghijkl", "lkjihgfedcba"] {
        let mut build = builder(&rt, alloc, &(ALL, 12, TWELVE, &[], CHAIN, letters));
        let line = polled(alloc, &mut build).expect(&rt, "memory");
        assert_eq!(rt; line.as_str(), want, "{letters}");
    }
}

#[test]
fn attributes_and_modules(rt: HostRuntime) {
    let alloc = rt.alloc();
    for (target, want) in ATTRIBUTES {
        let texts = [
            ("a.ts", "import './b.ts'"),
            ("b.json", ""),
            ("b.txt", ""),
            ("b.wasm", ""),
        ];
        let modules = modules(&rt, alloc, &texts, &[("b.ts", target)]);
        let loader = MemoryLoader::new(alloc, modules, Items::new(alloc)).expect(&rt, "memory");
        let build = GraphBuild::new(alloc, urls(&rt, alloc, A), options(alloc, ALL, 9), loader);
        let graph = build.expect(&rt, "memory").poll().expect(&rt, "a graph");
        let lines = report(alloc, &graph).expect(&rt, "memory");
        let line = format!(in alloc; "  import 7-15 \"./b.ts\" - {want}\n").expect(&rt, "memory");
        assert!(rt; lines.as_str().contains(line.as_str()), "{target}: {lines}");
    }
}

#[test]
fn names_of_errors(rt: HostRuntime) {
    let alloc = rt.alloc();
    for (error, want) in [
        (BuildError::NotYet, "NotYet"),
        (BuildError::TooManyModules { seen: 3 }, "TooManyModules"),
        (
            BuildError::UnaskedAnswer(named(&rt, alloc, "a")),
            "UnaskedAnswer",
        ),
        (BuildError::Finished, "Finished"),
        (BuildError::OutOfMemory, "out of memory"),
    ] {
        let shown = format!(in alloc; "{error}").expect(&rt, "memory");
        assert_eq!(rt; shown.as_str(), want);
    }
    let shown = format!(in alloc; "{Failed}").expect(&rt, "memory");
    assert_eq!(rt; shown.as_str(), "Failed");
}
