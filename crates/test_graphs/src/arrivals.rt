//! What a loader in memory answers, by its list of arrivals.

use base::Items;
use deno_graph::{Arrival, LoadAnswer, Loader, LoaderPoll, MemoryLoader};
use std::alloc::{AllocError, Global};
use std::process::Abort;
use url::Url;

/// A list of arrivals, and what five polls answer.
const ARRIVALS: &[(&str, &str)] = &[
    ("", "/a+/b?/c?--"),
    ("cb", "/c?/b?/a+--"),
    ("dcc", "/c?/a+/b?--"),
    ("-b-", "-/b?-/a+/c?"),
    ("A", "/a+/b?/c?--"),
    ("DaA", "/d?/a+/a+/b?/c?"),
];

fn named(rt: &impl Abort, alloc: Global, name: char) -> Url {
    let text = format!(in alloc; "https://e/{name}").expect(rt, "memory");
    Url::parse(alloc, text.as_str()).expect(rt, "a URL")
}

// A small letter is an answer, a capital one a forced answer of that letter, and `-` is nothing.
fn arrivals(rt: &impl Abort, alloc: Global, letters: &str) -> Items<Arrival> {
    let mut items = Items::new(alloc);
    for letter in letters.chars() {
        let item = match letter {
            '-' => Arrival::Pending,
            'A' => Arrival::Force(named(rt, alloc, 'a')),
            'D' => Arrival::Force(named(rt, alloc, 'd')),
            _ => Arrival::Answer(named(rt, alloc, letter)),
        };
        items.push(item).expect(rt, "memory");
    }
    items
}

// Two modules with the specifier `a`, and requests for `a`, `b` and `c`.
fn asked(rt: &impl Abort, alloc: Global, letters: &str) -> MemoryLoader {
    let mut modules = Items::new(alloc);
    for answer in [LoadAnswer::External, LoadAnswer::Failed] {
        let module = (named(rt, alloc, 'a'), answer);
        modules.push(module).expect(rt, "memory");
    }
    let arrivals = arrivals(rt, alloc, letters);
    let mut loader = MemoryLoader::new(alloc, modules, arrivals).expect(rt, "memory");
    for name in "abc".chars() {
        loader.start(&named(rt, alloc, name)).expect(rt, "memory");
    }
    loader
}

// One poll: the path that is answered, with `+` where a module is external and `?` where there is none.
fn push_poll(line: &mut String, loader: &mut MemoryLoader) -> Result<(), AllocError> {
    match loader.poll()? {
        LoaderPoll::Pending => line.push('-'),
        LoaderPoll::Answer(url, answer) => {
            line.push_str(url.path())?;
            line.push(mark(&answer))
        }
    }
}

fn mark(answer: &LoadAnswer) -> char {
    match answer {
        LoadAnswer::External => '+',
        LoadAnswer::Absent => '?',
        LoadAnswer::Content { .. } | LoadAnswer::Redirect(_) | LoadAnswer::Failed => '!',
    }
}

#[test]
fn answers_come_in_the_order_of_the_arrival_list(rt: HostRuntime) {
    let alloc = rt.alloc();
    for (letters, want) in ARRIVALS {
        let mut loader = asked(&rt, alloc, letters);
        let mut line = String::new(alloc);
        for _ in 0..5 {
            push_poll(&mut line, &mut loader).expect(&rt, "memory");
        }
        assert_eq!(rt; line.as_str(), *want, "at {letters}");
    }
}
