//! Orders of many modules, and what the checkers of orders and of cycles say. Small graphs are rows of examples/rows/orders.rows.

use crate::graphs::{named, options, urls};
use base::{Items, SharedBytes};
use deno_graph::{GraphBuild, GraphKind, Headers, LoadAnswer, MemoryLoader, ModuleGraph};
use graph_order::{Order, check_cycle, check_order, order};
use std::alloc::Global;
use std::process::Abort;
use url::Url;

/// How many modules a chain and a ring have.
const MANY: u32 = 2_000;

// A module that imports the next one by its number; the text of the last one is given.
fn module(rt: &impl Abort, alloc: Global, number: u32, last: &str) -> (Url, LoadAnswer) {
    let name = format!(in alloc; "{number}.ts").expect(rt, "memory");
    let text = match number.wrapping_add(1) {
        MANY => String::from_str(alloc, last),
        next => format!(in alloc; "import \"./{next}.ts\";"),
    };
    let text = text.expect(rt, "memory");
    let answer = LoadAnswer::Content {
        headers: Headers::new(alloc),
        bytes: SharedBytes::from_slice(alloc, text.as_bytes()).expect(rt, "memory"),
    };
    (named(rt, alloc, name.as_str()), answer)
}

// The graph of all of them.
fn graph(rt: &impl Abort, alloc: Global, last: &str) -> ModuleGraph {
    let mut modules = Items::new(alloc);
    for number in 0..MANY {
        let module = module(rt, alloc, number, last);
        modules.push(module).expect(rt, "memory");
    }
    let loader = MemoryLoader::new(alloc, modules, Items::new(alloc)).expect(rt, "memory");
    let roots = urls(rt, alloc, &["0.ts"]);
    let build = GraphBuild::new(alloc, roots, options(alloc, GraphKind::All, 20_000), loader);
    build.expect(rt, "memory").poll().expect(rt, "a graph")
}

// What the checkers say of it, and of it without its last item.
fn checked(rt: &impl Abort, alloc: Global, graph: &ModuleGraph, found: &Order) -> (bool, bool) {
    match found {
        Order::Sorted(list) => {
            let whole = list.as_slice();
            let yes = check_order(alloc, graph, whole).expect(rt, "memory");
            let part = whole.split_last().map(|parts| parts.1).unwrap_or(whole);
            (yes, check_order(alloc, graph, part).expect(rt, "memory"))
        }
        Order::Cycle(cycle) => {
            let whole = cycle.as_slice();
            let yes = check_cycle(alloc, graph, whole).expect(rt, "memory");
            let part = whole.split_last().map(|parts| parts.1).unwrap_or(whole);
            (yes, check_cycle(alloc, graph, part).expect(rt, "memory"))
        }
    }
}

#[test]
fn many_in_a_chain_and_in_a_ring(rt: HostRuntime) {
    let alloc = rt.alloc();
    for (last, want) in [
        ("export {};", "file:///1999.ts"),
        ("import \"./0.ts\";", "file:///0.ts"),
    ] {
        let graph = graph(&rt, alloc, last);
        let found = order(alloc, &graph).expect(&rt, "memory");
        let (len, first) = match &found {
            Order::Sorted(list) => (list.len(), list.as_slice().first()),
            Order::Cycle(cycle) => (cycle.len(), cycle.as_slice().first().map(|e| &e.module)),
        };
        assert_eq!(rt; len, 2_000);
        assert!(rt; first.map(|url| url.as_str()) == Some(want));
        assert!(rt; checked(&rt, alloc, &graph, &found) == (true, false));
        assert!(rt; !check_order(alloc, &graph, &[]).expect(&rt, "memory"));
        assert!(rt; !check_cycle(alloc, &graph, &[]).expect(&rt, "memory"));
    }
}
