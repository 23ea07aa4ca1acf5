//! Files of plans, written to a system in memory.

use crate::graphs::{ALL, Given, builder};
use base::{Items, Text};
use deno_graph::ParserModuleAnalyzer;
use deno_path_util::{InMemorySys, url_to_file_path};
use graph_vendor::{VendorPlan, plan_vendor, write_vendor};
use std::alloc::{AllocError, Global};
use std::str;
use url::Url;

/// What is given, and what the path of each file holds then.
const WRITTEN: &[(Given, &str)] = &[
    (
        (
            ALL,
            9,
            &["main.ts"],
            &[
                ("main.ts", "import \"./a/b.ts\";"),
                ("a/b.ts", "export {};"),
            ],
            &[],
            "",
        ),
        "written; /v/m0.ts export {};; /v/m1.ts import \"./m0.ts\";",
    ),
    (
        (
            ALL,
            9,
            &["a.js"],
            &[
                (
                    "a.js",
                    "import j from './c.json' with { type: 'json' }; import('./b.js')",
                ),
                ("c.json", "{}"),
                ("d.js", "1"),
            ],
            &[("b.js", "d.js")],
            "",
        ),
        "written; /v/m0.js import j from \"./m1.json\" with { type: 'json' }; import(\"./m2.js\"); /v/m1.json {}; /v/m2.js 1",
    ),
];

// The system has no file before.
fn written(alloc: Global, plan: &VendorPlan) -> Result<String, AllocError> {
    let mut random = Items::new(alloc);
    random.push(0x3D)?;
    let mut sys = InMemorySys::new(
        alloc,
        Items::new(alloc),
        Items::new(alloc),
        Text::from_str(alloc, "/")?,
        random,
        Items::new(alloc),
    )?;
    let mut told = match write_vendor(alloc, &mut sys, plan, 438) {
        Ok(()) => String::from_str(alloc, "written")?,
        Err(_) => String::from_str(alloc, "refused")?,
    };
    for file in plan.files.as_slice() {
        told.push_str(held(alloc, &sys, &file.target)?.as_str())?;
    }
    Ok(told)
}

fn held(alloc: Global, sys: &InMemorySys, url: &Url) -> Result<String, AllocError> {
    let Ok(path) = url_to_file_path(alloc, url) else {
        return String::from_str(alloc, "; no path");
    };
    match sys.file(path.as_str()) {
        Some(bytes) => format!(in alloc; "; {path} {}", str::from_utf8(bytes).unwrap_or("bytes")),
        None => format!(in alloc; "; {path} none"),
    }
}

#[test]
fn files_of_a_plan_are_written(rt: HostRuntime) {
    let alloc = rt.alloc();
    let base = Url::parse(alloc, "file:///v/").expect(&rt, "a URL");
    for (given, want) in WRITTEN {
        let graph = builder(&rt, alloc, given).poll().expect(&rt, "a graph");
        let told = match plan_vendor(alloc, &ParserModuleAnalyzer, &graph, &base) {
            Ok(plan) => written(alloc, &plan).expect(&rt, "memory"),
            Err(_) => String::from_str(alloc, "no plan").expect(&rt, "memory"),
        };
        assert_eq!(rt; told.as_str(), *want);
    }
}
