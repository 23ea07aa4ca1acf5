//! How a program builds a module graph from modules of its own: a loader (`src/loader.rt`), options, and the loop over
//! `poll` (`src/polls.rt`). It prints each module of the graph and where its edges lead (`src/told.rt`).
#![tactic(auto)]

mod loader;
mod polls;
mod told;

use crate::loader::CountingLoader;
use crate::polls::poll_for;
use crate::told::lines;
use base::Items;
use deno_graph::{BuildOptions, GraphBuild, GraphKind};
use std::alloc::{AllocError, Global};
use url::Url;

fn main(rt: HostRuntime) -> anyhow::Result<()> {
    let alloc = rt.alloc();
    let mut build = begin(alloc)?;
    let graph = poll_for(&mut build, 1_000)?;
    let told = lines(alloc, &graph)?;
    let requests = build.loader().requests();
    print!(rt; "{}{requests} modules were asked for\n", told.as_str())?;
    Ok(())
}

/// A build of the graph of one root.
fn begin(alloc: Global) -> anyhow::Result<GraphBuild<CountingLoader>> {
    let mut roots = Items::new(alloc);
    roots.push(Url::parse(alloc, "file:///app/main.ts")?)?;
    let options = BuildOptions {
        kind: GraphKind::All,
        limit: 100,
        skip_dynamic_deps: false,
        imports: Items::new(alloc),
    };
    let loader = CountingLoader::new(alloc)?;
    let build = GraphBuild::new(alloc, roots, options, loader);
    Ok(build.map_err(AllocError::from)?)
}
