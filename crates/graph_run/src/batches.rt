//! What is due for an input whose modules come in batches, where the analyses of a batch run in threads.
ghost use Rattle.std.specs.Prelude.{◌≡◌, ◌≤◌, ◌<◌, ℕ, List, length, map, Ok, Err, IfOk, IfErr, string_bytes};
ghost use Rattle.serde_json.specs.Data.{Data};
ghost use Rattle.graph_bundle.specs.Bundle.{IsJson, bundle_of};
ghost use Rattle.graph_entry.specs.Referrer.{referred_by};
ghost use Rattle.graph_builder.specs.Graph.{IsGraph};
ghost use Rattle.graph_builder.specs.Memory.{tells, data_of};
ghost use Rattle.graph_builder.specs.Builder.{starts};
ghost use Rattle.counted_io.specs.Transfer.{input_limit};
ghost use Rattle.graph_run.specs.Telling.{told_by};
ghost use Rattle.graph_run.specs.Run.{IsDueOf, IsGraphOf, bundle_rules, bundle_starts};
ghost use Rattle.graph_run.specs.Steps.{IsNew, IsUnforced, SaysLarge, built_rules, built_resolves};

use crate::verdict::{
    BundleBuild, Due, Telling, due_for_end, due_for_fault, is_not_yet, new_build,
};
use deno_graph::{BuildError, ModuleGraph};
use graph_bundle::{Bundle, BundleFault, take_bundle};
use std::alloc::{AllocError, Global};
use std::thread::Threads;

/// What is due for an input that is not too long, where this is reported of its graph. The input is freed once its JSON
/// is read, before the texts of its modules are made.
pub fn due_batched<R: Threads + Sync>(
    rt: &R,
    alloc: Global,
    bytes: Vec<u8>,
    telling: Telling,
    batch: u32,
) -> Result<Due, AllocError>
    requires within { length bytes.items ≤ input_limit }
    requires size { 1 ≤ batch }
    ensures { IfOk result (λ due. IsDueOf (told_by telling) bytes.items due.status (string_bytes due.text)) }
{
    match read_once(alloc, bytes) {
        Ok(bundle) => due_for_end(
            alloc,
            build_batched(rt, alloc, bundle, batch as usize),
            telling,
        ),
        Err(fault) => due_for_fault(alloc, fault),
    }
}

/// The bundle that the bytes say, which are given back once their JSON is read.
pub fn read_once(alloc: Global, bytes: Vec<u8>) -> Result<Bundle, BundleFault>
    ensures bundle { IfOk result (λ b. (value : Data) × IsJson bytes.items value × (bundle_of value ≡ Ok b)) }
    ensures unforced { IfOk result IsUnforced }
    ensures not_json { result ≡ Err BundleFault.NotJson → (value : Data) → ¬ IsJson bytes.items value }
    ensures pointer { (at : List ℕ) → result ≡ Err (BundleFault.Pointer at) →
        (value : Data) × IsJson bytes.items value × (bundle_of value ≡ Err at) }
{
    take_bundle(alloc, bytes)
}

/// The graph of a bundle, as `build` makes it.
pub fn build_batched<R: Threads + Sync>(
    rt: &R,
    alloc: Global,
    bundle: Bundle,
    batch: usize,
) -> Result<ModuleGraph, BuildError>
    requires unforced { IsUnforced bundle }
    requires size { 0 < batch }
    ensures graph { IfOk result (IsGraphOf bundle) }
    ensures large { IfErr result
        (SaysLarge (bundle_rules bundle) (bundle_starts bundle) (tells bundle.modules) bundle.options.limit) }
{
    let mut build = new_build(alloc, bundle)?;
    poll_batches(rt, &mut build, batch)
}

/// Polls by batches until there is another answer than `NotYet`.
pub fn poll_batches<R: Threads + Sync>(
    rt: &R,
    build: &mut BundleBuild,
    batch: usize,
) -> Result<ModuleGraph, BuildError>
    requires new { IsNew (data_of build.old.inner.loader) build.old.inner }
    requires size { 0 < batch }
    ensures graph { IfOk result (λ graph. IsGraph (built_rules build.old.inner) (starts build.old.inner)
        (tells build.old.inner.loader.modules) graph.entries) }
    ensures roots { IfOk result (λ graph. graph.roots ≡ build.old.inner.roots) }
    ensures imports { IfOk result (λ graph.
        graph.imports ≡ map (referred_by (built_resolves build.old.inner)) build.old.inner.imports) }
    ensures within { IfOk result (λ graph. length graph.entries ≤ build.old.inner.limit) }
    ensures large { IfErr result (SaysLarge (built_rules build.old.inner) (starts build.old.inner)
        (tells build.old.inner.loader.modules) build.old.inner.limit) }
{
    'polls: loop {
        let answer = build.poll_batched(rt, batch);
        if !is_not_yet(&answer) {
            return answer;
        }
    }
}
