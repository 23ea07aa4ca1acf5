//! What is due for an input: the report of its graph, or the line of a refusal.
ghost use Rattle.std.specs.Prelude.{◌≡◌, ◌≤◌, ◌↔◌, Err, length, map, IfOk, IfErr, IsTrue, string_bytes};
ghost use Rattle.url.specs.Parts.{Parts};
ghost use Rattle.graph_builder.specs.Graph.{IsGraph};
ghost use Rattle.graph_entry.specs.Referrer.{referred_by};
ghost use Rattle.graph_builder.specs.Memory.{tells, data_of};
ghost use Rattle.graph_builder.specs.Builder.{new_building, new_building_by, starts};
ghost use Rattle.counted_io.specs.Transfer.{input_limit};
ghost use Rattle.graph_run.specs.Telling.{told_by};
ghost use Rattle.graph_run.specs.Run.{IsDue, IsGraphOf, bundle_rules, bundle_starts, no_bundle_line, too_many_line};
ghost use Rattle.graph_run.specs.Steps.{OfFault, IsEnd, OfEnd, IsFresh, IsNew, IsUnforced, SaysLarge, mapped_ways, mapped_resolves, bundle_ways, built_rules, built_resolves};

use crate::resolver::BundleResolver;
use crate::status::Status;
use base::{Items, Text};
use deno_graph::{
    BuildError, BuildOptions, CustomBuild, GraphBuild, ModuleGraph, ParserModuleAnalyzer,
    UnloggedLoader,
};
use graph_bundle::{Bundle, BundleFault, read_bundle};
use graph_report::{add_quoted, order_lines, report, summary};
use import_map::ImportMap;
use std::alloc::{AllocError, Global};
use url::Url;

/// How the run ends once the text is written.
#[derive(Drop)]
pub struct Due {
    pub status: Status,
    pub text: String,
}

/// What is reported of a graph.
#[derive(Clone, Copy)]
pub enum Telling {
    /// Its report.
    Report,
    /// How many entries, edges and faults it has.
    Counts,
    /// The order of its modules, or a cycle of them.
    Order,
}

/// What is due for an input that is not too long: the report of its graph. No thread is started.
pub fn due_for(alloc: Global, bytes: &[u8]) -> Result<Due, AllocError>
    requires { length bytes.now ≤ input_limit }
    ensures { IfOk result (λ due. IsDue bytes.now due.status (string_bytes due.text)) }
{
    match read_bundle(alloc, bytes) {
        Ok(bundle) => due_for_end(alloc, build(alloc, bundle), Telling::Report),
        Err(fault) => due_for_fault(alloc, fault),
    }
}

/// What is due for bytes that are no bundle.
pub fn due_for_fault(alloc: Global, fault: BundleFault) -> Result<Due, AllocError>
    ensures { IfOk result (λ due. OfFault fault due.status (string_bytes due.text)) }
{
    match fault {
        BundleFault::NotJson => refusal(alloc, "error NotJson\n"),
        BundleFault::Pointer(at) => no_bundle(alloc, at),
        BundleFault::OutOfMemory => Err(AllocError),
    }
}

/// That the first thing at fault is at this pointer.
fn no_bundle(alloc: Global, at: Text) -> Result<Due, AllocError>
    ensures { IfOk result (λ due. (due.status ≡ Status.BadInput) × (string_bytes due.text ≡ no_bundle_line at)) }
{
    let mut text = String::from_str(alloc, "error Bundle ")?;
    add_quoted(alloc, &mut text, at.as_str())?;
    text.push_str("\n")?;
    Ok(Due {
        status: Status::BadInput,
        text,
    })
}

/// The line of a refusal of the input.
pub fn refusal(alloc: Global, line: &str) -> Result<Due, AllocError>
    ensures { IfOk result (λ due. (due.status ≡ Status.BadInput) × (string_bytes due.text ≡ line.now)) }
{
    Ok(Due {
        status: Status::BadInput,
        text: String::from_str(alloc, line)?,
    })
}

/// What is due where the builder of a bundle's graph has ended.
pub fn due_for_end(
    alloc: Global,
    end: Result<ModuleGraph, BuildError>,
    telling: Telling,
) -> Result<Due, AllocError>
    requires { IsEnd end }
    ensures { IfOk result (λ due. OfEnd (told_by telling) end due.status (string_bytes due.text)) }
{
    match end {
        Ok(graph) => done(alloc, &graph, telling),
        Err(BuildError::TooManyModules { seen }) => too_large(alloc, seen),
        Err(BuildError::OutOfMemory) => Err(AllocError),
        Err(BuildError::NotYet) => unreachable!(),
        Err(BuildError::UnaskedAnswer(_)) => unreachable!(),
        Err(BuildError::Finished) => unreachable!(),
    }
}

fn done(alloc: Global, graph: &ModuleGraph, telling: Telling) -> Result<Due, AllocError>
    ensures { IfOk result (λ due. (due.status ≡ Status.Done) × told_by telling graph.now (string_bytes due.text)) }
{
    Ok(Due {
        status: Status::Done,
        text: told_text(alloc, graph, telling)?,
    })
}

fn told_text(alloc: Global, graph: &ModuleGraph, telling: Telling) -> Result<String, AllocError>
    ensures { IfOk result (λ text. told_by telling graph.now (string_bytes text)) }
{
    match telling {
        Telling::Report => report(alloc, graph),
        Telling::Counts => summary(alloc, graph),
        Telling::Order => order_lines(alloc, graph),
    }
}

fn too_large(alloc: Global, seen: usize) -> Result<Due, AllocError>
    ensures { IfOk result (λ due. (due.status ≡ Status.BuildRefused) × (string_bytes due.text ≡ too_many_line seen)) }
{
    Ok(Due {
        status: Status::BuildRefused,
        text: format!(in alloc; "error TooManyModules {seen}\n")?,
    })
}

/// The graph of a bundle. A loader in memory without a forced answer answers only what it is asked for, so the
/// errors left are a bundle that is too large and `OutOfMemory`.
fn build(alloc: Global, bundle: Bundle) -> Result<ModuleGraph, BuildError>
    requires { IsUnforced bundle }
    ensures graph { IfOk result (IsGraphOf bundle) }
    ensures large { IfErr result
        (SaysLarge (bundle_rules bundle) (bundle_starts bundle) (tells bundle.modules) bundle.options.limit) }
{
    let mut build = new_build(alloc, bundle)?;
    poll_to_end(&mut build)
}

/// A builder of the graph of a bundle.
pub type BundleBuild = CustomBuild<UnloggedLoader, BundleResolver, ParserModuleAnalyzer>;

/// A builder of the graph of a bundle, over a loader in memory that has its modules. Its import map resolves.
pub fn new_build(alloc: Global, bundle: Bundle) -> Result<BundleBuild, BuildError>
    requires { IsUnforced bundle }
    ensures new { IfOk result (λ build. IsNew (data_of build.inner.loader) build.inner) }
    ensures ways { IfOk result (λ build. build.inner.following ≡ bundle_ways bundle) }
    ensures roots { IfOk result (λ build. build.inner.roots ≡ bundle.roots) }
    ensures imports { IfOk result (λ build. build.inner.imports ≡ bundle.options.imports) }
    ensures starts { IfOk result (λ build. starts build.inner ≡ bundle_starts bundle) }
    ensures limit { IfOk result (λ build. build.inner.limit ≡ bundle.options.limit) }
    ensures modules { IfOk result (λ build. build.inner.loader.modules ≡ bundle.modules) }
    ensures fresh { IfOk result (λ build. IsFresh (data_of build.inner.loader)) }
    ensures refused { IfErr result (λ e. e ≡ BuildError.OutOfMemory) }
{
    let Bundle {
        roots,
        options,
        modules,
        arrival,
        import_map,
    } = bundle;
    let loader = UnloggedLoader::numbered(alloc, modules, arrival);
    let build = plain_build(alloc, roots, options, loader)?;
    mapped_build(build, import_map)
}

/// A builder of the graph of these roots over a loader, without a map.
fn plain_build(
    alloc: Global,
    roots: Items<Url>,
    options: BuildOptions,
    loader: UnloggedLoader,
) -> Result<GraphBuild<UnloggedLoader>, BuildError>
    ensures new { IfOk result (λ build. build.inner ≡ new_building roots options loader (data_of loader)) }
    ensures refused { IfErr result (λ e. e ≡ BuildError.OutOfMemory) }
{
    GraphBuild::new(alloc, roots, options, loader).map_err(|_| BuildError::OutOfMemory)
}

/// The same builder with a map, if there is one.
fn mapped_build(
    build: GraphBuild<UnloggedLoader>,
    map: Option<ImportMap>,
) -> Result<BundleBuild, BuildError>
    ensures new { IfOk result (λ b. b.inner ≡ new_building_by (mapped_ways build.inner.following map)
        (mapped_resolves map) build.inner.roots build.inner.imports build.inner.limit build.inner.loader
        (data_of build.inner.loader)) }
    ensures refused { IfErr result (λ e. e ≡ BuildError.OutOfMemory) }
{
    build
        .with_resolver(BundleResolver { map })
        .map_err(|_| BuildError::OutOfMemory)
}

/// Polls until there is another answer than `NotYet`.
fn poll_to_end(build: &mut BundleBuild) -> Result<ModuleGraph, BuildError>
    requires { IsNew (data_of build.old.inner.loader) build.old.inner }
    ensures graph { IfOk result (λ graph. IsGraph (built_rules build.old.inner) (starts build.old.inner)
        (tells build.old.inner.loader.modules) graph.entries) }
    ensures roots { IfOk result (λ graph. graph.roots ≡ build.old.inner.roots) }
    ensures imports { IfOk result (λ graph.
        graph.imports ≡ map (referred_by (built_resolves build.old.inner)) build.old.inner.imports) }
    ensures within { IfOk result (λ graph. length graph.entries ≤ build.old.inner.limit) }
    ensures large { IfErr result (SaysLarge (built_rules build.old.inner) (starts build.old.inner)
        (tells build.old.inner.loader.modules) build.old.inner.limit) }
{
    'polls: loop {
        let answer = build.poll();
        if !is_not_yet(&answer) {
            return answer;
        }
    }
}

/// Whether the builder wants to be polled again.
pub fn is_not_yet(answer: &Result<ModuleGraph, BuildError>) -> bool
    ensures { IsTrue result ↔ (answer.now ≡ Err BuildError.NotYet) }
{
    matches!(answer, Err(BuildError::NotYet))
}
