//! The graph of a bundle with choices.
ghost use Rattle.std.specs.Prelude.{◌≡◌, ◌≤◌, ◌<◌, length, map, IfOk, IfErr};
ghost use Rattle.graph_entry.specs.Referrer.{referrer_resolves, referred_by, starts_by};
ghost use Rattle.graph_builder.specs.Graph.{IsGraph};
ghost use Rattle.graph_builder.specs.Builder.{starts};
ghost use Rattle.graph_builder.specs.Memory.{tells, data_of};
ghost use Rattle.graph_run.specs.Run.{bundle_starts};
ghost use Rattle.graph_run.specs.Steps.{IsFresh, IsNew, IsUnforced, SaysLarge};
ghost use Rattle.forms_build.specs.Forms.{IsGraphOf, forms_rules, resolves_of, rules_in, ways_reading, reread};

use crate::bundle::FormsBundle;
use crate::resolver::FormsResolver;
use deno_graph::{BuildError, CustomBuild, ModuleGraph, UnloggedLoader};
use forms_analyzer::FormsAnalyzer;
use graph_bundle::{Bundle, ChosenBundle};
use graph_entry::KindResolver;
use graph_run::{BundleBuild, is_not_yet, new_build};
use std::alloc::{AllocError, Global};
use std::thread::Threads;

/// A builder with such an analyser, whatever resolves.
type FormsBuild<R> = CustomBuild<UnloggedLoader, R, FormsAnalyzer>;

/// The graph of a bundle with choices, whose modules are analysed in batches of so many, in threads.
pub fn build_forms<T: Threads + Sync>(
    rt: &T,
    alloc: Global,
    forms: FormsBundle,
    batch: usize,
) -> Result<ModuleGraph, BuildError>
    requires unforced { IsUnforced forms.chosen.bundle }
    requires size { 0 < batch }
    ensures graph { IfOk result (IsGraphOf forms) }
    ensures large { IfErr result (SaysLarge (forms_rules forms) (bundle_starts forms.chosen.bundle)
        (tells forms.chosen.bundle.modules) forms.chosen.bundle.options.limit) }
{
    let FormsBundle {
        chosen,
        forms,
        all_forms,
        require_map,
    } = forms;
    let ChosenBundle {
        bundle,
        json_without_attribute,
    } = chosen;
    let Bundle {
        roots,
        options,
        modules,
        arrival,
        import_map: map,
    } = bundle;
    let unmapped = Bundle {
        roots,
        options,
        modules,
        arrival,
        import_map: None,
    };
    let plain = new_build(alloc, unmapped)?;
    let resolver = FormsResolver { map, require_map };
    let analyzer = FormsAnalyzer { forms, all_forms };
    graph_by(rt, plain, json_without_attribute, resolver, analyzer, batch)
}

/// The graph of what a builder is of, where an import without an attribute may be of JSON, or may not, by this resolver and
/// analyser.
fn graph_by<T: Threads + Sync, R: KindResolver + Drop + Sync>(
    rt: &T,
    build: BundleBuild,
    is_allowed: bool,
    resolver: R,
    analyzer: FormsAnalyzer,
    batch: usize,
) -> Result<ModuleGraph, BuildError>
    requires fresh { IsFresh (data_of build.inner.loader) }
    requires size { 0 < batch }
    ensures graph { IfOk result (λ graph. IsGraph
        (rules_in R.resolving_by_kind (ways_reading is_allowed resolver analyzer build.inner.following.following))
        (starts_by (referrer_resolves (R.resolving_by_kind resolver)) build.inner.roots build.inner.imports)
        (tells build.inner.loader.modules) graph.entries) }
    ensures roots { IfOk result (λ graph. graph.roots ≡ build.inner.roots) }
    ensures imports { IfOk result (λ graph.
        graph.imports ≡ map (referred_by (referrer_resolves (R.resolving_by_kind resolver))) build.inner.imports) }
    ensures within { IfOk result (λ graph. length graph.entries ≤ build.inner.limit) }
    ensures large { IfErr result (SaysLarge
        (rules_in R.resolving_by_kind (ways_reading is_allowed resolver analyzer build.inner.following.following))
        (starts_by (referrer_resolves (R.resolving_by_kind resolver)) build.inner.roots build.inner.imports)
        (tells build.inner.loader.modules) build.inner.limit) }
{
    let mut build = reading(build, is_allowed, resolver, analyzer)?;
    poll_forms(rt, &mut build, batch)
}

/// The same builder that goes by these.
fn reading<R: KindResolver + Drop>(
    build: BundleBuild,
    is_allowed: bool,
    resolver: R,
    analyzer: FormsAnalyzer,
) -> Result<FormsBuild<R>, BuildError>
    requires { IsFresh (data_of build.inner.loader) }
    ensures again { IfOk result (λ b. b.inner ≡ reread R.resolving_by_kind is_allowed resolver analyzer build.inner) }
    ensures new { IfOk result (λ b. IsNew (data_of b.inner.loader) b.inner) }
    ensures refused { IfErr result (λ e. e ≡ BuildError.OutOfMemory) }
{
    match reread(build, is_allowed, resolver, analyzer) {
        Ok(again) => Ok(again),
        Err(_) => Err(BuildError::OutOfMemory),
    }
}

fn reread<R: KindResolver + Drop>(
    build: BundleBuild,
    is_allowed: bool,
    resolver: R,
    analyzer: FormsAnalyzer,
) -> Result<FormsBuild<R>, AllocError>
    ensures { IfOk result (λ b. b.inner ≡ reread R.resolving_by_kind is_allowed resolver analyzer build.inner) }
{
    build
        .with_json_without_attribute(is_allowed)?
        .with_resolver(resolver)?
        .with_analyzer(analyzer)
}

/// Polls by batches until there is another answer than `NotYet`.
fn poll_forms<T: Threads + Sync, R: KindResolver + Drop + Sync>(
    rt: &T,
    build: &mut FormsBuild<R>,
    batch: usize,
) -> Result<ModuleGraph, BuildError>
    requires new { IsNew (data_of build.old.inner.loader) build.old.inner }
    requires size { 0 < batch }
    ensures graph { IfOk result (λ graph. IsGraph (rules_in R.resolving_by_kind build.old.inner.following)
        (starts build.old.inner) (tells build.old.inner.loader.modules) graph.entries) }
    ensures roots { IfOk result (λ graph. graph.roots ≡ build.old.inner.roots) }
    ensures imports { IfOk result (λ graph. graph.imports
        ≡ map (referred_by (resolves_of R.resolving_by_kind build.old.inner.following)) build.old.inner.imports) }
    ensures within { IfOk result (λ graph. length graph.entries ≤ build.old.inner.limit) }
    ensures large { IfErr result (SaysLarge (rules_in R.resolving_by_kind build.old.inner.following)
        (starts build.old.inner) (tells build.old.inner.loader.modules) build.old.inner.limit) }
{
    'polls: loop {
        let answer = build.poll_batched(rt, batch);
        if !is_not_yet(&answer) {
            return answer;
        }
    }
}
