//! What becomes of the first entries of all that is reached: the entries of the graph.
ghost use Rattle.std.specs.Prelude.{◌≡◌, ℕ, Some, is_none, length, map, not, slice_get, IfOk, if◌then◌else◌};
ghost use Rattle.graph_entry.specs.declared.entry.Entry.TheVariants as entry;
ghost use Rattle.graph_entry.specs.Entry.{edge_target};
ghost use Rattle.graph_entry.specs.declared.entry.Entry.{Entry as First};
ghost use Rattle.graph_builder.specs.declared.settle.Verdict.{Verdict as Judgement};
ghost use Rattle.graph_entry.specs.Specifier.{text_of};
ghost use Rattle.graph_builder.specs.Rules.{edges_of, has_types, rules_of, rules_by};
ghost use Rattle.graph_builder.specs.Final.{fits, fits_by, is_absent, fits_phase, refused_edge, with_edges};
ghost use Rattle.graph_builder.specs.Links.{ends_of, ends_in, end_at, HaveLinks};
ghost use Rattle.graph_builder.specs.Stops.{IsStop};
ghost use Rattle.graph_builder.specs.Settling as spec;
ghost use Rattle.graph_builder.specs.Settling.{finals_of, values_of, verdict_of, settled_edge};

use crate::following::{Following, is_source};
use crate::graph::{MOST_REDIRECTS, module_in, redirect_in};
use crate::links::{Links, Stop, end_of};
use crate::ways::Ways;
use base::Items;
use graph_entry::{
    Attribute, Dependency, DependencyKind, Entry, JsModule, Module, ModuleError, ResolutionError,
    WasmModule,
};
use graph_tables::specifier_table::Numbered;
use std::alloc::{AllocError, Global};

/// What an edge is refused for by the module at its end.
#[derive(Clone, Copy)]
pub enum Unfit {
    /// Its import attribute.
    ForAttribute,
    /// Its phase.
    ForPhase,
}

/// What is to become of a first entry.
#[derive(Drop)]
pub enum Verdict {
    /// It stays.
    Kept,
    /// It redirects further than redirects are followed.
    TooFar,
    /// It is a module with refused edges: which are refused, and for what.
    Judged(Items<Option<Unfit>>),
}

/// The entries of the graph, of the first entries of all that is reached.
fn settle(
    alloc: Global,
    following: Following,
    firsts: Numbered<Entry>,
    links: &Links,
) -> Result<Numbered<Entry>, AllocError>
    requires { HaveLinks firsts links.now }
    ensures { IfOk result (λ entries. entries ≡ finals_of (rules_of following) firsts) }
{
    if are_plain(firsts.values()) {
        return Ok(firsts);
    }
    let verdicts = verdicts_of(alloc, following, &firsts, links)?;
    if are_kept(verdicts.as_slice()) {
        return Ok(firsts);
    }
    settle_each(alloc, following, firsts, verdicts.as_slice())
}

/// The same by the rules of a builder.
pub fn settle_by<W: Ways>(
    alloc: Global,
    ways: &W,
    firsts: Numbered<Entry>,
    links: &Links,
) -> Result<Numbered<Entry>, AllocError>
    requires { HaveLinks firsts links.now }
    ensures { IfOk result (λ entries. entries ≡ finals_of (rules_by (W.means ways.now) (W.follows ways.now)) firsts) }
{
    settle(alloc, ways.following(), firsts, links)
}

// Whether all first entries stay as they are: none redirects, none is JSON, and no edge asks for something.
fn are_plain(firsts: &[Entry]) -> bool
    ensures { result ≡ spec.all_plain firsts.now }
{
    firsts.iter().all(is_plain)
}

fn is_plain(first: &Entry) -> bool
    ensures { result ≡ spec.is_plain first.now }
{
    match first {
        Entry::Module(Module::Js(source)) => ask_nothing(source.dependencies.as_slice()),
        Entry::Module(Module::Wasm(binary)) => ask_nothing(binary.dependencies.as_slice()),
        Entry::Redirect(_) | Entry::Module(Module::Json(_)) => false,
        Entry::Package(_) | Entry::External | Entry::Error(_) => true,
    }
}

fn ask_nothing(edges: &[Dependency]) -> bool
    ensures { result ≡ spec.ask_nothing edges.now }
{
    edges.iter().all(asks_nothing)
}

fn asks_nothing(edge: &Dependency) -> bool
    ensures { result ≡ spec.asks_nothing edge.now }
{
    is_unnamed(&edge.attribute) && !is_source(edge.kind)
}

fn is_unnamed(attribute: &Attribute) -> bool
    ensures { result ≡ not (spec.is_named attribute.now) }
{
    match attribute {
        Attribute::Absent | Attribute::Unknown => true,
        Attribute::Named(_) => false,
    }
}

fn verdicts_of(
    alloc: Global,
    following: Following,
    firsts: &Numbered<Entry>,
    links: &Links,
) -> Result<Items<Verdict>, AllocError>
    requires { HaveLinks firsts.now links.now }
    ensures { IfOk result (λ verdicts. verdicts
        ≡ map (verdict_of (rules_of following) firsts.now) (values_of firsts.now)) }
{
    verdicts_on(alloc, following, firsts, links, firsts.values())
}

fn verdicts_on(
    alloc: Global,
    following: Following,
    firsts: &Numbered<Entry>,
    links: &Links,
    values: &[Entry],
) -> Result<Items<Verdict>, AllocError>
    requires linked { HaveLinks firsts.now links.now }
    requires values { values.now ≡ values_of firsts.now }
    ensures { IfOk result (λ verdicts. verdicts ≡ map (verdict_of (rules_of following) firsts.now) values.now) }
{
    let mut verdicts = Items::from_vec(Vec::with_capacity(alloc, values.len())?);
    for (number, first) in values.iter().enumerate() {
        verdicts.push(judge(alloc, following, firsts, links, number, first)?)?;
    }
    Ok(verdicts)
}

// On the entry with this number.
fn judge(
    alloc: Global,
    following: Following,
    firsts: &Numbered<Entry>,
    links: &Links,
    number: usize,
    first: &Entry,
) -> Result<Verdict, AllocError>
    requires linked { HaveLinks firsts.now links.now }
    requires here { ends_in firsts.now number ≡ Some (ends_of first.now) }
    ensures { IfOk result (λ v. v ≡ verdict_of (rules_of following) firsts.now first.now) }
{
    match first {
        Entry::Redirect(target) => {
            let next = end_of(firsts, links, number, 0, target);
            Ok(far_or_kept(leads_on(firsts, links, next)))
        }
        Entry::Module(module) => {
            let refused = misfits(alloc, following, firsts, links, number, module)?;
            Ok(judgement(refused))
        }
        Entry::Package(_) | Entry::External | Entry::Error(_) => Ok(Verdict::Kept),
    }
}

fn judgement(refused: Items<Option<Unfit>>) -> Verdict
    ensures { result ≡ spec.judgement refused }
{
    if none_refused(refused.as_slice()) {
        Verdict::Kept
    } else {
        Verdict::Judged(refused)
    }
}

fn none_refused(refused: &[Option<Unfit>]) -> bool
    ensures { result ≡ spec.none_refused refused.now }
{
    refused.iter().all(is_fit)
}

fn is_fit(unfit: &Option<Unfit>) -> bool
    ensures { result ≡ is_none unfit.now }
{
    unfit.is_none()
}

fn are_kept(verdicts: &[Verdict]) -> bool
    ensures { result ≡ spec.all_kept verdicts.now }
{
    verdicts.iter().all(is_kept)
}

fn is_kept(verdict: &Verdict) -> bool
    ensures { result ≡ spec.is_kept verdict.now }
{
    match verdict {
        Verdict::Kept => true,
        Verdict::TooFar | Verdict::Judged(_) => false,
    }
}

fn far_or_kept(is_far: bool) -> Verdict
    ensures { result ≡ if is_far then Verdict.TooFar else Verdict.Kept }
{
    if is_far {
        Verdict::TooFar
    } else {
        Verdict::Kept
    }
}

// Whether from here as many redirects lead on as are followed.
fn leads_on<'a>(firsts: &'a Numbered<Entry>, links: &Links, from: Stop<'a>) -> bool
    requires linked { HaveLinks firsts.now links.now }
    requires stop { IsStop firsts.now from }
    ensures { result ≡ spec.leads_on firsts.now (text_of from.entry.specifier.now) }
{
    let mut at = from;
    for _ in 0..MOST_REDIRECTS {
        match redirect_in(firsts, links, at) {
            Some(next) => at = next,
            None => return false,
        }
    }
    true
}

// Which edges of a module are refused, and for what.
fn misfits(
    alloc: Global,
    following: Following,
    firsts: &Numbered<Entry>,
    links: &Links,
    number: usize,
    importer: &Module,
) -> Result<Items<Option<Unfit>>, AllocError>
    requires linked { HaveLinks firsts.now links.now }
    requires here { ends_in firsts.now number ≡ Some (map edge_target (edges_of importer.now)) }
    ensures { IfOk result (λ refused. refused
        ≡ map (spec.misfit (rules_of following) firsts.now importer.now) (edges_of importer.now)) }
{
    match importer {
        Module::Js(source) => {
            let typed = source.media_type.is_typed();
            misfits_among(
                alloc,
                following,
                typed,
                firsts,
                links,
                number,
                source.dependencies.as_slice(),
            )
        }
        Module::Wasm(binary) => {
            misfits_among(
                alloc,
                following,
                false,
                firsts,
                links,
                number,
                binary.dependencies.as_slice(),
            )
        }
        Module::Json(_) => Ok(Items::new(alloc)),
    }
}

// The same for edges of a module with types, or without.
fn misfits_among(
    alloc: Global,
    following: Following,
    typed: bool,
    firsts: &Numbered<Entry>,
    links: &Links,
    number: usize,
    edges: &[Dependency],
) -> Result<Items<Option<Unfit>>, AllocError>
    requires linked { HaveLinks firsts.now links.now }
    requires here { ends_in firsts.now number ≡ Some (map edge_target edges.now) }
    ensures { IfOk result (λ refused. refused ≡ map (spec.misfit_here following typed firsts.now) edges.now) }
{
    let mut refused = Items::new(alloc);
    for (place, edge) in edges.iter().enumerate() {
        refused.push(misfit(following, typed, firsts, links, number, place, edge))?;
    }
    Ok(refused)
}

// The same for the edge in this place of the entry with this number.
fn misfit(
    following: Following,
    typed: bool,
    firsts: &Numbered<Entry>,
    links: &Links,
    number: usize,
    place: usize,
    edge: &Dependency,
) -> Option<Unfit>
    requires linked { HaveLinks firsts.now links.now }
    requires here { end_at firsts.now number place ≡ edge_target edge.now }
    ensures { result ≡ spec.misfit_here following typed firsts.now edge.now }
{
    if following.is_followed(typed, edge) {
        unfit_at(following, firsts, links, number, place, edge)
    } else {
        None
    }
}

// What the module that the edge leads to refuses it for.
fn unfit_at(
    following: Following,
    firsts: &Numbered<Entry>,
    links: &Links,
    number: usize,
    place: usize,
    edge: &Dependency,
) -> Option<Unfit>
    requires linked { HaveLinks firsts.now links.now }
    requires here { end_at firsts.now number place ≡ edge_target edge.now }
    ensures { result ≡ spec.unfit_at following.json_without_attribute firsts.now edge.now edge.now.resolution }
{
    match &edge.resolution {
        Ok(target) => {
            let end = end_of(firsts, links, number, place, target);
            match module_in(firsts, links, end) {
                Some(found) => refusal(following, edge, found),
                None => None,
            }
        }
        Err(_) => None,
    }
}

fn refusal(following: Following, edge: &Dependency, found: &Module) -> Option<Unfit>
    ensures { result ≡ spec.unfit following.json_without_attribute edge.now (Some found.now) }
{
    if !fits_by(following, &edge.attribute, found) {
        Some(Unfit::ForAttribute)
    } else if !fits_phase(edge.kind, found) {
        Some(Unfit::ForPhase)
    } else {
        None
    }
}

fn fits_phase(kind: DependencyKind, found: &Module) -> bool
    ensures { result ≡ fits_phase kind found.now }
{
    match found {
        Module::Js(_) | Module::Json(_) => !is_source(kind),
        Module::Wasm(_) => true,
    }
}

fn fits_by(following: Following, attribute: &Attribute, found: &Module) -> bool
    ensures { result ≡ fits_by following.json_without_attribute attribute.now found.now }
{
    (following.json_without_attribute && is_absent(attribute)) || fits(attribute, found)
}

fn is_absent(attribute: &Attribute) -> bool
    ensures { result ≡ is_absent attribute.now }
{
    match attribute {
        Attribute::Absent => true,
        Attribute::Named(_) | Attribute::Unknown => false,
    }
}

fn fits(attribute: &Attribute, found: &Module) -> bool
    ensures { result ≡ fits attribute.now found.now }
{
    match (attribute, found) {
        (Attribute::Absent, Module::Json(_)) => false,
        (Attribute::Absent, _) => true,
        (Attribute::Named(text), Module::Json(_)) => text.as_str() == "json",
        (Attribute::Named(_), _) => false,
        (Attribute::Unknown, _) => true,
    }
}

// The entries by their verdicts.
fn settle_each(
    alloc: Global,
    following: Following,
    firsts: Numbered<Entry>,
    verdicts: &[Verdict],
) -> Result<Numbered<Entry>, AllocError>
    requires { verdicts.now ≡ map (verdict_of (rules_of following) firsts) (values_of firsts) }
    ensures { IfOk result (λ entries. entries ≡ finals_of (rules_of following) firsts) }
{
    // The rules that the contract speaks of.
    let _ = following;
    let (specifiers, values) = firsts.into_parts();
    let entries = judged_each(alloc, verdicts, values)?;
    Ok(Numbered::from_parts(specifiers, entries))
}

fn judged_each(
    alloc: Global,
    verdicts: &[Verdict],
    values: Items<Entry>,
) -> Result<Items<Entry>, AllocError>
    requires even { length verdicts.now ≡ length values }
    requires each { (i : ℕ) (v : Judgement) (e : First) → slice_get verdicts.now i ≡ Some v
        → slice_get values i ≡ Some e → spec.IsVerdictOn v e }
    ensures { IfOk result (λ made. made ≡ spec.all_judged verdicts.now values) }
{
    let mut made = Items::from_vec(Vec::with_capacity(alloc, values.len())?);
    for first in values.into_vec() {
        let entry = judged(alloc, &verdicts[made.len()], first)?;
        made.push(entry)?;
    }
    Ok(made)
}

fn judged(alloc: Global, verdict: &Verdict, first: Entry) -> Result<Entry, AllocError>
    requires { spec.IsVerdictOn verdict.now first }
    ensures { IfOk result (λ entry. entry ≡ spec.judged verdict.now first) }
{
    match (verdict, first) {
        (Verdict::TooFar, Entry::Redirect(target)) => {
            Ok(Entry::Error(ModuleError::TooManyRedirects(target)))
        }
        (Verdict::Judged(refused), Entry::Module(module)) => {
            Ok(Entry::Module(judged_module(alloc, refused.as_slice(), module)?))
        }
        (_, first) => Ok(first),
    }
}

fn judged_module(
    alloc: Global,
    refused: &[Option<Unfit>],
    importer: Module,
) -> Result<Module, AllocError>
    requires { length refused.now ≡ length (edges_of importer) }
    ensures { IfOk result (λ m. m ≡ with_edges importer (spec.judged_edges refused.now (edges_of importer))) }
{
    match importer {
        Module::Js(source) => {
            let JsModule {
                media_type,
                text,
                dependencies,
            } = source;
            Ok(Module::Js(JsModule {
                media_type,
                text,
                dependencies: judged_edges(alloc, refused, dependencies)?,
            }))
        }
        Module::Wasm(binary) => {
            let WasmModule {
                bytes,
                dependencies,
            } = binary;
            Ok(Module::Wasm(WasmModule {
                bytes,
                dependencies: judged_edges(alloc, refused, dependencies)?,
            }))
        }
        Module::Json(json) => Ok(Module::Json(json)),
    }
}

fn judged_edges(
    alloc: Global,
    refused: &[Option<Unfit>],
    edges: Items<Dependency>,
) -> Result<Items<Dependency>, AllocError>
    requires { length refused.now ≡ length edges }
    ensures { IfOk result (λ made. made ≡ spec.judged_edges refused.now edges) }
{
    let mut made = Items::new(alloc);
    for edge in edges.into_vec() {
        let refusal = refused[made.len()];
        made.push(settled_edge(refusal, edge))?;
    }
    Ok(made)
}

fn settled_edge(unfit: Option<Unfit>, edge: Dependency) -> Dependency
    ensures { result ≡ settled_edge unfit edge }
{
    match unfit {
        None => edge,
        Some(Unfit::ForAttribute) => refused_edge(ResolutionError::InvalidTypeAssertion, edge),
        Some(Unfit::ForPhase) => refused_edge(ResolutionError::InvalidSourcePhase, edge),
    }
}

fn refused_edge(why: ResolutionError, edge: Dependency) -> Dependency
    ensures { result ≡ refused_edge why edge }
{
    let Dependency {
        kind,
        type_only,
        range,
        text,
        attribute,
        resolution: _,
    } = edge;
    Dependency {
        kind,
        type_only,
        range,
        text,
        attribute,
        resolution: Err(why),
    }
}
