//! The finished graph.
ghost use Rattle.std.specs.Prelude.{◌≡◌, ◌<◌, ◌↔◌, Some, None, IsSome, IfOk, IfSome, length, slice_get, option_map, map};
ghost use Rattle.std.specs.Option.{option_copied};
ghost use Rattle.graph_tables.specs.specifier_table.Numbers.{at_numbers, IsByBytes};
ghost use Rattle.graph_entry.specs.Specifier.{text_of};
ghost use Rattle.graph_builder.specs.Graph.{entry_of, redirected, resolved, module_at, number_in, IsAscending};
ghost use Rattle.graph_builder.specs.Entries.{entries_left};
ghost use Rattle.graph_builder.specs.Links.{HaveLinks};
ghost use Rattle.graph_builder.specs.Stops.{IsStop};
ghost use Rattle.graph_entry.specs.declared.entry.Entry.TheVariants as entry;

use crate::by_number::{find, number};
use crate::entries::Entries;
use crate::links::{Links, Stop, end_of, stop_at};
use base::Items;
use graph_entry::{Dependency, Entry, Module};
use graph_tables::specifier_table::Numbered;
use std::alloc::AllocError;
use std::marker::Model;
use url::Url;

/// So many redirects are followed at most.
pub const MOST_REDIRECTS: u32 = 10;

/// The graph: an entry for each specifier that is reached. Each has a number, in the order in which they were reached.
#[derive(Drop)]
pub struct ModuleGraph {
    roots: Items<Url>,
    imports: Items<(Url, Items<Dependency>)>,
    all: Numbered<Entry>,
    // Where their edges and redirects lead.
    links: Links,
    // The numbers, by the bytes of their specifiers.
    order: Items<usize>,
}

impl Model for ModuleGraph {
    ghost use Rattle.std.specs.Prelude.{map};
    ghost use Rattle.graph_tables.specs.specifier_table.Numbers.{at_numbers, IsByBytes};
    ghost use Rattle.graph_builder.specs.Graph.{GraphData};
    ghost use Rattle.graph_builder.specs.Links.{HaveLinks};

    ghost Value = { GraphData };

    ghost view = { λ g. record {
      roots = g.roots;
      imports = g.imports;
      entries = at_numbers g.all g.order;
      numbered = map (λ e. e.0) g.all;
    } };

    ghost invariant = { λ g. IsByBytes g.all g.order × HaveLinks g.all g.links };
}

impl ModuleGraph {
    /// A graph of entries, and of the order of their specifiers.
    pub(crate) fn new(
        roots: Items<Url>,
        imports: Items<(Url, Items<Dependency>)>,
        all: Numbered<Entry>,
        links: Links,
        order: Items<usize>,
    ) -> ModuleGraph
        requires by_bytes { IsByBytes all order }
        requires linked { HaveLinks all links }
        ensures roots { result.roots ≡ roots }
        ensures imports { result.imports ≡ imports }
        ensures entries { result.entries ≡ at_numbers all order }
        ensures numbered { result.numbered ≡ map (λ e. e.0) all }
    {
        ModuleGraph {
            roots,
            imports,
            all,
            links,
            order,
        }
    }

    /// The roots as they were handed in.
    pub fn roots(&self) -> &[Url]
        ensures { result.now ≡ self.now.roots }
    {
        self.roots.as_slice()
    }

    /// The referrers outside the graph, each with the edges of what it imports.
    pub fn referrer_imports(&self) -> &[(Url, Items<Dependency>)]
        ensures { result.now ≡ self.now.imports }
    {
        self.imports.as_slice()
    }

    /// The entry of a specifier, if it is reached.
    pub fn entry(&self, specifier: &Url) -> Option<&Entry>
        ensures { option_copied result ≡ entry_of self.now.entries (text_of specifier.now) }
    {
        find(&self.all, specifier)
    }

    /// Where the redirects from a specifier lead: the specifier itself, if it has none.
    pub fn resolve<'a>(&'a self, specifier: &'a Url) -> &'a Url
        ensures { text_of result.now ≡ resolved self.now.entries (text_of specifier.now) }
    {
        resolve_in(&self.all, &self.links, stop_at(&self.all, specifier)).specifier
    }

    /// The module there, if there is one.
    pub fn get(&self, specifier: &Url) -> Option<&Module>
        ensures { option_copied result ≡ module_at self.now.entries (text_of specifier.now) }
    {
        module_in(&self.all, &self.links, stop_at(&self.all, specifier))
    }

    /// All entries, by the bytes of their specifiers.
    pub fn entries(&self) -> Result<Entries<'_>, AllocError>
        ensures left { IfOk result (λ it. entries_left it ≡ self.now.entries) }
        // They are in that order, and no specifier has two.
        ensures ascending { IsAscending self.now.entries }
    {
        Ok(Entries::new(&self.all, self.order.as_slice()))
    }

    /// The number of a specifier that has an entry. With N entries the numbers are those from 0 to N - 1, each once. The
    /// different roots have the first ones, in the order in which they first appear among the roots.
    pub fn number(&self, specifier: &Url) -> Option<usize>
        ensures value { result ≡ number_in self.now.numbered (text_of specifier.now) }
        ensures within { IfSome result (λ n. n < length self.now.entries) }
        // There is none exactly where there is no entry.
        ensures none { (result ≡ None) ↔ (entry_of self.now.entries (text_of specifier.now) ≡ None) }
    {
        number(&self.all, specifier)
    }

    /// The specifier of the entry with this number.
    pub fn numbered(&self, number: usize) -> Option<&Url>
        ensures value { option_copied result ≡ slice_get self.now.numbered number }
        ensures some { IsSome result ↔ (number < length self.now.entries) }
    {
        self.all.numbered(number)
    }
}

/// Where the entry of a specifier redirects to, if it does.
pub fn redirect_in<'a>(all: &'a Numbered<Entry>, links: &Links, at: Stop<'_>) -> Option<Stop<'a>>
    requires linked { HaveLinks all.now links.now }
    requires stop { IsStop all.now at }
    ensures to { option_map (λ next. text_of next.specifier.now) result ≡ redirected all.now (text_of at.entry.specifier.now) }
    ensures stop { IfSome result (λ next. IsStop all.now next) }
{
    match entry_at(all, at)? {
        Entry::Redirect(target) => Some(behind(all, links, at, target)),
        Entry::Module(_) | Entry::Package(_) | Entry::External | Entry::Error(_) => None,
    }
}

// The target of a redirect, with its number.
fn behind<'a>(all: &Numbered<Entry>, links: &Links, at: Stop<'_>, target: &'a Url) -> Stop<'a>
    requires linked { HaveLinks all.now links.now }
    requires stop { IsStop all.now at }
    requires redirects { entry_of all.now (text_of at.specifier.now) ≡ Some (entry.Redirect target.now) }
    ensures specifier { result.specifier.now ≡ target.now }
    ensures stop { IsStop all.now result }
{
    match at.number {
        Some(number) => end_of(all, links, number, 0, target),
        None => stop_at(all, target),
    }
}

// The entry of a specifier with its number.
fn entry_at<'a>(all: &'a Numbered<Entry>, at: Stop<'_>) -> Option<&'a Entry>
    requires { IsStop all.now at }
    ensures { option_copied result ≡ entry_of all.now (text_of at.entry.specifier.now) }
{
    match at.number {
        Some(number) => all.value(number),
        None => None,
    }
}

// Where the redirects from a specifier lead.
fn resolve_in<'a>(all: &'a Numbered<Entry>, links: &Links, from: Stop<'a>) -> Stop<'a>
    requires linked { HaveLinks all.now links.now }
    requires stop { IsStop all.now from }
    ensures to { text_of result.specifier.now ≡ resolved all.now (text_of from.entry.specifier.now) }
    ensures stop { IsStop all.now result }
{
    let mut at = from;
    for _ in 0..MOST_REDIRECTS {
        match redirect_in(all, links, at) {
            Some(next) => at = next,
            None => return at,
        }
    }
    at
}

/// The module that a specifier leads to: its own, where it redirects nowhere.
#[tactic(auto, using(crate::proofs::GraphLemmas::module_here, crate::proofs::GraphLemmas::no_module_here))]
pub fn module_in<'a>(all: &'a Numbered<Entry>, links: &Links, at: Stop<'_>) -> Option<&'a Module>
    requires linked { HaveLinks all.now links.now }
    requires stop { IsStop all.now at }
    ensures { option_copied result ≡ module_at all.now (text_of at.entry.specifier.now) }
{
    match entry_at(all, at)? {
        Entry::Module(found) => Some(found),
        Entry::Redirect(_) => module_behind(all, links, at),
        Entry::Package(_) | Entry::External | Entry::Error(_) => None,
    }
}

// The same after redirects.
fn module_behind<'a>(all: &'a Numbered<Entry>, links: &Links, at: Stop<'_>) -> Option<&'a Module>
    requires linked { HaveLinks all.now links.now }
    requires stop { IsStop all.now at }
    ensures { option_copied result ≡ module_at all.now (text_of at.entry.specifier.now) }
{
    match entry_at(all, resolve_in(all, links, at))? {
        Entry::Module(found) => Some(found),
        Entry::Redirect(_) | Entry::Package(_) | Entry::External | Entry::Error(_) => None,
    }
}
