//! What is reached so far: a slot for each specifier, by its number, and how many of them were dealt with.
ghost use Rattle.std.specs.Prelude.{Some, None, ◌≡◌, ◌+◌, ◌≤◌, ◌<◌, ℕ, [], ◌∷◌, length, slice_get, map, List, Option, IfOk, IfSome, OnOk, Err, option_to_list};
ghost use Rattle.std.specs.List.{filter_map};
ghost use Rattle.graph_entry.specs.Specifier.{text_of};
ghost use Rattle.graph_entry.specs.Entry.{edge_target};
ghost use Rattle.graph_builder.specs.declared.slot.Slot.TheVariants.{Asked};
ghost use Rattle.graph_builder.specs.Reach.{Specifier};
ghost use Rattle.graph_builder.specs.Rules.{edges_of, led_to, targets, has_types, is_followed, rules_by};
ghost use Rattle.graph_builder.specs.Graph.{texts};
ghost use Rattle.graph_builder.specs.ByText.{value_at, keys_at};
ghost use Rattle.graph_builder.specs.Links.{ends_of, AreLinks, IsOneMore};
ghost use Rattle.graph_builder.specs.Reaching.{slots_of, todo_of, done_with, HasRoom, TakesInHand, Grows, Fills, IsMarked, TakesNext};
ghost use Rattle.graph_builder.specs.Progress.{FillsUnasked, Takes};

use crate::error::BuildError;
use crate::following::Following;
use crate::links::{NO_LINK, link_to};
use crate::reached::Reached;
use crate::ways::Ways;
use graph_entry::{Dependency, Entry, LoadAnswer, Module};
use std::alloc::{AllocError, Global};
use url::Url;

/// Why no more can be reached.
#[derive(Clone, Copy)]
pub enum GrowError {
    TooMany { seen: usize },
    OutOfMemory,
}

impl From<AllocError> for GrowError {
    ghost use Rattle.graph_builder.specs.declared.reaching.GrowError.TheVariants.{OutOfMemory};

    ghost from_gives = { λ _ e. e ≡ OutOfMemory };

    fn from(_: AllocError) -> GrowError {
        GrowError::OutOfMemory
    }
}

/// A slot for each reached specifier, in the order in which they came. Those before `next` were dealt with.
#[derive(Drop)]
pub struct Reaching {
    pub reached: Reached,
    pub next: usize,
    pub limit: usize,
}

impl Reaching {
    /// Nothing is reached.
    pub fn new(alloc: Global, limit: usize) -> Reaching
        ensures reached { result.reached ≡ [] }
        ensures next { result.next ≡ 0 }
        ensures limit { result.limit ≡ limit }
    {
        Reaching {
            reached: Reached::new(alloc),
            next: 0,
            limit,
        }
    }

    /// Reaches a specifier, and gives its number: a new one gets the next.
    pub fn reach(&mut self, url: &Url) -> Result<usize, GrowError>
        requires room { HasRoom self.old }
        ensures grows { Grows (text_of url.now ∷ []) self.old self.new (done_with result) }
        ensures number { IfOk result (λ n. slice_get (keys_at self.new.reached) n ≡ Some (text_of url.now)) }
        ensures limit { self.new.limit ≡ self.old.limit }
    {
        match self.reached.number(url) {
            Some(number) => return Ok(number),
            None => {}
        }
        let before = self.reached.count();
        if before >= self.limit {
            return Err(GrowError::TooMany { seen: before + 1 });
        }
        match self.reached.add(url.clone()?) {
            Ok(()) => return Ok(before),
            Err(_) => return Err(GrowError::OutOfMemory),
        }
    }

    // Reaches the end of an edge: one more link keeps its number.
    fn reach_end(&mut self, url: &Url, links: &mut Vec<u32>) -> Result<(), GrowError>
        requires room { HasRoom self.old }
        ensures grows { Grows (text_of url.now ∷ []) self.old self.new result }
        ensures linked { OnOk result
            (IsOneMore (keys_at self.new.reached) (Some (text_of url.now)) links.old.items links.new.items) }
        ensures limit { self.new.limit ≡ self.old.limit }
    {
        match self.reach(url) {
            Ok(number) => match links.push(link_to(number)) {
                Ok(()) => Ok(()),
                Err(_) => Err(GrowError::OutOfMemory),
            },
            Err(error) => Err(error),
        }
    }

    /// Takes the next number that was not dealt with.
    pub fn take_next(&mut self) -> Option<usize>
        ensures takes { TakesNext self.old self.new result }
        ensures limit { self.new.limit ≡ self.old.limit }
    {
        let number = self.next;
        if number >= self.reached.count() {
            return None;
        }
        self.next = number + 1;
        Some(number)
    }

    /// Reaches each of these specifiers.
    pub fn reach_all(&mut self, urls: &[Url]) -> Result<(), GrowError>
        requires room { HasRoom self.old }
        ensures grows { Grows (texts urls.now) self.old self.new result }
        ensures limit { self.new.limit ≡ self.old.limit }
    {
        for url in urls {
            match self.reach(url) {
                Ok(_) => {}
                Err(error) => return Err(error),
            }
        }
        Ok(())
    }

    /// Reaches what an entry leads to. There are no links yet: there is one for each edge, or for the redirect.
    #[tactic(auto, unfolding(crate::specs::Rules::targets))]
    pub fn reach_targets<W: Ways>(
        &mut self,
        ways: &W,
        entry: &Entry,
        links: &mut Vec<u32>,
    ) -> Result<(), GrowError>
        requires room { HasRoom self.old }
        requires empty { links.old.items ≡ [] }
        ensures grows { Grows (targets (rules_by (W.means ways.now) (W.follows ways.now)) entry.now) self.old self.new result }
        ensures linked { OnOk result (AreLinks (keys_at self.new.reached) links.new.items (ends_of entry.now)) }
        ensures limit { self.new.limit ≡ self.old.limit }
    {
        match entry {
            Entry::Redirect(target) => self.reach_end(target, links),
            Entry::Module(importer) => self.reach_edges(ways.following(), importer, links),
            Entry::Package(_) | Entry::External | Entry::Error(_) => Ok(()),
        }
    }

    // Reaches the targets of the followed edges of a module.
    fn reach_edges(
        &mut self,
        following: Following,
        importer: &Module,
        links: &mut Vec<u32>,
    ) -> Result<(), GrowError>
        requires room { HasRoom self.old }
        requires empty { links.old.items ≡ [] }
        ensures grows { Grows (filter_map (led_to (is_followed following (has_types importer.now)))
            (edges_of importer.now)) self.old self.new result }
        ensures linked { OnOk result
            (AreLinks (keys_at self.new.reached) links.new.items (map edge_target (edges_of importer.now))) }
        ensures limit { self.new.limit ≡ self.old.limit }
    {
        match importer {
            Module::Js(source) => {
                let typed = source.media_type.is_typed();
                self.reach_dependencies(following, typed, source.dependencies.as_slice(), links)
            }
            Module::Wasm(binary) => {
                self.reach_dependencies(following, false, binary.dependencies.as_slice(), links)
            }
            Module::Json(_) => Ok(()),
        }
    }

    // Reaches the targets of edges of a module with types, or without.
    fn reach_dependencies(
        &mut self,
        following: Following,
        typed: bool,
        dependencies: &[Dependency],
        links: &mut Vec<u32>,
    ) -> Result<(), GrowError>
        requires room { HasRoom self.old }
        requires empty { links.old.items ≡ [] }
        ensures grows { Grows (filter_map (led_to (is_followed following typed)) dependencies.now) self.old self.new result }
        ensures linked { OnOk result
            (AreLinks (keys_at self.new.reached) links.new.items (map edge_target dependencies.now)) }
        ensures limit { self.new.limit ≡ self.old.limit }
    {
        for dependency in dependencies {
            match self.reach_dependency(following, typed, dependency, links) {
                Ok(()) => {}
                Err(error) => return Err(error),
            }
        }
        Ok(())
    }

    fn reach_dependency(
        &mut self,
        following: Following,
        typed: bool,
        dependency: &Dependency,
        links: &mut Vec<u32>,
    ) -> Result<(), GrowError>
        requires room { HasRoom self.old }
        ensures grows { Grows (option_to_list (led_to (is_followed following typed) dependency.now)) self.old self.new result }
        ensures linked { OnOk result
            (IsOneMore (keys_at self.new.reached) (edge_target dependency.now) links.old.items links.new.items) }
        ensures limit { self.new.limit ≡ self.old.limit }
    {
        if !following.is_followed(typed, dependency) {
            leave_out(links)?;
            return Ok(());
        }
        match &dependency.resolution {
            Ok(target) => self.reach_end(target, links),
            Err(_) => {
                leave_out(links)?;
                Ok(())
            }
        }
    }

    /// The loader was asked for the specifier with this number.
    pub fn mark_asked(&mut self, number: usize)
        requires { number < length self.old.reached }
        ensures marked { (s : Specifier) → slice_get (keys_at self.old.reached) number ≡ Some s
            → IsMarked s Asked self.old self.new }
        ensures limit { self.new.limit ≡ self.old.limit }
    {
        self.reached.set_asked(number);
    }

    /// The specifier with this number has this entry: what the entry leads to is reached.
    pub fn fill<W: Ways>(&mut self, ways: &W, number: usize, entry: Entry) -> Result<(), GrowError>
        requires room { HasRoom self.old }
        requires there { number < length self.old.reached }
        ensures fills { (s : Specifier) → slice_get (keys_at self.old.reached) number ≡ Some s
            → Fills (rules_by (W.means ways.now) (W.follows ways.now)) s entry self.old self.new result }
        ensures limit { self.new.limit ≡ self.old.limit }
    {
        let mut links = self.reached.no_links();
        match self.reach_targets(ways, &entry, &mut links) {
            Ok(()) => {}
            Err(error) => return Err(error),
        }
        match self.reached.set_done(number, entry, links) {
            Ok(()) => Ok(()),
            Err(_) => Err(GrowError::OutOfMemory),
        }
    }

    /// The specifier with this number, which no loader is asked for, has its entry: what the entry leads to is reached.
    pub fn fill_unasked<W: Ways>(
        &mut self,
        alloc: Global,
        ways: &W,
        number: usize,
    ) -> Result<(), GrowError>
        requires room { HasRoom self.old }
        requires there { number < length self.old.reached }
        ensures fills { (s : Specifier) → slice_get (keys_at self.old.reached) number ≡ Some s
            → FillsUnasked (rules_by (W.means ways.now) (W.follows ways.now)) s self.old self.new result }
        ensures limit { self.new.limit ≡ self.old.limit }
    {
        let made = ways.analyse_unasked(alloc, self.specifier(number));
        match made {
            Ok(entry) => self.fill(ways, number, entry),
            Err(_) => Err(GrowError::OutOfMemory),
        }
    }

    /// The specifier with this number.
    pub fn specifier(&self, number: usize) -> &Url
        requires { number < length self.now.reached }
        ensures { slice_get (keys_at self.now.reached) number ≡ Some (text_of result.now) }
    {
        let Some(url) = self.reached.numbered(number) else {
            unreachable!()
        };
        url
    }

    /// Takes an answer for a specifier that waits, and refuses any other.
    pub fn take<W: Ways>(
        &mut self,
        alloc: Global,
        ways: &W,
        specifier: Url,
        answer: LoadAnswer,
    ) -> Result<(), BuildError>
        requires room { HasRoom self.old }
        ensures takes { Takes (rules_by (W.means ways.now) (W.follows ways.now)) specifier answer self.old self.new result }
        ensures limit { self.new.limit ≡ self.old.limit }
    {
        let Some(number) = self.asked_number(&specifier) else {
            return Err(BuildError::UnaskedAnswer(specifier));
        };
        let entry = match ways.analyse(alloc, &specifier, answer) {
            Ok(entry) => entry,
            Err(_) => return Err(BuildError::OutOfMemory),
        };
        match self.fill(ways, number, entry) {
            Ok(()) => Ok(()),
            Err(GrowError::TooMany { seen }) => Err(BuildError::TooManyModules { seen }),
            Err(GrowError::OutOfMemory) => Err(BuildError::OutOfMemory),
        }
    }

    /// Takes the answer for a specifier in hand, if it waits for one: it waits no more, until it has its entry.
    pub fn take_in_hand(&mut self, url: &Url) -> bool
        ensures takes { TakesInHand (text_of url.now) self.old self.new result }
        ensures limit { self.new.limit ≡ self.old.limit }
    {
        match self.asked_number(url) {
            Some(number) => {
                self.reached.set_queued(number);
                true
            }
            None => false,
        }
    }

    /// The specifier, which has a slot, has this entry: what the entry leads to is reached.
    pub fn fill_in_hand<W: Ways>(
        &mut self,
        ways: &W,
        url: &Url,
        entry: Entry,
    ) -> Result<(), GrowError>
        requires room { HasRoom self.old }
        requires there { slots_of self.old (text_of url.now) ≡ None → ⊥ }
        ensures fills { Fills (rules_by (W.means ways.now) (W.follows ways.now)) (text_of url.now) entry self.old self.new result }
        ensures limit { self.new.limit ≡ self.old.limit }
    {
        match self.reached.number(url) {
            Some(number) => self.fill(ways, number, entry),
            None => unreachable!(),
        }
    }

    // The number of a specifier that the loader was asked for and has not answered.
    fn asked_number(&self, url: &Url) -> Option<usize>
        ensures asked { IfSome result (λ n. (n < length self.now.reached)
            × (slice_get (keys_at self.now.reached) n ≡ Some (text_of url.now))
            × (value_at self.now.reached (text_of url.now) ≡ Some Asked)) }
        ensures none { result ≡ None → value_at self.now.reached (text_of url.now) ≡ Some Asked → ⊥ }
    {
        match self.reached.number(url) {
            Some(number) => {
                if self.reached.is_asked(number) {
                    Some(number)
                } else {
                    None
                }
            }
            None => None,
        }
    }
}

// The link of an edge that doesn't resolve, or isn't followed.
fn leave_out(links: &mut Vec<u32>) -> Result<(), AllocError>
    ensures { (keys : List Specifier) (end : Option Specifier) →
        OnOk result (IsOneMore keys end links.old.items links.new.items) }
{
    links.push(NO_LINK)?;
    Ok(())
}
