//! The entries of all that is reached, by their numbers, with where their edges and redirects lead as numbers.
ghost use Rattle.std.specs.Prelude.{◌≡◌, ◌<◌, ◌^◌, ◌↔◌, IsTrue, None, Some, [], ◌∷◌, ◌++◌, length, cond, bytes_eq, slice_get, option_map, IfSome, OnOk};
ghost use Rattle.std.specs.Option.{option_copied};
ghost use Rattle.std.specs.List.{IsDistinct};
ghost use Rattle.graph_entry.specs.Specifier.{text_of};
ghost use Rattle.graph_builder.specs.declared.slot.Slot.TheVariants.{Queued, Asked, Done};
ghost use Rattle.graph_builder.specs.declared.links.Place.TheVariants as place;
ghost use Rattle.graph_builder.specs.Reach.{Specifier};
ghost use Rattle.graph_builder.specs.ByText.{value_at, keys_at, number_of};
ghost use Rattle.graph_builder.specs.Links.{ends_of, AreLinks, HaveLinks};
ghost use Rattle.graph_builder.specs.Slots.{all_done, AreDone};

use crate::by_number::{add, count, number};
use crate::links::{Links, Place};
use base::Items;
use graph_entry::Entry;
use graph_tables::specifier_table::Numbered;
use std::alloc::{AllocError, Global};
use std::marker::Model;
use std::mem;
use url::Url;

/// What is known of each reached specifier, by its number. Contracts see a slot for each. Where an entry isn't there yet
/// another one is in its place, so that the finished list is this one.
#[derive(Drop)]
pub struct Reached {
    entries: Numbered<Entry>,
    links: Links,
    // A list of no links, with the room of the last one.
    spare: Vec<u32>,
}

impl Model for Reached {
    ghost use Rattle.std.specs.Prelude.{List};
    ghost use Rattle.url.specs.Parts.{Parts};
    ghost use Rattle.graph_builder.specs.declared.slot.Slot.{Slot};
    ghost use Rattle.graph_builder.specs.Links.{slots_in, HaveLinks};

    ghost Value = { List (Parts × Slot) };

    ghost view = { λ r. slots_in r.links.places r.entries };

    ghost invariant = { λ r. HaveLinks r.entries r.links };
}

impl Reached {
    /// Nothing is reached.
    pub fn new(alloc: Global) -> Reached
        ensures { result ≡ [] }
    {
        Reached {
            entries: Numbered::new(alloc),
            links: Links {
                places: Items::new(alloc),
                numbers: Vec::new(alloc),
            },
            spare: Vec::new(alloc),
        }
    }

    /// How many specifiers there are.
    pub fn count(&self) -> usize
        ensures len { result ≡ length self.now }
        ensures small { result < 2 ^ 63 }
        ensures once { IsDistinct bytes_eq (keys_at self.now) }
    {
        count(&self.entries)
    }

    /// The number of a specifier.
    pub fn number(&self, url: &Url) -> Option<usize>
        ensures value { result ≡ number_of self.now (text_of url.now) }
        ensures within { IfSome result (λ n. n < length self.now) }
    {
        number(&self.entries, url)
    }

    /// The specifier with this number.
    pub fn numbered(&self, number: usize) -> Option<&Url>
        ensures { option_copied result ≡ option_map (λ e. e.0) (slice_get self.now number) }
    {
        self.entries.numbered(number)
    }

    /// Whether the loader was asked for the specifier with this number and has not answered.
    pub fn is_asked(&self, number: usize) -> bool
        ensures { IsTrue result ↔ (option_map (λ e. e.1) (slice_get self.now number) ≡ Some Asked) }
    {
        match self.links.places.get(number) {
            Some(place) => is_asked(*place),
            None => false,
        }
    }

    /// Gives the next number to a specifier that has none: it waits.
    pub fn add(&mut self, url: Url) -> Result<(), AllocError>
        requires new { number_of self.old (text_of url) ≡ None }
        ensures ok { OnOk result (self.new ≡ self.old ++ (url, Queued) ∷ []) }
    {
        self.links.places.push(Place::Queued)?;
        match add(&mut self.entries, url, Entry::External) {
            Ok(()) => return Ok(()),
            Err(_) => {
                let _ = self.links.places.pop();
                return Err(AllocError);
            }
        }
    }

    /// The loader was asked for the specifier with this number.
    pub fn set_asked(&mut self, number: usize)
        requires { number < length self.old }
        ensures at { (s t : Specifier) → slice_get (keys_at self.old) number ≡ Some s
            → value_at self.new t ≡ cond (bytes_eq t s) (Some Asked) (value_at self.old t) }
        ensures keys { keys_at self.new ≡ keys_at self.old }
    {
        // The proof learns from it that no specifier has two numbers.
        let _count = count(&self.entries);
        self.links.places.set(number, Place::Asked);
    }

    /// The specifier with this number waits.
    pub fn set_queued(&mut self, number: usize)
        requires { number < length self.old }
        ensures at { (s t : Specifier) → slice_get (keys_at self.old) number ≡ Some s
            → value_at self.new t ≡ cond (bytes_eq t s) (Some Queued) (value_at self.old t) }
        ensures keys { keys_at self.new ≡ keys_at self.old }
    {
        // The proof learns from it that no specifier has two numbers.
        let _count = count(&self.entries);
        self.links.places.set(number, Place::Queued);
    }

    /// A list of no links, to be filled for the next entry.
    pub fn no_links(&mut self) -> Vec<u32>
        ensures empty { result.items ≡ [] }
        ensures stays { self.new ≡ self.old }
    {
        let alloc = *self.spare.allocator();
        let mut links = mem::replace(&mut self.spare, Vec::new(alloc));
        links.clear();
        links
    }

    /// The specifier with this number has this entry, whose edges, or whose redirect, have these links.
    pub fn set_done(
        &mut self,
        number: usize,
        entry: Entry,
        mut links: Vec<u32>,
    ) -> Result<(), AllocError>
        requires there { number < length self.old }
        requires linked { AreLinks (keys_at self.old) links.items (ends_of entry) }
        ensures at { OnOk result ((s t : Specifier) → slice_get (keys_at self.old) number ≡ Some s
            → value_at self.new t ≡ cond (bytes_eq t s) (Some (Done entry)) (value_at self.old t)) }
        ensures keys { OnOk result (keys_at self.new ≡ keys_at self.old) }
    {
        // The proof learns from it that no specifier has two numbers.
        let _count = count(&self.entries);
        let start = self.links.total();
        self.links.numbers.append(&mut links)?;
        self.links.places.set(number, Place::Done(start));
        self.entries.set(number, entry);
        self.spare = links;
        Ok(())
    }

    /// The entries, where all are there, and where they lead.
    pub fn into_parts(self) -> (Numbered<Entry>, Links)
        requires { AreDone self }
        ensures entries { self ≡ all_done result.0 }
        ensures links { HaveLinks result.0 result.1 }
    {
        let Reached {
            entries,
            links,
            spare: _,
        } = self;
        (entries, links)
    }
}

fn is_asked(waiting: Place) -> bool
    ensures { IsTrue result ↔ (waiting ≡ place.Asked) }
{
    match waiting {
        Place::Asked => true,
        Place::Queued | Place::Done(_) => false,
    }
}
