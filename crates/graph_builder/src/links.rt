//! Where the edges and redirects of entries lead, as numbers.
ghost use Rattle.std.specs.Prelude.{◌≡◌, ◌<◌, Some, IfSome, length, slice_get};
ghost use Rattle.graph_entry.specs.Specifier.{text_of};
ghost use Rattle.graph_builder.specs.ByText.{number_of};
ghost use Rattle.graph_builder.specs.Links.{no_link, end_at, IsKept, IsLinked, HaveLinks};
ghost use Rattle.graph_builder.specs.Stops.{IsStop};

use crate::by_number::{count, number};
use base::Items;
use graph_entry::Entry;
use graph_tables::specifier_table::Numbered;
use url::Url;

/// A link that has no number.
pub const NO_LINK: u32 = 4_294_967_295;

/// What is known of the entry with a number.
#[derive(Clone, Copy)]
pub enum Place {
    /// It waits on the worklist.
    Queued,
    /// The loader was asked for it.
    Asked,
    /// It is there, and its links begin at this place of the list.
    Done(usize),
}

/// For each edge of an entry, followed or not, and for a redirect, the number of its target, where that is known.
#[derive(Drop)]
pub struct Links {
    pub places: Items<Place>,
    /// The links of one entry are adjacent, in the order of its edges.
    pub numbers: Vec<u32>,
}

/// A specifier and its number, if it has one.
#[derive(Clone, Copy)]
pub struct Stop<'a> {
    pub specifier: &'a Url,
    pub number: Option<usize>,
}

impl Links {
    /// The number at an edge of an entry, counted from 0, or at a redirect, which is as one edge.
    pub fn target(&self, entry: usize, edge: usize) -> Option<usize>
        ensures { IfSome result (λ m. IsLinked self.now entry edge m) }
    {
        match self.places.get(entry) {
            Some(Place::Done(start)) => self.number_at(start.checked_add(edge)?),
            Some(Place::Queued | Place::Asked) | None => None,
        }
    }

    /// How many links there are.
    pub fn total(&self) -> usize
        ensures { result ≡ length self.now.numbers.items }
    {
        self.numbers.as_slice().len()
    }

    // The number in this place of the list.
    fn number_at(&self, at: usize) -> Option<usize>
        ensures { IfSome result (λ m. (slice_get self.now.numbers.items at ≡ Some m) × (m < no_link)) }
    {
        let link = *self.numbers.get(at)?;
        if link < NO_LINK {
            Some(link as usize)
        } else {
            None
        }
    }
}

/// A number as a link keeps it: a greater one isn't kept.
pub fn link_to(number: usize) -> u32
    ensures { IsKept number result }
{
    if number < 4_294_967_295 {
        number as u32
    } else {
        NO_LINK
    }
}

/// The target of an edge of an entry, with its number: the edge's link, or else what is found by the target's text.
pub fn end_of<'a>(
    all: &Numbered<Entry>,
    links: &Links,
    entry: usize,
    edge: usize,
    target: &'a Url,
) -> Stop<'a>
    requires linked { HaveLinks all.now links.now }
    requires end { end_at all.now entry edge ≡ Some (text_of target.now) }
    ensures specifier { result.specifier.now ≡ target.now }
    ensures stop { IsStop all.now result }
{
    Stop {
        specifier: target,
        number: number_of_end(all, links, entry, edge, target),
    }
}

fn number_of_end(
    all: &Numbered<Entry>,
    links: &Links,
    entry: usize,
    edge: usize,
    target: &Url,
) -> Option<usize>
    requires linked { HaveLinks all.now links.now }
    requires end { end_at all.now entry edge ≡ Some (text_of target.now) }
    ensures { result ≡ number_of all.now (text_of target.now) }
{
    // The proof learns from it that no specifier has two numbers.
    let _count = count(all);
    match links.target(entry, edge) {
        Some(number) => Some(number),
        None => number(all, target),
    }
}

/// A specifier with its number, which is found by its text.
pub fn stop_at<'a>(all: &Numbered<Entry>, specifier: &'a Url) -> Stop<'a>
    ensures specifier { result.specifier.now ≡ specifier.now }
    ensures stop { IsStop all.now result }
{
    Stop {
        specifier,
        number: number(all, specifier),
    }
}
