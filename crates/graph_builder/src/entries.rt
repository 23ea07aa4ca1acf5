//! The entries of a graph, one after another.
ghost use Rattle.std.specs.Prelude.{◌≡◌, ◌<◌, ℕ, Some, length, slice_get};

use graph_entry::Entry;
use graph_tables::specifier_table::Numbered;
use url::Url;

/// The entries of a graph, each with its specifier.
#[derive(Drop)]
pub struct Entries<'a> {
    all: &'a Numbered<Entry>,
    // The numbers of those that are still to come.
    rest: &'a [usize],
    ghost within: { (i n : ℕ) → slice_get rest.now i ≡ Some n → n < length all.now },
}

impl<'a> Entries<'a> {
    /// The entries with these numbers.
    pub(crate) fn new(all: &'a Numbered<Entry>, rest: &'a [usize]) -> Entries<'a>
        requires { (i n : ℕ) → slice_get rest.now i ≡ Some n → n < length all.now }
        ensures all { result.all.now ≡ all.now }
        ensures rest { result.rest.now ≡ rest.now }
    {
        Entries { all, rest }
    }
}

impl<'a> Iterator for Entries<'a> {
    type Item = (&'a Url, &'a Entry);

    ghost use Rattle.std.specs.Iterator.{YieldsFirstBy, item_count};
    ghost use Rattle.graph_builder.specs.Entries.{entry_pair, entries_left};

    ghost next_gives = { YieldsFirstBy entry_pair entries_left };

    ghost remaining = { item_count entries_left };

    fn next(&mut self) -> Option<(&'a Url, &'a Entry)> {
        let (first, rest) = self.rest.split_first()?;
        let number = *first;
        let Some(url) = self.all.numbered(number) else {
            unreachable!()
        };
        let Some(entry) = self.all.value(number) else {
            unreachable!()
        };
        self.rest = rest;
        Some((url, entry))
    }
}
