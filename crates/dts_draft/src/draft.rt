//! Single steps of a draft.

ghost use Rattle.std.specs.Prelude.{◌≡◌, [], ◌∷◌, ◌++◌, ◌+◌, false, true, ℕ, List, Some, length, take};
ghost use Rattle.es_token.specs.declared.token.Token.{Token as Tok};
ghost use Rattle.es_lowering.specs.Value.{nil};
ghost use Rattle.es_lowering.specs.Value as value;
ghost use Rattle.es_syntax.specs.Held.{valued};
ghost use Rattle.es_changed.specs.Formed.{formed, word_type};
ghost use Rattle.es_changed.specs.Changed.{type_node};
ghost use Rattle.es_changed.specs.Shape.{closed, named, opened, Writes};
ghost use Rattle.dts_rules.specs.Rules.{State, note, drawn};
ghost use Rattle.dts_draft.specs.Drafts.{state_of};

use base::Range;
use dts_rules::{Found, FoundKind};
use es_changed::{Change, ChangedWriter, Form, Word};
use es_syntax::Item;
use std::alloc::Global;

/// The row, the diagnostics in order, how many names were made, and whether memory ran out.
#[derive(Drop)]
pub struct Draft {
    pub row: ChangedWriter,
    pub found: Vec<Found>,
    pub made: u32,
    pub failed: bool,
}

impl Draft {
    /// An empty row, after these diagnostics and so many made names.
    pub fn new(alloc: Global, found: Vec<Found>, made: u32) -> Draft
        ensures row { result.row ≡ [] }
        ensures found { result.found ≡ found }
        ensures made { result.made ≡ made }
        ensures failed { result.failed ≡ false }
    {
        Draft {
            row: ChangedWriter::new(alloc),
            found,
            made,
            failed: false,
        }
    }

    /// From now on nothing is said of the draft.
    pub fn fail(&mut self)
        ensures failed { self.new.failed ≡ true }
        ensures row { self.new.row ≡ self.old.row }
        ensures state { state_of self.new ≡ state_of self.old }
    {
        self.failed = true;
    }

    /// How many entries were written.
    pub fn len(&self) -> usize
        ensures { result ≡ length self.now.row }
    {
        self.row.len()
    }

    /// The text continues with this token.
    pub fn gone(&mut self, to: u32)
        ensures before { self.new.failed ≡ false → self.old.failed ≡ false }
        ensures state { state_of self.new ≡ state_of self.old }
        ensures written { self.new.failed ≡ false → (x : List ℕ) (ts : List Tok) → Writes x ts self.old.row self.new.row [] }
    {
        if self.row.gone(to).is_err() {
            self.failed = true;
        }
    }

    /// The tokens from the first of these to the second are dropped.
    pub fn dropped(&mut self, from: u32, to: u32)
        ensures before { self.new.failed ≡ false → self.old.failed ≡ false }
        ensures state { state_of self.new ≡ state_of self.old }
        ensures written { self.new.failed ≡ false → (x : List ℕ) (ts : List Tok) → Writes x ts self.old.row self.new.row [] }
    {
        if self.row.dropped(from, to).is_err() {
            self.failed = true;
        }
    }

    /// A keyword type.
    pub fn word(&mut self, word: Word)
        ensures before { self.new.failed ≡ false → self.old.failed ≡ false }
        ensures state { state_of self.new ≡ state_of self.old }
        ensures written { self.new.failed ≡ false → (x : List ℕ) (ts : List Tok) → Writes x ts self.old.row self.new.row (type_node 0 0 (Some (word_type word)) ∷ []) }
    {
        if self.row.word(word).is_err() {
            self.failed = true;
        }
    }

    /// A token of the text.
    pub fn token(&mut self, at: u32)
        ensures before { self.new.failed ≡ false → self.old.failed ≡ false }
        ensures state { state_of self.new ≡ state_of self.old }
        ensures written { self.new.failed ≡ false → (x : List ℕ) (ts : List Tok) → Writes x ts self.old.row self.new.row (value.token at ∷ []) }
    {
        if self.row.token(at).is_err() {
            self.failed = true;
        }
    }

    /// A part that is absent.
    pub fn absent(&mut self)
        ensures before { self.new.failed ≡ false → self.old.failed ≡ false }
        ensures state { state_of self.new ≡ state_of self.old }
        ensures written { self.new.failed ≡ false → (x : List ℕ) (ts : List Tok) → Writes x ts self.old.row self.new.row (nil ∷ []) }
    {
        if self.row.absent().is_err() {
            self.failed = true;
        }
    }

    /// A form without parts.
    pub fn bare(&mut self, form: Form, from: u32, to: u32)
        ensures before { self.new.failed ≡ false → self.old.failed ≡ false }
        ensures state { state_of self.new ≡ state_of self.old }
        ensures written { self.new.failed ≡ false → (x : List ℕ) (ts : List Tok) → Writes x ts self.old.row self.new.row (formed x ts form from to nil ∷ []) }
    {
        if self.row.bare(form, from, to).is_err() {
            self.failed = true;
        }
    }

    /// What is at a place of the program's row, unchanged.
    pub fn keep_there(&mut self, item: &Item<'_>)
        ensures before { self.new.failed ≡ false → self.old.failed ≡ false }
        ensures state { state_of self.new ≡ state_of self.old }
        ensures written { self.new.failed ≡ false → (x : List ℕ) (ts : List Tok) → Writes x ts self.old.row self.new.row (valued x ts item.now ∷ []) }
    {
        if self.row.keep(item).is_err() {
            self.failed = true;
        }
    }

    /// Opens a node, and answers its place.
    pub fn open(&mut self) -> usize
        ensures before { self.new.failed ≡ false → self.old.failed ≡ false }
        ensures state { state_of self.new ≡ state_of self.old }
        ensures place { self.new.failed ≡ false → result ≡ length self.old.row }
        ensures written { self.new.failed ≡ false → self.new.row ≡ self.old.row ++ opened }
    {
        match self.row.open() {
            Ok(at) => at,
            Err(_) => {
                self.failed = true;
                0
            }
        }
    }

    /// Closes the node that was opened at this place.
    pub fn close(&mut self, at: usize, change: Change, from: u32, to: u32)
        ensures before { self.new.failed ≡ false → self.old.failed ≡ false }
        ensures state { state_of self.new ≡ state_of self.old }
        ensures written { self.new.failed ≡ false → self.new.row ≡ closed change from to at self.old.row }
    {
        if self.row.close(at, change, from, to).is_err() {
            self.failed = true;
        }
    }

    /// The made name of this number, in the place of what was opened there, before what was written since.
    pub fn name_at(&mut self, at: usize, number: u32)
        ensures before { self.new.failed ≡ false → self.old.failed ≡ false }
        ensures state { state_of self.new ≡ state_of self.old }
        ensures written { self.new.failed ≡ false → self.new.row ≡ named number at self.old.row }
    {
        if self.row.name_at(at, number).is_err() {
            self.failed = true;
        }
    }

    /// Removes what was written from this place on.
    pub fn back_to(&mut self, at: usize)
        ensures failed { self.new.failed ≡ self.old.failed }
        ensures state { state_of self.new ≡ state_of self.old }
        ensures row { self.new.row ≡ take at self.old.row }
    {
        self.row.back_to(at);
    }

    /// One diagnostic more.
    pub fn note(&mut self, kind: FoundKind, range: Range)
        ensures before { self.new.failed ≡ false → self.old.failed ≡ false }
        ensures row { self.new.row ≡ self.old.row }
        ensures noted { self.new.failed ≡ false → state_of self.new ≡ note kind range (state_of self.old) }
    {
        if self.found.push(Found { kind, range }).is_err() {
            self.failed = true;
        }
    }

    /// The number of the next made name.
    pub fn draw(&mut self) -> u32
        ensures before { self.new.failed ≡ false → self.old.failed ≡ false }
        ensures row { self.new.row ≡ self.old.row }
        ensures drawn { self.new.failed ≡ false → state_of self.new ≡ drawn (state_of self.old) }
        ensures number { self.new.failed ≡ false → result ≡ self.old.made + 1 }
    {
        match self.made.checked_add(1) {
            Some(made) => {
                self.made = made;
                made
            }
            None => {
                self.failed = true;
                0
            }
        }
    }
}
