ghost use Rattle.std.specs.Prelude.{◌≡◌, [], ◌∷◌, ◌++◌, ℕ, List, Some, length, take, map, IfOk, OnOk, OnErr};
ghost use Rattle.es_token.specs.declared.token.Token.{Token as Tok};
ghost use Rattle.es_lowering.specs.Value.{nil};
ghost use Rattle.es_lowering.specs.Value as value;
ghost use Rattle.es_syntax.specs.Held.{valued};
ghost use Rattle.es_changed.specs.Formed.{formed, word_type};
ghost use Rattle.es_changed.specs.Changed.{type_node};
ghost use Rattle.es_changed.specs.Shape.{closed, headed, named, opened, old_entry, Writes};

use crate::cursor::ChangedSiblings;
use crate::entry::{Change, ChangedEntry, Form, Word};
use es_syntax::{Entry, Item, What};
use std::alloc::{AllocError, Global};
use std::marker::Model;

/// A changed row in the making. A call that fails leaves it as it was, but where it says otherwise.
#[derive(Drop)]
pub struct ChangedWriter {
    entries: Vec<ChangedEntry>,
}

impl Model for ChangedWriter {
    ghost use Rattle.std.specs.Prelude.{List};
    ghost use Rattle.es_changed.specs.declared.entry.ChangedEntry.{ChangedEntry};

    ghost Value = { List ChangedEntry };

    ghost view = { λ w. w.entries.items };
}

/// The entry in the place of a node that is open.
const OPEN: ChangedEntry = ChangedEntry {
    change: Change::Gone,
    from: 0,
    to: 0,
    size: 0,
};

/// Writes entries of the program's row, unchanged. A call that fails may have written some.
#[tactic(auto, using(crate::proofs::Kept::kept_none, crate::proofs::Kept::kept_next, crate::proofs::Kept::kept_done))]
fn push_old(out: &mut Vec<ChangedEntry>, entries: &[Entry]) -> Result<(), AllocError>
    ensures { OnOk result (out.new.items ≡ out.old.items ++ map old_entry entries.now) }
{
    let mut row = entries;
    while let Some((entry, rest)) = row.split_first() {
        out.push(ChangedEntry {
            change: Change::Old(entry.what),
            from: entry.from,
            to: entry.to,
            size: entry.size,
        })?;
        row = rest;
    }
    Ok(())
}

impl ChangedWriter {
    pub fn new(alloc: Global) -> ChangedWriter
        ensures { result ≡ [] }
    {
        ChangedWriter {
            entries: Vec::new(alloc),
        }
    }

    /// All that was written, to be read.
    pub fn row(&self) -> ChangedSiblings<'_>
        ensures { result.entries.now ≡ self.now }
    {
        ChangedSiblings {
            entries: self.entries.as_slice(),
        }
    }

    /// All that was written.
    pub fn into_entries(self) -> Vec<ChangedEntry>
        ensures { result.items ≡ self }
    {
        let ChangedWriter { entries } = self;
        entries
    }

    /// How many entries were written: the place of the next one.
    pub fn len(&self) -> usize
        ensures { result ≡ length self.now }
    {
        self.entries.len()
    }

    /// What has no parts.
    pub fn leaf(&mut self, change: Change, from: u32, to: u32) -> Result<(), AllocError>
        ensures written { OnOk result (self.new ≡ self.old ++ headed change from to []) }
        ensures kept { OnErr result (self.new ≡ self.old) }
    {
        self.entries.push(ChangedEntry {
            change,
            from,
            to,
            size: 0,
        })?;
        Ok(())
    }

    /// The text continues with this token: what isn't printed yet is dropped.
    #[tactic(auto, using(crate::proofs::Written::gone_written))]
    pub fn gone(&mut self, to: u32) -> Result<(), AllocError>
        ensures written { OnOk result ((x : List ℕ) (ts : List Tok) → Writes x ts self.old self.new []) }
        ensures kept { OnErr result (self.new ≡ self.old) }
    {
        self.leaf(Change::Gone, 0, to)
    }

    /// The tokens from the first of these to the second are dropped: what precedes them is printed.
    #[tactic(auto, using(crate::proofs::Written::gone_written))]
    pub fn dropped(&mut self, from: u32, to: u32) -> Result<(), AllocError>
        ensures written { OnOk result ((x : List ℕ) (ts : List Tok) → Writes x ts self.old self.new []) }
        ensures kept { OnErr result (self.new ≡ self.old) }
    {
        self.leaf(Change::Gone, from, to)
    }

    /// A keyword type that no text has.
    #[tactic(auto, using(crate::proofs::Written::word_written))]
    pub fn word(&mut self, word: Word) -> Result<(), AllocError>
        ensures written { OnOk result ((x : List ℕ) (ts : List Tok) → Writes x ts self.old self.new (type_node 0 0 (Some (word_type word)) ∷ [])) }
        ensures kept { OnErr result (self.new ≡ self.old) }
    {
        self.leaf(Change::Word(word), 0, 0)
    }

    /// A token of the text, as a part.
    #[tactic(auto, using(crate::proofs::Written::token_written))]
    pub fn token(&mut self, at: u32) -> Result<(), AllocError>
        ensures written { OnOk result ((x : List ℕ) (ts : List Tok) → Writes x ts self.old self.new (value.token at ∷ [])) }
        ensures kept { OnErr result (self.new ≡ self.old) }
    {
        self.leaf(Change::Old(What::Leaf), at, at)
    }

    /// A part that is absent: a group without parts.
    #[tactic(auto, using(crate::proofs::Written::empty_written))]
    pub fn absent(&mut self) -> Result<(), AllocError>
        ensures written { OnOk result ((x : List ℕ) (ts : List Tok) → Writes x ts self.old self.new (nil ∷ [])) }
        ensures kept { OnErr result (self.new ≡ self.old) }
    {
        self.leaf(Change::Old(What::Parts), 0, 0)
    }

    /// A form that has no parts.
    #[tactic(auto, using(crate::proofs::Written::bare_written))]
    pub fn bare(&mut self, form: Form, from: u32, to: u32) -> Result<(), AllocError>
        ensures written { OnOk result ((x : List ℕ) (ts : List Tok) → Writes x ts self.old self.new (formed x ts form from to nil ∷ [])) }
        ensures kept { OnErr result (self.new ≡ self.old) }
    {
        self.leaf(Change::Form(form), from, to)
    }

    /// Opens a node: what is written until it is closed are its parts. The answer is its place.
    pub fn open(&mut self) -> Result<usize, AllocError>
        ensures place { IfOk result (λ at. at ≡ length self.old) }
        ensures written { OnOk result (self.new ≡ self.old ++ opened) }
        ensures kept { OnErr result (self.new ≡ self.old) }
    {
        let at = self.entries.len();
        self.entries.push(OPEN)?;
        Ok(at)
    }

    /// Closes the node that was opened at this place. More parts than fit 32 bits, and a place without an entry, are
    /// reported as out of memory.
    #[tactic(auto, using(crate::proofs::Written::closed_set))]
    pub fn close(&mut self, at: usize, change: Change, from: u32, to: u32) -> Result<(), AllocError>
        ensures written { OnOk result (self.new ≡ closed change from to at self.old) }
        ensures kept { OnErr result (self.new ≡ self.old) }
    {
        if at >= self.entries.len() {
            return Err(AllocError);
        }
        let size = self.entries.len() - at - 1;
        match u32::try_from(size) {
            Ok(size) => {
                self.entries[at] = ChangedEntry {
                    change,
                    from,
                    to,
                    size,
                };
                Ok(())
            }
            Err(_) => Err(AllocError),
        }
    }

    /// Makes the node that was opened at this place the made name of this number, which what was written since follows. A place
    /// without an entry is reported as out of memory.
    #[tactic(auto, using(crate::proofs::Written::named_set))]
    pub fn name_at(&mut self, at: usize, number: u32) -> Result<(), AllocError>
        ensures written { OnOk result (self.new ≡ named number at self.old) }
        ensures kept { OnErr result (self.new ≡ self.old) }
    {
        if at >= self.entries.len() {
            return Err(AllocError);
        }
        self.entries[at] = ChangedEntry {
            change: Change::Form(Form::MadeName),
            from: number,
            to: 0,
            size: 0,
        };
        Ok(())
    }

    /// Copies what is at a place of the program's row, with its parts. A call that fails may have written some of them.
    #[tactic(auto, using(crate::proofs::Kept::kept_headed))]
    pub fn keep(&mut self, item: &Item<'_>) -> Result<(), AllocError>
        ensures { OnOk result ((x : List ℕ) (ts : List Tok) → Writes x ts self.old self.new (valued x ts item.now ∷ [])) }
    {
        match u32::try_from(item.parts.entries.len()) {
            Ok(size) => {
                self.entries.push(ChangedEntry {
                    change: Change::Old(item.what),
                    from: item.from,
                    to: item.to,
                    size,
                })?;
                push_old(&mut self.entries, item.parts.entries)
            }
            Err(_) => Err(AllocError),
        }
    }

    /// Drops what was written from this place on.
    pub fn back_to(&mut self, at: usize)
        ensures { self.new ≡ take at self.old }
    {
        self.entries.truncate(at);
    }
}
