ghost use Rattle.std.specs.Prelude.{◌≡◌, ◌<◌, ◌≤◌, ◌+◌, [], ◌∷◌, ◌++◌, length, take, drop, IfOk, OnOk, OnErr};
ghost use Rattle.es_syntax.specs.Written.{closed, headed, opened};
ghost use Rattle.es_syntax.specs.declared.entry.What.TheVariants as vWhat;

use crate::cursor::Siblings;
use crate::entry::{Entry, What};
use std::alloc::{AllocError, Global};
use std::marker::Model;

/// A row of entries in the making. A call that fails leaves it as it was.
#[derive(Drop)]
pub struct Writer {
    entries: Vec<Entry>,
}

impl Model for Writer {
    ghost use Rattle.std.specs.Prelude.{List};
    ghost use Rattle.es_syntax.specs.declared.entry.Entry.{Entry};

    ghost Value = { List Entry };

    ghost view = { λ w. w.entries.items };
}

/// What takes the place of a node that is open.
const OPEN: Entry = Entry {
    what: What::Parts,
    from: 0,
    to: 0,
    size: 0,
};

impl Writer {
    pub fn new(alloc: Global) -> Writer
        ensures { result ≡ [] }
    {
        Writer {
            entries: Vec::new(alloc),
        }
    }

    /// All that was written, to be read.
    pub fn row(&self) -> Siblings<'_>
        ensures { result.entries.now ≡ self.now }
    {
        Siblings {
            entries: self.entries.as_slice(),
        }
    }

    /// All that was written.
    pub fn into_entries(self) -> Vec<Entry>
        ensures { result.items ≡ self }
    {
        let Writer { entries } = self;
        entries
    }

    /// How many entries were written: the place of the next one.
    pub fn len(&self) -> usize
        ensures { result ≡ length self.now }
    {
        self.entries.len()
    }

    fn push(&mut self, entry: Entry) -> Result<(), AllocError>
        ensures written { OnOk result (self.new ≡ self.old ++ entry ∷ []) }
        ensures kept { OnErr result (self.new ≡ self.old) }
    {
        self.entries.push(entry)?;
        Ok(())
    }

    /// What has no parts.
    pub fn leaf(&mut self, what: What, from: u32, to: u32) -> Result<(), AllocError>
        ensures written { OnOk result (self.new ≡ self.old ++ headed what from to []) }
        ensures kept { OnErr result (self.new ≡ self.old) }
    {
        self.push(Entry {
            what,
            from,
            to,
            size: 0,
        })
    }

    /// Opens a node: what is written until it is closed are its parts. The answer is its place.
    pub fn open(&mut self) -> Result<usize, AllocError>
        ensures place { IfOk result (λ at. at ≡ length self.old) }
        ensures written { OnOk result (self.new ≡ self.old ++ opened) }
        ensures kept { OnErr result (self.new ≡ self.old) }
    {
        let at = self.entries.len();
        self.push(OPEN)?;
        Ok(at)
    }

    /// Opens a node before what was written from this place on: that, and what is written until it is closed, are its parts.
    #[tactic(auto, using(crate::proofs::Written::opened_there))]
    pub fn open_before(&mut self, at: usize) -> Result<(), AllocError>
        ensures written { OnOk result (self.new ≡ (take at self.old ++ opened) ++ drop at self.old) }
        ensures kept { OnErr result (self.new ≡ self.old) }
    {
        let there = at.min(self.entries.len());
        self.entries.insert(there, OPEN)?;
        Ok(())
    }

    /// Closes the node that was opened at this place. Fails with `AllocError` where its parts take more entries than fit 32
    /// bits, or where nothing is at this place.
    #[tactic(auto, using(crate::proofs::Written::closed_set))]
    pub fn close(&mut self, at: usize, what: What, from: u32, to: u32) -> Result<(), AllocError>
        ensures written { OnOk result (self.new ≡ closed what from to at self.old) }
        ensures kept { OnErr result (self.new ≡ self.old) }
    {
        if at >= self.entries.len() {
            return Err(AllocError);
        }
        let size = self.entries.len() - at - 1;
        match u32::try_from(size) {
            Ok(size) => {
                self.entries[at] = Entry {
                    what,
                    from,
                    to,
                    size,
                };
                Ok(())
            }
            Err(_) => Err(AllocError),
        }
    }

    /// Takes away what was written from this place on.
    pub fn back_to(&mut self, at: usize)
        ensures { self.new ≡ take at self.old }
    {
        self.entries.truncate(at);
    }
}
