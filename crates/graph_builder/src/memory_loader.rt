//! A loader in memory that keeps its log.
ghost use Rattle.std.specs.Prelude.{◌≡◌, IfOk};
ghost use Rattle.graph_entry.specs.Specifier.{text_of};
ghost use Rattle.graph_builder.specs.Loader.{HasStarted, HasPolled};
ghost use Rattle.graph_builder.specs.Memory.{new_memory, data_of, IsStarted, IsPolled};

use crate::loader::{Loader, LoaderPoll};
use crate::unlogged_loader::UnloggedLoader;
use base::Items;
use graph_entry::LoadAnswer;
use std::alloc::{AllocError, Global};
use std::marker::Model;
use url::Url;

/// An item of a list that says in which order answers come.
#[derive(Drop)]
pub enum Arrival {
    /// The answer for this specifier, if it is outstanding; else the item is dropped.
    Answer(Url),
    /// Nothing has come.
    Pending,
    /// The answer for this specifier in any case.
    Force(Url),
}

/// A loader that has its modules in memory, and answers in the order of an arrival list.
/// After the list it answers the oldest outstanding request. It keeps a copy of each request and of each answer:
/// an [`UnloggedLoader`] answers the same, and keeps none.
#[derive(Drop)]
pub struct MemoryLoader {
    inner: UnloggedLoader,
    asked: Vec<Url>,
    log: Vec<(Url, LoadAnswer)>,
}

impl Model for MemoryLoader {
    ghost use Rattle.std.specs.Prelude.{◌≡◌};
    ghost use Rattle.graph_builder.specs.Memory.{Memory};

    ghost Value = { Memory };

    ghost view = { λ m. m.inner };

    ghost invariant = { λ m. (m.asked.items ≡ m.inner.asked) × (m.log.items ≡ m.inner.log) };
}

impl MemoryLoader {
    /// A loader with these modules and this arrival list. Of modules with one specifier the first counts;
    /// a specifier without module is answered `Absent`.
    pub fn new(
        alloc: Global,
        modules: Items<(Url, LoadAnswer)>,
        arrival: Items<Arrival>,
    ) -> Result<MemoryLoader, AllocError>
        ensures { IfOk result (λ l. l ≡ new_memory modules arrival) }
    {
        let inner = UnloggedLoader::new(alloc, modules, arrival)?;
        Ok(MemoryLoader {
            inner,
            asked: Vec::new(alloc),
            log: Vec::new(alloc),
        })
    }

    /// The specifiers that it was asked for.
    pub fn asked(&self) -> &[Url]
        ensures { result.now ≡ self.now.asked }
    {
        self.asked.as_slice()
    }

    /// The answers that it gave.
    pub fn log(&self) -> &[(Url, LoadAnswer)]
        ensures { result.now ≡ self.now.log }
    {
        self.log.as_slice()
    }
}

impl Loader for MemoryLoader {
    ghost seen = { data_of };

    fn start(&mut self, specifier: &Url) -> Result<(), AllocError>
        ensures exact { IsStarted self.old specifier.now result self.new }
        ensures started { HasStarted (text_of specifier.now) (data_of self.old) (data_of self.new) result }
    {
        let asked = specifier.clone()?;
        self.asked.reserve(1)?;
        self.inner.start(specifier)?;
        self.asked.push(asked)?;
        Ok(())
    }

    #[tactic(auto, using(crate::proofs::MemoryLemmas::polled_next, crate::proofs::MemoryLemmas::polled_none, crate::proofs::MemoryLemmas::polled_asked))]
    fn poll(&mut self) -> Result<LoaderPoll, AllocError>
        ensures exact { IsPolled self.old result self.new }
        ensures polled { HasPolled (data_of self.old) (data_of self.new) result }
    {
        let next = self.inner.next_answer()?;
        self.log.reserve(1)?;
        let polled = self.inner.poll()?;
        if let Some(logged) = next {
            self.log.push(logged)?;
        }
        Ok(polled)
    }
}
