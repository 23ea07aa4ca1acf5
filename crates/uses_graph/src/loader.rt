//! A loader of the program's own: one in memory, which counts its requests.
ghost use Rattle.std.specs.Prelude.{◌≡◌};
ghost use Rattle.graph_builder.specs.Memory.{data_of};

use base::{Items, SharedBytes};
use deno_graph::{Arrival, Headers, LoadAnswer, Loader, LoaderPoll, MemoryLoader};
use std::alloc::{AllocError, Global};
use url::Url;

/// The modules: a specifier and its text.
static MODULES: [(&str, &str); 2] = [
    (
        "file:///app/main.ts",
        "import \"./log.ts\";\nimport \"./missing.ts\";\n",
    ),
    ("file:///app/log.ts", "// nothing to import\n"),
];

/// Answers from the list above, once nothing has come for two polls, as a loader over a network would.
#[derive(Drop)]
pub struct CountingLoader {
    inner: MemoryLoader,
    requests: usize,
}

impl CountingLoader {
    /// Nothing is asked for yet.
    pub fn new(alloc: Global) -> anyhow::Result<CountingLoader> {
        let mut modules = Items::new(alloc);
        for (name, text) in MODULES {
            let answer = LoadAnswer::Content {
                headers: Headers::new(alloc),
                bytes: SharedBytes::from_slice(alloc, text.as_bytes())?,
            };
            modules.push((Url::parse(alloc, name)?, answer))?;
        }
        let mut arrival = Items::new(alloc);
        arrival.push(Arrival::Pending)?;
        arrival.push(Arrival::Pending)?;
        Ok(CountingLoader {
            inner: MemoryLoader::new(alloc, modules, arrival)?,
            requests: 0,
        })
    }

    /// How often it was asked for a module.
    pub fn requests(&self) -> usize
        ensures { result ≡ self.now.requests }
    {
        self.requests
    }
}

impl Loader for CountingLoader {
    // What the contract of a loader speaks of is that of the loader within.
    ghost seen = { λ l. data_of l.inner };

    fn start(&mut self, specifier: &Url) -> Result<(), AllocError> {
        self.requests = self.requests.saturating_add(1);
        self.inner.start(specifier)
    }

    fn poll(&mut self) -> Result<LoaderPoll, AllocError> {
        self.inner.poll()
    }
}
