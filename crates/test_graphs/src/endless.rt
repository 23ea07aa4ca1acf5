//! A loader that never runs out.
ghost use Rattle.std.specs.Prelude.{◌≡◌};

use base::SharedBytes;
use deno_graph::{Headers, LoadAnswer, Loader, LoaderPoll};
use graph_tables::ghost_log::GhostLog;
use std::alloc::{AllocError, Global};
use url::Url;

/// What happened to a loader.
#[derive(Drop)]
pub enum Happening {
    Asked(Url),
    Answered(Url, LoadAnswer),
}

/// Answers for `file:///n/0.ts`, `file:///n/1.ts` and so on, in this order, whatever it is asked for. Each imports the next one.
#[derive(Drop)]
pub struct Endless {
    alloc: Global,
    /// How often it was asked and polled.
    pub asked: u64,
    pub polled: u64,
    happened: GhostLog<Happening, ()>,
}

impl Endless {
    /// Nothing is asked yet.
    pub fn new(alloc: Global) -> Endless {
        Endless {
            alloc,
            asked: 0,
            polled: 0,
            happened: GhostLog::new(),
        }
    }

    // The specifier of the module with this number.
    fn specifier(&self, number: u64) -> Result<Url, AllocError> {
        let text = format!(in self.alloc; "file:///n/{number}.ts")?;
        match Url::parse(self.alloc, text.as_str()) {
            Ok(url) => Ok(url),
            Err(_) => Err(AllocError),
        }
    }

    // A module that imports the one with this number.
    fn importing(&self, number: u64) -> Result<LoadAnswer, AllocError> {
        let text = format!(in self.alloc; "import './{number}.ts'")?;
        Ok(LoadAnswer::Content {
            headers: Headers::new(self.alloc),
            bytes: SharedBytes::from_slice(self.alloc, text.as_bytes())?,
        })
    }
}

impl Loader for Endless {
    ghost use Rattle.test_graphs.specs.Endless.{data_of};

    ghost seen = { λ l. data_of l.happened.items };

    #[tactic(auto, using(crate::proofs::EndlessLemmas::started, crate::proofs::EndlessLemmas::unstarted))]
    fn start(&mut self, specifier: &Url) -> Result<(), AllocError> {
        let happening = Happening::Asked(specifier.clone()?);
        self.happened = self.happened.and(&happening, &());
        self.asked = self.asked.saturating_add(1);
        Ok(())
    }

    #[tactic(auto, using(crate::proofs::EndlessLemmas::polled, crate::proofs::EndlessLemmas::unpolled))]
    fn poll(&mut self) -> Result<LoaderPoll, AllocError> {
        let url = self.specifier(self.polled)?;
        let answer = self.importing(self.polled.saturating_add(1))?;
        let happening = Happening::Answered(url.clone()?, answer.copy()?);
        self.happened = self.happened.and(&happening, &());
        self.polled = self.polled.saturating_add(1);
        Ok(LoaderPoll::Answer(url, answer))
    }
}
