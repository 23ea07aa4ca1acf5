//! A graph under construction, and then the graph.
ghost use Rattle.std.specs.Prelude.{◌≡◌, ◌<◌, IfSome, IfOk, OnErr, length, slice_get};
ghost use Rattle.std.specs.Option.{option_copied};
ghost use Rattle.graph_session.specs.Asking.{first_open_from};
ghost use Rattle.graph_session.specs.Session.{new_session, Polls, PollsBuild, Answers, AnswersIn, IsKnown};

use crate::loader::{AskedLoader, Given};
use crate::resolver::MapResolver;
use base::Items;
use graph_builder::{BuildError, BuildOptions, Following, Inner, ModuleGraph, Own};
use graph_entry::{LoadAnswer, ModuleAnalyzer};
use import_map::ImportMap;
use std::alloc::{AllocError, Global};
use url::Url;

/// A builder over a loader that somebody answers.
pub type AskedBuild<M> = Inner<AskedLoader, Own<MapResolver, M>>;

/// A graph under construction, and the graph once it is built.
#[derive(Drop)]
pub struct Session<M: ModuleAnalyzer + Drop> {
    pub build: AskedBuild<M>,
    pub graph: Option<ModuleGraph>,
}

impl<M: ModuleAnalyzer + Drop> Session<M> {
    /// Nothing is asked yet. By choice an import without an attribute may be of JSON.
    pub fn new(
        alloc: Global,
        roots: Items<Url>,
        options: BuildOptions,
        json_without_attribute: bool,
        map: Option<ImportMap>,
        analyzer: M,
    ) -> Result<Session<M>, AllocError>
        ensures { IfOk result (λ s. s ≡ new_session roots options json_without_attribute map analyzer) }
    {
        let BuildOptions {
            kind,
            limit,
            skip_dynamic_deps,
            imports,
        } = options;
        let own = Own {
            following: Following {
                kind,
                skip_dynamic_deps,
                json_without_attribute,
            },
            resolver: MapResolver { map },
            analyzer,
        };
        let loader = AskedLoader::new(alloc);
        match Inner::new(alloc, own, roots, imports, limit, loader) {
            Ok(build) => Ok(Session { build, graph: None }),
            Err(_) => Err(AllocError),
        }
    }

    /// Asks for all that is reached, and takes the answers that came. `Ok`: the graph is there.
    #[tactic(auto, using(crate::proofs::SessionLemmas::stays, crate::proofs::SessionLemmas::has_built, crate::proofs::SessionLemmas::has_none))]
    pub fn poll(&mut self) -> Result<(), BuildError>
        ensures { Polls M.reads self.old self.new result }
    {
        if self.graph.is_some() {
            return Ok(());
        }
        match poll_build(&mut self.build) {
            Ok(graph) => {
                self.graph = Some(graph);
                Ok(())
            }
            Err(error) => Err(error),
        }
    }

    /// The first request from a number on that has no answer yet: its number.
    pub fn wanted(&self, from: usize) -> Option<usize>
        ensures first { result ≡ first_open_from from self.now.build.loader.open_ones }
        ensures within { IfSome result (λ n. n < length self.now.build.loader.asked) }
    {
        self.build.loader().wanted(from)
    }

    /// The specifier of the request with this number.
    pub fn request(&self, number: usize) -> Option<&Url>
        ensures { option_copied result ≡ slice_get self.now.build.loader.asked number }
    {
        self.build.loader().request(number)
    }

    /// Answers the request with this number. Where the answer isn't taken, nothing changes.
    pub fn answer(&mut self, number: usize, answer: LoadAnswer) -> Result<Given, AllocError>
        ensures given { IfOk result (Answers number answer self.old self.new) }
        ensures kept { OnErr result (self.new ≡ self.old) }
    {
        answer_in(&mut self.build, number, answer)
    }
}

fn poll_build<M: ModuleAnalyzer + Drop>(
    build: &mut AskedBuild<M>,
) -> Result<ModuleGraph, BuildError>
    ensures { PollsBuild M.reads build.old build.new result }
{
    know(build);
    let polled = build.poll();
    know(build);
    polled
}

fn answer_in<M: ModuleAnalyzer + Drop>(
    build: &mut AskedBuild<M>,
    number: usize,
    answer: LoadAnswer,
) -> Result<Given, AllocError>
    ensures given { IfOk result (AnswersIn number answer build.old build.new) }
    ensures kept { OnErr result (build.new ≡ build.old) }
{
    let given = build.loader.give(number, answer);
    build.loader.know();
    given
}

// A proof learns from it what a builder keeps of its loader.
fn know<M: ModuleAnalyzer + Drop>(build: &AskedBuild<M>)
    ensures { IsKnown build.now }
{
    build.loader.know();
}
