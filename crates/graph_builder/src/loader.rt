//! What loads: a loader is asked for specifiers and polled for answers.
ghost use Rattle.std.specs.Prelude.{◌≡◌};
ghost use Rattle.graph_entry.specs.Specifier.{text_of};
ghost use Rattle.graph_builder.specs.Loader.{LoaderData, HasStarted, HasPolled};

use graph_entry::LoadAnswer;
use std::alloc::AllocError;
use url::Url;

/// What a poll of a loader gives.
#[derive(Drop)]
pub enum LoaderPoll {
    /// Nothing has come yet.
    Pending,
    /// The answer for this specifier. It need not be one that was asked for.
    Answer(Url, LoadAnswer),
}

/// A loader of modules. It is asked for specifiers and answers them in whatever order it likes.
pub trait Loader {
    /// what happened to it, how often nothing had come, and what it says beforehand
    ghost seen: { Self → LoaderData };

    /// Asks for a specifier.
    fn start(&mut self, specifier: &Url) -> Result<(), AllocError>
        ensures started { HasStarted (text_of specifier.now) (seen self.old) (seen self.new) result };

    /// Gives the next answer, if one has come.
    fn poll(&mut self) -> Result<LoaderPoll, AllocError>
        ensures polled { HasPolled (seen self.old) (seen self.new) result };
}
