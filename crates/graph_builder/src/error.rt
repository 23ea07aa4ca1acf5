//! Why a poll of a builder gives no graph.
use thiserror::Error;
use url::Url;

/// Why a poll gives no graph. After every error but `NotYet` the builder is finished.
#[derive(Debug, Drop, PartialEq, Eq, Error)]
pub enum BuildError {
    /// The loader has nothing to give yet: poll again.
    #[error("NotYet")]
    NotYet,
    /// Counting stopped at `seen`, the first number above the limit.
    #[error("TooManyModules")]
    TooManyModules { seen: usize },
    /// The loader answered for a specifier that was not awaited.
    #[error("UnaskedAnswer")]
    UnaskedAnswer(Url),
    /// An earlier poll gave the graph or an error other than `NotYet`.
    #[error("Finished")]
    Finished,
    #[error("out of memory")]
    OutOfMemory,
}
