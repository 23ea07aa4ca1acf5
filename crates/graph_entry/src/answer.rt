//! What a loader answers.
ghost use Rattle.std.specs.Prelude.{◌≡◌, IfOk};

use crate::headers::Headers;
use base::SharedBytes;
use std::alloc::AllocError;
use url::Url;

/// What a loader answers for a specifier.
#[derive(Debug, Drop)]
pub enum LoadAnswer {
    Content {
        headers: Headers,
        bytes: SharedBytes,
    },
    /// The module is at another specifier.
    Redirect(Url),
    /// The module isn't part of the graph's sources.
    External,
    /// There is no such module.
    Absent,
    /// The loader could not tell.
    Failed,
}

impl LoadAnswer {
    /// The same answer; its bytes are shared.
    pub fn copy(&self) -> Result<LoadAnswer, AllocError>
        ensures { IfOk result (λ a. a ≡ self.now) }
    {
        Ok(match self {
            LoadAnswer::Content { headers, bytes } => LoadAnswer::Content {
                headers: headers.copy()?,
                bytes: bytes.copy()?,
            },
            LoadAnswer::Redirect(target) => LoadAnswer::Redirect(target.clone()?),
            LoadAnswer::External => LoadAnswer::External,
            LoadAnswer::Absent => LoadAnswer::Absent,
            LoadAnswer::Failed => LoadAnswer::Failed,
        })
    }
}
