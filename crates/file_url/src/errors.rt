//! Why a call has no answer.
ghost use Rattle.std.specs.Prelude.{◌≡◌, IfOk};
ghost use Rattle.file_url.specs.declared.errors.SpecifierError.TheVariants as specifier;
ghost use Rattle.file_url.specs.declared.errors.UrlToFilePathError.TheVariants as to_path;
ghost use Rattle.file_url.specs.declared.errors.PathToUrlError.TheVariants as to_url;
ghost use Rattle.file_url.specs.declared.errors.ResolveUrlOrPathError.TheVariants as resolve;

use base::Text;
use std::alloc::AllocError;
use thiserror::Error;
use url::{ParseError, Url};

/// Why an import has no URL.
#[derive(Debug, Drop, PartialEq, Eq, Error)]
pub enum SpecifierError {
    /// The specifier is no URL, and begins with none of `/`, `./` and `../`.
    #[error("Import \"{specifier}\" not a dependency")]
    ImportPrefixMissing { specifier: Text },
    /// The URL Standard's own refusal of reading or joining; never that memory ran out.
    #[error("invalid URL: {0}")]
    InvalidUrl(ParseError),
    #[error("out of memory")]
    OutOfMemory,
}

impl SpecifierError {
    pub fn copy(&self) -> Result<SpecifierError, AllocError>
        ensures { IfOk result (λ e. e ≡ self.now) }
    {
        Ok(match self {
            SpecifierError::ImportPrefixMissing { specifier } => {
                SpecifierError::ImportPrefixMissing {
                    specifier: specifier.copy()?,
                }
            }
            SpecifierError::InvalidUrl(error) => SpecifierError::InvalidUrl(*error),
            SpecifierError::OutOfMemory => SpecifierError::OutOfMemory,
        })
    }
}

impl From<AllocError> for SpecifierError {
    ghost from_gives = { λ _ e. e ≡ specifier.OutOfMemory };

    fn from(_: AllocError) -> SpecifierError {
        SpecifierError::OutOfMemory
    }
}

/// Why a URL has no path.
#[derive(Debug, Drop, Error)]
pub enum UrlToFilePathError {
    /// The URL isn't a file's, has a host, or its path is no UTF-8.
    #[error("Could not convert URL to file path.\n  URL: {0}")]
    Url(Url),
    #[error("out of memory")]
    OutOfMemory,
}

impl From<AllocError> for UrlToFilePathError {
    ghost from_gives = { λ _ e. e ≡ to_path.OutOfMemory };

    fn from(_: AllocError) -> UrlToFilePathError {
        UrlToFilePathError::OutOfMemory
    }
}

/// Why a path has no URL.
#[derive(Debug, Drop, PartialEq, Eq, Error)]
pub enum PathToUrlError {
    /// The normalized path doesn't begin with `/`. Of the calls in `_wasm`: the path has no backslash, and a component
    /// of it is `.` or `..`. The path is kept: the normalized one, or the one that was given in `_wasm`.
    #[error("Could not convert path to URL.\n  Path: {0}")]
    Path(Text),
    #[error("out of memory")]
    OutOfMemory,
}

impl PathToUrlError {
    pub fn copy(&self) -> Result<PathToUrlError, AllocError>
        ensures { IfOk result (λ e. e ≡ self.now) }
    {
        Ok(match self {
            PathToUrlError::Path(path) => PathToUrlError::Path(path.copy()?),
            PathToUrlError::OutOfMemory => PathToUrlError::OutOfMemory,
        })
    }
}

impl From<AllocError> for PathToUrlError {
    ghost from_gives = { λ _ e. e ≡ to_url.OutOfMemory };

    fn from(_: AllocError) -> PathToUrlError {
        PathToUrlError::OutOfMemory
    }
}

/// Why a specifier is neither a URL nor a path.
#[derive(Debug, Drop, PartialEq, Eq, Error)]
pub enum ResolveUrlOrPathError {
    /// The URL Standard's own refusal; never that memory ran out.
    #[error("{0}")]
    UrlParse(ParseError),
    /// The refusal of `resolve_path`; never that memory ran out.
    #[error("{0}")]
    PathToUrl(PathToUrlError),
    #[error("out of memory")]
    OutOfMemory,
}

impl ResolveUrlOrPathError {
    pub fn copy(&self) -> Result<ResolveUrlOrPathError, AllocError>
        ensures { IfOk result (λ e. e ≡ self.now) }
    {
        Ok(match self {
            ResolveUrlOrPathError::UrlParse(error) => ResolveUrlOrPathError::UrlParse(*error),
            ResolveUrlOrPathError::PathToUrl(error) => {
                ResolveUrlOrPathError::PathToUrl(error.copy()?)
            }
            ResolveUrlOrPathError::OutOfMemory => ResolveUrlOrPathError::OutOfMemory,
        })
    }
}

impl From<AllocError> for ResolveUrlOrPathError {
    ghost from_gives = { λ _ e. e ≡ resolve.OutOfMemory };

    fn from(_: AllocError) -> ResolveUrlOrPathError {
        ResolveUrlOrPathError::OutOfMemory
    }
}
